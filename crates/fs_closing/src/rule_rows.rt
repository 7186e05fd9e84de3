//! For each type, the rules whose type is at or above it.

ghost use Rattle.std.specs.Prelude.{◌≡◌, ◌≢◌, ℕ, ◌<◌, ◌≤◌, ◌^◌, length, map, IfOk, OnOk, slice_index_or};
ghost use Rattle.type_hierarchy.specs.Table.{count_of, completed_count};
ghost use Rattle.fs_closing.specs.Rules.{no_rule, rules_above, HaveTypesIn, HaveSame};
ghost use Rattle.fs_closing.specs.Systems.{rules_of};
ghost use Rattle.fs_closing.specs.Inner.Outlines.{IsOutline};
ghost use Rattle.fs_closing.specs.Inner.RuleRows.{HaveRows, AddsRow, IsShared, HaveOwn};

use crate::NoMemory;
use crate::facts::TypeFacts;
use crate::outline::{Outline, outline_of, type_of};
use std::alloc::{AllocError, Global};
use type_hierarchy::{Ty, Types};

/// Rows of places of rules, and the row that each type has.
#[derive(Drop)]
pub struct RuleRows {
    pub rows: Vec<Vec<u32>>,
    pub row_of: Vec<u32>,
}

/// Rows of places of rules, and the number of the one that strings share of which there is no rule.
#[derive(Drop)]
pub struct Rows {
    pub list: Vec<Vec<u32>>,
    pub shared: Option<u32>,
}

// The places of the constraints with facts whose type is at or above a type.
fn row_above(
    alloc: Global,
    types: &Types,
    constraints: &[TypeFacts],
    outline: &Outline,
    t: u32,
) -> Result<Vec<u32>, AllocError>
    requires t_in { t < count_of types.now }
    requires types_in { HaveTypesIn (count_of types.now) (rules_of constraints.now) }
    requires outline { IsOutline types.now (rules_of constraints.now) outline.now.order.items outline.now.ends.items }
    ensures { IfOk result (λ row. HaveSame row.items (rules_above types.now (rules_of constraints.now) t)) }
{
    types.laws();
    let mut row = Vec::new(alloc);
    let mut i = 0;
    while i < outline.order.len() {
        let place = outline.order[i];
        if types.at_or_below(Ty(t), type_of(constraints, place)) {
            row.push(place)?;
            i += 1;
        } else {
            i = outline.ends[i];
        }
    }
    Ok(row)
}

// The number of the next row, where a u32 holds it.
fn row_count(rows: &Vec<Vec<u32>>) -> Result<u32, NoMemory>
    ensures { IfOk result (λ n. n ≡ length rows.now.items) }
{
    u32::try_from(rows.len()).map_err(|_| NoMemory)
}

// Adds the row of a type. The answer is its number.
fn new_row(
    alloc: Global,
    types: &Types,
    constraints: &[TypeFacts],
    outline: &Outline,
    rows: &mut Vec<Vec<u32>>,
    t: u32,
) -> Result<u32, NoMemory>
    requires outline { IsOutline types.now (rules_of constraints.now) outline.now.order.items outline.now.ends.items }
    requires t_in { t < count_of types.now }
    requires types_in { HaveTypesIn (count_of types.now) (rules_of constraints.now) }
    ensures { IfOk result (λ r. AddsRow (map (λ row. row.items) rows.old.items) (map (λ row. row.items) rows.new.items) r (rules_above types.now (rules_of constraints.now) t)) }
{
    let number = row_count(rows)?;
    let row = row_above(alloc, types, constraints, outline, t)?;
    rows.push(row)?;
    Ok(number)
}

// The number of the row that strings share of which there is no rule. It is added for the first of them.
fn shared_row(
    alloc: Global,
    types: &Types,
    constraints: &[TypeFacts],
    outline: &Outline,
    rows: &mut Rows,
    t: u32,
) -> Result<u32, NoMemory>
    requires outline { IsOutline types.now (rules_of constraints.now) outline.now.order.items outline.now.ends.items }
    requires t_in { t < count_of types.now }
    requires string { completed_count types.now ≤ t }
    requires types_in { HaveTypesIn (count_of types.now) (rules_of constraints.now) }
    requires no_rule_of { (j : ℕ) → j < length constraints.now → (slice_index_or (rules_of constraints.now) j no_rule).ty ≢ t }
    requires shared { IsShared types.now (rules_of constraints.now) (map (λ row. row.items) rows.old.list.items) rows.old.shared }
    ensures row { IfOk result (λ r. AddsRow (map (λ row. row.items) rows.old.list.items) (map (λ row. row.items) rows.new.list.items) r (rules_above types.now (rules_of constraints.now) t)) }
    ensures shared { OnOk result (IsShared types.now (rules_of constraints.now) (map (λ row. row.items) rows.new.list.items) rows.new.shared) }
{
    if let Some(number) = rows.shared {
        return Ok(number);
    }
    let number = new_row(alloc, types, constraints, outline, &mut rows.list, t)?;
    rows.shared = Some(number);
    Ok(number)
}

// For each type, whether there is a rule of it.
fn owners(alloc: Global, count: u32, constraints: &[TypeFacts]) -> Result<Vec<bool>, AllocError>
    requires { HaveTypesIn count (rules_of constraints.now) }
    ensures { IfOk result (λ own. HaveOwn (rules_of constraints.now) (length constraints.now) count own.items) }
{
    let mut own = vec![in alloc; false; count as usize]?;
    for j in 0..constraints.len() {
        own[constraints[j].ty.0 as usize] = true;
    }
    Ok(own)
}

// The number of the row of a type.
fn row_number(
    alloc: Global,
    types: &Types,
    constraints: &[TypeFacts],
    outline: &Outline,
    own: &[bool],
    rows: &mut Rows,
    t: u32,
) -> Result<u32, NoMemory>
    requires outline { IsOutline types.now (rules_of constraints.now) outline.now.order.items outline.now.ends.items }
    requires t_in { t < count_of types.now }
    requires types_in { HaveTypesIn (count_of types.now) (rules_of constraints.now) }
    requires own { HaveOwn (rules_of constraints.now) (length constraints.now) (count_of types.now) own.now }
    requires shared { IsShared types.now (rules_of constraints.now) (map (λ row. row.items) rows.old.list.items) rows.old.shared }
    ensures row { IfOk result (λ r. AddsRow (map (λ row. row.items) rows.old.list.items) (map (λ row. row.items) rows.new.list.items) r (rules_above types.now (rules_of constraints.now) t)) }
    ensures shared { OnOk result (IsShared types.now (rules_of constraints.now) (map (λ row. row.items) rows.new.list.items) rows.new.shared) }
{
    let completed = types.counts().completed;
    if completed <= t && !own[t as usize] {
        let number = shared_row(alloc, types, constraints, outline, rows, t)?;
        return Ok(number);
    }
    let number = new_row(alloc, types, constraints, outline, &mut rows.list, t)?;
    Ok(number)
}

/// The rows of all types. Strings of which there is no rule share one, so that they cost nothing beside its number.
pub fn rule_rows(
    alloc: Global,
    types: &Types,
    constraints: &[TypeFacts],
) -> Result<RuleRows, NoMemory>
    requires small { length constraints.now < 2 ^ 32 }
    requires types_in { HaveTypesIn (count_of types.now) (rules_of constraints.now) }
    ensures { IfOk result (λ table. HaveRows types.now (rules_of constraints.now) (map (λ row. row.items) table.rows.items) table.row_of.items (count_of types.now)) }
{
    let all = types.counts().all;
    let outline = outline_of(alloc, types, constraints)?;
    let own = owners(alloc, all, constraints)?;
    let mut rows = Rows {
        list: Vec::new(alloc),
        shared: None,
    };
    let mut row_of = Vec::with_capacity(alloc, all as usize)?;
    for t in 0..all {
        let number = row_number(alloc, types, constraints, &outline, &own, &mut rows, t)?;
        row_of.push(number)?;
    }
    Ok(RuleRows {
        rows: rows.list,
        row_of,
    })
}
