//! What rules make of classes of trees, counted without the trees.

ghost use Rattle.std.specs.Prelude.{◌≡◌, ℕ, ◌<◌, ◌≤◌, ◌+◌, All, IfOk, OnOk, length, map};
ghost use Rattle.chart_core.specs.Kept.{core_of, rows_in};
ghost use Rattle.tree_model.specs.Counts as counts;
ghost use Rattle.forest_unpack.specs.Items.{AreChosen, chosen_items, full_values};
ghost use Rattle.forest_unpack.specs.Plans.{Fits, IsPlan, row_of};
ghost use Rattle.forest_unpack.specs.Inner.Classes.{AreFit, CountsAllOf, CountsOf, IsCounting, IsFit, classes_at, classes_of};
ghost use Rattle.forest_unpack.specs.Inner.Memos.{IsMemo, IsNumbered, IsReachedItem, Learned, known_in};

use crate::chosen::Chosen;
use crate::counted::CountedTree;
use crate::groups::group_of;
use crate::item::Item;
use crate::listing::Plan;
use crate::lists::{find, nothing, try_rule};
use crate::memo::Memo;
use crate::rows::GroupRow;
use crate::tallies::{Class, counted_at, raise_at};
use crate::{Fulls, NoMemory};
use chart_model::Shapes;
use std::alloc::Global;

/// What phrases of a rule are counted by: the rule, the classes of the hosts that are daughters, and the most classes of a host.
#[derive(Drop)]
struct Counting<'x, F: Fulls> {
    fulls: &'x F,
    rule: u32,
    table: &'x [Vec<Class<F>>],
    most: usize,
}

/// Daughters that were chosen, and in how many ways trees of their full structures can be: never more than there are.
#[derive(Drop)]
struct Picked<'x, F: Fulls> {
    chosen: Chosen<'x, F>,
    times: u64,
}

/// Counts phrases of a rule over daughters of these full structures as a new class, if it makes them; true where there was no room for it.
fn count_new<F: Fulls>(
    alloc: Global,
    by: &Counting<F>,
    work: &mut F::Work,
    memo: &mut Memo<F>,
    picked: &Picked<F>,
    made: &mut Vec<Class<F>>,
) -> Result<bool, NoMemory>
    requires chosen { AreChosen picked.now.chosen }
    requires rule { F.ruled by.now.fulls.now by.now.rule picked.now.chosen.count }
    requires reached { All (IsReachedItem (F.value by.now.fulls.now) (F.wholes by.now.fulls.now) (F.named by.now.fulls.now)) (chosen_items picked.now.chosen) }
    requires memo { IsMemo (F.value by.now.fulls.now) (F.wholes by.now.fulls.now) memo.old }
    requires numbered { All (IsNumbered (F.value by.now.fulls.now) (known_in (F.value by.now.fulls.now) memo.old)) (chosen_items picked.now.chosen) }
    requires made { All (IsFit (F.value by.now.fulls.now) (F.wholes by.now.fulls.now) (F.named by.now.fulls.now) (known_in (F.value by.now.fulls.now) memo.old)) made.old.items }
    ensures memo { OnOk result (Learned (F.value by.now.fulls.now) (F.wholes by.now.fulls.now) memo.old memo.new) }
    ensures made { OnOk result (All (IsFit (F.value by.now.fulls.now) (F.wholes by.now.fulls.now) (F.named by.now.fulls.now) (known_in (F.value by.now.fulls.now) memo.new)) made.new.items) }
    ensures counts { OnOk result (CountsOf (F.value by.now.fulls.now) (F.wholes by.now.fulls.now) by.now.rule (full_values (F.value by.now.fulls.now) picked.now.chosen) picked.now.times made.old.items made.new.items) }
{
    if made.len() >= by.most {
        return Ok(true);
    }
    match try_rule(alloc, by.fulls, work, memo, by.rule, &picked.chosen)? {
        None => Ok(false),
        Some(item) => {
            let times = picked.times;
            made.push(Class { item, times })?;
            Ok(false)
        }
    }
}

/// Counts phrases of a rule over daughters of these full structures, if it makes them; true where there was no room for their class.
fn count_made<F: Fulls>(
    alloc: Global,
    by: &Counting<F>,
    work: &mut F::Work,
    memo: &mut Memo<F>,
    picked: &Picked<F>,
    made: &mut Vec<Class<F>>,
) -> Result<bool, NoMemory>
    requires chosen { AreChosen picked.now.chosen }
    requires rule { F.ruled by.now.fulls.now by.now.rule picked.now.chosen.count }
    requires reached { All (IsReachedItem (F.value by.now.fulls.now) (F.wholes by.now.fulls.now) (F.named by.now.fulls.now)) (chosen_items picked.now.chosen) }
    requires memo { IsMemo (F.value by.now.fulls.now) (F.wholes by.now.fulls.now) memo.old }
    requires numbered { All (IsNumbered (F.value by.now.fulls.now) (known_in (F.value by.now.fulls.now) memo.old)) (chosen_items picked.now.chosen) }
    requires made { All (IsFit (F.value by.now.fulls.now) (F.wholes by.now.fulls.now) (F.named by.now.fulls.now) (known_in (F.value by.now.fulls.now) memo.old)) made.old.items }
    ensures memo { OnOk result (Learned (F.value by.now.fulls.now) (F.wholes by.now.fulls.now) memo.old memo.new) }
    ensures made { OnOk result (All (IsFit (F.value by.now.fulls.now) (F.wholes by.now.fulls.now) (F.named by.now.fulls.now) (known_in (F.value by.now.fulls.now) memo.new)) made.new.items) }
    ensures counts { OnOk result (CountsOf (F.value by.now.fulls.now) (F.wholes by.now.fulls.now) by.now.rule (full_values (F.value by.now.fulls.now) picked.now.chosen) picked.now.times made.old.items made.new.items) }
{
    let Some(number) = find(alloc, by.fulls, work, memo, by.rule, &picked.chosen)? else {
        return Ok(false);
    };
    if raise_at(made, number, picked.times) {
        return Ok(false);
    }
    count_new(alloc, by, work, memo, picked, made)
}

/// Counts the phrases of a rule over the daughters picked and one of each class of each further host; true where there was no room for a class.
fn count_all<'x, F: Fulls>(
    alloc: Global,
    by: &Counting<'x, F>,
    work: &mut F::Work,
    memo: &mut Memo<F>,
    picked: &Picked<'x, F>,
    rest: &[u64],
    made: &mut Vec<Class<F>>,
) -> Result<bool, NoMemory>
    requires chosen { AreChosen picked.now.chosen }
    requires rule { F.ruled by.now.fulls.now by.now.rule (picked.now.chosen.count + length rest.now) }
    requires short { picked.now.chosen.count + length rest.now ≤ 4 }
    requires table { AreFit (F.value by.now.fulls.now) (F.wholes by.now.fulls.now) (F.named by.now.fulls.now) (known_in (F.value by.now.fulls.now) memo.old) by.now.table.now }
    requires reached { All (IsReachedItem (F.value by.now.fulls.now) (F.wholes by.now.fulls.now) (F.named by.now.fulls.now)) (chosen_items picked.now.chosen) }
    requires memo { IsMemo (F.value by.now.fulls.now) (F.wholes by.now.fulls.now) memo.old }
    requires numbered { All (IsNumbered (F.value by.now.fulls.now) (known_in (F.value by.now.fulls.now) memo.old)) (chosen_items picked.now.chosen) }
    requires made { All (IsFit (F.value by.now.fulls.now) (F.wholes by.now.fulls.now) (F.named by.now.fulls.now) (known_in (F.value by.now.fulls.now) memo.old)) made.old.items }
    ensures memo { OnOk result (Learned (F.value by.now.fulls.now) (F.wholes by.now.fulls.now) memo.old memo.new) }
    ensures made { OnOk result (All (IsFit (F.value by.now.fulls.now) (F.wholes by.now.fulls.now) (F.named by.now.fulls.now) (known_in (F.value by.now.fulls.now) memo.new)) made.new.items) }
    ensures counts { OnOk result (CountsAllOf (F.value by.now.fulls.now) (F.wholes by.now.fulls.now) by.now.rule (full_values (F.value by.now.fulls.now) picked.now.chosen) picked.now.times (map (classes_at (F.value by.now.fulls.now) by.now.table.now) rest.now) made.old.items made.new.items) }
{
    let Some((host, more)) = rest.split_first() else {
        return count_made(alloc, by, work, memo, picked, made);
    };
    for class in counted_at(by.table, *host) {
        let chosen = picked.chosen.with(&class.item);
        let times = picked.times.saturating_mul(class.times);
        let next = Picked { chosen, times };
        if count_all(alloc, by, work, memo, &next, more, made)? {
            return Ok(true);
        }
    }
    Ok(false)
}

/// Counts the trees that a row gives, by what was counted of its daughters' hosts; true where there was no room for a class.
fn count_row<S: Shapes, F: Fulls>(
    alloc: Global,
    plan: &Plan<S, F>,
    work: &mut F::Work,
    memo: &mut Memo<F>,
    row: &GroupRow,
    table: &[Vec<Class<F>>],
    made: &mut Vec<Class<F>>,
) -> Result<bool, NoMemory>
    requires row { (host : ℕ) × Fits (F.named plan.now.fulls.now) (F.ruled plan.now.fulls.now) (length (rows_in (core_of plan.now.finished.now))) plan.now.ranks.now host (row_of row.now) }
    requires table { AreFit (F.value plan.now.fulls.now) (F.wholes plan.now.fulls.now) (F.named plan.now.fulls.now) (known_in (F.value plan.now.fulls.now) memo.old) table.now }
    requires memo { IsMemo (F.value plan.now.fulls.now) (F.wholes plan.now.fulls.now) memo.old }
    requires made { All (IsFit (F.value plan.now.fulls.now) (F.wholes plan.now.fulls.now) (F.named plan.now.fulls.now) (known_in (F.value plan.now.fulls.now) memo.old)) made.old.items }
    ensures memo { OnOk result (Learned (F.value plan.now.fulls.now) (F.wholes plan.now.fulls.now) memo.old memo.new) }
    ensures made { OnOk result (All (IsFit (F.value plan.now.fulls.now) (F.wholes plan.now.fulls.now) (F.named plan.now.fulls.now) (known_in (F.value plan.now.fulls.now) memo.new)) made.new.items) }
    ensures counts { OnOk result (counts.CountsRow (F.wholes plan.now.fulls.now) (classes_at (F.value plan.now.fulls.now) table.now) (row_of row.now) (classes_of (F.value plan.now.fulls.now) made.old.items) (classes_of (F.value plan.now.fulls.now) made.new.items)) }
{
    match row {
        GroupRow::Leaf { name } => {
            let (full, tree) = plan.fulls.leaf(alloc, *name)?;
            let number = memo.number(alloc, plan.fulls, full)?;
            if raise_at(made, number, 1) {
                return Ok(false);
            }
            let full = memo.full(number)?;
            let tree = CountedTree { tree };
            let item = Item { full, number, tree };
            made.push(Class { item, times: 1 })?;
            Ok(false)
        }
        GroupRow::Whole { rule, daughters } => {
            let none = nothing();
            let picked = Picked {
                chosen: none,
                times: 1,
            };
            let by = Counting {
                fulls: plan.fulls,
                rule: *rule,
                table,
                most: plan.most,
            };
            count_all(alloc, &by, work, memo, &picked, daughters, made)
        }
    }
}

/// The classes of the trees of a host, by those of its daughters' hosts.
pub fn count_host<S: Shapes, F: Fulls>(
    alloc: Global,
    plan: &Plan<S, F>,
    work: &mut F::Work,
    memo: &mut Memo<F>,
    host: u64,
    table: &[Vec<Class<F>>],
) -> Result<Vec<Class<F>>, NoMemory>
    requires plan { IsPlan (F.named plan.now.fulls.now) (F.ruled plan.now.fulls.now) (rows_in (core_of plan.now.finished.now)) plan.now.members.now.last.items plan.now.members.now.before.items plan.now.ranks.now }
    requires host { host < length (rows_in (core_of plan.now.finished.now)) }
    requires table { AreFit (F.value plan.now.fulls.now) (F.wholes plan.now.fulls.now) (F.named plan.now.fulls.now) (known_in (F.value plan.now.fulls.now) memo.old) table.now }
    requires memo { IsMemo (F.value plan.now.fulls.now) (F.wholes plan.now.fulls.now) memo.old }
    ensures memo { OnOk result (Learned (F.value plan.now.fulls.now) (F.wholes plan.now.fulls.now) memo.old memo.new) }
    ensures made { IfOk result (λ made. All (IsFit (F.value plan.now.fulls.now) (F.wholes plan.now.fulls.now) (F.named plan.now.fulls.now) (known_in (F.value plan.now.fulls.now) memo.new)) made.items) }
    ensures counts { IfOk result (λ made. IsCounting (F.value plan.now.fulls.now) (F.wholes plan.now.fulls.now) (rows_in (core_of plan.now.finished.now)) table.now host made.items) }
{
    let group = group_of(alloc, plan.finished, plan.members, plan.ranks, host)?;
    let mut made = Vec::new(alloc);
    for row in &group {
        if count_row(alloc, plan, work, memo, row, table, &mut made)? {
            return Ok(made);
        }
    }
    Ok(made)
}
