//! Rules in an order in which those of subtypes stand behind those of their supertypes.

ghost use Rattle.std.specs.Prelude.{◌≡◌, ℕ, ◌<◌, ◌^◌, ◌++◌, ◌∷◌, [], length, if◌then◌else◌, IfOk, OnOk, IfSome, true, false, slice_index_or};
ghost use Rattle.type_hierarchy.specs.Table.{count_of};
ghost use Rattle.fs_model.specs.Claims.{Has};
ghost use Rattle.fs_closing.specs.Rules.{no_rule, has_facts, rules_with_facts, HaveTypesIn, HaveSame};
ghost use Rattle.fs_closing.specs.Systems.{rule_of, rules_of};
ghost use Rattle.fs_closing.specs.Inner.Outlines.{AreMarks, IsEnd, AreEnds, IsOutline};

use crate::facts::TypeFacts;
use fs_graph::Fact;
use std::alloc::{AllocError, Global};
use type_hierarchy::{Ty, Types};

/// Places of rules that have facts. The rules from place i to the end of i are of types at or below that of the rule at i,
/// so a type that isn't below this one is below none of theirs.
#[derive(Drop)]
pub struct Outline {
    pub order: Vec<u32>,
    pub ends: Vec<usize>,
}

/// Whether there are facts of a type.
pub fn says_something(constraint: &TypeFacts) -> bool
    ensures { result ≡ has_facts (rule_of constraint.now) }
{
    0 < constraint.facts.len()
}

/// The type of the rule at a place.
pub fn type_of(constraints: &[TypeFacts], place: u32) -> Ty
    requires { place < length constraints.now }
    ensures { result.0 ≡ (slice_index_or (rules_of constraints.now) place no_rule).ty }
{
    constraints[place as usize].ty
}

// The places of the constraints that have facts.
fn with_facts(alloc: Global, constraints: &[TypeFacts]) -> Result<Vec<u32>, AllocError>
    requires { length constraints.now < 2 ^ 32 }
    ensures { IfOk result (λ places. places.items ≡ rules_with_facts (rules_of constraints.now)) }
{
    let mut places = Vec::new(alloc);
    for j in 0..constraints.len() {
        let wanted = says_something(&constraints[j]);
        push_if(&mut places, wanted, j as u32)?;
    }
    Ok(places)
}

// Adds a number where it is wanted.
fn push_if(row: &mut Vec<u32>, wanted: bool, number: u32) -> Result<(), AllocError>
    ensures { OnOk result (row.new.items ≡ row.old.items ++ (if wanted then number ∷ [] else [])) }
{
    if wanted {
        row.push(number)?;
    }
    Ok(())
}

// The first type that facts put their own type under.
fn first_supertype(constraint: &TypeFacts) -> Option<Ty> {
    for fact in &constraint.facts {
        if let Fact::Below { path, ty } = fact {
            if path.is_empty() {
                return Some(*ty);
            }
        }
    }
    None
}

// The place noted for a type, if any.
fn noted(places: &[u32], ty: Option<Ty>, none: u32) -> u32 {
    if let Some(t) = ty {
        if (t.0 as usize) < places.len() {
            return places[t.0 as usize];
        }
    }
    none
}

// Notes a place for a type.
fn note(places: &mut [u32], ty: Ty, place: u32) {
    if (ty.0 as usize) < places.len() {
        places[ty.0 as usize] = place;
    }
}

// Puts a place behind another one in a chain.
fn hang(chain: &mut [u32], at: u32, place: u32) {
    if (at as usize) < chain.len() && (place as usize) < chain.len() {
        chain[place as usize] = chain[at as usize];
        chain[at as usize] = place;
    }
}

// The rules with facts as a chain: for each place the next one. Each rule was put right behind that of its first supertype,
// so that all that stand behind that one are below it. The chain begins and ends at the place past all rules.
fn chain_of(alloc: Global, count: u32, constraints: &[TypeFacts]) -> Result<Vec<u32>, AllocError>
    requires { length constraints.now < 2 ^ 32 }
{
    let none = constraints.len() as u32;
    let mut places = vec![in alloc; none; count as usize]?;
    let mut chain = vec![in alloc; none; constraints.len() + 1]?;
    for j in 0..constraints.len() {
        let constraint = &constraints[j];
        if says_something(constraint) {
            let at = noted(&places, first_supertype(constraint), none);
            hang(&mut chain, at, j as u32);
            note(&mut places, constraint.ty, j as u32);
        }
    }
    Ok(chain)
}

// The places of a chain in their order.
fn places_along(alloc: Global, chain: &[u32]) -> Result<Vec<u32>, AllocError> {
    let mut places = Vec::with_capacity(alloc, chain.len())?;
    let mut at = chain.len();
    for _ in 0..chain.len() {
        let here = if at < chain.len() {
            at
        } else {
            chain.len() - 1
        };
        at = chain[here] as usize;
        if at + 1 >= chain.len() {
            return Ok(places);
        }
        places.push(at as u32)?;
    }
    Ok(places)
}

// A mark for each rule that a list has, or `None` where the list has something else than places of rules with facts.
fn marks_of(
    alloc: Global,
    constraints: &[TypeFacts],
    list: &[u32],
) -> Result<Option<Vec<bool>>, AllocError>
    ensures { IfOk result (λ o. IfSome o (λ marks. AreMarks (rules_of constraints.now) list.now marks.items)) }
{
    let mut marks = vec![in alloc; false; constraints.len()]?;
    for j in list {
        let place = *j as usize;
        if place >= constraints.len() {
            return Ok(None);
        }
        if !says_something(&constraints[place]) {
            return Ok(None);
        }
        marks[place] = true;
    }
    Ok(Some(marks))
}

// Whether places are all marked.
fn are_marked(marks: &[bool], places: &[u32]) -> bool
    requires { (j : ℕ) → Has j places.now → j < length marks.now }
    ensures { result ≡ true → (j : ℕ) → Has j places.now → slice_index_or marks.now j false ≡ true }
{
    for j in places {
        if !marks[*j as usize] {
            return false;
        }
    }
    true
}

// The places of rules with facts, those of subtypes behind those of their supertypes. Any order would do, but this one makes
// rows cheap.
fn order_of(alloc: Global, count: u32, constraints: &[TypeFacts]) -> Result<Vec<u32>, AllocError>
    requires { length constraints.now < 2 ^ 32 }
    ensures { IfOk result (λ order. HaveSame order.items (rules_with_facts (rules_of constraints.now))) }
{
    let places = with_facts(alloc, constraints)?;
    let chain = chain_of(alloc, count, constraints)?;
    let order = places_along(alloc, &chain)?;
    let marks = marks_of(alloc, constraints, &order)?;
    if let Some(marks) = marks {
        if are_marked(&marks, &places) {
            return Ok(order);
        }
    }
    Ok(places)
}

// The end of the rules behind a place whose types are at or below the type of the rule there.
fn end_of(types: &Types, constraints: &[TypeFacts], order: &[u32], i: usize) -> usize
    requires i_in { i < length order.now }
    requires types_in { HaveTypesIn (count_of types.now) (rules_of constraints.now) }
    requires order { HaveSame order.now (rules_with_facts (rules_of constraints.now)) }
    ensures { IsEnd types.now (rules_of constraints.now) order.now i result }
{
    let ty = type_of(constraints, order[i]);
    for k in i + 1..order.len() {
        let other = type_of(constraints, order[k]);
        if !types.at_or_below(other, ty) {
            return k;
        }
    }
    order.len()
}

/// The rules with facts and their ends.
pub fn outline_of(
    alloc: Global,
    types: &Types,
    constraints: &[TypeFacts],
) -> Result<Outline, AllocError>
    requires small { length constraints.now < 2 ^ 32 }
    requires types_in { HaveTypesIn (count_of types.now) (rules_of constraints.now) }
    ensures { IfOk result (λ o. IsOutline types.now (rules_of constraints.now) o.order.items o.ends.items) }
{
    let order = order_of(alloc, types.counts().all, constraints)?;
    let mut ends = Vec::with_capacity(alloc, order.len())?;
    for i in 0..order.len() {
        let end = end_of(types, constraints, &order, i);
        ends.push(end)?;
    }
    Ok(Outline { order, ends })
}
