//! The tables of a frame.

ghost use Rattle.std.specs.Prelude.{◌≡◌, ◌<◌, ◌≤◌, ◌++◌, ◌∷◌, [], ◌↔◌, ◌⊎◌, ℕ, Contains, IfOk, OnOk, IsTrue, length, map, set, slice_index, slice_index_or, MatchOption, false, true};
ghost use Rattle.scope_model.specs.declared.Opening.{Opening};
ghost use Rattle.scope_model.specs.declared.Qeq.{Qeq};
ghost use Rattle.scope_model.specs.Readings.{Plugged, Rise, IsReading};
ghost use Rattle.scope_model.specs.States.{AreApart};
ghost use Rattle.scope_resolve.specs.Inner.Nets.{IsLinked, IsNet, frame_in};

use crate::nets::{Net, Parts, mark_at};
use mrs_model::NoMemory;
use scope_model::{Opening, Qeq, Quantifier};
use std::alloc::Global;

// A length above this number, and no shorter than before.
fn larger(room: usize, number: u32) -> usize
    ensures low { room ≤ result }
    ensures above { number < result }
{
    let number = number as usize;
    if number >= room {
        return number + 1;
    }
    room
}

// How long a table of these numbers is.
fn room(numbers: &[u32]) -> usize
    ensures { (v : ℕ) → Contains numbers.now v → v < result }
{
    let mut room = 0usize;
    for k in 0..numbers.len() {
        room = larger(room, numbers[k]);
    }
    room
}

fn mark(marks: &mut Vec<bool>, number: u32)
    requires { number < length marks.old.items }
    ensures { marks.new.items ≡ set marks.old.items number true }
{
    marks[number as usize] = true;
}

// A table in which these numbers are marked.
fn marks(alloc: Global, numbers: &[u32]) -> Result<Vec<bool>, NoMemory>
    ensures { IfOk result (λ ms. (v : ℕ) → (slice_index_or ms.items v false ≡ true) ↔ Contains numbers.now v) }
{
    let room = room(numbers);
    let mut out = vec![in alloc; false; room]?;
    for k in 0..numbers.len() {
        mark(&mut out, numbers[k]);
    }
    Ok(out)
}

// (a number past u32 has no room in the list)
fn number_of(at: usize) -> Result<u32, NoMemory>
    ensures { IfOk result (λ n. n ≡ at) }
{
    match u32::try_from(at) {
        Ok(number) => Ok(number),
        Err(_) => Err(NoMemory),
    }
}

fn put_marked(is_marked: bool, at: usize, out: &mut Vec<u32>) -> Result<(), NoMemory>
    ensures marked { OnOk result (is_marked ≡ true → out.new.items ≡ out.old.items ++ at ∷ []) }
    ensures other { OnOk result (is_marked ≡ false → out.new.items ≡ out.old.items) }
{
    if !is_marked {
        return Ok(());
    }
    let number = number_of(at)?;
    out.push(number)?;
    Ok(())
}

// The numbers that are marked, in rising order.
fn marked(alloc: Global, marks: &[bool]) -> Result<Vec<u32>, NoMemory>
    ensures rise { IfOk result (λ out. Rise out.items) }
    ensures has { IfOk result (λ out. (v : ℕ) → Contains out.items v ↔ (slice_index_or marks.now v false ≡ true)) }
{
    let mut out = Vec::new(alloc);
    for at in 0..marks.len() {
        put_marked(marks[at], at, &mut out)?;
    }
    Ok(out)
}

fn holes(alloc: Global, openings: &[Opening]) -> Result<Vec<u32>, NoMemory>
    ensures { IfOk result (λ out. out.items ≡ map (λ o. o.hole) openings.now) }
{
    let mut out = Vec::with_capacity(alloc, openings.len())?;
    for k in 0..openings.len() {
        let opening = openings[k];
        out.push(opening.hole)?;
    }
    Ok(out)
}

fn bodies(alloc: Global, quantifiers: &[Quantifier]) -> Result<Vec<u32>, NoMemory>
    ensures { IfOk result (λ out. out.items ≡ map (λ q. q.body) quantifiers.now) }
{
    let mut out = Vec::with_capacity(alloc, quantifiers.len())?;
    for k in 0..quantifiers.len() {
        let quantifier = quantifiers[k];
        out.push(quantifier.body)?;
    }
    Ok(out)
}

fn own(owner: &mut Vec<u32>, hole: u32, label: u32)
    requires { hole < length owner.old.items }
    ensures { owner.new.items ≡ set owner.old.items hole label }
{
    owner[hole as usize] = label;
}

// The label of each hole, where no hole stands in two roles. `room` is above each hole.
fn owners(alloc: Global, openings: &[Opening], room: usize) -> Result<Option<Vec<u32>>, NoMemory>
    requires { (o : Opening) → Contains openings.now o → o.hole < room }
    ensures { IfOk result (λ r. MatchOption r (AreApart openings.now → ⊥) (λ owner. AreApart openings.now × ((o : Opening) → Contains openings.now o → slice_index owner.items o.hole ≡ o.label))) }
{
    let mut owner = vec![in alloc; 0; room]?;
    let mut seen = vec![in alloc; false; room]?;
    for k in 0..openings.len() {
        let opening = openings[k];
        if mark_at(&seen, opening.hole) {
            return Ok(None);
        }
        mark(&mut seen, opening.hole);
        own(&mut owner, opening.hole, opening.label);
    }
    Ok(Some(owner))
}

// Whether each constraint ends at a label.
fn end_at_labels(qeqs: &[Qeq], is_label: &[bool]) -> bool
    ensures { IsTrue result ↔ ((c : Qeq) → Contains qeqs.now c → slice_index_or is_label.now c.right false ≡ true) }
{
    for k in 0..qeqs.len() {
        let qeq = qeqs[k];
        if !mark_at(is_label, qeq.right) {
            return false;
        }
    }
    true
}

// Whether TOP is a label, or nothing that is plugged.
fn is_top(top: u32, is_label: &[bool], is_hole: &[bool]) -> bool
    ensures yes { result ≡ true → (slice_index_or is_label.now top false ≡ true) ⊎ (slice_index_or is_hole.now top false ≡ false) }
    ensures no { result ≡ false → (slice_index_or is_label.now top false ≡ false) × (slice_index_or is_hole.now top false ≡ true) }
{
    if mark_at(is_label, top) {
        return true;
    }
    !mark_at(is_hole, top)
}

/// A frame with its tables. None comes only where it has no reading: a hole stands in two roles, a constraint doesn't end at a label, or TOP
/// is a hole and no label.
pub(crate) fn net_of(alloc: Global, parts: Parts) -> Result<Option<Net>, NoMemory>
    requires { IsLinked (frame_in parts) }
    ensures { IfOk result (λ r. MatchOption r ((p : Plugged) → IsReading (frame_in parts) p → ⊥) (λ net. IsNet net × (net.parts ≡ parts))) }
{
    let is_label = marks(alloc, &parts.labels)?;
    let all_holes = holes(alloc, &parts.openings)?;
    let is_hole = marks(alloc, &all_holes)?;
    if !end_at_labels(&parts.qeqs, &is_label) {
        return Ok(None);
    }
    if !is_top(parts.top, &is_label, &is_hole) {
        return Ok(None);
    }
    let bodies = bodies(alloc, &parts.quantifiers)?;
    let is_body = marks(alloc, &bodies)?;
    let room = room(&all_holes);
    let owners = owners(alloc, &parts.openings, room)?;
    let labels = marked(alloc, &is_label)?;
    let holes = marked(alloc, &is_hole)?;
    match owners {
        Some(owner) => Ok(Some(Net {
            parts,
            labels,
            holes,
            owner,
            is_body,
            is_label,
        })),
        None => Ok(None),
    }
}
