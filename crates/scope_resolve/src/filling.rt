//! The search: plugs from the top down.

ghost use Rattle.std.specs.Prelude.{◌≡◌, ◌<◌, ◌≤◌, ◌++◌, ◌∷◌, [], ◌↔◌, IsTrue, ℕ, Contains, MatchOption, IfOk, OnOk, map, length, drop, slice_index_or, true, false};
ghost use Rattle.scope_model.specs.declared.Opening.{Opening};
ghost use Rattle.scope_model.specs.States.{IsOpen, IsPlaced, IsFilled, IsFull};
ghost use Rattle.scope_model.specs.Answers.{plugged_of};
ghost use Rattle.scope_resolve.specs.Inner.Nets.{IsNet, frame_in};
ghost use Rattle.scope_resolve.specs.Inner.Filling.{IsGoing, IsKept, IsOpenAt, state_of, AreFound, GoesOn, HasAt, path, plug_here, plugged_here};
ghost use Rattle.scope_resolve.specs.Inner.Pruning.{IsPlan, IsSeen, AreSeats, AreCandidates};

use crate::nets::{Net, mark_at};
use crate::search::Search;
use crate::sounding::is_sound;
use crate::trail::Trail;
use crate::ways::Ways;
use mrs_model::NoMemory;
use scope_model::{Plug, Plugging};
use std::alloc::Global;

/// An open hole, and where the labels that are to be tried in it begin.
#[derive(Clone, Copy)]
struct Turn {
    hole: u32,
    from: usize,
}

// A label that isn't plugged in.
fn unplaced(net: &Net, ways: &Ways) -> Option<u32>
    ensures { MatchOption result ((l : ℕ) → Contains net.now.labels.items l → slice_index_or ways.now.placed.items l false ≡ true) (λ l. Contains net.now.labels.items l × (slice_index_or ways.now.placed.items l false ≡ false)) }
{
    for k in 0..net.labels.len() {
        let label = net.labels[k];
        if !mark_at(&ways.placed, label) {
            return Some(label);
        }
    }
    None
}

// The label that a hole has, and 0 for one without.
fn label_or_zero(trail: &Trail, hole: u32) -> u32
    ensures { result ≡ (plug_here (path trail.now) hole).label }
{
    match trail.label_at(hole) {
        Some(label) => label,
        None => 0,
    }
}

// The holes with their labels.
fn plugging_of(alloc: Global, net: &Net, trail: &Trail) -> Result<Plugging, NoMemory>
    ensures { IfOk result (λ p. plugged_of p ≡ plugged_here trail.now net.now.holes.items) }
{
    let mut holes = Vec::with_capacity(alloc, net.holes.len())?;
    for k in 0..net.holes.len() {
        let hole = net.holes[k];
        let label = label_or_zero(trail, hole);
        holes.push((hole, label))?;
    }
    Ok(Plugging {
        top: trail.root,
        holes,
    })
}

// Keeps a reading; false where there are more than `max` now.
fn keep(max: u32, plugging: Plugging, out: &mut Vec<Plugging>) -> Result<bool, NoMemory>
    ensures is { OnOk result (out.new.items ≡ out.old.items ++ plugging ∷ []) }
    ensures over { IfOk result (λ done. done ≡ false → max < length out.new.items) }
    ensures few { IfOk result (λ done. done ≡ true → length out.new.items ≤ max) }
{
    out.push(plugging)?;
    if out.len() > max as usize {
        return Ok(false);
    }
    Ok(true)
}

// Where each hole has a label: the one reading, if it is one.
fn close(
    alloc: Global,
    net: &Net,
    max: u32,
    trail: &Trail,
    out: &mut Vec<Plugging>,
) -> Result<bool, NoMemory>
    requires net { IsNet net.now }
    requires going { IsGoing (frame_in net.now.parts) trail.now }
    requires full { IsFull (frame_in net.now.parts) (state_of trail.now) }
    ensures { IfOk result (λ done. AreFound (frame_in net.now.parts) (GoesOn (state_of trail.now)) max done (map plugged_of out.old.items) (map plugged_of out.new.items)) }
{
    if !is_sound(net, trail) {
        return Ok(true);
    }
    let plugging = plugging_of(alloc, net, trail)?;
    let done = keep(max, plugging, out)?;
    Ok(done)
}

// Where no hole is open.
fn end(
    alloc: Global,
    net: &Net,
    max: u32,
    ways: &Ways,
    trail: &Trail,
    out: &mut Vec<Plugging>,
) -> Result<bool, NoMemory>
    requires net { IsNet net.now }
    requires going { IsGoing (frame_in net.now.parts) trail.now }
    requires seen { IsSeen (frame_in net.now.parts) (state_of trail.now) ways.now }
    requires closed { (o : Opening) → IsOpen (frame_in net.now.parts) (state_of trail.now) o → ⊥ }
    ensures { IfOk result (λ done. AreFound (frame_in net.now.parts) (GoesOn (state_of trail.now)) max done (map plugged_of out.old.items) (map plugged_of out.new.items)) }
{
    match unplaced(net, ways) {
        Some(_) => Ok(true),
        None => close(alloc, net, max, trail, out),
    }
}

/// Finds the readings that go on from the plugs of a trail, each once: all of them, or, where it answers false, more than `max` in all.
#[cycle(filling)]
pub(crate) fn fill(
    alloc: Global,
    net: &Net,
    max: u32,
    search: &mut Search,
    trail: &mut Trail,
    out: &mut Vec<Plugging>,
) -> Result<bool, NoMemory>
    requires net { IsNet net.now }
    requires going { IsGoing (frame_in net.now.parts) trail.old }
    requires plan { IsPlan (frame_in net.now.parts) search.old.plan }
    ensures found { IfOk result (λ done. AreFound (frame_in net.now.parts) (GoesOn (state_of trail.old)) max done (map plugged_of out.old.items) (map plugged_of out.new.items)) }
    ensures kept { OnOk result (IsKept trail.new trail.old) }
    ensures plan { OnOk result (search.new.plan ≡ search.old.plan) }
    ensures stack { IfOk result (λ done. done ≡ true → search.new.stack.items ≡ search.old.stack.items) }
{
    search.see(net, trail)?;
    if search.ways.opens.len() == 0 {
        return end(alloc, net, max, &search.ways, trail, out);
    }
    let goes_on = search.mask(net, trail)?;
    if !goes_on {
        return Ok(true);
    }
    fill_open(alloc, net, max, search, trail, out)
}

// The readings that go on, where a hole is open: one with few candidates is filled next.
#[cycle(filling)]
fn fill_open(
    alloc: Global,
    net: &Net,
    max: u32,
    search: &mut Search,
    trail: &mut Trail,
    out: &mut Vec<Plugging>,
) -> Result<bool, NoMemory>
    requires net { IsNet net.now }
    requires going { IsGoing (frame_in net.now.parts) trail.old }
    requires plan { IsPlan (frame_in net.now.parts) search.old.plan }
    requires seen { IsSeen (frame_in net.now.parts) (state_of trail.old) search.old.ways }
    requires seats { AreSeats (frame_in net.now.parts) (state_of trail.old) search.old.ways.opens.items search.old.masks.sets.items }
    requires some { 0 < length search.old.ways.opens.items }
    ensures found { IfOk result (λ done. AreFound (frame_in net.now.parts) (GoesOn (state_of trail.old)) max done (map plugged_of out.old.items) (map plugged_of out.new.items)) }
    ensures kept { OnOk result (IsKept trail.new trail.old) }
    ensures plan { OnOk result (search.new.plan ≡ search.old.plan) }
    ensures stack { IfOk result (λ done. done ≡ true → search.new.stack.items ≡ search.old.stack.items) }
{
    let from = search.stack.len();
    let hole = search.put_candidates(net)?;
    let done = fill_each(alloc, net, max, search, trail, Turn { hole, from }, out)?;
    search.stack.truncate(from);
    Ok(done)
}

// The readings that go on, each candidate being tried in an open hole.
#[cycle(filling)]
fn fill_each(
    alloc: Global,
    net: &Net,
    max: u32,
    search: &mut Search,
    trail: &mut Trail,
    turn: Turn,
    out: &mut Vec<Plugging>,
) -> Result<bool, NoMemory>
    requires net { IsNet net.now }
    requires going { IsGoing (frame_in net.now.parts) trail.old }
    requires plan { IsPlan (frame_in net.now.parts) search.old.plan }
    requires open_hole { IsOpenAt (frame_in net.now.parts) (state_of trail.old) turn.hole }
    requires candidates { AreCandidates (frame_in net.now.parts) (state_of trail.old) turn.hole (drop turn.from search.old.stack.items) }
    ensures found { IfOk result (λ done. AreFound (frame_in net.now.parts) (GoesOn (state_of trail.old)) max done (map plugged_of out.old.items) (map plugged_of out.new.items)) }
    ensures kept { OnOk result (IsKept trail.new trail.old) }
    ensures plan { OnOk result (search.new.plan ≡ search.old.plan) }
    ensures stack { IfOk result (λ done. done ≡ true → search.new.stack.items ≡ search.old.stack.items) }
{
    for k in turn.from..search.stack.len() {
        let label = search.stack[k];
        let plug = Plug {
            hole: turn.hole,
            label,
        };
        if !fill_with(alloc, net, max, search, trail, plug, out)? {
            return Ok(false);
        }
    }
    Ok(true)
}

// The readings that go on and have this label in an open hole.
#[cycle(filling)]
fn fill_with(
    alloc: Global,
    net: &Net,
    max: u32,
    search: &mut Search,
    trail: &mut Trail,
    plug: Plug,
    out: &mut Vec<Plugging>,
) -> Result<bool, NoMemory>
    requires net { IsNet net.now }
    requires going { IsGoing (frame_in net.now.parts) trail.old }
    requires plan { IsPlan (frame_in net.now.parts) search.old.plan }
    requires open_hole { IsOpenAt (frame_in net.now.parts) (state_of trail.old) plug.hole }
    requires label { Contains net.now.parts.labels.items plug.label }
    requires new { IsPlaced (state_of trail.old) plug.label → ⊥ }
    requires own { Contains net.now.parts.labels.items plug.hole → plug.label ≡ plug.hole }
    ensures found { IfOk result (λ done. AreFound (frame_in net.now.parts) (HasAt (state_of trail.old) plug.hole plug.label) max done (map plugged_of out.old.items) (map plugged_of out.new.items)) }
    ensures kept { OnOk result (IsKept trail.new trail.old) }
    ensures plan { OnOk result (search.new.plan ≡ search.old.plan) }
    ensures stack { IfOk result (λ done. done ≡ true → search.new.stack.items ≡ search.old.stack.items) }
{
    trail.push(plug.hole, plug.label)?;
    let done = fill(alloc, net, max, search, trail, out)?;
    trail.pop();
    Ok(done)
}
