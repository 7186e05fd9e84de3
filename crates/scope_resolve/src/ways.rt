//! The open holes of a state, and from where each is reached.

ghost use Rattle.std.specs.Prelude.{◌≡◌, ◌<◌, ◌↔◌, ◌++◌, ◌∷◌, [], ℕ, Contains, IsTrue, OnOk, length, replicate, set, slice_index, slice_index_or, true, false};
ghost use Rattle.scope_model.specs.declared.Opening.{Opening};
ghost use Rattle.scope_model.specs.States.{IsOpen, IsPlaced, IsFilled};
ghost use Rattle.scope_resolve.specs.Inner.Nets.{IsNet, frame_in};
ghost use Rattle.scope_resolve.specs.Inner.Filling.{IsGoing, path, state_of};
ghost use Rattle.scope_resolve.specs.Inner.Ways.{is_on_way, is_by_bodies};
ghost use Rattle.scope_resolve.specs.Inner.Masks.{has, set_at, Grows, AreMarks, AreBegun, AreBelow, AreReached};

use crate::hole_set::HoleSet;
use crate::nets::{Net, mark_at, number_at};
use crate::trail::Trail;
use mrs_model::NoMemory;
use scope_model::{Opening, Plug};
use std::alloc::Global;

/// The open holes of a state, in some order. `below` has, by number of a hole, those that are this hole or lie under it; `chain`, by number
/// of a label, those that are reached from it through BODYs alone; `placed`, which labels are plugged in. The rest is room for `see`:
/// which holes have a plug, and, by number of a label, the open holes that lie under it.
#[derive(Drop)]
pub(crate) struct Ways {
    pub(crate) opens: Vec<Opening>,
    pub(crate) below: Vec<HoleSet>,
    pub(crate) chain: Vec<HoleSet>,
    pub(crate) placed: Vec<bool>,
    filled: Vec<bool>,
    under: Vec<HoleSet>,
}

impl Ways {
    /// Those of no state, with no memory.
    pub(crate) fn new(alloc: Global) -> Ways {
        Ways {
            opens: Vec::new(alloc),
            below: Vec::new(alloc),
            chain: Vec::new(alloc),
            placed: Vec::new(alloc),
            filled: Vec::new(alloc),
            under: Vec::new(alloc),
        }
    }

    /// The open holes that are this hole or lie under it.
    pub(crate) fn below_at(&self, hole: u32) -> HoleSet
        ensures { result ≡ set_at self.now.below.items hole }
    {
        set_in(&self.below, hole)
    }

    /// The open BODYs that are reached from this label through BODYs alone.
    pub(crate) fn chain_at(&self, label: u32) -> HoleSet
        ensures { result ≡ set_at self.now.chain.items label }
    {
        set_in(&self.chain, label)
    }

    /// Takes in a state, whatever was there: one pass over the openings, and two over the plugs.
    pub(crate) fn see(&mut self, net: &Net, trail: &Trail) -> Result<(), NoMemory>
        requires net { IsNet net.now }
        requires going { IsGoing (frame_in net.now.parts) trail.now }
        ensures opens { OnOk result ((o : Opening) → Contains self.new.opens.items o ↔ IsOpen (frame_in net.now.parts) (state_of trail.now) o) }
        ensures below { OnOk result (AreBelow (frame_in net.now.parts) (state_of trail.now) self.new.opens.items self.new.below.items) }
        ensures chain { OnOk result (AreReached (frame_in net.now.parts) (state_of trail.now) self.new.opens.items self.new.chain.items) }
        ensures placed { OnOk result ((l : ℕ) → Contains net.now.parts.labels.items l → (slice_index_or self.new.placed.items l false ≡ true) ↔ IsPlaced (state_of trail.now) l) }
    {
        let holes = net.owner.len();
        let labels = net.is_label.len();
        unmark(&mut self.placed, labels)?;
        unmark(&mut self.filled, holes)?;
        mark_plugs(trail, &mut self.placed, &mut self.filled);
        list_opens(net, trail, &self.placed, &self.filled, &mut self.opens)?;
        wipe(&mut self.below, holes)?;
        wipe(&mut self.under, labels)?;
        wipe(&mut self.chain, labels)?;
        begin(
            net,
            &self.opens,
            &mut self.below,
            &mut self.under,
            &mut self.chain,
        );
        climb(
            net,
            trail,
            &mut self.below,
            &mut self.under,
            &mut self.chain,
        );
        Ok(())
    }
}

// What a table has at a number: past the end all open holes.
fn set_in(sets: &[HoleSet], number: u32) -> HoleSet
    ensures { result ≡ set_at sets.now number }
{
    let at = number as usize;
    if at < sets.len() {
        return sets[at];
    }
    HoleSet::all()
}

// A table gets so many empty sets, whatever it had.
fn wipe(sets: &mut Vec<HoleSet>, count: usize) -> Result<(), NoMemory>
    ensures { OnOk result (sets.new.items ≡ replicate count (record { bits = 0 })) }
{
    sets.clear();
    sets.resize(count, HoleSet { bits: 0 })?;
    Ok(())
}

// So many numbers are unmarked, whatever was marked.
fn unmark(marks: &mut Vec<bool>, count: usize) -> Result<(), NoMemory>
    ensures { OnOk result (marks.new.items ≡ replicate count false) }
{
    marks.clear();
    marks.resize(count, false)?;
    Ok(())
}

// Marks a number, if the table goes so far.
fn mark(marks: &mut Vec<bool>, number: u32)
    ensures { marks.new.items ≡ set marks.old.items number true }
{
    let at = number as usize;
    if at < marks.len() {
        marks[at] = true;
    }
}

// Marks what is plugged in and what has a plug.
fn mark_plugs(trail: &Trail, placed: &mut Vec<bool>, filled: &mut Vec<bool>)
    requires no_label { (v : ℕ) → slice_index_or placed.old.items v false ≡ false }
    requires no_hole { (v : ℕ) → slice_index_or filled.old.items v false ≡ false }
    ensures placed { AreMarks (IsPlaced (state_of trail.now)) placed.new.items }
    ensures filled { AreMarks (IsFilled (state_of trail.now)) filled.new.items }
    ensures labels { length placed.new.items ≡ length placed.old.items }
{
    mark(placed, trail.root);
    for k in 0..trail.plugs.len() {
        let plug = trail.plugs[k];
        mark(placed, plug.label);
        mark(filled, plug.hole);
    }
}

// Whether a label is plugged in, by the marks as far as they go.
fn is_placed(trail: &Trail, placed: &[bool], label: u32) -> bool
    requires { AreMarks (IsPlaced (state_of trail.now)) placed.now }
    ensures { IsTrue result ↔ IsPlaced (state_of trail.now) label }
{
    let at = label as usize;
    if at < placed.len() {
        return placed[at];
    }
    trail.is_placed(label)
}

// Whether a hole has a plug, by the marks as far as they go.
fn is_filled(trail: &Trail, filled: &[bool], hole: u32) -> bool
    requires { AreMarks (IsFilled (state_of trail.now)) filled.now }
    ensures { IsTrue result ↔ IsFilled (state_of trail.now) hole }
{
    let at = hole as usize;
    if at < filled.len() {
        return filled[at];
    }
    trail.is_filled(hole)
}

// Whether a hole of a role is open.
fn is_free(trail: &Trail, placed: &[bool], filled: &[bool], opening: Opening) -> bool
    requires placed { AreMarks (IsPlaced (state_of trail.now)) placed.now }
    requires filled { AreMarks (IsFilled (state_of trail.now)) filled.now }
    ensures { IsTrue result ↔ (IsPlaced (state_of trail.now) opening.label × (IsFilled (state_of trail.now) opening.hole → ⊥)) }
{
    if !is_placed(trail, placed, opening.label) {
        return false;
    }
    !is_filled(trail, filled, opening.hole)
}

fn list_open(is_open: bool, opening: Opening, opens: &mut Vec<Opening>) -> Result<(), NoMemory>
    ensures open { OnOk result (is_open ≡ true → opens.new.items ≡ opens.old.items ++ opening ∷ []) }
    ensures other { OnOk result (is_open ≡ false → opens.new.items ≡ opens.old.items) }
{
    if is_open {
        opens.push(opening)?;
    }
    Ok(())
}

// Lists the open holes, whatever was listed.
fn list_opens(
    net: &Net,
    trail: &Trail,
    placed: &[bool],
    filled: &[bool],
    opens: &mut Vec<Opening>,
) -> Result<(), NoMemory>
    requires placed { AreMarks (IsPlaced (state_of trail.now)) placed.now }
    requires filled { AreMarks (IsFilled (state_of trail.now)) filled.now }
    ensures { OnOk result ((o : Opening) → Contains opens.new.items o ↔ IsOpen (frame_in net.now.parts) (state_of trail.now) o) }
{
    opens.clear();
    for k in 0..net.parts.openings.len() {
        let opening = net.parts.openings[k];
        let is_open = is_free(trail, placed, filled, opening);
        list_open(is_open, opening, opens)?;
    }
    Ok(())
}

// Puts open holes into the set of a number, if the table goes so far.
fn pour(sets: &mut Vec<HoleSet>, number: u32, more: HoleSet)
    ensures added { (place : ℕ) → has more place ≡ true → has (set_at sets.new.items number) place ≡ true }
    ensures kept { Grows sets.old.items sets.new.items }
{
    let at = number as usize;
    if at < sets.len() {
        sets[at] = sets[at].join(more);
    }
}

// An open hole comes into the sets of itself and of its label.
fn begin_at(
    net: &Net,
    opening: Opening,
    place: usize,
    below: &mut Vec<HoleSet>,
    under: &mut Vec<HoleSet>,
    chain: &mut Vec<HoleSet>,
)
    ensures hole { has (set_at below.new.items opening.hole) place ≡ true }
    ensures label { has (set_at under.new.items opening.label) place ≡ true }
    ensures body { slice_index_or net.now.is_body.items opening.hole false ≡ true → has (set_at chain.new.items opening.label) place ≡ true }
    ensures below { Grows below.old.items below.new.items }
    ensures under { Grows under.old.items under.new.items }
    ensures chain { Grows chain.old.items chain.new.items }
{
    let one = HoleSet::none().with(place);
    pour(below, opening.hole, one);
    pour(under, opening.label, one);
    if mark_at(&net.is_body, opening.hole) {
        pour(chain, opening.label, one);
    }
}

// Each open hole comes into the sets of itself and of its label.
fn begin(
    net: &Net,
    opens: &[Opening],
    below: &mut Vec<HoleSet>,
    under: &mut Vec<HoleSet>,
    chain: &mut Vec<HoleSet>,
)
    ensures { AreBegun net.now.is_body.items opens.now (length opens.now) below.new.items under.new.items chain.new.items }
{
    for place in 0..opens.len() {
        begin_at(net, opens[place], place, below, under, chain);
    }
}

// What lies under the label of a plug lies under its hole, and under the hole's label.
fn rise(
    net: &Net,
    plug: Plug,
    below: &mut Vec<HoleSet>,
    under: &mut Vec<HoleSet>,
    chain: &mut Vec<HoleSet>,
)
    ensures hole { (place : ℕ) → has (set_at under.old.items plug.label) place ≡ true → has (set_at below.new.items plug.hole) place ≡ true }
    ensures label { (place : ℕ) → has (set_at under.old.items plug.label) place ≡ true → has (set_at under.new.items (slice_index net.now.owner.items plug.hole)) place ≡ true }
    ensures body { slice_index_or net.now.is_body.items plug.hole false ≡ true → (place : ℕ) → has (set_at chain.old.items plug.label) place ≡ true → has (set_at chain.new.items (slice_index net.now.owner.items plug.hole)) place ≡ true }
    ensures below { Grows below.old.items below.new.items }
    ensures under { Grows under.old.items under.new.items }
    ensures chain { Grows chain.old.items chain.new.items }
{
    let above = number_at(&net.owner, plug.hole);
    let lower = set_in(under, plug.label);
    pour(below, plug.hole, lower);
    pour(under, above, lower);
    if mark_at(&net.is_body, plug.hole) {
        let reached = set_in(chain, plug.label);
        pour(chain, above, reached);
    }
}

// What lies under each label comes into the sets of all that is above it. Each plug stands after the one that leads to its hole's label, so
// one pass from the last to the first is enough.
fn climb(
    net: &Net,
    trail: &Trail,
    below: &mut Vec<HoleSet>,
    under: &mut Vec<HoleSet>,
    chain: &mut Vec<HoleSet>,
)
    ensures ways { (place l h : ℕ) → has (set_at under.old.items l) place ≡ true → is_on_way net.now.owner.items h l (path trail.now) ≡ true → has (set_at below.new.items h) place ≡ true }
    ensures kept { Grows below.old.items below.new.items }
    ensures bodies { (place l a : ℕ) → has (set_at chain.old.items l) place ≡ true → is_by_bodies net.now.owner.items net.now.is_body.items a l (path trail.now) ≡ true → has (set_at chain.new.items a) place ≡ true }
{
    let mut left = trail.plugs.len();
    while left > 0 {
        left -= 1;
        rise(net, trail.plugs[left], below, under, chain);
    }
}
