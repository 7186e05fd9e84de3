//! Which open holes each label may still go under.

ghost use Rattle.std.specs.Prelude.{◌≡◌, ◌≢◌, ◌<◌, ℕ, Contains, IfOk, true, false, length, slice_index_or};
ghost use Rattle.scope_model.specs.Frames.{Frame};
ghost use Rattle.scope_model.specs.Readings.{Plugged, IsLabel, IsReading, Reaches};
ghost use Rattle.scope_model.specs.States.{State, IsPlaced, IsDead, Extends};
ghost use Rattle.scope_resolve.specs.Inner.Nets.{IsNet, frame_in};
ghost use Rattle.scope_resolve.specs.Inner.Filling.{IsGoing, state_of};
ghost use Rattle.scope_resolve.specs.Inner.Masks.{has, set_at};
ghost use Rattle.scope_resolve.specs.Inner.Pruning.{IsUnderIn, IsPair, IsHoleChain, IsLabelChain, IsPlan, ArePairs, IsSeen, AreMasks, AreSeats};

use crate::hole_set::HoleSet;
use crate::live::Live;
use crate::nets::{Net, mark_at};
use crate::plan::{Link, Plan, Under};
use crate::trail::Trail;
use crate::ways::Ways;
use mrs_model::NoMemory;
use std::alloc::Global;

/// By number of a label, the open holes that it may go under; past the end that is each one.
#[derive(Drop)]
pub(crate) struct Masks {
    pub(crate) sets: Vec<HoleSet>,
}

impl Masks {
    /// Room for this many numbers.
    pub(crate) fn new(alloc: Global, room: usize) -> Result<Masks, NoMemory> {
        let sets = vec![in alloc; HoleSet::all(); room]?;
        Ok(Masks { sets })
    }

    /// The open holes that a label may go under.
    pub(crate) fn at(&self, label: u32) -> HoleSet
        ensures { result ≡ set_at self.now.sets.items label }
    {
        let at = label as usize;
        if at < self.sets.len() {
            return self.sets[at];
        }
        HoleSet::all()
    }

    // Each label may go under each open hole.
    fn widen(&mut self)
        ensures { (l place : ℕ) → has (set_at self.new.sets.items l) place ≡ true }
    {
        let all = HoleSet::all();
        for k in 0..self.sets.len() {
            self.sets[k] = all;
        }
    }

    // A label goes under none but these.
    fn narrow(&mut self, label: u32, set: HoleSet)
        ensures { (l place : ℕ) → has (set_at self.old.sets.items l) place ≡ true → (l ≡ label → has set place ≡ true) → has (set_at self.new.sets.items l) place ≡ true }
    {
        let at = label as usize;
        if at < self.sets.len() {
            self.sets[at] = self.sets[at].meet(set);
        }
    }

    // A label that lies under one of two holes, where their owner is plugged in.
    fn go_under(&mut self, ways: &Ways, under: Under)
        ensures { (f : Frame) (s : State) → IsSeen f s ways.now → IsUnderIn f under → AreMasks f s ways.now.opens.items self.old.sets.items → AreMasks f s ways.now.opens.items self.new.sets.items }
    {
        if !mark_at(&ways.placed, under.owner) {
            return;
        }
        // (where it is plugged in itself there is nothing to learn)
        if mark_at(&ways.placed, under.label) {
            return;
        }
        let set = ways.below_at(under.first).join(ways.below_at(under.second));
        self.narrow(under.label, set);
    }

    fn go_under_all(&mut self, ways: &Ways, plan: &Plan)
        ensures { (f : Frame) (s : State) → IsSeen f s ways.now → IsPlan f plan.now → AreMasks f s ways.now.opens.items self.old.sets.items → AreMasks f s ways.now.opens.items self.new.sets.items }
    {
        for k in 0..plan.unders.len() {
            self.go_under(ways, plan.unders[k]);
        }
    }

    // A label that is reached through BODYs from one that is plugged in.
    fn go_along(&mut self, ways: &Ways, link: Link)
        ensures { (f : Frame) (s : State) → IsSeen f s ways.now → IsPlaced s link.from → ((p : Plugged) → IsReading f p → Extends s p → Reaches f p link.from link.to) → AreMasks f s ways.now.opens.items self.old.sets.items → AreMasks f s ways.now.opens.items self.new.sets.items }
    {
        self.narrow(link.to, ways.chain_at(link.from));
    }

    // One that is reached from a hole, where it has a label.
    fn go_from_hole(&mut self, ways: &Ways, trail: &Trail, link: Link)
        ensures { (f : Frame) → IsSeen f (state_of trail.now) ways.now → IsHoleChain f link → AreMasks f (state_of trail.now) ways.now.opens.items self.old.sets.items → AreMasks f (state_of trail.now) ways.now.opens.items self.new.sets.items }
    {
        // (where it is plugged in there is nothing to learn)
        if mark_at(&ways.placed, link.to) {
            return;
        }
        if let Some(from) = trail.label_at(link.from) {
            self.go_along(ways, Link { from, to: link.to });
        }
    }

    fn go_from_holes(&mut self, ways: &Ways, trail: &Trail, plan: &Plan)
        ensures { (f : Frame) → IsSeen f (state_of trail.now) ways.now → IsPlan f plan.now → AreMasks f (state_of trail.now) ways.now.opens.items self.old.sets.items → AreMasks f (state_of trail.now) ways.now.opens.items self.new.sets.items }
    {
        for k in 0..plan.hole_chains.len() {
            self.go_from_hole(ways, trail, plan.hole_chains[k]);
        }
    }

    // One that is reached from a label, where it is plugged in.
    fn go_from_label(&mut self, ways: &Ways, link: Link)
        ensures { (f : Frame) (s : State) → IsSeen f s ways.now → IsLabelChain f link → AreMasks f s ways.now.opens.items self.old.sets.items → AreMasks f s ways.now.opens.items self.new.sets.items }
    {
        if !mark_at(&ways.placed, link.from) {
            return;
        }
        self.go_along(ways, link);
    }

    fn go_from_labels(&mut self, ways: &Ways, plan: &Plan)
        ensures { (f : Frame) (s : State) → IsSeen f s ways.now → IsPlan f plan.now → AreMasks f s ways.now.opens.items self.old.sets.items → AreMasks f s ways.now.opens.items self.new.sets.items }
    {
        for k in 0..plan.label_chains.len() {
            self.go_from_label(ways, plan.label_chains[k]);
        }
    }

    fn go_from_root(&mut self, ways: &Ways, root: u32, plan: &Plan)
        ensures { (f : Frame) (s : State) → IsSeen f s ways.now → s.root ≡ root → IsPlan f plan.now → AreMasks f s ways.now.opens.items self.old.sets.items → AreMasks f s ways.now.opens.items self.new.sets.items }
    {
        for k in 0..plan.root_chains.len() {
            let to = plan.root_chains[k];
            self.go_along(ways, Link { from: root, to });
        }
    }

    // A label at or below one that isn't plugged in goes under the same hole. True where something was learned.
    fn go_together(&mut self, ways: &Ways, pair: Link) -> bool
        ensures { (f : Frame) (s : State) → IsSeen f s ways.now → IsPair f pair → AreMasks f s ways.now.opens.items self.old.sets.items → AreMasks f s ways.now.opens.items self.new.sets.items }
    {
        if mark_at(&ways.placed, pair.from) {
            return false;
        }
        let above = self.at(pair.from);
        let below = self.at(pair.to);
        if above.bits == below.bits {
            return false;
        }
        self.narrow(pair.from, below);
        self.narrow(pair.to, above);
        true
    }

    // The same for each pair in turn.
    fn spread_once(&mut self, ways: &Ways, live: &Live) -> bool
        ensures { (f : Frame) (s : State) → IsSeen f s ways.now → ArePairs f live.now.pairs.items → AreMasks f s ways.now.opens.items self.old.sets.items → AreMasks f s ways.now.opens.items self.new.sets.items }
    {
        let mut learned = false;
        for k in 0..live.pairs.len() {
            if self.go_together(ways, live.pairs[k]) {
                learned = true;
            }
        }
        learned
    }

    // The same for each pair in turn, the last one first.
    fn spread_back(&mut self, ways: &Ways, live: &Live) -> bool
        ensures { (f : Frame) (s : State) → IsSeen f s ways.now → ArePairs f live.now.pairs.items → AreMasks f s ways.now.opens.items self.old.sets.items → AreMasks f s ways.now.opens.items self.new.sets.items }
    {
        let mut learned = false;
        let mut left = live.pairs.len();
        while left > 0 {
            left -= 1;
            if self.go_together(ways, live.pairs[left]) {
                learned = true;
            }
        }
        learned
    }

    // The same to and fro until nothing more is learned: what one end of a chain of pairs learns reaches the other one in one turn.
    fn spread(&mut self, ways: &Ways, live: &Live)
        ensures { (f : Frame) (s : State) → IsSeen f s ways.now → ArePairs f live.now.pairs.items → AreMasks f s ways.now.opens.items self.old.sets.items → AreMasks f s ways.now.opens.items self.new.sets.items }
    {
        for _ in 0..live.pairs.len() {
            if !self.spread_once(ways, live) {
                return;
            }
            if !self.spread_back(ways, live) {
                return;
            }
        }
    }

    /// The masks of a state.
    pub(crate) fn mask(&mut self, ways: &Ways, trail: &Trail, plan: &Plan, live: &Live)
        ensures { (f : Frame) → IsSeen f (state_of trail.now) ways.now → IsPlan f plan.now → ArePairs f live.now.pairs.items → AreMasks f (state_of trail.now) ways.now.opens.items self.new.sets.items }
    {
        self.widen();
        self.go_under_all(ways, plan);
        self.go_from_holes(ways, trail, plan);
        self.go_from_labels(ways, plan);
        self.go_from_root(ways, trail.root, plan);
        self.spread(ways, live);
    }

    // Whether a label has no open hole left to go under.
    fn is_homeless(&self, ways: &Ways, label: u32) -> bool
        ensures { result ≡ true → (f : Frame) (s : State) → IsSeen f s ways.now → IsLabel f label → AreMasks f s ways.now.opens.items self.now.sets.items → IsDead f s }
    {
        if mark_at(&ways.placed, label) {
            return false;
        }
        self.at(label).is_empty()
    }

    /// Whether some label has no open hole left to go under: no reading goes on then.
    pub(crate) fn is_stuck(&self, ways: &Ways, net: &Net) -> bool
        requires { IsNet net.now }
        ensures { result ≡ true → (s : State) → IsSeen (frame_in net.now.parts) s ways.now → AreMasks (frame_in net.now.parts) s ways.now.opens.items self.now.sets.items → IsDead (frame_in net.now.parts) s }
    {
        for k in 0..net.labels.len() {
            if self.is_homeless(ways, net.labels[k]) {
                return true;
            }
        }
        false
    }

    // A label below one that isn't plugged in stands right in no open hole.
    fn wait(&mut self, ways: &Ways, pair: Link)
        ensures { (f : Frame) (s : State) → IsSeen f s ways.now → IsPair f pair → AreSeats f s ways.now.opens.items self.old.sets.items → AreSeats f s ways.now.opens.items self.new.sets.items }
    {
        if pair.from == pair.to {
            return;
        }
        if mark_at(&ways.placed, pair.from) {
            return;
        }
        self.narrow(pair.to, HoleSet::none());
    }

    /// Leaves to each label the open holes that it may be plugged into.
    pub(crate) fn seat(&mut self, ways: &Ways, live: &Live)
        ensures { (f : Frame) (s : State) → IsSeen f s ways.now → ArePairs f live.now.pairs.items → AreMasks f s ways.now.opens.items self.old.sets.items → AreSeats f s ways.now.opens.items self.new.sets.items }
    {
        for k in 0..live.pairs.len() {
            self.wait(ways, live.pairs[k]);
        }
    }
}
