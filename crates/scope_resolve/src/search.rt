//! What the search has at hand.

ghost use Rattle.std.specs.Prelude.{◌≡◌, ◌++◌, ◌<◌, OnOk, IfOk, true, false, length};
ghost use Rattle.scope_model.specs.States.{State, IsDead};
ghost use Rattle.scope_resolve.specs.Inner.Nets.{IsNet, frame_in};
ghost use Rattle.scope_resolve.specs.Inner.Filling.{IsGoing, state_of};
ghost use Rattle.scope_resolve.specs.Inner.Pruning.{IsPlan, IsSeen, AreSeats, ArePut};

use crate::choosing::{choose, put_candidates};
use crate::live::Live;
use crate::masks::Masks;
use crate::nets::Net;
use crate::plan::{Plan, plan_of};
use crate::trail::Trail;
use crate::ways::Ways;
use mrs_model::NoMemory;
use std::alloc::Global;

/// What holds in each reading, room for what is read off a state, and the labels that are left to be tried at each level, those of the last
/// level at the end.
#[derive(Drop)]
pub(crate) struct Search {
    pub(crate) plan: Plan,
    pub(crate) ways: Ways,
    pub(crate) live: Live,
    pub(crate) masks: Masks,
    pub(crate) stack: Vec<u32>,
}

/// For a net.
pub(crate) fn search_of(alloc: Global, net: &Net) -> Result<Search, NoMemory>
    requires { IsNet net.now }
    ensures { IfOk result (λ search. IsPlan (frame_in net.now.parts) search.plan) }
{
    let plan = plan_of(alloc, net)?;
    let masks = Masks::new(alloc, net.is_label.len())?;
    Ok(Search {
        plan,
        ways: Ways::new(alloc),
        live: Live {
            pairs: Vec::new(alloc),
        },
        masks,
        stack: Vec::new(alloc),
    })
}

impl Search {
    /// Takes in a state.
    pub(crate) fn see(&mut self, net: &Net, trail: &Trail) -> Result<(), NoMemory>
        requires net { IsNet net.now }
        requires going { IsGoing (frame_in net.now.parts) trail.now }
        ensures seen { OnOk result (IsSeen (frame_in net.now.parts) (state_of trail.now) self.new.ways) }
        ensures plan { OnOk result (self.new.plan ≡ self.old.plan) }
        ensures stack { OnOk result (self.new.stack.items ≡ self.old.stack.items) }
    {
        self.ways.see(net, trail)?;
        Ok(())
    }

    /// Finds what may be plugged into each open hole of the state that was taken in; false only where no reading goes on from it.
    pub(crate) fn mask(&mut self, net: &Net, trail: &Trail) -> Result<bool, NoMemory>
        requires net { IsNet net.now }
        requires plan { IsPlan (frame_in net.now.parts) self.old.plan }
        requires seen { IsSeen (frame_in net.now.parts) (state_of trail.now) self.old.ways }
        ensures dead { IfOk result (λ goes_on. goes_on ≡ false → IsDead (frame_in net.now.parts) (state_of trail.now)) }
        ensures seats { IfOk result (λ goes_on. goes_on ≡ true → AreSeats (frame_in net.now.parts) (state_of trail.now) self.old.ways.opens.items self.new.masks.sets.items) }
        ensures ways { OnOk result (self.new.ways ≡ self.old.ways) }
        ensures plan { OnOk result (self.new.plan ≡ self.old.plan) }
        ensures stack { OnOk result (self.new.stack.items ≡ self.old.stack.items) }
    {
        if !self.live.pick(&self.ways, &self.plan)? {
            return Ok(false);
        }
        self.masks.mask(&self.ways, trail, &self.plan, &self.live);
        if self.masks.is_stuck(&self.ways, net) {
            return Ok(false);
        }
        self.masks.seat(&self.ways, &self.live);
        Ok(true)
    }

    /// Puts the labels that may be plugged into an open hole with few of them at the end of the stack, and gives the hole.
    pub(crate) fn put_candidates(&mut self, net: &Net) -> Result<u32, NoMemory>
        requires net { IsNet net.now }
        requires some { 0 < length self.old.ways.opens.items }
        ensures are { IfOk result (λ hole. (s : State) → IsSeen (frame_in net.now.parts) s self.old.ways → AreSeats (frame_in net.now.parts) s self.old.ways.opens.items self.old.masks.sets.items → ArePut (frame_in net.now.parts) s hole self.old.stack.items self.new.stack.items) }
        ensures plan { OnOk result (self.new.plan ≡ self.old.plan) }
    {
        let place = choose(net, &self.ways, &self.masks);
        let hole = self.ways.opens[place].hole;
        put_candidates(net, &self.ways, &self.masks, place, hole, &mut self.stack)?;
        Ok(hole)
    }
}
