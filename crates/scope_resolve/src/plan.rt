//! What the search asks of each state, told once for a net.

ghost use Rattle.std.specs.Prelude.{◌≡◌, Contains, MatchOption, OnOk, IfOk, slice_index_or, false};
ghost use Rattle.scope_model.specs.Frames.{Frame};
ghost use Rattle.scope_resolve.specs.Inner.Nets.{IsNet, frame_in};
ghost use Rattle.scope_resolve.specs.Inner.Pruning.{IsUnderIn, IsPair, IsHoleChain, IsLabelChain, IsRootChain, IsPlan};

use crate::nets::{Net, mark_at};
use mrs_model::NoMemory;
use scope_model::{Binding, Opening, Qeq};
use std::alloc::Global;

/// In each reading the label lies under one of these two holes of its owner, which may be one and the same.
#[derive(Clone, Copy, Debug, PartialEq, Eq)]
pub(crate) struct Under {
    pub(crate) owner: u32,
    pub(crate) first: u32,
    pub(crate) second: u32,
    pub(crate) label: u32,
}

/// A label, and where it is reached from.
#[derive(Clone, Copy, Debug, PartialEq, Eq)]
pub(crate) struct Link {
    pub(crate) from: u32,
    pub(crate) to: u32,
}

/// What holds in each reading of a net: which labels lie under holes of others, which are reached from holes, from labels or from the root
/// through BODYs alone, and which lie at or below others.
#[derive(Drop)]
pub(crate) struct Plan {
    pub(crate) unders: Vec<Under>,
    pub(crate) hole_chains: Vec<Link>,
    pub(crate) label_chains: Vec<Link>,
    pub(crate) root_chains: Vec<u32>,
    pub(crate) pairs: Vec<Link>,
}

// The role in which a hole stands.
fn opening_at(net: &Net, hole: u32) -> Option<Opening>
    ensures { MatchOption result (Unit {0}) (λ o. Contains net.now.parts.openings.items o × (o.hole ≡ hole)) }
{
    for k in 0..net.parts.openings.len() {
        let opening = net.parts.openings[k];
        if opening.hole == hole {
            return Some(opening);
        }
    }
    None
}

// What a quantifier binds lies under its RSTR or its BODY.
fn bound(net: &Net, binding: Binding) -> Option<Under>
    requires there { Contains net.now.parts.bindings.items binding }
    requires net { IsNet net.now }
    ensures { MatchOption result (Unit {0}) (IsUnderIn (frame_in net.now.parts)) }
{
    let rstr = opening_at(net, binding.rstr)?;
    let body = opening_at(net, binding.body)?;
    if rstr.label != body.label {
        return None;
    }
    Some(Under {
        owner: rstr.label,
        first: binding.rstr,
        second: binding.body,
        label: binding.label,
    })
}

// A label that is a hole lies under that hole.
fn forced(net: &Net, opening: Opening) -> Option<Under>
    requires there { Contains net.now.parts.openings.items opening }
    requires net { IsNet net.now }
    ensures { MatchOption result (Unit {0}) (IsUnderIn (frame_in net.now.parts)) }
{
    if !mark_at(&net.is_label, opening.hole) {
        return None;
    }
    Some(Under {
        owner: opening.label,
        first: opening.hole,
        second: opening.hole,
        label: opening.hole,
    })
}

// The right of a constraint whose left is a hole lies under it.
fn held(net: &Net, qeq: Qeq) -> Option<Under>
    requires there { Contains net.now.parts.qeqs.items qeq }
    requires net { IsNet net.now }
    ensures under { MatchOption result (Unit {0}) (IsUnderIn (frame_in net.now.parts)) }
    ensures chain { MatchOption result (Unit {0}) (λ u. IsHoleChain (frame_in net.now.parts) (record { from = qeq.left; to = qeq.right })) }
{
    let opening = opening_at(net, qeq.left)?;
    Some(Under {
        owner: opening.label,
        first: qeq.left,
        second: qeq.left,
        label: qeq.right,
    })
}

impl Plan {
    // What lies under a hole lies at or below the hole's owner.
    fn put_under(&mut self, under: Under) -> Result<(), NoMemory>
        ensures { OnOk result ((f : Frame) → IsUnderIn f under → IsPlan f self.old → IsPlan f self.new) }
    {
        self.unders.push(under)?;
        let pair = Link {
            from: under.owner,
            to: under.label,
        };
        self.put_pair(pair)?;
        Ok(())
    }

    // Whether a pair is there.
    fn has_pair(&self, pair: Link) -> bool {
        for k in 0..self.pairs.len() {
            let other = self.pairs[k];
            if other == pair {
                return true;
            }
        }
        false
    }

    // A pair, once.
    fn put_pair(&mut self, pair: Link) -> Result<(), NoMemory>
        ensures { OnOk result ((f : Frame) → IsPair f pair → IsPlan f self.old → IsPlan f self.new) }
    {
        if self.has_pair(pair) {
            return Ok(());
        }
        self.pairs.push(pair)?;
        Ok(())
    }

    fn put_some(&mut self, under: Option<Under>) -> Result<(), NoMemory>
        ensures { OnOk result ((f : Frame) → MatchOption under (Unit {0}) (IsUnderIn f) → IsPlan f self.old → IsPlan f self.new) }
    {
        if let Some(under) = under {
            self.put_under(under)?;
        }
        Ok(())
    }

    // What is reached from a label lies at or below it.
    fn put_from_label(&mut self, link: Link) -> Result<(), NoMemory>
        ensures { OnOk result ((f : Frame) → IsLabelChain f link → IsPair f link → IsPlan f self.old → IsPlan f self.new) }
    {
        self.label_chains.push(link)?;
        self.put_pair(link)?;
        Ok(())
    }

    // A constraint that begins at a hole.
    fn put_from_hole(&mut self, link: Link, under: Under) -> Result<(), NoMemory>
        ensures { OnOk result ((f : Frame) → IsHoleChain f link → IsUnderIn f under → IsPlan f self.old → IsPlan f self.new) }
    {
        self.hole_chains.push(link)?;
        self.put_under(under)?;
        Ok(())
    }

    fn put_from_root(&mut self, label: u32) -> Result<(), NoMemory>
        ensures { OnOk result ((f : Frame) → IsRootChain f label → IsPlan f self.old → IsPlan f self.new) }
    {
        self.root_chains.push(label)?;
        Ok(())
    }

    // What a constraint asks.
    fn put_qeq(&mut self, net: &Net, qeq: Qeq) -> Result<(), NoMemory>
        requires there { Contains net.now.parts.qeqs.items qeq }
        requires net { IsNet net.now }
        ensures { OnOk result (IsPlan (frame_in net.now.parts) self.old → IsPlan (frame_in net.now.parts) self.new) }
    {
        let link = Link {
            from: qeq.left,
            to: qeq.right,
        };
        if mark_at(&net.is_label, qeq.left) {
            self.put_from_label(link)?;
            return Ok(());
        }
        match held(net, qeq) {
            Some(under) => self.put_from_hole(link, under)?,
            None => self.put_free(net, qeq)?,
        }
        Ok(())
    }

    // One that begins at the root.
    fn put_free(&mut self, net: &Net, qeq: Qeq) -> Result<(), NoMemory>
        requires there { Contains net.now.parts.qeqs.items qeq }
        requires net { IsNet net.now }
        requires label { slice_index_or net.now.is_label.items qeq.left false ≡ false }
        ensures { OnOk result (IsPlan (frame_in net.now.parts) self.old → IsPlan (frame_in net.now.parts) self.new) }
    {
        if qeq.left != net.parts.top {
            return Ok(());
        }
        self.put_from_root(qeq.right)?;
        Ok(())
    }

    fn put_bindings(&mut self, net: &Net) -> Result<(), NoMemory>
        requires { IsNet net.now }
        ensures { OnOk result (IsPlan (frame_in net.now.parts) self.old → IsPlan (frame_in net.now.parts) self.new) }
    {
        for k in 0..net.parts.bindings.len() {
            self.put_some(bound(net, net.parts.bindings[k]))?;
        }
        Ok(())
    }

    fn put_forced(&mut self, net: &Net) -> Result<(), NoMemory>
        requires { IsNet net.now }
        ensures { OnOk result (IsPlan (frame_in net.now.parts) self.old → IsPlan (frame_in net.now.parts) self.new) }
    {
        for k in 0..net.parts.openings.len() {
            self.put_some(forced(net, net.parts.openings[k]))?;
        }
        Ok(())
    }

    fn put_qeqs(&mut self, net: &Net) -> Result<(), NoMemory>
        requires { IsNet net.now }
        ensures { OnOk result (IsPlan (frame_in net.now.parts) self.old → IsPlan (frame_in net.now.parts) self.new) }
    {
        for k in 0..net.parts.qeqs.len() {
            self.put_qeq(net, net.parts.qeqs[k])?;
        }
        Ok(())
    }

    // TOP, where it is a label, is reached from the root.
    fn put_top(&mut self, net: &Net) -> Result<(), NoMemory>
        requires { IsNet net.now }
        ensures { OnOk result (IsPlan (frame_in net.now.parts) self.old → IsPlan (frame_in net.now.parts) self.new) }
    {
        if !mark_at(&net.is_label, net.parts.top) {
            return Ok(());
        }
        self.put_from_root(net.parts.top)?;
        Ok(())
    }
}

/// What holds in each reading of a net.
pub(crate) fn plan_of(alloc: Global, net: &Net) -> Result<Plan, NoMemory>
    requires { IsNet net.now }
    ensures { IfOk result (IsPlan (frame_in net.now.parts)) }
{
    let mut plan = Plan {
        unders: Vec::new(alloc),
        hole_chains: Vec::new(alloc),
        label_chains: Vec::new(alloc),
        root_chains: Vec::new(alloc),
        pairs: Vec::new(alloc),
    };
    plan.put_bindings(net)?;
    plan.put_forced(net)?;
    plan.put_qeqs(net)?;
    plan.put_top(net)?;
    Ok(plan)
}
