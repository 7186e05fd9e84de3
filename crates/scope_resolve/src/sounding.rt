//! Whether a full state is a reading.

ghost use Rattle.std.specs.Prelude.{◌≡◌, ◌↔◌, IsTrue, ◌⊎◌, Contains, All, MatchOption, None, ℕ};
ghost use Rattle.scope_model.specs.declared.Binding.{Binding};
ghost use Rattle.scope_model.specs.declared.Qeq.{Qeq};
ghost use Rattle.scope_model.specs.States.{IsFull, IsUnder, IsMet, IsSound, IsByBodies, StartsAt};
ghost use Rattle.scope_resolve.specs.Inner.Nets.{IsNet, frame_in};
ghost use Rattle.scope_resolve.specs.Inner.Filling.{IsGoing, path, state_of};
ghost use Rattle.scope_resolve.specs.Inner.Ways.{plugged_at};

use crate::nets::{Net, mark_at};
use crate::trail::Trail;
use scope_model::{Binding, Qeq};

/// Whether what a quantifier binds lies under one of its holes.
pub(crate) fn is_under(net: &Net, trail: &Trail, binding: Binding) -> bool
    requires net { IsNet net.now }
    requires going { IsGoing (frame_in net.now.parts) trail.now }
    ensures { IsTrue result ↔ IsUnder (frame_in net.now.parts) (state_of trail.now) binding }
{
    if trail.is_on_way(net, binding.rstr, binding.label) {
        return true;
    }
    trail.is_on_way(net, binding.body, binding.label)
}

// The label at which a constraint begins.
fn start(net: &Net, trail: &Trail, left: u32) -> Option<u32>
    requires net { IsNet net.now }
    requires going { IsGoing (frame_in net.now.parts) trail.now }
    requires full { IsFull (frame_in net.now.parts) (state_of trail.now) }
    ensures { MatchOption result ((from : ℕ) → StartsAt (frame_in net.now.parts) (state_of trail.now) left from → ⊥) (λ at. StartsAt (frame_in net.now.parts) (state_of trail.now) left at × ((from : ℕ) → StartsAt (frame_in net.now.parts) (state_of trail.now) left from → from ≡ at)) }
{
    match trail.label_at(left) {
        Some(label) => Some(label),
        None => start_free(net, trail, left),
    }
}

// The label at which a constraint begins whose left isn't a hole.
fn start_free(net: &Net, trail: &Trail, left: u32) -> Option<u32>
    requires net { IsNet net.now }
    requires going { IsGoing (frame_in net.now.parts) trail.now }
    requires full { IsFull (frame_in net.now.parts) (state_of trail.now) }
    requires free { plugged_at left (path trail.now) ≡ None }
    ensures { MatchOption result ((from : ℕ) → StartsAt (frame_in net.now.parts) (state_of trail.now) left from → ⊥) (λ at. StartsAt (frame_in net.now.parts) (state_of trail.now) left at × ((from : ℕ) → StartsAt (frame_in net.now.parts) (state_of trail.now) left from → from ≡ at)) }
{
    if mark_at(&net.is_label, left) {
        return Some(left);
    }
    if left == net.parts.top {
        return Some(trail.root);
    }
    None
}

// Whether a constraint holds.
fn is_met(net: &Net, trail: &Trail, qeq: Qeq) -> bool
    requires net { IsNet net.now }
    requires going { IsGoing (frame_in net.now.parts) trail.now }
    requires full { IsFull (frame_in net.now.parts) (state_of trail.now) }
    ensures { IsTrue result ↔ IsMet (frame_in net.now.parts) (state_of trail.now) qeq }
{
    if !mark_at(&net.is_label, qeq.right) {
        return false;
    }
    match start(net, trail, qeq.left) {
        Some(from) => trail.is_by_bodies(net, from, qeq.right),
        None => false,
    }
}

fn are_under(net: &Net, trail: &Trail) -> bool
    requires net { IsNet net.now }
    requires going { IsGoing (frame_in net.now.parts) trail.now }
    ensures { IsTrue result ↔ All (IsUnder (frame_in net.now.parts) (state_of trail.now)) net.now.parts.bindings.items }
{
    for k in 0..net.parts.bindings.len() {
        let binding = net.parts.bindings[k];
        if !is_under(net, trail, binding) {
            return false;
        }
    }
    true
}

fn are_met(net: &Net, trail: &Trail) -> bool
    requires net { IsNet net.now }
    requires going { IsGoing (frame_in net.now.parts) trail.now }
    requires full { IsFull (frame_in net.now.parts) (state_of trail.now) }
    ensures { IsTrue result ↔ All (IsMet (frame_in net.now.parts) (state_of trail.now)) net.now.parts.qeqs.items }
{
    for k in 0..net.parts.qeqs.len() {
        let qeq = net.parts.qeqs[k];
        if !is_met(net, trail, qeq) {
            return false;
        }
    }
    true
}

// Whether TOP, where it is a label, is reached from the root.
fn is_topped(net: &Net, trail: &Trail) -> bool
    requires net { IsNet net.now }
    requires going { IsGoing (frame_in net.now.parts) trail.now }
    ensures { IsTrue result ↔ (Contains net.now.parts.labels.items net.now.parts.top → IsByBodies (frame_in net.now.parts) (state_of trail.now) trail.now.root net.now.parts.top) }
{
    if !mark_at(&net.is_label, net.parts.top) {
        return true;
    }
    trail.is_by_bodies(net, trail.root, net.parts.top)
}

/// Whether a full state is a reading.
pub(crate) fn is_sound(net: &Net, trail: &Trail) -> bool
    requires net { IsNet net.now }
    requires going { IsGoing (frame_in net.now.parts) trail.now }
    requires full { IsFull (frame_in net.now.parts) (state_of trail.now) }
    ensures { IsTrue result ↔ IsSound (frame_in net.now.parts) (state_of trail.now) }
{
    if !are_under(net, trail) {
        return false;
    }
    if !are_met(net, trail) {
        return false;
    }
    is_topped(net, trail)
}
