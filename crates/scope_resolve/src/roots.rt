//! The search from each root.

ghost use Rattle.std.specs.Prelude.{◌≡◌, IfOk, OnOk, Contains, [], map};
ghost use Rattle.scope_model.specs.Answers.{plugged_of};
ghost use Rattle.scope_resolve.specs.Inner.Nets.{IsNet, frame_in};
ghost use Rattle.scope_resolve.specs.Inner.Filling.{AreFound, HasRoot, IsAny};
ghost use Rattle.scope_resolve.specs.Inner.Pruning.{IsPlan};

use crate::filling::fill;
use crate::nets::Net;
use crate::search::{Search, search_of};
use crate::trail::Trail;
use mrs_model::NoMemory;
use scope_model::Plugging;
use std::alloc::Global;

// The readings with this label at the top.
fn fill_root(
    alloc: Global,
    net: &Net,
    max: u32,
    search: &mut Search,
    root: u32,
    out: &mut Vec<Plugging>,
) -> Result<bool, NoMemory>
    requires net { IsNet net.now }
    requires plan { IsPlan (frame_in net.now.parts) search.old.plan }
    requires root { Contains net.now.labels.items root }
    ensures plan { OnOk result (search.new.plan ≡ search.old.plan) }
    ensures found { IfOk result (λ done. AreFound (frame_in net.now.parts) (HasRoot root) max done (map plugged_of out.old.items) (map plugged_of out.new.items)) }
{
    let plugs = Vec::with_capacity(alloc, net.holes.len())?;
    let mut trail = Trail { root, plugs };
    let done = fill(alloc, net, max, search, &mut trail, out)?;
    Ok(done)
}

/// All readings, each once, or, where it answers false, more than `max` of them.
pub(crate) fn fill_all(
    alloc: Global,
    net: &Net,
    max: u32,
    out: &mut Vec<Plugging>,
) -> Result<bool, NoMemory>
    requires net { IsNet net.now }
    ensures { IfOk result (λ done. AreFound (frame_in net.now.parts) IsAny max done (map plugged_of out.old.items) (map plugged_of out.new.items)) }
{
    let mut search = search_of(alloc, net)?;
    for k in 0..net.labels.len() {
        let root = net.labels[k];
        if !fill_root(alloc, net, max, &mut search, root, out)? {
            return Ok(false);
        }
    }
    Ok(true)
}
