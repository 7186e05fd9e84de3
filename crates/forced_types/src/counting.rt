//! Whether few paths lead from the root.

ghost use Rattle.std.specs.Prelude.{◌≡◌, ◌<◌, ◌≤◌, ◌+◌, ◌++◌, true, length, IfOk, OnOk};
ghost use Rattle.forced_types.specs.Inner.Sound.{AreSound, most_of, size_of, entry_in};
ghost use Rattle.forced_types.specs.Inner.Closed.{IsFlat, IsClosed};
ghost use Rattle.forced_types.specs.Inner.Counting.{Counts, ForcesMore, ClosedWithin, end_at, ends_by};

use crate::given::Given;
use crate::nodes::Nodes;
use fs_closing::NoMemory;
use std::alloc::Global;

/// The end of a path from the root: a node, and how many features lead there.
#[derive(Clone, Copy)]
pub struct End {
    pub node: u32,
    pub size: usize,
}

impl Nodes {
    // The ends of the arcs of a node come last, with so many features.
    fn push_ends(
        &self,
        given: Given<'_>,
        ends: &mut Vec<End>,
        n: u32,
        size: usize,
    ) -> Result<(), NoMemory>
        requires sound { AreSound given self.now }
        requires node { n < size_of self.now }
        ensures { OnOk result (ends.new.items ≡ ends.old.items ++ ends_by self.now size (entry_in self.now n).arcs) }
    {
        let arcs = self.arcs(n);
        for arc in arcs {
            let node = self.up(arc.to.0);
            ends.push(End { node, size })?;
        }
        Ok(())
    }

    // The ends that lie one arc beyond an end come last, where paths may go so far.
    fn go_on(&self, given: Given<'_>, ends: &mut Vec<End>, at: usize) -> Result<(), NoMemory>
        requires sound { AreSound given self.now }
        requires at { at < length ends.old.items }
        requires node { (end_at ends.old.items at).node < size_of self.now }
        ensures on { OnOk result ((end_at ends.old.items at).size < most_of given.entry → ends.new.items ≡ ends.old.items ++
            ends_by self.now ((end_at ends.old.items at).size + 1) (entry_in self.now (end_at ends.old.items at).node).arcs) }
        ensures stay { OnOk result (most_of given.entry ≤ (end_at ends.old.items at).size → ends.new.items ≡ ends.old.items) }
    {
        let end = ends[at];
        if end.size >= given.most() {
            return Ok(());
        }
        self.push_ends(given, ends, end.node, end.size + 1)?;
        Ok(())
    }

    // Whether no more paths than the limit lead from the root, beside the one to it. Each path costs one look at the arcs of its end, and
    // little more than the limit are followed.
    fn has_few(&self, alloc: Global, given: Given<'_>, limit: u32) -> Result<bool, NoMemory>
        requires sound { AreSound given self.now }
        requires flat { IsFlat self.now }
        ensures { IfOk result (Counts given.entry self.now limit) }
    {
        let most = limit as usize + 1;
        let mut ends = Vec::new(alloc);
        let node = self.up(0);
        ends.push(End { node, size: 0 })?;
        for at in 0..most {
            if at >= ends.len() {
                return Ok(true);
            }
            self.go_on(given, &mut ends, at)?;
            if ends.len() > most {
                return Ok(false);
            }
        }
        if ends.len() > most {
            return Ok(false);
        }
        Ok(true)
    }

    // Whether more paths than the limit lead from the root, so far. Where nodes aren't flat, that isn't known yet.
    fn shows_more(&self, alloc: Global, given: Given<'_>, limit: u32) -> Result<bool, NoMemory>
        requires { AreSound given self.now }
        ensures { IfOk result (λ more. more ≡ true → ForcesMore given.entry limit) }
    {
        if !self.is_flat(given) {
            return Ok(false);
        }
        let few = self.has_few(alloc, given, limit)?;
        Ok(!few)
    }

    // Whether closed nodes have no more paths than the limit.
    fn ends_few(&self, alloc: Global, given: Given<'_>, limit: u32) -> Result<bool, NoMemory>
        requires sound { AreSound given self.now }
        requires closed { IsClosed given self.now }
        ensures { IfOk result (ClosedWithin given.entry limit self.now) }
    {
        given.system.types().laws();
        let few = self.has_few(alloc, given, limit)?;
        Ok(few)
    }

    /// Closes nodes, unless more paths than the limit are forced. Each node that isn't merged has a path of its own, so that paths are
    /// counted once there are more nodes than the limit; and where they weren't many, again when there are twice as many nodes.
    pub fn close_within(
        &mut self,
        alloc: Global,
        given: Given<'_>,
        limit: u32,
    ) -> Result<bool, NoMemory>
        requires { AreSound given self.old }
        ensures sound { AreSound given.entry self.new }
        ensures closed { IfOk result (ClosedWithin given.entry limit self.new) }
    {
        let mut most = limit;
        for _ in 0..u64::MAX {
            if self.size() > most {
                if self.shows_more(alloc, given, limit)? {
                    return Ok(false);
                }
                most = self.size().saturating_mul(2);
            }
            if self.is_closed(alloc, given)? {
                return self.ends_few(alloc, given, limit);
            }
            self.round(alloc, given, most)?;
        }
        Err(NoMemory)
    }
}
