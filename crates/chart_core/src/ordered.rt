//! The ordered pass: a whole chart, in the order of the mothers' sizes and levels.

ghost use Rattle.std.specs.Prelude.{◌≡◌, All, IfOk, MatchResult, map};
ghost use Rattle.chart_core.specs.Grammar.{grammar_of};
ghost use Rattle.chart_core.specs.Kept.{InRange, limits_seen};
ghost use Rattle.chart_core.specs.CoreView.{leaves_of, limits_of};
ghost use Rattle.chart_core.specs.Leaves.{leaf_seen, LeafBelongs};
ghost use Rattle.chart_core.specs.Passed.{IsPassed, IsPassFault};
ghost use Rattle.chart_core.specs.Passing.{IsPassing};

use crate::counting::fault_below;
use crate::noted::Notes;
use crate::passing::Pass;
use crate::{ChartFault, Core, Finished, Leaf, Limits};
use chart_model::{NoMemory, Shapes};
use std::alloc::Global;

/// The finished chart over these leaves, where the limits allow it.
///
/// The mothers are made in order of size and, within a size, of level, so that a limit is seen to be broken before larger
/// mothers are made. Otherwise the fault of the least size by which a limit is broken: a unary chain, an edge of the level
/// above the limit, or else more packed classes than the limit of edges. `NoMemory` may come in place of any answer.
pub fn ordered_pass<S: Shapes>(
    alloc: Global,
    leaves: Vec<Leaf<S>>,
    shapes: &S,
    work: &mut S::Work,
    limits: &Limits,
) -> Result<Finished<S>, ChartFault>
    requires limits { InRange limits.now }
    requires leaves { All (LeafBelongs (S.calculus shapes.now) (S.belongs shapes.now)) leaves.items }
    ensures { MatchResult result
        (IsPassed (grammar_of S.Shapes S.Cover.Cover.own shapes.now) (S.full shapes.now) (S.agrees shapes.now) (limits_seen limits.now) (map (leaf_seen (S.meaning shapes.now)) leaves.items))
        (IsPassFault (S.calculus shapes.now) (limits_seen limits.now) (map (leaf_seen (S.meaning shapes.now)) leaves.items)) }
{
    let mut pass = begin(alloc, leaves, shapes, work, limits)?;
    while let Some((size, level)) = pass.next(shapes) {
        if let Some(fault) = pass.fault_before(shapes, size, level) {
            return Err(fault);
        }
        pass.advance(alloc, shapes, work, size, level)?;
    }
    pass.end(shapes, limits)
}

// A pass over these leaves whose tasks are noted.
fn begin<S: Shapes>(
    alloc: Global,
    leaves: Vec<Leaf<S>>,
    shapes: &S,
    work: &mut S::Work,
    limits: &Limits,
) -> Result<Pass<S>, NoMemory>
    requires limits { InRange limits.now }
    requires leaves { All (LeafBelongs (S.calculus shapes.now) (S.belongs shapes.now)) leaves.items }
    ensures passing { IfOk result (IsPassing (grammar_of S.Shapes S.Cover.Cover.own shapes.now)) }
    ensures limits { IfOk result (λ pass. limits_of pass.core ≡ limits_seen limits.now) }
    ensures leaves { IfOk result (λ pass. leaves_of (S.meaning shapes.now) pass.core ≡ map (leaf_seen (S.meaning shapes.now)) leaves.items) }
{
    let core = Core::start(alloc, leaves, shapes, work, limits)?;
    let mut pass = Pass {
        core,
        notes: Notes::new(alloc),
        size: 0,
        level: 0,
        seen: 0,
    };
    pass.take_up(alloc, shapes, work)?;
    Ok(pass)
}

impl<S: Shapes> Pass<S> {
    ghost use Rattle.std.specs.Prelude.{◌≡◌, OnOk, MatchOption, MatchResult};
    ghost use Rattle.chart_core.specs.Grammar.{grammar_of};
    ghost use Rattle.chart_core.specs.Kept.{limits_seen};
    ghost use Rattle.chart_core.specs.CoreView.{leaves_of, limits_of};
    ghost use Rattle.chart_core.specs.Noted.{IsNext, IsEmpty};
    ghost use Rattle.chart_core.specs.Passed.{IsPassed, IsPassFault};
    ghost use Rattle.chart_core.specs.Passing.{IsPassing, StaysOver};

    // The next size and level by which mothers are due.
    fn next(&mut self, _shapes: &S) -> Option<(u32, u32)>
        requires passing { IsPassing (grammar_of S.Shapes S.Cover.Cover.own _shapes.now) self.old }
        ensures passing { IsPassing (grammar_of S.Shapes S.Cover.Cover.own _shapes.now) self.new }
        ensures core { self.new.core ≡ self.old.core }
        ensures place { (self.new.size ≡ self.old.size) × (self.new.level ≡ self.old.level) }
        ensures next { MatchOption result (IsEmpty self.new.notes) (λ n. IsNext self.new.notes n.0 n.1) }
    {
        self.notes.next()
    }

    // Whether the mothers made so far may break a limit: there were more hosts than the limit, or the last mothers stand above more
    // unary rules than it. Levels rise within a size, and so does the number of hosts that were ever made.
    fn may_be_over(&self) -> bool {
        self.core.made > u64::from(self.core.edges) || self.level > self.core.unary
    }

    // The answer of the limits, where one is broken below the next size; asked once for each size by which one may be.
    fn fault_before(&self, _shapes: &S, size: u32, _level: u32) -> Option<ChartFault>
        requires passing { IsPassing (grammar_of S.Shapes S.Cover.Cover.own _shapes.now) self.now }
        requires next { IsNext self.now.notes size _level }
        ensures { MatchOption result (Unit {0}) (IsPassFault (S.calculus _shapes.now) (limits_of self.now.core) (leaves_of (S.meaning _shapes.now) self.now.core)) }
    {
        if size == self.size || !self.may_be_over() {
            return None;
        }
        fault_below(
            &self.core.rows,
            self.core.edges,
            self.core.unary,
            u64::from(size),
        )
    }

    // Makes the mothers of the next size and level, and notes what comes from them.
    fn advance(
        &mut self,
        alloc: Global,
        shapes: &S,
        work: &mut S::Work,
        size: u32,
        level: u32,
    ) -> Result<(), NoMemory>
        requires passing { IsPassing (grammar_of S.Shapes S.Cover.Cover.own shapes.now) self.old }
        requires next { IsNext self.old.notes size level }
        ensures passing { OnOk result (IsPassing (grammar_of S.Shapes S.Cover.Cover.own shapes.now) self.new) }
        ensures over { OnOk result (StaysOver (grammar_of S.Shapes S.Cover.Cover.own shapes.now) self.old.core self.new.core) }
        ensures place { OnOk result ((self.new.size ≡ size) × (self.new.level ≡ level)) }
    {
        self.size = size;
        self.level = level;
        self.make_due(alloc, shapes, work)?;
        self.take_up(alloc, shapes, work)?;
        Ok(())
    }

    // The finished chart, where nothing is noted any more, or the answer of the limits.
    fn end(self, _shapes: &S, limits: &Limits) -> Result<Finished<S>, ChartFault>
        requires passing { IsPassing (grammar_of S.Shapes S.Cover.Cover.own _shapes.now) self }
        requires none { IsEmpty self.notes }
        requires limits { limits_seen limits.now ≡ limits_of self.core }
        ensures { MatchResult result
            (IsPassed (grammar_of S.Shapes S.Cover.Cover.own _shapes.now) (S.full _shapes.now) (S.agrees _shapes.now) (limits_of self.core) (leaves_of (S.meaning _shapes.now) self.core))
            (IsPassFault (S.calculus _shapes.now) (limits_of self.core) (leaves_of (S.meaning _shapes.now) self.core)) }
    {
        let finished = Finished { core: self.core };
        match finished.decide(limits) {
            Ok(_) => Ok(finished),
            Err(fault) => Err(fault),
        }
    }
}
