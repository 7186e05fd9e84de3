//! The parts of a step that give a row.

use crate::rows::Candidate;
use crate::{Call, Core, Daughters, Entered, RowId, TaskId, Tested, Verdict};
use chart_model::{NoMemory, Shapes};
use std::alloc::Global;

// A task whose daughters are all live, and who enters its outcome.
#[derive(Drop, Clone, Copy)]
pub(crate) struct OpenTask {
    pub(crate) call: Call,
    pub(crate) rule: u32,
    pub(crate) daughters: Daughters,
}

// What an outcome is entered by: what was found of rows before, and whether room is asked for.
#[derive(Drop)]
pub(crate) struct Known<'t> {
    pub(crate) tested: &'t Tested,
    pub(crate) bounded: bool,
}

impl<S: Shapes> Core<S> {
    ghost use Rattle.std.specs.Prelude.{◌≡◌, ◌<◌, ◌≤◌, ◌+◌, ◌*◌, nat_le, Bool, OnOk, OnErr, All, None, Some, length, false};
    ghost use Rattle.chart_model.specs.Chart as model;
    ghost use Rattle.chart_core.specs.Grammar.{grammar_of, keys_of};
    ghost use Rattle.chart_core.specs.Kept.{IsCore};
    ghost use Rattle.chart_core.specs.CoreView.{chart_of, limits_of, candidate_of};
    ghost use Rattle.chart_core.specs.View.{AreDaughters, Belongs, list_of};
    ghost use Rattle.chart_core.specs.Sound.{IsSound, KeepsFrame, is_partial_kind};
    ghost use Rattle.chart_core.specs.Calls.{IsOpenWith, IsNewRow, IsAnswerTo, ChangesBy};
    ghost use Rattle.chart_core.specs.Steps.{IsRightAt};
    ghost use Rattle.chart_core.specs.Verdicts.{AreRight};

    // A new leaf or whole row, with the live host of least number that subsumes it, if there is one.
    pub(crate) fn push_whole(
        &mut self,
        alloc: Global,
        shapes: &S,
        work: &mut S::Work,
        tested: &[Verdict],
        new: Candidate<S>,
        peer: Option<u64>,
    ) -> Result<(), NoMemory>
        requires sound { IsSound (keys_of S.Cover.Cover.own) self.old }
        requires rows { All (Belongs (S.calculus shapes.now) (S.belongs shapes.now)) self.old.rows.items }
        requires whole { is_partial_kind new.kind ≡ false }
        requires daughters { AreDaughters new.daughters }
        requires in_range { All (λ d. d < length self.old.rows.items) (list_of new.daughters) }
        requires shape { S.belongs shapes.now new.shape }
        requires proper { (S.calculus shapes.now).proper new.cover }
        requires tested { AreRight (S.calculus shapes.now) (S.meaning shapes.now) (S.meaning shapes.now new.shape) self.old.rows.items tested.now }
        requires peer { peer ≡ model.peer_over (S.calculus shapes.now) (limits_of self.old) (chart_of (S.meaning shapes.now) self.old) (candidate_of (S.meaning shapes.now) new) (S.meaning shapes.now new.shape) }
        ensures ok { OnOk result (chart_of (S.meaning shapes.now) self.new ≡ model.with_whole (S.calculus shapes.now) (limits_of self.old) (chart_of (S.meaning shapes.now) self.old) (candidate_of (S.meaning shapes.now) new) (S.meaning shapes.now new.shape)) }
        ensures err { OnErr result (chart_of (S.meaning shapes.now) self.new ≡ chart_of (S.meaning shapes.now) self.old) }
        ensures history { self.new.history.items ≡ self.old.history.items }
        ensures frame { KeepsFrame self.old self.new }
        ensures belongs { All (Belongs (S.calculus shapes.now) (S.belongs shapes.now)) self.new.rows.items }
        ensures sound { IsSound (keys_of S.Cover.Cover.own) self.new }
    {
        match peer {
            Some(host) => self.push_packed(shapes, new, host),
            None => self.push_host(alloc, shapes, work, tested, new),
        }
    }

    // Enters a partial row for a task whose daughters are all live.
    pub(crate) fn enter_partial(
        &mut self,
        alloc: Global,
        shapes: &S,
        at: OpenTask,
        cover: S::Cover,
    ) -> Entered
        requires core { IsCore (grammar_of S.Shapes S.Cover.Cover.own shapes.now) self.old }
        requires open { IsOpenWith (grammar_of S.Shapes S.Cover.Cover.own shapes.now) self.old at.call.task.0 at.rule (list_of at.daughters) }
        requires daughters { AreDaughters at.daughters }
        requires in_range { All (λ d. d < length self.old.rows.items) (list_of at.daughters) }
        requires right { IsRightAt (S.calculus shapes.now) (limits_of self.old) (chart_of (S.meaning shapes.now) self.old) at.call.task.0 (model.Fits cover) }
        ensures answer { (bounded : Bool) → IsAnswerTo (grammar_of S.Shapes S.Cover.Cover.own shapes.now) bounded self.old at.call.task.0 (model.Fits cover) at.call.by result }
        ensures change { ChangesBy (grammar_of S.Shapes S.Cover.Cover.own shapes.now) self.old at.call.task.0 (model.Fits cover) at.call.by result self.new }
        ensures core { IsCore (grammar_of S.Shapes S.Cover.Cover.own shapes.now) self.new }
    {
        let place = self.history.len() as u64;
        let row = RowId(self.rows.len() as u64);
        let first_task = TaskId(self.tasks.len() as u64);
        match self.push_partial(alloc, shapes, at.rule, at.daughters, cover) {
            Err(NoMemory) => Entered::NoMemory,
            Ok(()) => {
                let end_task = TaskId(self.tasks.len() as u64);
                self.mark(at.call.task.0 as usize, Some(row), at.call.by);
                Entered::Placed {
                    place,
                    row,
                    first_task,
                    end_task,
                }
            }
        }
    }

    // Whether there is no room for one more host.
    fn is_full(&self) -> bool
        ensures { result ≡ nat_le (4 * self.now.edges + 64) self.now.made }
    {
        4 * u64::from(self.edges) + 64 <= self.made
    }

    // Enters a whole row for a task whose daughters are all live.
    pub(crate) fn enter_whole(
        &mut self,
        alloc: Global,
        shapes: &S,
        work: &mut S::Work,
        call: Call,
        new: Candidate<S>,
        known: &Known,
    ) -> Entered
        requires core { IsCore (grammar_of S.Shapes S.Cover.Cover.own shapes.now) self.old }
        requires open { IsNewRow (grammar_of S.Shapes S.Cover.Cover.own shapes.now) self.old call.task.0 new }
        requires daughters { AreDaughters new.daughters }
        requires in_range { All (λ d. d < length self.old.rows.items) (list_of new.daughters) }
        requires right { IsRightAt (S.calculus shapes.now) (limits_of self.old) (chart_of (S.meaning shapes.now) self.old) call.task.0 (model.Makes new.cover (S.meaning shapes.now new.shape)) }
        requires shape { S.belongs shapes.now new.shape }
        requires proper { (S.calculus shapes.now).proper new.cover }
        requires tested { AreRight (S.calculus shapes.now) (S.meaning shapes.now) (S.meaning shapes.now new.shape) self.old.rows.items known.now.tested.now.verdicts.items }
        ensures answer { IsAnswerTo (grammar_of S.Shapes S.Cover.Cover.own shapes.now) known.now.bounded self.old call.task.0 (model.Makes new.cover (S.meaning shapes.now new.shape)) call.by result }
        ensures change { ChangesBy (grammar_of S.Shapes S.Cover.Cover.own shapes.now) self.old call.task.0 (model.Makes new.cover (S.meaning shapes.now new.shape)) call.by result self.new }
        ensures core { IsCore (grammar_of S.Shapes S.Cover.Cover.own shapes.now) self.new }
    {
        let place = self.history.len() as u64;
        let row = RowId(self.rows.len() as u64);
        let first_task = TaskId(self.tasks.len() as u64);
        let peer = match self.peer_over(
            shapes,
            work,
            &known.tested.verdicts,
            &new.cover,
            new.level,
            &new.shape,
        ) {
            Err(NoMemory) => return Entered::NoMemory,
            Ok(peer) => peer,
        };
        let bounded = known.bounded;
        if bounded && peer.is_none() && self.is_full() {
            return Entered::Full { made: self.made };
        }
        match self.push_whole(alloc, shapes, work, &known.tested.verdicts, new, peer) {
            Err(NoMemory) => Entered::NoMemory,
            Ok(()) => {
                let end_task = TaskId(self.tasks.len() as u64);
                self.mark(call.task.0 as usize, Some(row), call.by);
                Entered::Placed {
                    place,
                    row,
                    first_task,
                    end_task,
                }
            }
        }
    }
}
