//! The steps of a chart: outcomes are entered.

use crate::entering::{Known, OpenTask};
use crate::rows::Candidate;
use crate::tasks::Standing;
use crate::tuples::level_over;
use crate::{Call, Caller, Core, Entered, Outcome, RowKind, TaskId, Tested};
use chart_model::Shapes;
use std::alloc::Global;

impl<S: Shapes> Core<S> {
    ghost use Rattle.std.specs.Prelude.{◌<◌};
    ghost use Rattle.chart_core.specs.Grammar.{grammar_of};
    ghost use Rattle.chart_core.specs.Kept.{IsCore, tasks_of};
    ghost use Rattle.chart_core.specs.Outcomes.{ShapeBelongs, outcome_seen};
    ghost use Rattle.chart_core.specs.Calls.{IsRightIn, IsReady, IsAnswer, IsAnswerTo, Changes, AreRightVerdicts};

    /// Enters the outcome of a task, and tells what that did.
    ///
    /// The first that holds is the answer. `Stale`: the task was done before. `Skipped`: a daughter is frosted, and this is
    /// the first; the task is done. `Noted`: the outcome is `Fails`; the task is done. `Full`: the outcome is `Whole`, no live
    /// host of its cover and level subsumes it, and as many rows ever became hosts as four times the limit of edges and 64.
    /// Else `Placed`: the task is done, and the row and its tasks are there. A whole row is packed into the live host of least
    /// number that subsumes it; otherwise it becomes a host, and the hosts that it subsumes are frosted (Oepen and Carroll
    /// 2000). `NoMemory` may stand in place of `Placed` and `Full` alone. `Stale`, `Full` and `NoMemory` change nothing.
    pub fn enter(
        &mut self,
        alloc: Global,
        shapes: &S,
        work: &mut S::Work,
        task: TaskId,
        outcome: Outcome<S>,
    ) -> Entered
        requires core { IsCore (grammar_of S.Shapes S.Cover.Cover.own shapes.now) self.old }
        requires made { task.0 < tasks_of self.old }
        requires right { IsRightIn (grammar_of S.Shapes S.Cover.Cover.own shapes.now) self.old task.0 outcome }
        requires belongs { ShapeBelongs (S.belongs shapes.now) outcome }
        ensures answer { IsAnswer (grammar_of S.Shapes S.Cover.Cover.own shapes.now) self.old task.0 outcome (record { seat = 0; count = 0 }) result }
        ensures change { Changes (grammar_of S.Shapes S.Cover.Cover.own shapes.now) self.old task.0 outcome (record { seat = 0; count = 0 }) result self.new }
        ensures core { IsCore (grammar_of S.Shapes S.Cover.Cover.own shapes.now) self.new }
    {
        self.enter_as(
            alloc,
            shapes,
            work,
            task,
            outcome,
            Caller { seat: 0, count: 0 },
        )
    }

    /// Enters the outcome of a task, as `enter` does; the entry of the history names this caller.
    pub fn enter_as(
        &mut self,
        alloc: Global,
        shapes: &S,
        work: &mut S::Work,
        task: TaskId,
        outcome: Outcome<S>,
        by: Caller,
    ) -> Entered
        requires core { IsCore (grammar_of S.Shapes S.Cover.Cover.own shapes.now) self.old }
        requires made { task.0 < tasks_of self.old }
        requires right { IsRightIn (grammar_of S.Shapes S.Cover.Cover.own shapes.now) self.old task.0 outcome }
        requires belongs { ShapeBelongs (S.belongs shapes.now) outcome }
        ensures answer { IsAnswer (grammar_of S.Shapes S.Cover.Cover.own shapes.now) self.old task.0 outcome by result }
        ensures change { Changes (grammar_of S.Shapes S.Cover.Cover.own shapes.now) self.old task.0 outcome by result self.new }
        ensures core { IsCore (grammar_of S.Shapes S.Cover.Cover.own shapes.now) self.new }
    {
        let tested = Tested {
            verdicts: Vec::new(alloc),
        };
        let known = Known {
            tested: &tested,
            bounded: true,
        };
        self.enter_inner(alloc, shapes, work, Call { task, by }, outcome, &known)
    }

    /// Enters the outcome of a task, as `enter_as` does, where some verdicts on hosts were found before.
    ///
    /// It tests each live host of the cover and level that has no verdict, and passes over verdicts on rows that are no
    /// longer live hosts.
    pub fn enter_tested(
        &mut self,
        alloc: Global,
        shapes: &S,
        work: &mut S::Work,
        call: Call,
        outcome: Outcome<S>,
        tested: &Tested,
    ) -> Entered
        requires core { IsCore (grammar_of S.Shapes S.Cover.Cover.own shapes.now) self.old }
        requires made { call.task.0 < tasks_of self.old }
        requires right { IsRightIn (grammar_of S.Shapes S.Cover.Cover.own shapes.now) self.old call.task.0 outcome }
        requires belongs { ShapeBelongs (S.belongs shapes.now) outcome }
        requires verdicts { AreRightVerdicts (grammar_of S.Shapes S.Cover.Cover.own shapes.now) self.old outcome tested.now.verdicts.items }
        ensures answer { IsAnswer (grammar_of S.Shapes S.Cover.Cover.own shapes.now) self.old call.task.0 outcome call.by result }
        ensures change { Changes (grammar_of S.Shapes S.Cover.Cover.own shapes.now) self.old call.task.0 outcome call.by result self.new }
        ensures core { IsCore (grammar_of S.Shapes S.Cover.Cover.own shapes.now) self.new }
    {
        let known = Known {
            tested,
            bounded: true,
        };
        self.enter_inner(alloc, shapes, work, call, outcome, &known)
    }

    // Enters the outcome of a task; where room isn't asked for, the answer is never `Full`.
    pub(crate) fn enter_inner(
        &mut self,
        alloc: Global,
        shapes: &S,
        work: &mut S::Work,
        call: Call,
        outcome: Outcome<S>,
        known: &Known,
    ) -> Entered
        requires core { IsCore (grammar_of S.Shapes S.Cover.Cover.own shapes.now) self.old }
        requires made { call.task.0 < tasks_of self.old }
        requires right { IsRightIn (grammar_of S.Shapes S.Cover.Cover.own shapes.now) self.old call.task.0 outcome }
        requires belongs { ShapeBelongs (S.belongs shapes.now) outcome }
        requires verdicts { AreRightVerdicts (grammar_of S.Shapes S.Cover.Cover.own shapes.now) self.old outcome known.now.tested.now.verdicts.items }
        ensures answer { IsAnswerTo (grammar_of S.Shapes S.Cover.Cover.own shapes.now) known.now.bounded self.old call.task.0 (outcome_seen (S.meaning shapes.now) outcome) call.by result }
        ensures change { Changes (grammar_of S.Shapes S.Cover.Cover.own shapes.now) self.old call.task.0 outcome call.by result self.new }
        ensures core { IsCore (grammar_of S.Shapes S.Cover.Cover.own shapes.now) self.new }
    {
        match self.standing(shapes, call.task) {
            Standing::Done(place) => Entered::Stale { place },
            Standing::Skipped(row) => {
                let place = self.history.len() as u64;
                self.mark(call.task.0 as usize, None, call.by);
                Entered::Skipped { place, row }
            }
            Standing::Open(rule, daughters) => {
                let at = OpenTask {
                    call,
                    rule,
                    daughters,
                };
                self.enter_open(alloc, shapes, work, at, outcome, known)
            }
        }
    }

    // Enters the outcome of a task whose daughters are all live.
    pub(crate) fn enter_open(
        &mut self,
        alloc: Global,
        shapes: &S,
        work: &mut S::Work,
        at: OpenTask,
        outcome: Outcome<S>,
        known: &Known,
    ) -> Entered
        requires core { IsCore (grammar_of S.Shapes S.Cover.Cover.own shapes.now) self.old }
        requires open { IsReady (grammar_of S.Shapes S.Cover.Cover.own shapes.now) self.old at.call.task.0 at.rule at.daughters }
        requires right { IsRightIn (grammar_of S.Shapes S.Cover.Cover.own shapes.now) self.old at.call.task.0 outcome }
        requires belongs { ShapeBelongs (S.belongs shapes.now) outcome }
        requires verdicts { AreRightVerdicts (grammar_of S.Shapes S.Cover.Cover.own shapes.now) self.old outcome known.now.tested.now.verdicts.items }
        ensures answer { IsAnswerTo (grammar_of S.Shapes S.Cover.Cover.own shapes.now) known.now.bounded self.old at.call.task.0 (outcome_seen (S.meaning shapes.now) outcome) at.call.by result }
        ensures change { Changes (grammar_of S.Shapes S.Cover.Cover.own shapes.now) self.old at.call.task.0 outcome at.call.by result self.new }
        ensures core { IsCore (grammar_of S.Shapes S.Cover.Cover.own shapes.now) self.new }
    {
        match outcome {
            Outcome::Fails => {
                let place = self.history.len() as u64;
                self.mark(at.call.task.0 as usize, None, at.call.by);
                Entered::Noted { place }
            }
            Outcome::Fits { cover } => self.enter_partial(alloc, shapes, at, cover),
            Outcome::Whole { cover, shape } => {
                let new = Candidate {
                    kind: RowKind::Whole { rule: at.rule },
                    daughters: at.daughters,
                    cover,
                    level: level_over(&self.rows, &at.daughters),
                    shape,
                };
                self.enter_whole(alloc, shapes, work, at.call, new, known)
            }
        }
    }
}
