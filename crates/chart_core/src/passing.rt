//! Tasks are looked at, noted, and entered in order.

use crate::entering::{Known, OpenTask};
use crate::finding::outcome_of;
use crate::noted::Notes;
use crate::tasks::Standing;
use crate::tuples::{level_over, tuple_of};
use crate::{Call, Caller, Core, Daughters, Entered, Outcome, TaskId, Tested};
use chart_model::{Cover, NoMemory, Shapes};
use std::alloc::Global;

/// What is to be done with a task that is looked at.
#[derive(Drop)]
pub enum Found<S: Shapes> {
    /// nothing
    Done,
    /// a mother of this size and level is to be made
    Mother { size: u32, level: u32 },
    /// an outcome without a mother is to be entered
    Enters { outcome: Outcome<S> },
}

/// A core whose mothers up to a size and a level are made, with notes of what is pending.
#[derive(Drop)]
pub struct Pass<S: Shapes> {
    pub(crate) core: Core<S>,
    pub(crate) notes: Notes,
    pub(crate) size: u32,
    pub(crate) level: u32,
    // the tasks before this number were looked at
    pub(crate) seen: u64,
}

impl<S: Shapes> Core<S> {
    ghost use Rattle.std.specs.Prelude.{◌≡◌, ◌<◌, IfOk, OnOk};
    ghost use Rattle.chart_core.specs.Grammar.{grammar_of};
    ghost use Rattle.chart_core.specs.Kept.{IsCore, tasks_of};
    ghost use Rattle.chart_core.specs.Outcomes.{ShapeBelongs, outcome_seen};
    ghost use Rattle.chart_core.specs.Calls.{IsRightIn, IsReady};
    ghost use Rattle.chart_core.specs.Passing.{IsFound, IsSettled, StaysOver};

    // What is to be done with a task; a mother isn't made yet.
    fn look(
        &self,
        alloc: Global,
        shapes: &S,
        work: &mut S::Work,
        task: TaskId,
    ) -> Result<Found<S>, NoMemory>
        requires core { IsCore (grammar_of S.Shapes S.Cover.Cover.own shapes.now) self.now }
        requires made { task.0 < tasks_of self.now }
        ensures { IfOk result (IsFound (grammar_of S.Shapes S.Cover.Cover.own shapes.now) self.now task.0) }
    {
        match self.standing(shapes, task) {
            Standing::Done(_) => Ok(Found::Done),
            Standing::Skipped(_) => Ok(Found::Enters {
                outcome: Outcome::Fails,
            }),
            Standing::Open(rule, daughters) => {
                self.look_open(alloc, shapes, work, task, rule, &daughters)
            }
        }
    }

    // What is to be done with a task whose daughters are live.
    fn look_open(
        &self,
        alloc: Global,
        shapes: &S,
        work: &mut S::Work,
        _task: TaskId,
        rule: u32,
        daughters: &Daughters,
    ) -> Result<Found<S>, NoMemory>
        requires core { IsCore (grammar_of S.Shapes S.Cover.Cover.own shapes.now) self.now }
        requires open { IsReady (grammar_of S.Shapes S.Cover.Cover.own shapes.now) self.now _task.0 rule daughters.now }
        ensures { IfOk result (IsFound (grammar_of S.Shapes S.Cover.Cover.own shapes.now) self.now _task.0) }
    {
        let parts = tuple_of(alloc, &self.rows, shapes, daughters)?;
        if parts.count < shapes.arity(rule) {
            let outcome = outcome_of(alloc, shapes, work, rule, &parts)?;
            return Ok(Found::Enters { outcome });
        }
        match shapes.covers(alloc, rule, &parts)? {
            None => Ok(Found::Enters {
                outcome: Outcome::Fails,
            }),
            Some(cover) => Ok(Found::Mother {
                size: cover.size(),
                level: level_over(&self.rows, daughters),
            }),
        }
    }

    // Enters the outcome of a task, however many rows became hosts.
    fn settle(
        &mut self,
        alloc: Global,
        shapes: &S,
        work: &mut S::Work,
        task: TaskId,
        outcome: Outcome<S>,
    ) -> Result<(), NoMemory>
        requires core { IsCore (grammar_of S.Shapes S.Cover.Cover.own shapes.now) self.old }
        requires made { task.0 < tasks_of self.old }
        requires right { IsRightIn (grammar_of S.Shapes S.Cover.Cover.own shapes.now) self.old task.0 outcome }
        requires belongs { ShapeBelongs (S.belongs shapes.now) outcome }
        ensures core { OnOk result (IsCore (grammar_of S.Shapes S.Cover.Cover.own shapes.now) self.new) }
        ensures over { OnOk result (StaysOver (grammar_of S.Shapes S.Cover.Cover.own shapes.now) self.old self.new) }
        ensures settled { OnOk result (IsSettled (grammar_of S.Shapes S.Cover.Cover.own shapes.now) self.old task.0 (outcome_seen (S.meaning shapes.now) outcome) self.new) }
    {
        let tested = Tested {
            verdicts: Vec::new(alloc),
        };
        let by = Caller { seat: 0, count: 0 };
        let known = Known {
            tested: &tested,
            bounded: false,
        };
        match self.enter_inner(alloc, shapes, work, Call { task, by }, outcome, &known) {
            Entered::NoMemory => Err(NoMemory),
            _ => Ok(()),
        }
    }

    // Works out a task and enters its outcome, however many rows became hosts.
    fn make(
        &mut self,
        alloc: Global,
        shapes: &S,
        work: &mut S::Work,
        task: TaskId,
    ) -> Result<(), NoMemory>
        requires core { IsCore (grammar_of S.Shapes S.Cover.Cover.own shapes.now) self.old }
        requires made { task.0 < tasks_of self.old }
        ensures core { OnOk result (IsCore (grammar_of S.Shapes S.Cover.Cover.own shapes.now) self.new) }
        ensures over { OnOk result (StaysOver (grammar_of S.Shapes S.Cover.Cover.own shapes.now) self.old self.new) }
        ensures settled { OnOk result ((o : _) × IsSettled (grammar_of S.Shapes S.Cover.Cover.own shapes.now) self.old task.0 o self.new) }
    {
        match self.standing(shapes, task) {
            Standing::Done(_) => Ok(()),
            Standing::Skipped(_) => {
                self.settle(alloc, shapes, work, task, Outcome::Fails)?;
                Ok(())
            }
            Standing::Open(rule, daughters) => {
                self.make_open(alloc, shapes, work, task, rule, daughters)
            }
        }
    }

    // Works out a task whose daughters are live, and enters its outcome, however many rows became hosts.
    fn make_open(
        &mut self,
        alloc: Global,
        shapes: &S,
        work: &mut S::Work,
        task: TaskId,
        rule: u32,
        daughters: Daughters,
    ) -> Result<(), NoMemory>
        requires core { IsCore (grammar_of S.Shapes S.Cover.Cover.own shapes.now) self.old }
        requires open { IsReady (grammar_of S.Shapes S.Cover.Cover.own shapes.now) self.old task.0 rule daughters }
        ensures core { OnOk result (IsCore (grammar_of S.Shapes S.Cover.Cover.own shapes.now) self.new) }
        ensures over { OnOk result (StaysOver (grammar_of S.Shapes S.Cover.Cover.own shapes.now) self.old self.new) }
        ensures settled { OnOk result ((o : _) × IsSettled (grammar_of S.Shapes S.Cover.Cover.own shapes.now) self.old task.0 o self.new) }
    {
        let parts = tuple_of(alloc, &self.rows, shapes, &daughters)?;
        let outcome = outcome_of(alloc, shapes, work, rule, &parts)?;
        let tested = Tested {
            verdicts: Vec::new(alloc),
        };
        let by = Caller { seat: 0, count: 0 };
        let known = Known {
            tested: &tested,
            bounded: false,
        };
        let at = OpenTask {
            call: Call { task, by },
            rule,
            daughters,
        };
        match self.enter_open(alloc, shapes, work, at, outcome, &known) {
            Entered::NoMemory => Err(NoMemory),
            _ => Ok(()),
        }
    }
}

impl<S: Shapes> Pass<S> {
    ghost use Rattle.std.specs.Prelude.{◌≡◌, ◌<◌, ◌≤◌, ◌+◌, IfOk, OnOk};
    ghost use Rattle.chart_core.specs.Grammar.{grammar_of};
    ghost use Rattle.chart_core.specs.Kept.{IsCore, tasks_of};
    ghost use Rattle.chart_core.specs.Passing.{IsSure, GoesOn, IsTaking, IsEntering, IsPassing};

    // Looks at the next task.
    fn visit(&mut self, alloc: Global, shapes: &S, work: &mut S::Work) -> Result<(), NoMemory>
        requires sure { IsSure (grammar_of S.Shapes S.Cover.Cover.own shapes.now) self.old }
        requires made { self.old.seen < tasks_of self.old.core }
        ensures sure { OnOk result (IsSure (grammar_of S.Shapes S.Cover.Cover.own shapes.now) self.new) }
        ensures goes_on { OnOk result (GoesOn (grammar_of S.Shapes S.Cover.Cover.own shapes.now) self.old self.new) }
        ensures seen { OnOk result (self.new.seen ≡ self.old.seen + 1) }
        ensures taking { OnOk result ((far : _) (short : _)
            → self.old.seen < far
            → far ≤ tasks_of self.old.core
            → IsTaking (grammar_of S.Shapes S.Cover.Cover.own shapes.now) self.old far short
            → IsTaking (grammar_of S.Shapes S.Cover.Cover.own shapes.now) self.new far short) }
    {
        let task = self.seen;
        let found = self.core.look(alloc, shapes, work, TaskId(task))?;
        self.seen = task + 1;
        match found {
            Found::Done => Ok(()),
            Found::Mother { size, level } => {
                self.notes.add(alloc, size, level, task)?;
                Ok(())
            }
            Found::Enters { outcome } => {
                self.core
                    .settle(alloc, shapes, work, TaskId(task), outcome)?;
                Ok(())
            }
        }
    }

    // Looks at all tasks that are there.
    fn round(&mut self, alloc: Global, shapes: &S, work: &mut S::Work) -> Result<(), NoMemory>
        requires sure { IsSure (grammar_of S.Shapes S.Cover.Cover.own shapes.now) self.old }
        ensures sure { OnOk result (IsSure (grammar_of S.Shapes S.Cover.Cover.own shapes.now) self.new) }
        ensures goes_on { OnOk result (GoesOn (grammar_of S.Shapes S.Cover.Cover.own shapes.now) self.old self.new) }
        ensures taking { OnOk result ((short : _)
            → IsTaking (grammar_of S.Shapes S.Cover.Cover.own shapes.now) self.old (tasks_of self.old.core) short
            → IsTaking (grammar_of S.Shapes S.Cover.Cover.own shapes.now) self.new (tasks_of self.new.core) (short + 1)) }
    {
        let far = self.core.tasks();
        while self.seen < far {
            self.visit(alloc, shapes, work)?;
        }
        Ok(())
    }

    // Looks at new tasks, and at those that come from them: a tuple has at most four daughters, one more with each round.
    pub(crate) fn take_up(
        &mut self,
        alloc: Global,
        shapes: &S,
        work: &mut S::Work,
    ) -> Result<(), NoMemory>
        requires sure { IsSure (grammar_of S.Shapes S.Cover.Cover.own shapes.now) self.old }
        requires taking { IsTaking (grammar_of S.Shapes S.Cover.Cover.own shapes.now) self.old (tasks_of self.old.core) 1 }
        ensures goes_on { OnOk result (GoesOn (grammar_of S.Shapes S.Cover.Cover.own shapes.now) self.old self.new) }
        ensures passing { OnOk result (IsPassing (grammar_of S.Shapes S.Cover.Cover.own shapes.now) self.new) }
    {
        self.round(alloc, shapes, work)?;
        self.round(alloc, shapes, work)?;
        self.round(alloc, shapes, work)?;
        self.round(alloc, shapes, work)?;
        Ok(())
    }

    // Makes the mothers of this size and level.
    pub(crate) fn make_due(
        &mut self,
        alloc: Global,
        shapes: &S,
        work: &mut S::Work,
    ) -> Result<(), NoMemory>
        requires sure { IsSure (grammar_of S.Shapes S.Cover.Cover.own shapes.now) self.old }
        requires entering { IsEntering (grammar_of S.Shapes S.Cover.Cover.own shapes.now) self.old }
        ensures sure { OnOk result (IsSure (grammar_of S.Shapes S.Cover.Cover.own shapes.now) self.new) }
        ensures goes_on { OnOk result (GoesOn (grammar_of S.Shapes S.Cover.Cover.own shapes.now) self.old self.new) }
        ensures taking { OnOk result (IsTaking (grammar_of S.Shapes S.Cover.Cover.own shapes.now) self.new (tasks_of self.new.core) 1) }
    {
        while let Some(task) = self.notes.take(self.size, self.level) {
            self.core.make(alloc, shapes, work, TaskId(task))?;
        }
        Ok(())
    }
}
