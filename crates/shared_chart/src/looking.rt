//! All that a worker wants to know of a task before it finds the outcome, in one turn.
ghost use Rattle.std.specs.Prelude.{◌≡◌, ◌<◌, IfOk, IfErr, IfSome};
ghost use Rattle.chart_model.specs.Tuples.{IsFor};
ghost use Rattle.chart_core.specs.Grammar.{grammar_of};
ghost use Rattle.chart_core.specs.Kept.{IsCore, tasks_of};
ghost use Rattle.chart_core.specs.Calls.{Tells};
ghost use Rattle.shared_chart.specs.Told.{IsUnready};
ghost use Rattle.shared_chart.specs.Looks.{IsLook, IsCell, IsCellOf, IsLevelOver};

use crate::calls::told;
use crate::look::{Cell, Look};
use crate::seat::ChartSeat;
use crate::shared::SharedChart;
use crate::unready::Unready;
use chart_core::{Core, Ready, TaskId};
use chart_model::{Shapes, Tuple};
use std::alloc::Global;
use std::sync::Wait;

// The level of a task's mother over so many daughters.
fn level_over<S: Shapes>(core: &Core<S>, task: TaskId, daughters: u32) -> u32
    requires core { (s : S) × IsCore (grammar_of S.Shapes S.Cover.Cover.own s) core.now }
    requires made { task.0 < tasks_of core.now }
    ensures { IsLevelOver S.Cover.extent core.now task.0 daughters result }
{
    let info = core.task(task);
    if daughters == 1 {
        info.level.wrapping_add(1)
    } else {
        0
    }
}

// The cell of the mother of these daughters, where they are all there and have a cover.
fn cell_at<S: Shapes>(
    alloc: Global,
    core: &Core<S>,
    shapes: &S,
    task: TaskId,
    rule: u32,
    parts: &Tuple<S::Shape, S::Cover>,
) -> Option<Cell<S>>
    requires core { IsCore (grammar_of S.Shapes S.Cover.Cover.own shapes.now) core.now }
    requires made { task.0 < tasks_of core.now }
    requires parts { IsFor (S.calculus shapes.now) (S.belongs shapes.now) rule parts.now }
    ensures { IfSome result (IsCell (grammar_of S.Shapes S.Cover.Cover.own shapes.now) S.Cover.extent core.now task.0 rule parts.now) }
{
    if parts.count < shapes.arity(rule) {
        return None;
    }
    let Ok(Some(cover)) = shapes.covers(alloc, rule, parts) else {
        return None;
    };
    let level = level_over(core, task, parts.count);
    match core.peers(alloc, shapes, &cover, level) {
        Ok(peers) => Some(Cell {
            cover,
            level,
            peers,
        }),
        Err(_) => None,
    }
}

// The cell of the mother of a task that is ready.
fn cell_of<S: Shapes>(
    alloc: Global,
    core: &Core<S>,
    shapes: &S,
    task: TaskId,
    ready: &Ready<S>,
) -> Option<Cell<S>>
    requires core { IsCore (grammar_of S.Shapes S.Cover.Cover.own shapes.now) core.now }
    requires made { task.0 < tasks_of core.now }
    requires tells { Tells (grammar_of S.Shapes S.Cover.Cover.own shapes.now) core.now task.0 ready.now }
    ensures { IsCellOf (grammar_of S.Shapes S.Cover.Cover.own shapes.now) S.Cover.extent core.now task.0 ready.now result }
{
    match ready {
        Ready::Ready { rule, parts } => cell_at(alloc, core, shapes, task, *rule, parts),
        Ready::Skipped { row: _ } => None,
        Ready::Done { place: _ } => None,
    }
}

// How a task stands, and the cell of its mother.
fn looked<S: Shapes>(
    alloc: Global,
    core: &Core<S>,
    shapes: &S,
    task: TaskId,
) -> Result<Look<S>, Unready>
    requires core { IsCore (grammar_of S.Shapes S.Cover.Cover.own shapes.now) core.now }
    ensures look { IfOk result (IsLook (grammar_of S.Shapes S.Cover.Cover.own shapes.now) S.Cover.extent core.now task.0) }
    ensures unready { IfErr result (IsUnready (grammar_of S.Shapes S.Cover.Cover.own shapes.now) core.now task.0) }
{
    let ready = told(alloc, core, shapes, task)?;
    let cell = cell_of(alloc, core, shapes, task, &ready);
    Ok(Look { ready, cell })
}

impl<S: Shapes> SharedChart<S> {
    ghost use Rattle.std.specs.Prelude.{◌≡◌, IfOk, IfErr};
    ghost use Rattle.chart_core.specs.Grammar.{grammar_of};
    ghost use Rattle.shared_chart.specs.Seats.{shapes_of, state_of, seat_id, chart_id, Reads};
    ghost use Rattle.shared_chart.specs.Told.{Sees, IsUnready};
    ghost use Rattle.shared_chart.specs.Looks.{IsLook};

    /// How a task stands, as `ready` tells it, and where its daughters are all there the live hosts of their mother's cover and
    /// level, as `peers` tells them, in one turn. The errors are those of `ready`.
    pub fn look<R: Wait>(
        &self,
        rt: &R,
        alloc: Global,
        seat: &mut ChartSeat<S>,
        shapes: &S,
        task: TaskId,
    ) -> Result<Look<S>, Unready>
        requires seat { seat_id seat.old ≡ chart_id self.now }
        requires shapes { shapes.now ≡ shapes_of seat.old }
        ensures seat { Reads seat.old seat.new }
        ensures sees { Sees (grammar_of S.Shapes S.Cover.Cover.own shapes.now) (state_of seat.old) (state_of seat.new) }
        ensures look { IfOk result (IsLook (grammar_of S.Shapes S.Cover.Cover.own shapes.now) S.Cover.extent (state_of seat.new) task.0) }
        ensures unready { IfErr result (IsUnready (grammar_of S.Shapes S.Cover.Cover.own shapes.now) (state_of seat.new) task.0) }
    {
        let (_, chart) = self.lock.enter(rt, &mut seat.chair);
        let look = looked(alloc, &chart.core, shapes, task);
        self.lock.leave(&mut seat.chair, chart);
        look
    }
}
