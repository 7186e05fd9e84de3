//! One task of a worker.
ghost use Rattle.std.specs.Prelude.{◌≡◌, ℕ, All, IfOk, IfSome};
ghost use Rattle.chart_core.specs.Grammar.{grammar_of};
ghost use Rattle.chart_core.specs.Kept.{IsCore};
ghost use Rattle.chart_core.specs.Calls.{Tells, ArePeers, IsRightIn};
ghost use Rattle.chart_core.specs.Later.{StaysRight};
ghost use Rattle.chart_core.specs.Outcomes.{ShapeBelongs};
ghost use Rattle.shared_chart.specs.Seats.{shapes_of, seat_id, chart_id};
ghost use Rattle.shared_chart.specs.Told.{AreRightSince};
ghost use Rattle.chart_workers.specs.Turns.{GoesOn};
ghost use Rattle.chart_workers.specs.Endings.{EntersOn};

use chart_core::{Outcome, Ready, TaskId, Tested, outcome_of};
use chart_model::{NoMemory, Shapes};
use shared_chart::{Cell, ChartSeat, Finding, Informed, SharedChart, Tools, Unready};
use std::alloc::Global;
use std::sync::Wait;

// The outcome of a task that stands so, which is found outside the lock.
fn find<S: Shapes>(
    alloc: Global,
    shapes: &S,
    work: &mut S::Work,
    ready: &Ready<S>,
) -> Result<Outcome<S>, NoMemory>
    requires { (core : _) × (t : ℕ) × Tells (grammar_of S.Shapes S.Cover.Cover.own shapes.now) core t ready.now }
    ensures right { IfOk result (λ o. (core : _) → (t : ℕ) → StaysRight (grammar_of S.Shapes S.Cover.Cover.own shapes.now) core t ready.now → IsRightIn (grammar_of S.Shapes S.Cover.Cover.own shapes.now) core t o) }
    ensures belongs { IfOk result (ShapeBelongs (S.belongs shapes.now)) }
{
    match ready {
        Ready::Done { place: _ } => Ok(Outcome::Fails),
        Ready::Skipped { row: _ } => Ok(Outcome::Fails),
        Ready::Ready { rule, parts } => {
            let outcome = outcome_of(alloc, shapes, work, *rule, parts)?;
            Ok(outcome)
        }
    }
}

// How the live hosts of a cell stand to an outcome, tested outside the lock.
fn verdicts<S: Shapes>(
    alloc: Global,
    shapes: &S,
    work: &mut S::Work,
    cell: &Option<Cell<S>>,
    outcome: &Outcome<S>,
) -> Result<Tested, NoMemory>
    requires hosts { IfSome cell.now (λ c. All (λ peer. S.belongs shapes.now peer.shape) c.peers.hosts.items) }
    requires outcome { ShapeBelongs (S.belongs shapes.now) outcome.now }
    ensures { IfOk result (λ tested. (state : _)
        → IsCore (grammar_of S.Shapes S.Cover.Cover.own shapes.now) state
        → IfSome cell.now (λ c. ArePeers (grammar_of S.Shapes S.Cover.Cover.own shapes.now) state c.cover c.level c.peers.hosts.items)
        → AreRightSince (grammar_of S.Shapes S.Cover.Cover.own shapes.now) state outcome.now tested.verdicts.items) }
{
    match cell {
        None => Ok(Tested {
            verdicts: Vec::new(alloc),
        }),
        Some(cell) => {
            let tested = cell.peers.test(alloc, shapes, work, outcome)?;
            Ok(tested)
        }
    }
}

/// One task, from what the chart tells of it to what is entered, in two turns. Its structures are unified and compared outside
/// the lock. What there is to know of the tasks that it makes is written into the tools' list.
pub(crate) fn turn<R: Wait, S: Shapes>(
    rt: &R,
    alloc: Global,
    chart: &SharedChart<S>,
    seat: &mut ChartSeat<S>,
    shapes: &S,
    tools: &mut Tools<S::Work>,
    task: TaskId,
) -> Result<Informed, Unready>
    requires seat { seat_id seat.old ≡ chart_id chart.now }
    requires shapes { shapes.now ≡ shapes_of seat.old }
    ensures seat { GoesOn (grammar_of S.Shapes S.Cover.Cover.own shapes.now) seat.old seat.new }
    ensures full { IfOk result (λ informed. EntersOn (grammar_of S.Shapes S.Cover.Cover.own shapes.now) seat.new informed.entered) }
{
    let look = chart.look(rt, alloc, seat, shapes, task)?;
    let outcome = find(alloc, shapes, &mut tools.work, &look.ready)?;
    let tested = verdicts(alloc, shapes, &mut tools.work, &look.cell, &outcome)?;
    let found = Finding {
        task,
        outcome,
        tested,
    };
    Ok(chart.enter(rt, alloc, seat, shapes, tools, found))
}
