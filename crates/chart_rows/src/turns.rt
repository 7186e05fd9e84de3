//! What a seat of a shared chart does with one task.

ghost use Rattle.std.specs.Prelude.{◌≡◌, ℕ, IfOk};
ghost use Rattle.chart_core.specs.Grammar.{grammar_of};
ghost use Rattle.shared_chart.specs.Seats.{shapes_of, state_of, seat_id, chart_id, SameSeat};
ghost use Rattle.shared_chart.specs.Told.{AreRightSince};
ghost use Rattle.chart_rows.specs.Sitting.{IsFound};

use chart_core::{Entered, Outcome, Ready, TaskId, Tested, outcome_of};
use chart_model::Shapes;
use shared_chart::{ChartSeat, Finding, SharedChart, Tools, Unready};
use std::alloc::Global;
use std::sync::Wait;

// The outcome of a task.
fn find<R: Wait, S: Shapes>(
    rt: &R,
    alloc: Global,
    chart: &SharedChart<S>,
    seat: &mut ChartSeat<S>,
    shapes: &S,
    work: &mut S::Work,
    task: TaskId,
) -> Result<Outcome<S>, Unready>
    requires seat { seat_id seat.old ≡ chart_id chart.now }
    requires shapes { shapes.now ≡ shapes_of seat.old }
    ensures seat { SameSeat seat.old seat.new }
    ensures found { IfOk result (λ o. IsFound (grammar_of S.Shapes S.Cover.Cover.own shapes.now) seat.new task.0 o) }
{
    match chart.ready(rt, alloc, seat, shapes, task)? {
        Ready::Done { place: _ } => Ok(Outcome::Fails),
        Ready::Skipped { row: _ } => Ok(Outcome::Fails),
        Ready::Ready { rule, parts } => Ok(outcome_of(alloc, shapes, work, rule, &parts)?),
    }
}

// How the live hosts of an outcome's cover and of level 0 stand to it. What was found of a task stays so.
fn verdicts<R: Wait, S: Shapes>(
    rt: &R,
    alloc: Global,
    chart: &SharedChart<S>,
    seat: &mut ChartSeat<S>,
    shapes: &S,
    work: &mut S::Work,
    outcome: &Outcome<S>,
) -> Result<Tested, Unready>
    requires seat { seat_id seat.old ≡ chart_id chart.now }
    requires shapes { shapes.now ≡ shapes_of seat.old }
    requires found { (t : ℕ) × IsFound (grammar_of S.Shapes S.Cover.Cover.own shapes.now) seat.old t outcome.now }
    ensures seat { SameSeat seat.old seat.new }
    ensures found { IfOk result (λ _. (t : ℕ) → IsFound (grammar_of S.Shapes S.Cover.Cover.own shapes.now) seat.old t outcome.now → IsFound (grammar_of S.Shapes S.Cover.Cover.own shapes.now) seat.new t outcome.now) }
    ensures right { IfOk result (λ t. AreRightSince (grammar_of S.Shapes S.Cover.Cover.own shapes.now) (state_of seat.new) outcome.now t.verdicts.items) }
{
    let Outcome::Whole { cover, .. } = outcome else {
        return Ok(Tested {
            verdicts: Vec::new(alloc),
        });
    };
    let peers = chart.peers(rt, alloc, seat, shapes, cover, 0)?;
    Ok(peers.test(alloc, shapes, work, outcome)?)
}

/// Works out a task and enters its outcome.
pub fn advance<R: Wait, S: Shapes>(
    rt: &R,
    alloc: Global,
    chart: &SharedChart<S>,
    seat: &mut ChartSeat<S>,
    shapes: &S,
    tools: &mut Tools<S::Work>,
    task: TaskId,
) -> Result<Entered, Unready>
    requires seat { seat_id seat.old ≡ chart_id chart.now }
    requires shapes { shapes.now ≡ shapes_of seat.old }
    ensures { SameSeat seat.old seat.new }
{
    let outcome = find(rt, alloc, chart, seat, shapes, &mut tools.work, task)?;
    let tested = Tested {
        verdicts: Vec::new(alloc),
    };
    let found = Finding {
        task,
        outcome,
        tested,
    };
    let informed = chart.enter(rt, alloc, seat, shapes, tools, found);
    Ok(informed.entered)
}

/// A chart with its shapes, as two seats work on it.
#[derive_where(Clone, Copy)]
pub struct Shared<'c, S: Shapes> {
    pub chart: &'c SharedChart<S>,
    pub shapes: &'c S,
}

/// The two seats of a chart.
#[derive(Drop)]
pub struct TwoSeats<S: Shapes> {
    pub first: ChartSeat<S>,
    pub second: ChartSeat<S>,
}

/// Works out and enters a task by the first seat, with verdicts that were found before the second seat entered another task.
pub fn advance_after<R: Wait, S: Shapes>(
    rt: &R,
    alloc: Global,
    on: &Shared<S>,
    seats: &mut TwoSeats<S>,
    tools: &mut Tools<S::Work>,
    other: TaskId,
    task: TaskId,
) -> Result<Entered, Unready>
    requires first { seat_id seats.old.first ≡ chart_id on.now.chart.now }
    requires second { seat_id seats.old.second ≡ chart_id on.now.chart.now }
    requires shapes { (on.now.shapes.now ≡ shapes_of seats.old.first) × (on.now.shapes.now ≡ shapes_of seats.old.second) }
    ensures first { SameSeat seats.old.first seats.new.first }
    ensures second { SameSeat seats.old.second seats.new.second }
{
    let chart = on.chart;
    let shapes = on.shapes;
    let outcome = find(
        rt,
        alloc,
        chart,
        &mut seats.first,
        shapes,
        &mut tools.work,
        task,
    )?;
    let tested = verdicts(
        rt,
        alloc,
        chart,
        &mut seats.first,
        shapes,
        &mut tools.work,
        &outcome,
    )?;
    advance(rt, alloc, chart, &mut seats.second, shapes, tools, other)?;
    let found = Finding {
        task,
        outcome,
        tested,
    };
    let informed = chart.enter(rt, alloc, &mut seats.first, shapes, tools, found);
    Ok(informed.entered)
}
