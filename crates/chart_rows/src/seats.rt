//! A chart of two seats, whose calls are made one by one.

ghost use Rattle.std.specs.Prelude.{◌≡◌, [], All, IfOk};
ghost use Rattle.chart_core.specs.Grammar.{grammar_of};
ghost use Rattle.chart_core.specs.Kept.{IsCore};
ghost use Rattle.chart_core.specs.Leaves.{LeafBelongs};
ghost use Rattle.chart_core.specs.CoreView.{history_of};
ghost use Rattle.shared_chart.specs.Seats.{shapes_of, seat_id, chart_id, SameSeat};
ghost use Rattle.chart_rows.specs.Sitting.{Sits};

use crate::grammars::limits;
use crate::steps::{front, long_number};
use crate::told::{push_number, push_rows, push_told, push_unready};
use crate::turns::{Shared, TwoSeats, advance, advance_after};
use chart_core::{Core, Leaf, Ready, TaskId};
use chart_model::{NoMemory, Shapes};
use shared_chart::{ChartSeat, SharedChart, Tools, Unready};
use std::alloc::Global;
use std::sync::Wait;

/// What the calls of a chart over these leaves answer, and then its rows.
pub fn chart<R: Wait, S: Shapes>(
    rt: &R,
    alloc: Global,
    shapes: &S,
    leaves: Vec<Leaf<S>>,
    steps: &str,
    out: &mut String,
) -> Result<(), NoMemory>
    requires { All (LeafBelongs (S.calculus shapes.now) (S.belongs shapes.now)) leaves.items }
{
    let work = shapes.work(alloc)?;
    let infos = Vec::new(alloc);
    let mut tools = Tools { work, infos };
    let core = Core::start(alloc, leaves, shapes, &mut tools.work, &limits(5_000))?;
    let core = shared(rt, alloc, core, shapes, &mut tools, steps, out)?;
    end(core, alloc, shapes, out)
}

// Lets two seats work on a core.
fn shared<R: Wait, S: Shapes>(
    rt: &R,
    alloc: Global,
    core: Core<S>,
    shapes: &S,
    tools: &mut Tools<S::Work>,
    steps: &str,
    out: &mut String,
) -> Result<Core<S>, NoMemory>
    requires core { IsCore (grammar_of S.Shapes S.Cover.Cover.own shapes.now) core }
    requires fresh { history_of (S.meaning shapes.now) core ≡ [] }
    ensures { IfOk result (IsCore (grammar_of S.Shapes S.Cover.Cover.own shapes.now)) }
{
    let (chart, mut seats) = SharedChart::open(alloc, core, shapes, 2)?;
    let Some(second) = seats.pop() else {
        unreachable!()
    };
    let Some(first) = seats.pop() else {
        unreachable!()
    };
    let mut both = TwoSeats { first, second };
    let on = Shared {
        chart: &chart,
        shapes,
    };
    for step in steps.split(' ') {
        call(rt, alloc, &on, &mut both, tools, step, out)?;
        out.push_str(", ")?;
    }
    seats.push(both.first)?;
    seats.push(both.second)?;
    Ok(chart.close(seats))
}

// `first:TASK` and `second:TASK` let a seat work out and enter a task, `after:OTHER:TASK` lets the first seat enter a task
// after the second one has entered another, with verdicts that were found before. `rest` enters all tasks in order.
// `ready:TASK` tells of one.
fn call<R: Wait, S: Shapes>(
    rt: &R,
    alloc: Global,
    on: &Shared<S>,
    seats: &mut TwoSeats<S>,
    tools: &mut Tools<S::Work>,
    step: &str,
    out: &mut String,
) -> Result<(), NoMemory>
    requires first { Sits on.now.chart.now on.now.shapes.now 0 seats.old.first }
    requires second { Sits on.now.chart.now on.now.shapes.now 1 seats.old.second }
    ensures first { SameSeat seats.old.first seats.new.first }
    ensures second { SameSeat seats.old.second seats.new.second }
{
    let (word, rest) = front(step, ':');
    let (other, last) = front(rest, ':');
    let task = TaskId(long_number(other));
    let last = TaskId(long_number(last));
    let chart = on.chart;
    let shapes = on.shapes;
    match word {
        "first" => {
            let told = advance(rt, alloc, chart, &mut seats.first, shapes, tools, task);
            push_told(alloc, out, told)
        }
        "second" => {
            let told = advance(rt, alloc, chart, &mut seats.second, shapes, tools, task);
            push_told(alloc, out, told)
        }
        "after" => {
            let told = advance_after(rt, alloc, on, seats, tools, task, last);
            push_told(alloc, out, told)
        }
        "rest" => saturate(rt, alloc, chart, &mut seats.first, shapes, tools),
        _ => ready(rt, alloc, chart, &mut seats.first, shapes, task, out),
    }
}

// Works out and enters the first tasks, in order, as they are made.
fn saturate<R: Wait, S: Shapes>(
    rt: &R,
    alloc: Global,
    chart: &SharedChart<S>,
    seat: &mut ChartSeat<S>,
    shapes: &S,
    tools: &mut Tools<S::Work>,
) -> Result<(), NoMemory>
    requires seat { seat_id seat.old ≡ chart_id chart.now }
    requires shapes { shapes.now ≡ shapes_of seat.old }
    ensures { SameSeat seat.old seat.new }
{
    for number in 0..100 {
        if let Err(Unready::NoMemory) = advance(
            rt,
            alloc,
            chart,
            seat,
            shapes,
            tools,
            TaskId(number),
        ) {
            return Err(NoMemory);
        }
    }
    Ok(())
}

// How a task stands.
fn ready<R: Wait, S: Shapes>(
    rt: &R,
    alloc: Global,
    chart: &SharedChart<S>,
    seat: &mut ChartSeat<S>,
    shapes: &S,
    task: TaskId,
    out: &mut String,
) -> Result<(), NoMemory>
    requires seat { seat_id seat.old ≡ chart_id chart.now }
    requires shapes { shapes.now ≡ shapes_of seat.old }
    ensures { SameSeat seat.old seat.new }
{
    match chart.ready(rt, alloc, seat, shapes, task) {
        Ok(Ready::Done { place }) => push_number(alloc, out, "done ", place),
        Ok(Ready::Skipped { row }) => push_number(alloc, out, "skipped ", row.0),
        Ok(Ready::Ready { rule, parts: _ }) => push_number(alloc, out, "rule ", u64::from(rule)),
        Err(unready) => push_unready(alloc, out, unready),
    }
}

// Finishes the chart.
fn end<S: Shapes>(
    core: Core<S>,
    alloc: Global,
    shapes: &S,
    out: &mut String,
) -> Result<(), NoMemory>
    requires { IsCore (grammar_of S.Shapes S.Cover.Cover.own shapes.now) core }
{
    let _ = shapes;
    match core.finish() {
        Ok(finished) => push_rows(alloc, &finished, out),
        Err(_) => Ok(out.push_str("a task is pending")?),
    }
}
