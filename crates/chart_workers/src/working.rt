//! What a worker does from its first task to its end.
ghost use Rattle.std.specs.Prelude.{◌≡◌, true, IfNone, IfOk, IfErr};
ghost use Rattle.chart_core.specs.Grammar.{grammar_of};
ghost use Rattle.chart_core.specs.Kept.{IsCore};
ghost use Rattle.shared_chart.specs.Seats.{shapes_of, state_of, seat_id, chart_id};
ghost use Rattle.chart_workers.specs.Turns.{GoesOn};
ghost use Rattle.chart_workers.specs.Endings.{is_over, EntersOn, TurnsTo, GivesUp, EndsAs};

use crate::over::{ChartOver, look};
use crate::posts::Post;
use crate::priority::Rank;
use crate::pushing::{push_all, ranked};
use crate::turns::turn;
use crate::{Ended, PoolSeat};
use chart_core::{Entered, TaskId, TaskInfo};
use chart_model::{NoMemory, Shapes};
use shared_chart::{ChartSeat, Informed, SharedChart, Tools, Unready};
use std::alloc::Global;
use std::sync::Wait;
use worker_gate::Gate;

/// What came of one task.
pub(crate) enum Turned {
    Goes,
    Over,
    Full { made: u64 },
    NoMemory,
}

// The next task: one that was kept, or else one of the pool; none where the work is over.
fn take<R: Wait, S: Shapes>(
    rt: &R,
    chart: &SharedChart<S>,
    seat: &mut ChartSeat<S>,
    pool: &mut PoolSeat,
    kept: &mut Vec<TaskId>,
) -> Option<TaskId>
    requires seat { seat_id seat.old ≡ chart_id chart.now }
    requires core { IsCore (grammar_of S.Shapes S.Cover.Cover.own (shapes_of seat.old)) (state_of seat.old) }
    ensures seat { GoesOn (grammar_of S.Shapes S.Cover.Cover.own (shapes_of seat.old)) seat.old seat.new }
    ensures over { IfNone result (is_over seat.new ≡ true) }
{
    if let Some(task) = kept.pop() {
        return Some(task);
    }
    let mut over = ChartOver::new(rt, chart, seat);
    pool.next(rt, &mut over)
}

// How a worker ends for whose seat the work is over.
fn last<R: Wait, S: Shapes>(rt: &R, chart: &SharedChart<S>, seat: &mut ChartSeat<S>) -> Ended
    requires seat { seat_id seat.old ≡ chart_id chart.now }
    requires core { IsCore (grammar_of S.Shapes S.Cover.Cover.own (shapes_of seat.old)) (state_of seat.old) }
    requires over { is_over seat.old ≡ true }
    ensures { EndsAs (grammar_of S.Shapes S.Cover.Cover.own (shapes_of seat.old)) seat.old result seat.new }
{
    if chart.pending(rt, seat) == 0 {
        Ended::AllDone
    } else {
        Ended::Stopped
    }
}

// A worker that has met want of memory stops all.
fn give_up<R: Wait, S: Shapes>(
    rt: &R,
    chart: &SharedChart<S>,
    seat: &mut ChartSeat<S>,
    ended: Ended,
) -> Ended
    requires seat { seat_id seat.old ≡ chart_id chart.now }
    requires core { IsCore (grammar_of S.Shapes S.Cover.Cover.own (shapes_of seat.old)) (state_of seat.old) }
    requires why { GivesUp (grammar_of S.Shapes S.Cover.Cover.own (shapes_of seat.old)) seat.old ended }
    ensures { EndsAs (grammar_of S.Shapes S.Cover.Cover.own (shapes_of seat.old)) seat.old result seat.new }
{
    chart.stop(rt, seat);
    ended
}

// One task, once it is made: its outcome is entered.
fn enter_one<R: Wait, S: Shapes>(
    rt: &R,
    alloc: Global,
    chart: &SharedChart<S>,
    seat: &mut ChartSeat<S>,
    shapes: &S,
    tools: &mut Tools<S::Work>,
    task: TaskId,
) -> Result<Informed, Turned>
    requires seat { seat_id seat.old ≡ chart_id chart.now }
    requires shapes { shapes.now ≡ shapes_of seat.old }
    requires core { IsCore (grammar_of S.Shapes S.Cover.Cover.own shapes.now) (state_of seat.old) }
    ensures seat { GoesOn (grammar_of S.Shapes S.Cover.Cover.own shapes.now) seat.old seat.new }
    ensures entered { IfOk result (λ informed. EntersOn (grammar_of S.Shapes S.Cover.Cover.own shapes.now) seat.new informed.entered) }
    ensures turned { IfErr result (TurnsTo (grammar_of S.Shapes S.Cover.Cover.own shapes.now) seat.new) }
{
    for _ in rt.forever() {
        match turn(rt, alloc, chart, seat, shapes, tools, task) {
            Ok(informed) => return Ok(informed),
            Err(Unready::NoMemory) => return Err(Turned::NoMemory),
            Err(Unready::Unmade { tasks: _ }) => {
                if look(rt, chart, seat) {
                    return Err(Turned::Over);
                }
            }
        }
    }
    unreachable!()
}

// Pushes the tasks from this one on that the list tells of, in the order of their ranks.
fn push_new<P: Rank>(
    alloc: Global,
    pool: &mut PoolSeat,
    kept: &mut Vec<TaskId>,
    priority: &P,
    infos: &Vec<TaskInfo>,
    first: TaskId,
) -> Result<(), NoMemory> {
    if infos.is_empty() {
        return Ok(());
    }
    let tasks = ranked(alloc, priority, infos, first.0)?;
    push_all(pool, kept, &tasks)
}

// One task, and the tasks that it makes are pushed.
fn one_task<R: Wait, S: Shapes, P: Rank>(
    rt: &R,
    alloc: Global,
    chart: &SharedChart<S>,
    post: &mut Post<S>,
    shapes: &S,
    priority: &P,
    task: TaskId,
) -> Turned
    requires seat { seat_id post.old.seat ≡ chart_id chart.now }
    requires shapes { shapes.now ≡ shapes_of post.old.seat }
    requires core { IsCore (grammar_of S.Shapes S.Cover.Cover.own shapes.now) (state_of post.old.seat) }
    ensures seat { GoesOn (grammar_of S.Shapes S.Cover.Cover.own shapes.now) post.old.seat post.new.seat }
    ensures turned { TurnsTo (grammar_of S.Shapes S.Cover.Cover.own shapes.now) post.new.seat result }
{
    match enter_one(
        rt,
        alloc,
        chart,
        &mut post.seat,
        shapes,
        &mut post.tools,
        task,
    ) {
        Err(turned) => turned,
        Ok(informed) => match informed.entered {
            Entered::Full { made } => Turned::Full { made },
            Entered::NoMemory => Turned::NoMemory,
            Entered::Placed { first_task, .. } => {
                if informed.told.is_err() {
                    return Turned::NoMemory;
                }
                match push_new(
                    alloc,
                    &mut post.pool,
                    &mut post.kept,
                    priority,
                    &post.tools.infos,
                    first_task,
                ) {
                    Ok(()) => Turned::Goes,
                    Err(_) => Turned::NoMemory,
                }
            }
            Entered::Stale { .. } | Entered::Skipped { .. } | Entered::Noted { .. } => Turned::Goes,
        },
    }
}

/// A worker at its post: it takes tasks and enters their outcomes until the work is over, room is wanting, or memory is.
///
/// It takes what it has kept first, and then asks its seat of the pool. It tells the gate of each task, asks how the task
/// stands, finds its outcome without the lock, enters it, and pushes the new tasks in the order of their ranks. A task that
/// isn't made yet is asked for again. It calls `stop` where it ends with `Full` or `NoMemory`, and nowhere else.
pub fn work<R: Wait, S: Shapes, P: Rank>(
    rt: &R,
    alloc: Global,
    chart: &SharedChart<S>,
    post: &mut Post<S>,
    shapes: &S,
    priority: &P,
    gate: &dyn Gate,
) -> Ended
    requires seat { seat_id post.old.seat ≡ chart_id chart.now }
    requires shapes { shapes.now ≡ shapes_of post.old.seat }
    requires core { IsCore (grammar_of S.Shapes S.Cover.Cover.own shapes.now) (state_of post.old.seat) }
    ensures { EndsAs (grammar_of S.Shapes S.Cover.Cover.own shapes.now) post.old.seat result post.new.seat }
{
    for _ in rt.forever() {
        let Some(task) = take(rt, chart, &mut post.seat, &mut post.pool, &mut post.kept) else {
            return last(rt, chart, &mut post.seat);
        };
        gate.at(post.number, task.0);
        match one_task(rt, alloc, chart, post, shapes, priority, task) {
            Turned::Goes => {}
            Turned::Over => return last(rt, chart, &mut post.seat),
            Turned::Full { made } => {
                return give_up(rt, chart, &mut post.seat, Ended::Full { made });
            }
            Turned::NoMemory => return give_up(rt, chart, &mut post.seat, Ended::NoMemory),
        }
    }
    unreachable!()
}
