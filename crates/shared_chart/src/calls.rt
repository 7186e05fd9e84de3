//! The calls that tell how the chart stands, in a state at least as late as any that the seat has seen. The seat has then
//! seen that state.
ghost use Rattle.std.specs.Prelude.{◌≡◌, ◌≤◌, ◌<◌, ℕ, Some, slice_get, IfOk, IfErr, OnOk};
ghost use Rattle.chart_core.specs.CoreView.{chart_of, history_of};
ghost use Rattle.chart_core.specs.Steps.{IsDoneAt};
ghost use Rattle.chart_core.specs.Grammar.{grammar_of};
ghost use Rattle.chart_core.specs.Kept.{IsCore, tasks_of, pending_of};
ghost use Rattle.chart_core.specs.Later.{IsLater, StaysRight};
ghost use Rattle.chart_core.specs.Calls.{Tells, IsInfo, ArePeers};
ghost use Rattle.shared_chart.specs.Told.{IsUnmade, IsUnready};

use crate::seat::ChartSeat;
use crate::shared::SharedChart;
use crate::unready::Unready;
use chart_core::{Core, Peers, Ready, TaskId, TaskInfo};
use chart_model::{NoMemory, Shapes};
use std::alloc::Global;
use std::sync::Wait;

// How a task stands, where it is made.
pub(crate) fn told<S: Shapes>(
    alloc: Global,
    core: &Core<S>,
    shapes: &S,
    task: TaskId,
) -> Result<Ready<S>, Unready>
    requires core { IsCore (grammar_of S.Shapes S.Cover.Cover.own shapes.now) core.now }
    ensures tells { IfOk result (λ r. (task.0 < tasks_of core.now) × Tells (grammar_of S.Shapes S.Cover.Cover.own shapes.now) core.now task.0 r) }
    ensures unready { IfErr result (IsUnready (grammar_of S.Shapes S.Cover.Cover.own shapes.now) core.now task.0) }
    ensures stays { IfOk result (λ r. (later : _)
        → IsCore (grammar_of S.Shapes S.Cover.Cover.own shapes.now) later
        → IsLater (grammar_of S.Shapes S.Cover.Cover.own shapes.now) core.now later
        → StaysRight (grammar_of S.Shapes S.Cover.Cover.own shapes.now) later task.0 r) }
    ensures entered { OnOk result ((place : ℕ) → (e : _) → slice_get (history_of (S.meaning shapes.now) core.now) place ≡ Some e → IsDoneAt (chart_of (S.meaning shapes.now) core.now) e.task place) }
{
    let tasks = core.tasks();
    if task.0 >= tasks {
        return Err(Unready::Unmade { tasks });
    }
    match core.ready(alloc, shapes, task) {
        Ok(ready) => Ok(ready),
        Err(_) => Err(Unready::NoMemory),
    }
}

// The rule of a task and the size and level of its host, where it is made.
fn informed<S: Shapes>(core: &Core<S>, task: TaskId) -> Result<TaskInfo, Unready>
    requires core { (s : S) × IsCore (grammar_of S.Shapes S.Cover.Cover.own s) core.now }
    ensures info { IfOk result (λ i. (task.0 < tasks_of core.now) × IsInfo S.Cover.extent core.now task.0 i) }
    ensures unready { IfErr result (IsUnmade core.now task.0) }
{
    let tasks = core.tasks();
    if task.0 >= tasks {
        return Err(Unready::Unmade { tasks });
    }
    Ok(core.task(task))
}

impl<S: Shapes> SharedChart<S> {
    ghost use Rattle.std.specs.Prelude.{◌≡◌, ◌<◌, ℕ, All, Some, slice_get, IfOk, IfErr, OnOk};
    ghost use Rattle.chart_core.specs.CoreView.{chart_of, history_of};
    ghost use Rattle.chart_core.specs.Steps.{IsDoneAt};
    ghost use Rattle.chart_core.specs.Grammar.{grammar_of};
    ghost use Rattle.chart_core.specs.Kept.{IsCore, tasks_of, pending_of, places_of};
    ghost use Rattle.chart_core.specs.Later.{IsLater, StaysRight};
    ghost use Rattle.chart_core.specs.Calls.{Tells, IsInfo, ArePeers};
    ghost use Rattle.shared_chart.specs.Seats.{shapes_of, state_of, seat_id, chart_id, Reads};
    ghost use Rattle.shared_chart.specs.Told.{Sees, IsUnmade, IsUnready};

    /// The number of tasks that are pending. Takes no memory.
    pub fn pending<R: Wait>(&self, rt: &R, seat: &mut ChartSeat<S>) -> u64
        requires seat { seat_id seat.old ≡ chart_id self.now }
        ensures seat { Reads seat.old seat.new }
        ensures sees { Sees (grammar_of S.Shapes S.Cover.Cover.own (shapes_of seat.old)) (state_of seat.old) (state_of seat.new) }
        ensures pending { result ≡ pending_of (state_of seat.new) }
    {
        let (_, chart) = self.lock.enter(rt, &mut seat.chair);
        let pending = chart.core.pending();
        self.lock.leave(&mut seat.chair, chart);
        pending
    }

    /// The rule of a task, and the size and level of its host; `Unmade` exactly where the task isn't made. Never `NoMemory`.
    pub fn task<R: Wait>(
        &self,
        rt: &R,
        seat: &mut ChartSeat<S>,
        task: TaskId,
    ) -> Result<TaskInfo, Unready>
        requires seat { seat_id seat.old ≡ chart_id self.now }
        ensures seat { Reads seat.old seat.new }
        ensures sees { Sees (grammar_of S.Shapes S.Cover.Cover.own (shapes_of seat.old)) (state_of seat.old) (state_of seat.new) }
        ensures info { IfOk result (λ i. (task.0 < tasks_of (state_of seat.new)) × IsInfo S.Cover.extent (state_of seat.new) task.0 i) }
        ensures unready { IfErr result (IsUnmade (state_of seat.new) task.0) }
    {
        let (_, chart) = self.lock.enter(rt, &mut seat.chair);
        let info = informed(&chart.core, task);
        self.lock.leave(&mut seat.chair, chart);
        info
    }

    /// How a task stands: what the core tells of it. `Unmade` comes exactly where the task isn't made, and `NoMemory` only where
    /// it is open. What is right for the task as it was told stays right in each later state, and a task that stands in the
    /// history is done, at that place.
    pub fn ready<R: Wait>(
        &self,
        rt: &R,
        alloc: Global,
        seat: &mut ChartSeat<S>,
        shapes: &S,
        task: TaskId,
    ) -> Result<Ready<S>, Unready>
        requires seat { seat_id seat.old ≡ chart_id self.now }
        requires shapes { shapes.now ≡ shapes_of seat.old }
        ensures seat { Reads seat.old seat.new }
        ensures sees { Sees (grammar_of S.Shapes S.Cover.Cover.own shapes.now) (state_of seat.old) (state_of seat.new) }
        ensures tells { IfOk result (λ r. (task.0 < tasks_of (state_of seat.new)) × Tells (grammar_of S.Shapes S.Cover.Cover.own shapes.now) (state_of seat.new) task.0 r) }
        ensures unready { IfErr result (IsUnready (grammar_of S.Shapes S.Cover.Cover.own shapes.now) (state_of seat.new) task.0) }
        ensures stays { IfOk result (λ r. (later : _)
            → IsCore (grammar_of S.Shapes S.Cover.Cover.own shapes.now) later
            → IsLater (grammar_of S.Shapes S.Cover.Cover.own shapes.now) (state_of seat.new) later
            → StaysRight (grammar_of S.Shapes S.Cover.Cover.own shapes.now) later task.0 r) }
        ensures entered { OnOk result ((place : ℕ) → (e : _) → slice_get (history_of (S.meaning shapes.now) (state_of seat.new)) place ≡ Some e → IsDoneAt (chart_of (S.meaning shapes.now) (state_of seat.new)) e.task place) }
    {
        let (_, chart) = self.lock.enter(rt, &mut seat.chair);
        let ready = told(alloc, &chart.core, shapes, task);
        self.lock.leave(&mut seat.chair, chart);
        ready
    }

    /// The live hosts of a cover and a level, in order of rows, and the length of the history.
    pub fn peers<R: Wait>(
        &self,
        rt: &R,
        alloc: Global,
        seat: &mut ChartSeat<S>,
        shapes: &S,
        cover: &S::Cover,
        level: u32,
    ) -> Result<Peers<S>, NoMemory>
        requires seat { seat_id seat.old ≡ chart_id self.now }
        requires shapes { shapes.now ≡ shapes_of seat.old }
        ensures seat { Reads seat.old seat.new }
        ensures sees { Sees (grammar_of S.Shapes S.Cover.Cover.own shapes.now) (state_of seat.old) (state_of seat.new) }
        ensures hosts { IfOk result (λ p. ArePeers (grammar_of S.Shapes S.Cover.Cover.own shapes.now) (state_of seat.new) cover.now level p.hosts.items) }
        ensures belongs { IfOk result (λ p. All (λ peer. S.belongs shapes.now peer.shape) p.hosts.items) }
        ensures seen { IfOk result (λ p. p.seen ≡ places_of (state_of seat.new)) }
    {
        let (_, chart) = self.lock.enter(rt, &mut seat.chair);
        let peers = chart.core.peers(alloc, shapes, cover, level);
        self.lock.leave(&mut seat.chair, chart);
        peers
    }
}
