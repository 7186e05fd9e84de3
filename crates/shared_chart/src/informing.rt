//! What there is to know of tasks that were made together.
ghost use Rattle.std.specs.Prelude.{◌≡◌, ◌≤◌, ◌++◌, ◌∷◌, [], IfOk, IfErr, OnOk};
ghost use Rattle.chart_core.specs.Grammar.{grammar_of};
ghost use Rattle.chart_core.specs.Kept.{IsCore, tasks_of};
ghost use Rattle.shared_chart.specs.Infos.{AreInfos, AreNewInfos, AreMade, AreUnready};

use crate::seat::ChartSeat;
use crate::shared::SharedChart;
use crate::unready::Unready;
use chart_core::{Core, Entered, TaskId, TaskInfo};
use chart_model::{NoMemory, Shapes};
use std::alloc::Global;
use std::sync::Wait;

fn add(infos: &mut Vec<TaskInfo>, info: TaskInfo) -> Result<(), NoMemory>
    ensures { OnOk result (infos.new.items ≡ infos.old.items ++ info ∷ []) }
{
    infos.push(info)?;
    Ok(())
}

// Writes what there is to know of each task from one to before another, all of which are made, into a list that is empty yet.
fn inform_each<S: Shapes>(
    core: &Core<S>,
    first: TaskId,
    end: TaskId,
    infos: &mut Vec<TaskInfo>,
) -> Result<(), NoMemory>
    requires core { (s : S) × IsCore (grammar_of S.Shapes S.Cover.Cover.own s) core.now }
    requires made { end.0 ≤ tasks_of core.now }
    requires empty { infos.old.items ≡ [] }
    ensures { OnOk result (AreInfos S.Cover.extent core.now first.0 end.0 infos.new.items) }
{
    for number in first.0..end.0 {
        add(infos, core.task(TaskId(number)))?;
    }
    Ok(())
}

// Writes what there is to know of the tasks that entering an outcome has made, in the place of what the list has.
pub(crate) fn inform_new<S: Shapes>(
    core: &Core<S>,
    entered: Entered,
    infos: &mut Vec<TaskInfo>,
) -> Result<(), NoMemory>
    requires core { (s : S) × IsCore (grammar_of S.Shapes S.Cover.Cover.own s) core.now }
    requires made { AreMade core.now entered }
    ensures { OnOk result (AreNewInfos S.Cover.extent core.now entered infos.new.items) }
{
    infos.clear();
    match entered {
        Entered::Placed {
            first_task,
            end_task,
            ..
        } => inform_each(core, first_task, end_task, infos),
        Entered::Stale { .. }
        | Entered::Skipped { .. }
        | Entered::Noted { .. }
        | Entered::Full { .. }
        | Entered::NoMemory => Ok(()),
    }
}

// What there is to know of each task from one to before another, where all are made, in a list that is empty yet.
fn inform_all<S: Shapes>(
    core: &Core<S>,
    first: TaskId,
    end: TaskId,
    mut infos: Vec<TaskInfo>,
) -> Result<Vec<TaskInfo>, Unready>
    requires core { (s : S) × IsCore (grammar_of S.Shapes S.Cover.Cover.own s) core.now }
    requires empty { infos.items ≡ [] }
    ensures infos { IfOk result (λ v. AreInfos S.Cover.extent core.now first.0 end.0 v.items) }
    ensures unready { IfErr result (AreUnready core.now end.0) }
{
    let tasks = core.tasks();
    if end.0 > tasks {
        return Err(Unready::Unmade { tasks });
    }
    inform_each(core, first, end, &mut infos)?;
    Ok(infos)
}

impl<S: Shapes> SharedChart<S> {
    ghost use Rattle.std.specs.Prelude.{◌≡◌, IfOk, IfErr};
    ghost use Rattle.chart_core.specs.Grammar.{grammar_of};
    ghost use Rattle.shared_chart.specs.Seats.{shapes_of, state_of, seat_id, chart_id, Reads};
    ghost use Rattle.shared_chart.specs.Told.{Sees};
    ghost use Rattle.shared_chart.specs.Infos.{AreInfos, AreUnready};

    /// The rules of the tasks from one to before another, and the sizes and levels of their hosts, in order, in one turn.
    /// `Unmade` comes exactly where not all of them are made.
    pub fn infos<R: Wait>(
        &self,
        rt: &R,
        alloc: Global,
        seat: &mut ChartSeat<S>,
        first: TaskId,
        end: TaskId,
    ) -> Result<Vec<TaskInfo>, Unready>
        requires seat { seat_id seat.old ≡ chart_id self.now }
        ensures seat { Reads seat.old seat.new }
        ensures sees { Sees (grammar_of S.Shapes S.Cover.Cover.own (shapes_of seat.old)) (state_of seat.old) (state_of seat.new) }
        ensures infos { IfOk result (λ v. AreInfos S.Cover.extent (state_of seat.new) first.0 end.0 v.items) }
        ensures unready { IfErr result (AreUnready (state_of seat.new) end.0) }
    {
        let mut infos = Vec::new(alloc);
        // (where this is refused, the room is asked for again as the list grows)
        let _ = infos.reserve(end.0.saturating_sub(first.0) as usize);
        let (_, chart) = self.lock.enter(rt, &mut seat.chair);
        let told = inform_all(&chart.core, first, end, infos);
        self.lock.leave(&mut seat.chair, chart);
        told
    }
}
