//! Tasks are pushed in the order of their ranks.
ghost use Rattle.chart_core.specs.Grammar.{grammar_of};
ghost use Rattle.chart_core.specs.Kept.{IsCore};

use crate::PoolSeat;
use crate::priority::Rank;
use chart_core::{Core, TaskId, TaskInfo};
use chart_model::{NoMemory, Shapes};
use std::alloc::Global;

// The rank of a task, and its number.
fn rank_of<P: Rank>(priority: &P, info: TaskInfo, number: u64) -> (u32, u64) {
    (priority.rank(info.rule, info.size, info.level), number)
}

// The tasks of which these numbers tell, which follow one another from the first on: the least rank first, and equal ranks in
// order of number.
pub(crate) fn ranked<P: Rank>(
    alloc: Global,
    priority: &P,
    infos: &Vec<TaskInfo>,
    first: u64,
) -> Result<Vec<(u32, u64)>, NoMemory> {
    let mut found = Vec::with_capacity(alloc, infos.len())?;
    for (info, number) in infos.iter().zip(first..) {
        found.push(rank_of(priority, *info, number))?;
    }
    found.sort_unstable();
    Ok(found)
}

// The tasks of a core in the same order.
pub(crate) fn opening<S: Shapes, P: Rank>(
    alloc: Global,
    core: &Core<S>,
    priority: &P,
) -> Result<Vec<(u32, u64)>, NoMemory>
    requires { (s : S) × IsCore (grammar_of S.Shapes S.Cover.Cover.own s) core.now }
{
    let mut found = Vec::new(alloc);
    for number in 0..core.tasks() {
        found.push(rank_of(priority, core.task(TaskId(number)), number))?;
    }
    found.sort_unstable();
    Ok(found)
}

// Pushes these tasks in order. What is handed back is kept.
pub(crate) fn push_all(
    pool: &mut PoolSeat,
    kept: &mut Vec<TaskId>,
    tasks: &Vec<(u32, u64)>,
) -> Result<(), NoMemory> {
    for task in tasks {
        if let Err(back) = pool.push(TaskId(task.1)) {
            kept.push(back)?;
        }
    }
    Ok(())
}
