//! What a worker brings to a call that enters an outcome.
use chart_core::{Outcome, TaskId, TaskInfo, Tested};
use chart_model::Shapes;

/// What was found of a task outside the lock: its outcome, and verdicts on hosts.
#[derive(Drop)]
pub struct Finding<S: Shapes> {
    pub task: TaskId,
    pub outcome: Outcome<S>,
    pub tested: Tested,
}

/// What a worker works with, kept from one task to the next: the scratch of its shapes, and the list that tells of the tasks that its last
/// call made.
#[derive(Drop)]
pub struct Tools<W> {
    pub work: W,
    pub infos: Vec<TaskInfo>,
}
