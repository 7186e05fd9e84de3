//! What entering an outcome did, with what there is to know of its tasks.
use chart_core::Entered;
use chart_model::NoMemory;

/// What entering an outcome did, and whether the list of the tools tells of all the tasks that it made.
#[derive(Drop)]
pub struct Informed {
    pub entered: Entered,
    pub told: Result<(), NoMemory>,
}
