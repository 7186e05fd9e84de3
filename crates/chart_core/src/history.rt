//! What a core keeps of tasks and of its history.

use crate::{Caller, RowId};

/// A rule with a partial row, or none, and a host; done at a place of the history, or pending.
#[derive(Drop, Clone, Copy)]
pub struct TaskRow {
    pub rule: u32,
    pub partial: Option<RowId>,
    pub host: RowId,
    pub done: Option<u64>,
}

/// One entry of the history, with the row that it added, if any.
#[derive(Drop, Clone, Copy)]
pub struct Entry {
    pub task: u64,
    pub row: Option<RowId>,
    pub by: Caller,
}
