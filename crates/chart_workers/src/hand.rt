//! What a pass of a deque knows.
use chart_core::TaskId;
use std::collections::LinkedList;

/// What a pass has pushed on a deque and taken from it, and its parts of the right to know the whole. It stands in proofs
/// alone: no value of it is made.
pub struct Hand {
    pub parts: u64,
    pub put: LinkedList<TaskId>,
    pub taken: LinkedList<TaskId>,
}
