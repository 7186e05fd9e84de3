//! What a seat of the draw knows.
use std::collections::LinkedList;

/// What a seat knows. It stands in proofs alone: no value of it is made.
pub struct Hand {
    /// How many places there are.
    pub count: u64,
    /// For how many workers the seat stands.
    pub hands: u64,
    /// The numbers that it drew, in order.
    pub drawn: LinkedList<u64>,
    /// How many of its workers drew a number that is no place.
    pub over: u64,
}

/// How many places there are, and how many workers.
#[derive(Drop)]
pub struct Key {
    pub count: u64,
    pub seats: u64,
}
