//! What a seat knows.
use std::collections::LinkedList;

/// What a seat knows of an object `M` that began as `B` tells, and of its entries `E`. It stands in proofs alone: no value of
/// it is made.
pub struct View<B, M, E> {
    // how many seats it may still make, and the number of the next
    pub unmade: u64,
    pub next: u64,
    // the numbers that it stands for, each with its calls
    pub claims: LinkedList<(u64, LinkedList<E>)>,
    // how the object began; none in a seat that was joined to another
    pub base: Option<B>,
    // the latest state of the object that it has seen, and those that seats had seen that were joined to it
    pub seen: LinkedList<M>,
    // the turn that it has drawn, whether that turn is called, and whether it has the object
    pub turn: Option<u64>,
    pub called: bool,
    pub holds: bool,
    // whether the mark stands, while it has the object
    pub mark: u64,
    // whether it has seen the mark, and whether it has set it
    pub saw: bool,
    pub set: u64,
}
