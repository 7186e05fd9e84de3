//! What closed nodes show: whether their paths are bounded, how many there are, and the graph that is drawn from them.
#![tactic(auto)]

pub mod bounds;
pub mod draw;
pub mod few;
pub mod notes;

pub use std::alloc::AllocError as NoMemory;
