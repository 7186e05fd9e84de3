//! The command `self-test`: the lines of a workload are parsed with the workload's grammar, and the answers summed up; the workload, and what is counted.
#![tactic(auto)]

mod command;
mod counter;
mod counting;
mod counts;
mod grammar;
pub mod laws;
mod lines;
mod summing;
mod sums;
mod testing;
mod turns;
mod workload;
pub mod workload_laws;

pub use command::SelfTest;
pub use counts::{Count, some_lacking, some_refused, summary};
pub use std::alloc::AllocError as NoMemory;
pub use workload::{WorkFile, Workload, make};
