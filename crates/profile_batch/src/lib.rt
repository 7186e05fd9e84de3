//! The command `batch`: the items of a profile are compared with what a grammar gives for them.
#![tactic(auto)]

mod batching;
mod command;
mod judging;
pub mod laws;
mod turns;

pub use batching::batch;
pub use command::Batch;
pub use profile_reports::{Expected, Got, ItemResult, ProfileItem, profile};
pub use std::alloc::AllocError as NoMemory;
