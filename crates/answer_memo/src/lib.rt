//! Answers that an object gave, kept beside it for those who ask the same again.
#![tactic(auto)]

mod answer;
mod asked;
mod levels;
mod memo;
mod store;

pub use asked::Asked;
pub use memo::Memo;
pub use std::alloc::AllocError as NoMemory;
