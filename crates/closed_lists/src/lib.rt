//! Closed lists in feature structures, and the words of their strings.
#![tactic(auto)]

mod lists;
mod names;
mod words;

pub use lists::list_at;
pub use names::ListNames;
pub use std::alloc::AllocError as NoMemory;
pub use words::words_at;
