//! The shapes of a grammar's instances: the daughters of its rules, and the words of its entries (DELPH-IN TDL).
#![tactic(auto)]

mod daughters;
mod entries;
pub mod laws;
mod paths;
mod rules;

pub use daughters::has_daughters;
pub use entries::{Entries, entries_of};
pub use paths::features;
pub use rules::{first_without_daughters, list_names};
pub use std::alloc::AllocError as NoMemory;
