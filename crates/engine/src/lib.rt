//! A grammar made ready once, and lent to whoever answers lines with it.
#![tactic(auto)]

mod checks;
mod compared;
pub mod desks;
mod lattices;
mod lent;
mod making;
mod rules;

pub use lattices::lattice_of_words;
pub use lent::Engine;
pub use making::{Use, with_engine};
pub use std::alloc::AllocError as NoMemory;
