//! The facts of the types that a grammar's statements define (DELPH-IN TDL; Copestake 2002).
#![tactic(auto)]

mod notes;
mod rules;

pub use notes::{note, noted};
pub use rules::{add_facts, rules_in};
pub use std::alloc::AllocError as OutOfMemory;
