//! A grammar's book as its trees see it: entries, rules with the places of their daughters, and roots (Copestake 2002; DELPH-IN
//! TDL).
#![tactic(auto)]

mod kinds;
mod known;
pub mod laws;
mod placing;
mod signs;

pub use fs_trim::Cut;
pub use signs::SignBook;
pub use std::alloc::AllocError as NoMemory;
