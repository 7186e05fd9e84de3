//! Constraints of types and structures of instances, from the statements of a grammar (Copestake 2002; DELPH-IN TDL).
#![tactic(auto)]

mod books;
mod definitions;
mod expansion;
mod features;
mod introducers;
mod kinds;
mod missing;
mod numbers;
mod splits;
mod structures;
mod unknown;
mod writers;

pub use body_facts::Names;
pub use books::{Book, BookNames, Instance};
pub use definitions::{Typed, definition_claims, type_system};
pub use expansion::expand;
pub use grammar_files::{ExpandFault, Placed};
pub use std::alloc::AllocError as OutOfMemory;
