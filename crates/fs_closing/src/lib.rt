//! The closing of tables of nodes, by the types of a grammar (Copestake 2002: well-formed typed feature structures).
#![tactic(auto)]

pub mod cells;
pub mod closing;
pub mod constraint;
pub mod facts;
pub mod grafts;
pub mod index;
pub mod marks;
pub mod nodes;
pub mod outline;
pub mod parts;
pub mod rule_rows;
pub mod steps;
pub mod system;
pub mod tasks;
mod told;

pub use constraint::{Constraint, SharedGraph};
pub use facts::TypeFacts;
pub use std::alloc::AllocError as NoMemory;
pub use system::TypeSystem;
