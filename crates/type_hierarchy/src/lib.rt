//! Type hierarchies: what is written, and the completed types with their meets.
#![tactic(auto)]

pub mod bits;
mod columns;
mod components;
mod decl;
mod faults;
mod hierarchy;
mod marks;
mod names;
mod order;
mod parents;
mod places;
mod rows;
mod supertypes;
mod types;

pub use decl::{Decl, TypeFault};
pub use faults::is_glb_name;
pub use hierarchy::{Hierarchy, MOST_TYPES};
pub use std::alloc::AllocError as NoMemory;
pub use types::{Ty, TypeCounts, Types};
