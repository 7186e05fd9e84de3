//! Kept filters: sketches of structures, sieves that tell from two sketches that no structures unify, priorities and guards.
//!
//! The quick check of types at paths before unification: Malouf, Carroll and Copestake 2000.
#![tactic(auto)]

mod guards;
mod paths;
mod priorities;
mod quick;
mod sieves;
mod sketches;

pub use guards::{Decision, Guard};
pub use paths::SketchPaths;
pub use priorities::{Priority, Ranking};
pub use quick::{TypesMeet, types_meet};
pub use sieves::{Filter, Sieve};
pub use sketches::{Sketch, SketchLine};
pub use std::alloc::AllocError as NoMemory;
