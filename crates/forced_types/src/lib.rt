//! Why parts don't go together: the first path at which they force two types without a common subtype, or a path that is too long.
//!
//! Unification of typed feature structures, and well-formed ones: Copestake 2002.
#![tactic(auto)]

mod closed;
mod closed_types;
mod counting;
mod facts;
mod given;
mod laws;
mod loading;
mod merging;
mod nodes;
mod placed;
mod putting;
mod rounds;
mod search;
mod steps;
mod told;
mod verdict;

pub use laws::forced_laws;
pub use placed::{PlacedGraph, Verdict};
pub use std::alloc::AllocError as NoMemory;
pub use verdict::{verdict_on, verdict_on_facts};
