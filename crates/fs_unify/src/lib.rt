//! Unification of typed feature structures (Copestake 2002).
#![tactic(auto)]

pub mod debts;
pub mod entering;
pub mod limited;
pub mod owed;
pub mod parts;
pub mod scratch;
pub mod structure;
pub mod unifier;

pub use fs_closing::{Constraint, SharedGraph, TypeFacts, TypeSystem};
pub use limited::structure_within;
pub use owed::Owed;
pub use parts::Parts;
pub use scratch::Scratch;
pub use std::alloc::AllocError as NoMemory;
pub use structure::structure_of;
pub use unifier::{unifies, unify, unify_cut};
