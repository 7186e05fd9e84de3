//! The commands that answer from a grammar's files alone: `types`, `expand` and `check`.
#![tactic(auto)]

ghost use Rattle.std.specs.Prelude.{◌≡◌, ◌↔◌};

pub mod commands;
pub mod counting;
pub mod expansion;
pub mod laws;
pub mod types;

pub use commands::{Check, Expand, Types};
pub use std::alloc::AllocError as NoMemory;
