//! Spelling rules: the forms of a stem, and exactly the stems of a form (DELPH-IN TDL).
#![tactic(auto)]

mod bound;
mod copies;
mod groups;
pub mod laws;
mod letters;
mod regular;
mod rules;
mod spelling;
mod table;
mod under;
mod undo;

pub use bound::are_bound;
pub use rules::{Irregular, SpellGroup, SpellRule, SpellSign, Stem};
pub use spelling::Spelling;
pub use std::alloc::AllocError as NoMemory;
