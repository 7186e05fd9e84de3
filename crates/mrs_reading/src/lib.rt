//! SimpleMRS read: texts as MRSs.
#![tactic(auto)]

mod building;
mod constraints;
mod eps;
mod laws;
mod lines;
mod ordered;
mod table;
mod texts;

pub use laws::{all_valid, no_fault, one_meaning, one_place};
pub use lines::{MrsFault, read};
pub use texts::normalized;
