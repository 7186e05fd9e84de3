//! The commands that answer each line of their input with a grammar: `parse`, `chart` and `explain`.
#![tactic(auto)]

mod answering;
mod charter;
mod charting;
mod explainer;
mod explaining;
mod lattices;
pub mod laws;
mod notes;
mod parsing;
mod trees;

pub use answering::Parser;
pub use charter::Charter;
pub use charting::{Chart, chart_lines};
pub use explainer::Explainer;
pub use explaining::{Explain, explain_lines};
pub use parsing::{Parse, parse_lines};
pub use std::alloc::AllocError as NoMemory;
