//! The types of a grammar, from what its files say, completed by the meets that they lack (`glb_completion`).
#![tactic(auto)]

mod declarations;
pub mod laws;
mod settle;
mod strings;

pub use settle::{file_name, settle_types};
