//! The command `transfer`: each line of its input writes an MRS, and is answered by what the rules of a file make of that MRS.
#![tactic(auto)]

mod answering;
pub mod laws;
mod loading;
mod reports;
mod serving;
mod skipping;

pub use serving::{Transfer, transfer_lines};
