//! The command `scope`: each line of its input writes an MRS, and is answered by the scoped readings of that MRS.
#![tactic(auto)]

mod answering;
pub mod laws;
mod reports;
mod serving;

pub use answering::Scoper;
pub use serving::scope_lines;
