//! What is written of a line of the input, and the words of a line.
#![tactic(auto)]

mod report;
mod sentence;

pub use report::{
    counts_line, lines_of_no_lattice, lines_of_no_mrs, lines_of_no_text, lines_of_refusal,
    lines_of_trees, tree_line,
};
pub use sentence::words_of_line;
pub use std::alloc::AllocError as NoMemory;
