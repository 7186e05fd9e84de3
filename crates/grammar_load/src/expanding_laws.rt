//! Laws of what the files of a grammar say, and of what comes of that.

pub use grammar_files::laws::{each_walk, one_walk, walk_without_faults};
pub use grammar_types::laws::{each_outcome, one_settling};
