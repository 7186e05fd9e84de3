//! The line of a tree's MRS (SimpleMRS; Copestake, Flickinger, Pollard and Sag 2005).
#![tactic(auto)]

ghost use Rattle.mrs_lines.specs.Laws.{MrsLinesAreOne, LinesAreOne};

mod grammar_names;
mod line;
mod memory;
mod trees;

pub use grammar_names::loaded_names;
pub use line::{line_of_mrs, line_of_no_mrs, line_of_tree};
pub use memory::MrsMemory;
use mrs_extract::mrs_is_one;
pub use std::alloc::AllocError as NoMemory;
use tree_structures::structure_laws;
pub use trees::{TreeLines, lines_of_trees};

/// A law: a tree has one line of its MRS (`line`), and trees have one list of lines with their MRSs (`lines`). It does nothing.
pub fn mrs_line_laws()
    ensures line { MrsLinesAreOne }
    ensures lines { LinesAreOne }
{
    structure_laws();
    mrs_is_one();
}
