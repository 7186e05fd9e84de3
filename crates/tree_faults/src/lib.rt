//! Whether a tree is licensed, and if not, why not: the first node without a structure, or that doesn't spell its words, or that no root unifies.
//!
//! Unification of typed feature structures: Copestake 2002.
#![tactic(auto)]

ghost use Rattle.tree_faults.specs.Laws.{ExplainedIsLicensed, NodesAreFree, ExplainedAreOne};

mod building;
mod endings;
mod explaining;
mod known;
mod making;
mod misspelled;
mod opened;
mod places;
mod refusals;
mod said;
mod structures;
mod texts;
mod word_book;

pub use explaining::{Explanation, explained};
pub use misspelled::{Misspelled, first_misspelled};
pub use std::alloc::AllocError as NoMemory;
pub use texts::{explained_line, is_refused, no_tree_line};
pub use word_book::WordBook;

/// A law: a tree whose words stand in a lattice is licensed here exactly where it is licensed for the lattice (`licensed`); the nodes that it is
/// written with make no difference to what is told of it (`free`); and a tree has one explanation (`one`). It does nothing.
pub fn explained_laws()
    ensures licensed { ExplainedIsLicensed }
    ensures free { NodesAreFree }
    ensures one { ExplainedAreOne }
{}
