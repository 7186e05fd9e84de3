//! The leaves of generation: the lexical trees of a grammar with the predicates that they contribute, and those of them whose
//! predicates lie within an input's; what phrase rules contribute themselves; and these rules over counts of predicates.
//!
//! Chart generation: Kay 1996; Carroll, Copestake, Flickinger and Poznanski 1999.
#![tactic(auto)]

mod covers;
mod laws;
mod leaf;
mod leaves;
mod marks;
mod rules;
mod shapes;
mod sketched;
mod told;
mod tree;

pub use laws::rule_laws;
pub use leaf::GenLeaf;
pub use leaves::{GenLeaves, leaves_of};
pub use rules::RulePredicates;
pub use shapes::CountedShapes;
pub use std::alloc::AllocError as NoMemory;
pub use told::told_trees;
pub use tree::ToldTree;
