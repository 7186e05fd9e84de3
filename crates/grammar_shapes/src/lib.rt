//! The phrase rules of a grammar over abstract structures, as the shapes of a chart over spans.
//!
//! Packing by subsumption with restrictors: Oepen and Carroll 2000. Rules over typed feature structures: Copestake 2002.
#![tactic(auto)]

mod cuts;
mod laws;
mod marks;
mod parts;
mod phrase_rule;
mod place;
mod rule_table;
mod shapes;
mod sketched;
mod spans;

pub use laws::structure_laws;
pub use phrase_rule::PhraseRule;
pub use place::Place;
pub use shapes::GrammarShapes;
pub use std::alloc::AllocError as NoMemory;
