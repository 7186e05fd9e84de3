//! The full structures of trees over the leaves of generation, which of them realize an MRS, what may be dropped on the way, and the texts
//! of trees (Copestake 2002; Carroll, Copestake,
//! Flickinger and Poznanski 1999).
#![tactic(auto)]

ghost use Rattle.realized_trees.specs.Laws.{WhollyAccepted};

mod dropping;
mod fulls;
mod meaning;
mod pruned_fulls;
mod pruning;
mod sentence;
mod sentences;
mod sifting;
mod text;
mod threading;

pub use fulls::RealizedFulls;
pub use pruned_fulls::PrunedFulls;
pub use pruning::pruned_laws;
pub use sentence::{Sentence, sentences_of};
pub use sifting::{Sieve, sieve_of};
pub use std::alloc::AllocError as NoMemory;
pub use threading::threaded_list;

/// A law: the trees that `RealizedFulls` asks for are those that the item of generation accepts (`IsGenAccepted`). It does nothing.
pub fn realized_laws()
    ensures { WhollyAccepted }
{}
