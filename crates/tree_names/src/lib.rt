//! The names and the words that trees of a grammar are written with: what the reader of trees and what spells them are told of a grammar
//! that is loaded.
//!
//! Trees of parses: Copestake 2002. Statuses of instances: DELPH-IN TDL.
#![tactic(auto)]

mod laws;
mod names;
mod words;

pub use laws::written_trees;
pub use names::tree_names;
pub use std::alloc::AllocError as NoMemory;
pub use words::word_book;
