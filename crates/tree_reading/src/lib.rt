//! The texts of trees, read: a line that writes a tree over the names of a grammar.
//!
//! Trees of parses: Copestake 2002.
#![tactic(auto)]

mod bytes;
mod closing;
mod laws;
mod leaves;
mod names;
mod near;
mod numbers;
mod opening;
mod reading;
mod stops;
mod uses;
mod words;

pub use laws::tree_laws;
pub use names::TreeNames;
pub use reading::read_tree;
pub use std::alloc::AllocError as NoMemory;

/// What an instance of a grammar is to a tree.
#[derive(Clone, Copy, Debug, PartialEq, Eq)]
pub enum Part {
    /// A lexical entry.
    Entry,
    /// A rule over a lexical tree.
    LexicalRule,
    /// A rule over so many daughters.
    PhraseRule { daughters: u32 },
    /// No part of a tree.
    Other,
}

/// Why a line writes no tree.
#[derive(Clone, Copy, Debug, PartialEq, Eq)]
pub enum TreeFault {
    /// No tree's text goes on as the line does from this byte on.
    At { at: u32 },
    /// Memory was wanting.
    NoMemory,
}
