//! Sentences for an MRS: one call that answers it by the sentences of all trees that realize it, or by the limit that it breaks.
//!
//! Chart generation: Kay 1996; Carroll, Copestake, Flickinger and Poznanski 1999. Packing and unpacking: Oepen and Carroll 2000.
#![tactic(auto)]

ghost use Rattle.mrs_generate.specs.Laws.{SentenceAnswersAreOne};

mod answering;
mod asking;
mod contributors;
mod generating;
mod grammar;
mod leaves;
mod putting;

pub use contributors::{Contributors, contributors_of};
use generate_model::generate_laws;
pub use generating::{generate, generate_alone};
pub use grammar::GenGrammar;
pub use realized_trees::Sentence;
pub use std::alloc::AllocError as NoMemory;

/// The answer to an MRS.
#[derive(Debug, Drop)]
pub enum GenAnswer {
    /// the predicates of a lexical tree with exactly one rule more than the limit lie within those of the MRS
    LexicalDepth,
    /// there is an edge above more unary rules than the limit, by the least size at which a limit is broken
    UnaryChain,
    /// there are more packed classes than the limit by that size, and no such edge
    Edges,
    /// more trees realize the MRS than the limit
    Readings,
    /// the number of packed classes, and the sentences of all trees that realize it, each text once, in byte order, with its least tree
    Sentences {
        classes: u32,
        sentences: Vec<Sentence>,
    },
}

/// A law: an MRS has one answer. It does nothing.
pub fn sentence_laws()
    ensures { SentenceAnswersAreOne }
{
    generate_laws();
}
