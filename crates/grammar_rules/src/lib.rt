//! The answer to a line: its licensed trees, or the limit that it breaks; and what the lines of a run share.
//!
//! Typed feature structure grammars: Copestake 2002. Packing and unpacking: Oepen and Carroll 2000.
#![tactic(auto)]

ghost use Rattle.grammar_rules.specs.Laws.{LexemesAreLeaves, FullsFit, FoundIsAnswer, LinesAreAnswered};

mod asked;
mod desk;
mod grammar;
mod leaves;
mod mother_remembered;
mod parts;
mod remembered;
mod search;

use derivation::Tree;
pub use desk::{Desk, LineWork};
pub use grammar::LineGrammar;
pub use leaves::{LineLeaves, line_leaves};
pub use mother_remembered::RememberedMothers;
use packed_items::Found;
pub use remembered::{LineShapes, RunMemory, run_shapes};
pub use search::Search;
pub use std::alloc::AllocError as NoMemory;

/// The answer to a line.
#[derive(Debug, Drop)]
pub enum ItemAnswer {
    /// a lexical tree with exactly one rule more than the limit lies in the lattice
    LexicalDepth,
    /// there is an edge above more unary rules than the limit, by the least size at which a limit is broken
    UnaryChain,
    /// there are more packed classes than the limit by that size, and no such edge
    Edges,
    /// more trees are licensed than the limit
    Readings,
    /// the number of packed classes, and all licensed trees, each once, in the order of trees
    Trees { classes: u32, trees: Vec<Tree> },
}

impl ItemAnswer {
    ghost use Rattle.std.specs.Prelude.{◌≡◌};
    ghost use Rattle.packed_items.specs.Answers.{answer_of};
    ghost use Rattle.grammar_rules.specs.Views.{item_answer};

    /// What is found over the leaves of a line, as its answer.
    pub fn of_found(found: Found) -> ItemAnswer
        ensures { item_answer result ≡ answer_of found }
    {
        match found {
            Found::UnaryChain => ItemAnswer::UnaryChain,
            Found::Edges => ItemAnswer::Edges,
            Found::Readings => ItemAnswer::Readings,
            Found::Trees { classes, trees } => ItemAnswer::Trees { classes, trees },
        }
    }
}

/// A law: the lexical trees of a line with their shapes are its leaves (`leaves`), the full structures of its trees fit its
/// grammar (`fit`), and what is found over the leaves is the answer to the line (`found`). So what is known of the lexical
/// trees, and what chart and unpacking find over them, make the answer (`answered`). It does nothing.
pub fn line_laws()
    ensures leaves { LexemesAreLeaves }
    ensures fit { FullsFit }
    ensures found { FoundIsAnswer }
    ensures answered { LinesAreAnswered }
{}
