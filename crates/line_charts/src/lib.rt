//! The packed forest of a line: its classes in order, with what makes the members of each, and the words that no lexical tree covers.
//!
//! Packing by subsumption, and packed forests: Oepen and Carroll 2000.
#![tactic(auto)]

mod forest;
mod grammar;
mod hosts;
mod keyed;
mod keys;
mod line;
mod makers;
mod making;
mod packing;
mod rooted;
mod telling;
mod texts;
mod unknown;

ghost use Rattle.line_charts.specs.Laws.{ChartAnswersAreOne, ChartsMatchParses, UnknownAreOne};

use derivation::Tree;
pub use grammar::ChartGrammar;
pub use line::{line_chart, unknown_words};
use morph_analysis::Step;
pub use std::alloc::AllocError as NoMemory;
pub use texts::{is_refused, lines_of_chart};
use type_hierarchy::Ty;

/// What makes members of a packed class.
#[derive(Debug, Drop)]
pub enum Maker {
    /// a lexical tree
    Tree(Tree),
    /// the phrase rule at a place among the instances of the grammar, over packed classes, by their numbers from 0 on
    Rule { place: u32, classes: Vec<u32> },
}

/// A packed class: the nodes of the lattice between which it lies, the type of its structure, whether some root unifies with that, and all
/// that makes members of it, each once, in the order of trees.
#[derive(Debug, Drop)]
pub struct ToldClass {
    pub from: u32,
    pub to: u32,
    pub ty: Ty,
    pub rooted: bool,
    pub makers: Vec<Maker>,
}

/// The answer to a line whose packed forest is asked for.
#[derive(Debug, Drop)]
pub enum ChartAnswer {
    /// a lexical tree with exactly one rule more than the limit lies in the lattice
    LexicalDepth,
    /// there is an edge above more unary rules than the limit, by the least size at which a limit is broken
    UnaryChain,
    /// there are more packed classes than the limit by that size, and no such edge
    Edges,
    /// the words that no lexical tree covers, in order, and the packed classes, by their nodes, their levels and the texts of their structures
    Forest {
        unknown: Vec<Step>,
        classes: Vec<ToldClass>,
    },
}

/// Laws: a lattice has one such answer (`one`) and one list of unknown words (`unknown`), and the answer goes with that of its trees (`parses`): both are refused by the same limit, where one of
/// them is by a limit on lexical rules, unary chains or packed classes, and otherwise there are as many packed classes as are counted there.
/// It does nothing.
pub fn chart_laws()
    ensures one { ChartAnswersAreOne }
    ensures parses { ChartsMatchParses }
    ensures unknown { UnknownAreOne }
{}
