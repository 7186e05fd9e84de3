//! What a search for chains stands on, and where it goes outwards from.

use crate::arrivals::Arrivals;
use crate::graph::Graph;
use crate::lattice::Step;
use lexicon::Lexicon;
use spelling_rules::Spelling;
use std::alloc::Global;

/// What a search for chains stands on: what is asked what entries and rules make, the entries, the forms of words, the steps of the
/// lattice by their ends, which may live longer than the list of them, and the most rules that a chain has.
#[derive_where(Clone, Copy)]
pub(crate) struct Search<'a, 's, M> {
    pub(crate) alloc: Global,
    pub(crate) maker: &'a M,
    pub(crate) lexicon: &'a Lexicon,
    pub(crate) spelling: &'a Spelling,
    pub(crate) arrivals: &'a Arrivals<'s>,
    pub(crate) depth: u32,
}

/// The last word of entries, as a node of the graph of a step's word, and the words before it.
#[derive(Clone, Copy)]
pub(crate) struct Stem<'a> {
    pub(crate) graph: &'a Graph,
    pub(crate) step: &'a Step,
    pub(crate) node: usize,
    pub(crate) front: &'a [String],
}
