//! Phrase rules.

use fs_graph::{Feat, Graph};

/// A phrase rule: its place among the instances of the grammar, its structure, and the path of each daughter from left to right.
#[derive(Drop)]
pub struct PhraseRule<'a> {
    pub place: u32,
    pub structure: &'a Graph,
    pub places: Vec<Vec<Feat>>,
}
