//! Leaves.

ghost use Rattle.derivation.specs.Counted.{IsCounted};

use chart_model::Counts;
use derivation::Tree;
use rule_trees::FullStructure;
use std::sync::Arc;

/// A leaf of generation: a lexical tree with its cover, which counts the predicates that it contributes, and its full structure.
#[derive(Drop)]
pub struct GenLeaf {
    pub tree: Tree,
    pub cover: Counts,
    pub full: Arc<FullStructure>,
    ghost counted: { IsCounted tree },
}
