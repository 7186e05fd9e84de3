//! Graphs with bounds.

ghost use Rattle.rule_trees.specs.Bounded.{IsWithin};

use fs_graph::Graph;

/// A graph with the bounds within which its types, features and paths are: those of the grammar that made it.
#[derive(Drop)]
pub struct BoundedGraph {
    pub plain: Graph,
    /// all its types are below this number,
    pub types: u32,
    /// all its features below this one,
    pub feats: usize,
    /// and no path of it is longer.
    pub limit: u32,
    pub ghost within: { IsWithin types feats limit plain },
}
