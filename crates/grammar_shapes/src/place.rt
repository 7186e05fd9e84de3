//! Abstract structures.

use fs_graph::Graph;
use sieve::Sketch;

/// An abstract structure, which an edge of a chart has: its graph, and its sketch at the paths at which types are compared. Graphs that are the same have one mark, and those that differ seldom have.
#[derive(Drop)]
pub struct Place {
    pub graph: Graph,
    pub sketch: Sketch,
    pub mark: u64,
}
