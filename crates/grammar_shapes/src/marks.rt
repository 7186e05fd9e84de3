//! Marks of graphs, and whether shapes are the same.

ghost use Rattle.std.specs.Prelude.{◌<◌, IsTrue, length};
ghost use Rattle.fs_model.specs.Sources.{IsSameStructure};
ghost use Rattle.fs_graph.specs.GraphMap.{reader_of};

use crate::place::Place;
use crate::shapes::GrammarShapes;
use fs_graph::{Graph, Node};
use shape_memo::Marked;
use std::sync::Arc;

// A hash with one more number.
fn mixed(mark: u64, number: u32) -> u64 {
    (mark ^ number as u64)
        .wrapping_mul(0x9E37_79B9_7F4A_7C15)
        .rotate_left(29)
}

// A hash with the type and the arcs of a node.
fn node_mark(graph: &Graph, node: Node, mark: u64) -> u64
    requires { node.0 < length graph.now.types }
{
    let mut mark = mixed(mark, graph.ty(node).0);
    for arc in graph.arcs(node) {
        mark = mixed(mixed(mark, arc.feat.0), arc.to.0);
    }
    mark
}

// A hash of a graph's types and arcs, which are the same for graphs that are.
pub(crate) fn mark_of(graph: &Graph) -> u64 {
    let mut mark = 0;
    for n in 0..graph.nodes() {
        mark = node_mark(graph, Node(n), mark);
    }
    mark
}

// Whether two graphs are seen to be one structure.
fn same_place(place: &Place, other: &Place) -> bool
    ensures { IsTrue result → IsSameStructure (reader_of place.now.graph) (reader_of other.now.graph) }
{
    place.mark == other.mark && place.graph.same(&other.graph)
}

impl<'a> Marked for GrammarShapes<'a> {
    ghost use Rattle.std.specs.Prelude.{◌≡◌, IsTrue};
    ghost use Rattle.grammar_shapes.specs.Systems.{meaning_of};

    fn mark(&self, shape: &Arc<Place>) -> u64 {
        shape.mark
    }

    fn weight(&self, shape: &Arc<Place>) -> u32 {
        shape.graph.nodes()
    }

    fn same(&self, shape: &Arc<Place>, other: &Arc<Place>) -> bool
        ensures { IsTrue result → meaning_of self.now shape.now ≡ meaning_of self.now other.now }
    {
        same_place(shape, other)
    }
}
