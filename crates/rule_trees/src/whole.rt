//! What all of one full structure share.

ghost use Rattle.std.specs.Prelude.{◌≡◌, ◌<◌, true, length};
ghost use Rattle.type_hierarchy.specs.Table.{count_of};
ghost use Rattle.rule_trees.specs.Mothers.{IsShortIn};
ghost use Rattle.rule_trees.specs.Inner.Wholes.{IsAgain};

use crate::bounded::BoundedGraph;
use book_signs::SignBook;
use fs_graph::{Graph, Node};

/// A graph with its bounds, and a hash of its types and arcs.
#[derive(Drop)]
pub struct Whole {
    pub(crate) bounded: BoundedGraph,
    pub(crate) mark: u64,
}

/// A hash with one more number.
fn mixed(mark: u64, number: u32) -> u64 {
    (mark ^ number as u64)
        .wrapping_mul(0x9E37_79B9_7F4A_7C15)
        .rotate_left(29)
}

/// A hash with the type and the arcs of a node.
fn node_mark(graph: &Graph, node: Node, mark: u64) -> u64
    requires { node.0 < length graph.now.types }
{
    let mut mark = mixed(mark, graph.ty(node).0);
    for arc in graph.arcs(node) {
        mark = mixed(mixed(mark, arc.feat.0), arc.to.0);
    }
    mark
}

/// A hash of the types and arcs of a graph.
fn mark_of(graph: &Graph) -> u64 {
    let mut mark = 0;
    for n in 0..graph.nodes() {
        mark = node_mark(graph, Node(n), mark);
    }
    mark
}

impl Whole {
    /// A graph that is in range and has no path longer than the limit.
    pub(crate) fn of(signs: &SignBook<'_>, graph: Graph) -> Whole
        requires { IsShortIn signs.now graph }
        ensures graph { result.bounded.plain ≡ graph }
        ensures types { result.bounded.types ≡ count_of signs.now.book.system.types }
        ensures feats { result.bounded.feats ≡ length signs.now.book.system.introducers }
        ensures limit { result.bounded.limit ≡ signs.now.book.system.path_limit }
    {
        signs.laws();
        let system = signs.system();
        let mark = mark_of(&graph);
        let bounded = BoundedGraph {
            plain: graph,
            types: system.types().counts().all,
            feats: signs.book().feats.len(),
            limit: system.path_limit(),
        };
        Whole { bounded, mark }
    }

    /// Whether the marks and the bounds are the same.
    fn may_be(&self, other: &Whole) -> bool
        ensures types { result ≡ true → self.now.bounded.types ≡ other.now.bounded.types }
        ensures feats { result ≡ true → self.now.bounded.feats ≡ other.now.bounded.feats }
        ensures limit { result ≡ true → self.now.bounded.limit ≡ other.now.bounded.limit }
    {
        self.mark == other.mark
            && self.bounded.types == other.bounded.types
            && self.bounded.feats == other.bounded.feats
            && self.bounded.limit == other.bounded.limit
    }

    /// Whether the graphs and their bounds are seen to be the same; where they aren't, nothing is said.
    pub(crate) fn same(&self, other: &Whole, signs: &SignBook<'_>) -> bool
        ensures { result ≡ true → IsAgain signs.now self.now.bounded other.now.bounded }
    {
        signs.laws();
        if !self.may_be(other) {
            return false;
        }
        self.bounded.plain.same(&other.bounded.plain)
    }
}
