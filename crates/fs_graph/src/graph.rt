//! Graphs, their nodes and arcs.

ghost use Rattle.std.specs.Prelude.{◌≡◌, ℕ, ◌+◌, ◌<◌, ◌≤◌, ◌^◌, ◌↔◌, length, List, map, Some, None, IsTrue, option_map, true};
ghost use Rattle.std.specs.List.{range_with_len};
ghost use Rattle.fs_model.specs.Sources.{IsSameStructure};
ghost use Rattle.fs_graph.specs.Facts.{path_of};
ghost use Rattle.fs_graph.specs.GraphMap.{arc_to};
ghost use Rattle.fs_graph.specs.Inside.{AreRows, row};

use crate::Feat;
use std::marker::Model;
use type_hierarchy::Ty;

/// A node by number. The root is 0, and the nodes are numbered in depth-first order.
#[derive(Clone, Copy, Debug, PartialEq, Eq, PartialOrd, Ord, Hash)]
pub struct Node(pub u32);

/// An arc of a node: its feature, and the node to which it leads.
#[derive(Clone, Copy, Debug, PartialEq, Eq)]
pub struct GraphArc {
    pub feat: Feat,
    pub to: Node,
}

/// A structure: nodes with types, and arcs by feature (Copestake 2002: typed feature structures). No node reaches itself,
/// and the root reaches each node. Two graphs that are one structure are equal.
#[derive(Debug, Drop)]
pub struct Graph {
    pub(crate) types: Vec<Ty>,
    pub(crate) starts: Vec<u32>,
    pub(crate) arcs: Vec<GraphArc>,
}

impl Model for Graph {
    ghost use Rattle.fs_graph.specs.GraphMap.{GraphMap};

    ghost Value = { GraphMap };

    ghost use Rattle.fs_graph.specs.Inside.{graph_map, IsGraphInside};

    ghost view = { λ g. graph_map g.types.items g.starts.items g.arcs.items };

    ghost invariant = { λ g. IsGraphInside g.types.items g.starts.items g.arcs.items };
}

// Where an arc leads.
fn find_arc(arcs: &[GraphArc], feat: Feat) -> Option<Node>
    ensures { option_map (λ n. n.0) result ≡ arc_to arcs.now feat.0 }
{
    arcs.iter().find(|arc| arc.feat == feat).map(|arc| arc.to)
}

impl Graph {
    ghost use Rattle.fs_graph.specs.GraphMap.{node_at, type_at, arcs_at, reader_of, IsGraph, IsSameNode};

    /// How many nodes there are.
    pub fn nodes(&self) -> u32
        ensures count { result ≡ length self.now.types }
        ensures graph { IsGraph self.now }
    {
        self.types.len() as u32
    }

    /// A law: each graph is an `IsGraph`. It does nothing.
    pub fn laws(&self)
        ensures { IsGraph self.now }
    {
        let _ = &self.types;
    }

    // The root, with what every graph keeps.
    fn root(&self) -> Node
        ensures root { result.0 ≡ 0 }
        ensures graph { IsGraph self.now }
    {
        let _ = &self.types;
        Node(0)
    }

    /// The type of a node.
    pub fn ty(&self, n: Node) -> Ty
        requires { n.0 < length self.now.types }
        ensures { result.0 ≡ type_at self.now n.0 }
    {
        self.types[n.0 as usize]
    }

    /// The arcs of a node, by rising feature.
    pub fn arcs(&self, n: Node) -> &[GraphArc]
        requires { n.0 < length self.now.types }
        ensures { result.now ≡ arcs_at self.now n.0 }
    {
        let from = self.starts[n.0 as usize] as usize;
        let end = self.starts[n.0 as usize + 1] as usize;
        &self.arcs[from..end]
    }

    /// The types of all nodes, by number.
    pub fn types(&self) -> &[Ty]
        ensures { map (λ t. t.0) result.now ≡ self.now.types }
    {
        &self.types
    }

    /// The arcs of all nodes in one list, after the places where each node's begin in it. Those of a node end where the next
    /// one's begin.
    pub fn rows(&self) -> (&[u32], &[GraphArc])
        ensures even { AreRows (length self.now.types) result.0.now (length result.1.now) }
        ensures rows { self.now.arcs ≡ map (row result.0.now result.1.now) (range_with_len 0 (length self.now.types)) }
        ensures graph { IsGraph self.now }
        ensures few { length self.now.types < 2 ^ 32 }
    {
        (&self.starts, &self.arcs)
    }

    /// Whether the two graphs are one structure: the same paths, the same equalities of paths, and the same types.
    pub fn same(&self, other: &Graph) -> bool
        ensures { IsTrue result ↔ IsSameStructure (reader_of self.now) (reader_of other.now) }
    {
        if self.has_lists_of(other) {
            return true;
        }
        let nodes = self.nodes();
        if nodes != other.nodes() {
            return false;
        }
        for n in 0..nodes {
            if !self.same_node(other, Node(n)) {
                return false;
            }
        }
        true
    }

    // Whether the lists of two graphs are seen to be the same. It is asked first: most graphs that are compared are equal, and lists
    // are gone through faster than the arcs of each node.
    fn has_lists_of(&self, other: &Graph) -> bool
        ensures { result ≡ true → self.now ≡ other.now }
    {
        if self.types.as_slice() != other.types.as_slice() {
            return false;
        }
        if self.starts.as_slice() != other.starts.as_slice() {
            return false;
        }
        self.arcs.as_slice() == other.arcs.as_slice()
    }

    // Whether a node has the same type and the same arcs in both graphs.
    fn same_node(&self, other: &Graph, n: Node) -> bool
        requires here { n.0 < length self.now.types }
        requires there { n.0 < length other.now.types }
        ensures { IsTrue result ↔ IsSameNode self.now other.now n.0 }
    {
        self.ty(n) == other.ty(n) && self.arcs(n) == other.arcs(n)
    }

    /// The node at a path, and `None` exactly where the path doesn't exist.
    pub fn at(&self, path: &[Feat]) -> Option<Node>
        ensures { option_map (λ n. n.0) result ≡ node_at self.now (path_of path.now) }
    {
        let mut node = self.root();
        for feat in path {
            match find_arc(self.arcs(node), *feat) {
                Some(to) => node = to,
                None => return None,
            }
        }
        Some(node)
    }
}
