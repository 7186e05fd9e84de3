//! The words that lead to a word, as a graph.

ghost use Rattle.std.specs.Prelude.{◌≡◌, length, map, IfOk};
ghost use Rattle.morph_analysis.specs.Spelled.{IsSpelled, node_at};
ghost use Rattle.morph_analysis.specs.Views.{edge_of};

use crate::nodes::{Edge, Node, spelled};
use indexmap::IndexMap;
use lexicon::NoMemory;
use spelling_rules::Spelling;
use std::alloc::Global;
use std::marker::Model;

/// The words that lead to a word by lexical rules, as a graph: a node is a word, an edge leads from a word to one of its
/// forms, and node 0 is the word to which all lead.
#[derive(Drop)]
pub struct Graph {
    nodes: IndexMap<String, Node>,
}

impl Model for Graph {
    ghost use Rattle.std.specs.Prelude.{List, map};
    ghost use Rattle.morph_analysis.specs.Spelled.{NodeTree};
    ghost use Rattle.morph_analysis.specs.Views.{node_of};

    ghost Value = { List NodeTree };

    ghost view = { λ g. map node_of g.nodes.entries };
}

impl Graph {
    /// The words that lead to a folded word by at most so many rules.
    pub fn of_word(
        alloc: Global,
        spelling: &Spelling,
        word: &str,
        depth: u32,
    ) -> Result<Graph, NoMemory>
        ensures { IfOk result (λ g. IsSpelled spelling.now word.now depth g) }
    {
        let nodes = spelled(alloc, spelling, word, depth)?;
        Ok(Graph { nodes })
    }

    /// The number of nodes.
    pub fn len(&self) -> usize
        ensures { result ≡ length self.now }
    {
        self.nodes.len()
    }

    /// The word of a node; an empty one where there is no such node.
    pub fn word(&self, node: usize) -> &str
        ensures { result.now ≡ (node_at self.now node).word }
    {
        match self.nodes.get_index(node) {
            Some((word, _)) => word.as_str(),
            None => "",
        }
    }

    /// The edges that begin at a node; none where there is no such node.
    pub fn edges(&self, node: usize) -> &[Edge]
        ensures { map edge_of result.now ≡ (node_at self.now node).edges }
    {
        match self.nodes.get_index(node) {
            Some((_, one)) => one.edges.as_slice(),
            None => &[],
        }
    }

    /// A number of rules, fewer than which don't lead from a node to node 0; 0 where there is no such node.
    pub fn distance(&self, node: usize) -> u32
        ensures { result ≡ (node_at self.now node).distance }
    {
        match self.nodes.get_index(node) {
            Some((_, one)) => one.distance,
            None => 0,
        }
    }
}
