//! How the words that lead to a word are gathered.

ghost use Rattle.std.specs.Prelude.{◌≡◌, ◌<◌, ◌≤◌, suc, ℕ, length, map, IfOk, OnOk};
ghost use Rattle.morph_analysis.specs.Inner.Growing.{IsGrown, Adds, AllNear, IsDone, IsNodeOf, with_edge};
ghost use Rattle.morph_analysis.specs.Spelled.{IsSpelled, node_at};
ghost use Rattle.spelling_rules.specs.Forms.{AreAllStems};
ghost use Rattle.spelling_rules.specs.Views.{stems_in};
ghost use Rattle.morph_analysis.specs.Views.{node_of, edge_of};

use indexmap::IndexMap;
use lexicon::NoMemory;
use spelling_rules::{Spelling, Stem};
use std::alloc::Global;

/// A form of a word: the rule that makes it, and its node.
#[derive(Clone, Copy, Debug, PartialEq, Eq)]
pub struct Edge {
    pub rule: u32,
    pub to: u32,
}

/// What is known of a word that leads to another: how many rules away it is, and its forms that lead there.
#[derive(Drop)]
pub(crate) struct Node {
    pub distance: u32,
    pub edges: Vec<Edge>,
}

// The node of a word, made where there is none.
fn node_for(
    alloc: Global,
    nodes: &mut IndexMap<String, Node>,
    word: &str,
    distance: u32,
) -> Result<usize, NoMemory>
    ensures node { IfOk result (λ n. IsNodeOf (map node_of nodes.new.entries) word.now n) }
    ensures same { OnOk result (IsGrown distance word.now (map node_of nodes.old.entries) (map node_of nodes.new.entries)) }
{
    if let Some(place) = nodes.get_index_of(word) {
        return Ok(place);
    }
    let place = nodes.len();
    let key = String::from_str(alloc, word)?;
    let edges = Vec::new(alloc);
    nodes.insert(key, Node { distance, edges })?;
    Ok(place)
}

// Adds an edge to a node.
fn add_edge(nodes: &mut IndexMap<String, Node>, node: usize, edge: Edge) -> Result<(), NoMemory>
    requires { node < length nodes.old.entries }
    ensures { OnOk result (map node_of nodes.new.entries ≡ with_edge (map node_of nodes.old.entries) node (edge_of edge)) }
{
    if let Some(one) = nodes.get_index_mut(node) {
        one.edges.push(edge)?;
    }
    Ok(())
}

// The stems of the word of a node.
fn stems_of(
    alloc: Global,
    spelling: &Spelling,
    nodes: &IndexMap<String, Node>,
    place: u32,
) -> Result<Vec<Stem>, NoMemory>
    requires { place < length nodes.now.entries }
    ensures { IfOk result (λ v. AreAllStems spelling.now (node_at (map node_of nodes.now.entries) place).word (stems_in v)) }
{
    match nodes.get_index(place as usize) {
        Some((word, _)) => {
            let stems = spelling.all_stems(alloc, word.as_str())?;
            Ok(stems)
        }
        None => Ok(Vec::new(alloc)),
    }
}

// Adds an edge to a form's node from each of its stems.
fn add_stems(
    alloc: Global,
    spelling: &Spelling,
    nodes: &mut IndexMap<String, Node>,
    place: u32,
    distance: u32,
) -> Result<(), NoMemory>
    requires place { place < length nodes.old.entries }
    requires near { AllNear (map node_of nodes.old.entries) distance }
    requires next { distance ≡ suc (node_at (map node_of nodes.old.entries) place).distance }
    ensures adds { OnOk result (Adds spelling.now distance (map node_of nodes.old.entries) (map node_of nodes.new.entries)) }
    ensures done { OnOk result (IsDone spelling.now (map node_of nodes.new.entries) place) }
{
    let stems = stems_of(alloc, spelling, nodes, place)?;
    for stem in &stems {
        let node = node_for(alloc, nodes, stem.stem.as_str(), distance)?;
        let rule = stem.rule;
        add_edge(nodes, node, Edge { rule, to: place })?;
    }
    Ok(())
}

// Adds edges to the nodes from one on, which the round before made.
fn add_round(
    alloc: Global,
    spelling: &Spelling,
    nodes: &mut IndexMap<String, Node>,
    begin: usize,
    distance: u32,
) -> Result<(), NoMemory>
    requires near { AllNear (map node_of nodes.old.entries) distance }
    requires next { (n : ℕ) → begin ≤ n → n < length nodes.old.entries → distance ≡ suc (node_at (map node_of nodes.old.entries) n).distance }
    ensures adds { OnOk result (Adds spelling.now distance (map node_of nodes.old.entries) (map node_of nodes.new.entries)) }
    ensures done { OnOk result ((n : ℕ) → begin ≤ n → n < length nodes.old.entries → IsDone spelling.now (map node_of nodes.new.entries) n) }
{
    let end = nodes.len();
    if end > u32::MAX as usize {
        return Err(NoMemory);
    }
    for place in begin..end {
        add_stems(alloc, spelling, nodes, place as u32, distance)?;
    }
    Ok(())
}

/// The words that lead to a word by at most so many rules. A round that finds no new word ends the search.
pub(crate) fn spelled(
    alloc: Global,
    spelling: &Spelling,
    word: &str,
    depth: u32,
) -> Result<IndexMap<String, Node>, NoMemory>
    ensures { IfOk result (λ m. IsSpelled spelling.now word.now depth (map node_of m.entries)) }
{
    let mut nodes = IndexMap::new(alloc);
    node_for(alloc, &mut nodes, word, 0)?;
    let mut begin = 0;
    for round in 0..depth {
        let end = nodes.len();
        if begin == end {
            return Ok(nodes);
        }
        add_round(alloc, spelling, &mut nodes, begin, round + 1)?;
        begin = end;
    }
    Ok(nodes)
}
