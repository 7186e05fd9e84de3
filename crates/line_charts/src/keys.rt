//! How packed classes stand in order.

ghost use Rattle.std.specs.Prelude.{◌≡◌, length, map, string_bytes, IfOk};
ghost use Rattle.std.specs.Cmp.Lexicographic.{slice_cmp};
ghost use Rattle.std.specs.Ordering.{nat_cmp, on, ordering_then};
ghost use Rattle.type_hierarchy.specs.Table.{count_of};
ghost use Rattle.type_hierarchy.specs.declared.types.Ty.{Ty as TyValue};
ghost use Rattle.fs_closing.specs.NodeSteps.{IsGraphIn};
ghost use Rattle.line_charts.specs.Keys.{IsGraphText, compare_arcs, compare_graphs, compare_keys};
ghost use Rattle.line_charts.specs.Inner.Keyed.{key_seen};

use crate::NoMemory;
use fs_graph::{Graph, GraphArc, Node, print};
use std::alloc::Global;
use std::cmp::Ordering;
use type_hierarchy::{Ty, Types};

/// The nodes of a class, its level, and its structure, as a text and as a graph.
#[derive(Drop)]
pub(crate) struct ClassKey<'a> {
    pub(crate) from: u32,
    pub(crate) to: u32,
    pub(crate) level: u32,
    pub(crate) text: Vec<u8>,
    pub(crate) graph: &'a Graph,
}

/// The text of a structure, as `expand` writes it.
pub(crate) fn structure_text(
    alloc: Global,
    graph: &Graph,
    types: &Types,
    feats: &[String],
) -> Result<Vec<u8>, NoMemory>
    requires { IsGraphIn (count_of types.now) (length feats.now) graph.now }
    ensures { IfOk result (λ text. IsGraphText types.now (map string_bytes feats.now) graph.now text.items) }
{
    graph.laws();
    let Ok(list) = graph.paths(alloc) else {
        return Err(NoMemory);
    };
    let Ok(text) = print(alloc, &list, types, feats) else {
        return Err(NoMemory);
    };
    Ok(text)
}

/// The key of a class that lies between these nodes, on a level, and has this structure.
pub(crate) fn class_key<'a>(
    alloc: Global,
    from: u32,
    to: u32,
    level: u32,
    graph: &'a Graph,
    types: &Types,
    feats: &[String],
) -> Result<ClassKey<'a>, NoMemory>
    requires { IsGraphIn (count_of types.now) (length feats.now) graph.now }
    ensures from { IfOk result (λ key. key.from ≡ from) }
    ensures to { IfOk result (λ key. key.to ≡ to) }
    ensures level { IfOk result (λ key. key.level ≡ level) }
    ensures graph { IfOk result (λ key. key.graph.now ≡ graph.now) }
    ensures text { IfOk result (λ key. IsGraphText types.now (map string_bytes feats.now) graph.now key.text.items) }
{
    let text = structure_text(alloc, graph, types, feats)?;
    Ok(ClassKey {
        from,
        to,
        level,
        text,
        graph,
    })
}

/// By the nodes, the level, the text, and last by the graphs.
pub(crate) fn compare_keys(key: &ClassKey<'_>, other: &ClassKey<'_>) -> Ordering
    ensures { result ≡ compare_keys (key_seen key.now) (key_seen other.now) }
{
    match compare_places(key, other) {
        Ordering::Equal => compare_structures(key, other),
        differ => differ,
    }
}

// By the nodes and the level.
fn compare_places(key: &ClassKey<'_>, other: &ClassKey<'_>) -> Ordering
    ensures { result ≡ ordering_then (nat_cmp key.now.from other.now.from) (ordering_then (nat_cmp key.now.to other.now.to) (nat_cmp key.now.level other.now.level)) }
{
    let level = key.level.cmp(&other.level);
    key.from
        .cmp(&other.from)
        .then(key.to.cmp(&other.to).then(level))
}

// By the text, and then by the graphs.
fn compare_structures(key: &ClassKey<'_>, other: &ClassKey<'_>) -> Ordering
    ensures { result ≡ ordering_then (slice_cmp nat_cmp key.now.text.items other.now.text.items) (compare_graphs key.now.graph.now other.now.graph.now) }
{
    match key.text.as_slice().cmp(other.text.as_slice()) {
        Ordering::Equal => compare_graphs(key.graph, other.graph),
        differ => differ,
    }
}

// By the types of the nodes, and then by their arcs. Graphs of one text are nearly always one, so this is seldom called.
fn compare_graphs(graph: &Graph, other: &Graph) -> Ordering
    ensures { result ≡ compare_graphs graph.now other.now }
{
    match compare_types(graph.types(), other.types()) {
        Ordering::Equal => compare_rows(graph, other),
        differ => differ,
    }
}

// By the types' numbers, from the first node on.
fn compare_types(types: &[Ty], others: &[Ty]) -> Ordering
    ensures { result ≡ slice_cmp (on (λ (t : TyValue). t.0) nat_cmp) types.now others.now }
{
    for (ty, other) in types.iter().zip(others) {
        match ty.0.cmp(&other.0) {
            Ordering::Equal => {}
            differ => return differ,
        }
    }
    types.len().cmp(&others.len())
}

// By the arcs, node by node.
fn compare_rows(graph: &Graph, other: &Graph) -> Ordering
    ensures { result ≡ slice_cmp (slice_cmp compare_arcs) graph.now.arcs other.now.arcs }
{
    let nodes = graph.nodes();
    let others = other.nodes();
    for n in 0..nodes.min(others) {
        match compare_row(graph.arcs(Node(n)), other.arcs(Node(n))) {
            Ordering::Equal => {}
            differ => return differ,
        }
    }
    nodes.cmp(&others)
}

// By the arcs of one node, each by its feature and then by where it leads.
fn compare_row(arcs: &[GraphArc], others: &[GraphArc]) -> Ordering
    ensures { result ≡ slice_cmp compare_arcs arcs.now others.now }
{
    for (arc, other) in arcs.iter().zip(others) {
        match compare_arcs(arc, other) {
            Ordering::Equal => {}
            differ => return differ,
        }
    }
    arcs.len().cmp(&others.len())
}

fn compare_arcs(arc: &GraphArc, other: &GraphArc) -> Ordering
    ensures { result ≡ compare_arcs arc.now other.now }
{
    arc.feat
        .0
        .cmp(&other.feat.0)
        .then(arc.to.0.cmp(&other.to.0))
}
