//! The types of predicates that stand in RELS.

ghost use Rattle.std.specs.Prelude.{◌≡◌, ◌<◌, ◌++◌, ◌∷◌, [], map, option_map, length, All, IfOk, IfSome, Some};
ghost use Rattle.type_hierarchy.specs.Table.{count_of};
ghost use Rattle.fs_graph.specs.GraphMap.{type_at};
ghost use Rattle.mrs_places.specs.Paths.{feature_of, paths_of};
ghost use Rattle.mrs_places.specs.Looking.{step, follow, below, is_number};
ghost use Rattle.mrs_places.specs.Asked.{IsTyped};
ghost use Rattle.mrs_places.specs.Inner.Walked.{nodes_of};
ghost use Rattle.generate_model.specs.Contributing.{PredTypes};
ghost use Rattle.generate_model.specs.Inner.Reading.{IsWalked, IsListOf, types_in, type_at_pred};

use crate::NoMemory;
use fs_graph::{Graph, Node};
use mrs_places::{MrsFeat, MrsPaths, is_below, step};
use std::alloc::Global;
use type_hierarchy::{Ty, Types};

// The node at a path from a node.
fn follow(graph: &Graph, from: Node, path: &[MrsFeat]) -> Option<Node>
    requires { from.0 < length graph.now.types }
    ensures at { option_map (λ m. m.0) result ≡ follow graph.now (map feature_of path.now) (Some from.0) }
    ensures inside { IfSome result (λ m. m.0 < length graph.now.types) }
{
    let mut node = from;
    for k in 0..path.len() {
        node = step(graph, node, &path[k])?;
    }
    Some(node)
}

// Whether a list names this node as its end.
fn is_last(last: Option<Node>, node: Node) -> bool
    ensures { result ≡ is_number (option_map (λ n. n.0) last) node.0 }
{
    match last {
        None => false,
        Some(last) => last == node,
    }
}

// The cells of a list, from its first one on by REST, up to the node that it names as its last or to an empty list; none of a list that has no
// such end.
fn walked(
    alloc: Global,
    graph: &Graph,
    types: &Types,
    paths: &MrsPaths,
    start: Node,
    last: Option<Node>,
) -> Result<Option<Vec<Node>>, NoMemory>
    requires typed { IsTyped types.now (paths_of paths.now) graph.now }
    requires inside { start.0 < length graph.now.types }
    ensures walked { IfOk result (λ o. IsWalked graph.now types.now (paths_of paths.now) (option_map (λ n. n.0) last) start.0 (option_map (λ v. nodes_of v.items) o)) }
    ensures inside { IfOk result (λ o. IfSome o (λ v. All (λ n. n.0 < length graph.now.types) v.items)) }
{
    let nodes = graph.nodes();
    let mut cells = Vec::new(alloc);
    let mut node = start;
    for turn in 0..nodes {
        let ty = graph.ty(node);
        if is_last(last, node) || is_below(types, ty, paths.null) {
            return Ok(Some(cells));
        }
        if !is_below(types, ty, paths.cons) {
            return Ok(None);
        }
        cells.push(node)?;
        let Some(next) = step(graph, node, &paths.rest) else {
            return Ok(None);
        };
        node = next;
    }
    unreachable!()
}

// The cells of RELS at a path; none where the list is missing or open.
fn list_at(
    alloc: Global,
    graph: &Graph,
    types: &Types,
    paths: &MrsPaths,
    base: &[MrsFeat],
) -> Result<Option<Vec<Node>>, NoMemory>
    requires { IsTyped types.now (paths_of paths.now) graph.now }
    ensures list { IfOk result (λ o. IsListOf graph.now types.now (paths_of paths.now) (map feature_of base.now) (option_map (λ v. nodes_of v.items) o)) }
    ensures inside { IfOk result (λ o. IfSome o (λ v. All (λ n. n.0 < length graph.now.types) v.items)) }
{
    let _nodes = graph.nodes();
    let Some(at) = follow(graph, Node(0), base) else {
        return Ok(None);
    };
    let Some(rels) = step(graph, at, &paths.rels) else {
        return Ok(None);
    };
    let Some(start) = step(graph, rels, &paths.diff_list) else {
        return Ok(None);
    };
    let last = step(graph, rels, &paths.diff_last);
    walked(alloc, graph, types, paths, start, last)
}

// The type at PRED of a cell's element, where it is there.
fn type_of(graph: &Graph, _types: &Types, paths: &MrsPaths, cell: Node) -> Option<Ty>
    requires typed { IsTyped _types.now (paths_of paths.now) graph.now }
    requires inside { cell.0 < length graph.now.types }
    ensures is { option_map (λ t. t.0) result ≡ type_at_pred graph.now (paths_of paths.now) cell.0 }
    ensures inside { IfSome result (λ t. t.0 < count_of _types.now) }
{
    let first = step(graph, cell, &paths.first)?;
    let pred = step(graph, first, &paths.pred)?;
    Some(graph.ty(pred))
}

// The types of the predicates of some cells.
fn types_of(
    alloc: Global,
    graph: &Graph,
    types: &Types,
    paths: &MrsPaths,
    cells: &[Node],
) -> Result<Vec<Ty>, NoMemory>
    requires typed { IsTyped types.now (paths_of paths.now) graph.now }
    requires inside { All (λ n. n.0 < length graph.now.types) cells.now }
    ensures types { IfOk result (λ v. map (λ t. t.0) v.items ≡ types_in graph.now (paths_of paths.now) (nodes_of cells.now)) }
    ensures inside { IfOk result (λ v. All (λ t. t.0 < count_of types.now) v.items) }
{
    let mut found = Vec::new(alloc);
    for cell in cells {
        if let Some(ty) = type_of(graph, types, paths, *cell) {
            found.push(ty)?;
        }
    }
    Ok(found)
}

/// The types of the predicates that stand in RELS at a path of a structure, in order: what its leaf or its rule contributes (Carroll,
/// Copestake, Flickinger and Poznanski 1999).
///
/// The path leads from the root; `mrs_path` is that of a leaf. There are none where the list is missing or open, and an element without PRED
/// has none. The list is walked as extraction does: it ends at the node that it names as its last, or at an empty list.
pub fn pred_types(
    alloc: Global,
    graph: &Graph,
    types: &Types,
    paths: &MrsPaths,
    base: &[MrsFeat],
) -> Result<Vec<Ty>, NoMemory>
    requires { IsTyped types.now (paths_of paths.now) graph.now }
    ensures types { IfOk result (λ v. PredTypes graph.now types.now (paths_of paths.now) (map feature_of base.now) (map (λ t. t.0) v.items)) }
    ensures inside { IfOk result (λ v. All (λ t. t.0 < count_of types.now) v.items) }
{
    match list_at(alloc, graph, types, paths, base)? {
        Some(cells) => types_of(alloc, graph, types, paths, &cells),
        None => Ok(Vec::new(alloc)),
    }
}
