//! The lists of an MRS.

ghost use Rattle.std.specs.Prelude.{◌≡◌, ◌<◌, ◌∷◌, [], length, map, option_map, All, IfOk};
ghost use Rattle.type_hierarchy.specs.Table.{count_of};
ghost use Rattle.mrs_places.specs.Paths.{feature_of, paths_of};
ghost use Rattle.mrs_places.specs.Looking.{NamedPath, Walks, all_there, look};
ghost use Rattle.mrs_places.specs.Asked.{IsTyped};
ghost use Rattle.mrs_places.specs.Looking.{is_number};
ghost use Rattle.mrs_places.specs.Faults.{Tells};
ghost use Rattle.mrs_places.specs.Inner.Lists.{ElementsOf, MayElementsOf, pairs_from};
ghost use Rattle.mrs_places.specs.Inner.Walked.{cell_path, element_path, placed, walk_end, nodes_of, IsTurn};
ghost use Rattle.mrs_places.specs.Places.{pairs_of, IsPairIn};

use crate::missing::{missing_in_list, missing_in_mrs};
use crate::paths::{MrsFeat, MrsPaths, NoMemory, NoMrs};
use crate::steps::{is_below, step};
use fs_graph::{Graph, Node};
use std::alloc::Global;
use type_hierarchy::Types;

/// An element of a list with its two parts: predicate and label of a relation, the two variables of a constraint.
#[derive(Clone, Copy, Debug)]
pub struct Element {
    pub at: Node,
    pub one: Node,
    pub two: Node,
}

/// A list of M: its feature, and those of the two parts of its elements.
#[derive(Clone, Copy)]
pub(crate) struct ListFeats<'a> {
    pub(crate) list: &'a MrsFeat,
    pub(crate) one: &'a MrsFeat,
    pub(crate) two: &'a MrsFeat,
}

// The cells of a list that were walked, and whether the walk came to its end. Otherwise what stands behind these cells is missing.
#[derive(Drop)]
struct Walk {
    cells: Vec<Node>,
    is_whole: bool,
}

// What a node is to the walk along a list: its end, what is no list, or a cell.
enum Turn {
    End,
    Open,
    Cell,
}

// Whether the list ends at a node that it names.
fn is_last(last: Option<Node>, node: Node) -> bool
    ensures { result ≡ is_number (option_map (λ n. n.0) last) node.0 }
{
    match last {
        None => false,
        Some(last) => last == node,
    }
}

fn turn_at(graph: &Graph, types: &Types, paths: &MrsPaths, node: Node, last: Option<Node>) -> Turn
    requires typed { IsTyped types.now (paths_of paths.now) graph.now }
    requires inside { node.0 < length graph.now.types }
    ensures { IsTurn graph.now types.now (paths_of paths.now) (option_map (λ n. n.0) last) node.0 result }
{
    if is_last(last, node) {
        return Turn::End;
    }
    let ty = graph.ty(node);
    if is_below(types, ty, paths.null) {
        return Turn::End;
    }
    if is_below(types, ty, paths.cons) {
        Turn::Cell
    } else {
        Turn::Open
    }
}

// Walks along a list by REST, up to its last node or the empty list.
fn walked(
    alloc: Global,
    graph: &Graph,
    types: &Types,
    paths: &MrsPaths,
    start: Node,
    last: Option<Node>,
) -> Result<Walk, NoMemory>
    requires typed { IsTyped types.now (paths_of paths.now) graph.now }
    requires inside { start.0 < length graph.now.types }
    ensures walked { IfOk result (λ w. (path : NamedPath) → Walks graph.now types.now (paths_of paths.now) (option_map (λ n. n.0) last) (record { node = start.0; path = path }) (walk_end (paths_of paths.now).rest.name path (nodes_of w.cells.items) w.is_whole)) }
    ensures inside { IfOk result (λ w. All (λ n. n.0 < length graph.now.types) w.cells.items) }
{
    let nodes = graph.nodes();
    let mut cells = Vec::new(alloc);
    let mut node = start;
    for turn in 0..nodes {
        match turn_at(graph, types, paths, node, last) {
            Turn::End => return Ok(Walk {
                cells,
                is_whole: true,
            }),
            Turn::Open => return Ok(Walk {
                cells,
                is_whole: false,
            }),
            Turn::Cell => cells.push(node)?,
        }
        let Some(next) = step(graph, node, &paths.rest) else {
            return Ok(Walk {
                cells,
                is_whole: false,
            });
        };
        node = next;
    }
    unreachable!()
}

// The elements of cells, each at FIRST.
fn firsts(
    alloc: Global,
    graph: &Graph,
    paths: &MrsPaths,
    list: &MrsFeat,
    cells: &[Node],
) -> Result<Vec<Node>, NoMrs>
    requires { All (λ n. n.0 < length graph.now.types) cells.now }
    ensures told { Tells (λ v. placed (element_path (paths_of paths.now) (feature_of list.now)) 0 (nodes_of v.items)) (λ out. out ≡ all_there (map (λ c. look graph.now c ((paths_of paths.now).first ∷ [])) (placed (cell_path (paths_of paths.now) (feature_of list.now)) 0 (nodes_of cells.now)))) result }
    ensures inside { IfOk result (λ v. All (λ n. n.0 < length graph.now.types) v.items) }
{
    let mut elements = Vec::with_capacity(alloc, cells.len())?;
    for k in 0..cells.len() {
        let Some(first) = step(graph, cells[k], &paths.first) else {
            return Err(missing_in_list(alloc, paths, list, k, &[&paths.first]));
        };
        elements.push(first)?;
    }
    Ok(elements)
}

// Elements of a list with their parts.
fn with_parts(
    alloc: Global,
    graph: &Graph,
    paths: &MrsPaths,
    feats: &ListFeats<'_>,
    elements: &[Node],
) -> Result<Vec<Element>, NoMrs>
    requires { All (λ n. n.0 < length graph.now.types) elements.now }
    ensures told { Tells (λ v. pairs_of v.items) (λ out. out ≡ pairs_from graph.now (paths_of paths.now) feats.now (nodes_of elements.now)) result }
    ensures inside { IfOk result (λ v. All (IsPairIn (length graph.now.types)) (pairs_of v.items)) }
{
    let mut pairs = Vec::with_capacity(alloc, elements.len())?;
    for k in 0..elements.len() {
        let at = elements[k];
        let Some(first_part) = step(graph, at, feats.one) else {
            return Err(missing_in_list(alloc, paths, feats.list, k, &[&paths.first, feats.one]));
        };
        let Some(second_part) = step(graph, at, feats.two) else {
            return Err(missing_in_list(alloc, paths, feats.list, k, &[&paths.first, feats.two]));
        };
        pairs.push(Element {
            at,
            one: first_part,
            two: second_part,
        })?;
    }
    Ok(pairs)
}

/// The elements of a list of M, each with its two parts.
pub(crate) fn elements(
    alloc: Global,
    graph: &Graph,
    types: &Types,
    paths: &MrsPaths,
    m: Node,
    feats: &ListFeats<'_>,
) -> Result<Vec<Element>, NoMrs>
    requires typed { IsTyped types.now (paths_of paths.now) graph.now }
    requires inside { m.0 < length graph.now.types }
    ensures told { Tells (λ v. pairs_of v.items) (ElementsOf graph.now types.now (paths_of paths.now) m.0 feats.now) result }
    ensures inside { IfOk result (λ v. All (IsPairIn (length graph.now.types)) (pairs_of v.items)) }
{
    let list = feats.list;
    let Some(at) = step(graph, m, list) else {
        return Err(missing_in_mrs(alloc, paths, &[list]));
    };
    let Some(start) = step(graph, at, &paths.diff_list) else {
        return Err(missing_in_mrs(alloc, paths, &[list, &paths.diff_list]));
    };
    let last = step(graph, at, &paths.diff_last);
    let walk = walked(alloc, graph, types, paths, start, last)?;
    if !walk.is_whole {
        return Err(missing_in_list(alloc, paths, list, walk.cells.len(), &[]));
    }
    let elements = firsts(alloc, graph, paths, list, &walk.cells)?;
    with_parts(alloc, graph, paths, feats, &elements)
}

/// The same of a list that M may lack.
pub(crate) fn may_elements(
    alloc: Global,
    graph: &Graph,
    types: &Types,
    paths: &MrsPaths,
    m: Node,
    feats: &ListFeats<'_>,
) -> Result<Vec<Element>, NoMrs>
    requires typed { IsTyped types.now (paths_of paths.now) graph.now }
    requires inside { m.0 < length graph.now.types }
    ensures told { Tells (λ v. pairs_of v.items) (MayElementsOf graph.now types.now (paths_of paths.now) m.0 feats.now) result }
    ensures inside { IfOk result (λ v. All (IsPairIn (length graph.now.types)) (pairs_of v.items)) }
{
    if step(graph, m, feats.list).is_none() {
        return Ok(Vec::new(alloc));
    }
    elements(alloc, graph, types, paths, m, feats)
}
