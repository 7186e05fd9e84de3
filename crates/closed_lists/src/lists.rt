//! Closed lists in structures (Copestake 2002: lists as types).

ghost use Rattle.std.specs.Prelude.{◌≡◌, ◌<◌, ◌≤◌, ◌↔◌, ℕ, length, map, option_map, Some, Option, IfOk, IfSome, IsTrue};
ghost use Rattle.type_hierarchy.specs.Table.{count_of};
ghost use Rattle.fs_graph.specs.GraphMap.{arc_to};
ghost use Rattle.fs_graph.specs.Facts.{path_of};
ghost use Rattle.closed_lists.specs.Lists.{IsAtOrBelow, arc_named, IsListAt};
ghost use Rattle.closed_lists.specs.Names.{names_of, IsReadable};
ghost use Rattle.closed_lists.specs.Inner.Walked.{IsReached, IsStep, AreElements, IsKnownPath};

use crate::names::ListNames;
use fs_graph::{Feat, Graph, GraphArc, Node};
use lexicon::NoMemory;
use std::alloc::Global;
use type_hierarchy::{Ty, Types};

/// What a node is to a list: its end, no list, or a cell with an item and the rest of the list.
pub(crate) enum Step {
    End,
    Open,
    Item { first: Node, rest: Node },
}

// Whether a type is at or below one that the grammar has.
fn is_at_or_below(types: &Types, t: Ty, above: Option<Ty>) -> bool
    requires t_in { t.0 < count_of types.now }
    requires above_in { IfSome above (λ s. s.0 < count_of types.now) }
    ensures { IsTrue result ↔ IsAtOrBelow types.now t.0 (option_map (λ s. s.0) above) }
{
    match above {
        None => false,
        Some(above) => types.at_or_below(t, above),
    }
}

// Where the arc with a feature leads.
fn find_arc(arcs: &[GraphArc], feat: Feat) -> Option<Node>
    ensures { option_map (λ n. n.0) result ≡ arc_to arcs.now feat.0 }
{
    arcs.iter().find(|arc| arc.feat == feat).map(|arc| arc.to)
}

// Where the arc with a feature that the grammar has leads.
fn arc_named(graph: &Graph, n: Node, feat: Option<Feat>) -> Option<Node>
    requires { n.0 < length graph.now.types }
    ensures { option_map (λ m. m.0) result ≡ arc_named graph.now n.0 (option_map (λ f. f.0) feat) }
{
    match feat {
        None => None,
        Some(feat) => find_arc(graph.arcs(n), feat),
    }
}

// What a node is to a list.
fn step_at(types: &Types, names: &ListNames, graph: &Graph, n: Node, limit: u32) -> Step
    requires readable { IsReadable types.now (names_of names.now) limit graph.now }
    requires inside { n.0 < length graph.now.types }
    ensures { IsStep types.now (names_of names.now) graph.now n.0 result }
{
    let ty = graph.ty(n);
    if is_at_or_below(types, ty, names.null) {
        return Step::End;
    }
    if !is_at_or_below(types, ty, names.cons) {
        return Step::Open;
    }
    let Some(first) = arc_named(graph, n, names.first) else {
        return Step::Open;
    };
    let Some(rest) = arc_named(graph, n, names.rest) else {
        return Step::Open;
    };
    Step::Item { first, rest }
}

// The elements of the list at a node to which a path leads, where it is closed.
fn elements(
    alloc: Global,
    types: &Types,
    names: &ListNames,
    graph: &Graph,
    start: Node,
    limit: u32,
) -> Result<Option<Vec<Node>>, NoMemory>
    requires readable { IsReadable types.now (names_of names.now) limit graph.now }
    requires reached { IsReached graph.now start.0 0 }
    ensures { IfOk result (λ o. AreElements types.now (names_of names.now) graph.now start.0 (option_map (λ v. map (λ n. n.0) v.items) o)) }
{
    graph.laws();
    let mut out = Vec::new(alloc);
    let mut node = start;
    for turn in 0..limit as usize + 1 {
        match step_at(types, names, graph, node, limit) {
            Step::End => return Ok(Some(out)),
            Step::Open => return Ok(None),
            Step::Item { first, rest } => {
                out.push(first)?;
                node = rest;
            }
        }
    }
    unreachable!()
}

// A path whose features the grammar has.
fn known_path(alloc: Global, path: &[Option<Feat>]) -> Result<Option<Vec<Feat>>, NoMemory>
    ensures { IfOk result (λ o. IsKnownPath (map (option_map (λ f. f.0)) path.now) (option_map (λ v. path_of v.items) o)) }
{
    let mut known = Vec::new(alloc);
    for feat in path {
        match feat {
            None => return Ok(None),
            Some(feat) => known.push(*feat)?,
        }
    }
    Ok(Some(known))
}

/// The elements of the closed list at a path from the root, and `None` exactly where there is no such list.
///
/// The node at the path, where it is at or below the null type, ends the list; otherwise it must be at or below the cons
/// type and have a first item and a rest. A path with a feature that the grammar doesn't have leads nowhere. No path of the
/// graph is longer than the limit.
pub fn list_at(
    alloc: Global,
    types: &Types,
    names: &ListNames,
    graph: &Graph,
    path: &[Option<Feat>],
    limit: u32,
) -> Result<Option<Vec<Node>>, NoMemory>
    requires { IsReadable types.now (names_of names.now) limit graph.now }
    ensures { IfOk result (λ o. IsListAt types.now (names_of names.now) graph.now (map (option_map (λ f. f.0)) path.now) (option_map (λ v. map (λ n. n.0) v.items) o)) }
{
    let Some(known) = known_path(alloc, path)? else {
        return Ok(None);
    };
    let Some(start) = graph.at(&known) else {
        return Ok(None);
    };
    let found = elements(alloc, types, names, graph, start, limit)?;
    Ok(found)
}
