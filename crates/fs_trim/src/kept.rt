//! What a cut keeps of a graph.

ghost use Rattle.std.specs.Prelude.{◌≡◌, ◌++◌, ℕ, length, IfOk, OnOk};
ghost use Rattle.fs_model.specs.Claims.{System};
ghost use Rattle.fs_graph.specs.Facts.{path_of};
ghost use Rattle.fs_graph.specs.GraphMap.{reader_of};
ghost use Rattle.fs_closing.specs.Rules.{Grammar};
ghost use Rattle.fs_unify.specs.Entering.{IsGraphIn, IsWellFormed};
ghost use Rattle.fs_unify.specs.Owing.{IsWellFormedBut};
ghost use Rattle.tree_model.specs.Cuts.{has_feature};
ghost use Rattle.tree_model.specs.Views.{IsKeptOf};
ghost use Rattle.fs_trim.specs.Cutting.{cut_of, owed_of, IsShort};
ghost use Rattle.fs_trim.specs.Inner.Rows.{leaves, left, IsCutPlan};

use crate::Cut;
use fs_graph::{Clash, Feat, Graph, GraphArc, Node, ordered};
use fs_unify::NoMemory;
use std::alloc::Global;
use type_hierarchy::Ty;

// The nodes of a graph, with the arcs that a cut leaves in rows.
#[derive(Drop)]
struct Rows {
    types: Vec<Ty>,
    starts: Vec<u32>,
    arcs: Vec<GraphArc>,
}

// Whether a feature is one of these, which are few.
fn has(feats: &[Feat], feat: Feat) -> bool
    ensures { result ≡ has_feature (path_of feats.now) feat.0 }
{
    feats.contains(&feat)
}

// Whether an arc with this feature is left, of the root or of another node.
fn is_left(cut: &Cut, is_root: bool, feat: Feat) -> bool
    ensures { result ≡ leaves (cut_of cut.now) is_root feat.0 }
{
    if is_root && has(&cut.at_root, feat) {
        return false;
    }
    !has(&cut.anywhere, feat)
}

// Adds the arcs of a node that are left.
fn push_left(
    arcs: &mut Vec<GraphArc>,
    row: &[GraphArc],
    cut: &Cut,
    is_root: bool,
) -> Result<(), NoMemory>
    ensures { OnOk result (arcs.new.items ≡ arcs.old.items ++ left (cut_of cut.now) is_root row.now) }
{
    for arc in row {
        if is_left(cut, is_root, arc.feat) {
            arcs.push(*arc)?;
        }
    }
    Ok(())
}

// The place of the next arc, where a u32 holds it.
fn place(arcs: &Vec<GraphArc>) -> Result<u32, NoMemory>
    ensures { IfOk result (λ n. n ≡ length arcs.now.items) }
{
    u32::try_from(arcs.len()).map_err(|_| NoMemory)
}

// All nodes, with the arcs that are left. Few nodes have more than one arc that leads to them, so there is room for as many
// arcs as nodes at first.
fn rows_of(alloc: Global, graph: &Graph, cut: &Cut) -> Result<Rows, NoMemory>
    ensures { IfOk result (λ r. IsCutPlan (cut_of cut.now) graph.now r.types.items r.starts.items r.arcs.items) }
{
    let nodes = graph.nodes();
    let mut types = Vec::with_capacity(alloc, nodes as usize)?;
    let mut starts = Vec::with_capacity(alloc, nodes as usize + 1)?;
    let mut arcs = Vec::with_capacity(alloc, nodes as usize)?;
    for n in 0..nodes {
        types.push(graph.ty(Node(n)))?;
        starts.push(place(&arcs)?)?;
        push_left(&mut arcs, graph.arcs(Node(n)), cut, n == 0)?;
    }
    starts.push(place(&arcs)?)?;
    Ok(Rows {
        types,
        starts,
        arcs,
    })
}

/// What a cut keeps of a graph: its paths that don't begin with a feature that is cut off at the root and hold none that is
/// cut off anywhere, with their equalities and types. Where the cut cuts nothing off, this is the same structure. What is in
/// range stays so, and no path gets longer. What was well-formed owes only facts that speak of features which are cut off.
/// `NoMemory` comes only for want of memory, or of numbers for arcs.
pub fn keep(alloc: Global, graph: &Graph, cut: &Cut) -> Result<Graph, NoMemory>
    ensures kept { IfOk result (λ k. IsKeptOf (cut_of cut.now) (reader_of graph.now) (reader_of k)) }
    ensures inside { IfOk result (λ k. (types feats : ℕ) → IsGraphIn types feats graph.now → IsGraphIn types feats k) }
    ensures short { IfOk result (λ k. (system : Grammar) → IsShort system graph.now → IsShort system k) }
    ensures owes { IfOk result (λ k. (s : System) → IsWellFormed s (reader_of graph.now) → IsWellFormedBut s (reader_of k) (owed_of (cut_of cut.now))) }
{
    graph.laws();
    let rows = rows_of(alloc, graph, cut)?;
    match ordered(alloc, &rows.types, &rows.starts, &rows.arcs) {
        Ok(kept) => {
            kept.laws();
            Ok(kept)
        }
        // With fewer arcs no node reaches itself either.
        Err(Clash::Cycle { node: _ }) => unreachable!(),
        Err(Clash::NoMemory) => Err(NoMemory),
    }
}
