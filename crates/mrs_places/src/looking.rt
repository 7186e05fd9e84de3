//! What a structure has of an MRS.

ghost use Rattle.std.specs.Prelude.{◌≡◌, ◌<◌, ◌++◌, IfOk, length, map};
ghost use Rattle.mrs_places.specs.Paths.{paths_of, feature_of};
ghost use Rattle.mrs_places.specs.Looking.{Place, IsAt, LooksAtLists, Looks, names, root};
ghost use Rattle.mrs_places.specs.Asked.{IsTyped};
ghost use Rattle.mrs_places.specs.Faults.{Tells};
ghost use Rattle.mrs_places.specs.Inner.Walked.{mrs_place};
ghost use Rattle.mrs_places.specs.Places.{parts_of, ArePartsIn};

use crate::lists::{Element, ListFeats, elements, may_elements};
use crate::missing::missing_after;
use crate::paths::{MrsFeat, MrsPaths, NoMrs};
use crate::steps::follow;
use fs_graph::{Graph, Node};
use std::alloc::Global;
use type_hierarchy::Types;

/// The nodes that an MRS is made of.
#[derive(Drop)]
pub struct Found {
    pub top: Node,
    pub index: Node,
    pub rels: Vec<Element>,
    pub hcons: Vec<Element>,
    pub icons: Vec<Element>,
}

// M, the node at which the MRS stands.
fn mrs_at(alloc: Global, graph: &Graph, paths: &MrsPaths) -> Result<Node, NoMrs>
    ensures told { Tells (λ m. mrs_place (paths_of paths.now) m.0) (IsAt graph.now root (paths_of paths.now).mrs_path) result }
    ensures inside { IfOk result (λ m. m.0 < length graph.now.types) }
{
    graph.laws();
    match follow(graph, Node(0), &paths.mrs_path) {
        Some(m) => Ok(m),
        None => Err(missing_after(alloc, &[], &paths.mrs_path)),
    }
}

// The node at a path from M.
fn part_at(
    alloc: Global,
    graph: &Graph,
    paths: &MrsPaths,
    m: Node,
    path: &[MrsFeat],
) -> Result<Node, NoMrs>
    requires { m.0 < length graph.now.types }
    ensures told { Tells (λ n. record { node = n.0; path = names (paths_of paths.now).mrs_path ++ names (map feature_of path.now) }) (IsAt graph.now (mrs_place (paths_of paths.now) m.0) (map feature_of path.now)) result }
    ensures inside { IfOk result (λ n. n.0 < length graph.now.types) }
{
    match follow(graph, m, path) {
        Some(part) => Ok(part),
        None => Err(missing_after(alloc, &paths.mrs_path, path)),
    }
}

// The lists of M, once its top and its index are found.
fn lists_at(
    alloc: Global,
    graph: &Graph,
    types: &Types,
    paths: &MrsPaths,
    m: Node,
    top: Node,
    index: Node,
) -> Result<Found, NoMrs>
    requires typed { IsTyped types.now (paths_of paths.now) graph.now }
    requires m { m.0 < length graph.now.types }
    requires top { top.0 < length graph.now.types }
    requires index { index.0 < length graph.now.types }
    ensures told { (t i : Place) → t.node ≡ top.0 → i.node ≡ index.0 → Tells parts_of (LooksAtLists graph.now types.now (paths_of paths.now) (mrs_place (paths_of paths.now) m.0) t i) result }
    ensures inside { IfOk result (λ f. ArePartsIn (length graph.now.types) (parts_of f)) }
{
    let feats = ListFeats {
        list: &paths.rels,
        one: &paths.pred,
        two: &paths.lbl,
    };
    let rels = elements(alloc, graph, types, paths, m, &feats)?;
    let feats = ListFeats {
        list: &paths.hcons,
        one: &paths.harg,
        two: &paths.larg,
    };
    let hcons = elements(alloc, graph, types, paths, m, &feats)?;
    let feats = ListFeats {
        list: &paths.icons,
        one: &paths.iarg1,
        two: &paths.iarg2,
    };
    let icons = may_elements(alloc, graph, types, paths, m, &feats)?;
    Ok(Found {
        top,
        index,
        rels,
        hcons,
        icons,
    })
}

/// The nodes that the MRS of a structure is made of, or the first path whose node or form is absent (Copestake, Flickinger, Pollard and
/// Sag 2005).
///
/// The order of looking: M, its top, its index; then RELS, HCONS and ICONS. Each list is walked whole, to the node that it names as its last
/// or to an empty list; then each cell must have an element, and then each element its two parts: predicate and label of a relation,
/// the two variables of a constraint. A structure without ICONS has no individual constraints.
pub fn look(alloc: Global, graph: &Graph, types: &Types, paths: &MrsPaths) -> Result<Found, NoMrs>
    requires { IsTyped types.now (paths_of paths.now) graph.now }
    ensures told { Tells parts_of (Looks graph.now types.now (paths_of paths.now)) result }
    ensures inside { IfOk result (λ f. ArePartsIn (length graph.now.types) (parts_of f)) }
{
    let m = mrs_at(alloc, graph, paths)?;
    let top = part_at(alloc, graph, paths, m, &paths.ltop_path)?;
    let index = part_at(alloc, graph, paths, m, &paths.index_path)?;
    lists_at(alloc, graph, types, paths, m, top, index)
}
