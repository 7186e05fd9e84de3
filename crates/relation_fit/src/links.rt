//! How the lists of a rule and of its daughters follow one another.

ghost use Rattle.std.specs.Prelude.{◌≡◌, ◌++◌, true, map, Some, IfOk, IfSome};
ghost use Rattle.fs_graph.specs.GraphMap.{node_at, reader_of};
ghost use Rattle.fs_model.specs.Closure.{Closure};
ghost use Rattle.fs_model.specs.Sources.{Told};
ghost use Rattle.fs_graph.specs.Facts.{path_of};
ghost use Rattle.tree_model.specs.Views.{Shows};
ghost use Rattle.tree_model.specs.Mothers.{Rule, RuleSystem};
ghost use Rattle.generate_model.specs.Embedding.{moved_to};
ghost use Rattle.generate_model.specs.Threading.{IsThreading};
ghost use Rattle.relation_fit.specs.Lists.{list_seen, places_seen};
ghost use Rattle.relation_fit.specs.Inner.Links.{open_seen, BeginsAt};

use crate::NoMemory;
use crate::list::RelationList;
use fs_graph::{Feat, Graph, Node};
use std::alloc::Global;

// A daughter's list, by paths from her mother's root.
#[derive(Drop)]
struct DaughterList {
    start: Vec<Feat>,
    end: Vec<Feat>,
}

// A path from a place.
fn moved(alloc: Global, place: &[Feat], path: &[Feat]) -> Result<Vec<Feat>, NoMemory>
    ensures { IfOk result (λ v. path_of v.items ≡ path_of place.now ++ path_of path.now) }
{
    let mut whole = Vec::from_slice(alloc, place)?;
    whole.extend_from_slice(path)?;
    Ok(whole)
}

// The lists of daughters at these places.
fn daughter_lists(
    alloc: Global,
    list: &RelationList,
    places: &[Vec<Feat>],
) -> Result<Vec<DaughterList>, NoMemory>
    ensures { IfOk result (λ v. map open_seen v.items ≡ map (λ p. moved_to p (list_seen list.now).ends) (places_seen places.now)) }
{
    let mut lists = Vec::new(alloc);
    for k in 0..places.len() {
        lists.push(DaughterList {
            start: moved(alloc, &places[k], &list.start)?,
            end: moved(alloc, &places[k], &list.end)?,
        })?;
    }
    Ok(lists)
}

// Whether a node is seen to stand at a path.
fn stands_at(graph: &Graph, path: &[Feat], node: Node) -> bool
    ensures { result ≡ true → node_at graph.now (path_of path.now) ≡ Some node.0 }
{
    match graph.at(path) {
        Some(there) => there.0 == node.0,
        None => false,
    }
}

// The first of some lists that begins at a node.
fn beginning_at(graph: &Graph, lists: &[DaughterList], node: Node) -> Option<usize>
    ensures { IfSome result (BeginsAt graph.now (map open_seen lists.now) node.0) }
{
    for k in 0..lists.len() {
        if stands_at(graph, &lists[k].start, node) {
            return Some(k);
        }
    }
    None
}

/// Whether a rule is seen to append the lists of its daughters, each of them, between the beginning and the end of its own, by its own structure:
/// from where the mother's list begins the walk goes on at a daughter's end wherever her list begins, and otherwise from a cell to the next, until
/// it comes to the mother's end. Where it is false nothing is said.
pub fn threads(
    alloc: Global,
    graph: &Graph,
    list: &RelationList,
    places: &[Vec<Feat>],
) -> Result<bool, NoMemory>
    ensures { IfOk result (λ yes. yes ≡ true → (g : RuleSystem) (rule : Rule) → rule.places ≡ places_seen places.now → Shows g.system (Closure g.system (Told rule.facts)) (reader_of graph.now) → IsThreading g (list_seen list.now).rest (list_seen list.now).ends rule) }
{
    let mut left = daughter_lists(alloc, list, places)?;
    let mut path = Vec::from_slice(alloc, &list.start)?;
    let most = (graph.nodes() as usize).saturating_add(places.len());
    for _turn in 0..most {
        let Some(node) = graph.at(&path) else {
            return Ok(false);
        };
        if let Some(k) = beginning_at(graph, &left, node) {
            let taken = left.remove(k);
            path = taken.end;
        } else if left.is_empty() && stands_at(graph, &list.end, node) {
            return Ok(true);
        } else {
            path.push(list.rest)?;
        }
    }
    Ok(false)
}
