//! The cells of a structure's list of relations.

ghost use Rattle.std.specs.Prelude.{◌≡◌, ◌<◌, true, length, option_map, IfOk, IfSome};
ghost use Rattle.fs_graph.specs.GraphMap.{arc_to, arcs_at, reader_of};
ghost use Rattle.tree_model.specs.Structures.{Structure};
ghost use Rattle.tree_model.specs.Mothers.{RuleSystem, Meant};
ghost use Rattle.generate_model.specs.Threading.{Fit};
ghost use Rattle.relation_fit.specs.Fits.{IsPartOf};
ghost use Rattle.relation_fit.specs.Lists.{list_seen};
ghost use Rattle.relation_fit.specs.Inner.Cells.{AreCells, nodes_of};

use crate::NoMemory;
use crate::list::RelationList;
use fs_graph::{Feat, Graph, GraphArc, Node};
use std::alloc::Global;

// Where the arc with a feature leads.
fn find_arc(arcs: &[GraphArc], feat: Feat) -> Option<Node>
    ensures { option_map (λ n. n.0) result ≡ arc_to arcs.now feat.0 }
{
    arcs.iter().find(|arc| arc.feat == feat).map(|arc| arc.to)
}

/// Where the arc of a node with a feature leads.
pub(crate) fn next(graph: &Graph, node: Node, feat: Feat) -> Option<Node>
    requires { node.0 < length graph.now.types }
    ensures at { option_map (λ n. n.0) result ≡ arc_to (arcs_at graph.now node.0) feat.0 }
    ensures inside { IfSome result (λ n. n.0 < length graph.now.types) }
{
    graph.laws();
    find_arc(graph.arcs(node), feat)
}

/// The cells of the list, where its end is reached from its beginning.
pub(crate) fn cells(
    alloc: Global,
    graph: &Graph,
    list: &RelationList,
) -> Result<Option<Vec<Node>>, NoMemory>
    ensures { IfOk result (λ o. IfSome o (λ v. AreCells graph.now (list_seen list.now) (nodes_of v.items))) }
{
    let Some(end) = graph.at(&list.end) else {
        return Ok(None);
    };
    let Some(mut node) = graph.at(&list.start) else {
        return Ok(None);
    };
    let mut cells = Vec::new(alloc);
    for _turn in 0..graph.nodes() {
        if node.0 == end.0 {
            return Ok(Some(cells));
        }
        cells.push(node)?;
        let Some(to) = next(graph, node, list.rest) else {
            return Ok(None);
        };
        node = to;
    }
    Ok(None)
}

/// Whether the list of a structure reaches its end, as that of each leaf is to. The graph says no more than what the structure means.
pub fn reaches(alloc: Global, graph: &Graph, list: &RelationList) -> Result<bool, NoMemory>
    ensures { IfOk result (λ yes. yes ≡ true → (g : RuleSystem) (f : Structure) → IsPartOf (Meant g f) (reader_of graph.now) → Fit g (list_seen list.now).rest (list_seen list.now).ends f) }
{
    let found = cells(alloc, graph, list)?;
    Ok(found.is_some())
}
