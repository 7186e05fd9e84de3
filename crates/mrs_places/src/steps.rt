//! Steps from node to node, and types of nodes.

ghost use Rattle.std.specs.Prelude.{◌≡◌, ◌<◌, length, map, option_map, Some, IfSome, Option};
ghost use Rattle.type_hierarchy.specs.Table.{count_of};
ghost use Rattle.fs_graph.specs.GraphMap.{arc_to};
ghost use Rattle.mrs_places.specs.Paths.{feature_of};
ghost use Rattle.mrs_places.specs.Looking.{step, follow, below};

use crate::paths::MrsFeat;
use fs_graph::{Feat, Graph, GraphArc, Node};
use type_hierarchy::{Ty, Types};

// Where the arc with a feature leads.
fn find_arc(arcs: &[GraphArc], feat: Feat) -> Option<Node>
    ensures { option_map (λ n. n.0) result ≡ arc_to arcs.now feat.0 }
{
    arcs.iter().find(|arc| arc.feat == feat).map(|arc| arc.to)
}

/// The node at the end of a node's arc, where the grammar has the feature and the node the arc.
pub fn step(graph: &Graph, n: Node, feat: &MrsFeat) -> Option<Node>
    requires { n.0 < length graph.now.types }
    ensures at { option_map (λ m. m.0) result ≡ step graph.now n.0 (feature_of feat.now) }
    ensures inside { IfSome result (λ m. m.0 < length graph.now.types) }
{
    graph.laws();
    match feat.feat {
        None => None,
        Some(feat) => find_arc(graph.arcs(n), feat),
    }
}

/// The node at a path from a node.
pub(crate) fn follow(graph: &Graph, from: Node, path: &[MrsFeat]) -> Option<Node>
    requires { from.0 < length graph.now.types }
    ensures at { option_map (λ m. m.0) result ≡ follow graph.now (map feature_of path.now) (Some from.0) }
    ensures inside { IfSome result (λ m. m.0 < length graph.now.types) }
{
    let mut node = from;
    for k in 0..path.len() {
        node = step(graph, node, &path[k])?;
    }
    Some(node)
}

/// Whether a type is at or below one of the settings, which the grammar may not have.
pub fn is_below(types: &Types, t: Ty, above: Option<Ty>) -> bool
    requires t_in { t.0 < count_of types.now }
    requires above_in { IfSome above (λ u. u.0 < count_of types.now) }
    ensures { result ≡ below types.now t.0 (option_map (λ u. u.0) above) }
{
    match above {
        None => false,
        Some(above) => types.at_or_below(t, above),
    }
}
