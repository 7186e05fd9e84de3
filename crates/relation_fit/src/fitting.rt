//! Elements of structures that fit no elementary predication.

ghost use Rattle.std.specs.Prelude.{◌≡◌, ◌<◌, ◌&&◌, ◌∷◌, nat_lt, true, false, All, length, option_map, IfSome};
ghost use Rattle.std.specs.List.{list_any, list_all};
ghost use Rattle.chart_model.specs.declared.counts.Counts.{Counts as CountsOf};
ghost use Rattle.type_hierarchy.specs.Table.{count_of};
ghost use Rattle.fs_graph.specs.Facts.{path_of};
ghost use Rattle.fs_model.specs.Table.{walk};
ghost use Rattle.fs_graph.specs.GraphMap.{reader_of, table_of, type_at};
ghost use Rattle.tree_model.specs.Structures.{Structure};
ghost use Rattle.tree_model.specs.Mothers.{Meant};
ghost use Rattle.tree_model.specs.Signs.{Signs, rule_system};
ghost use Rattle.generate_model.specs.Threading.{Hopeless};
ghost use Rattle.generate_model.specs.Contributions.{Input, Means};
ghost use Rattle.mrs_places.specs.Paths.{paths_of};
ghost use Rattle.mrs_extract.specs.Asked.{ArePaths};
ghost use Rattle.relation_fit.specs.Lists.{list_seen};
ghost use Rattle.relation_fit.specs.Fits.{IsAskedOf, IsPartOf};
ghost use Rattle.relation_fit.specs.Sought.{AreSought};
ghost use Rattle.relation_fit.specs.Tests.{is_under, may_be, prop_fits, value_fits, role_fits, pred_fits, ep_fits, cell_fits, misfits, has_misfit};

use crate::cells::next;
use crate::list::RelationList;
use crate::seeking::{Named, Sought, SoughtEp, SoughtProp, SoughtRole, SoughtValue};
use fs_graph::{Feat, Graph, Node};
use mrs_places::{MrsPaths, step};
use type_hierarchy::{Ty, Types};

// Whether a type is one of the grammar and at or below another.
fn is_under(types: &Types, t: Ty, above: Ty) -> bool
    requires { above.0 < count_of types.now }
    ensures { result ≡ is_under types.now t.0 above.0 }
{
    t.0 < types.counts().all && types.at_or_below(t, above)
}

// Whether one of some types is at or below a type.
fn has_under(types: &Types, named: &[Ty], t: Ty) -> bool
    requires { t.0 < count_of types.now }
    ensures { result ≡ list_any (λ u. is_under types.now u.0 t.0) named.now }
{
    for k in 0..named.len() {
        if is_under(types, named[k], t) {
            return true;
        }
    }
    false
}

// Whether a node of this type may yet get one of these types.
fn may_be(types: &Types, named: &Named, t: Ty) -> bool
    requires { t.0 < count_of types.now }
    ensures { result ≡ may_be types.now named.now t.0 }
{
    named.any || has_under(types, &named.types, t)
}

// The type of a node, which is one of the grammar.
fn type_of(types: &Types, graph: &Graph, node: Node) -> Ty
    requires typed { All (λ t. t < count_of types.now) graph.now.types }
    requires inside { node.0 < length graph.now.types }
    ensures is { result.0 ≡ type_at graph.now node.0 }
    ensures typed { result.0 < count_of types.now }
{
    graph.ty(node)
}

// The node at a path from a node.
fn follow(graph: &Graph, from: Node, path: &[Feat]) -> Option<Node>
    requires { from.0 < length graph.now.types }
    ensures at { option_map (λ n. n.0) result ≡ walk (table_of graph.now) from.0 (path_of path.now) }
    ensures inside { IfSome result (λ n. n.0 < length graph.now.types) }
{
    let mut node = from;
    for k in 0..path.len() {
        let Some(to) = next(graph, node, path[k]) else {
            return None;
        };
        node = to;
    }
    Some(node)
}

// Whether a node's property may yet be one.
fn prop_fits(types: &Types, graph: &Graph, node: Node, prop: &SoughtProp) -> bool
    requires typed { All (λ t. t < count_of types.now) graph.now.types }
    requires inside { node.0 < length graph.now.types }
    ensures { result ≡ prop_fits types.now graph.now node.0 prop.now }
{
    match follow(graph, node, &prop.path) {
        None => true,
        Some(end) => {
            graph.arcs(end).is_empty() && may_be(types, &prop.value, type_of(types, graph, end))
        }
    }
}

// Whether each of a node's properties may.
fn props_fit(types: &Types, graph: &Graph, node: Node, props: &[SoughtProp]) -> bool
    requires typed { All (λ t. t < count_of types.now) graph.now.types }
    requires inside { node.0 < length graph.now.types }
    ensures { result ≡ list_all (prop_fits types.now graph.now node.0) props.now }
{
    for k in 0..props.len() {
        if !prop_fits(types, graph, node, &props[k]) {
            return false;
        }
    }
    true
}

// Whether a node may yet be what fills a role.
fn value_fits(types: &Types, graph: &Graph, node: Node, value: &SoughtValue) -> bool
    requires typed { All (λ t. t < count_of types.now) graph.now.types }
    requires inside { node.0 < length graph.now.types }
    ensures { result ≡ value_fits types.now graph.now node.0 value.now }
{
    match value {
        SoughtValue::Text(named) => may_be(types, named, type_of(types, graph, node)),
        SoughtValue::Var(props) => {
            graph.ty(node).0 < types.counts().completed && props_fit(types, graph, node, props)
        }
    }
}

// Whether an element's role, where it has it, may yet be filled so.
fn role_fits(types: &Types, graph: &Graph, node: Node, role: &SoughtRole) -> bool
    requires typed { All (λ t. t < count_of types.now) graph.now.types }
    requires inside { node.0 < length graph.now.types }
    ensures { result ≡ role_fits types.now graph.now node.0 role.now }
{
    match next(graph, node, role.feat) {
        None => true,
        Some(to) => value_fits(types, graph, to, &role.value),
    }
}

// Whether each of an element's roles may.
fn roles_fit(types: &Types, graph: &Graph, node: Node, roles: &[SoughtRole]) -> bool
    requires typed { All (λ t. t < count_of types.now) graph.now.types }
    requires inside { node.0 < length graph.now.types }
    ensures { result ≡ list_all (role_fits types.now graph.now node.0) roles.now }
{
    for k in 0..roles.len() {
        if !role_fits(types, graph, node, &roles[k]) {
            return false;
        }
    }
    true
}

// Whether the node of a predicate, where it is there, may yet get its name.
fn pred_fits(types: &Types, graph: &Graph, at: Option<Node>, pred: &Named) -> bool
    requires typed { All (λ t. t < count_of types.now) graph.now.types }
    requires inside { IfSome at (λ n. n.0 < length graph.now.types) }
    ensures { result ≡ pred_fits types.now graph.now pred.now (option_map (λ n. n.0) at) }
{
    match at {
        None => true,
        Some(node) => may_be(types, pred, type_of(types, graph, node)),
    }
}

// Whether an element may yet be an elementary predication.
fn ep_fits(types: &Types, graph: &Graph, paths: &MrsPaths, node: Node, ep: &SoughtEp) -> bool
    requires typed { All (λ t. t < count_of types.now) graph.now.types }
    requires inside { node.0 < length graph.now.types }
    ensures { result ≡ ep_fits types.now graph.now (paths_of paths.now) node.0 ep.now }
{
    let at = step(graph, node, &paths.pred);
    pred_fits(types, graph, at, &ep.pred) && roles_fit(types, graph, node, &ep.roles)
}

// Whether it may be one of some.
fn fits_some(types: &Types, graph: &Graph, paths: &MrsPaths, node: Node, eps: &[SoughtEp]) -> bool
    requires typed { All (λ t. t < count_of types.now) graph.now.types }
    requires inside { node.0 < length graph.now.types }
    ensures { result ≡ list_any (ep_fits types.now graph.now (paths_of paths.now) node.0) eps.now }
{
    for k in 0..eps.len() {
        if ep_fits(types, graph, paths, node, &eps[k]) {
            return true;
        }
    }
    false
}

// Whether the element of a cell may.
fn cell_fits(types: &Types, graph: &Graph, paths: &MrsPaths, cell: Node, eps: &[SoughtEp]) -> bool
    requires typed { All (λ t. t < count_of types.now) graph.now.types }
    requires inside { cell.0 < length graph.now.types }
    ensures { result ≡ cell_fits types.now graph.now (paths_of paths.now) eps.now cell.0 }
{
    match step(graph, cell, &paths.first) {
        None => true,
        Some(element) => fits_some(types, graph, paths, element, eps),
    }
}

// Whether the end is reached from a cell, and the element of some cell on the way fits none.
fn misfits(
    types: &Types,
    graph: &Graph,
    paths: &MrsPaths,
    eps: &[SoughtEp],
    rest: Feat,
    start: Node,
    end: Node,
) -> bool
    requires typed { All (λ t. t < count_of types.now) graph.now.types }
    requires inside { start.0 < length graph.now.types }
    ensures { result ≡ misfits types.now graph.now (paths_of paths.now) eps.now rest.0 end.0 (length graph.now.types) start.0 false }
{
    let mut node = start;
    let mut seen = false;
    for _turn in 0..graph.nodes() {
        if node.0 == end.0 {
            return seen;
        }
        let Some(to) = next(graph, node, rest) else {
            return false;
        };
        seen = seen || !cell_fits(types, graph, paths, node, eps);
        node = to;
    }
    false
}

/// Whether a structure's list of relations reaches its end and has an element that fits no elementary predication: then no structure that
/// holds its elements, as they are or more specific, means what is asked for. It takes no memory.
///
/// An element fits one where its predicate may yet get the name, each role that it has may yet be the text or the variable, and each
/// property of that variable, where its path is there, may yet have the value. A graph says no more than what the structure means; that
/// of a full structure, which lacks daughters, is enough.
pub fn has_misfit(
    types: &Types,
    graph: &Graph,
    list: &RelationList,
    paths: &MrsPaths,
    sought: &Sought,
) -> bool
    requires typed { All (λ t. t < count_of types.now) graph.now.types }
    ensures is { result ≡ has_misfit types.now graph.now (paths_of paths.now) sought.now.eps.items (list_seen list.now) }
    ensures hopeless { result ≡ true → (g : Signs) (input : Input) (f : Structure) → IsAskedOf g input (list_seen list.now) → input.types ≡ types.now → input.paths ≡ paths_of paths.now → ArePaths input.types input.paths →
        AreSought input.types input.paths input.meaning sought.now.eps.items → IsPartOf (Meant (rule_system g) f) (reader_of graph.now) → Hopeless {C = CountsOf} (rule_system g) (list_seen list.now).rest (list_seen list.now).ends (λ u c. Means g input u) f }
{
    graph.laws();
    let Some(end) = graph.at(&list.end) else {
        return false;
    };
    let Some(start) = graph.at(&list.start) else {
        return false;
    };
    misfits(types, graph, paths, &sought.eps, list.rest, start, end)
}
