//! Steps of a closing that may bring the graph of a type's constraint: a type that falls, an arc that is followed.

ghost use Rattle.std.specs.Prelude.{◌≡◌, ◌+◌, ◌^◌, ◌<◌, ◌≤◌, length, [], ◌∷◌, IfOk, OnOk, MatchOption, IfSome, true};
ghost use Rattle.type_hierarchy.specs.Table.{count_of, is_below};
ghost use Rattle.fs_model.specs.Claims.{Path, IsBare};
ghost use Rattle.fs_model.specs.Table.{NodeClaim, is_under};
ghost use Rattle.fs_closing.specs.Constraints.{IsConstraint, IsUnderBy};
ghost use Rattle.fs_closing.specs.NodeTable.{table_of, depth_of, IsWhole};
ghost use Rattle.fs_closing.specs.Rules.{system_of};
ghost use Rattle.fs_closing.specs.Work.{work_of};
ghost use Rattle.fs_closing.specs.Keeps.{AreSound, Leads, Clashes, StepsTo, begin};

use crate::NoMemory;
use crate::constraint::Constraint;
use crate::nodes::{Nodes, add_graph, depth_of, first_of, grow, live, ty_of};
use crate::parts::own_count;
use crate::steps::{arc_of, bound, join, lower, meet};
use crate::system::TypeSystem;
use crate::tasks::Tasks;

// Whether a node has no arcs.
fn is_bare(nodes: &Nodes<'_>, n: u32) -> bool
    requires whole { IsWhole nodes.now }
    requires node { n < nodes.now.size }
{
    first_of(nodes, n) == 0 && own_count(&nodes.parts, n) == 0
}

// The constraint that is to stand at a node whose type falls, if it has no arcs yet: that of its new type, or of one above it. Where
// no path may go on from the node, there is none.
fn constraint_for<'a>(
    nodes: &Nodes<'_>,
    system: &'a TypeSystem,
    n: u32,
    ty: u32,
) -> Option<&'a Constraint>
    requires whole { IsWhole nodes.now }
    requires node { n < nodes.now.size }
    requires ty_in { ty < count_of system.now.types }
    ensures is { IfSome result (λ k. (is_below system.now.types ty k.now.ty ≡ true) × IsConstraint system.now k.now.ty k.now.graph) }
    ensures shallow { IfSome result (λ k. depth_of nodes.now n + 1 < 2 ^ 32) }
{
    if !is_bare(nodes, n) || system.rules_above(ty).is_empty() {
        return None;
    }
    if depth_of(nodes, n) >= system.path_limit() {
        return None;
    }
    system.constraint_above(ty)
}

// The graph of a constraint enters, and its root and a node become one, which is put at or below a type then.
fn graft<'a>(
    nodes: &mut Nodes<'a>,
    tasks: &mut Tasks,
    system: &'a TypeSystem,
    node: u32,
    constraint: &'a Constraint,
    ty: u32,
) -> Result<bool, NoMemory>
    requires sound { AreSound system.now nodes.old tasks.old }
    requires node { node < nodes.old.size }
    requires ty_in { ty < count_of system.now.types }
    requires is { IsConstraint system.now constraint.now.ty constraint.now.graph }
    requires shallow { depth_of nodes.old ((table_of nodes.old).live node) + 1 < 2 ^ 32 }
    requires under { IsUnderBy system.now (table_of nodes.old) ((table_of nodes.old).live node) ty constraint.now.ty }
    ensures steps { IfOk result (StepsTo system.now nodes.old (is_under node [] ty ∷ work_of system.now.rules tasks.old) nodes.new tasks.new) }
    ensures more { OnOk result (nodes.old.size ≤ nodes.new.size) }
{
    let n = live(nodes, node);
    let depth = depth_of(nodes, n);
    let graph = constraint.graph.graph();
    graph.laws();
    let root = add_graph(nodes, graph, depth, depth + 1)?;
    match join(nodes, tasks, system, n, root)? {
        true => {
            let ok = bound(nodes, tasks, system, node, ty)?;
            Ok(ok)
        }
        false => Ok(false),
    }
}

/// A node's type is put at or below a type. Where the node has no arcs, the graph of the type's constraint stands there then; else
/// the facts of the types that it comes below become work. The answer is false where the two have no common subtype, or another
/// clash was met.
pub fn put_under<'a>(
    nodes: &mut Nodes<'a>,
    tasks: &mut Tasks,
    system: &'a TypeSystem,
    node: u32,
    ty: u32,
) -> Result<bool, NoMemory>
    requires sound { AreSound system.now nodes.old tasks.old }
    requires node { node < nodes.old.size }
    requires ty_in { ty < count_of system.now.types }
    ensures steps { IfOk result (StepsTo system.now nodes.old (is_under node [] ty ∷ work_of system.now.rules tasks.old) nodes.new tasks.new) }
    ensures more { OnOk result (nodes.old.size ≤ nodes.new.size) }
{
    let n = live(nodes, node);
    let old = ty_of(nodes, n);
    let Some(met) = meet(system, old, ty) else {
        return Ok(false);
    };
    if met == old {
        return Ok(true);
    }
    if let Some(constraint) = constraint_for(nodes, system, n, met) {
        let ok = graft(nodes, tasks, system, node, constraint, ty)?;
        return Ok(ok);
    }
    lower(nodes, tasks, system, n, old, met)?;
    Ok(true)
}

// The node one arc on from a node, which is made where it isn't there.
fn extend<'a>(
    nodes: &mut Nodes<'a>,
    tasks: &mut Tasks,
    system: &'a TypeSystem,
    node: u32,
    feat: u32,
) -> Result<Option<u32>, NoMemory>
    requires bare { IsBare (system_of system.now) }
    requires sound { AreSound system.now nodes.old tasks.old }
    requires node { node < nodes.old.size }
    requires feat_in { feat < length system.now.introducers }
    ensures leads { IfOk result (λ o. MatchOption o ((c : NodeClaim) (p : Path) → Clashes system.now nodes.old (begin node (feat ∷ p) c ∷ work_of system.now.rules tasks.old)) (λ m. (c : NodeClaim) (p : Path) → Leads system.now nodes.old (begin node (feat ∷ p) c ∷ work_of system.now.rules tasks.old) nodes.new (begin m p c ∷ work_of system.now.rules tasks.new))) }
    ensures within { IfOk result (λ o. MatchOption o (Unit {0}) (λ m. m < nodes.new.size)) }
    ensures more { OnOk result (nodes.old.size ≤ nodes.new.size) }
    ensures sound { IfOk result (λ o. MatchOption o (Unit {0}) (λ m. AreSound system.now nodes.new tasks.new)) }
{
    let from = live(nodes, node);
    if let Some(to) = arc_of(nodes, from, feat) {
        return Ok(Some(to));
    }
    let depth = depth_of(nodes, from);
    if depth >= system.path_limit() {
        return Ok(None);
    }
    let introducer = system.introducer(feat);
    let to = grow(nodes, from, feat, 0, depth + 1)?;
    match put_under(nodes, tasks, system, from, introducer)? {
        true => Ok(Some(to)),
        false => Ok(None),
    }
}

/// The node one arc on. Where it isn't there, the node is put under the feature's introducer first, since that mostly brings it; else
/// it is made. `None` where a path gets too long, or the feature can't stand at the node.
pub fn go<'a>(
    nodes: &mut Nodes<'a>,
    tasks: &mut Tasks,
    system: &'a TypeSystem,
    node: u32,
    feat: u32,
) -> Result<Option<u32>, NoMemory>
    requires bare { IsBare (system_of system.now) }
    requires sound { AreSound system.now nodes.old tasks.old }
    requires node { node < nodes.old.size }
    requires feat_in { feat < length system.now.introducers }
    ensures leads { IfOk result (λ o. MatchOption o ((c : NodeClaim) (p : Path) → Clashes system.now nodes.old (begin node (feat ∷ p) c ∷ work_of system.now.rules tasks.old)) (λ m. (c : NodeClaim) (p : Path) → Leads system.now nodes.old (begin node (feat ∷ p) c ∷ work_of system.now.rules tasks.old) nodes.new (begin m p c ∷ work_of system.now.rules tasks.new))) }
    ensures within { IfOk result (λ o. MatchOption o (Unit {0}) (λ m. m < nodes.new.size)) }
    ensures more { OnOk result (nodes.old.size ≤ nodes.new.size) }
    ensures sound { IfOk result (λ o. MatchOption o (Unit {0}) (λ m. AreSound system.now nodes.new tasks.new)) }
{
    let from = live(nodes, node);
    if let Some(to) = arc_of(nodes, from, feat) {
        return Ok(Some(to));
    }
    let introducer = system.introducer(feat);
    match put_under(nodes, tasks, system, node, introducer)? {
        true => {
            let end = extend(nodes, tasks, system, node, feat)?;
            Ok(end)
        }
        false => Ok(None),
    }
}
