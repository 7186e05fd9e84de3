//! What a node owes at or below a type, as a graph that may enter there.

ghost use Rattle.std.specs.Prelude.{◌≡◌, ℕ, ◌+◌, ◌<◌, ◌++◌, ◌⊎◌, true, false, length, IfOk, IfSome, OnOk};
ghost use Rattle.fs_model.specs.Claims.{Has};
ghost use Rattle.fs_graph.specs.Facts.{path_of};
ghost use Rattle.fs_graph.specs.declared.graph.GraphArc.{GraphArc};
ghost use Rattle.fs_graph.specs.GraphMap.{arcs_at};
ghost use Rattle.fs_closing.specs.Constraints.{IsConstraint};
ghost use Rattle.fs_closing.specs.NodeSteps.{IsGraphIn};
ghost use Rattle.type_hierarchy.specs.Table.{count_of, is_below};
ghost use Rattle.fs_unify.specs.Debts.{HaveBounds, Pays};
ghost use Rattle.fs_unify.specs.Owing.{speaks_of};
ghost use Rattle.fs_unify.specs.Inner.Hanging.{marked, cuts, kept_row, kept_type, IsClosedArc, AreClosed, IsKeptPlan, IsKeptGraph};

use fs_closing::NoMemory;
use fs_closing::constraint::Constraint;
use fs_closing::system::TypeSystem;
use fs_closing::tasks::Bound;
use fs_drawing::draw::{Off, has};
use fs_graph::{Clash, Feat, Graph, GraphArc, Node, ordered};
use std::alloc::Global;
use type_hierarchy::Ty;

/// What a node owes at or below a type, as a graph whose root it becomes: all that the type's constraint has where a feature is
/// cut off, and what leads there. Nodes that only lead there have the top type, so `bounds` has the introducers of their arcs.
#[derive(Drop)]
pub struct Debt {
    pub graph: Graph,
    pub bounds: Vec<Bound>,
}

// Nodes of a constraint: those that hang on a feature which is cut off, and those that lead to one, as far as is known.
#[derive(Drop)]
struct Hanging {
    hang: Vec<bool>,
    lead: Vec<bool>,
}

// The nodes of a graph with what is kept of them, their arcs in rows.
#[derive(Drop)]
struct Rows {
    types: Vec<Ty>,
    starts: Vec<u32>,
    arcs: Vec<GraphArc>,
}

// Whether a node is marked.
fn marked(marks: &[bool], n: u32) -> bool
    ensures { result ≡ marked marks.now n }
{
    match marks.get(n as usize) {
        Some(mark) => *mark,
        None => false,
    }
}

// Marks a node. The answer is whether that is new.
fn mark(marks: &mut [bool], n: u32) -> bool {
    let place = n as usize;
    if place >= marks.len() || marks[place] {
        return false;
    }
    marks[place] = true;
    true
}

// Whether an arc with a feature is cut off, of the root or of another node.
fn is_cut(is_root: bool, feat: Feat, off: Off<'_>) -> bool
    ensures { result ≡ cuts (path_of off.entry.at_root.now) (path_of off.entry.anywhere.now) is_root feat.0 }
{
    (is_root && has(off.at_root, feat)) || has(off.anywhere, feat)
}

// Marks where a node's arcs end, if it hangs or they are cut off. The answer is whether one is new.
fn hang_from(hang: &mut [bool], graph: &Graph, n: u32, off: Off<'_>) -> bool
    requires { n < length graph.now.types }
{
    let hangs = marked(hang, n);
    let mut more = false;
    for arc in graph.arcs(Node(n)) {
        let wanted = hangs || is_cut(n == 0, arc.feat, off);
        if wanted && mark(hang, arc.to.0) {
            more = true;
        }
    }
    more
}

// Marks nodes that hang. The answer is whether one is new.
fn hang_some(hang: &mut [bool], graph: &Graph, off: Off<'_>) -> bool {
    let mut more = false;
    for n in 0..graph.nodes() {
        if hang_from(hang, graph, n, off) {
            more = true;
        }
    }
    more
}

// Whether an arc of a node leads to one that hangs or leads on.
fn leads_on(hanging: &Hanging, graph: &Graph, n: u32) -> bool
    requires { n < length graph.now.types }
{
    for arc in graph.arcs(Node(n)) {
        if marked(&hanging.hang, arc.to.0) || marked(&hanging.lead, arc.to.0) {
            return true;
        }
    }
    false
}

// Marks nodes that lead on. The answer is whether one is new.
fn lead_some(hanging: &mut Hanging, graph: &Graph) -> bool {
    let mut more = false;
    let count = graph.nodes();
    for k in 0..count {
        let n = count - 1 - k;
        if leads_on(hanging, graph, n) && mark(&mut hanging.lead, n) {
            more = true;
        }
    }
    more
}

// What hangs in a graph on features that are cut off, and what leads to it.
fn hanging_in(alloc: Global, graph: &Graph, off: Off<'_>) -> Result<Hanging, NoMemory> {
    let count = graph.nodes() as usize;
    let mut hanging = Hanging {
        hang: vec![in alloc; false; count]?,
        lead: vec![in alloc; false; count]?,
    };
    for _ in 0..count {
        if !hang_some(&mut hanging.hang, graph, off) {
            break;
        }
    }
    for _ in 0..count {
        if !lead_some(&mut hanging, graph) {
            break;
        }
    }
    Ok(hanging)
}

// Whether the marks at both ends of an arc are those that one's being marked asks of the other.
fn is_closed_arc(hanging: &Hanging, off: Off<'_>, n: u32, arc: GraphArc) -> bool
    ensures { result ≡ true → IsClosedArc (path_of off.entry.at_root.now) (path_of off.entry.anywhere.now) hanging.now.hang.items hanging.now.lead.items n arc }
{
    let hangs = marked(&hanging.hang, arc.to.0);
    if !hangs && (marked(&hanging.hang, n) || is_cut(n == 0, arc.feat, off)) {
        return false;
    }
    if (hangs || marked(&hanging.lead, arc.to.0)) && !marked(&hanging.lead, n) {
        return false;
    }
    true
}

// The same for all arcs of a node.
fn is_closed(hanging: &Hanging, off: Off<'_>, graph: &Graph, n: u32) -> bool
    requires { n < length graph.now.types }
    ensures { result ≡ true → (a : GraphArc) → Has a (arcs_at graph.now n) → IsClosedArc (path_of off.entry.at_root.now) (path_of off.entry.anywhere.now) hanging.now.hang.items hanging.now.lead.items n a }
{
    for arc in graph.arcs(Node(n)) {
        if !is_closed_arc(hanging, off, n, *arc) {
            return false;
        }
    }
    true
}

// The same for all arcs of a graph: then no node that hangs is wanting, and none that leads to one.
fn are_closed(hanging: &Hanging, off: Off<'_>, graph: &Graph) -> bool
    ensures { result ≡ true → AreClosed (path_of off.entry.at_root.now) (path_of off.entry.anywhere.now) hanging.now.hang.items hanging.now.lead.items graph.now (length graph.now.types) }
{
    for n in 0..graph.nodes() {
        if !is_closed(hanging, off, graph, n) {
            return false;
        }
    }
    true
}

// The place of the next arc, where a u32 holds it.
fn place(arcs: &Vec<GraphArc>) -> Result<u32, NoMemory>
    ensures { IfOk result (λ n. n ≡ length arcs.now.items) }
{
    u32::try_from(arcs.len()).map_err(|_| NoMemory)
}

// Adds the arcs of a node that lead to one which hangs or leads on.
fn push_kept(arcs: &mut Vec<GraphArc>, row: &[GraphArc], hanging: &Hanging) -> Result<(), NoMemory>
    ensures { OnOk result (arcs.new.items ≡ arcs.old.items ++ kept_row hanging.now.hang.items hanging.now.lead.items row.now) }
{
    for arc in row {
        if marked(&hanging.hang, arc.to.0) || marked(&hanging.lead, arc.to.0) {
            arcs.push(*arc)?;
        }
    }
    Ok(())
}

// The type that is kept of a node: the top type where it doesn't hang.
fn kept_type(hanging: &Hanging, graph: &Graph, n: u32) -> Ty
    requires { n < length graph.now.types }
    ensures { result.0 ≡ kept_type hanging.now.hang.items graph.now n }
{
    if marked(&hanging.hang, n) {
        return graph.ty(Node(n));
    }
    Ty(0)
}

// What is kept of all nodes.
fn rows_of(alloc: Global, graph: &Graph, hanging: &Hanging) -> Result<Rows, NoMemory>
    ensures { IfOk result (λ r. IsKeptPlan hanging.now.hang.items hanging.now.lead.items graph.now r.types.items r.starts.items r.arcs.items) }
{
    let nodes = graph.nodes();
    let mut types = Vec::with_capacity(alloc, nodes as usize)?;
    let mut starts = Vec::with_capacity(alloc, nodes as usize + 1)?;
    let mut arcs = Vec::new(alloc);
    for n in 0..nodes {
        types.push(kept_type(hanging, graph, n))?;
        starts.push(place(&arcs)?)?;
        push_kept(&mut arcs, graph.arcs(Node(n)), hanging)?;
    }
    starts.push(place(&arcs)?)?;
    Ok(Rows {
        types,
        starts,
        arcs,
    })
}

// The graph of what is kept, which a graph without cycles is.
fn kept_graph(alloc: Global, graph: &Graph, hanging: &Hanging) -> Result<Graph, NoMemory>
    ensures { IfOk result (IsKeptGraph hanging.now.hang.items hanging.now.lead.items graph.now) }
{
    graph.laws();
    let rows = rows_of(alloc, graph, hanging)?;
    match ordered(alloc, &rows.types, &rows.starts, &rows.arcs) {
        Ok(kept) => Ok(kept),
        // With fewer arcs no node reaches itself either.
        Err(Clash::Cycle { node: _ }) => unreachable!(),
        Err(Clash::NoMemory) => Err(NoMemory),
    }
}

// Whether a bound puts a node at or below a type.
fn is_bound(bound: &Bound, n: u32, ty: u32) -> bool
    ensures { result ≡ true → (bound.now.node ≡ n) × (bound.now.ty ≡ ty) }
{
    bound.node == n && bound.ty == ty
}

// Whether a node wants a bound for an arc's introducer: where its type isn't at or below it, and the last bound isn't this one.
fn wants_bound(bounds: &[Bound], system: &TypeSystem, n: u32, ty: Ty, introducer: u32) -> bool
    requires ty { ty.0 < count_of system.now.types }
    requires introducer { introducer < count_of system.now.types }
    ensures { result ≡ false → Has (record { node = n; ty = introducer }) bounds.now ⊎ (is_below system.now.types ty.0 introducer ≡ true) }
{
    if system.types().at_or_below(ty, Ty(introducer)) {
        return false;
    }
    if let Some(last) = bounds.last() {
        if is_bound(last, n, introducer) {
            return false;
        }
    }
    true
}

// Adds the introducers of a node's arcs that its type isn't at or below.
fn push_bounds(
    bounds: &mut Vec<Bound>,
    system: &TypeSystem,
    graph: &Graph,
    n: u32,
) -> Result<(), NoMemory>
    requires node { n < length graph.now.types }
    requires graph { IsGraphIn (count_of system.now.types) (length system.now.introducers) graph.now }
    requires before { HaveBounds system.now graph.now n bounds.old.items }
    ensures { OnOk result (HaveBounds system.now graph.now (n + 1) bounds.new.items) }
{
    let ty = graph.ty(Node(n));
    for arc in graph.arcs(Node(n)) {
        let introducer = system.introducer(arc.feat.0);
        if wants_bound(bounds, system, n, ty, introducer) {
            bounds.push(Bound {
                node: n,
                ty: introducer,
            })?;
        }
    }
    Ok(())
}

// The introducers of all nodes' arcs that their types aren't at or below.
fn bounds_of(alloc: Global, system: &TypeSystem, graph: &Graph) -> Result<Vec<Bound>, NoMemory>
    requires { IsGraphIn (count_of system.now.types) (length system.now.introducers) graph.now }
    ensures { IfOk result (λ bounds. HaveBounds system.now graph.now (length graph.now.types) bounds.items) }
{
    let mut bounds = Vec::new(alloc);
    for n in 0..graph.nodes() {
        push_bounds(&mut bounds, system, graph, n)?;
    }
    Ok(bounds)
}

/// What a node owes at or below the type of this constraint, where features are cut off. `None` where something is written of
/// the top type. `NoMemory` comes only for want of memory, or of numbers for arcs.
pub fn debt_of(
    alloc: Global,
    system: &TypeSystem,
    constraint: &Constraint,
    off: Off<'_>,
) -> Result<Option<Debt>, NoMemory>
    requires { IsConstraint system.now constraint.now.ty constraint.now.graph }
    ensures { IfOk result (λ o. IfSome o (Pays system.now (speaks_of (path_of off.entry.at_root.now) (path_of off.entry.anywhere.now)) constraint.now.ty)) }
{
    system.laws();
    system.types().laws();
    let whole = constraint.graph.graph();
    whole.laws();
    let hanging = hanging_in(alloc, whole, off)?;
    if !system.rules_above(0).is_empty() {
        return Ok(None);
    }
    if !are_closed(&hanging, off, whole) {
        return Ok(None);
    }
    let graph = kept_graph(alloc, whole, &hanging)?;
    graph.laws();
    let bounds = bounds_of(alloc, system, &graph)?;
    Ok(Some(Debt { graph, bounds }))
}
