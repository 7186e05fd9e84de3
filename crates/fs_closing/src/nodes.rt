//! Nodes by number: each has a type, the node that it was merged into, and arcs.

ghost use Rattle.std.specs.Prelude.{◌≡◌, ◌≢◌, ℕ, ◌+◌, ◌<◌, ◌≤◌, ◌^◌, length, take, None, IfOk, OnOk, slice_index_or};
ghost use Rattle.fs_closing.specs.declared.parts.Based.{Based as BasedValue};
ghost use Rattle.fs_model.specs.Steps.{Links, Grows};
ghost use Rattle.fs_closing.specs.Marked.{written_at, next_by, stands_by};
ghost use Rattle.fs_closing.specs.NodeSteps.{AddsNode, AddsDepth, KeepsArcs, KeepsDepths, EntersDepth, Retypes, EntersTable, IsGraphIn, Unites};
ghost use Rattle.fs_closing.specs.NodeTable.{table_of, at_of, own_type, own_depth, own_row, first_of, depth_of, IsWhole, IsWithin};

use crate::NoMemory;
use crate::cells::{Cell, Cells};
use crate::marks::{Marks, Written};
use crate::parts::{
    Based, Beside, own_depth as depth_from_graph, own_type as type_from_graph, own_written,
};
use fs_graph::Graph;

/// The first `size` nodes by number. Those of a graph are read where they stand; other ones were made. `marks` has what was
/// written at nodes, and `cells` the arcs that were added to them. So many nodes were merged into others as `merges` says.
#[derive(Drop)]
pub struct Nodes<'a> {
    pub marks: Marks,
    pub cells: Cells,
    pub parts: Beside<'a>,
    pub merges: u32,
    pub size: u32,
}

impl Nodes<'_> {
    ghost use Rattle.std.specs.Prelude.{◌≡◌, []};
    ghost use Rattle.fs_closing.specs.NodeTable.{IsWhole, IsWithin, AreFlat};

    /// Begins with no nodes: what was written and added before counts no more. No graph has entered.
    pub fn clear(&mut self)
        ensures parts { self.new.parts ≡ [] }
        ensures whole { IsWhole self.new }
        ensures none { self.new.size ≡ 0 }
        ensures flat { AreFlat self.new }
        ensures within { (types feats : ℕ) → IsWithin types feats self.new }
    {
        self.marks.clear();
        self.cells.clear();
        self.parts.clear();
        self.merges = 0;
        self.size = 0;
    }
}

// The node that a node was forwarded to, and itself for one that wasn't.
fn next(marks: &Marks, n: u32) -> u32
    requires { n < length marks.now }
    ensures { result ≡ next_by n (written_at marks.now n) }
{
    match marks.get(n) {
        Some(written) => written.forward,
        None => n,
    }
}

/// The node that a node was merged into, and itself for one that wasn't merged.
pub fn live(nodes: &Nodes<'_>, n: u32) -> u32
    requires whole { IsWhole nodes.now }
    requires node { n < nodes.now.size }
    ensures value { result ≡ (table_of nodes.now).live n }
    ensures within { result < nodes.now.size }
    ensures stays { (table_of nodes.now).live result ≡ result }
{
    let mut at = n;
    let mut left = nodes.merges;
    while left != 0 {
        let to = next(&nodes.marks, at);
        if to == at {
            return at;
        }
        at = to;
        left -= 1;
    }
    at
}

/// The type of a node.
pub fn ty_of(nodes: &Nodes<'_>, n: u32) -> u32
    requires whole { IsWhole nodes.now }
    requires node { n < nodes.now.size }
    ensures { result ≡ (table_of nodes.now).type_of n }
{
    match nodes.marks.get(n) {
        Some(written) => written.ty,
        None => type_from_graph(&nodes.parts, n),
    }
}

/// The place of the first arc that was added to a node.
pub fn first_of(nodes: &Nodes<'_>, n: u32) -> u32
    requires whole { IsWhole nodes.now }
    requires node { n < nodes.now.size }
    ensures { result ≡ first_of nodes.now n }
{
    match nodes.marks.get(n) {
        Some(written) => written.first,
        None => 0,
    }
}

/// A number of features that some path to a node has at least.
pub fn depth_of(nodes: &Nodes<'_>, n: u32) -> u32
    requires whole { IsWhole nodes.now }
    requires node { n < nodes.now.size }
    ensures { result ≡ depth_of nodes.now n }
{
    match nodes.marks.get(n) {
        Some(written) => written.depth,
        None => depth_from_graph(&nodes.parts, n),
    }
}

// All that stands at a node.
fn stands(nodes: &Nodes<'_>, n: u32) -> Written
    requires whole { IsWhole nodes.now }
    requires node { n < nodes.now.size }
    ensures { result ≡ stands_by (own_type nodes.now n) (own_depth nodes.now n) n (at_of nodes.now n) }
{
    match nodes.marks.get(n) {
        Some(written) => written,
        None => own_written(&nodes.parts, n),
    }
}

/// Gives a node a type.
pub fn set_type(nodes: &mut Nodes<'_>, n: u32, ty: u32)
    requires whole { IsWhole nodes.old }
    requires node { n < nodes.old.size }
    ensures retypes { Retypes (table_of nodes.old) (table_of nodes.new) n ty }
    ensures keeps { KeepsDepths nodes.old nodes.new }
    ensures whole { IsWhole nodes.new }
    ensures within { (types feats : ℕ) → ty < types → IsWithin types feats nodes.old → IsWithin types feats nodes.new }
{
    let old = stands(nodes, n);
    let new = Written {
        forward: old.forward,
        ty,
        first: old.first,
        depth: old.depth,
    };
    nodes.marks.write(n, new);
}

/// Adds a node without arcs.
pub fn add_node(nodes: &mut Nodes<'_>, ty: u32, depth: u32) -> Result<u32, NoMemory>
    requires { IsWhole nodes.old }
    ensures adds { OnOk result (AddsNode ty (table_of nodes.old) (table_of nodes.new)) }
    ensures place { IfOk result (λ m. m ≡ nodes.old.size) }
    ensures depths { OnOk result (AddsDepth depth nodes.old nodes.new) }
    ensures whole { OnOk result (IsWhole nodes.new) }
    ensures within { OnOk result ((types feats : ℕ) → ty < types → IsWithin types feats nodes.old → IsWithin types feats nodes.new) }
{
    let n = nodes.size;
    if n == u32::MAX {
        return Err(NoMemory);
    }
    nodes.marks.widen(n as usize + 1)?;
    let new = Written {
        forward: n,
        ty,
        first: 0,
        depth,
    };
    nodes.marks.write(n, new);
    nodes.size = n + 1;
    Ok(n)
}

/// Gives a node an arc that it hasn't.
pub fn add_arc(nodes: &mut Nodes<'_>, n: u32, feat: u32, to: u32) -> Result<(), NoMemory>
    requires whole { IsWhole nodes.old }
    requires node { n < nodes.old.size }
    requires to { to < nodes.old.size }
    requires no_arc { (table_of nodes.old).arc n feat ≡ None }
    ensures links { OnOk result (Links (table_of nodes.old) (table_of nodes.new) n feat to) }
    ensures keeps { OnOk result (KeepsDepths nodes.old nodes.new) }
    ensures whole { OnOk result (IsWhole nodes.new) }
    ensures within { OnOk result ((types feats : ℕ) → feat < feats → IsWithin types feats nodes.old → IsWithin types feats nodes.new) }
{
    let place = nodes.cells.len();
    if place >= u32::MAX as usize {
        return Err(NoMemory);
    }
    let old = stands(nodes, n);
    let cell = Cell {
        feat,
        to,
        next: old.first,
    };
    nodes.cells.push(n, cell)?;
    let new = Written {
        forward: old.forward,
        ty: old.ty,
        first: place as u32 + 1,
        depth: old.depth,
    };
    nodes.marks.write(n, new);
    Ok(())
}

/// Gives a node an arc to a new node.
pub fn grow(nodes: &mut Nodes<'_>, n: u32, feat: u32, ty: u32, depth: u32) -> Result<u32, NoMemory>
    requires whole { IsWhole nodes.old }
    requires node { n < nodes.old.size }
    requires no_arc { (table_of nodes.old).arc n feat ≡ None }
    ensures grows { OnOk result (Grows ty (table_of nodes.old) (table_of nodes.new) n feat) }
    ensures place { IfOk result (λ m. m ≡ nodes.old.size) }
    ensures depths { OnOk result (AddsDepth depth nodes.old nodes.new) }
    ensures whole { OnOk result (IsWhole nodes.new) }
    ensures within { OnOk result ((types feats : ℕ) → ty < types → feat < feats → IsWithin types feats nodes.old → IsWithin types feats nodes.new) }
{
    let to = add_node(nodes, ty, depth)?;
    add_arc(nodes, n, feat, to)?;
    Ok(to)
}

/// Merges b into a, which gets a type. Neither was merged before, and b isn't the root.
pub fn unite(nodes: &mut Nodes<'_>, a: u32, b: u32, ty: u32)
    requires whole { IsWhole nodes.old }
    requires a_in { a < nodes.old.size }
    requires b_in { b < nodes.old.size }
    requires apart { a ≢ b }
    requires no_root { b ≢ 0 }
    requires few { nodes.old.merges + 1 < 2 ^ 32 }
    requires a_stays { (table_of nodes.old).live a ≡ a }
    requires b_stays { (table_of nodes.old).live b ≡ b }
    ensures unites { Unites (table_of nodes.old) (table_of nodes.new) a b ty }
    ensures depths { (k : ℕ) → depth_of nodes.new k ≡ depth_of nodes.old k }
    ensures cells { nodes.new.cells ≡ nodes.old.cells }
    ensures own { (k : ℕ) → own_row nodes.new k ≡ own_row nodes.old k }
    ensures whole { IsWhole nodes.new }
    ensures within { (types feats : ℕ) → ty < types → IsWithin types feats nodes.old → IsWithin types feats nodes.new }
{
    let stays = stands(nodes, a);
    let goes = stands(nodes, b);
    let gone = Written {
        forward: a,
        ty: goes.ty,
        first: goes.first,
        depth: goes.depth,
    };
    let joined = Written {
        forward: stays.forward,
        ty,
        first: stays.first,
        depth: stays.depth,
    };
    nodes.marks.write(b, gone);
    nodes.marks.write(a, joined);
    nodes.merges += 1;
}

/// A graph enters, after those before it: its nodes have the numbers from the answer on, where it is based. Nothing of it is
/// read. Some path to its root has `depth` features at least, and some path to each other node has `further`.
pub fn add_graph<'a>(
    nodes: &mut Nodes<'a>,
    graph: &'a Graph,
    depth: u32,
    further: u32,
) -> Result<u32, NoMemory>
    requires whole { IsWhole nodes.old }
    ensures place { IfOk result (λ o. o ≡ nodes.old.size) }
    ensures enters { OnOk result (EntersTable graph.now (table_of nodes.old) (table_of nodes.new)) }
    ensures depths { OnOk result (EntersDepth depth further (length graph.now.types) nodes.old nodes.new) }
    ensures whole { OnOk result (IsWhole nodes.new) }
    ensures within { OnOk result ((types feats : ℕ) → IsGraphIn types feats graph.now → IsWithin types feats nodes.old → IsWithin types feats nodes.new) }
{
    let base = nodes.size;
    let count = graph.nodes();
    if count > u32::MAX - base {
        return Err(NoMemory);
    }
    let size = base + count;
    nodes.marks.widen(size as usize)?;
    nodes.parts.add(Based {
        graph,
        base,
        depth,
        further,
    })?;
    nodes.size = size;
    Ok(base)
}
