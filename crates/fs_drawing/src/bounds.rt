//! Whether closed nodes have a structure: none that the root reaches reaches itself, and no path is longer than the limit.
//! Nothing is drawn: one depth-first visit goes along each arc once.

ghost use Rattle.std.specs.Prelude.{◌≡◌, ℕ, ◌<◌, ◌≤◌, ◌+◌, ◌++◌, ◌∷◌, [], length, true, IfOk, OnOk, slice_index};
ghost use Rattle.fs_closing.specs.NodeTable.{row_of, table_of, IsWhole};
ghost use Rattle.fs_drawing.specs.Bounding.{Decided};
ghost use Rattle.fs_drawing.specs.Inner.Climbing.{IsPassing, IsTop, IsNext, WaitsAdded, Waits, AddsLeaves, IsClimbing, AreClimbing, Climbs};

use crate::NoMemory;
use crate::notes::{Notes, greater};
use fs_closing::nodes::{Nodes, first_of, live};
use fs_closing::parts::{own_arcs, own_cell, own_count};
use std::alloc::Global;

// What is noted at an open node. At one that is done with, two more than the length of the longest path from it is noted.
const OPEN: u32 = 1;

// What is noted at a node without arcs, which is done with as soon as it is met.
const LEAF: u32 = 2;

/// An open node. Its arcs are passed one after another: those that were added to it first, of which the one at `place` comes
/// next, and then those from its graph, of which the one of the number `own` does. Those that were passed lead to nodes from
/// which no path has as many arcs as `high` says, and one has one fewer, if any was passed.
#[derive(Clone, Copy, Debug)]
pub struct Open {
    pub node: u32,
    pub place: u32,
    pub own: usize,
    pub high: u32,
}

/// An open node, and the node to which its next arc leads, where that isn't done with.
#[derive(Clone, Copy, Debug)]
pub struct Passed {
    pub open_node: Open,
    pub next: Option<u32>,
}

/// What a step of a visit came to.
#[derive(Clone, Copy, Debug)]
pub enum Climb {
    /// The visit goes on.
    Goes,
    /// All nodes are done with.
    Ended,
    /// A node reaches itself, or a path is too long.
    Clashed,
}

/// What is noted at nodes, and the open nodes, from the root on. One visit goes in the memory of another.
#[derive(Debug, Drop)]
pub struct Heights {
    pub notes: Notes,
    pub open_nodes: Vec<Open>,
}

impl Heights {
    /// No nodes, and no memory.
    pub fn new(alloc: Global) -> Heights {
        Heights {
            notes: Notes::new(alloc),
            open_nodes: Vec::new(alloc),
        }
    }
}

// A node none of whose arcs was passed.
fn opened(nodes: &Nodes<'_>, n: u32) -> Open
    requires whole { IsWhole nodes.now }
    requires node { n < nodes.now.size }
    ensures node { result.node ≡ n }
    ensures passing { (noted : ℕ → ℕ) → IsPassing nodes.now noted result }
{
    Open {
        node: n,
        place: first_of(nodes, n),
        own: 0,
        high: 0,
    }
}

// Whether a node has no arcs.
fn is_leaf(nodes: &Nodes<'_>, n: u32) -> bool
    requires whole { IsWhole nodes.now }
    requires node { n < nodes.now.size }
    ensures { result ≡ true → row_of nodes.now n ≡ [] }
{
    if first_of(nodes, n) != 0 {
        return false;
    }
    if own_count(&nodes.parts, n) != 0 {
        return false;
    }
    true
}

// What is noted at a node. One without arcs that wasn't met is done with at once, so that it is never open.
fn noted_at(notes: &mut Notes, nodes: &Nodes<'_>, n: u32) -> Result<u32, NoMemory>
    requires whole { IsWhole nodes.now }
    requires node { n < nodes.now.size }
    requires room { nodes.now.size ≤ length notes.old }
    ensures value { IfOk result (λ v. v ≡ slice_index notes.new n) }
    ensures leaves { OnOk result (AddsLeaves nodes.now notes.old notes.new) }
{
    let noted = notes.get(n);
    if noted != 0 {
        return Ok(noted);
    }
    if is_leaf(nodes, n) {
        notes.note(n, LEAF)?;
        return Ok(LEAF);
    }
    Ok(noted)
}

// Passes the arcs that were added to a node, up to one that leads to a node that isn't done with.
fn pass_added(notes: &mut Notes, nodes: &Nodes<'_>, x: Open) -> Result<Passed, NoMemory>
    requires whole { IsWhole nodes.now }
    requires room { nodes.now.size ≤ length notes.old }
    requires passing { IsPassing nodes.now (slice_index notes.old) x }
    ensures node { IfOk result (λ p. p.open_node.node ≡ x.node) }
    ensures waits { IfOk result (λ p. WaitsAdded nodes.now (slice_index notes.new) p.open_node p.next) }
    ensures leaves { OnOk result (AddsLeaves nodes.now notes.old notes.new) }
{
    let mut place = x.place;
    let mut high = x.high;
    while place != 0 {
        let cell = nodes.cells.at(place);
        let to = live(nodes, cell.to);
        let noted = noted_at(notes, nodes, to)?;
        if noted <= OPEN {
            return Ok(Passed {
                open_node: Open {
                    node: x.node,
                    place,
                    own: x.own,
                    high,
                },
                next: Some(to),
            });
        }
        high = greater(high, noted - 1);
        place = cell.next;
    }
    Ok(Passed {
        open_node: Open {
            node: x.node,
            place: 0,
            own: x.own,
            high,
        },
        next: None,
    })
}

// Passes the arcs that a node has from its graph, up to one that leads to a node that isn't done with.
fn pass_own(notes: &mut Notes, nodes: &Nodes<'_>, x: Open) -> Result<Passed, NoMemory>
    requires whole { IsWhole nodes.now }
    requires room { nodes.now.size ≤ length notes.old }
    requires passing { IsPassing nodes.now (slice_index notes.old) x }
    requires added { x.place ≡ 0 }
    ensures node { IfOk result (λ p. p.open_node.node ≡ x.node) }
    ensures waits { IfOk result (λ p. Waits nodes.now (slice_index notes.new) p.open_node p.next) }
    ensures leaves { OnOk result (AddsLeaves nodes.now notes.old notes.new) }
{
    let own = own_arcs(&nodes.parts, x.node);
    let mut high = x.high;
    for i in x.own..own.arcs.len() {
        let cell = own_cell(own.base, own.arcs, i);
        let to = live(nodes, cell.to);
        let noted = noted_at(notes, nodes, to)?;
        if noted <= OPEN {
            return Ok(Passed {
                open_node: Open {
                    node: x.node,
                    place: 0,
                    own: i,
                    high,
                },
                next: Some(to),
            });
        }
        high = greater(high, noted - 1);
    }
    Ok(Passed {
        open_node: Open {
            node: x.node,
            place: 0,
            own: own.arcs.len(),
            high,
        },
        next: None,
    })
}

// Passes the arcs of a node, up to one that leads to a node that isn't done with.
fn pass(notes: &mut Notes, nodes: &Nodes<'_>, x: Open) -> Result<Passed, NoMemory>
    requires whole { IsWhole nodes.now }
    requires room { nodes.now.size ≤ length notes.old }
    requires passing { IsPassing nodes.now (slice_index notes.old) x }
    ensures node { IfOk result (λ p. p.open_node.node ≡ x.node) }
    ensures waits { IfOk result (λ p. Waits nodes.now (slice_index notes.new) p.open_node p.next) }
    ensures leaves { OnOk result (AddsLeaves nodes.now notes.old notes.new) }
{
    let added = pass_added(notes, nodes, x)?;
    match added.next {
        Some(_) => Ok(added),
        None => {
            let passed = pass_own(notes, nodes, added.open_node)?;
            Ok(passed)
        }
    }
}

// Meets the node to which the next arc of the last open node leads. Where that is open too, it reaches itself.
fn meet(
    heights: &mut Heights,
    nodes: &Nodes<'_>,
    x: Open,
    to: u32,
    limit: u32,
) -> Result<Climb, NoMemory>
    requires whole { IsWhole nodes.now }
    requires filled { 0 < nodes.now.size }
    requires room { nodes.now.size ≤ length heights.old.notes }
    requires climbing { IsClimbing nodes.now limit (slice_index heights.old.notes) (heights.old.open_nodes.items ++ x ∷ []) }
    requires next { IsNext nodes.now (slice_index heights.old.notes) x.node to }
    ensures { IfOk result (Climbs nodes.now limit heights.new) }
{
    if heights.notes.get(to) == OPEN {
        return Ok(Climb::Clashed);
    }
    heights.open_nodes.push(x)?;
    heights.notes.note(to, OPEN)?;
    heights.open_nodes.push(opened(nodes, to))?;
    Ok(Climb::Goes)
}

// The last open node, all of whose arcs were passed, is done with.
fn finish(heights: &mut Heights, nodes: &Nodes<'_>, x: Open, limit: u32) -> Result<Climb, NoMemory>
    requires whole { IsWhole nodes.now }
    requires filled { 0 < nodes.now.size }
    requires room { nodes.now.size ≤ length heights.old.notes }
    requires climbing { IsClimbing nodes.now limit (slice_index heights.old.notes) (heights.old.open_nodes.items ++ x ∷ []) }
    requires top { IsTop nodes.now (slice_index heights.old.notes) x.node x.high }
    ensures { IfOk result (Climbs nodes.now limit heights.new) }
{
    if x.high > limit {
        return Ok(Climb::Clashed);
    }
    if x.high > u32::MAX - 2 {
        return Err(NoMemory);
    }
    heights.notes.note(x.node, x.high + 2)?;
    Ok(Climb::Goes)
}

// Goes on from the last open node: it meets another one, or is done with.
fn go_on(heights: &mut Heights, nodes: &Nodes<'_>, x: Open, limit: u32) -> Result<Climb, NoMemory>
    requires whole { IsWhole nodes.now }
    requires filled { 0 < nodes.now.size }
    requires room { nodes.now.size ≤ length heights.old.notes }
    requires climbing { IsClimbing nodes.now limit (slice_index heights.old.notes) (heights.old.open_nodes.items ++ x ∷ []) }
    ensures { IfOk result (Climbs nodes.now limit heights.new) }
{
    let passed = pass(&mut heights.notes, nodes, x)?;
    match passed.next {
        Some(to) => meet(heights, nodes, passed.open_node, to, limit),
        None => finish(heights, nodes, passed.open_node, limit),
    }
}

// One step of the visit.
fn step_on(heights: &mut Heights, nodes: &Nodes<'_>, limit: u32) -> Result<Climb, NoMemory>
    requires whole { IsWhole nodes.now }
    requires filled { 0 < nodes.now.size }
    requires climbing { AreClimbing nodes.now limit heights.old }
    ensures { IfOk result (Climbs nodes.now limit heights.new) }
{
    match heights.open_nodes.pop() {
        Some(x) => go_on(heights, nodes, x, limit),
        None => Ok(Climb::Ended),
    }
}

// The root is open alone, whatever was noted before.
fn begin(heights: &mut Heights, nodes: &Nodes<'_>) -> Result<(), NoMemory>
    requires whole { IsWhole nodes.now }
    requires filled { 0 < nodes.now.size }
    ensures { OnOk result ((limit : ℕ) → AreClimbing nodes.now limit heights.new) }
{
    heights.notes.clear();
    heights.notes.widen(nodes.size as usize)?;
    heights.notes.note(0, OPEN)?;
    heights.open_nodes.clear();
    heights.open_nodes.push(opened(nodes, 0))?;
    Ok(())
}

/// Whether no node that the root reaches reaches itself, and no path from the root is longer than the limit, whatever was noted
/// before. `NoMemory` comes only for want of memory, or of numbers for nodes and turns.
pub fn bounded(heights: &mut Heights, nodes: &Nodes<'_>, limit: u32) -> Result<bool, NoMemory>
    requires whole { IsWhole nodes.now }
    requires filled { 0 < nodes.now.size }
    ensures { IfOk result (Decided nodes.now limit) }
{
    begin(heights, nodes)?;
    for _ in 0..u64::MAX {
        match step_on(heights, nodes, limit)? {
            Climb::Goes => {}
            Climb::Ended => return Ok(true),
            Climb::Clashed => return Ok(false),
        }
    }
    Err(NoMemory)
}
