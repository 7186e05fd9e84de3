//! A depth-first visit of nodes whose arcs stand in rows.

ghost use Rattle.std.specs.Prelude.{◌≡◌, ℕ, ◌+◌, ◌<◌, ◌≤◌, ◌^◌, ◌++◌, ◌∷◌, [], length, List, IfOk, IfErr, OnOk, slice_set, slice_index, replicate, false, ◌⊎◌};
ghost use Rattle.fs_model.specs.DepthFirst.{missing};
ghost use Rattle.fs_graph.specs.Visits.{plan_of};
ghost use Rattle.fs_graph.specs.Inner.Going.{IsVisitable, IsGoing, IsClashIn, left_of};
ghost use Rattle.fs_graph.specs.Inner.Heights.{IsAbove, AreHeights};

use crate::{Clash, GraphArc, NoMemory, Node};
use std::alloc::{AllocError, Global};

// The number of a node that isn't met yet.
const MISSING: u32 = u32::MAX;

/// A node that is open, and the place of its next arc.
#[derive(Clone, Copy, Debug)]
pub struct Frame {
    pub node: u32,
    pub next: u32,
}

/// What the root 0 reaches of nodes whose arcs stand in rows: the nodes in depth-first order, the number of each node in
/// it, and the length of the longest path from the root. It keeps the memory of its visits: whether each node is done
/// with, the length of the longest path from each such node, and the open nodes, from the root on.
#[derive(Debug, Drop)]
pub struct Order {
    pub numbers: Vec<u32>,
    pub order: Vec<u32>,
    pub longest: u32,
    pub(crate) closed: Vec<bool>,
    pub(crate) heights: Vec<u32>,
    pub(crate) open: Vec<Frame>,
}

impl Order {
    /// No nodes, and no memory.
    pub fn new(alloc: Global) -> Order {
        Order {
            numbers: Vec::new(alloc),
            order: Vec::new(alloc),
            longest: 0,
            closed: Vec::new(alloc),
            heights: Vec::new(alloc),
            open: Vec::new(alloc),
        }
    }
}

// A list gets one value for each of some nodes, whatever it held.
fn refill(list: &mut Vec<u32>, nodes: u32, value: u32) -> Result<(), AllocError>
    ensures { OnOk result (list.new.items ≡ replicate nodes value) }
{
    list.clear();
    list.resize(nodes as usize, value)?;
    Ok(())
}

// No node is done with.
fn reopen(closed: &mut Vec<bool>, nodes: u32) -> Result<(), AllocError>
    ensures { OnOk result (closed.new.items ≡ replicate nodes false) }
{
    closed.clear();
    closed.resize(nodes as usize, false)?;
    Ok(())
}

/// The visit begins, whatever was visited before: the root is open alone.
pub fn begin(visit: &mut Order, nodes: u32, starts: &[u32]) -> Result<(), AllocError>
    requires filled { 0 < nodes }
    requires starts { length starts.now ≡ nodes + 1 }
    ensures going { (arcs : List GraphArc) → IsVisitable nodes starts.now arcs → OnOk result (IsGoing nodes starts.now arcs visit.new.numbers.items visit.new.order.items visit.new.closed.items visit.new.open.items) }
    ensures heights { (arcs : List GraphArc) → OnOk result (AreHeights (plan_of nodes starts.now arcs) visit.new.closed.items visit.new.heights.items) }
{
    refill(&mut visit.numbers, nodes, MISSING)?;
    visit.numbers[0] = 0;
    reopen(&mut visit.closed, nodes)?;
    refill(&mut visit.heights, nodes, 0)?;
    visit.order.clear();
    visit.order.push(0)?;
    visit.open.clear();
    visit.open.push(Frame {
        node: 0,
        next: starts[0],
    })?;
    Ok(())
}

// Meets a node: it gets the next number, and is open from its first arc on.
fn enter(visit: &mut Order, node: u32, start: u32) -> Result<(), AllocError>
    requires node { node < length visit.old.numbers.items }
    requires few { length visit.old.order.items < 2 ^ 32 }
    ensures numbers { OnOk result (visit.new.numbers.items ≡ slice_set visit.old.numbers.items node (length visit.old.order.items)) }
    ensures order { OnOk result (visit.new.order.items ≡ visit.old.order.items ++ node ∷ []) }
    ensures closed { OnOk result (visit.new.closed.items ≡ visit.old.closed.items) }
    ensures heights { OnOk result (visit.new.heights.items ≡ visit.old.heights.items) }
    ensures open { OnOk result (visit.new.open.items ≡ visit.old.open.items ++ record { node = node; next = start } ∷ []) }
{
    visit.numbers[node as usize] = visit.order.len() as u32;
    visit.order.push(node)?;
    visit.open.push(Frame { node, next: start })?;
    Ok(())
}

// The greater of a height and one more than another.
fn higher(height: u32, below: u32) -> Result<u32, NoMemory>
    ensures { IfOk result (λ h. (height ≤ h) × (below < h) × ((h ≡ height) ⊎ (h ≡ below + 1))) }
{
    if below < height {
        return Ok(height);
    }
    if below == u32::MAX {
        return Err(NoMemory);
    }
    Ok(below + 1)
}

// One more than the greatest height to which the arcs of a node lead, and 0 where it has none.
fn height_above(
    starts: &[u32],
    arcs: &[GraphArc],
    heights: &[u32],
    node: u32,
) -> Result<u32, NoMemory>
    requires able { IsVisitable (length heights.now) starts.now arcs.now }
    requires node { node < length heights.now }
    ensures { IfOk result (IsAbove (plan_of (length heights.now) starts.now arcs.now) (slice_index heights.now) node (slice_index starts.now (node + 1))) }
{
    let mut height = 0;
    for i in starts[node as usize]..starts[node as usize + 1] {
        height = higher(height, heights[arcs[i as usize].to.0 as usize])?;
    }
    Ok(height)
}

/// Takes the next arc of the last open node, or closes the node where it has none left.
pub fn pass(visit: &mut Order, starts: &[u32], arcs: &[GraphArc], frame: Frame) -> Result<(), Clash>
    requires able { IsVisitable (length visit.old.numbers.items) starts.now arcs.now }
    requires going { IsGoing (length visit.old.numbers.items) starts.now arcs.now visit.old.numbers.items visit.old.order.items visit.old.closed.items (visit.old.open.items ++ frame ∷ []) }
    requires heights { AreHeights (plan_of (length visit.old.numbers.items) starts.now arcs.now) visit.old.closed.items visit.old.heights.items }
    ensures heights { OnOk result (AreHeights (plan_of (length visit.old.numbers.items) starts.now arcs.now) visit.new.closed.items visit.new.heights.items) }
    ensures going { OnOk result (IsGoing (length visit.old.numbers.items) starts.now arcs.now visit.new.numbers.items visit.new.order.items visit.new.closed.items visit.new.open.items) }
    ensures falls { OnOk result (left_of starts.now (length arcs.now) visit.new.numbers.items visit.new.open.items < left_of starts.now (length arcs.now) visit.old.numbers.items (visit.old.open.items ++ frame ∷ [])) }
    ensures err { IfErr result (IsClashIn (plan_of (length visit.old.numbers.items) starts.now arcs.now)) }
{
    let Frame { node, next } = frame;
    if next == starts[node as usize + 1] {
        let height = height_above(starts, arcs, &visit.heights, node)?;
        visit.heights[node as usize] = height;
        visit.closed[node as usize] = true;
        return Ok(());
    }
    let to = arcs[next as usize].to.0;
    let further = Frame {
        node,
        next: next + 1,
    };
    if visit.numbers[to as usize] == MISSING {
        visit.open.push(further)?;
        enter(visit, to, starts[to as usize])?;
        return Ok(());
    }
    if !visit.closed[to as usize] {
        return Err(Clash::Cycle { node: Node(to) });
    }
    visit.open.push(further)?;
    Ok(())
}
