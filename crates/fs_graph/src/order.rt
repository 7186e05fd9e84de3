//! Graphs with their nodes in depth-first order.

ghost use Rattle.std.specs.Prelude.{◌≡◌, ℕ, ◌+◌, ◌<◌, ◌++◌, length, map, IfOk, IfErr, OnOk, slice_index};
ghost use Rattle.fs_model.specs.DepthFirst.{IsSettled};
ghost use Rattle.fs_model.specs.Sources.{IsSameStructure};
ghost use Rattle.fs_graph.specs.GraphMap.{reader_of};
ghost use Rattle.fs_graph.specs.Inside.{graph_map};
ghost use Rattle.fs_graph.specs.Orders.{ArePlan, IsOrdering, IsClash, IsOrderOf};
ghost use Rattle.fs_graph.specs.Visits.{plan_of, targets_of};
ghost use Rattle.fs_graph.specs.Inner.Renumbering.{renumber};

use crate::visit::{Order, begin, pass};
use crate::{Clash, Graph, GraphArc, NoMemory, Node};
use std::alloc::Global;
use type_hierarchy::Ty;

/// The order of nodes whose arcs stand in rows, in the memory of an order before. The arcs of node n are those from
/// `starts[n]` to `starts[n + 1]`, by rising feature.
///
/// `Cycle` comes exactly where a reached node reaches itself, and names such a node.
pub fn order_in(
    order: &mut Order,
    types: &[Ty],
    starts: &[u32],
    arcs: &[GraphArc],
) -> Result<(), Clash>
    requires { ArePlan types.now starts.now arcs.now }
    ensures ok { OnOk result (IsOrderOf types.now starts.now arcs.now order.new.numbers.items order.new.order.items order.new.longest) }
    ensures err { IfErr result (IsClash (graph_map types.now starts.now arcs.now)) }
{
    begin(order, types.len() as u32, starts)?;
    while let Some(frame) = order.open.pop() {
        pass(order, starts, arcs, frame)?;
    }
    order.longest = order.heights[0];
    Ok(())
}

/// The graph of nodes in their order, without the nodes that the root doesn't reach.
pub fn graph_of(
    alloc: Global,
    types: &[Ty],
    starts: &[u32],
    arcs: &[GraphArc],
    order: &Order,
) -> Result<Graph, NoMemory>
    requires plan { ArePlan types.now starts.now arcs.now }
    requires order { IsOrderOf types.now starts.now arcs.now order.now.numbers.items order.now.order.items order.now.longest }
    ensures { IfOk result (IsOrdering (graph_map types.now starts.now arcs.now)) }
{
    let graph = renumbered(alloc, types, starts, arcs, &order.numbers, &order.order)?;
    Ok(graph)
}

/// The graph of nodes whose arcs stand in rows, from the root 0 on, without the nodes that the root doesn't reach. The
/// arcs of node n are those from `starts[n]` to `starts[n + 1]`, by rising feature.
///
/// `Cycle` comes exactly where a reached node reaches itself, and names such a node.
pub fn ordered(
    alloc: Global,
    types: &[Ty],
    starts: &[u32],
    arcs: &[GraphArc],
) -> Result<Graph, Clash>
    requires { ArePlan types.now starts.now arcs.now }
    ensures ok { IfOk result (IsOrdering (graph_map types.now starts.now arcs.now)) }
    ensures err { IfErr result (IsClash (graph_map types.now starts.now arcs.now)) }
{
    let mut order = Order::new(alloc);
    order_in(&mut order, types, starts, arcs)?;
    let graph = graph_of(alloc, types, starts, arcs, &order)?;
    Ok(graph)
}

// How many arcs these nodes have in all, for the memory that is asked for.
fn count_arcs(starts: &[u32], order: &[u32]) -> usize
    requires { (k : ℕ) → k < length order.now → slice_index order.now k + 1 < length starts.now }
{
    let mut count = 0usize;
    for node in order {
        let row = starts[*node as usize + 1].saturating_sub(starts[*node as usize]);
        count = count.saturating_add(row as usize);
    }
    count
}

// The nodes in their new order.
fn renumbered(
    alloc: Global,
    types: &[Ty],
    starts: &[u32],
    arcs: &[GraphArc],
    numbers: &[u32],
    order: &[u32],
) -> Result<Graph, NoMemory>
    requires plan { ArePlan types.now starts.now arcs.now }
    requires numbers { length numbers.now ≡ length types.now }
    requires settled { IsSettled (plan_of (length types.now) starts.now arcs.now) (slice_index numbers.now) (slice_index order.now) (length order.now) }
    ensures { IfOk result (λ g. IsSameStructure (reader_of (graph_map types.now starts.now arcs.now)) (reader_of g)) }
{
    let mut new_types = Vec::with_capacity(alloc, order.len())?;
    let mut new_starts = Vec::with_capacity(alloc, order.len() + 1)?;
    let mut new_arcs = Vec::with_capacity(alloc, count_arcs(starts, order))?;
    for node in order {
        new_types.push(types[*node as usize])?;
        new_starts.push(place(&new_arcs)?)?;
        let from = starts[*node as usize] as usize;
        let end = starts[*node as usize + 1] as usize;
        push_row(&mut new_arcs, &arcs[from..end], numbers)?;
    }
    new_starts.push(place(&new_arcs)?)?;
    Ok(Graph {
        types: new_types,
        starts: new_starts,
        arcs: new_arcs,
    })
}

/// The place of the next arc, where a u32 holds it.
pub fn place(arcs: &Vec<GraphArc>) -> Result<u32, NoMemory>
    ensures { IfOk result (λ n. n ≡ length arcs.now.items) }
{
    u32::try_from(arcs.len()).map_err(|_| NoMemory)
}

// Adds a node's arcs, to the numbers of their nodes.
fn push_row(arcs: &mut Vec<GraphArc>, row: &[GraphArc], numbers: &[u32]) -> Result<(), NoMemory>
    requires { (k : ℕ) → k < length row.now → slice_index (targets_of row.now) k < length numbers.now }
    ensures { OnOk result (arcs.new.items ≡ arcs.old.items ++ map (renumber numbers.now) row.now) }
{
    for arc in row {
        arcs.push(GraphArc {
            feat: arc.feat,
            to: Node(numbers[arc.to.0 as usize]),
        })?;
    }
    Ok(())
}
