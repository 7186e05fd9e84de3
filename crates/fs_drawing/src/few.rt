//! Whether few paths lead along rows of arcs.

ghost use Rattle.std.specs.Prelude.{◌≡◌, ℕ, ◌<◌, ◌++◌, length, List, IfOk, OnOk, slice_index};
ghost use Rattle.type_hierarchy.specs.declared.types.Ty.{Ty as TyValue};
ghost use Rattle.fs_graph.specs.GraphMap.{table_of};
ghost use Rattle.fs_graph.specs.Inside.{row, graph_map};
ghost use Rattle.fs_graph.specs.Orders.{ArePlan};
ghost use Rattle.fs_graph.specs.Visits.{targets_of};
ghost use Rattle.fs_drawing.specs.Counting.{Counts, HaveRow};

use crate::NoMemory;
use fs_graph::{Feat, GraphArc, Node};

// The arcs that go on from the end of a path come last.
fn go_on(
    ends: &mut Vec<GraphArc>,
    starts: &[u32],
    arcs: &[GraphArc],
    at: usize,
) -> Result<(), NoMemory>
    requires at { at < length ends.old.items }
    requires row { HaveRow starts.now arcs.now (slice_index (targets_of ends.old.items) at) }
    ensures { OnOk result (ends.new.items ≡ ends.old.items ++ row starts.now arcs.now (slice_index (targets_of ends.old.items) at)) }
{
    let node = ends[at].to.0 as usize;
    let from = starts[node] as usize;
    let end = starts[node + 1] as usize;
    ends.extend_from_slice(&arcs[from..end])?;
    Ok(())
}

/// Whether no more paths than the limit lead from the root, beside the one to it, along rows of arcs. Each path costs one look at the row
/// where it ends, and little more than the limit are followed. `ends` is a place to note their last arcs in, whatever it holds.
pub fn few_paths(
    starts: &[u32],
    arcs: &[GraphArc],
    ends: &mut Vec<GraphArc>,
    limit: u32,
) -> Result<bool, NoMemory>
    requires plan { (types : List TyValue) × ArePlan types starts.now arcs.now }
    ensures { IfOk result (λ few. (types : List TyValue) → ArePlan types starts.now arcs.now → Counts (table_of (graph_map types starts.now arcs.now)) limit few) }
{
    let most = limit as usize + 1;
    ends.clear();
    ends.push(GraphArc {
        feat: Feat(0),
        to: Node(0),
    })?;
    for at in 0..most {
        if at >= ends.len() {
            return Ok(true);
        }
        go_on(ends, starts, arcs, at)?;
        if ends.len() > most {
            return Ok(false);
        }
    }
    if ends.len() > most {
        return Ok(false);
    }
    Ok(true)
}
