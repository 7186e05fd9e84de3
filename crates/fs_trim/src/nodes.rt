//! The nodes of two structures, side by side.

ghost use Rattle.std.specs.Prelude.{◌≡◌, ◌≢◌, ℕ, ◌<◌, ◌≤◌, ◌↔◌, length, slice_index, IsTrue, All, false};
ghost use Rattle.type_hierarchy.specs.Table.{count_of};
ghost use Rattle.fs_model.specs.Claims.{System};
ghost use Rattle.fs_model.specs.Sources.{Subsumes};
ghost use Rattle.fs_graph.specs.GraphMap.{reader_of, IsGraph};
ghost use Rattle.fs_trim.specs.Marks.{unmet, Extends};
ghost use Rattle.fs_trim.specs.Matching.{HasOrder, IsSeen, IsMatched, IsApart};

use crate::arcs::{UNMET, arcs_match};
use fs_graph::{Graph, Node};
use type_hierarchy::Types;

// Whether a met node's type and arcs are matched. The nodes that its arcs lead to are met then.
fn node_matches(marks: &mut [u32], types: &Types, general: &Graph, special: &Graph, n: Node) -> bool
    requires general_types { All (λ t. t < count_of types.now) general.now.types }
    requires special_types { All (λ t. t < count_of types.now) special.now.types }
    requires general_graph { IsGraph general.now }
    requires special_graph { IsGraph special.now }
    requires n_in { n.0 < length general.now.types }
    requires seen { IsSeen general.now special.now marks.old }
    requires met { slice_index marks.old n.0 ≢ unmet }
    ensures extends { IsTrue result → Extends marks.old marks.new }
    ensures seen { IsTrue result → IsSeen general.now special.now marks.new }
    ensures matched { IsTrue result → IsMatched types.now general.now special.now marks.new n.0 }
    ensures no { result ≡ false → IsApart types.now general.now special.now }
{
    let other = Node(marks[n.0 as usize]);
    if !types.at_or_below(special.ty(other), general.ty(n)) {
        return false;
    }
    arcs_match(marks, general, special, n)
}

/// Whether the general structure subsumes the special one. `marks` has one for each node of the general one at least.
///
/// A node's least path goes on from that of a node with a smaller number, so each node is met before its turn comes.
pub fn nodes_match(marks: &mut [u32], types: &Types, general: &Graph, special: &Graph) -> bool
    requires room { length general.now.types ≤ length marks.old }
    requires general_types { All (λ t. t < count_of types.now) general.now.types }
    requires special_types { All (λ t. t < count_of types.now) special.now.types }
    ensures { (s : System) → HasOrder s types.now → (IsTrue result ↔ Subsumes s (reader_of general.now) (reader_of special.now)) }
{
    let nodes = general.nodes();
    // Its nodes have numbers of 32 bits.
    let _ = special.nodes();
    let (marks, _) = marks.split_at_mut(nodes as usize);
    marks.fill(UNMET);
    marks[0] = 0;
    for n in 0..nodes {
        if !node_matches(marks, types, general, special, Node(n)) {
            return false;
        }
    }
    true
}
