//! The arcs of two nodes, side by side.

ghost use Rattle.std.specs.Prelude.{◌≡◌, ◌≢◌, ◌⊎◌, ℕ, ◌<◌, ◌≤◌, length, slice_index, slice_set, Some, None, IsTrue, option_map, false};
ghost use Rattle.fs_graph.specs.GraphMap.{arc_to, Rises, IsGraph};
ghost use Rattle.fs_graph.specs.Visits.{feats_of};
ghost use Rattle.fs_trim.specs.Marks.{unmet, Extends};
ghost use Rattle.fs_trim.specs.Matching.{IsSeen, AreArcsKept, NeverSubsumes};

use fs_graph::{Feat, Graph, GraphArc, Node};

/// The mark of a node that isn't met yet.
pub const UNMET: u32 = u32::MAX;

// The first place from `from` on whose feature isn't before `feat`.
fn seek(arcs: &[GraphArc], from: usize, feat: Feat) -> usize
    requires from { from ≤ length arcs.now }
    requires before { (k : ℕ) → k < from → slice_index (feats_of arcs.now) k < feat.0 }
    ensures within { result ≤ length arcs.now }
    ensures before { (k : ℕ) → k < result → slice_index (feats_of arcs.now) k < feat.0 }
    ensures found { result < length arcs.now → feat.0 ≤ slice_index (feats_of arcs.now) result }
{
    let mut place = from;
    while place < arcs.len() {
        if arcs[place].feat.0 >= feat.0 {
            return place;
        }
        place += 1;
    }
    place
}

// Where the arc with a feature leads, where `place` is the first place whose feature isn't before it.
fn arc_at(arcs: &[GraphArc], place: usize, feat: Feat) -> Option<Node>
    requires rises { Rises arcs.now }
    requires within { place ≤ length arcs.now }
    requires before { (k : ℕ) → k < place → slice_index (feats_of arcs.now) k < feat.0 }
    requires found { place < length arcs.now → feat.0 ≤ slice_index (feats_of arcs.now) place }
    ensures { option_map (λ n. n.0) result ≡ arc_to arcs.now feat.0 }
{
    if place == arcs.len() {
        return None;
    }
    let arc = arcs[place];
    if arc.feat.0 != feat.0 {
        return None;
    }
    Some(arc.to)
}

// Whether a node stands for `n` alone: it does so from now on where none did.
fn stands_for(marks: &mut [u32], n: Node, other: Node) -> bool
    requires { n.0 < length marks.old }
    ensures yes { IsTrue result → marks.new ≡ slice_set marks.old n.0 other.0 }
    ensures free { IsTrue result → (slice_index marks.old n.0 ≡ unmet) ⊎ (slice_index marks.old n.0 ≡ other.0) }
    ensures no { result ≡ false → (slice_index marks.old n.0 ≢ unmet) × (slice_index marks.old n.0 ≢ other.0) }
{
    let mark = &mut marks[n.0 as usize];
    if *mark == UNMET {
        *mark = other.0;
    }
    *mark == other.0
}

/// Whether the arcs of a met node lead to nodes that stand for one another, as far as is known, and to none that stands
/// for another node. They are met then.
pub fn arcs_match(marks: &mut [u32], general: &Graph, special: &Graph, n: Node) -> bool
    requires general_graph { IsGraph general.now }
    requires special_graph { IsGraph special.now }
    requires n_in { n.0 < length general.now.types }
    requires seen { IsSeen general.now special.now marks.old }
    requires met { slice_index marks.old n.0 ≢ unmet }
    ensures extends { IsTrue result → Extends marks.old marks.new }
    ensures seen { IsTrue result → IsSeen general.now special.now marks.new }
    ensures kept { IsTrue result → AreArcsKept general.now special.now marks.new n.0 }
    ensures no { result ≡ false → NeverSubsumes general.now special.now }
{
    let others = special.arcs(Node(marks[n.0 as usize]));
    let arcs = general.arcs(n);
    let mut place = 0;
    for arc in arcs {
        place = seek(others, place, arc.feat);
        let Some(to) = arc_at(others, place, arc.feat) else {
            return false;
        };
        if !stands_for(marks, arc.to, to) {
            return false;
        }
    }
    true
}
