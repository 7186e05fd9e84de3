//! The least path that leads to a clash, or that is too long.

ghost use Rattle.std.specs.Prelude.{◌≡◌, ℕ, ◌<◌, ◌≤◌, ◌+◌, length, true, false, Some, IfOk, IfSome};
ghost use Rattle.fs_model.specs.Claims.{Has};
ghost use Rattle.fs_graph.specs.declared.facts.Feat.{Feat as FeatValue};
ghost use Rattle.fs_graph.specs.Facts.{path_of};
ghost use Rattle.forced_types.specs.Inner.Sound.{AreSound, most_of, size_of, entry_in};
ghost use Rattle.forced_types.specs.Inner.Closed.{IsFlat};
ghost use Rattle.forced_types.specs.Inner.Search.{IsGoal, IsNear, IsMarked, AreMarked, IsPick, IsLeastGoal, stepped, mark_at};

use crate::closed_types::least_apart;
use crate::given::Given;
use crate::loading::NONE;
use crate::nodes::Nodes;
use fs_closing::NoMemory;
use fs_graph::{Feat, GraphArc, Node as GraphNode};
use std::alloc::Global;

/// What a path is looked for: a node at which two types have no common one, or the greatest number of features.
#[derive(Clone, Copy)]
pub enum Aim {
    Clash,
    Long,
}

/// The mark of a node. For a clash it is the least number of features from there to one; else as many features as the longest path
/// from there lacks to the greatest number.
pub fn mark(marks: &[u32], n: u32) -> u32
    ensures { result ≡ mark_at marks.now n }
{
    match marks.get(n as usize) {
        Some(mark) => *mark,
        None => 0,
    }
}

// The greatest mark of a node with an arc to a node of a mark.
fn stepped(aim: Aim, mark: u32) -> u64
    ensures { result ≡ stepped aim mark }
{
    match aim {
        Aim::Clash => u64::from(mark) + 1,
        Aim::Long => u64::from(mark).saturating_sub(1),
    }
}

/// Whether a path of so many features to a node of a mark may go on to an aim.
pub fn is_near(aim: Aim, most: usize, mark: u32, length: usize) -> bool
    ensures near { result ≡ true → IsNear aim most mark length }
    ensures far { result ≡ false → IsNear aim most mark length → ⊥ }
{
    match aim {
        Aim::Clash => length <= most && mark as usize <= most - length,
        Aim::Long => mark as usize <= length,
    }
}

impl Nodes {
    // Whether a path of so many features to a node is one that is looked for.
    fn is_goal(&self, given: Given<'_>, aim: Aim, n: u32, length: usize) -> bool
        requires sound { AreSound given self.now }
        requires node { n < size_of self.now }
        ensures goal { result ≡ true → IsGoal given.entry self.now aim n length }
        ensures none { result ≡ false → IsGoal given.entry self.now aim n length → ⊥ }
    {
        match aim {
            Aim::Clash => match least_apart(given, self.types(n)) {
                Some(_) => true,
                None => false,
            },
            Aim::Long => length == given.most(),
        }
    }

    // The marks of all nodes to begin with.
    fn first_marks(&self, alloc: Global, given: Given<'_>, aim: Aim) -> Result<Vec<u32>, NoMemory>
        requires { AreSound given self.now }
    {
        let mut marks = Vec::new(alloc);
        for n in 0..self.size() {
            let mark = match aim {
                Aim::Clash => {
                    if self.is_goal(given, aim, n, 0) {
                        0
                    } else {
                        NONE
                    }
                }
                Aim::Long => given.most().min(NONE as usize) as u32,
            };
            marks.push(mark)?;
        }
        Ok(marks)
    }

    // The least mark that a node may have by its arcs, at most `mark`.
    fn relaxed(&self, given: Given<'_>, aim: Aim, marks: &[u32], n: u32) -> u32
        requires sound { AreSound given self.now }
        requires node { n < size_of self.now }
    {
        let mut least = mark(marks, n);
        let count = self.arc_count(given, n);
        for k in 0..count {
            if let Some(arc) = self.arc_at(given, n, k) {
                let next = mark(marks, self.up(arc.to.0));
                least = least.min(match aim {
                    Aim::Clash => next.saturating_add(1),
                    Aim::Long => next.saturating_sub(1),
                });
            }
        }
        least
    }

    // All marks are lowered once. The answer is whether one was.
    fn relax(&self, given: Given<'_>, aim: Aim, marks: &mut [u32]) -> bool
        requires { AreSound given self.now }
    {
        let mut changed = false;
        for n in 0..self.size() {
            let least = self.relaxed(given, aim, marks, n);
            if (n as usize) < marks.len() && least < marks[n as usize] {
                marks[n as usize] = least;
                changed = true;
            }
        }
        changed
    }

    // Whether an arc leads to no node by whose mark its own would be less.
    fn is_arc_marked(
        &self,
        given: Given<'_>,
        aim: Aim,
        marks: &[u32],
        n: u32,
        arc: GraphArc,
    ) -> bool
        requires sound { AreSound given self.now }
        requires node { n < size_of self.now }
        requires arc { Has arc (entry_in self.now n).arcs }
        ensures { result ≡ true → mark_at marks.now n ≤ stepped aim (mark_at marks.now (entry_in self.now arc.to.0).up) }
    {
        u64::from(mark(marks, n)) <= stepped(aim, mark(marks, self.up(arc.to.0)))
    }

    // Whether the mark of a node is at most the number of features that a path to it has, where such a one is looked for.
    fn is_low(&self, given: Given<'_>, aim: Aim, marks: &[u32], n: u32, length: usize) -> bool
        requires sound { AreSound given self.now }
        requires node { n < size_of self.now }
        ensures { result ≡ true → IsGoal given.entry self.now aim n length → mark_at marks.now n ≤ length }
    {
        if mark(marks, n) as usize <= length {
            return true;
        }
        !self.is_goal(given, aim, n, length)
    }

    // Whether the mark of a node is right.
    fn is_marked(&self, given: Given<'_>, aim: Aim, marks: &[u32], n: u32) -> bool
        requires sound { AreSound given self.now }
        requires node { n < size_of self.now }
        ensures { result ≡ true → IsMarked given.entry self.now aim marks.now n }
    {
        if !self.is_low(given, aim, marks, n, 0) {
            return false;
        }
        if !self.is_low(given, aim, marks, n, given.most()) {
            return false;
        }
        let arcs = self.arcs(n);
        for k in 0..arcs.len() {
            if !self.is_arc_marked(given, aim, marks, n, arcs[k]) {
                return false;
            }
        }
        true
    }

    // Whether all marks are right.
    fn are_marked(&self, given: Given<'_>, aim: Aim, marks: &[u32]) -> bool
        requires { AreSound given self.now }
        ensures { result ≡ true → AreMarked given.entry self.now aim marks.now }
    {
        for n in 0..self.size() {
            if !self.is_marked(given, aim, marks, n) {
                return false;
            }
        }
        true
    }

    /// The marks of all nodes.
    pub fn marks(&self, alloc: Global, given: Given<'_>, aim: Aim) -> Result<Vec<u32>, NoMemory>
        requires { AreSound given self.now }
        ensures { IfOk result (λ v. AreMarked given.entry self.now aim v.items) }
    {
        let mut marks = self.first_marks(alloc, given, aim)?;
        for _ in 0..NONE {
            if !self.relax(given, aim, &mut marks) {
                break;
            }
        }
        if self.are_marked(given, aim, &marks) {
            Ok(marks)
        } else {
            Err(NoMemory)
        }
    }

    // The lesser feature of an arc that may lead to an aim and the best one so far.
    fn better(
        &self,
        given: Given<'_>,
        aim: Aim,
        marks: &[u32],
        arc: GraphArc,
        length: usize,
        best: Option<Feat>,
    ) -> Option<Feat>
        requires sound { AreSound given self.now }
        requires to { arc.to.0 < size_of self.now }
        ensures arc { IsNear aim (most_of given.entry) (mark_at marks.now (entry_in self.now arc.to.0).up) length → (b : FeatValue) × (result ≡ Some b) × (b.0 ≤ arc.feat.0) }
        ensures best { (b : FeatValue) → best ≡ Some b → (b' : FeatValue) × (result ≡ Some b') × (b'.0 ≤ b.0) }
    {
        if !is_near(aim, given.most(), mark(marks, self.up(arc.to.0)), length) {
            return best;
        }
        match best {
            Some(feat) if feat.0 <= arc.feat.0 => Some(feat),
            _ => Some(arc.feat),
        }
    }

    // The arc of least feature that may lead to an aim.
    fn pick(
        &self,
        given: Given<'_>,
        aim: Aim,
        marks: &[u32],
        n: u32,
        length: usize,
    ) -> Option<GraphArc>
        requires sound { AreSound given self.now }
        requires node { n < size_of self.now }
        ensures { IfSome result (IsPick given.entry self.now aim marks.now n length) }
    {
        let arcs = self.arcs(n);
        let mut best = None;
        for k in 0..arcs.len() {
            best = self.better(given, aim, marks, arcs[k], length, best);
        }
        let feat = best?;
        let to = self.arc_end(given, n, feat)?;
        Some(GraphArc {
            feat,
            to: GraphNode(to),
        })
    }

    /// The least path that is looked for. It is known that there is one where the root is near; without one the answer would be
    /// `NoMemory`.
    pub fn path_to(
        &self,
        alloc: Global,
        given: Given<'_>,
        aim: Aim,
        marks: &[u32],
    ) -> Result<Vec<Feat>, NoMemory>
        requires sound { AreSound given self.now }
        requires flat { IsFlat self.now }
        requires marked { AreMarked given self.now aim marks.now }
        ensures { IfOk result (λ p. IsLeastGoal given.entry self.now aim (path_of p.items)) }
    {
        let mut path = Vec::new(alloc);
        let mut at = self.up(0);
        for length in 0..given.most() {
            if self.is_goal(given, aim, at, length) {
                return Ok(path);
            }
            let Some(arc) = self.pick(given, aim, marks, at, length + 1) else {
                return Err(NoMemory);
            };
            path.push(arc.feat)?;
            at = self.up(arc.to.0);
        }
        if self.is_goal(given, aim, at, given.most()) {
            Ok(path)
        } else {
            Err(NoMemory)
        }
    }
}
