//! A core is opened over its leaves, and hands them back.

ghost use Rattle.std.specs.Prelude.{◌≡◌, ◌<◌};
ghost use Rattle.chart_core.specs.Leaves.{leaf_in};

use crate::places::Places;
use crate::rows::Candidate;
use crate::tuples::no_daughters;
use crate::{Core, Leaf, Limits, Row, RowKind};
use chart_model::{NoMemory, Shapes};
use std::alloc::Global;

impl<S: Shapes> Core<S> {
    ghost use Rattle.std.specs.Prelude.{◌≡◌, [], ◌++◌, ◌∷◌, All, IfOk, OnOk, map};
    ghost use Rattle.chart_core.specs.Grammar.{grammar_of};
    ghost use Rattle.chart_core.specs.Kept.{IsCore, IsOpened, InRange, limits_seen};
    ghost use Rattle.chart_core.specs.CoreView.{leaves_of, history_of, limits_of};
    ghost use Rattle.chart_core.specs.Leaves.{leaf_seen, LeafBelongs};
    ghost use Rattle.chart_core.specs.Sound.{KeepsFrame};

    /// A core over these leaves, which are entered in order, with no outcome entered yet.
    ///
    /// It doesn't refuse for their number.
    pub fn start(
        alloc: Global,
        mut leaves: Vec<Leaf<S>>,
        shapes: &S,
        work: &mut S::Work,
        limits: &Limits,
    ) -> Result<Core<S>, NoMemory>
        requires limits { InRange limits.now }
        requires leaves { All (LeafBelongs (S.calculus shapes.now) (S.belongs shapes.now)) leaves.items }
        ensures core { IfOk result (IsCore (grammar_of S.Shapes S.Cover.Cover.own shapes.now)) }
        ensures leaves { IfOk result (λ core. leaves_of (S.meaning shapes.now) core ≡ map (leaf_seen (S.meaning shapes.now)) leaves.items) }
        ensures history { IfOk result (λ core. history_of (S.meaning shapes.now) core ≡ []) }
        ensures limits { IfOk result (λ core. limits_of core ≡ limits_seen limits.now) }
    {
        let spare = Vec::with_capacity(alloc, leaves.len())?;
        let mut core = Core::empty(alloc, spare, leaves.len(), limits)?;
        leaves.reverse();
        while let Some(leaf) = leaves.pop() {
            core.push_leaf(alloc, shapes, work, leaf)?;
        }
        Ok(core)
    }

    // A core without rows, with an index for so many leaves.
    fn empty(
        alloc: Global,
        spare: Vec<Leaf<S>>,
        leaves: usize,
        limits: &Limits,
    ) -> Result<Core<S>, NoMemory>
        requires limits { InRange limits.now }
        requires spare { spare.items ≡ [] }
        ensures core { IfOk result (λ core. (s : S) → IsOpened (grammar_of S.Shapes S.Cover.Cover.own s) core × (leaves_of (S.meaning s) core ≡ [])) }
        ensures limits { IfOk result (λ core. limits_of core ≡ limits_seen limits.now) }
        ensures spare { IfOk result (λ core. core.spare ≡ spare) }
    {
        let cells = Places::new(alloc, lists_of_cells(leaves))?;
        let begins = Places::new(alloc, lists_of_nodes(leaves))?;
        let ends = Places::new(alloc, lists_of_nodes(leaves))?;
        Ok(Core {
            rows: Vec::new(alloc),
            tasks: Vec::new(alloc),
            history: Vec::new(alloc),
            made: 0,
            edges: limits.edges,
            unary: limits.unary,
            cells,
            begins,
            ends,
            spare,
        })
    }

    // Enters the row of a leaf.
    fn push_leaf(
        &mut self,
        alloc: Global,
        shapes: &S,
        work: &mut S::Work,
        leaf: Leaf<S>,
    ) -> Result<(), NoMemory>
        requires leaf { LeafBelongs (S.calculus shapes.now) (S.belongs shapes.now) leaf }
        requires core { IsOpened (grammar_of S.Shapes S.Cover.Cover.own shapes.now) self.old }
        ensures core { OnOk result (IsOpened (grammar_of S.Shapes S.Cover.Cover.own shapes.now) self.new) }
        ensures leaves { OnOk result (leaves_of (S.meaning shapes.now) self.new ≡ leaves_of (S.meaning shapes.now) self.old ++ leaf_seen (S.meaning shapes.now) leaf ∷ []) }
        ensures frame { KeepsFrame self.old self.new }
    {
        let new = Candidate {
            kind: RowKind::Leaf { name: leaf.name },
            daughters: no_daughters(),
            cover: leaf.cover,
            level: 0,
            shape: leaf.shape,
        };
        let peer = self.peer_over(shapes, work, &[], &new.cover, new.level, &new.shape)?;
        self.push_whole(alloc, shapes, work, &[], new, peer)
    }

    /// The leaves, in order, as they were when the core was opened. Takes no memory.
    pub fn leaves(self) -> Vec<Leaf<S>>
        requires { (s : S) × IsCore (grammar_of S.Shapes S.Cover.Cover.own s) self }
        ensures leaves { (s : S) → map (leaf_seen (S.meaning s)) result.items ≡ leaves_of (S.meaning s) self }
        ensures belongs { (s : S) → IsCore (grammar_of S.Shapes S.Cover.Cover.own s) self → All (LeafBelongs (S.calculus s) (S.belongs s)) result.items }
    {
        let mut leaves = self.spare;
        let mut rows = self.rows;
        rows.reverse();
        while let Some(row) = rows.pop() {
            if let Some(leaf) = leaf_of(row) {
                leaves.push_reserved(leaf);
            }
        }
        leaves
    }
}

// How many lists to keep for the covers of edges over so many leaves: about as many as there are spans, up to a bound. Each
// is a prime number, over which the cells of spans lie evenly.
fn lists_of_cells(leaves: usize) -> usize
    ensures { 0 < result }
{
    match leaves {
        0..=8 => 37,
        9..=24 => 251,
        25..=64 => 1021,
        _ => 4093,
    }
}

// How many lists to keep for the places where edges over so many leaves begin or end.
fn lists_of_nodes(leaves: usize) -> usize
    ensures { 0 < result }
{
    leaves.min(4000) + 1
}

// The leaf that the row is, if it is one.
fn leaf_of<S: Shapes>(row: Row<S>) -> Option<Leaf<S>>
    ensures { result ≡ leaf_in row.kind row.cover row.shape }
{
    match (row.kind, row.shape) {
        (RowKind::Leaf { name }, Some(shape)) => Some(Leaf {
            cover: row.cover,
            shape,
            name,
        }),
        _ => None,
    }
}
