//! What a chart over given leaves finds: the limit that is broken, that there are too many readings, or the trees.
//!
//! A packed chart and its unpacking: Oepen and Carroll 2000.
#![tactic(auto)]

mod alone;
mod desk;
mod sieving;

ghost use Rattle.std.specs.Prelude.{◌≡◌, All, IfOk, map};
ghost use Rattle.chart_model.specs.Limits.{IsLimitAnswer, Within};
ghost use Rattle.chart_core.specs.CoreView.{leaves_of, limits_of};
ghost use Rattle.chart_core.specs.Grammar.{grammar_of};
ghost use Rattle.chart_core.specs.Kept.{InRange, core_of, limits_seen, pending_of};
ghost use Rattle.chart_core.specs.Leaves.{LeafBelongs, leaf_seen};
ghost use Rattle.chart_core.specs.Passed.{IsPassed};
ghost use Rattle.packed_items.specs.Packed.{Fit, IsFound};

pub use alone::{answer_remembered_alone, answer_sieved_alone};
use chart_core::{ChartFault, Finished, Leaf, Limits, ordered_pass};
use chart_model::Shapes;
use chart_workers::{Rank, Terms, saturate};
use derivation::Tree;
pub use desk::{Desk, ItemLeaves, Work};
use forest_unpack::{Fulls, UnpackFault, unpack};
pub use sieving::{Sieving, answer_remembered, answer_sieved, leaves_over};
pub use std::alloc::AllocError as NoMemory;
use std::alloc::Global;
use std::sync::Wait;
use std::thread::Threads;
use worker_gate::Gate;

/// What is found over the leaves of an item.
#[derive(Debug, Drop)]
pub enum Found {
    /// there is an edge above more unary rules than the limit, by the least size at which a limit is broken
    UnaryChain,
    /// there are more packed classes than the limit by that size, and no such edge
    Edges,
    /// more trees are asked for than the limit
    Readings,
    /// the number of packed classes, and all trees that are asked for, each once, in the order of trees
    Trees { classes: u32, trees: Vec<Tree> },
}

/// Finishes the chart over these leaves, smaller hosts first, and unpacks it: what `answer_leaves` finds, on the caller's thread. It stops
/// at the least size by which a limit is broken.
pub(crate) fn answer_in_order<S: Shapes, F: Fulls<Cover = S::Cover>>(
    alloc: Global,
    shapes: &S,
    work: &mut S::Work,
    trees: &mut F::Work,
    leaves: Vec<Leaf<S>>,
    fulls: &F,
    limits: &Limits,
) -> Result<Found, NoMemory>
    requires limits { InRange limits.now }
    requires leaves { All (LeafBelongs (S.calculus shapes.now) (S.belongs shapes.now)) leaves.items }
    requires fit { Fit (S.calculus shapes.now) (S.full shapes.now) (S.agrees shapes.now) (F.wholes fulls.now) (F.named fulls.now) (F.ruled fulls.now) (map (leaf_seen (S.meaning shapes.now)) leaves.items) }
    ensures { IfOk result (IsFound (S.calculus shapes.now) (S.full shapes.now) (S.agrees shapes.now) (F.wholes fulls.now) limits.now (map (leaf_seen (S.meaning shapes.now)) leaves.items)) }
{
    match ordered_pass(alloc, leaves, shapes, work, limits) {
        Ok(finished) => answer_chart(alloc, shapes, trees, &finished, fulls, limits),
        Err(ChartFault::UnaryChain { .. }) => Ok(Found::UnaryChain),
        Err(ChartFault::Edges { .. }) => Ok(Found::Edges),
        Err(ChartFault::NoMemory) => Err(NoMemory),
    }
}

/// Finishes the chart over an item's leaves, by the workers of `desk`, and unpacks it.
///
/// `shapes` is the grammar that the leaves' shapes belong to.
/// The answer is that of the limits on unary chains and packed classes, where one of them is broken; within them it is the
/// trees that the item's full structures ask for, or that there are more than `readings` of them by the limits. Of `terms` the limits alone
/// enter into an answer: workers, the order of their tasks and the gate change none. `NoMemory` may come in place of any answer.
///
/// Where smaller hosts are to come first, the caller's thread finishes the chart, however many workers there are: a turn at a shared
/// chart costs more than most of its tasks.
pub fn answer_leaves<
    R: Wait + Threads + Sync,
    S: Shapes + Send + Sync,
    F: Fulls<Cover = S::Cover>,
    P: Rank + Sync,
>(
    rt: &R,
    alloc: Global,
    shapes: &S,
    desk: &mut Desk<S::Work, F::Work>,
    item: ItemLeaves<'_, S, F>,
    terms: &Terms<'_, P>,
    gate: &dyn Gate,
) -> Result<Found, NoMemory>
where
    S::Shape: Send + Sync,
    S::Cover: Send + Sync,
    S::Work: Send + Sync,
    requires limits { InRange terms.now.limits.now }
    requires leaves { All (LeafBelongs (S.calculus shapes.now) (S.belongs shapes.now)) item.leaves.items }
    requires fit { Fit (S.calculus shapes.now) (S.full shapes.now) (S.agrees shapes.now) (F.wholes item.fulls.now) (F.named item.fulls.now) (F.ruled item.fulls.now) (map (leaf_seen (S.meaning shapes.now)) item.leaves.items) }
    ensures { IfOk result (IsFound (S.calculus shapes.now) (S.full shapes.now) (S.agrees shapes.now) (F.wholes item.entry.fulls.now) terms.now.limits.now (map (leaf_seen (S.meaning shapes.now)) item.entry.leaves.items)) }
{
    let fulls = item.fulls;
    let limits = terms.limits;
    if terms.priority.is_by_size() {
        return answer_in_order(
            alloc,
            shapes,
            &mut desk.work.chart,
            &mut desk.work.trees,
            item.leaves,
            fulls,
            limits,
        );
    }
    match saturate(rt, alloc, item.leaves, shapes, &mut desk.crew, terms, gate) {
        Ok(finished) => {
            answer_chart(
                alloc,
                shapes,
                &mut desk.work.trees,
                &finished,
                fulls,
                limits,
            )
        }
        Err(ChartFault::UnaryChain { .. }) => Ok(Found::UnaryChain),
        Err(ChartFault::Edges { .. }) => Ok(Found::Edges),
        Err(ChartFault::NoMemory) => Err(NoMemory),
    }
}

// What a finished chart within the limits gives.
fn answer_chart<S: Shapes, F: Fulls<Cover = S::Cover>>(
    alloc: Global,
    shapes: &S,
    work: &mut F::Work,
    finished: &Finished<S>,
    fulls: &F,
    limits: &Limits,
) -> Result<Found, NoMemory>
    requires passed { IsPassed (grammar_of S.Shapes S.Cover.Cover.own shapes.now) (S.full shapes.now) (S.agrees shapes.now) (limits_seen limits.now) (leaves_of (S.meaning shapes.now) (core_of finished.now)) finished.now }
    requires fit { Fit (S.calculus shapes.now) (S.full shapes.now) (S.agrees shapes.now) (F.wholes fulls.now) (F.named fulls.now) (F.ruled fulls.now) (leaves_of (S.meaning shapes.now) (core_of finished.now)) }
    ensures { IfOk result (IsFound (S.calculus shapes.now) (S.full shapes.now) (S.agrees shapes.now) (F.wholes fulls.now) limits.now (leaves_of (S.meaning shapes.now) (core_of finished.now))) }
{
    let classes = match finished.decide(limits) {
        Ok(classes) => classes,
        Err(ChartFault::UnaryChain { .. }) => return Ok(Found::UnaryChain),
        Err(ChartFault::Edges { .. }) => return Ok(Found::Edges),
        Err(ChartFault::NoMemory) => return Err(NoMemory),
    };
    match unpack(alloc, finished, shapes, fulls, work, limits.readings) {
        Ok(trees) => Ok(Found::Trees { classes, trees }),
        Err(UnpackFault::ReadingLimit) => Ok(Found::Readings),
        Err(UnpackFault::NoMemory) => Err(NoMemory),
    }
}
