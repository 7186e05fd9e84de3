//! A chart is run to its end, by any number of workers.
ghost use Rattle.std.specs.Prelude.{◌≡◌, ◌<◌, ◌≤◌, [], All, IfOk, MatchResult, map};
ghost use Rattle.chart_core.specs.CoreView.{history_of, leaves_of, limits_of};
ghost use Rattle.chart_core.specs.Grammar.{grammar_of};
ghost use Rattle.chart_core.specs.Kept.{InRange, IsCore, limits_seen};
ghost use Rattle.chart_core.specs.Leaves.{leaf_seen, LeafBelongs};
ghost use Rattle.chart_core.specs.Passed.{IsPassed, IsPassFault};

use crate::Pool;
use crate::concluding::conclude;
use crate::crew::Crew;
use crate::posts::{posts, scratch, seats_of, wants_memory};
use crate::priority::Rank;
use crate::pushing::{opening, push_all};
use crate::running::run;
use crate::terms::Terms;
use chart_core::{ChartFault, Core, Finished, Leaf, Limits};
use chart_model::{NoMemory, Shapes};
use shared_chart::SharedChart;
use std::alloc::Global;
use std::sync::Wait;
use std::thread::Threads;
use worker_gate::Gate;

// The core over these leaves, by a scratch of the crew.
fn opened<S: Shapes>(
    alloc: Global,
    leaves: Vec<Leaf<S>>,
    shapes: &S,
    works: &mut Vec<S::Work>,
    limits: &Limits,
) -> Result<Core<S>, NoMemory>
    requires limits { InRange limits.now }
    requires leaves { All (LeafBelongs (S.calculus shapes.now) (S.belongs shapes.now)) leaves.items }
    ensures core { IfOk result (IsCore (grammar_of S.Shapes S.Cover.Cover.own shapes.now)) }
    ensures leaves { IfOk result (λ core. leaves_of (S.meaning shapes.now) core ≡ map (leaf_seen (S.meaning shapes.now)) leaves.items) }
    ensures limits { IfOk result (λ core. limits_of core ≡ limits_seen limits.now) }
    ensures fresh { IfOk result (λ core. history_of (S.meaning shapes.now) core ≡ []) }
{
    let mut work = scratch(alloc, shapes, works)?;
    let core = Core::start(alloc, leaves, shapes, &mut work, limits)?;
    works.push(work)?;
    Ok(core)
}

/// The finished chart over these leaves, where the limits allow it, and otherwise exactly the fault of the least size by which
/// one is broken, for any number of workers from 1 to 64 and any order of tasks. `NoMemory` may come in place of any answer.
///
/// The tasks of the opening state are pushed by the first seat, in the order of their ranks. Where a worker met want of memory
/// the answer is `NoMemory`. Where room was wanting, or a task was left, the ordered pass decides.
pub fn saturate<R: Wait + Threads + Sync, S: Shapes + Send + Sync, P: Rank + Sync>(
    rt: &R,
    alloc: Global,
    leaves: Vec<Leaf<S>>,
    shapes: &S,
    crew: &mut Crew<S::Work>,
    terms: &Terms<'_, P>,
    gate: &dyn Gate,
) -> Result<Finished<S>, ChartFault>
where
    S::Shape: Send + Sync,
    S::Cover: Send + Sync,
    S::Work: Send + Sync,
    requires limits { InRange terms.now.limits.now }
    requires leaves { All (LeafBelongs (S.calculus shapes.now) (S.belongs shapes.now)) leaves.items }
    ensures { MatchResult result
        (IsPassed (grammar_of S.Shapes S.Cover.Cover.own shapes.now) (S.full shapes.now) (S.agrees shapes.now) (limits_seen terms.now.limits.now) (map (leaf_seen (S.meaning shapes.now)) leaves.items))
        (IsPassFault (S.calculus shapes.now) (limits_seen terms.now.limits.now) (map (leaf_seen (S.meaning shapes.now)) leaves.items)) }
{
    let core = opened(alloc, leaves, shapes, &mut crew.works, terms.limits)?;
    let tasks = opening(alloc, &core, terms.priority)?;
    let (chart, seats) = SharedChart::open(alloc, core, shapes, crew.workers)?;
    let pools = Pool::make(alloc, crew.workers)?;
    let mut posts = posts(alloc, shapes, seats, pools, &mut crew.works)?;
    let first = &mut posts[0];
    push_all(&mut first.pool, &mut first.kept, &tasks)?;
    run(
        rt,
        alloc,
        &chart,
        posts.as_mut_slice(),
        shapes,
        terms.priority,
        gate,
    );
    if wants_memory(&posts) {
        return Err(ChartFault::NoMemory);
    }
    let seats = seats_of(alloc, posts, &mut crew.works)?;
    conclude(alloc, chart, seats, shapes, &mut crew.works, terms.limits)
}
