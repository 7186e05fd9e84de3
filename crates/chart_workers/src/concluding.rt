//! What a chart answers when its workers have ended.
ghost use Rattle.std.specs.Prelude.{◌≡◌, ◌<◌, All, ℕ, length, map, MatchResult};
ghost use mathlib.Core.Option.{some};
ghost use lib.ListN.{get_elem?};
ghost use Rattle.chart_core.specs.Grammar.{grammar_of};
ghost use Rattle.chart_core.specs.Kept.{InRange, IsCore, limits_seen};
ghost use Rattle.chart_core.specs.CoreView.{leaves_of, limits_of};
ghost use Rattle.chart_core.specs.Leaves.{leaf_seen, LeafBelongs};
ghost use Rattle.chart_core.specs.Passed.{IsPassed, IsPassFault};
ghost use Rattle.shared_chart.specs.Seats.{state_of, chart_shapes, chart_seats, IsSeat};

use crate::posts::scratch;
use chart_core::{ChartFault, Core, Finished, Leaf, Limits, ordered_pass};
use chart_model::Shapes;
use shared_chart::{ChartSeat, SharedChart};
use std::alloc::Global;

// What the ordered pass answers, by a scratch of the crew.
fn pass_over<S: Shapes>(
    alloc: Global,
    leaves: Vec<Leaf<S>>,
    shapes: &S,
    works: &mut Vec<S::Work>,
    limits: &Limits,
) -> Result<Finished<S>, ChartFault>
    requires limits { InRange limits.now }
    requires leaves { All (LeafBelongs (S.calculus shapes.now) (S.belongs shapes.now)) leaves.items }
    ensures { MatchResult result
        (IsPassed (grammar_of S.Shapes S.Cover.Cover.own shapes.now) (S.full shapes.now) (S.agrees shapes.now) (limits_seen limits.now) (map (leaf_seen (S.meaning shapes.now)) leaves.items))
        (IsPassFault (S.calculus shapes.now) (limits_seen limits.now) (map (leaf_seen (S.meaning shapes.now)) leaves.items)) }
{
    let mut work = scratch(alloc, shapes, works)?;
    let passed = ordered_pass(alloc, leaves, shapes, &mut work, limits);
    match works.push(work) {
        Ok(()) => passed,
        Err(_) => Err(ChartFault::NoMemory),
    }
}

// The chart where nothing is pending and the limits hold, or the fault of the least size by which one is broken.
fn decided<S: Shapes>(
    alloc: Global,
    core: Core<S>,
    shapes: &S,
    works: &mut Vec<S::Work>,
    limits: &Limits,
) -> Result<Finished<S>, ChartFault>
    requires core { IsCore (grammar_of S.Shapes S.Cover.Cover.own shapes.now) core }
    requires limits { InRange limits.now }
    requires same { limits_of core ≡ limits_seen limits.now }
    ensures { MatchResult result
        (IsPassed (grammar_of S.Shapes S.Cover.Cover.own shapes.now) (S.full shapes.now) (S.agrees shapes.now) (limits_seen limits.now) (leaves_of (S.meaning shapes.now) core))
        (IsPassFault (S.calculus shapes.now) (limits_seen limits.now) (leaves_of (S.meaning shapes.now) core)) }
{
    match core.finish() {
        Ok(finished) => match finished.decide(limits) {
            Ok(_) => Ok(finished),
            Err(fault) => Err(fault),
        },
        Err(core) => pass_over(alloc, core.leaves(), shapes, works, limits),
    }
}

/// The finished chart over the leaves with which the chart was opened, where the limits allow it, and otherwise the fault of
/// the least size by which one is broken: whatever the workers did.
pub(crate) fn conclude<S: Shapes>(
    alloc: Global,
    chart: SharedChart<S>,
    seats: Vec<ChartSeat<S>>,
    shapes: &S,
    works: &mut Vec<S::Work>,
    limits: &Limits,
) -> Result<Finished<S>, ChartFault>
    requires count { (length seats.items ≡ chart_seats chart) × (0 < length seats.items) }
    requires each { (i : ℕ) → (s : _) → get_elem? seats.items i ≡ some s → IsSeat chart i s }
    requires shapes { shapes.now ≡ chart_shapes chart }
    requires limits { InRange limits.now }
    requires same { (s : _) → get_elem? seats.items 0 ≡ some s → limits_of (state_of s) ≡ limits_seen limits.now }
    ensures { (s : _) → get_elem? seats.items 0 ≡ some s → MatchResult result
        (IsPassed (grammar_of S.Shapes S.Cover.Cover.own shapes.now) (S.full shapes.now) (S.agrees shapes.now) (limits_seen limits.now) (leaves_of (S.meaning shapes.now) (state_of s)))
        (IsPassFault (S.calculus shapes.now) (limits_seen limits.now) (leaves_of (S.meaning shapes.now) (state_of s))) }
{
    let core = chart.close(seats);
    decided(alloc, core, shapes, works, limits)
}
