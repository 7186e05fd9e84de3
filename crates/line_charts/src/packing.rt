//! A packed chart with the rows that make the members of its classes.

ghost use Rattle.std.specs.Prelude.{All, MatchResult, map};
ghost use Rattle.chart_core.specs.Kept.{InRange, limits_seen};
ghost use Rattle.chart_core.specs.Leaves.{LeafBelongs, leaf_seen};
ghost use Rattle.chart_core.specs.Passed.{IsPassFault};
ghost use Rattle.line_charts.specs.Inner.Hosts.{IsPackedChart};

use chart_core::{ChartFault, Finished, Leaf, Limits, ordered_pass};
use chart_model::Shapes;
use packed_forests::{ClassRows, class_rows, forest_laws};
use std::alloc::Global;

/// A finished chart with its packed classes.
#[derive(Drop)]
pub(crate) struct Packed<S: Shapes> {
    pub(crate) finished: Finished<S>,
    pub(crate) classes: Vec<ClassRows>,
}

/// Finishes the chart over these leaves, by size, and gathers its packed classes.
pub(crate) fn pack<S: Shapes>(
    alloc: Global,
    leaves: Vec<Leaf<S>>,
    shapes: &S,
    work: &mut S::Work,
    limits: &Limits,
) -> Result<Packed<S>, ChartFault>
    requires limits { InRange limits.now }
    requires leaves { All (LeafBelongs (S.calculus shapes.now) (S.belongs shapes.now)) leaves.items }
    ensures { MatchResult result
        (IsPackedChart (S.calculus shapes.now) (S.meaning shapes.now) (S.belongs shapes.now) (limits_seen limits.now) (map (leaf_seen (S.meaning shapes.now)) leaves.items))
        (IsPassFault (S.calculus shapes.now) (limits_seen limits.now) (map (leaf_seen (S.meaning shapes.now)) leaves.items)) }
{
    forest_laws(shapes);
    let finished = ordered_pass(alloc, leaves, shapes, work, limits)?;
    match class_rows(alloc, shapes, work, &finished) {
        Ok(classes) => Ok(Packed { finished, classes }),
        Err(_) => Err(ChartFault::NoMemory),
    }
}
