//! What a finished chart says of the limits.

use crate::counting::{count, fault_below};
use crate::{ChartFault, Finished, Limits};
use chart_model::Shapes;

impl<S: Shapes> Finished<S> {
    ghost use Rattle.std.specs.Prelude.{◌≡◌};
    ghost use Rattle.chart_core.specs.Grammar.{grammar_of};
    ghost use Rattle.chart_core.specs.Kept.{IsCore, pending_of, core_of, limits_seen};
    ghost use Rattle.chart_core.specs.CoreView.{leaves_of, limits_of};
    ghost use Rattle.chart_core.specs.Counted.{IsDecision};

    /// The number of packed classes of levels up to the limit, where neither limit is broken. Takes no memory.
    ///
    /// Otherwise the fault of the least size by which one is broken: a unary chain, an edge of the level above the limit, or
    /// else more packed classes than the limit of edges. The limits are those with which the chart was made.
    pub fn decide(&self, limits: &Limits) -> Result<u32, ChartFault>
        requires core { (s : S) × IsCore (grammar_of S.Shapes S.Cover.Cover.own s) (core_of self.now) }
        requires done { pending_of (core_of self.now) ≡ 0 }
        requires limits { limits_seen limits.now ≡ limits_of (core_of self.now) }
        ensures { (s : S)
            → IsCore (grammar_of S.Shapes S.Cover.Cover.own s) (core_of self.now)
            → IsDecision (S.calculus s) (limits_of (core_of self.now)) (leaves_of (S.meaning s) (core_of self.now)) result }
    {
        let below: u64 = 1 << 32;
        match fault_below(&self.core.rows, limits.edges, limits.unary, below) {
            Some(fault) => Err(fault),
            None => Ok(count(&self.core.rows, 0, limits.unary, below) as u32),
        }
    }
}
