//! A chart with nothing pending.

use crate::{Core, Row, RowId};
use chart_model::Shapes;

/// A chart with nothing pending.
#[derive(Drop)]
pub struct Finished<S: Shapes> {
    pub(crate) core: Core<S>,
}

impl<S: Shapes> Core<S> {
    ghost use Rattle.std.specs.Prelude.{◌≡◌, ◌<◌, ◌≤◌, OnOk, MatchResult};
    ghost use Rattle.chart_model.specs.Finished.{IsComplete};
    ghost use Rattle.chart_model.specs.Grown.{HoldsTrees};
    ghost use Rattle.chart_core.specs.Grammar.{grammar_of};
    ghost use Rattle.chart_core.specs.Kept.{IsCore, tasks_of, pending_of, core_of};
    ghost use Rattle.chart_core.specs.CoreView.{chart_of, leaves_of, limits_of};
    ghost use Rattle.chart_core.specs.Later.{IsLater};

    /// The number of tasks made; no later core has fewer. Takes no memory.
    pub fn tasks(&self) -> u64
        ensures made { result ≡ tasks_of self.now }
        ensures grows { (s : S) (later : _)
            → IsCore (grammar_of S.Shapes S.Cover.Cover.own s) self.now
            → IsCore (grammar_of S.Shapes S.Cover.Cover.own s) later
            → IsLater (grammar_of S.Shapes S.Cover.Cover.own s) self.now later
            → tasks_of self.now ≤ tasks_of later }
    {
        self.tasks.len() as u64
    }

    /// The number of tasks that are pending; where none is, none is in a later core. Takes no memory.
    pub fn pending(&self) -> u64
        requires { (s : S) × IsCore (grammar_of S.Shapes S.Cover.Cover.own s) self.now }
        ensures left { result ≡ pending_of self.now }
        ensures over { (s : S) (later : _)
            → IsCore (grammar_of S.Shapes S.Cover.Cover.own s) self.now
            → IsCore (grammar_of S.Shapes S.Cover.Cover.own s) later
            → IsLater (grammar_of S.Shapes S.Cover.Cover.own s) self.now later
            → pending_of self.now ≡ 0
            → pending_of later ≡ 0 }
    {
        (self.tasks.len() - self.history.len()) as u64
    }

    /// The finished chart, or the core as it was, exactly where a task is pending. Takes no memory.
    ///
    /// Whatever order the outcomes were entered in, the chart is then complete over its leaves, and each tree with a full
    /// structure stands in exactly one group of its forest.
    pub fn finish(self) -> Result<Finished<S>, Core<S>>
        requires { (s : S) × IsCore (grammar_of S.Shapes S.Cover.Cover.own s) self }
        ensures ended { MatchResult result (λ f. (core_of f ≡ self) × (pending_of self ≡ 0)) (λ core. (core ≡ self) × (0 < pending_of self)) }
        ensures complete { OnOk result ((s : S) → IsCore (grammar_of S.Shapes S.Cover.Cover.own s) self → IsComplete (S.calculus s) (limits_of self) (leaves_of (S.meaning s) self) (chart_of (S.meaning s) self)) }
        ensures forest { OnOk result ((s : S) → IsCore (grammar_of S.Shapes S.Cover.Cover.own s) self → HoldsTrees (S.calculus s) (S.full s) (S.agrees s) (limits_of self) (leaves_of (S.meaning s) self) (chart_of (S.meaning s) self)) }
    {
        if self.pending() == 0 {
            Ok(Finished { core: self })
        } else {
            Err(self)
        }
    }
}

impl<S: Shapes> Finished<S> {
    ghost use Rattle.std.specs.Prelude.{◌≡◌, ◌<◌, length, Some, slice_get};
    ghost use Rattle.chart_core.specs.Kept.{core_of, rows_in};

    /// The number of rows. Takes no memory.
    pub fn rows(&self) -> u64
        ensures { result ≡ length (rows_in (core_of self.now)) }
    {
        self.core.rows.len() as u64
    }

    /// A row. Takes no memory.
    pub fn row(&self, row: RowId) -> &Row<S>
        requires { row.0 < length (rows_in (core_of self.now)) }
        ensures { slice_get (rows_in (core_of self.now)) row.0 ≡ Some result.now }
    {
        &self.core.rows[row.0 as usize]
    }
}
