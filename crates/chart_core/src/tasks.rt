//! How the tasks of a core stand.

use crate::tuples::{daughters_of, first_frosted};
use crate::{Core, Daughters, RowId, TaskId};
use chart_model::Shapes;

/// How a task stands: done at a place, with a first frosted daughter, or open, with its rule and its daughters.
#[derive(Drop)]
pub enum Standing {
    Done(u64),
    Skipped(RowId),
    Open(u32, Daughters),
}

impl<S: Shapes> Core<S> {
    ghost use Rattle.std.specs.Prelude.{◌<◌};
    ghost use Rattle.chart_core.specs.Grammar.{grammar_of};
    ghost use Rattle.chart_core.specs.Kept.{IsCore, tasks_of};
    ghost use Rattle.chart_core.specs.Standings.{Stands};

    // How a task stands.
    pub(crate) fn standing(&self, _shapes: &S, task: TaskId) -> Standing
        requires core { IsCore (grammar_of S.Shapes S.Cover.Cover.own _shapes.now) self.now }
        requires made { task.0 < tasks_of self.now }
        ensures { Stands (grammar_of S.Shapes S.Cover.Cover.own _shapes.now) self.now task.0 result }
    {
        let info = self.tasks[task.0 as usize];
        if let Some(place) = info.done {
            return Standing::Done(place);
        }
        let daughters = daughters_of(&self.rows, info);
        match first_frosted(&self.rows, &daughters) {
            Some(row) => Standing::Skipped(row),
            None => Standing::Open(info.rule, daughters),
        }
    }
}
