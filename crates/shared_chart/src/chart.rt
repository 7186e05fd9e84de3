//! The chart, as its lock sees it.
use crate::Machine;
use chart_core::{Caller, Core};
use chart_model::Shapes;

/// An entry of a chart's history, as its lock sees it: the task, and who entered its outcome.
#[derive(Drop, Clone, Copy)]
pub struct Call {
    pub task: u64,
    pub by: Caller,
}

/// The core that lies behind the lock.
#[derive(Drop)]
pub struct Chart<S: Shapes> {
    pub core: Core<S>,
}

impl<S: Shapes> Machine<S, Call> for Chart<S> {
    ghost use Rattle.shared_chart.specs.Calls.{calls_of};
    ghost use Rattle.shared_chart.specs.Times.{ComesAfter, after_itself, after_on};
    ghost use Rattle.chart_core.specs.Grammar.{grammar_of};
    ghost use Rattle.chart_core.specs.Kept.{IsCore};

    ghost history = { λ c. calls_of c.core };

    ghost caller = { λ call. call.by.seat };

    ghost stands = { λ s c. IsCore (grammar_of S.Shapes S.Cover.Cover.own s) c.core };

    ghost later = { λ s x y. ComesAfter (grammar_of S.Shapes S.Cover.Cover.own s) x.core y.core };

    ghost itself = { λ s x is. after_itself (grammar_of S.Shapes S.Cover.Cover.own s) x.core is };

    ghost goes_on = { λ s x y z p q. after_on (grammar_of S.Shapes S.Cover.Cover.own s) x.core y.core z.core p q };
}
