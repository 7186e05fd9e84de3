//! When the work on a chart is over.
ghost use Rattle.std.specs.Prelude.{◌≡◌};
ghost use Rattle.chart_core.specs.Grammar.{grammar_of};
ghost use Rattle.chart_core.specs.Kept.{IsCore};
ghost use Rattle.shared_chart.specs.Seats.{shapes_of, state_of, seat_id, chart_id};
ghost use Rattle.chart_workers.specs.Turns.{GoesOn};
ghost use Rattle.chart_workers.specs.Endings.{is_over};

use crate::Over;
use chart_model::Shapes;
use shared_chart::{ChartSeat, SharedChart};
use std::sync::Wait;

// Whether the seat has seen the mark, or a history after which no task is pending.
pub(crate) fn look<R: Wait, S: Shapes>(
    rt: &R,
    chart: &SharedChart<S>,
    seat: &mut ChartSeat<S>,
) -> bool
    requires seat { seat_id seat.old ≡ chart_id chart.now }
    requires core { IsCore (grammar_of S.Shapes S.Cover.Cover.own (shapes_of seat.old)) (state_of seat.old) }
    ensures seat { GoesOn (grammar_of S.Shapes S.Cover.Cover.own (shapes_of seat.old)) seat.old seat.new }
    ensures over { result ≡ is_over seat.new }
{
    if chart.stopped(rt, seat) {
        return true;
    }
    chart.pending(rt, seat) == 0
}

/// Tells a seat of a pool that the work on a chart is over: where the seat of the chart has seen the mark of `stop`, or a
/// history after which no task is pending.
#[derive(Drop)]
pub struct ChartOver<'a, R, S: Shapes> {
    rt: &'a R,
    chart: &'a SharedChart<S>,
    seat: &'a mut ChartSeat<S>,
}

impl<'a, R: Wait, S: Shapes> ChartOver<'a, R, S> {
    ghost use Rattle.std.specs.Prelude.{◌≡◌};

    /// Lends the seat of a chart. Takes no memory.
    pub fn new(
        rt: &'a R,
        chart: &'a SharedChart<S>,
        seat: &'a mut ChartSeat<S>,
    ) -> ChartOver<'a, R, S>
        ensures same_reference { result.seat.ghost_name ≡ seat.entry.ghost_name }
        ensures seat { result.seat.now ≡ seat.old }
        ensures chart { result.chart.now ≡ chart.now }
    {
        ChartOver { rt, chart, seat }
    }
}

impl<R: Wait, S: Shapes> Over for ChartOver<'_, R, S> {
    ghost use Rattle.std.specs.Prelude.{◌≡◌, refl};
    ghost use Rattle.std.proofs.Common.{◌∙◌};
    ghost use Rattle.chart_core.specs.Grammar.{grammar_of};
    ghost use Rattle.chart_core.specs.Kept.{IsCore};
    ghost use Rattle.shared_chart.specs.Seats.{shapes_of, state_of, seat_id, chart_id};
    ghost use Rattle.chart_workers.specs.Turns.{GoesOn};
    ghost use Rattle.chart_workers.specs.Endings.{is_over};
    ghost use Rattle.chart_workers.specs.Lending.{goes_itself, goes_by};

    ghost is_over = { λ o. is_over o.seat.now };

    ghost fit = { λ o. (seat_id o.seat.now ≡ chart_id o.chart.now) × IsCore (grammar_of S.Shapes S.Cover.Cover.own (shapes_of o.seat.now)) (state_of o.seat.now) };

    ghost later = { λ x y. (y.seat.ghost_name ≡ x.seat.ghost_name) × GoesOn (grammar_of S.Shapes S.Cover.Cover.own (shapes_of x.seat.now)) x.seat.now y.seat.now };

    ghost itself = { λ x is. (refl, goes_itself (grammar_of S.Shapes S.Cover.Cover.own (shapes_of x.seat.now)) x.seat.now is.1) };

    ghost goes_on = { λ x y z p q. (q.0 ∙ p.0, goes_by (grammar_of S.Shapes S.Cover.Cover.own) x.seat.now y.seat.now z.seat.now p.1 q.1) };

    fn over(&mut self) -> bool {
        look(self.rt, self.chart, self.seat)
    }
}
