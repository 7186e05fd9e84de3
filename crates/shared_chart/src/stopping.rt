//! The mark that stops the workers.
ghost use Rattle.std.specs.Prelude.{◌≡◌};

use crate::seat::ChartSeat;
use crate::shared::SharedChart;
use chart_model::Shapes;
use std::sync::Wait;

impl<S: Shapes> SharedChart<S> {
    ghost use Rattle.std.specs.Prelude.{◌≡◌, ◌⊎◌, true};
    ghost use Rattle.chart_core.specs.Grammar.{grammar_of};
    ghost use Rattle.shared_chart.specs.Seats.{shapes_of, state_of, seat_id, chart_id, made_by, saw_mark, set_mark, SameSeat};
    ghost use Rattle.shared_chart.specs.Told.{Sees};

    /// Sets the mark where none stands.
    pub fn stop<R: Wait>(&self, rt: &R, seat: &mut ChartSeat<S>)
        requires seat { seat_id seat.old ≡ chart_id self.now }
        ensures seat { SameSeat seat.old seat.new }
        ensures made { made_by seat.new ≡ made_by seat.old }
        ensures sees { Sees (grammar_of S.Shapes S.Cover.Cover.own (shapes_of seat.old)) (state_of seat.old) (state_of seat.new) }
        ensures saw { saw_mark seat.new ≡ true }
        ensures set { (set_mark seat.new ≡ set_mark seat.old) ⊎ (set_mark seat.new ≡ 1) }
    {
        let (word, chart) = self.lock.enter(rt, &mut seat.chair);
        if word % 2 == 0 {
            self.lock.leave_marked(&mut seat.chair, chart);
        } else {
            self.lock.leave_noting(&mut seat.chair, chart);
        }
    }

    /// Whether the mark stands.
    pub fn stopped<R: Wait>(&self, rt: &R, seat: &mut ChartSeat<S>) -> bool
        requires seat { seat_id seat.old ≡ chart_id self.now }
        ensures seat { SameSeat seat.old seat.new }
        ensures made { made_by seat.new ≡ made_by seat.old }
        ensures sees { Sees (grammar_of S.Shapes S.Cover.Cover.own (shapes_of seat.old)) (state_of seat.old) (state_of seat.new) }
        ensures saw { result ≡ saw_mark seat.new }
        ensures stays { saw_mark seat.old ≡ true → result ≡ true }
        ensures set { set_mark seat.new ≡ set_mark seat.old }
    {
        let (word, chart) = self.lock.enter(rt, &mut seat.chair);
        self.lock.leave_noting(&mut seat.chair, chart);
        word % 2 == 1
    }
}
