//! A shared chart is opened and closed.
ghost use Rattle.std.specs.Prelude.{◌≡◌};

use crate::TurnLock;
use crate::chart::Chart;
use crate::seat::ChartSeat;
use crate::shared::SharedChart;
use chart_core::Core;
use chart_model::{NoMemory, Shapes};
use std::alloc::Global;

impl<S: Shapes> SharedChart<S> {
    ghost use Rattle.std.specs.Prelude.{◌≡◌, ◌<◌, ℕ, true, [], length, IfOk};
    ghost use mathlib.Core.Option.{some};
    ghost use lib.ListN.{get_elem?};
    ghost use Rattle.shared_chart.specs.Turns.{calls_by, total};
    ghost use Rattle.chart_core.specs.Grammar.{grammar_of};
    ghost use Rattle.chart_core.specs.CoreView.{history_of};
    ghost use Rattle.chart_core.specs.Kept.{IsCore};
    ghost use Rattle.chart_core.specs.Later.{IsLater};
    ghost use Rattle.shared_chart.specs.Calls.{calls_of};
    ghost use Rattle.shared_chart.specs.Seats.{state_of, made_by, saw_mark, set_mark, chart_shapes, chart_seats, IsFirst, IsSeat};

    /// The chart behind its lock, and its seats in order of their numbers, from 0 on, which have seen the opening state. No task of
    /// the core is done.
    pub fn open(
        alloc: Global,
        core: Core<S>,
        shapes: &S,
        seats: u32,
    ) -> Result<(SharedChart<S>, Vec<ChartSeat<S>>), NoMemory>
        requires some { 0 < seats }
        requires core { IsCore (grammar_of S.Shapes S.Cover.Cover.own shapes.now) core }
        requires fresh { history_of (S.meaning shapes.now) core ≡ [] }
        ensures count { IfOk result (λ r. (length r.1.items ≡ seats) × (chart_seats r.0 ≡ seats) × (chart_shapes r.0 ≡ shapes.now)) }
        ensures each { IfOk result (λ r. (i : ℕ) → (s : _) → get_elem? r.1.items i ≡ some s → IsFirst r.0 i core s) }
    {
        let (lock, seats) = TurnLock::open(alloc, shapes, Chart { core }, seats)?;
        Ok((SharedChart { lock }, seats))
    }

    /// The core, once all seats are given back. Its history has of each seat exactly the calls that it entered, in their order, and
    /// no others, so that it is as long as these are together. It is later than each state that a seat has seen, and a mark
    /// that one of the seats has seen was set by one of them.
    pub fn close(self, seats: Vec<ChartSeat<S>>) -> Core<S>
        requires count { (length seats.items ≡ chart_seats self) × (0 < length seats.items) }
        requires each { (i : ℕ) → (s : _) → get_elem? seats.items i ≡ some s → IsSeat self i s }
        ensures core { IsCore (grammar_of S.Shapes S.Cover.Cover.own (chart_shapes self)) result }
        ensures later { (i : ℕ) → (s : _) → get_elem? seats.items i ≡ some s → IsLater (grammar_of S.Shapes S.Cover.Cover.own (chart_shapes self)) (state_of s) result }
        ensures calls { (i : ℕ) → (s : _) → get_elem? seats.items i ≡ some s → calls_by (λ call. call.by.seat) i (calls_of result) ≡ made_by s }
        ensures callers { (m : ℕ) → (call : _) → get_elem? (calls_of result) m ≡ some call → call.by.seat < length seats.items }
        ensures length { length (calls_of result) ≡ total (λ s. length (made_by s)) seats.items }
        ensures mark { (i : ℕ) → (s : _) → get_elem? seats.items i ≡ some s → saw_mark s ≡ true → (j : ℕ) × (d : _) × (get_elem? seats.items j ≡ some d) × (0 < set_mark d) }
    {
        let chart = self.lock.close(seats);
        chart.core
    }
}
