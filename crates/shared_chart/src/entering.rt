//! The calls that enter an outcome.
ghost use Rattle.std.specs.Prelude.{◌≡◌, is_some};
ghost use Rattle.shared_chart.specs.Told.{call_added};

use crate::found::{Finding, Tools};
use crate::informed::Informed;
use crate::informing::inform_new;
use crate::seat::ChartSeat;
use crate::shared::SharedChart;
use chart_core::{Call, Caller, Entered};
use chart_model::Shapes;
use std::alloc::Global;
use std::sync::Wait;

// Whether the answer added an entry to the history.
fn adds(entered: Entered) -> bool
    ensures { (t : _) → (by : _) → result ≡ is_some (call_added t by entered) }
{
    match entered {
        Entered::Skipped { .. } | Entered::Noted { .. } | Entered::Placed { .. } => true,
        Entered::Stale { .. } | Entered::Full { .. } | Entered::NoMemory => false,
    }
}

impl<S: Shapes> SharedChart<S> {
    ghost use Rattle.std.specs.Prelude.{◌≡◌, ◌<◌, OnOk};
    ghost use Rattle.chart_core.specs.Grammar.{grammar_of};
    ghost use Rattle.chart_core.specs.Kept.{tasks_of};
    ghost use Rattle.chart_core.specs.Outcomes.{ShapeBelongs};
    ghost use Rattle.shared_chart.specs.Seats.{shapes_of, state_of, seat_id, chart_id};
    ghost use Rattle.shared_chart.specs.Told.{Enters, IsRightSince, AreRightSince};
    ghost use Rattle.shared_chart.specs.Infos.{AreNewInfos};

    /// Enters what was found of a task, as `Core::enter_tested` does, with the seat's number and the number of its entered calls so
    /// far as the caller. In the same turn it writes into the tools' list what there is to know of the tasks that were made, in order:
    /// their rules, and the sizes and levels of their hosts. Where none were made the list is empty.
    ///
    /// The answer is the core's in a state after a legal history that begins with what the seat had seen. The seat has then
    /// seen the state that the call left, and made the call that the answer added.
    pub fn enter<R: Wait>(
        &self,
        rt: &R,
        alloc: Global,
        seat: &mut ChartSeat<S>,
        shapes: &S,
        tools: &mut Tools<S::Work>,
        found: Finding<S>,
    ) -> Informed
        requires seat { seat_id seat.old ≡ chart_id self.now }
        requires shapes { shapes.now ≡ shapes_of seat.old }
        requires made { found.task.0 < tasks_of (state_of seat.old) }
        requires right { IsRightSince (grammar_of S.Shapes S.Cover.Cover.own shapes.now) (state_of seat.old) found.task.0 found.outcome }
        requires belongs { ShapeBelongs (S.belongs shapes.now) found.outcome }
        requires verdicts { AreRightSince (grammar_of S.Shapes S.Cover.Cover.own shapes.now) (state_of seat.old) found.outcome found.tested.verdicts.items }
        ensures enters { Enters (grammar_of S.Shapes S.Cover.Cover.own shapes.now) seat.old found.task.0 found.outcome result.entered seat.new }
        ensures infos { OnOk result.told (AreNewInfos S.Cover.extent (state_of seat.new) result.entered tools.new.infos.items) }
    {
        let (_, mut chart) = self.lock.enter(rt, &mut seat.chair);
        let by = Caller {
            seat: seat.number,
            count: seat.count,
        };
        let call = Call {
            task: found.task,
            by,
        };
        let entered = chart.core.enter_tested(
            alloc,
            shapes,
            &mut tools.work,
            call,
            found.outcome,
            &found.tested,
        );
        drop(found.tested);
        let told = inform_new(&chart.core, entered, &mut tools.infos);
        if adds(entered) {
            self.lock.leave_raised(&mut seat.chair, chart);
            seat.count += 1;
        } else {
            self.lock.leave(&mut seat.chair, chart);
        }
        Informed { entered, told }
    }
}
