//! What a worker does with its seat.
ghost use Rattle.std.specs.Prelude.{◌≡◌, ℕ, true, ◌+◌, ◌<◌, [], ◌∷◌, ◌++◌, Bool, map, vec_len, IfErr, IfSome, IfNone, OnOk};
ghost use Rattle.crossbeam_deque.specs.Handles.{view, stealer_deque, worker_deque, worker_view};
ghost use Rattle.chart_workers.specs.Balance.{hand, Same};
ghost use Rattle.chart_workers.specs.Pools.{door_way, seat_post};
ghost use Rattle.chart_workers.specs.Seats.{door_hand, door_place, hands, places, Took};

use crate::rule::{Puts, Takes};
use crate::seat::{Door, PoolSeat};
use chart_core::TaskId;
use crossbeam_deque::Steal;
use crossbeam_utils::Backoff;
use std::sync::Wait;

/// Tells a seat that the work is over. It is over or not, as contracts see it, and once over it stays so.
pub trait Over {
    ghost is_over: { Self → Bool };

    // it may be asked
    ghost fit: { Self → Type 0 };

    // what asking makes of it; this is an order
    ghost later: { Self → Self → Type 0 };

    ghost itself: { (x : Self) → fit x → later x x };

    ghost goes_on: { (x y z : Self) → later x y → later y z → later x z };

    /// Whether the work is over as the call ends. Takes no memory, and may wait.
    fn over(&mut self) -> bool
        requires { fit self.old }
        ensures fit { fit self.new }
        ensures later { later self.old self.new }
        ensures now { result ≡ is_over self.new }
        ensures stays { is_over self.old ≡ true → is_over self.new ≡ true };
}

impl Door {
    // Takes the first task of the deque, and tries again where another seat was faster.
    fn steal<R: Wait>(&mut self, rt: &R) -> Option<TaskId>
        ensures same { stealer_deque self.new.thief ≡ stealer_deque self.old.thief }
        ensures number { self.new.deque ≡ self.old.deque }
        ensures some { IfSome result (λ t. view self.new.pass ≡ hand 1 (view self.old.pass).put ((view self.old.pass).taken ++ t ∷ [])) }
        ensures none { IfNone result (view self.new.pass ≡ view self.old.pass) }
    {
        for _ in rt.forever() {
            match self.thief.steal_as::<Takes>(&mut self.pass) {
                Steal::Success(task) => {
                    self.taken = self.taken.wrapping_add(1);
                    return Some(task);
                }
                Steal::Empty => return None,
                Steal::Retry => {}
            }
        }
        unreachable!()
    }
}

impl PoolSeat {
    /// Pushes a task on the seat's own deque. It hands the task back where the deque is full and can't grow, and changes nothing.
    pub fn push(&mut self, task: TaskId) -> Result<(), TaskId>
        ensures same { worker_deque self.new.own ≡ worker_deque self.old.own }
        ensures doors { self.new.doors ≡ self.old.doors }
        ensures post { seat_post self.new ≡ seat_post self.old }
        ensures ok { OnOk result (worker_view self.new.own ≡ hand (worker_view self.old.own).parts ((worker_view self.old.own).put ++ task ∷ []) (worker_view self.old.own).taken) }
        ensures err { IfErr result (λ t. (t ≡ task) × (worker_view self.new.own ≡ worker_view self.old.own)) }
    {
        self.own.push_as::<Puts>(task)?;
        self.pushed = self.pushed.wrapping_add(1);
        Ok(())
    }

    // Takes the first task of the own deque.
    fn pop(&mut self) -> Option<TaskId>
        ensures same { worker_deque self.new.own ≡ worker_deque self.old.own }
        ensures doors { self.new.doors ≡ self.old.doors }
        ensures number { self.new.number ≡ self.old.number }
        ensures some { IfSome result (λ t. worker_view self.new.own ≡ hand (worker_view self.old.own).parts (worker_view self.old.own).put ((worker_view self.old.own).taken ++ t ∷ [])) }
        ensures none { IfNone result ((worker_view self.new.own ≡ worker_view self.old.own) × (vec_len self.new.doors ≡ 0 → Same (worker_view self.new.own).put (worker_view self.new.own).taken)) }
    {
        let task = self.own.pop_as::<Takes>()?;
        self.taken = self.taken.wrapping_add(1);
        Some(task)
    }

    // Takes a task of another deque, of the first in order that has one.
    fn steal<R: Wait>(&mut self, rt: &R) -> Option<TaskId>
        ensures own { (self.new.own ≡ self.old.own) × (self.new.number ≡ self.old.number) }
        ensures ways { map door_way self.new.doors.items ≡ map door_way self.old.doors.items }
        ensures same { map door_place self.new.doors.items ≡ map door_place self.old.doors.items }
        ensures some { IfSome result (λ t. Took (map door_hand self.old.doors.items) t (map door_hand self.new.doors.items)) }
        ensures none { IfNone result (map door_hand self.new.doors.items ≡ map door_hand self.old.doors.items) }
    {
        let mut at = 0;
        while at < self.doors.len() {
            let door = &mut self.doors[at];
            if let Some(task) = door.steal(rt) {
                return Some(task);
            }
            at += 1;
        }
        None
    }

    /// Takes a task, first from the own deque and then from the others, and waits for one until the work is over. Takes no memory.
    ///
    /// `None` comes only where the work is over, and in a pool of one seat only where besides all that was pushed was taken.
    pub fn next<R: Wait, O: Over>(&mut self, rt: &R, over: &mut O) -> Option<TaskId>
        requires { O.fit over.old }
        ensures fit { O.fit over.new }
        ensures later { O.later over.old over.new }
        ensures same { places self.new ≡ places self.old }
        ensures post { seat_post self.new ≡ seat_post self.old }
        ensures some { IfSome result (λ t. Took (hands self.old) t (hands self.new)) }
        ensures none { IfNone result (hands self.new ≡ hands self.old) }
        ensures over { IfNone result (O.is_over over.new ≡ true) }
        ensures alone { IfNone result (vec_len self.new.doors ≡ 0 → Same (worker_view self.new.own).put (worker_view self.new.own).taken) }
    {
        let backoff = Backoff::new();
        for _ in rt.forever() {
            if let Some(task) = self.pop() {
                return Some(task);
            }
            if let Some(task) = self.steal(rt) {
                return Some(task);
            }
            if over.over() {
                return None;
            }
            backoff.snooze();
        }
        unreachable!()
    }
}
