//! Opening the lock, and closing it.
ghost use Rattle.std.specs.Prelude.{◌≡◌, ℕ, ◌-◌, ◌<◌, true, [], ◌∷◌, length, Some, IfOk};
ghost use mathlib.Core.Option.{some};
ghost use lib.ListN.{get_elem?};
ghost use Rattle.shared_chart.specs.Turns.{newcomer, calls_by, total};
ghost use Rattle.shared_chart.specs.TurnSeats.{own_calls, IsIdle, IsFresh, Knows, Sits, Has};
ghost use Rattle.shared_chart.specs.Held.{IsOpened, base_of, state_of};

use crate::held::LockSeat;
use crate::key::Key;
use crate::lock::{Board, Chair, TurnLock};
use crate::machine::Machine;
use crate::rule::{Cut, Glue};
use atomic_table::Table;
use std::alloc::{AllocError, Global};
use std::snapshot::Snapshot;

// The lock over an object without history, and the chair from which those of all seats are cut.
fn lay<B, M: Machine<B, E> + Drop, E>(
    alloc: Global,
    base: &B,
    object: M,
    seats: u32,
) -> Result<(TurnLock<B, M, E>, Chair<B, M, E>), AllocError>
    requires { (0 < seats) × (M.history object ≡ []) × M.stands base.now object }
    ensures { IfOk result (λ r. (r.1.table_id ≡ r.0.board.shared.table_id) × (r.0.board.shared.key.seats ≡ seats) × (r.0.board.shared.key.base.value ≡ base.now) × (r.1.me ≡ (newcomer (Some base.now) (object ∷ []) 0 (seats - 1), []))) }
{
    let key = Key {
        seats: u64::from(seats),
        base: Snapshot::of(base),
        opening: Snapshot::of(&object),
    };
    let mut slots = Vec::new(alloc);
    slots.push(Some(object))?;
    match Table::new(alloc, &[0, 0, 0], slots, &key) {
        Ok((board, chair)) => Ok((TurnLock { board }, chair)),
        Err(_) => Err(AllocError),
    }
}

impl<B, M: Machine<B, E> + Drop, E> TurnLock<B, M, E> {
    /// The lock over an object without history, and its seats in order of their numbers, from 0 on. Each has seen the object as
    /// it is now, and made no call.
    pub fn open(
        alloc: Global,
        base: &B,
        object: M,
        seats: u32,
    ) -> Result<(TurnLock<B, M, E>, Vec<LockSeat<B, M, E>>), AllocError>
        requires { (0 < seats) × (M.history object ≡ []) × M.stands base.now object }
        ensures count { IfOk result (λ r. (length r.1.items ≡ seats) × (r.0.board.shared.key.seats ≡ seats) × (r.0.board.shared.key.base.value ≡ base.now)) }
        ensures each { IfOk result (λ r. (i : ℕ) → (c : _) → get_elem? r.1.items i ≡ some c → IsOpened r.0.board.shared.table_id i base.now object c) }
    {
        let (lock, mut first) = lay(alloc, base, object, seats)?;
        let mut later = Vec::with_capacity(alloc, seats as usize - 1)?;
        for number in 1..seats {
            let chair = lock.board.shared.split_seat::<Cut>(&mut first);
            later.push_reserved(seated(chair, number));
        }
        let mut chairs = Vec::with_capacity(alloc, seats as usize)?;
        chairs.push_reserved(seated(first, 0));
        chairs.append(&mut later)?;
        Ok((lock, chairs))
    }

    // One chair that stands for all seats.
    fn gather(&self, mut seats: Vec<LockSeat<B, M, E>>) -> Chair<B, M, E>
        requires some { 0 < length seats.items }
        requires each { (i : ℕ) → (c : _) → get_elem? seats.items i ≡ some c → (c.chair.table_id ≡ self.now.board.shared.table_id) × (c.number ≡ i) }
        ensures id { result.table_id ≡ self.now.board.shared.table_id }
        ensures rests { IsIdle result.me }
        ensures has { (i : ℕ) → (c : _) → get_elem? seats.items i ≡ some c → Has result.me i c.chair.me }
        ensures set { 0 < result.me.0.set → (j : ℕ) × (d : _) × (get_elem? seats.items j ≡ some d) × (0 < d.chair.me.0.set) }
    {
        let Some(seat) = seats.pop() else {
            unreachable!()
        };
        let LockSeat {
            chair: mut first,
            number: _,
            count: _,
        } = seat;
        while let Some(seat) = seats.pop() {
            let LockSeat {
                chair,
                number: _,
                count: _,
            } = seat;
            self.board.shared.join_seat::<Glue>(&mut first, chair);
        }
        drop(seats);
        first
    }

    /// The object, once all seats are given back. Its history has of each seat exactly the calls that it made, in their order,
    /// and no others, so that it is as long as these are together; it is later than each state that a seat had seen; and a mark that a seat has seen was set by one of them.
    pub fn close(self, seats: Vec<LockSeat<B, M, E>>) -> M
        requires count { (length seats.items ≡ self.board.shared.key.seats) × (0 < length seats.items) }
        requires each { (i : ℕ) → (c : _) → get_elem? seats.items i ≡ some c → (c.chair.table_id ≡ self.board.shared.table_id) × (c.number ≡ i) }
        ensures calls { (i : ℕ) → (c : _) → get_elem? seats.items i ≡ some c → calls_by M.caller i (M.history result) ≡ own_calls c.chair.me.0.claims }
        ensures callers { (m : ℕ) → (e : E) → get_elem? (M.history result) m ≡ some e → M.caller e < length seats.items }
        ensures length { length (M.history result) ≡ total (λ c. length (own_calls c.chair.me.0.claims)) seats.items }
        ensures standing { M.stands self.board.shared.key.base.value result }
        ensures seen { (i : ℕ) → (c : _) → get_elem? seats.items i ≡ some c → M.later self.board.shared.key.base.value (state_of c) result }
        ensures mark { (i : ℕ) → (c : _) → get_elem? seats.items i ≡ some c → c.chair.me.0.saw ≡ true → (j : ℕ) × (d : _) × (get_elem? seats.items j ≡ some d) × (0 < d.chair.me.0.set) }
    {
        let all = self.gather(seats);
        let TurnLock { board } = self;
        let mut closed = board.close_with(all);
        let object = closed.take(0);
        closed.free();
        let Some(object) = object else { unreachable!() };
        object
    }
}

// The seat of this number, which has made no call.
fn seated<B, M, E>(chair: Chair<B, M, E>, number: u32) -> LockSeat<B, M, E>
    requires sits { Sits number chair.me }
    requires knows { (b : B) × (x : M) × Knows b x chair.me }
    requires fresh { IsFresh chair.me }
    ensures chair { (result.chair ≡ chair) × (result.number ≡ number) }
{
    LockSeat {
        chair,
        number,
        count: 0,
    }
}
