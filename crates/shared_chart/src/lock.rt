//! The steps of the lock, and the calls that are made of them.
ghost use Rattle.std.specs.Prelude.{◌≡◌, ℕ, ◌+◌, ◌*◌, ◌%◌, ◌^◌, ◌<◌, ◌==◌, ◌||◌, ◌⊎◌, true, false, List, [], ◌∷◌, ◌++◌, length, Some, None, IfOk};
ghost use Rattle.shared_chart.specs.Plays.{Taken, Comes};
ghost use Rattle.shared_chart.specs.TurnSeats.{own_calls, IsIdle};

use crate::key::Key;
use crate::machine::Machine;
use crate::rule::{Draw, End, Give, Look, Mark, Note, Raise, Take, Turns};
use crate::view::View;
use atomic_table::{Seat, Table};
use crossbeam_utils::Backoff;
use std::alloc::Global;
use std::sync::Wait;

/// The three words and the slot of a lock.
pub type Board<B, M, E> = Table<Option<M>, View<B, M, E>, Key<B, M>, Turns, Global>;

/// The token with which a seat steps.
pub type Chair<B, M, E> = Seat<Option<M>, View<B, M, E>>;

// how many turns were drawn, modulo 2^64
const DRAWN: usize = 0;

// how many turns were served, modulo 2^64
const SERVED: usize = 1;

// twice the number of the history's entries, and one more once the mark stands
const LENGTH: usize = 2;

/// A turn lock over an object: a turn is drawn, the object is taken from its slot when that turn is called, and it is put back
/// before the next turn is served. One word counts the entries of the object's history and holds a mark that stays once it is set.
#[derive(Drop)]
pub struct TurnLock<B, M: Machine<B, E>, E> {
    pub board: Board<B, M, E>,
    pub ghost words: { board.shared.table_id.words ≡ 3 },
    pub ghost slots: { board.shared.table_id.slots ≡ 1 },
}

impl<B, M: Machine<B, E>, E> TurnLock<B, M, E> {
    // Draws the next turn.
    fn draw(&self, chair: &mut Chair<B, M, E>) -> u64
        requires id { chair.old.table_id ≡ self.now.board.shared.table_id }
        requires idle { (chair.old.me.0.turn ≡ None) × (0 < length chair.old.me.0.claims) }
        ensures id { (chair.new.table_id ≡ chair.old.table_id) × (chair.new.id ≡ chair.old.id) }
        ensures turn { (t : ℕ) × (t % 2 ^ 64 ≡ result) × (chair.new.me ≡ (record chair.old.me.0 { turn = Some t }, chair.old.me.1)) }
    {
        self.board.shared.fetch_add::<Draw>(chair, DRAWN, 1)
    }

    // Whether the turn is called.
    fn is_called(&self, chair: &mut Chair<B, M, E>, turn: u64) -> bool
        requires id { chair.old.table_id ≡ self.now.board.shared.table_id }
        requires turn { (t : ℕ) × (chair.old.me.0.turn ≡ Some t) × (t % 2 ^ 64 ≡ turn) }
        ensures id { (chair.new.table_id ≡ chair.old.table_id) × (chair.new.id ≡ chair.old.id) }
        ensures yes { result ≡ true → chair.new.me ≡ (record chair.old.me.0 { called = true }, chair.old.me.1) }
        ensures no { result ≡ false → chair.new.me ≡ chair.old.me }
    {
        self.board.shared.load::<Look>(chair, SERVED) == turn
    }

    // Waits until the turn is called.
    fn wait<R: Wait>(&self, rt: &R, chair: &mut Chair<B, M, E>, turn: u64)
        requires id { chair.old.table_id ≡ self.now.board.shared.table_id }
        requires turn { (t : ℕ) × (chair.old.me.0.turn ≡ Some t) × (t % 2 ^ 64 ≡ turn) }
        ensures id { (chair.new.table_id ≡ chair.old.table_id) × (chair.new.id ≡ chair.old.id) }
        ensures called { chair.new.me ≡ (record chair.old.me.0 { called = true }, chair.old.me.1) }
    {
        let backoff = Backoff::new();
        for _ in rt.forever() {
            if self.is_called(chair, turn) {
                return;
            }
            backoff.snooze();
        }
        unreachable!()
    }

    // The word of the history, and the object.
    fn take(&self, chair: &mut Chair<B, M, E>) -> (u64, M)
        requires id { chair.old.table_id ≡ self.now.board.shared.table_id }
        requires called { (chair.old.me.0.called ≡ true) × (chair.old.me.0.holds ≡ false) × (chair.old.me.1 ≡ []) }
        ensures id { (chair.new.table_id ≡ chair.old.table_id) × (chair.new.id ≡ chair.old.id) }
        ensures seat { (mark : ℕ) × (chair.new.me ≡ (record chair.old.me.0 { holds = true; seen = result.1 ∷ []; mark = mark }, (0, None) ∷ [])) × (result.0 ≡ 2 * length (M.history result.1) + mark) × Taken M.history M.caller M.stands M.later chair.old.me result.1 mark }
    {
        let word = self.board.shared.load::<Take>(chair, LENGTH);
        let Some(object) = self.board.shared.exchange(chair, 0, None) else {
            unreachable!()
        };
        (word, object)
    }

    // Lays the object into the slot, which is still this seat's.
    fn put(&self, chair: &mut Chair<B, M, E>, object: M)
    where
        M: Drop,
        requires id { chair.old.table_id ≡ self.now.board.shared.table_id }
        requires out { chair.old.me.1 ≡ (0, None) ∷ [] }
        ensures id { (chair.new.table_id ≡ chair.old.table_id) × (chair.new.id ≡ chair.old.id) }
        ensures seat { chair.new.me ≡ (chair.old.me.0, (0, Some object) ∷ []) }
    {
        let None = self.board.shared.exchange(chair, 0, Some(object)) else {
            unreachable!()
        };
    }

    // One entry more stands in the history.
    fn raise(&self, chair: &mut Chair<B, M, E>)
        requires id { chair.old.table_id ≡ self.now.board.shared.table_id }
        requires entry { (b : B) × (x : M) × (c : M) × (e : E) × Comes M.stands M.later chair.old.me b x c × (chair.old.me.1 ≡ (0, Some c) ∷ []) × (M.history c ≡ M.history x ++ e ∷ []) × (chair.old.me.0.claims ≡ (M.caller e, own_calls chair.old.me.0.claims) ∷ []) × (length (M.history c) < 2 ^ 63) }
        requires holds { chair.old.me.0.holds ≡ true }
        ensures id { (chair.new.table_id ≡ chair.old.table_id) × (chair.new.id ≡ chair.old.id) }
        ensures seat { (c : M) → (x : M) → (e : E) → chair.old.me.1 ≡ (0, Some c) ∷ [] → chair.old.me.0.seen ≡ x ∷ [] → M.history c ≡ M.history x ++ e ∷ [] → chair.new.me ≡ (record chair.old.me.0 { seen = c ∷ []; claims = (M.caller e, own_calls chair.old.me.0.claims ++ e ∷ []) ∷ [] }, chair.old.me.1) }
    {
        self.board.shared.fetch_add::<Raise>(chair, LENGTH, 2);
    }

    // Sets the mark.
    fn mark(&self, chair: &mut Chair<B, M, E>)
        requires id { chair.old.table_id ≡ self.now.board.shared.table_id }
        requires holds { (chair.old.me.0.holds ≡ true) × (chair.old.me.0.mark ≡ 0) × (0 < length chair.old.me.0.claims) }
        ensures id { (chair.new.table_id ≡ chair.old.table_id) × (chair.new.id ≡ chair.old.id) }
        ensures seat { chair.new.me ≡ (record chair.old.me.0 { mark = 1; saw = true; set = 1 }, chair.old.me.1) }
    {
        self.board.shared.fetch_add::<Mark>(chair, LENGTH, 1);
    }

    // Gives the slot back, whose object has the history that it had.
    fn give(&self, chair: &mut Chair<B, M, E>)
        requires id { chair.old.table_id ≡ self.now.board.shared.table_id }
        requires holds { chair.old.me.0.holds ≡ true }
        requires back { (b : B) × (x : M) × (c : M) × Comes M.stands M.later chair.old.me b x c × (chair.old.me.1 ≡ (0, Some c) ∷ []) × (M.history c ≡ M.history x) }
        ensures id { (chair.new.table_id ≡ chair.old.table_id) × (chair.new.id ≡ chair.old.id) }
        ensures seat { (c : M) → chair.old.me.1 ≡ (0, Some c) ∷ [] → chair.new.me ≡ (record chair.old.me.0 { holds = false; seen = c ∷ [] }, []) }
    {
        self.board.shared.load::<Give>(chair, LENGTH);
    }

    // The same, and the seat has then seen whether the mark stands.
    fn give_noting(&self, chair: &mut Chair<B, M, E>)
        requires id { chair.old.table_id ≡ self.now.board.shared.table_id }
        requires holds { chair.old.me.0.holds ≡ true }
        requires back { (b : B) × (x : M) × (c : M) × Comes M.stands M.later chair.old.me b x c × (chair.old.me.1 ≡ (0, Some c) ∷ []) × (M.history c ≡ M.history x) }
        ensures id { (chair.new.table_id ≡ chair.old.table_id) × (chair.new.id ≡ chair.old.id) }
        ensures seat { (c : M) → chair.old.me.1 ≡ (0, Some c) ∷ [] → chair.new.me ≡ (record chair.old.me.0 { holds = false; seen = c ∷ []; saw = chair.old.me.0.saw || (chair.old.me.0.mark == 1) }, []) }
    {
        self.board.shared.load::<Note>(chair, LENGTH);
    }

    // Ends the turn, so that the next one is called.
    fn end(&self, chair: &mut Chair<B, M, E>)
        requires id { chair.old.table_id ≡ self.now.board.shared.table_id }
        requires called { (chair.old.me.0.called ≡ true) × (chair.old.me.0.holds ≡ false) }
        ensures id { (chair.new.table_id ≡ chair.old.table_id) × (chair.new.id ≡ chair.old.id) }
        ensures seat { chair.new.me ≡ (record chair.old.me.0 { turn = None; called = false }, chair.old.me.1) }
    {
        self.board.shared.fetch_add::<End>(chair, SERVED, 1);
    }

    /// Waits for a turn, and takes the object out. With it comes the history's word, twice the number of its entries and one
    /// more where the mark stands. The object comes from the beginning and from each state that the seat has seen (`Taken`).
    pub fn enter<R: Wait>(&self, rt: &R, chair: &mut Chair<B, M, E>) -> (u64, M)
        requires id { chair.old.table_id ≡ self.now.board.shared.table_id }
        requires rests { IsIdle chair.old.me }
        ensures id { (chair.new.table_id ≡ chair.old.table_id) × (chair.new.id ≡ chair.old.id) }
        ensures seat { (t : ℕ) × (mark : ℕ) × (chair.new.me ≡ (record chair.old.me.0 { turn = Some t; called = true; holds = true; seen = result.1 ∷ []; mark = mark }, (0, None) ∷ [])) × (result.0 ≡ 2 * length (M.history result.1) + mark) × Taken M.history M.caller M.stands M.later chair.old.me result.1 mark }
    {
        let turn = self.draw(chair);
        self.wait(rt, chair, turn);
        self.take(chair)
    }

    /// Puts the object back and ends the turn. It may be another state, later than the one taken, with the same history.
    pub fn leave(&self, chair: &mut Chair<B, M, E>, object: M)
    where
        M: Drop,
        requires id { chair.old.table_id ≡ self.now.board.shared.table_id }
        requires inside { (chair.old.me.0.called ≡ true) × (chair.old.me.0.holds ≡ true) × (chair.old.me.1 ≡ (0, None) ∷ []) }
        requires back { (b : B) × (x : M) × Comes M.stands M.later chair.old.me b x object × (M.history object ≡ M.history x) }
        ensures id { (chair.new.table_id ≡ chair.old.table_id) × (chair.new.id ≡ chair.old.id) }
        ensures seat { chair.new.me ≡ (record chair.old.me.0 { seen = object ∷ []; turn = None; called = false; holds = false }, []) }
    {
        self.put(chair, object);
        self.give(chair);
        self.end(chair);
    }

    /// Puts the object back with one entry more, which names this seat as its caller, and ends the turn.
    pub fn leave_raised(&self, chair: &mut Chair<B, M, E>, object: M)
    where
        M: Drop,
        requires id { chair.old.table_id ≡ self.now.board.shared.table_id }
        requires inside { (chair.old.me.0.called ≡ true) × (chair.old.me.0.holds ≡ true) × (chair.old.me.1 ≡ (0, None) ∷ []) }
        requires entry { (b : B) × (x : M) × (e : E) × Comes M.stands M.later chair.old.me b x object × (M.history object ≡ M.history x ++ e ∷ []) × (chair.old.me.0.claims ≡ (M.caller e, own_calls chair.old.me.0.claims) ∷ []) }
        requires room { length (M.history object) < 2 ^ 63 }
        ensures id { (chair.new.table_id ≡ chair.old.table_id) × (chair.new.id ≡ chair.old.id) }
        ensures seat { (x : M) → (e : E) → chair.old.me.0.seen ≡ x ∷ [] → M.history object ≡ M.history x ++ e ∷ [] → chair.new.me ≡ (record chair.old.me.0 { seen = object ∷ []; claims = (M.caller e, own_calls chair.old.me.0.claims ++ e ∷ []) ∷ []; turn = None; called = false; holds = false }, []) }
    {
        self.put(chair, object);
        self.raise(chair);
        self.give(chair);
        self.end(chair);
    }

    /// Does what `leave` does; the seat has then seen whether the mark stands.
    pub fn leave_noting(&self, chair: &mut Chair<B, M, E>, object: M)
    where
        M: Drop,
        requires id { chair.old.table_id ≡ self.now.board.shared.table_id }
        requires inside { (chair.old.me.0.called ≡ true) × (chair.old.me.0.holds ≡ true) × (chair.old.me.1 ≡ (0, None) ∷ []) }
        requires back { (b : B) × (x : M) × Comes M.stands M.later chair.old.me b x object × (M.history object ≡ M.history x) }
        ensures id { (chair.new.table_id ≡ chair.old.table_id) × (chair.new.id ≡ chair.old.id) }
        ensures seat { chair.new.me ≡ (record chair.old.me.0 { seen = object ∷ []; turn = None; called = false; holds = false; saw = chair.old.me.0.saw || (chair.old.me.0.mark == 1) }, []) }
    {
        self.put(chair, object);
        self.give_noting(chair);
        self.end(chair);
    }

    /// Does what `leave` does, and sets the mark, which doesn't stand yet.
    pub fn leave_marked(&self, chair: &mut Chair<B, M, E>, object: M)
    where
        M: Drop,
        requires id { chair.old.table_id ≡ self.now.board.shared.table_id }
        requires inside { (chair.old.me.0.called ≡ true) × (chair.old.me.0.holds ≡ true) × (chair.old.me.1 ≡ (0, None) ∷ []) × (0 < length chair.old.me.0.claims) }
        requires back { (b : B) × (x : M) × Comes M.stands M.later chair.old.me b x object × (M.history object ≡ M.history x) }
        requires clear { chair.old.me.0.mark ≡ 0 }
        ensures id { (chair.new.table_id ≡ chair.old.table_id) × (chair.new.id ≡ chair.old.id) }
        ensures seat { chair.new.me ≡ (record chair.old.me.0 { seen = object ∷ []; turn = None; called = false; holds = false; mark = 1; saw = true; set = 1 }, []) }
    {
        self.put(chair, object);
        self.mark(chair);
        self.give(chair);
        self.end(chair);
    }
}
