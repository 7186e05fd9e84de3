//! The draw: numbers from 0 on, each once and none left out.
ghost use Rattle.std.specs.Prelude.{◌≡◌, ℕ, ◌+◌, ◌^◌, ◌<◌, ◌≤◌, [], length, IfOk};
ghost use Rattle.side_by_side.specs.Draws.{times, once_below};
ghost use Rattle.side_by_side.specs.Plays.{after, one_hand, without_one, both, all_hands};

use crate::NoMemory;
use crate::draw_hand::{Hand, Key};
use crate::draw_rule::{Cut, Draw, Drawing, Glue};
use atomic_table::{Seat, Table};
use std::alloc::Global;

/// The token with which a worker draws, or with which several do once they are joined.
pub type Drawer = Seat<(), Hand>;

/// The numbers that are drawn: one word, which counts them.
#[derive(Drop)]
pub struct Draws {
    pub table: Table<(), Hand, Key, Drawing, Global>,
    pub ghost words: { table.shared.table_id.words ≡ 1 },
    pub ghost slots: { table.shared.table_id.slots ≡ 0 },
}

impl Draws {
    /// A draw of so many places by so many workers, and a seat that stands for all of them. Where memory is wanting there is neither.
    pub fn open(alloc: Global, count: u64, seats: u32) -> Result<(Draws, Drawer), NoMemory>
        requires { count < 2 ^ 63 }
        ensures key { IfOk result (λ r. (r.0.table.shared.key.count ≡ count) × (r.0.table.shared.key.seats ≡ seats)) }
        ensures seat { IfOk result (λ r. (r.1.table_id ≡ r.0.table.shared.table_id) × (r.1.me ≡ (all_hands count seats, []))) }
    {
        let key = Key {
            count,
            seats: u64::from(seats),
        };
        let (table, seat) = Table::of_words(alloc, &[0], &key)?;
        Ok((Draws { table }, seat))
    }

    /// The next number, which no other worker draws. It is a place where it is below their count; a worker that drew a number which is
    /// none draws no more.
    pub fn draw(&self, seat: &mut Drawer) -> u64
        requires id { seat.old.table_id ≡ self.now.table.shared.table_id }
        requires room { seat.old.me.0.over < seat.old.me.0.hands }
        ensures id { (seat.new.table_id ≡ seat.old.table_id) × (seat.new.id ≡ seat.old.id) }
        ensures drawn { seat.new.me ≡ (after seat.old.me.0 result, seat.old.me.1) }
        ensures later { length seat.old.me.0.drawn ≤ result }
    {
        self.table.shared.fetch_add::<Draw>(seat, 0, 1)
    }

    /// A seat for one worker, cut from one that stands for several and has drawn nothing.
    pub fn cut(&self, seat: &mut Drawer) -> Drawer
        requires id { seat.old.table_id ≡ self.now.table.shared.table_id }
        requires some { (0 < seat.old.me.0.hands) × (seat.old.me.0.drawn ≡ []) × (seat.old.me.0.over ≡ 0) }
        ensures id { (seat.new.table_id ≡ seat.old.table_id) × (result.table_id ≡ seat.old.table_id) }
        ensures left { seat.new.me ≡ (without_one seat.old.me.0, seat.old.me.1) }
        ensures one { result.me ≡ (one_hand seat.old.me.0, []) }
    {
        self.table.shared.split_seat::<Cut>(seat)
    }

    /// Joins to a seat what another one drew, and the workers for which that one stands.
    pub fn join(&self, seat: &mut Drawer, other: Drawer)
        requires id { (seat.old.table_id ≡ self.now.table.shared.table_id) × (other.table_id ≡ self.now.table.shared.table_id) }
        requires empty { other.me.1 ≡ [] }
        requires some { 0 < seat.old.me.0.hands }
        ensures id { seat.new.table_id ≡ seat.old.table_id }
        ensures both { seat.new.me ≡ (both seat.old.me.0 other.me.0, seat.old.me.1) }
    {
        self.table.shared.join_seat::<Glue>(seat, other);
    }

    /// Ends the draw. A seat that stands for all workers tells that what they drew are the numbers below some number, each once and none
    /// left out.
    pub fn close(self, seat: Drawer)
        requires id { seat.table_id ≡ self.table.shared.table_id }
        requires whole { seat.me.0.hands ≡ self.table.shared.key.seats }
        ensures { (n : ℕ) × ((x : ℕ) → times x seat.me.0.drawn ≡ once_below x n) }
    {
        let closed = self.table.close_with(seat);
        closed.free();
    }
}
