//! A seat between two calls.
ghost use Rattle.std.specs.Prelude.{◌≡◌, true, is_some, length};
ghost use Rattle.shared_chart.specs.TurnSeats.{Sits, own_calls};

use crate::lock::Chair;

/// A seat of a lock, between two calls: its number, and how many calls it has entered. It knows how the object began
/// (`base_of`) and the latest state of it that it has seen (`state_of`); both stand in the proofs alone.
#[derive(Drop)]
pub struct LockSeat<B, M, E> {
    pub chair: Chair<B, M, E>,
    pub number: u32,
    pub count: u64,
    pub ghost counted: { count ≡ length (own_calls chair.me.0.claims) },
    pub ghost sits: { Sits number chair.me },
    pub ghost begun: { is_some chair.me.0.base ≡ true },
    pub ghost single: { length chair.me.0.seen ≡ 1 },
}
