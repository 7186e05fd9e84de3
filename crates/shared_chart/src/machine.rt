//! What lies behind the lock.
ghost use Rattle.std.specs.Prelude.{ℕ, List};

/// An object that keeps the history of its changes. `B` tells how it began, and `E` is an entry, which names its caller. All
/// of it is said in proofs alone.
pub trait Machine<B, E> {
    // its history: the entries, in order
    ghost history: { Self → List E };

    // the number of the seat that added an entry
    ghost caller: { E → ℕ };

    // the object is one that comes from this beginning
    ghost stands: { B → Self → Type 0 };

    // the second state comes from the first; this is an order on the states that stand
    ghost later: { B → Self → Self → Type 0 };

    ghost itself: { (b : B) (x : Self) → stands b x → later b x x };

    ghost goes_on: { (b : B) (x y z : Self) → later b x y → later b y z → later b x z };
}
