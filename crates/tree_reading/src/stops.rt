//! Why reading stops.

ghost use Rattle.std.specs.Prelude.{◌≡◌};

use derivation::NoMemory;
use std::alloc::{AllocError, AllocFailed};

/// Why reading stops.
#[derive(Clone, Copy, Debug)]
pub(crate) enum Stop {
    /// Nothing goes on where so many bytes are left.
    Left(usize),
    /// Want of memory.
    NoMemory,
}

impl<T: Drop> From<AllocFailed<T>> for Stop {
    ghost use Rattle.tree_reading.specs.declared.stops.Stop.{Stop};

    ghost from_gives = { λ _ e. e ≡ Stop.NoMemory };

    fn from(_error: AllocFailed<T>) -> Stop {
        Stop::NoMemory
    }
}

impl From<AllocError> for Stop {
    ghost use Rattle.tree_reading.specs.declared.stops.Stop.{Stop};

    ghost from_gives = { λ _ e. e ≡ Stop.NoMemory };

    fn from(_error: AllocError) -> Stop {
        Stop::NoMemory
    }
}
