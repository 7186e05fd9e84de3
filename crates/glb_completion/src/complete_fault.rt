//! Why a hierarchy isn't completed.

ghost use Rattle.std.specs.Prelude.{◌≡◌};
ghost use Rattle.glb_completion.specs.declared.complete_fault.CompleteFault.TheVariants.{NoMemory};

use std::alloc::{AllocError, AllocFailed};

/// Why a hierarchy isn't completed.
#[derive(Clone, Copy, Debug)]
pub enum CompleteFault {
    /// There are more than 65,535 completed types.
    TooManyTypes,
    /// Memory ran out.
    NoMemory,
}

impl From<AllocError> for CompleteFault {
    ghost from_gives = { λ _ e. e ≡ NoMemory };

    fn from(_: AllocError) -> Self {
        CompleteFault::NoMemory
    }
}

impl<T: Drop> From<AllocFailed<T>> for CompleteFault {
    ghost from_gives = { λ _ e. e ≡ NoMemory };

    fn from(_: AllocFailed<T>) -> Self {
        CompleteFault::NoMemory
    }
}
