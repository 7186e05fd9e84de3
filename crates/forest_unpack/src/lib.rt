//! The trees of a finished chart that are asked for, each once, in the order of trees.
//!
//! Unpacking a packed forest: Oepen and Carroll 2000.
#![tactic(auto)]

ghost use Rattle.std.specs.Prelude.{◌≡◌};
ghost use Rattle.forest_unpack.specs.declared.UnpackFault.TheVariants as faults;

mod asking;
mod chosen;
mod collecting;
mod copying;
mod counted;
mod fulls;
mod groups;
mod index;
mod item;
mod keeping;
mod listing;
mod lists;
mod members;
mod memo;
mod ranks;
mod rows;
mod sifting;
mod summing;
mod tallies;
mod tallying;
mod unpacking;
mod weighing;

pub use fulls::{FullParts, Fulls};
pub use std::alloc::AllocError as NoMemory;
pub use unpacking::unpack;

/// Why there are no trees.
#[derive(Debug, Drop, Clone, Copy, PartialEq, Eq)]
pub enum UnpackFault {
    /// more trees are asked for than the limit
    ReadingLimit,
    NoMemory,
}

impl From<NoMemory> for UnpackFault {
    ghost from_gives = { λ _ fault. fault ≡ faults.NoMemory };

    fn from(_: NoMemory) -> UnpackFault {
        UnpackFault::NoMemory
    }
}
