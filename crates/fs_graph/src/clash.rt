//! What goes wrong.

ghost use Rattle.std.specs.Prelude.{◌≡◌};
ghost use Rattle.fs_graph.specs.declared.clash.Clash.TheVariants.{NoMemory as Wanting};

use crate::Node;
pub use std::alloc::AllocError as NoMemory;
use std::alloc::{AllocError, AllocFailed};

/// Why nodes and arcs give no graph.
#[derive(Clone, Copy, Debug, PartialEq, Eq)]
pub enum Clash {
    /// The root reaches this node, and the node reaches itself.
    Cycle { node: Node },
    /// Memory was wanting.
    NoMemory,
}

impl From<AllocError> for Clash {
    ghost from_gives = { λ _ e. e ≡ Wanting };

    fn from(_error: AllocError) -> Clash {
        Clash::NoMemory
    }
}

impl<T: Drop> From<AllocFailed<T>> for Clash {
    ghost from_gives = { λ _ e. e ≡ Wanting };

    fn from(_error: AllocFailed<T>) -> Clash {
        Clash::NoMemory
    }
}
