//! What is declared, and what may be wrong with it.

ghost use Rattle.std.specs.Prelude.{◌≡◌};
ghost use Rattle.type_hierarchy.specs.declared.decl.TypeFault.TheVariants.{NoMemory};

use std::alloc::{AllocError, AllocFailed};

/// A declaration of a type: its name, its parents' names, and the place in bytes at which it stands in its file.
#[derive(Debug, Drop)]
pub struct Decl {
    pub name: String,
    pub parents: Vec<String>,
    pub at: u32,
}

/// What is wrong with declarations. Causes are looked for in this order.
#[derive(Debug, Drop)]
pub enum TypeFault {
    /// The name is defined a second time.
    Duplicate { name: String },
    /// A parent is neither defined nor the top or string type.
    Unknown { name: String, parent: String },
    /// The type is the first written one that is below itself.
    Cycle { name: String },
    /// The top type is defined, or the name is `glbtype` followed by digits alone.
    Reserved { name: String },
    /// More than 16,384 types are written. The count stops at the greatest number of its type.
    TooMany { count: u32 },
    /// Memory ran out.
    NoMemory,
}

impl From<AllocError> for TypeFault {
    ghost from_gives = { λ _ e. e ≡ NoMemory };

    fn from(_: AllocError) -> Self {
        TypeFault::NoMemory
    }
}

impl<T: Drop> From<AllocFailed<T>> for TypeFault {
    ghost from_gives = { λ _ e. e ≡ NoMemory };

    fn from(_: AllocFailed<T>) -> Self {
        TypeFault::NoMemory
    }
}
