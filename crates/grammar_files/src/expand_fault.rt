//! What may be wrong with a grammar's statements when they are expanded.

ghost use Rattle.std.specs.Prelude.{◌≡◌};
ghost use Rattle.grammar_files.specs.declared.expand_fault.ExpandFault.TheVariants.{NoMemory};

use std::alloc::{AllocError, AllocFailed};

/// What keeps a grammar's statements from being expanded. Causes are looked for in this order, each in order of writing,
/// types before instances.
///
/// `statement` is the place, among the statements that were given, of the one at which the fault stands. Names of types
/// and features are in ASCII lower case.
#[derive(Debug, Drop)]
pub enum ExpandFault {
    /// A body names a type that doesn't exist, or an addendum a type that isn't defined. `at` is the place in bytes of the
    /// name, or of the list that has the type.
    UnknownName {
        name: String,
        at: u32,
        statement: usize,
    },
    /// No type has the feature at the node of its own body. `at` is the place in bytes of the first bracket that itself has
    /// the feature.
    NoIntro {
        feature: String,
        at: u32,
        statement: usize,
    },
    /// No type among the writers of the feature is above all others. `a` and `b` are the first two most general writers, in
    /// order of definition; the fault stands at the definition of `b`.
    Intro {
        feature: String,
        a: String,
        b: String,
        statement: usize,
    },
    /// The type or instance that is defined here has no structure: its facts have an inconsistent closure.
    NoStructure {
        name: String,
        statement: usize,
    },
    /// Memory ran out.
    NoMemory,
}

impl From<AllocError> for ExpandFault {
    ghost from_gives = { λ _ e. e ≡ NoMemory };

    fn from(_: AllocError) -> ExpandFault {
        ExpandFault::NoMemory
    }
}

impl<T: Drop> From<AllocFailed<T>> for ExpandFault {
    ghost from_gives = { λ _ e. e ≡ NoMemory };

    fn from(_: AllocFailed<T>) -> ExpandFault {
        ExpandFault::NoMemory
    }
}
