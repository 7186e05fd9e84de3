//! Why a grammar isn't loaded.

use crate::ExpandFault;
use grammar_settings::NoMemory;
use std::alloc::{AllocError, AllocFailed};
use tdl_lexer::LexFault;
use tdl_reader::ReadFault;
use type_hierarchy::TypeFault;

/// The cause of a fault of a grammar's files.
#[derive(Debug, Drop)]
pub enum Why {
    /// The settings file has a line outside the form; the place is its number.
    Settings,
    /// The shelf failed, or has no such file.
    Shelf,
    /// The file has more than 67,108,864 bytes.
    TooLong,
    /// The file includes itself, perhaps through others.
    IncludeLoop,
    /// It would be the 1,025th file to be read.
    TooManyFiles,
    /// The bytes of the file have no tokens.
    Lex(LexFault),
    /// The tokens of the file are no statements.
    Read(ReadFault),
    /// The statement stands in no environment that takes it, or its environment isn't ended.
    Environment,
    /// The definitions of types and instances have a fault.
    Typing(TypeFault),
    /// The completed hierarchy has more than 65,535 types.
    TooManyTypes,
    /// The statements have a fault of expansion.
    Expand(ExpandFault),
    /// The daughters of a rule are no closed list of as many elements as it may have.
    Arity,
    /// The words of an entry are no closed list of strings with a word.
    Orthography,
}

/// Why a grammar isn't loaded: want of memory, or a fault of the files.
///
/// The file is that in which the fault stands, or that was to be read. The place is a byte of it, the number of a
/// line of settings, or 0 where the fault has no place.
#[derive(Debug, Drop)]
pub enum LoadFault {
    /// Memory was wanting.
    NoMemory,
    /// The first fault of the files.
    Found { file: String, at: u32, why: Why },
}

impl From<AllocError> for LoadFault {
    ghost use Rattle.std.specs.Prelude.{◌≡◌};
    ghost use Rattle.grammar_files.specs.declared.fault.LoadFault.{LoadFault};

    ghost from_gives = { λ _ e. e ≡ LoadFault.NoMemory };

    fn from(_: AllocError) -> LoadFault {
        LoadFault::NoMemory
    }
}

impl<T: Drop> From<AllocFailed<T>> for LoadFault {
    ghost use Rattle.std.specs.Prelude.{◌≡◌};
    ghost use Rattle.grammar_files.specs.declared.fault.LoadFault.{LoadFault};

    ghost from_gives = { λ _ e. e ≡ LoadFault.NoMemory };

    fn from(_: AllocFailed<T>) -> LoadFault {
        LoadFault::NoMemory
    }
}
