//! Tokens of a text, and why reading stops.

ghost use Rattle.std.specs.Prelude.{◌≡◌};

use crate::kinds::Kind;
pub use std::alloc::AllocError as NoMemory;
use std::alloc::AllocFailed;

/// A token: what it is, its characters, and how many bytes are left from its first one on.
#[derive(Clone, Copy, Debug)]
pub struct Token<'a> {
    pub kind: Kind,
    pub text: &'a str,
    pub left: usize,
}

/// Why reading stops.
#[derive(Clone, Copy, Debug)]
pub(crate) enum Stop {
    /// Nothing goes on where so many bytes are left.
    Left(usize),
    /// Want of memory.
    NoMemory,
}

impl<T: Drop> From<AllocFailed<T>> for Stop {
    ghost use Rattle.mrs_spelling.specs.declared.tokens.Stop.{Stop};

    ghost from_gives = { λ _ e. e ≡ Stop.NoMemory };

    fn from(_error: AllocFailed<T>) -> Stop {
        Stop::NoMemory
    }
}

/// The tokens that the grammar reads off a text, in order of writing; and how many bytes are left where nothing goes on, if they are no whole text of the
/// grammar.
#[derive(Debug, Drop)]
pub struct Tokens<'a> {
    pub list: Vec<Token<'a>>,
    pub stop: Option<usize>,
}
