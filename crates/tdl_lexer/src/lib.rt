//! The tokens of a TDL text, or its first fault.
#![tactic(auto)]

mod pieces;
mod scan;
mod values;

ghost use Rattle.std.specs.Prelude.{◌≡◌, ℕ, ◌+◌, ◌<◌, ◌^◌, ◌⊎◌, List, length, IfOk, IfErr, Some, None, Option};
ghost use Rattle.std.specs.Str.{chars};
ghost use Rattle.tdl_lexer.specs.Readings.{unmarked, mark_width, Reads, Tokens};
ghost use Rattle.tdl_lexer.specs.declared.LexFault.TheVariants.{NoMemory};
ghost use Rattle.tdl_lexer.specs.declared.Mode.TheVariants.{Plain};
ghost use Rattle.tdl_lexer.specs.declared.Token.{Token};
ghost use Rattle.tdl_lexer.specs.declared.LexFault.{LexFault};

use crate::pieces::{fault, piece};
use crate::scan::first;
pub use scan::is_name;
pub use std::alloc::AllocError as NoMemory;
use std::alloc::{AllocError, AllocFailed, Global};
use std::str;
pub use values::{spelled, value};

/// What a token is, by its spelling.
#[derive(Clone, Copy, Debug, PartialEq, Eq)]
pub enum TokenKind {
    /// One or more name characters.
    Name,
    /// A string between quotes.
    Text,
    /// `'` and a name, which stands for a string.
    Symbol,
    /// `#` and a name.
    Coref,
    /// `:` and a name.
    Directive,
    /// `%` directly before a group.
    LetterSet,
    /// `%prefix`.
    Prefix,
    /// `%suffix`.
    Suffix,
    /// A raw group between parentheses.
    Group,
    /// `:=`, and `:<` which is read as `:=`.
    Defined,
    /// `:+`.
    Added,
    /// `&`.
    And,
    /// `[`.
    AvmOpens,
    /// `]`.
    AvmCloses,
    /// `<`.
    ListOpens,
    /// `>`.
    ListCloses,
    /// `<!`.
    DiffOpens,
    /// `!>`.
    DiffCloses,
    /// `,`.
    Comma,
    /// `.`.
    Dot,
    /// `...`.
    Dots,
}

/// A token of a file: its kind, and its bytes from `from` up to and without `to`.
#[derive(Clone, Copy, Debug, PartialEq, Eq)]
pub struct Token {
    pub kind: TokenKind,
    pub from: u32,
    pub to: u32,
}

/// Where a raw group may stand: nowhere, here after white space, or here at once.
#[derive(Clone, Copy, Debug, PartialEq, Eq)]
pub enum Mode {
    /// No group may stand here.
    Plain,
    /// After `%prefix`, `%suffix` and their groups.
    Near,
    /// After the `%` of a letter set.
    Direct,
}

/// The first fault of a file. Each `at` is a byte of the file.
#[derive(Clone, Copy, Debug, PartialEq, Eq)]
pub enum LexFault {
    /// The bytes aren't UTF-8; the longest front that is has `at` bytes.
    NotUtf8 { at: u32 },
    /// The character begins no token.
    BadChar { at: u32 },
    /// A string or docstring isn't closed; its first quote is at `at`.
    OpenString { at: u32 },
    /// A block comment isn't closed; its `#` is at `at`.
    OpenComment { at: u32 },
    /// A group of a spelling rule or letter set isn't closed; its first parenthesis is at `at`.
    OpenGroup { at: u32 },
    /// Want of memory.
    NoMemory,
}

impl From<AllocError> for LexFault {
    ghost from_gives = { λ _ e. e ≡ NoMemory };

    fn from(_: AllocError) -> LexFault {
        LexFault::NoMemory
    }
}

impl<T: Drop> From<AllocFailed<T>> for LexFault {
    ghost from_gives = { λ _ e. e ≡ NoMemory };

    fn from(_: AllocFailed<T>) -> LexFault {
        LexFault::NoMemory
    }
}

/// The tokens of a text that begins at a place of its file.
fn tokens_from(alloc: Global, text: &str, start: u32) -> Result<Vec<Token>, LexFault>
    requires { start + length text.now < 2 ^ 32 }
    ensures found { IfOk result (λ v. Reads Plain start (chars text.now) v.items None) }
    ensures fault { IfErr result (λ e. (e ≡ LexFault.NoMemory) ⊎ ((ts : List Token) × Reads Plain start (chars text.now) ts (Some e))) }
{
    let mut out = Vec::new(alloc);
    let mut mode = Mode::Plain;
    let mut rest = text;
    while !rest.is_empty() {
        let at = start + (text.len() - rest.len()) as u32;
        let Some(found) = piece(rest, mode) else {
            return Err(fault(rest, mode, at));
        };
        if let Some(kind) = found.what {
            let to = start + (text.len() - found.rest.len()) as u32;
            out.push(Token { kind, from: at, to })?;
        }
        mode = found.next;
        rest = found.rest;
    }
    Ok(out)
}

/// The text after a byte order mark, and the mark's bytes.
fn after_mark_of_order(text: &str) -> (&str, u32)
    ensures rest { chars result.0.now ≡ unmarked (chars text.now) }
    ensures start { result.1 ≡ mark_width (chars text.now) }
    ensures size { result.1 + length result.0.now ≡ length text.now }
{
    if let Some((c, rest)) = first(text) {
        if c == '\u{feff}' {
            return (rest, 3);
        }
    }
    (text, 0)
}

/// The tokens of the bytes of a TDL file in order of writing, or the file's first fault from the left.
///
/// Places are bytes from the file's beginning; a byte order mark there is passed over and counted. Blanks, comments and
/// docstrings are no tokens. Bytes that aren't UTF-8 are refused before all else. The meaning is that of the DELPH-IN
/// TDL description, as `specs/Pieces.antt` restates it.
pub fn tokens(alloc: Global, source: &[u8]) -> Result<Vec<Token>, LexFault>
    requires { length source.now < 2 ^ 32 }
    ensures found { IfOk result (λ v. Tokens source.now v.items None) }
    ensures fault { IfErr result (λ e. (e ≡ LexFault.NoMemory) ⊎ ((ts : List Token) × Tokens source.now ts (Some e))) }
{
    let text = match str::from_utf8(source) {
        Ok(text) => text,
        Err(e) => {
            return Err(LexFault::NotUtf8 {
                at: e.valid_up_to() as u32,
            })
        }
    };
    let (rest, start) = after_mark_of_order(text);
    tokens_from(alloc, rest, start)
}

/// Bytes have one reading: their tokens and their fault are determined.
pub fn one_reading()
    ensures { (source : List ℕ) (ts us : List Token) (d e : Option LexFault) → Tokens source ts d → Tokens source us e → (ts ≡ us) × (d ≡ e) }
{}

/// Each file has a reading: its tokens up to its end, or up to its first fault.
pub fn each_has_a_reading()
    ensures { (source : List ℕ) → (ts : List Token) × (end : Option LexFault) × Tokens source ts end }
{}
