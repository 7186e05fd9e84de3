//! Terminals, and white space.

ghost use Rattle.std.specs.Prelude.{◌≡◌, codes, IfOk, IfErr};
ghost use Rattle.std.specs.Str.{chars, IsUtf8};
ghost use Rattle.mrs_spelling.specs.Grammar.{word};
ghost use Rattle.mrs_spelling.specs.Scanning.{HasRead, HasStopped};
ghost use Rattle.mrs_spelling.specs.Reading.{done};

use crate::classes::{AnyChar, Only, OtherThan, White, first};
use crate::forms::{Begins, Reader, Runs, Sign, Then};
use crate::tokens::{Stop, Token};

pub(crate) type Blanks = Runs<White>;

// A backslash and the character that it stands before.
pub(crate) type Escaped = Then<Sign<Only<b'\\'>>, Sign<AnyChar>>;

// What stands before the next `>`.
pub(crate) type Linked = Runs<OtherThan<b'>'>>;

// The text after a terminal, and white space after it.
fn read_word<'a>(
    text: &'a str,
    terminal: &[u8],
    tokens: &mut Vec<Token<'a>>,
) -> Result<&'a str, Stop>
    ensures read { IfOk result (λ rest. HasRead (word terminal.now) done (chars text.now) (chars rest.now) tokens.old.items tokens.new.items) }
    ensures stopped { IfErr result (λ e. HasStopped (word terminal.now) (chars text.now) tokens.old.items tokens.new.items e) }
    ensures utf8 { IfOk result (λ rest. IsUtf8 rest.now) }
{
    let mut rest = text;
    for byte in terminal {
        match first(rest) {
            Some((c, after)) if c == char::from(*byte) => rest = after,
            _ => return Err(Stop::Left(rest.len())),
        }
    }
    <Blanks as Reader>::read(rest, tokens)
}

/// `TOP`.
pub(crate) struct TopWord;

impl Reader for TopWord {
    ghost form = { word (codes "TOP") };

    fn read<'a>(text: &'a str, tokens: &mut Vec<Token<'a>>) -> Result<&'a str, Stop> {
        read_word(text, b"TOP", tokens)
    }
}

/// `LTOP`.
pub(crate) struct LtopWord;

impl Reader for LtopWord {
    ghost form = { word (codes "LTOP") };

    fn read<'a>(text: &'a str, tokens: &mut Vec<Token<'a>>) -> Result<&'a str, Stop> {
        read_word(text, b"LTOP", tokens)
    }
}

impl Begins<Only<b'L'>> for LtopWord {
    ghost leads = { λ c h. h };
}

/// `INDEX`.
pub(crate) struct IndexWord;

impl Reader for IndexWord {
    ghost form = { word (codes "INDEX") };

    fn read<'a>(text: &'a str, tokens: &mut Vec<Token<'a>>) -> Result<&'a str, Stop> {
        read_word(text, b"INDEX", tokens)
    }
}

/// `RELS`.
pub(crate) struct RelsWord;

impl Reader for RelsWord {
    ghost form = { word (codes "RELS") };

    fn read<'a>(text: &'a str, tokens: &mut Vec<Token<'a>>) -> Result<&'a str, Stop> {
        read_word(text, b"RELS", tokens)
    }
}

/// `HCONS`.
pub(crate) struct HconsWord;

impl Reader for HconsWord {
    ghost form = { word (codes "HCONS") };

    fn read<'a>(text: &'a str, tokens: &mut Vec<Token<'a>>) -> Result<&'a str, Stop> {
        read_word(text, b"HCONS", tokens)
    }
}

impl Begins<Only<b'H'>> for HconsWord {
    ghost leads = { λ c h. h };
}

/// `ICONS`.
pub(crate) struct IconsWord;

impl Reader for IconsWord {
    ghost form = { word (codes "ICONS") };

    fn read<'a>(text: &'a str, tokens: &mut Vec<Token<'a>>) -> Result<&'a str, Stop> {
        read_word(text, b"ICONS", tokens)
    }
}

impl Begins<Only<b'I'>> for IconsWord {
    ghost leads = { λ c h. h };
}
