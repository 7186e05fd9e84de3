//! The items of a line: what stands between white space.

ghost use Rattle.std.specs.Prelude.{◌≡◌, ◌≤◌, ◌<◌, ◌+◌, ◌^◌, length, map, take, drop, not, IfOk, encode_utf8_all};
ghost use Rattle.std.specs.Char.{is_whitespace};
ghost use Rattle.lexicon.specs.Words.{Each};
ghost use Rattle.morph_analysis.specs.LatticeLines.{Items};
ghost use Rattle.morph_analysis.specs.Inner.Lines.{BeginsWith, IsLeft, item_of};

use lexicon::NoMemory;
use std::alloc::Global;

/// Characters, and the byte at which they begin.
#[derive(Drop)]
pub(crate) struct Item<'a> {
    pub at: u32,
    pub letters: &'a [char],
}

// How many characters there are before the first that is white space, or that isn't.
fn run_of(letters: &[char], blank: bool) -> usize
    ensures within { result ≤ length letters.now }
    ensures run { Each (λ c. is_whitespace c ≡ blank) (take result letters.now) }
    ensures stops { BeginsWith (not blank) (drop result letters.now) }
{
    for i in 0..letters.len() {
        if letters[i].is_whitespace() != blank {
            return i;
        }
    }
    letters.len()
}

// The number of bytes of characters.
fn bytes_of(letters: &[char]) -> u32
    requires { length (encode_utf8_all letters.now) < 2 ^ 32 }
    ensures { result ≡ length (encode_utf8_all letters.now) }
{
    let mut bytes = 0;
    for c in letters {
        bytes += c.len_utf8() as u32;
    }
    bytes
}

// What is left after white space.
fn after_blanks<'a>(letters: &'a [char], at: u32) -> Item<'a>
    requires { at + length (encode_utf8_all letters.now) < 2 ^ 32 }
    ensures { IsLeft at letters.now (item_of result) }
{
    let gap = run_of(letters, true);
    let blanks = &letters[..gap];
    Item {
        at: at + bytes_of(blanks),
        letters: &letters[gap..],
    }
}

/// The items of a line, in order.
pub(crate) fn items<'a>(alloc: Global, letters: &'a [char]) -> Result<Vec<Item<'a>>, NoMemory>
    requires { length (encode_utf8_all letters.now) < 2 ^ 32 }
    ensures { IfOk result (λ v. Items 0 letters.now (map item_of v.items)) }
{
    let mut out = Vec::new(alloc);
    let mut left = after_blanks(letters, 0);
    while !left.letters.is_empty() {
        let size = run_of(left.letters, false);
        let run = &left.letters[..size];
        out.push(Item {
            at: left.at,
            letters: run,
        })?;
        left = after_blanks(&left.letters[size..], left.at + bytes_of(run));
    }
    Ok(out)
}
