//! Words and their letters.

ghost use Rattle.std.specs.Prelude.{◌≡◌, ◌≤◌, ◌<◌, length, IfOk, string_bytes, encode_utf8_all};
ghost use Rattle.spelling_rules.specs.Forms.{joined};
ghost use Rattle.spelling_rules.specs.Inner.Rewriting.{part_of, rest_of};

use lexicon::NoMemory;
use std::alloc::Global;

/// The letters of a word.
pub(crate) fn letters_of(alloc: Global, word: &str) -> Result<Vec<char>, NoMemory>
    ensures { IfOk result (λ v. word.now ≡ encode_utf8_all v.items) }
{
    let letters: Vec<char> = word.chars().collect(alloc)?;
    Ok(letters)
}

/// The word of letters.
pub(crate) fn word_of(alloc: Global, letters: &[char]) -> Result<String, NoMemory>
    ensures { IfOk result (λ s. string_bytes s ≡ encode_utf8_all letters.now) }
{
    let mut word = String::new(alloc);
    for c in letters {
        word.push(*c)?;
    }
    Ok(word)
}

/// The last letters, or the first.
pub(crate) fn part_of(suffix: bool, count: usize, letters: &[char]) -> &[char]
    requires { count ≤ length letters.now }
    ensures value { result.now ≡ part_of suffix count letters.now }
    ensures size { length result.now ≡ count }
{
    if suffix {
        &letters[letters.len() - count..]
    } else {
        &letters[..count]
    }
}

/// The letters but the last ones, or the first.
pub(crate) fn rest_of(suffix: bool, count: usize, letters: &[char]) -> &[char]
    requires { count ≤ length letters.now }
    ensures { result.now ≡ rest_of suffix count letters.now }
{
    if suffix {
        &letters[..letters.len() - count]
    } else {
        &letters[count..]
    }
}

/// Letters before an end, or after a beginning.
pub(crate) fn joined(
    alloc: Global,
    suffix: bool,
    rest: &[char],
    part: &[char],
) -> Result<Vec<char>, NoMemory>
    ensures { IfOk result (λ v. v.items ≡ joined suffix rest.now part.now) }
{
    let mut out = Vec::new(alloc);
    if suffix {
        out.extend_from_slice(rest)?;
        out.extend_from_slice(part)?;
    } else {
        out.extend_from_slice(part)?;
        out.extend_from_slice(rest)?;
    }
    Ok(out)
}
