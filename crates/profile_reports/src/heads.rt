//! The first word of an item's line, and its sentence.
ghost use Rattle.std.specs.Prelude.{◌≡◌, ◌++◌, IfOk, encode_utf8_all, string_bytes, Some, None};
ghost use Rattle.std.specs.Str.{chars, skip_leading_whitespace};
ghost use Rattle.profile_reports.specs.Profiles.{first_run, after_run, expected_of, named, number_of, is_number};

use crate::NoMemory;
use crate::profiles::Expected;
use std::alloc::Global;

/// The characters of a text.
pub(crate) fn chars_of(alloc: Global, text: &str) -> Result<Vec<char>, NoMemory>
    ensures { IfOk result (λ v. v.items ≡ chars text.now) }
{
    text.chars().collect(alloc)
}

/// The text of characters.
pub(crate) fn text_of(alloc: Global, letters: &[char]) -> Result<String, NoMemory>
    ensures { IfOk result (λ s. string_bytes s ≡ encode_utf8_all letters.now) }
{
    let mut text = String::new(alloc);
    for letter in letters {
        text.push(*letter)?;
    }
    Ok(text)
}

/// The characters without the white space before them.
pub(crate) fn after_blanks(letters: &[char]) -> &[char]
    ensures { result.now ≡ skip_leading_whitespace letters.now }
{
    let mut rest = letters;
    while let [first, more @ ..] = rest {
        if !first.is_whitespace() {
            return rest;
        }
        rest = more;
    }
    rest
}

/// The characters up to the first white space, and those from there on.
pub(crate) fn run_and_rest(letters: &[char]) -> (&[char], &[char])
    ensures run { result.0.now ≡ first_run letters.now }
    ensures rest { result.1.now ≡ after_run letters.now }
{
    for (i, letter) in letters.iter().enumerate() {
        if letter.is_whitespace() {
            return (&letters[..i], &letters[i..]);
        }
    }
    (letters, &[])
}

// Whether a word has one or more characters, all decimal digits.
fn is_number(word: &str) -> bool
    ensures { result ≡ is_number word.now }
{
    let bytes = word.as_bytes();
    if bytes.is_empty() {
        return false;
    }
    for byte in bytes {
        if !byte.is_ascii_digit() {
            return false;
        }
    }
    true
}

// The number of readings that a word writes, in 32 bits.
fn number_of(word: &str) -> Option<Expected>
    ensures { result ≡ number_of word.now }
{
    if !is_number(word) {
        return None;
    }
    match word.parse::<u32>() {
        Ok(count) => Some(Expected::Readings { count }),
        Err(_) => None,
    }
}

// What a word names.
fn named(word: &str) -> Option<Expected>
    ensures { result ≡ named word.now }
{
    if word == "?" {
        return Some(Expected::Unknown);
    }
    if word == "lexical-depth" {
        return Some(Expected::LexicalDepth);
    }
    if word == "unary-chain" {
        return Some(Expected::UnaryChain);
    }
    if word == "edges" {
        return Some(Expected::Edges);
    }
    if word == "readings" {
        return Some(Expected::TooManyReadings);
    }
    None
}

/// What a word says is expected.
pub(crate) fn expected_of(word: &str) -> Option<Expected>
    ensures { result ≡ expected_of word.now }
{
    match named(word) {
        Some(expected) => Some(expected),
        None => number_of(word),
    }
}
