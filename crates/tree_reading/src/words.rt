//! The words of a leaf, between quotes.

ghost use Rattle.std.specs.Prelude.{◌≡◌, ◌++◌, ◌∷◌, ◌==◌, ◌<◌, ◌≤◌, ◌⊎◌, List, ℕ, false, length, map, All, IfOk, IfErr, MatchOption, string_bytes};
ghost use Rattle.std.specs.List.{flat_map};
ghost use Rattle.derivation.specs.Text.{escaped};
ghost use Rattle.tree_reading.specs.Grammars.{IsWord, AreWords};
ghost use Rattle.tree_reading.specs.Inner.Shapes.{Begins};
ghost use Rattle.tree_reading.specs.Inner.Stops.{IsStop, IsRunCut, BeginsWord, IsEndedWord, IsBody, BeginsBody, HasAdded, IsEscaped, IsWordEnd, body};

use crate::bytes::{split_run, strip};
use crate::stops::Stop;
use std::alloc::Global;

// Appends what stands before the next blank, quote or backslash.
fn take_run<'a>(word: &mut String, text: &'a str) -> Result<&'a str, Stop>
    ensures read { IfOk result (λ rest. HasAdded (string_bytes word.old) (string_bytes word.new) text.now rest.now) }
    ensures shorter { IfOk result (λ rest. length rest.now ≤ length text.now) }
    ensures stopped { IfErr result (λ e. e ≡ Stop.NoMemory) }
{
    let (run, rest) = split_run(text);
    word.push_str(run)?;
    Ok(rest)
}

// The byte that a backslash escapes, and what follows it.
fn escaped_byte(text: &str) -> Option<(&'static str, &str)>
    ensures { MatchOption result ((Begins 34 text.now → ⊥) × (Begins 92 text.now → ⊥)) (λ p. IsEscaped text.now p.0.now p.1.now) }
{
    if let Some(rest) = strip(text, b'"') {
        return Some(("\"", rest));
    }
    let rest = strip(text, b'\\')?;
    Some(("\\", rest))
}

// Appends what a backslash escapes, which stood before this, and what stands before the next blank, quote or backslash.
fn take_escaped<'a>(word: &mut String, text: &'a str) -> Result<&'a str, Stop>
    ensures read { IfOk result (λ rest. HasAdded (string_bytes word.old) (string_bytes word.new) (92 ∷ text.now) rest.now) }
    ensures shorter { IfOk result (λ rest. length rest.now < length text.now) }
    ensures stopped { IfErr result (λ e. (e ≡ Stop.NoMemory) ⊎ ((e ≡ Stop.Left (length text.now)) × (Begins 34 text.now → ⊥) × (Begins 92 text.now → ⊥))) }
{
    let Some((byte, rest)) = escaped_byte(text) else {
        return Err(Stop::Left(text.len()));
    };
    word.push_str(byte)?;
    take_run(word, rest)
}

// A word, up to the blank or the quote that ends it.
fn read_word<'a>(alloc: Global, text: &'a str) -> Result<(String, &'a str), Stop>
    ensures word { IfOk result (λ p. IsWord (string_bytes p.0)) }
    ensures read { IfOk result (λ p. (text.now ≡ flat_map escaped (string_bytes p.0) ++ p.1.now) × IsWordEnd p.1.now) }
    ensures stopped { IfErr result (IsStop IsEndedWord BeginsWord text.now) }
{
    let mut word = String::new(alloc);
    let mut rest = take_run(&mut word, text)?;
    while let Some(after) = strip(rest, b'\\') {
        rest = take_escaped(&mut word, after)?;
    }
    if word.as_bytes().is_empty() || rest.is_empty() {
        return Err(Stop::Left(rest.len()));
    }
    Ok((word, rest))
}

/// Words with a blank between them, up to and with the quote that ends them.
pub(crate) fn read_words<'a>(alloc: Global, text: &'a str) -> Result<(Vec<String>, &'a str), Stop>
    ensures read { IfOk result (λ p. AreWords (map string_bytes p.0.items) × (text.now ≡ body (map string_bytes p.0.items) ++ p.1.now)) }
    ensures stopped { IfErr result (IsStop IsBody BeginsBody text.now) }
{
    let mut words = Vec::new(alloc);
    let mut rest = text;
    'words: loop {
        let (word, after) = read_word(alloc, rest)?;
        words.push(word)?;
        if let Some(end) = strip(after, b'"') {
            return Ok((words, end));
        }
        rest = after.split_at(1).1;
    }
}
