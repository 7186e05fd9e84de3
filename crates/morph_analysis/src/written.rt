//! The step that an item of a line writes.

ghost use Rattle.std.specs.Prelude.{◌≡◌, ◌<◌, ◌++◌, ◌∷◌, ℕ, IfOk, MatchOption, string_bytes, encode_utf8_all};
ghost use Rattle.caseless.specs.Caseless.{default_case_fold};
ghost use Rattle.lexicon.specs.Words.{Has};
ghost use Rattle.morph_analysis.specs.LatticeLines.{IsNumber, Writes};
ghost use Rattle.morph_analysis.specs.LatticeViews.{step_of};
ghost use Rattle.morph_analysis.specs.Inner.Lines.{IsAtColon, HasParts, HasNoParts, WritesNone};

use crate::lattice::Step;
use caseless::default_case_fold_str;
use lexicon::NoMemory;
use std::alloc::Global;

// The greatest number of a node.
const GREATEST: u32 = 65_534;

// What an item writes, its word as it stands there.
#[derive(Drop)]
struct Parts<'a> {
    from: u32,
    to: u32,
    word: &'a [char],
}

// The characters before the first colon, and after it.
fn at_colon<'a>(letters: &'a [char]) -> Option<(&'a [char], &'a [char])>
    ensures { MatchOption result (Has 58 letters.now → ⊥) (λ p. IsAtColon letters.now p.0.now p.1.now) }
{
    for i in 0..letters.len() {
        if letters[i] == ':' {
            return Some((&letters[..i], &letters[i + 1..]));
        }
    }
    None
}

// The number that 1 to 5 digits make.
fn number(letters: &[char]) -> Option<u32>
    ensures { MatchOption result ((n : ℕ) → IsNumber letters.now n → ⊥) (λ n. IsNumber letters.now n) }
{
    if letters.is_empty() || letters.len() > 5 {
        return None;
    }
    let mut value = 0;
    for c in letters {
        if !c.is_ascii_digit() {
            return None;
        }
        value = 10 * value + (*c as u32 - 48);
        if value > GREATEST {
            return None;
        }
    }
    Some(value)
}

// The parts of an item `FROM:TO:WORD`.
fn parts_of<'a>(item: &'a [char]) -> Option<Parts<'a>>
    ensures { MatchOption result (HasNoParts item.now) (λ p. HasParts item.now p.from p.to p.word.now) }
{
    let Some((first, rest)) = at_colon(item) else {
        return None;
    };
    let Some((second, word)) = at_colon(rest) else {
        return None;
    };
    let Some(from) = number(first) else {
        return None;
    };
    let Some(to) = number(second) else {
        return None;
    };
    if from >= to {
        return None;
    }
    if word.is_empty() {
        return None;
    }
    Some(Parts { from, to, word })
}

// The folded word of characters.
fn folded(alloc: Global, letters: &[char]) -> Result<String, NoMemory>
    ensures { IfOk result (λ s. string_bytes s ≡ encode_utf8_all (default_case_fold letters.now)) }
{
    let mut word = String::new(alloc);
    for c in letters {
        word.push(*c)?;
    }
    let out = default_case_fold_str(alloc, word.as_str())?;
    Ok(out)
}

/// The step that an item writes, if it writes one.
pub(crate) fn step_written(alloc: Global, item: &[char]) -> Result<Option<Step>, NoMemory>
    ensures { IfOk result (λ o. MatchOption o (WritesNone item.now) (λ s. Writes item.now (step_of s))) }
{
    match parts_of(item) {
        None => Ok(None),
        Some(parts) => {
            let word = folded(alloc, parts.word)?;
            Ok(Some(Step {
                from: parts.from,
                to: parts.to,
                word,
            }))
        }
    }
}
