//! The words of a line.

ghost use Rattle.std.specs.Prelude.{◌≡◌, ◌++◌, map, IfOk, OnOk, string_bytes, encode_utf8_all};
ghost use Rattle.std.specs.Str.{chars};
ghost use Rattle.caseless.specs.Caseless.{default_case_fold};
ghost use Rattle.closed_lists.specs.Names.{words_in};
ghost use Rattle.closed_lists.specs.Strings.{words};
ghost use Rattle.item_reports.specs.Sentences.{folded, words_of_line};

use caseless::default_case_fold_str;
use lexicon::NoMemory;
use std::alloc::{AllocError, Global};

// The runs of letters that aren't white space.
fn runs<'a>(alloc: Global, letters: &'a [char]) -> Result<Vec<&'a [char]>, AllocError>
    ensures { IfOk result (λ v. map (λ w. w.now) v.items ≡ words letters.now) }
{
    letters
        .split(|c| c.is_whitespace())
        .filter(|run| !run.is_empty())
        .collect(alloc)
}

// The text of letters.
fn text_of(alloc: Global, letters: &[char]) -> Result<String, NoMemory>
    ensures { IfOk result (λ s. string_bytes s ≡ encode_utf8_all letters.now) }
{
    let mut text = String::new(alloc);
    for letter in letters {
        text.push(*letter)?;
    }
    Ok(text)
}

// A run of letters, folded.
fn folded_text(alloc: Global, letters: &[char]) -> Result<String, NoMemory>
    ensures { IfOk result (λ s. string_bytes s ≡ folded letters.now) }
{
    let text = text_of(alloc, letters)?;
    let folded = default_case_fold_str(alloc, text.as_str())?;
    Ok(folded)
}

// The characters of a text.
fn chars_of(alloc: Global, text: &str) -> Result<Vec<char>, AllocError>
    ensures { IfOk result (λ v. v.items ≡ chars text.now) }
{
    text.chars().collect(alloc)
}

// Each run, folded.
fn folded_runs(alloc: Global, runs: &[&[char]]) -> Result<Vec<String>, NoMemory>
    ensures { IfOk result (λ v. words_in v ≡ map folded (map (λ w. w.now) runs.now)) }
{
    let mut out = Vec::new(alloc);
    for run in runs {
        out.push(folded_text(alloc, run)?)?;
    }
    Ok(out)
}

/// The words of a line: its maximal runs of characters that aren't white space, folded by the default case folding of Unicode.
pub fn words_of_line(alloc: Global, line: &str) -> Result<Vec<String>, NoMemory>
    ensures { IfOk result (λ v. words_in v ≡ words_of_line (chars line.now)) }
{
    let letters = chars_of(alloc, line)?;
    let runs = runs(alloc, &letters)?;
    let words = folded_runs(alloc, &runs)?;
    Ok(words)
}
