//! The fields of a line.

ghost use Rattle.std.specs.Prelude.{◌≡◌, ◌<◌, ◌^◌, ℕ, length, map, option_map, string_bytes, IfOk, position, encode_utf8_all};
ghost use Rattle.std.specs.Str.{chars, bytes_eq};
ghost use Rattle.grammar_settings.specs.SettingsFiles.{words};
ghost use Rattle.grammar_load.specs.IrregularLines.{rule_named, folded};

use caseless::default_case_fold_str;
use lexicon::NoMemory;
use std::alloc::{AllocError, Global};

/// The characters of a text.
pub(crate) fn chars_of(alloc: Global, text: &str) -> Result<Vec<char>, AllocError>
    ensures { IfOk result (λ v. v.items ≡ chars text.now) }
{
    text.chars().collect(alloc)
}

/// The words of characters, which stand between white space.
pub(crate) fn words<'a>(alloc: Global, letters: &'a [char]) -> Result<Vec<&'a [char]>, AllocError>
    ensures { IfOk result (λ v. map (λ w. w.now) v.items ≡ words letters.now) }
{
    letters
        .split(|c| c.is_whitespace())
        .filter(|word| !word.is_empty())
        .collect(alloc)
}

// The text of characters.
fn text_of(alloc: Global, letters: &[char]) -> Result<String, NoMemory>
    ensures { IfOk result (λ s. string_bytes s ≡ encode_utf8_all letters.now) }
{
    let mut text = String::new(alloc);
    for letter in letters {
        text.push(*letter)?;
    }
    Ok(text)
}

/// The folded text of characters.
pub(crate) fn folded(alloc: Global, letters: &[char]) -> Result<String, NoMemory>
    ensures { IfOk result (λ s. string_bytes s ≡ folded letters.now) }
{
    let text = text_of(alloc, letters)?;
    let out = default_case_fold_str(alloc, text.as_str())?;
    Ok(out)
}

// The place of a name among names.
fn place_of(names: &[String], name: &str) -> Option<u32>
    requires { length names.now < 2 ^ 32 }
    ensures { result ≡ position (bytes_eq name.now) (map string_bytes names.now) }
{
    for i in 0..names.len() {
        if name == names[i].as_str() {
            return Some(i as u32);
        }
    }
    None
}

/// The number of the lexical rule of a name, which is written in any case.
pub(crate) fn rule_named(
    alloc: Global,
    rules: &[String],
    name: &[char],
) -> Result<Option<u32>, NoMemory>
    requires { length rules.now < 2 ^ 32 }
    ensures { IfOk result (λ o. o ≡ rule_named (map string_bytes rules.now) name.now) }
{
    let mut text = text_of(alloc, name)?;
    text.make_ascii_lowercase();
    Ok(place_of(rules, text.as_str()))
}
