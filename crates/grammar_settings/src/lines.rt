//! The lines of a settings file.

ghost use Rattle.std.specs.Prelude.{◌≡◌, ℕ, ◌+◌, ◌<◌, ◌≤◌, ◌^◌, ◌⊎◌, List, [], ◌∷◌, ◌++◌, length, map, filter, IfOk, IfErr, IfSome, Ok, Err, Some, None, Option, option_map, MatchOption, take, drop, codes, string_bytes};
ghost use Rattle.std.specs.Str.{chars};
ghost use Rattle.lkb_io.specs.Lines.{lines_of, HasNoEnd};
ghost use Rattle.grammar_settings.specs.Forms.{is_among, written_types};
ghost use Rattle.grammar_settings.specs.Kept.{words_in, entry_in, entries_in};
ghost use Rattle.grammar_settings.specs.SettingsFiles.{words, is_comment, entry_of, line_gives, entries_from, last_line};
ghost use Rattle.grammar_settings.specs.SettingsViews.{IsLineOf};

use crate::NoMemory;
use crate::forms::{gives_written_type, has_form, spelled};
use crate::settings::SettingsFault;
use std::alloc::{AllocError, Global};
use std::str;

/// The values that a line gives to a name, and the line's number.
#[derive(Drop)]
pub(crate) struct Entry {
    pub(crate) name: String,
    pub(crate) values: Vec<Vec<char>>,
    pub(crate) line: u32,
}

// The characters of a text.
fn chars_of(alloc: Global, text: &str) -> Result<Vec<char>, AllocError>
    ensures { IfOk result (λ v. v.items ≡ chars text.now) }
{
    text.chars().collect(alloc)
}

// The words of a line, which stand between white space.
fn words<'a>(alloc: Global, line: &'a [char]) -> Result<Vec<&'a [char]>, AllocError>
    ensures { IfOk result (λ v. map (λ w. w.now) v.items ≡ words line.now) }
{
    line.split(|c| c.is_whitespace())
        .filter(|word| !word.is_empty())
        .collect(alloc)
}

// These words in memory of their own.
fn owned(alloc: Global, words: &[&[char]]) -> Result<Vec<Vec<char>>, AllocError>
    ensures { IfOk result (λ v. words_in v.items ≡ map (λ w. w.now) words.now) }
{
    let mut out = Vec::new(alloc);
    for word in words {
        out.push(word.to_vec(alloc)?)?;
    }
    Ok(out)
}

// The entry of a line with these words, if it has any.
fn entry_of(alloc: Global, number: u32, words: &[&[char]]) -> Result<Option<Entry>, SettingsFault>
    ensures given { IfOk result (λ e. entry_of number (map (λ w. w.now) words.now) ≡ Some (option_map entry_in e)) }
    ensures fault { IfErr result (λ e. (e ≡ SettingsFault.NoMemory) ⊎ ((e ≡ SettingsFault.Line number) × (entry_of number (map (λ w. w.now) words.now) ≡ None))) }
{
    let Some((name, values)) = words.split_first() else {
        return Ok(None);
    };
    let name = spelled(alloc, name)?;
    let values = owned(alloc, values)?;
    if !has_form(alloc, &name, &values)? {
        return Err(SettingsFault::Line { line: number });
    }
    Ok(Some(Entry {
        name,
        values,
        line: number,
    }))
}

fn is_comment(line: &[u8]) -> bool
    ensures { result ≡ is_comment line.now }
{
    match line {
        [first, ..] => *first == b';',
        [] => false,
    }
}

// What a line gives: an entry, or nothing where it is blank or a comment.
fn line_entry(alloc: Global, number: u32, line: &[u8]) -> Result<Option<Entry>, SettingsFault>
    ensures given { IfOk result (λ e. line_gives number line.now ≡ Some (option_map entry_in e)) }
    ensures fault { IfErr result (λ e. (e ≡ SettingsFault.NoMemory) ⊎ ((e ≡ SettingsFault.Line number) × (line_gives number line.now ≡ None))) }
{
    let Ok(text) = str::from_utf8(line) else {
        return Err(SettingsFault::Line { line: number });
    };
    if is_comment(line) {
        return Ok(None);
    }
    let chars = chars_of(alloc, text)?;
    let words = words(alloc, &chars)?;
    entry_of(alloc, number, &words)
}

// The first line of bytes without its end, and the bytes after it.
fn first_line(bytes: &[u8]) -> (&[u8], &[u8])
    requires { 0 < length bytes.now }
    ensures lines { lines_of bytes.now ≡ result.0.now ∷ lines_of result.1.now }
    ensures shorter { length result.1.now < length bytes.now }
{
    for (i, byte) in bytes.iter().enumerate() {
        if *byte == b'\n' {
            return (&bytes[..i], &bytes[i + 1..]);
        }
    }
    (bytes, &[])
}

/// The entries of a settings file, or its first line outside the form.
pub(crate) fn entries_of(alloc: Global, bytes: &[u8]) -> Result<Vec<Entry>, SettingsFault>
    requires { length bytes.now < 2 ^ 32 }
    ensures entries { IfOk result (λ v. entries_from 1 (lines_of bytes.now) ≡ Ok (entries_in v.items)) }
    ensures fault { IfErr result (λ e. (e ≡ SettingsFault.NoMemory) ⊎ IsLineOf e (entries_from 1 (lines_of bytes.now))) }
{
    let mut entries = Vec::new(alloc);
    let mut rest = bytes;
    let mut count = 0;
    while !rest.is_empty() {
        let (line, after) = first_line(rest);
        if let Some(entry) = line_entry(alloc, count + 1, line)? {
            entries.push(entry)?;
        }
        rest = after;
        count += 1;
    }
    Ok(entries)
}

/// The number of the last line that gives the top type or the string type, or 0 where there is none.
pub(crate) fn line_of_types(entries: &[Entry]) -> u32
    ensures { result ≡ last_line 0 (filter (λ e. is_among written_types e.name) (entries_in entries.now)) }
{
    let mut line = 0;
    for entry in entries {
        if gives_written_type(&entry.name) {
            line = entry.line;
        }
    }
    line
}
