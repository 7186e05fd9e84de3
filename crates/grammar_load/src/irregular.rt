//! The table of irregular forms.

ghost use Rattle.std.specs.Prelude.{◌≡◌, ◌++◌, ◌<◌, ◌^◌, [], ◌∷◌, length, map, option_map, string_bytes, take, IfOk};
ghost use Rattle.lkb_io.specs.Lines.{lines_of, HasNoEnd};
ghost use Rattle.grammar_settings.specs.SettingsFiles.{is_comment};
ghost use Rattle.spelling_rules.specs.Views.{line_of};
ghost use Rattle.grammar_load.specs.IrregularLines.{line_in, line_says, lines_said};

use crate::fields::{chars_of, folded, rule_named, words};
use lexicon::NoMemory;
use spelling_rules::Irregular;
use std::alloc::Global;
use std::str;

// What fields say: a form, a lexical rule and a stem.
fn line_in(
    alloc: Global,
    rules: &[String],
    fields: &[&[char]],
) -> Result<Option<Irregular>, NoMemory>
    requires { length rules.now < 2 ^ 32 }
    ensures { IfOk result (λ o. option_map line_of o ≡ line_in (map string_bytes rules.now) (map (λ w. w.now) fields.now)) }
{
    if fields.len() != 3 {
        return Ok(None);
    }
    let Some(rule) = rule_named(alloc, rules, fields[1])? else {
        return Ok(None);
    };
    let stem = folded(alloc, fields[2])?;
    let form = folded(alloc, fields[0])?;
    Ok(Some(Irregular { rule, stem, form }))
}

fn is_comment(line: &[u8]) -> bool
    ensures { result ≡ is_comment line.now }
{
    match line {
        [first, ..] => *first == b';',
        [] => false,
    }
}

// What a line says, if it says something.
fn line_says(alloc: Global, rules: &[String], line: &[u8]) -> Result<Option<Irregular>, NoMemory>
    requires { length rules.now < 2 ^ 32 }
    ensures { IfOk result (λ o. option_map line_of o ≡ line_says (map string_bytes rules.now) line.now) }
{
    let Ok(text) = str::from_utf8(line) else {
        return Ok(None);
    };
    if is_comment(line) {
        return Ok(None);
    }
    let letters = chars_of(alloc, text)?;
    let fields = words(alloc, &letters)?;
    line_in(alloc, rules, &fields)
}

// The first line of bytes without its end, and the bytes after it.
fn first_line(bytes: &[u8]) -> (&[u8], &[u8])
    requires { 0 < length bytes.now }
    ensures lines { lines_of bytes.now ≡ result.0.now ∷ lines_of result.1.now }
    ensures shorter { length result.1.now < length bytes.now }
{
    for (i, byte) in bytes.iter().enumerate() {
        if *byte == b'\n' {
            return (&bytes[..i], &bytes[i + 1..]);
        }
    }
    (bytes, &[])
}

/// The irregular forms of a text, in order of lines `form rule stem`, the rule as its number among the names of the lexical
/// rules. Form and stem are folded; a rule's name is written in any case. A line is passed over that isn't UTF-8, begins with a
/// semicolon, hasn't three fields or names no lexical rule.
pub fn irregular_lines(
    alloc: Global,
    rules: &[String],
    text: &[u8],
) -> Result<Vec<Irregular>, NoMemory>
    requires { length rules.now < 2 ^ 32 }
    ensures { IfOk result (λ v. map line_of v.items ≡ lines_said (map string_bytes rules.now) text.now) }
{
    let mut out = Vec::new(alloc);
    let mut rest = text;
    while !rest.is_empty() {
        let (line, after) = first_line(rest);
        if let Some(said) = line_says(alloc, rules, line)? {
            out.push(said)?;
        }
        rest = after;
    }
    Ok(out)
}
