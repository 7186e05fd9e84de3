//! What groups make of stems.

ghost use Rattle.std.specs.Prelude.{◌≡◌, length, map, IfOk, IsSome, Some, option_map};
ghost use Rattle.spelling_rules.specs.Forms.{stands_for};
ghost use Rattle.spelling_rules.specs.Inner.Rewriting.{is_variable, value_in, fits_sign, fits_by, rewritten, by_groups};
ghost use Rattle.spelling_rules.specs.Views.{sign_of, group_of, letters_in};

use crate::letters::{joined, part_of, rest_of};
use crate::rules::{SpellGroup, SpellSign};
use lexicon::NoMemory;
use std::alloc::Global;

/// Whether a sign is the variable of this name.
pub(crate) fn is_variable(name: char, sign: &SpellSign) -> bool
    ensures { result ≡ is_variable name (sign_of sign.now) }
{
    match sign {
        SpellSign::Char { .. } => false,
        SpellSign::Set { name: other, .. } => *other == name,
    }
}

/// The value of a variable in letters that a pattern spells: the letter at its first place.
pub(crate) fn value_in(signs: &[SpellSign], part: &[char], name: char) -> char
    requires { length part.now ≡ length signs.now }
    ensures { result ≡ value_in (map sign_of signs.now) part.now name }
{
    for i in 0..signs.len() {
        if is_variable(name, &signs[i]) {
            return part[i];
        }
    }
    '\0'
}

// Whether a letter is what a sign stands for.
fn fits_sign(signs: &[SpellSign], part: &[char], sign: &SpellSign, letter: char) -> bool
    requires { length part.now ≡ length signs.now }
    ensures { result ≡ fits_sign (value_in (map sign_of signs.now) part.now) (sign_of sign.now) letter }
{
    match sign {
        SpellSign::Char { c } => *c == letter,
        SpellSign::Set { name, members } => {
            members.contains(&letter) && value_in(signs, part, *name) == letter
        }
    }
}

/// Whether a pattern stands for letters.
pub(crate) fn fits(signs: &[SpellSign], part: &[char]) -> bool
    requires { length part.now ≡ length signs.now }
    ensures { result ≡ fits_by (value_in (map sign_of signs.now) part.now) (map sign_of signs.now) part.now }
{
    for i in 0..signs.len() {
        if !fits_sign(signs, part, &signs[i], part[i]) {
            return false;
        }
    }
    true
}

// The letters of signs, with the values that variables have in letters that a pattern spells.
fn spelled(
    alloc: Global,
    with: &[SpellSign],
    pattern: &[SpellSign],
    part: &[char],
) -> Result<Vec<char>, NoMemory>
    requires { length part.now ≡ length pattern.now }
    ensures { IfOk result (λ v. v.items ≡ map (stands_for (value_in (map sign_of pattern.now) part.now)) (map sign_of with.now)) }
{
    let mut out = Vec::new(alloc);
    for sign in with {
        let letter = match sign {
            SpellSign::Char { c } => *c,
            SpellSign::Set { name, .. } => value_in(pattern, part, *name),
        };
        out.push(letter)?;
    }
    Ok(out)
}

// What a group makes of letters.
fn rewritten(
    alloc: Global,
    suffix: bool,
    group: &SpellGroup,
    letters: &[char],
) -> Result<Option<Vec<char>>, NoMemory>
    ensures { IfOk result (λ o. option_map letters_in o ≡ rewritten suffix (group_of group.now) letters.now) }
{
    let count = group.pattern.len();
    if letters.len() < count {
        return Ok(None);
    }
    let part = part_of(suffix, count, letters);
    if !fits(&group.pattern, part) {
        return Ok(None);
    }
    let with = spelled(alloc, &group.with, &group.pattern, part)?;
    let rest = rest_of(suffix, count, letters);
    Ok(Some(joined(alloc, suffix, rest, &with)?))
}

/// What the last group that matches makes of letters.
pub(crate) fn by_groups(
    alloc: Global,
    suffix: bool,
    groups: &[SpellGroup],
    letters: &[char],
) -> Result<Option<Vec<char>>, NoMemory>
    ensures { IfOk result (λ o. option_map letters_in o ≡ by_groups suffix (map group_of groups.now) letters.now) }
{
    let count = groups.len();
    for k in 0..count {
        let made = rewritten(alloc, suffix, &groups[count - 1 - k], letters)?;
        if made.is_some() {
            return Ok(made);
        }
    }
    Ok(None)
}
