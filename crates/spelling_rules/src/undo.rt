//! What stems groups may make into a form.

ghost use Rattle.std.specs.Prelude.{◌≡◌, ◌++◌, ℕ, List, [], ◌∷◌, length, map, IfOk, OnOk, encode_utf8_all};
ghost use Rattle.spelling_rules.specs.Forms.{Rewrites, joined};
ghost use Rattle.spelling_rules.specs.Trees.{IsBound};
ghost use Rattle.spelling_rules.specs.Inner.Undoing.{occurs, options, longer, fillings};
ghost use Rattle.spelling_rules.specs.Views.{sign_of, group_of, letters_in, words_in};
ghost use Rattle.std.specs.List.{flat_map};
ghost use Rattle.lexicon.specs.Words.{Word, Has};

use crate::groups::{fits, is_variable, value_in};
use crate::letters::{joined, part_of, rest_of, word_of};
use crate::rules::{SpellGroup, SpellSign};
use lexicon::NoMemory;
use std::alloc::Global;

// Whether a variable occurs among signs.
fn occurs(name: char, signs: &[SpellSign]) -> bool
    ensures { result ≡ occurs name (map sign_of signs.now) }
{
    for sign in signs {
        if is_variable(name, sign) {
            return true;
        }
    }
    false
}

// The letters for which a sign of a pattern may stand, where other signs spell these letters.
fn options(
    alloc: Global,
    with: &[SpellSign],
    part: &[char],
    sign: &SpellSign,
) -> Result<Vec<char>, NoMemory>
    requires { length part.now ≡ length with.now }
    ensures { IfOk result (λ v. v.items ≡ options (map sign_of with.now) part.now (sign_of sign.now)) }
{
    let mut out = Vec::new(alloc);
    match sign {
        SpellSign::Char { c } => out.push(*c)?,
        SpellSign::Set { name, members } => {
            if occurs(*name, with) {
                out.push(value_in(with, part, *name))?;
            } else {
                out.extend_from_slice(members)?;
            }
        }
    }
    Ok(out)
}

// Adds letters with each of these after them.
fn add_longer(
    alloc: Global,
    out: &mut Vec<Vec<char>>,
    filled: &[char],
    letters: &[char],
) -> Result<(), NoMemory>
    ensures { OnOk result (map letters_in out.new.items ≡ map letters_in out.old.items ++ longer filled.now letters.now) }
{
    for c in letters {
        let mut one = filled.to_vec(alloc)?;
        one.push(*c)?;
        out.push(one)?;
    }
    Ok(())
}

// Each of these with each letter after it.
fn all_longer(
    alloc: Global,
    done: &[Vec<char>],
    letters: &[char],
) -> Result<Vec<Vec<char>>, NoMemory>
    ensures { IfOk result (λ v. map letters_in v.items ≡ flat_map (λ filled. longer filled letters.now) (map letters_in done.now)) }
{
    let mut out = Vec::new(alloc);
    for filled in done {
        add_longer(alloc, &mut out, filled, letters)?;
    }
    Ok(out)
}

// The letters for which a pattern may stand, where other signs spell these letters.
fn fillings(
    alloc: Global,
    with: &[SpellSign],
    part: &[char],
    pattern: &[SpellSign],
) -> Result<Vec<Vec<char>>, NoMemory>
    requires { length part.now ≡ length with.now }
    ensures { IfOk result (λ v. map letters_in v.items ≡ fillings (map sign_of with.now) part.now ([] ∷ []) (map sign_of pattern.now)) }
{
    let mut done = Vec::new(alloc);
    done.push(Vec::new(alloc))?;
    for sign in pattern {
        let letters = options(alloc, with, part, sign)?;
        done = all_longer(alloc, &done, &letters)?;
    }
    Ok(done)
}

// Adds the words of these letters.
fn add_words(
    alloc: Global,
    out: &mut Vec<String>,
    suffix: bool,
    rest: &[char],
    parts: &[Vec<char>],
) -> Result<(), NoMemory>
    ensures kept { OnOk result ((w : Word) → Has w (words_in out.old) → Has w (words_in out.new)) }
    ensures added { OnOk result ((letters : List ℕ) → Has letters (map letters_in parts.now) → Has (encode_utf8_all (joined suffix rest.now letters)) (words_in out.new)) }
{
    for part in parts {
        let letters = joined(alloc, suffix, rest, part)?;
        out.push(word_of(alloc, &letters)?)?;
    }
    Ok(())
}

/// Adds all stems of which a group makes a form, and perhaps others.
pub(crate) fn undo(
    alloc: Global,
    out: &mut Vec<String>,
    suffix: bool,
    group: &SpellGroup,
    letters: &[char],
) -> Result<(), NoMemory>
    requires { IsBound (group_of group.now) }
    ensures kept { OnOk result ((w : Word) → Has w (words_in out.old) → Has w (words_in out.new)) }
    ensures added { OnOk result ((w : Word) → Rewrites suffix (group_of group.now) w (encode_utf8_all letters.now) → Has w (words_in out.new)) }
{
    let count = group.with.len();
    if letters.len() < count {
        return Ok(());
    }
    let part = part_of(suffix, count, letters);
    if !fits(&group.with, part) {
        return Ok(());
    }
    let parts = fillings(alloc, &group.with, part, &group.pattern)?;
    add_words(alloc, out, suffix, rest_of(suffix, count, letters), &parts)?;
    Ok(())
}
