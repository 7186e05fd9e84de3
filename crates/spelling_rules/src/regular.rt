//! What a rule makes of stems by its groups, and what they leave of a form.

ghost use Rattle.std.specs.Prelude.{◌≡◌, ℕ, List, map, option_map, IfOk, OnOk, IsTrue, ◌↔◌, encode_utf8_all};
ghost use Rattle.lexicon.specs.Words.{Word, Has, Each};
ghost use Rattle.spelling_rules.specs.Forms.{AreRegular};
ghost use Rattle.spelling_rules.specs.Inner.Rewriting.{unless_empty, words_made, forms_with, regular_forms};
ghost use Rattle.spelling_rules.specs.Trees.{IsBound};
ghost use Rattle.spelling_rules.specs.Views.{rule_of, group_of, words_in, letters_in};

use crate::groups::by_groups;
use crate::letters::{letters_of, word_of};
use crate::rules::SpellRule;
use crate::undo::undo;
use lexicon::NoMemory;
use std::alloc::Global;

// The word of letters, unless there are none.
fn unless_empty(alloc: Global, letters: &[char]) -> Result<Vec<String>, NoMemory>
    ensures { IfOk result (λ v. words_in v ≡ unless_empty letters.now) }
{
    let mut out = Vec::new(alloc);
    if letters.is_empty() {
        return Ok(out);
    }
    out.push(word_of(alloc, letters)?)?;
    Ok(out)
}

// The words of what a group made.
fn words_made(alloc: Global, made: Option<Vec<char>>) -> Result<Vec<String>, NoMemory>
    ensures { IfOk result (λ v. words_in v ≡ words_made (option_map letters_in made)) }
{
    match made {
        None => Ok(Vec::new(alloc)),
        Some(letters) => {
            let words = unless_empty(alloc, &letters)?;
            Ok(words)
        }
    }
}

/// The forms of a stem under a rule, where these are the forms of its irregular lines.
pub(crate) fn forms_of(
    alloc: Global,
    rule: &SpellRule,
    listed: Vec<String>,
    stem: &str,
) -> Result<Vec<String>, NoMemory>
    ensures { IfOk result (λ v. (letters : List ℕ) → stem.now ≡ encode_utf8_all letters → words_in v ≡ forms_with (rule_of rule.now) (words_in listed) letters) }
{
    let mut forms = listed;
    if !forms.is_empty() {
        return Ok(forms);
    }
    if rule.groups.is_empty() {
        forms.push(String::from_str(alloc, stem)?)?;
        return Ok(forms);
    }
    let letters = letters_of(alloc, stem)?;
    let made = by_groups(alloc, rule.suffix, &rule.groups, &letters)?;
    let words = words_made(alloc, made)?;
    Ok(words)
}

/// Whether a rule makes a form of a stem that has no irregular line, by the letters of both. No text is made.
pub(crate) fn makes(
    alloc: Global,
    rule: &SpellRule,
    stem: &[char],
    form: &[char],
) -> Result<bool, NoMemory>
    ensures { IfOk result (λ b. IsTrue b ↔ Has (encode_utf8_all form.now) (regular_forms rule.now.suffix (rule_of rule.now).groups stem.now)) }
{
    if rule.groups.is_empty() {
        return Ok(stem == form);
    }
    if form.is_empty() {
        return Ok(false);
    }
    match by_groups(alloc, rule.suffix, &rule.groups, stem)? {
        None => Ok(false),
        Some(made) => Ok(made.as_slice() == form),
    }
}

/// Adds the stems that a rule may have for a form where no irregular line speaks of them, and perhaps others.
pub(crate) fn add_stems(
    alloc: Global,
    rule: &SpellRule,
    form: &str,
    letters: &[char],
    out: &mut Vec<String>,
) -> Result<(), NoMemory>
    requires bound { Each IsBound (rule_of rule.now).groups }
    requires spelled { form.now ≡ encode_utf8_all letters.now }
    ensures kept { OnOk result ((w : Word) → Has w (words_in out.old) → Has w (words_in out.new)) }
    ensures added { OnOk result ((w : Word) (forms : List Word) → AreRegular (rule_of rule.now) w forms → Has form.now forms → Has w (words_in out.new)) }
{
    if rule.groups.is_empty() {
        out.push(String::from_str(alloc, form)?)?;
        return Ok(());
    }
    for group in &rule.groups {
        undo(alloc, out, rule.suffix, group, letters)?;
    }
    Ok(())
}
