//! Groups of spelling rules and letter sets.

ghost use Rattle.std.specs.Prelude.{◌≡◌, ◌+◌, ℕ, List, [], ◌∷◌, ◌++◌, map, Some, None, Option, IfOk, IfErr, MatchOption, length, false, if◌then◌else◌};
ghost use Rattle.std.specs.Option.{option_map};
ghost use Rattle.std.specs.Str.{chars};
ghost use Rattle.std.specs.Char.{len_utf8};
ghost use Rattle.tdl_reader.specs.GroupScan.{only, fold, fold_all, after_white, run, after_run, is_nothing, set_named, sign_at, signs_after, signs, occurs, all_occur, but_last, inside, read_group, after_word, ends_with, is_closing, members_in, set_with, set_in, read_letters};
ghost use Rattle.tdl_lexer.specs.Spelling.{after_first};
ghost use Rattle.tdl_reader.specs.Texts.{chars_of, set_at, signs_in, members_at};
ghost use Rattle.tdl_reader.specs.Trees.{one_of};
ghost use Rattle.tdl_reader.specs.Views.{set_of, sign_of, group_in};

use crate::{AffixGroup, LetterSet, ReadFault, Sign};
use caseless::default_case_fold_str;
use std::alloc::Global;

/// The first character, and the text after it.
fn first(text: &str) -> Option<(char, &str)>
    ensures parts { MatchOption result (chars text.now ≡ []) (λ p. chars text.now ≡ p.0 ∷ chars p.1.now) }
    ensures size { MatchOption result (length text.now ≡ 0) (λ p. length text.now ≡ len_utf8 p.0 + length p.1.now) }
{
    let mut rest = text.chars();
    let c = rest.next()?;
    Some((c, rest.as_str()))
}

/// The only character of a text of one.
fn only(text: &str) -> Option<char>
    ensures { result ≡ only (chars text.now) }
{
    let (c, rest) = first(text)?;
    match first(rest) {
        None => Some(c),
        Some(_) => None,
    }
}

/// The one character that a character folds to, where it is one.
fn folded(alloc: Global, c: char) -> Result<Option<char>, ReadFault>
    ensures found { IfOk result (λ o. o ≡ fold c) }
    ensures fault { IfErr result (λ e. e ≡ ReadFault.NoMemory) }
{
    let mut one = String::new(alloc);
    one.push(c)?;
    let folds = default_case_fold_str(alloc, one.as_str())?;
    Ok(only(folds.as_str()))
}

/// Whether no character is left.
fn is_nothing(text: &str) -> bool
    ensures { result ≡ is_nothing (chars text.now) }
{
    match first(text) {
        None => true,
        Some(_) => false,
    }
}

/// The text after its leading white space.
fn after_white(text: &str) -> &str
    ensures { chars result.now ≡ after_white (chars text.now) }
{
    let mut rest = text;
    while let Some((c, after)) = first(rest) {
        if !c.is_whitespace() {
            break;
        }
        rest = after;
    }
    rest
}

/// The text after its leading run without white space.
fn after_run(text: &str) -> &str
    ensures { chars result.now ≡ after_run (chars text.now) }
{
    let mut rest = text;
    while let Some((c, after)) = first(rest) {
        if c.is_whitespace() {
            break;
        }
        rest = after;
    }
    rest
}

/// The characters of the leading run without white space.
fn run(alloc: Global, text: &str) -> Result<Vec<char>, ReadFault>
    ensures found { IfOk result (λ v. v.items ≡ run (chars text.now)) }
    ensures fault { IfErr result (λ e. e ≡ ReadFault.NoMemory) }
{
    let mut out = Vec::new(alloc);
    let mut rest = text;
    while let Some((c, after)) = first(rest) {
        if c.is_whitespace() {
            break;
        }
        out.push(c)?;
        rest = after;
    }
    Ok(out)
}

/// The characters folded, where each folds to one.
fn all_folded(alloc: Global, word: &[char]) -> Result<Option<Vec<char>>, ReadFault>
    ensures found { IfOk result (λ o. option_map (λ v. v.items) o ≡ fold_all word.now) }
    ensures fault { IfErr result (λ e. e ≡ ReadFault.NoMemory) }
{
    let mut out = Vec::new(alloc);
    for c in word {
        let Some(d) = folded(alloc, *c)? else {
            return Ok(None);
        };
        out.push(d)?;
    }
    Ok(Some(out))
}

/// The last definition of a letter set.
fn set_named<'a>(sets: &'a [LetterSet], name: char) -> Option<&'a LetterSet>
    ensures { option_map set_at result ≡ set_named (map set_of sets.now) name }
{
    let mut found = None;
    for set in sets {
        if set.name == name {
            found = Some(set);
        }
    }
    found
}

/// A letter set's variable.
fn variable(alloc: Global, set: &LetterSet) -> Result<Sign, ReadFault>
    ensures found { IfOk result (λ s. sign_of s ≡ one_of (set_of set.now)) }
    ensures fault { IfErr result (λ e. e ≡ ReadFault.NoMemory) }
{
    let members = set.members.as_slice().to_vec(alloc)?;
    let name = set.name;
    Ok(Sign::Set { name, members })
}

/// What a character stands for, or the variable that it names.
fn sign(alloc: Global, sets: &[LetterSet], c: char, named: bool) -> Result<Option<Sign>, ReadFault>
    ensures found { IfOk result (λ o. option_map sign_of o ≡ sign_at named (map set_of sets.now) c) }
    ensures fault { IfErr result (λ e. e ≡ ReadFault.NoMemory) }
{
    let Some(d) = folded(alloc, c)? else {
        return Ok(None);
    };
    if !named {
        return Ok(Some(Sign::Char { c: d }));
    }
    match set_named(sets, d) {
        Some(set) => Ok(Some(variable(alloc, set)?)),
        None => Ok(None),
    }
}

/// The signs of the leading run without white space.
fn signs_of_run(
    alloc: Global,
    sets: &[LetterSet],
    text: &str,
) -> Result<Option<Vec<Sign>>, ReadFault>
    ensures found { IfOk result (λ o. option_map signs_in o ≡ signs_after false (map set_of sets.now) (run (chars text.now))) }
    ensures fault { IfErr result (λ e. e ≡ ReadFault.NoMemory) }
{
    let mut out = Vec::new(alloc);
    let mut named = false;
    let mut rest = text;
    while let Some((c, after)) = first(rest) {
        if c.is_whitespace() {
            break;
        }
        if !named && c == '!' {
            named = true;
        } else {
            let Some(one) = sign(alloc, sets, c, named)? else {
                return Ok(None);
            };
            out.push(one)?;
            named = false;
        }
        rest = after;
    }
    if named {
        out.push(Sign::Char { c: '!' })?;
    }
    Ok(Some(out))
}

/// The signs of the leading run, which is there; `*` alone is no sign.
fn signs(alloc: Global, sets: &[LetterSet], text: &str) -> Result<Option<Vec<Sign>>, ReadFault>
    ensures found { IfOk result (λ o. option_map signs_in o ≡ signs (map set_of sets.now) (run (chars text.now))) }
    ensures fault { IfErr result (λ e. e ≡ ReadFault.NoMemory) }
{
    let word = run(alloc, text)?;
    if word.is_empty() {
        return Ok(None);
    }
    if word.as_slice() == ['*'].as_slice() {
        return Ok(Some(Vec::new(alloc)));
    }
    signs_of_run(alloc, sets, text)
}

/// Whether a variable of a letter set occurs among signs.
fn occurs(name: char, signs: &[Sign]) -> bool
    ensures { result ≡ occurs name (map sign_of signs.now) }
{
    for sign in signs {
        if let Sign::Set { name: other, .. } = sign {
            if *other == name {
                return true;
            }
        }
    }
    false
}

/// Whether each variable among signs occurs in a pattern.
fn all_occur(signs: &[Sign], pattern: &[Sign]) -> bool
    ensures { result ≡ all_occur (map sign_of signs.now) (map sign_of pattern.now) }
{
    for sign in signs {
        if let Sign::Set { name, .. } = sign {
            if !occurs(*name, pattern) {
                return false;
            }
        }
    }
    true
}

/// The text without its last character.
fn but_last(text: &str) -> &str
    ensures { chars result.now ≡ but_last (chars text.now) }
{
    let mut rest = text.chars();
    rest.next_back();
    rest.as_str()
}

/// The text without its first character.
fn but_first(text: &str) -> &str
    ensures { chars result.now ≡ after_first (chars text.now) }
{
    match first(text) {
        Some((_, rest)) => rest,
        None => text,
    }
}

/// What a group of a spelling rule says, where it has its form.
pub(crate) fn read_group(
    alloc: Global,
    sets: &[LetterSet],
    spelled: &str,
) -> Result<Option<AffixGroup>, ReadFault>
    ensures found { IfOk result (λ o. option_map group_in o ≡ read_group (map set_of sets.now) (chars spelled.now)) }
    ensures fault { IfErr result (λ e. e ≡ ReadFault.NoMemory) }
{
    let text = after_white(but_last(but_first(spelled)));
    let Some(pattern) = signs(alloc, sets, text)? else {
        return Ok(None);
    };
    let rest = after_white(after_run(text));
    let Some(with) = signs(alloc, sets, rest)? else {
        return Ok(None);
    };
    if is_nothing(after_white(after_run(rest))) && all_occur(&with, &pattern) {
        Ok(Some(AffixGroup { pattern, with }))
    } else {
        Ok(None)
    }
}

/// The text after an ASCII word that stands at its beginning.
fn after_word<'a>(text: &'a str, word: &[u8]) -> Option<&'a str>
    ensures { option_map chars_of result ≡ after_word word.now (chars text.now) }
{
    let mut rest = text;
    for w in word {
        let Some((c, after)) = first(rest) else {
            return None;
        };
        if c != char::from(*w) {
            return None;
        }
        rest = after;
    }
    Some(rest)
}

/// Whether a text is a closing parenthesis and white space.
fn is_closing(text: &str) -> bool
    ensures { result ≡ is_closing (chars text.now) }
{
    match first(text) {
        Some((c, rest)) => c == ')' && is_nothing(after_white(rest)),
        None => false,
    }
}

/// Whether a text has no leading run without white space.
fn has_no_run(text: &str) -> bool
    ensures { result ≡ is_nothing (run (chars text.now)) }
{
    match first(text) {
        Some((c, _)) => c.is_whitespace(),
        None => true,
    }
}

/// A word without its closing parenthesis.
fn unclosed(mut word: Vec<char>) -> Option<Vec<char>>
    ensures { option_map members_at result ≡ (if ends_with 41 word.items then Some (but_last word.items) else None) }
{
    match word.pop() {
        Some(last) => { if last == ')' { Some(word) } else { None } }
        None => None,
    }
}

/// The members of a letter set, up to its closing parenthesis.
fn members(alloc: Global, text: &str) -> Result<Option<Vec<char>>, ReadFault>
    ensures found { IfOk result (λ o. option_map members_at o ≡ members_in (run (chars text.now)) (after_white (after_run (chars text.now)))) }
    ensures fault { IfErr result (λ e. e ≡ ReadFault.NoMemory) }
{
    let word = run(alloc, text)?;
    let rest = after_white(after_run(text));
    if is_nothing(rest) {
        return Ok(unclosed(word));
    }
    if is_closing(rest) {
        Ok(Some(word))
    } else {
        Ok(None)
    }
}

/// The letter set of a name and its members, folded.
fn set_with(alloc: Global, c: char, word: Vec<char>) -> Result<Option<LetterSet>, ReadFault>
    ensures found { IfOk result (λ o. option_map set_of o ≡ set_with c word.items) }
    ensures fault { IfErr result (λ e. e ≡ ReadFault.NoMemory) }
{
    if word.is_empty() {
        return Ok(None);
    }
    let Some(name) = folded(alloc, c)? else {
        return Ok(None);
    };
    let Some(members) = all_folded(alloc, &word)? else {
        return Ok(None);
    };
    Ok(Some(LetterSet { name, members }))
}

/// The letter set between the inner parentheses.
fn set_in(alloc: Global, text: &str) -> Result<Option<LetterSet>, ReadFault>
    ensures found { IfOk result (λ o. option_map set_of o ≡ set_in (chars text.now)) }
    ensures fault { IfErr result (λ e. e ≡ ReadFault.NoMemory) }
{
    let Some((b, after)) = first(text) else {
        return Ok(None);
    };
    let Some((c, rest)) = first(after) else {
        return Ok(None);
    };
    if b != '!' || c.is_whitespace() || !has_no_run(rest) {
        return Ok(None);
    }
    let Some(word) = members(alloc, after_white(rest))? else {
        return Ok(None);
    };
    set_with(alloc, c, word)
}

/// A letter set, where the group has its form.
pub(crate) fn read_letters(alloc: Global, spelled: &str) -> Result<Option<LetterSet>, ReadFault>
    ensures found { IfOk result (λ o. option_map set_of o ≡ read_letters (chars spelled.now)) }
    ensures fault { IfErr result (λ e. e ≡ ReadFault.NoMemory) }
{
    let text = after_white(but_last(but_first(spelled)));
    let Some(rest) = after_word(text, b"letter-set") else {
        return Ok(None);
    };
    let Some(inner) = after_word(after_white(rest), b"(") else {
        return Ok(None);
    };
    set_in(alloc, after_white(inner))
}
