//! The names of a settings file, and the forms of their values.

ghost use Rattle.std.specs.Prelude.{◌≡◌, ℕ, ◌+◌, ◌*◌, ◌-◌, ◌<◌, ◌≤◌, ◌^◌, true, map, min, IfOk, Option, [], ◌∷◌, string_bytes, encode_utf8_all, length};
ghost use Rattle.std.specs.List.{list_all};
ghost use Rattle.std.specs.Char.{is_ascii_digit, is_ascii_lowercase};
ghost use Rattle.grammar_settings.specs.Forms.{is_among, written_types, form_of, form_of_one, is_word, features, is_path, name_of, path_of, without_plus, value_of_digits, is_number, limit_in, most_paths, fits, has_form};
ghost use Rattle.grammar_settings.specs.Kept.{words_in};

use crate::NoMemory;
use std::alloc::{AllocError, Global};
use tdl_lexer::is_name;
use type_hierarchy::is_glb_name;

/// The form of a setting's values.
#[derive(Clone, Copy)]
pub enum ValueForm {
    /// One type that isn't named as an added type is.
    WrittenType,
    /// One type or feature.
    OneWord,
    /// One path: features with dots between.
    OnePath,
    /// One or more features.
    SomeWords,
    /// Any number of features or rule names.
    Words,
    /// Any number of paths.
    Paths,
    /// A number from 1 to 1,000.
    Limit,
    /// A number from 1 to 10,000,000.
    Count,
    /// The name of a file.
    File,
    /// A type, and the letters of its variables.
    Sort,
}

/// The greatest limit on the features of a path.
pub(crate) const MOST_FEATURES: u32 = 1000;

/// The greatest limit on the paths of a structure.
pub(crate) const MOST_PATHS: u32 = 10_000_000;

const WRITTEN_TYPES: [&str; 2] = ["top-type", "string-type"];

const SINGLE_WORDS: [&str; 18] = [
    "list-type",
    "cons-type",
    "null-type",
    "first",
    "rest",
    "diff-list",
    "diff-last",
    "rels",
    "hcons",
    "pred",
    "lbl",
    "harg",
    "larg",
    "icons",
    "iarg1",
    "iarg2",
    "cfrom",
    "cto",
];

const SINGLE_PATHS: [&str; 6] = [
    "orth-path",
    "args-path",
    "mrs-path",
    "c-cont-path",
    "ltop-path",
    "index-path",
];

const WORD_LISTS: [&str; 4] = [
    "restrictors",
    "skip-roles",
    "skip-properties",
    "transfer-skip",
];

// Whether a name is one of these.
fn is_among(names: &[&str], name: &str) -> bool
    ensures { result ≡ is_among (map (λ n. n.now) names.now) name.now }
{
    for n in names {
        if *n == name {
            return true;
        }
    }
    false
}

/// Whether a name gives a type that is written.
pub(crate) fn gives_written_type(name: &str) -> bool
    ensures { result ≡ is_among written_types name.now }
{
    is_among(&WRITTEN_TYPES, name)
}

// The form of the values of a name that has one of its own.
fn form_of_one(name: &str) -> Option<ValueForm>
    ensures { result ≡ form_of_one name.now }
{
    if name == "daughter-features" {
        Some(ValueForm::SomeWords)
    } else if name == "check-paths" {
        Some(ValueForm::Paths)
    } else if name == "path-limit" {
        Some(ValueForm::Limit)
    } else if name == "node-limit" {
        Some(ValueForm::Count)
    } else if name == "irregular-file" {
        Some(ValueForm::File)
    } else if name == "sort" {
        Some(ValueForm::Sort)
    } else {
        None
    }
}

// The form of a name's values, or None for an unknown name.
fn form_of(name: &str) -> Option<ValueForm>
    ensures { result ≡ form_of name.now }
{
    if is_among(&WRITTEN_TYPES, name) {
        Some(ValueForm::WrittenType)
    } else if is_among(&SINGLE_WORDS, name) {
        Some(ValueForm::OneWord)
    } else if is_among(&SINGLE_PATHS, name) {
        Some(ValueForm::OnePath)
    } else if is_among(&WORD_LISTS, name) {
        Some(ValueForm::Words)
    } else {
        form_of_one(name)
    }
}

// Whether a word is one or more name characters.
fn is_word(word: &[char]) -> bool
    ensures { result ≡ is_word word.now }
{
    if word.is_empty() {
        return false;
    }
    for c in word {
        if !is_name(*c) {
            return false;
        }
    }
    true
}

// Whether each of these is a word.
fn are_words(words: &[Vec<char>]) -> bool
    ensures { result ≡ list_all is_word (words_in words.now) }
{
    for word in words {
        if !is_word(word) {
            return false;
        }
    }
    true
}

/// The features of a path, which stand between dots.
fn features<'a>(alloc: Global, path: &'a [char]) -> Result<Vec<&'a [char]>, AllocError>
    ensures { IfOk result (λ v. map (λ f. f.now) v.items ≡ features path.now) }
{
    path.split(|c| *c == '.').collect(alloc)
}

// Whether a word is a path.
fn is_path(alloc: Global, word: &[char]) -> Result<bool, NoMemory>
    ensures { IfOk result (λ b. b ≡ is_path word.now) }
{
    let features = features(alloc, word)?;
    for feature in &features {
        if !is_word(feature) {
            return Ok(false);
        }
    }
    Ok(true)
}

// Whether each of these is a path.
fn are_paths(alloc: Global, words: &[Vec<char>]) -> Result<bool, NoMemory>
    ensures { IfOk result (λ b. b ≡ list_all is_path (words_in words.now)) }
{
    for word in words {
        if !is_path(alloc, word)? {
            return Ok(false);
        }
    }
    Ok(true)
}

/// A word as it is written.
pub(crate) fn spelled(alloc: Global, word: &[char]) -> Result<String, AllocError>
    ensures { IfOk result (λ s. string_bytes s ≡ encode_utf8_all word.now) }
{
    let mut out = String::new(alloc);
    for c in word {
        out.push(*c)?;
    }
    Ok(out)
}

/// A type or feature, in ASCII lower case.
pub(crate) fn name_of(alloc: Global, word: &[char]) -> Result<String, AllocError>
    ensures { IfOk result (λ s. string_bytes s ≡ name_of word.now) }
{
    let mut out = String::new(alloc);
    for c in word {
        out.push(c.to_ascii_lowercase())?;
    }
    Ok(out)
}

/// The features of a path, each in ASCII lower case.
pub(crate) fn path_of(alloc: Global, word: &[char]) -> Result<Vec<String>, AllocError>
    ensures { IfOk result (λ v. map string_bytes v.items ≡ path_of word.now) }
{
    let features = features(alloc, word)?;
    let mut out = Vec::new(alloc);
    for feature in &features {
        out.push(name_of(alloc, feature)?)?;
    }
    Ok(out)
}

// The characters after a plus sign at the beginning.
fn without_plus(word: &[char]) -> &[char]
    ensures { result.now ≡ without_plus word.now }
{
    match word {
        ['+', rest @ ..] => rest,
        _ => word,
    }
}

// Whether these characters are one or more digits.
fn is_number(word: &[char]) -> bool
    ensures { result ≡ is_number word.now }
{
    if word.is_empty() {
        return false;
    }
    for c in word {
        if !c.is_ascii_digit() {
            return false;
        }
    }
    true
}

// The number that digits write, or one more than the greatest limit where it is larger.
fn number_to_limit(digits: &[char], most: u32) -> u32
    requires digits { list_all is_ascii_digit digits.now ≡ true }
    requires most { most ≤ most_paths }
    ensures { result ≡ min (value_of_digits digits.now) (most + 1) }
{
    let bound = most + 1;
    let mut number = 0;
    for c in digits {
        let digit = *c as u32 - '0' as u32;
        number = (number * 10 + digit).min(bound);
    }
    number
}

/// The number that a word gives as a limit, if it is one from 1 to the greatest.
pub(crate) fn limit_in(word: &[char], most: u32) -> Option<u32>
    requires { most ≤ most_paths }
    ensures { result ≡ limit_in most word.now }
{
    let digits = without_plus(word);
    if !is_number(digits) {
        return None;
    }
    let number = number_to_limit(digits, most);
    if 1 <= number && number <= most {
        Some(number)
    } else {
        None
    }
}

// Whether these are ASCII lower-case letters.
fn are_letters(word: &[char]) -> bool
    ensures { result ≡ list_all is_ascii_lowercase word.now }
{
    for c in word {
        if !c.is_ascii_lowercase() {
            return false;
        }
    }
    true
}

// Whether a word is a type that isn't named as an added type is.
fn is_written_type(alloc: Global, word: &[char]) -> Result<bool, NoMemory>
    ensures { IfOk result (λ b. b ≡ fits ValueForm.WrittenType (word.now ∷ [])) }
{
    let name = name_of(alloc, word)?;
    Ok(is_word(word) && !is_glb_name(&name))
}

// Whether these values are as many as the form has, and each is of it.
fn fits(alloc: Global, form: ValueForm, values: &[Vec<char>]) -> Result<bool, NoMemory>
    ensures { IfOk result (λ b. b ≡ fits form (words_in values.now)) }
{
    match (form, values) {
        (ValueForm::WrittenType, [value]) => is_written_type(alloc, value),
        (ValueForm::OneWord, [value]) => Ok(is_word(value)),
        (ValueForm::OnePath, [value]) => is_path(alloc, value),
        (ValueForm::SomeWords, [_, ..]) => Ok(are_words(values)),
        (ValueForm::Words, _) => Ok(are_words(values)),
        (ValueForm::Paths, _) => are_paths(alloc, values),
        (ValueForm::Limit, [value]) => Ok(limit_in(value, MOST_FEATURES).is_some()),
        (ValueForm::Count, [value]) => Ok(limit_in(value, MOST_PATHS).is_some()),
        (ValueForm::File, [_]) => Ok(true),
        (ValueForm::Sort, [ty, letters]) => Ok(is_word(ty) && are_letters(letters)),
        _ => Ok(false),
    }
}

/// Whether a name is known and the values have its form.
pub(crate) fn has_form(alloc: Global, name: &str, values: &[Vec<char>]) -> Result<bool, NoMemory>
    ensures { IfOk result (λ b. b ≡ has_form name.now (words_in values.now)) }
{
    match form_of(name) {
        Some(form) => fits(alloc, form, values),
        None => Ok(false),
    }
}
