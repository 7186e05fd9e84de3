//! Coreferences: their names, their letters and their numbers.

ghost use Rattle.std.specs.Prelude.{◌≡◌, ◌≢◌, ◌<◌, ◌≤◌, ◌++◌, ◌∷◌, [], ◌↔◌, IsTrue, ℕ, Err, Some, is_some, IfOk, OnOk, IfSome, IfNone, length, map, take};
ghost use Rattle.std.specs.List.{list_all, slice_get};
ghost use Rattle.std.specs.String.{string_bytes};
ghost use Rattle.std.specs.Char.{is_ascii_digit};
ghost use Rattle.transfer_rules.specs.Features.{IsCorefName, among, each_once};
ghost use Rattle.transfer_rules.specs.Forms.{letters_in};

use crate::fault::Refusal;
use std::alloc::{AllocError, Global};

// How many small letters a text begins with.
fn letters_before(text: &[u8]) -> usize
    ensures within { result ≤ length text.now }
    ensures letters { letters_in text.now ≡ take result text.now }
{
    for at in 0..text.len() {
        if !text[at].is_ascii_lowercase() {
            return at;
        }
    }
    text.len()
}

// Whether all of a text is digits.
fn are_digits(text: &[u8]) -> bool
    ensures { result ≡ list_all is_ascii_digit text.now }
{
    for byte in text {
        if !byte.is_ascii_digit() {
            return false;
        }
    }
    true
}

/// Whether a name is small letters and then digits, of each one or more.
pub(crate) fn is_coref_name(name: &str) -> bool
    ensures { IsTrue result ↔ IsCorefName name.now }
{
    let bytes = name.as_bytes();
    let letters = letters_before(bytes);
    if letters == 0 {
        return false;
    }
    if letters == bytes.len() {
        return false;
    }
    are_digits(&bytes[letters..])
}

// The small letters that a name begins with.
fn letters_in(alloc: Global, name: &str) -> Result<String, AllocError>
    ensures { IfOk result (λ s. string_bytes s ≡ letters_in name.now) }
{
    let mut letters = String::new(alloc);
    for byte in name.as_bytes() {
        if !byte.is_ascii_lowercase() {
            break;
        }
        letters.push(char::from(*byte))?;
    }
    Ok(letters)
}

/// The letters of coreferences.
pub(crate) fn letters_of(alloc: Global, names: &[&str]) -> Result<Vec<String>, Refusal>
    ensures letters { IfOk result (λ letters. map string_bytes letters.items ≡ map (λ n. letters_in n.now) names.now) }
    ensures full { result ≢ Err Refusal.Form }
{
    let mut letters = Vec::with_capacity(alloc, names.len())?;
    for name in names {
        letters.push(letters_in(alloc, name)?)?;
    }
    Ok(letters)
}

// The number of a coreference that has one.
fn number_in(names: &[&str], name: &str) -> Option<usize>
    ensures some { IfSome result (λ c. slice_get (map (λ n. n.now) names.now) c ≡ Some name.now) }
    ensures among { among (map (λ n. n.now) names.now) name.now ≡ is_some result }
{
    for at in 0..names.len() {
        if names[at] == name {
            return Some(at);
        }
    }
    None
}

// A place as a number. More than a `u32` can number count as want of memory.
pub(crate) fn number_of(place: usize) -> Result<u32, Refusal>
    ensures number { IfOk result (λ n. n ≡ place) }
    ensures full { result ≢ Err Refusal.Form }
{
    u32::try_from(place).map_err(|_| Refusal::NoMemory)
}

/// The number of a coreference, which is the next one where it has none.
#[tactic(auto, using(crate::proofs::Numbering::known_name, crate::proofs::Numbering::new_name, crate::proofs::Naming::last_seen))]
pub(crate) fn number<'a>(names: &mut Vec<&'a str>, name: &'a str) -> Result<u32, Refusal>
    ensures names { OnOk result (map (λ n. n.now) names.new.items ≡ map (λ n. n.now) names.old.items ++ each_once (map (λ n. n.now) names.old.items) (name.now ∷ [])) }
    ensures number { IfOk result (λ c. slice_get (map (λ n. n.now) names.new.items) c ≡ Some name.now) }
    ensures full { result ≢ Err Refusal.Form }
{
    if let Some(at) = number_in(names, name) {
        return number_of(at);
    }
    let at = number_of(names.len())?;
    names.push(name)?;
    Ok(at)
}
