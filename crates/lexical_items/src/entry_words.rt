//! Places and words of entries.

ghost use Rattle.std.specs.Prelude.{◌≡◌, ◌<◌, ◌++◌, ◌∷◌, [], List, length, map, IfOk, string_bytes};
ghost use Rattle.lexicon.specs.Words.{Word, Has};
ghost use Rattle.lexicon.specs.Entries.{HasNumber};
ghost use Rattle.morph_analysis.specs.Chains.{HaveWords};
ghost use Rattle.lexical_items.specs.Places.{place_in};

use crate::NoMemory;
use lexicon::{Lexicon, copied};
use std::alloc::Global;

/// The place of an entry or a rule by its number.
pub(crate) fn place_of(places: &[u32], number: u32) -> u32
    requires { number < length places.now }
    ensures { result ≡ place_in places.now number }
{
    places[number as usize]
}

/// The last word of an entry, the one that is inflected.
pub(crate) fn last_word<'a>(lexicon: &'a Lexicon, entry: u32) -> &'a String
    requires number { HasNumber lexicon.now entry }
    requires have { HaveWords lexicon.now }
    ensures { (front : List Word) × Has (record { number = entry; words = front ++ string_bytes result.now ∷ [] }) lexicon.now }
{
    let words = lexicon.words(entry);
    let last = words.len() - 1;
    &words[last]
}

/// The words of an entry but the last.
pub(crate) fn front_words(
    alloc: Global,
    lexicon: &Lexicon,
    entry: u32,
) -> Result<Vec<String>, NoMemory>
    requires number { HasNumber lexicon.now entry }
    requires have { HaveWords lexicon.now }
    ensures { IfOk result (λ v. (last : Word) × Has (record { number = entry; words = map string_bytes v.items ++ last ∷ [] }) lexicon.now) }
{
    let words = lexicon.words(entry);
    let last = words.len() - 1;
    let front = copied(alloc, &words[..last])?;
    Ok(front)
}
