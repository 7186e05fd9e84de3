//! Entries as a lexicon keeps them.

ghost use Rattle.std.specs.Prelude.{◌≡◌, map, IfOk, string_bytes};
ghost use Rattle.lexicon.specs.Entries.{last_word, same_words};
ghost use Rattle.lexicon.specs.Groups.{given_of};
ghost use Rattle.lexicon.specs.Inner.Index.{entry_of};

use crate::{NoMemory, copied};
use std::alloc::Global;

/// An entry: its number, and its words.
#[derive(Drop)]
pub(crate) struct Entry {
    pub number: u32,
    pub words: Vec<String>,
}

/// The given entries.
pub(crate) fn entries_copied(
    alloc: Global,
    given: &[(u32, Vec<String>)],
) -> Result<Vec<Entry>, NoMemory>
    ensures { IfOk result (λ v. map entry_of v.items ≡ map given_of given.now) }
{
    let mut out = Vec::new(alloc);
    for pair in given {
        let words = copied(alloc, &pair.1)?;
        out.push(Entry {
            number: pair.0,
            words,
        })?;
    }
    Ok(out)
}

/// The last of these words.
pub(crate) fn last_of(words: &[String]) -> &str
    ensures { result.now ≡ last_word (map string_bytes words.now) }
{
    match words.last() {
        Some(word) => word.as_str(),
        None => "",
    }
}

/// Whether these are the same words.
pub(crate) fn are_same(a: &[String], b: &[String]) -> bool
    ensures { result ≡ same_words (map string_bytes a.now) (map string_bytes b.now) }
{
    a == b
}
