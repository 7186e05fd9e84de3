//! Lists that are noted for words.

ghost use Rattle.std.specs.Prelude.{◌≡◌, ◌++◌, ◌∷◌, [], if◌then◌else◌, OnOk};
ghost use Rattle.std.specs.Str.{bytes_eq};
ghost use Rattle.lexicon.specs.Words.{Word, noted};

use crate::NoMemory;
use indexmap::IndexMap;
use std::alloc::Global;

/// Adds a value at the end of the list that is noted for a word. A first value makes a copy of the word; a further one
/// takes room in the word's list alone.
pub fn note<T: Drop>(
    alloc: Global,
    notes: &mut IndexMap<String, Vec<T>>,
    word: &str,
    value: T,
) -> Result<(), NoMemory>
    ensures { OnOk result ((w : Word) → noted notes.new.entries w ≡ noted notes.old.entries w ++ (if bytes_eq w word.now then value ∷ [] else [])) }
{
    if let Some(list) = notes.get_mut(word) {
        list.push(value)?;
        return Ok(());
    }
    let mut list = Vec::new(alloc);
    list.push(value)?;
    let key = String::from_str(alloc, word)?;
    notes.insert(key, list)?;
    Ok(())
}

/// The list that is noted for a word, in the order of the calls of [`note`]; an empty one where there is no note.
pub fn noted<'a, T: Drop>(notes: &'a IndexMap<String, Vec<T>>, word: &str) -> &'a [T]
    ensures { result.now ≡ noted notes.now.entries word.now }
{
    match notes.get(word) {
        Some(list) => list.as_slice(),
        None => &[],
    }
}
