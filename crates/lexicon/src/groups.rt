//! Entries with the same words, under their last word.

ghost use Rattle.std.specs.Prelude.{◌≡◌, ◌++◌, List, [], ◌∷◌, map, IfOk, OnOk, string_bytes};
ghost use Rattle.lexicon.specs.Entries.{EntryTree};
ghost use Rattle.lexicon.specs.Groups.{group_of};
ghost use Rattle.lexicon.specs.Inner.Index.{entry_of, with_entry, IsIndexOf, IsPlaceOf};

use crate::entries::{Entry, are_same, last_of};
use crate::{NoMemory, copied};
use indexmap::IndexMap;
use std::alloc::Global;

/// The entries that have the same words.
#[derive(Drop)]
pub struct Group {
    /// The folded words, of which the last is inflected.
    pub words: Vec<String>,
    /// The numbers of the entries that have exactly these words, rising.
    pub entries: Vec<u32>,
}

/// The place of the group of these words.
pub(crate) fn place_of(groups: &[Group], words: &[String]) -> Option<usize>
    ensures { IsPlaceOf (map string_bytes words.now) (map group_of groups.now) result }
{
    for (i, group) in groups.iter().enumerate() {
        if are_same(&group.words, words) {
            return Some(i);
        }
    }
    None
}

// Adds an entry to the group of its words.
fn add_entry(
    alloc: Global,
    groups: &mut Vec<Group>,
    number: u32,
    words: &[String],
) -> Result<(), NoMemory>
    ensures { OnOk result (map group_of groups.new.items ≡ with_entry number (map string_bytes words.now) (map group_of groups.old.items)) }
{
    if let Some(i) = place_of(groups, words) {
        let group = &mut groups[i];
        group.entries.push(number)?;
        return Ok(());
    }
    let words = copied(alloc, words)?;
    let mut entries = Vec::new(alloc);
    entries.push(number)?;
    groups.push(Group { words, entries })?;
    Ok(())
}

// Notes an entry under its last word.
fn note_entry(
    alloc: Global,
    index: &mut IndexMap<String, Vec<Group>>,
    entry: &Entry,
) -> Result<(), NoMemory>
    ensures { (done : List EntryTree) → IsIndexOf done index.old.entries → OnOk result (IsIndexOf (done ++ entry_of entry.now ∷ []) index.new.entries) }
{
    let last = last_of(&entry.words);
    if let Some(groups) = index.get_mut(last) {
        add_entry(alloc, groups, entry.number, &entry.words)?;
        return Ok(());
    }
    // Room for one: most words are the last of one group alone.
    let mut groups = Vec::with_capacity(alloc, 1)?;
    add_entry(alloc, &mut groups, entry.number, &entry.words)?;
    let key = String::from_str(alloc, last)?;
    index.insert(key, groups)?;
    Ok(())
}

/// The entries under their last words.
pub(crate) fn index_of(
    alloc: Global,
    entries: &[Entry],
) -> Result<IndexMap<String, Vec<Group>>, NoMemory>
    ensures { IfOk result (λ m. IsIndexOf (map entry_of entries.now) m.entries) }
{
    let mut index = IndexMap::new(alloc);
    for entry in entries {
        note_entry(alloc, &mut index, entry)?;
    }
    Ok(index)
}
