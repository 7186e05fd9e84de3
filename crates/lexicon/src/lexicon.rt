//! Lexicons.

ghost use Rattle.std.specs.Prelude.{◌≡◌, List, map, IfOk, string_bytes};
ghost use Rattle.lexicon.specs.Entries.{EntryTree, IsLexiconOf, HasNumber, with_words};
ghost use Rattle.lexicon.specs.Groups.{given_of, group_of, AreGroupsOf};
ghost use Rattle.lexicon.specs.Words.{Word, Has};

use crate::entries::{Entry, entries_copied, last_of};
use crate::groups::{Group, index_of, place_of};
use crate::{NoMemory, noted};
use indexmap::IndexMap;
use std::alloc::Global;
use std::marker::Model;

/// The entries of a grammar by number, and by their words.
#[derive(Drop)]
pub struct Lexicon {
    entries: Vec<Entry>,
    index: IndexMap<String, Vec<Group>>,
}

impl Model for Lexicon {
    ghost use Rattle.std.specs.Prelude.{List, map};
    ghost use Rattle.lexicon.specs.Entries.{EntryTree};
    ghost use Rattle.lexicon.specs.Inner.Index.{entry_of, IsIndexOf};

    ghost Value = { List EntryTree };

    ghost view = { λ l. map entry_of l.entries.items };

    ghost invariant = { λ l. IsIndexOf (map entry_of l.entries.items) l.index.entries };
}

impl Lexicon {
    /// Makes a lexicon of entries, each with its number and its folded words, in any order.
    pub fn make(alloc: Global, entries: &[(u32, Vec<String>)]) -> Result<Lexicon, NoMemory>
        ensures { IfOk result (λ l. IsLexiconOf (map given_of entries.now) l) }
    {
        let mut sorted = entries_copied(alloc, entries)?;
        sorted.sort_by_key(|e| e.number)?;
        let index = index_of(alloc, &sorted)?;
        Ok(Lexicon {
            entries: sorted,
            index,
        })
    }

    /// The numbers of the entries with exactly these folded words, rising. Takes no memory.
    pub fn by_words(&self, words: &[String]) -> &[u32]
        ensures { result.now ≡ with_words self.now (map string_bytes words.now) }
    {
        let groups = noted(&self.index, last_of(words));
        match place_of(groups, words) {
            Some(i) => groups[i].entries.as_slice(),
            None => &[],
        }
    }

    /// The entries whose last folded word this is, those with the same words together. No two groups have the same words.
    /// Takes no memory.
    pub fn by_last(&self, word: &str) -> &[Group]
        ensures { AreGroupsOf self.now word.now (map group_of result.now) }
    {
        noted(&self.index, word)
    }

    /// The words of the entry with this number, which an entry must have. Takes no memory, and one step where the numbers
    /// are 0, 1, 2 and so on.
    pub fn words(&self, entry: u32) -> &[String]
        requires { HasNumber self.now entry }
        ensures { Has (record { number = entry; words = map string_bytes result.now }) self.now }
    {
        let place = entry as usize;
        if place < self.entries.len() && self.entries[place].number == entry {
            return self.entries[place].words.as_slice();
        }
        for other in &self.entries {
            if other.number == entry {
                return other.words.as_slice();
            }
        }
        unreachable!()
    }
}
