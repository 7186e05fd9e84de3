//! Entries by a predicate of each.

ghost use Rattle.std.specs.Prelude.{◌≡◌, map, IfOk, OnOk};
ghost use Rattle.generate_model.specs.Indexing.{entry_of, IsIndexOf};

use crate::NoMemory;
use indexmap::IndexMap;
use lexicon::{note, noted};
use std::alloc::Global;
use std::marker::Model;

/// Entries by a predicate that each of their lexical trees has, and those of which none is known apart.
///
/// Of an input without that predicate an entry need not be tried. Those that are apart are to be tried for each input.
#[derive(Drop)]
pub struct PredicateIndex {
    keyed: IndexMap<String, Vec<u32>>,
    apart: Vec<u32>,
}

impl Model for PredicateIndex {
    ghost use Rattle.std.specs.Prelude.{map};
    ghost use Rattle.generate_model.specs.Indexing.{IndexTree, list_of};

    ghost Value = { IndexTree };

    ghost view = { λ i. record { keyed = map list_of i.keyed.entries; apart = i.apart.items } };
}

impl PredicateIndex {
    ghost use Rattle.std.specs.Prelude.{◌++◌, ◌∷◌, []};
    ghost use Rattle.generate_model.specs.Indexing.{having_of};
    ghost use Rattle.generate_model.specs.Inner.Adding.{IsAdded};

    // Adds an entry.
    fn add(&mut self, alloc: Global, number: u32, key: &Option<String>) -> Result<(), NoMemory>
        ensures { OnOk result (IsAdded (entry_of (number, key.now)) self.old self.new) }
    {
        match key {
            Some(pred) => note(alloc, &mut self.keyed, pred, number)?,
            None => self.apart.push(number)?,
        }
        Ok(())
    }

    /// The index of entries, each by its number, with its predicate where it has one.
    pub fn make(
        alloc: Global,
        entries: &[(u32, Option<String>)],
    ) -> Result<PredicateIndex, NoMemory>
        ensures { IfOk result (λ i. IsIndexOf (map entry_of entries.now) i) }
    {
        let mut index = PredicateIndex {
            keyed: IndexMap::new(alloc),
            apart: Vec::new(alloc),
        };
        for k in 0..entries.len() {
            index.add(alloc, entries[k].0, &entries[k].1)?;
        }
        Ok(index)
    }

    /// The numbers of the entries of a predicate, in the order in which they were given. Takes no memory.
    pub fn having(&self, pred: &str) -> &[u32]
        ensures { result.now ≡ having_of self.now.keyed pred.now }
    {
        noted(&self.keyed, pred)
    }

    /// The numbers of the entries without a predicate, in the order in which they were given. Takes no memory.
    pub fn apart(&self) -> &[u32]
        ensures { result.now ≡ self.now.apart }
    {
        self.apart.as_slice()
    }
}
