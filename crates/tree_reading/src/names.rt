//! The names that trees are written with.

ghost use Rattle.std.specs.Prelude.{◌≡◌, [], length, max, ◌↔◌, ℕ, List, map, IfOk, OnOk, IsTrue, true, string_bytes, if◌then◌else◌};
ghost use Rattle.std.specs.Str.{bytes_eq};
ghost use Rattle.tree_reading.specs.Grammars.{TreeGrammar, IsNamedWell, IsNamedApart, HasEntry};
ghost use Rattle.tree_reading.specs.Inner.Uses.{AreUses, AreTabled, uses_in, with_use};
ghost use Rattle.tree_reading.specs.Inner.Near.{IsNear};

use crate::Part;
use crate::near::{is_usable, shared};
use crate::uses::{Phrase, Rules, Uses};
use derivation::NoMemory;
use indexmap::IndexMap;
use std::alloc::{AllocError, Global};
use std::marker::Model;

/// The names that trees are written with, found by name and part.
#[derive(Drop)]
pub struct TreeNames {
    names: Vec<String>,
    parts: Vec<Part>,
    uses: IndexMap<String, Uses>,
    has_entry: bool,
}

impl Model for TreeNames {
    ghost use Rattle.std.specs.Prelude.{◌≡◌, ◌↔◌, map, IsTrue, string_bytes};
    ghost use Rattle.tree_reading.specs.Grammars.{TreeGrammar, IsNamedWell, IsNamedApart, HasEntry};
    ghost use Rattle.tree_reading.specs.Inner.Uses.{AreTabled};

    ghost Value = { TreeGrammar };

    ghost view = { λ t. record { names = map string_bytes t.names.items; parts = t.parts.items } };

    ghost invariant = { λ t. IsNamedWell (record { names = map string_bytes t.names.items; parts = t.parts.items })
        × IsNamedApart (record { names = map string_bytes t.names.items; parts = t.parts.items })
        × AreTabled (record { names = map string_bytes t.names.items; parts = t.parts.items }) t.uses.entries
        × (IsTrue t.has_entry ↔ HasEntry (record { names = map string_bytes t.names.items; parts = t.parts.items })) };
}

// The uses of a name that has one more instance.
fn with_use(old: Uses, place: u32, part: Part) -> Uses
    ensures { result ≡ with_use old place part }
{
    match part {
        Part::Entry => Uses {
            entry: Some(place),
            rules: old.rules,
        },
        Part::LexicalRule => Uses {
            entry: old.entry,
            rules: Rules {
                lexical: Some(place),
                phrase: old.rules.phrase,
            },
        },
        Part::PhraseRule { daughters } if daughters > 0 => Uses {
            entry: old.entry,
            rules: Rules {
                lexical: old.rules.lexical,
                phrase: Some(Phrase {
                    rule: place,
                    daughters,
                }),
            },
        },
        _ => old,
    }
}

// What a table says of a name.
fn uses_in(table: &IndexMap<String, Uses>, name: &str) -> Uses
    ensures { result ≡ uses_in table.now.entries name.now }
{
    table.get(name).copied().unwrap_or(Uses::NONE)
}

// Notes one more instance.
fn note(
    alloc: Global,
    table: &mut IndexMap<String, Uses>,
    name: &str,
    place: u32,
    part: Part,
) -> Result<(), AllocError>
    ensures { OnOk result ((n : List ℕ) → uses_in table.new.entries n ≡ (if bytes_eq n name.now then with_use (uses_in table.old.entries name.now) place part else uses_in table.old.entries n)) }
{
    let uses = with_use(uses_in(table, name), place, part);
    table.insert(String::from_str(alloc, name)?, uses)?;
    Ok(())
}

// Whether an instance is an entry.
fn has_entry(parts: &[Part]) -> bool
    ensures { IsTrue result ↔ HasEntry (record { names = []; parts = parts.now }) }
{
    for part in parts {
        if let Part::Entry = part {
            return true;
        }
    }
    false
}

// A copy of names.
fn copied(alloc: Global, names: &[String]) -> Result<Vec<String>, NoMemory>
    ensures { IfOk result (λ v. map string_bytes v.items ≡ map string_bytes names.now) }
{
    let mut copies = Vec::with_capacity(alloc, names.len())?;
    for name in names {
        copies.push(name.clone()?)?;
    }
    Ok(copies)
}

impl TreeNames {
    /// Looks through the instances once: each place has a name and a part, and of one kind no two have one name.
    /// More instances than a `u32` can number count as want of memory.
    pub fn new(alloc: Global, names: &[String], parts: Vec<Part>) -> Result<TreeNames, NoMemory>
        requires well { IsNamedWell (record { names = map string_bytes names.now; parts = parts.items }) }
        requires apart { IsNamedApart (record { names = map string_bytes names.now; parts = parts.items }) }
        ensures { IfOk result (λ t. t ≡ record { names = map string_bytes names.now; parts = parts.items }) }
    {
        let uses = table_of(alloc, names, &parts)?;
        let names = copied(alloc, names)?;
        let has_entry = has_entry(&parts);
        Ok(TreeNames {
            names,
            parts,
            uses,
            has_entry,
        })
    }

    /// Whether there is an entry: without one there is no tree.
    pub(crate) fn has_entry(&self) -> bool
        ensures entry { IsTrue result ↔ HasEntry self.now }
        ensures well { IsNamedWell self.now }
        ensures apart { IsNamedApart self.now }
    {
        self.has_entry
    }

    /// The uses of a name.
    pub(crate) fn uses(&self, name: &str) -> Uses
        ensures { AreUses self.now true name.now result }
    {
        uses_in(&self.uses, name)
    }

    /// How many bytes of what stands here a name begins with that may stand here: of all such names, the most.
    pub(crate) fn near(&self, name: &str, wide: bool) -> usize
        ensures { IsNear self.now wide name.now result }
    {
        near_of(&self.names, &self.parts, name, wide)
    }
}

// The uses of all names.
fn table_of(
    alloc: Global,
    names: &[String],
    parts: &[Part],
) -> Result<IndexMap<String, Uses>, NoMemory>
    requires well { IsNamedWell (record { names = map string_bytes names.now; parts = parts.now }) }
    requires apart { IsNamedApart (record { names = map string_bytes names.now; parts = parts.now }) }
    ensures { IfOk result (λ t. AreTabled (record { names = map string_bytes names.now; parts = parts.now }) t.entries) }
{
    let Ok(count) = u32::try_from(names.len()) else {
        return Err(NoMemory);
    };
    let mut table = IndexMap::new(alloc);
    for place in 0..count {
        let at = place as usize;
        note(alloc, &mut table, names[at].as_str(), place, parts[at])?;
    }
    Ok(table)
}

// The larger of two numbers.
fn larger(a: usize, b: usize) -> usize
    ensures { result ≡ max a b }
{
    if a < b { b } else { a }
}

// How many bytes of what stands here one of these names begins with that may stand here: of all such names, the most.
fn near_of(names: &[String], parts: &[Part], name: &str, wide: bool) -> usize
    requires { length names.now ≡ length parts.now }
    ensures { IsNear (record { names = map string_bytes names.now; parts = parts.now }) wide name.now result }
{
    let mut most = 0;
    for place in 0..parts.len() {
        if is_usable(parts[place], wide) {
            most = larger(most, shared(name.as_bytes(), names[place].as_bytes()));
        }
    }
    most
}
