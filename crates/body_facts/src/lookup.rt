//! The numbers of the types, strings and features that bodies name.

ghost use Rattle.std.specs.Prelude.{◌≡◌, ◌<◌, ◌≤◌, ◌+◌, ℕ, length, take, drop, position, option_map, Some, None, if◌then◌else◌, unwrap_or, IfOk, OnOk};
ghost use Rattle.std.specs.Option.{option_or};
ghost use Rattle.std.specs.Str.{bytes_eq};
ghost use Rattle.type_hierarchy.specs.Decls.{Name, texts, number_of};
ghost use Rattle.type_hierarchy.specs.Named.{noted, ArePlaces};
ghost use Rattle.type_hierarchy.specs.Table.{completed_count};
ghost use Rattle.body_facts.specs.Numbers.{type_number, text_number, strings_of};

use crate::NoMemory;
use crate::settled_names::Names;
use fs_graph::Feat;
use indexmap::IndexMap;
use std::alloc::{AllocError, Global};
use type_hierarchy::{Ty, Types};

/// The numbers of what bodies name: types by their names, strings, and features by their names.
#[derive(Drop)]
pub struct Words<'a> {
    /// The completed types and the strings.
    pub types: &'a Types,
    /// The names that lists have.
    pub names: &'a Names,
    /// The names of the features by number.
    pub feats: &'a [String],
    features: IndexMap<String, u32>,
    strings: IndexMap<String, u32>,
    ghost features_placed: { ArePlaces features.entries (texts feats.now) },
    ghost strings_placed: { ArePlaces strings.entries (strings_of types.now) },
}

impl<'a> Words<'a> {
    ghost use Rattle.body_facts.specs.Claimed.{WordTable};
    ghost use Rattle.body_facts.specs.Writing.{list_names};
    ghost use Rattle.body_facts.specs.WordTables.{table_of};

    /// Looks through the features and the strings once. More features than a `u32` can number count as want of memory.
    pub fn new(
        alloc: Global,
        types: &'a Types,
        names: &'a Names,
        feats: &'a [String],
    ) -> Result<Words<'a>, NoMemory>
        ensures { IfOk result (λ words. table_of words ≡ record { types = types.now; names = list_names names.now; feats = texts feats.now }) }
    {
        let features = places_of(alloc, feats)?;
        let strings = places_of_strings(alloc, types)?;
        Ok(Words {
            types,
            names,
            feats,
            features,
            strings,
        })
    }

    /// The number of the completed type of a name, and 0 for a name that has none.
    pub(crate) fn type_of(&self, name: &str) -> Ty
        ensures { result.0 ≡ type_number self.now.types.now name.now }
    {
        self.types.find(name).unwrap_or(Ty(0))
    }

    /// The number of a string.
    pub(crate) fn string(&self, text: &str) -> Ty
        ensures { result.0 ≡ text_number self.now.types.now text.now }
    {
        let completed = self.types.counts().completed;
        Ty(completed + place_of(&self.strings, text))
    }

    /// The number of a feature.
    pub(crate) fn feature(&self, name: &str) -> Feat
        ensures { result.0 ≡ number_of (texts self.now.feats.now) name.now }
    {
        Feat(place_of(&self.features, name))
    }
}

// Notes the place of a name, unless it has one.
fn note(
    alloc: Global,
    places: &mut IndexMap<String, u32>,
    name: &str,
    place: u32,
) -> Result<(), AllocError>
    ensures { OnOk result ((n : Name) → noted places.new.entries n ≡ option_or (noted places.old.entries n) (if bytes_eq n name.now then Some place else None)) }
{
    if !places.contains_key(name) {
        places.insert(String::from_str(alloc, name)?, place)?;
    }
    Ok(())
}

// The first place of each name.
fn places_of(alloc: Global, names: &[String]) -> Result<IndexMap<String, u32>, NoMemory>
    ensures { IfOk result (λ places. ArePlaces places.entries (texts names.now)) }
{
    let Ok(count) = u32::try_from(names.len()) else {
        return Err(NoMemory);
    };
    let mut places = IndexMap::new(alloc);
    for place in 0..count {
        note(alloc, &mut places, names[place as usize].as_str(), place)?;
    }
    Ok(places)
}

// The place of each string among the strings.
fn places_of_strings(alloc: Global, types: &Types) -> Result<IndexMap<String, u32>, NoMemory>
    ensures { IfOk result (λ places. ArePlaces places.entries (strings_of types.now)) }
{
    let counts = types.counts();
    let mut places = IndexMap::new(alloc);
    for place in 0..counts.all - counts.completed {
        let text = types.name(Ty(counts.completed + place));
        note(alloc, &mut places, text, place)?;
    }
    Ok(places)
}

// The place of a name, and 0 for one that has none.
fn place_of(places: &IndexMap<String, u32>, name: &str) -> u32
    ensures { result ≡ unwrap_or (noted places.now.entries name.now) 0 }
{
    places.get(name).copied().unwrap_or(0)
}
