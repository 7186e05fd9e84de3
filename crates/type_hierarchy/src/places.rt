//! The places of names in a list.

ghost use Rattle.std.specs.Prelude.{◌≡◌, ◌<◌, ◌≤◌, length, take, position, option_map, Some, None, if◌then◌else◌, IfOk, OnOk};
ghost use Rattle.std.specs.Option.{option_or};
ghost use Rattle.std.specs.Str.{bytes_eq};
ghost use Rattle.type_hierarchy.specs.Decls.{Name, texts};
ghost use Rattle.type_hierarchy.specs.Named.{noted, ArePlaces};

use indexmap::IndexMap;
use std::alloc::{AllocError, Global};

// Notes the place of a name, unless it has one.
fn note(
    alloc: Global,
    places: &mut IndexMap<String, u32>,
    name: &str,
    place: u32,
) -> Result<(), AllocError>
    ensures { OnOk result ((n : Name) → noted places.new.entries n ≡ option_or (noted places.old.entries n) (if bytes_eq n name.now then Some place else None)) }
{
    if !places.contains_key(name) {
        places.insert(String::from_str(alloc, name)?, place)?;
    }
    Ok(())
}

/// The place of each of the first `count` names.
pub fn places_of(
    alloc: Global,
    names: &[String],
    count: u32,
) -> Result<IndexMap<String, u32>, AllocError>
    requires { count ≤ length names.now }
    ensures { IfOk result (λ places. ArePlaces places.entries (take count (texts names.now))) }
{
    let mut places = IndexMap::new(alloc);
    for place in 0..count {
        note(alloc, &mut places, names[place as usize].as_str(), place)?;
    }
    Ok(places)
}

/// The place of a name.
pub fn place_of(places: &IndexMap<String, u32>, name: &str) -> Option<u32>
    ensures { result ≡ noted places.now.entries name.now }
{
    places.get(name).copied()
}
