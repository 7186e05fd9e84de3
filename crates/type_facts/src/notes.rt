//! Lists that are noted for names.

ghost use Rattle.std.specs.Prelude.{◌≡◌, ◌++◌, ◌∷◌, [], if◌then◌else◌, OnOk};
ghost use Rattle.std.specs.Str.{bytes_eq};
ghost use Rattle.type_hierarchy.specs.Decls.{Name};
ghost use Rattle.type_facts.specs.Notes.{noted};

use crate::OutOfMemory;
use indexmap::IndexMap;
use std::alloc::Global;

/// Adds a value to the list that is noted for a name.
pub fn note<T: Drop>(
    alloc: Global,
    notes: &mut IndexMap<String, Vec<T>>,
    name: &str,
    value: T,
) -> Result<(), OutOfMemory>
    ensures { OnOk result ((n : Name) → noted notes.new.entries n ≡ noted notes.old.entries n ++ (if bytes_eq n name.now then value ∷ [] else [])) }
{
    let key = String::from_str(alloc, name)?;
    let old = notes.insert(key, Vec::new(alloc))?;
    let mut list = old.unwrap_or(Vec::new(alloc));
    list.push(value)?;
    let again = String::from_str(alloc, name)?;
    notes.insert(again, list)?;
    Ok(())
}

/// The list that is noted for a name; an empty one where there is no note.
pub fn noted<'a, T: Drop>(notes: &'a IndexMap<String, Vec<T>>, name: &str) -> &'a [T]
    ensures { result.now ≡ noted notes.now.entries name.now }
{
    match notes.get(name) {
        Some(list) => list.as_slice(),
        None => &[],
    }
}
