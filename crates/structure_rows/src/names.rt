//! Features, paths and types by their names.

ghost use Rattle.std.specs.Prelude.{◌≤◌};

use fs_graph::Feat;
use std::alloc::{AllocError, Global};
use type_hierarchy::{Ty, Types};

// How many features the sample has.
pub const FEATS: u32 = 5;

// The names of the features, by number.
const NAMES: [&str; 5] = ["FIRST", "L4", "LAST", "LIST", "REST"];

// The name of a feature, `?` where it has none.
pub fn name_of(feat: Feat) -> &'static str {
    if feat.0 < FEATS {
        NAMES[feat.0 as usize]
    } else {
        "?"
    }
}

// The feature of this name, or else one that the sample hasn't.
pub fn feature(name: &str) -> Feat
    ensures { result.0 ≤ 5 }
{
    for number in 0..FEATS {
        if NAMES[number as usize] == name {
            return Feat(number);
        }
    }
    Feat(FEATS)
}

// The path of a text, in which each feature has a dot before it; the root is `.`.
pub fn path(alloc: Global, text: &str) -> Result<Vec<Feat>, AllocError> {
    let mut found = Vec::new(alloc);
    for name in text.split('.') {
        if !name.is_empty() {
            found.push(feature(name))?;
        }
    }
    Ok(found)
}

// The type of this name, a string's between quotes, or else a number of no type.
pub fn type_of(types: &Types, word: &str) -> Ty {
    match word.split_once('"') {
        Some((_, text)) => string_of(types, text),
        None => types.find(word).unwrap_or(Ty(u32::MAX)),
    }
}

// The type of a string, of which the text and the end quote are given.
fn string_of(types: &Types, text: &str) -> Ty {
    let counts = types.counts();
    for number in counts.completed..counts.all {
        if text.strip_suffix('"') == Some(types.name(Ty(number))) {
            return Ty(number);
        }
    }
    Ty(u32::MAX)
}
