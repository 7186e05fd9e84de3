//! Lists of words in byte order.

ghost use Rattle.std.specs.Prelude.{◌≡◌, map, string_bytes, OnOk};
ghost use Rattle.lexicon.specs.Words.{put};
ghost use Rattle.lexicon.specs.Inner.Places.{IsPlaceOf};

use crate::NoMemory;
use std::cmp::Ordering;

// Where a word belongs in a rising list.
enum Place {
    Known,
    Before(usize),
}

// The place of a word.
fn place_of(list: &[String], word: &String) -> Place
    ensures { IsPlaceOf (string_bytes word.now) (map string_bytes list.now) result }
{
    for (i, other) in list.iter().enumerate() {
        match word.cmp(other) {
            Ordering::Less => return Place::Before(i),
            Ordering::Equal => return Place::Known,
            Ordering::Greater => {}
        }
    }
    Place::Before(list.len())
}

/// Puts a word at its place in a rising list, where it isn't there already.
pub fn put(list: &mut Vec<String>, word: String) -> Result<(), NoMemory>
    ensures { OnOk result (map string_bytes list.new.items ≡ put (string_bytes word) (map string_bytes list.old.items)) }
{
    match place_of(list, &word) {
        Place::Known => {}
        Place::Before(i) => list.insert(i, word)?,
    }
    Ok(())
}
