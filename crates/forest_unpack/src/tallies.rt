//! Trees of hosts counted by their full structures.

ghost use Rattle.std.specs.Prelude.{◌≡◌, ◌<◌, IfSome, IsTrue, false, length};
ghost use Rattle.forest_unpack.specs.Inner.Classes.{IsAt, IsMore, IsRaised, listed};

use crate::Fulls;
use crate::item::Item;

/// One of the trees of a host that have a full structure, and how many of them were counted: never more than there are.
#[derive(Drop)]
pub struct Class<F: Fulls> {
    pub item: Item<F>,
    pub times: u64,
}

/// The place of the class whose full structure has a number.
fn class_at<F: Fulls>(made: &[Class<F>], number: u32) -> Option<usize>
    ensures { IfSome result (λ place. IsAt made.now place number) }
{
    for place in 0..made.len() {
        if made[place].item.number == number {
            return Some(place);
        }
    }
    None
}

/// Counts more trees to the class at a place.
fn raise<F: Fulls>(made: &mut Vec<Class<F>>, place: usize, times: u64)
    requires { place < length made.old.items }
    ensures { IsRaised place times made.old.items made.new.items }
{
    let sum = made[place].times.saturating_add(times);
    made[place].times = sum;
}

/// Counts more trees to the class whose full structure has a number; false where there is none.
pub fn raise_at<F: Fulls>(made: &mut Vec<Class<F>>, number: u32, times: u64) -> bool
    ensures more { IsTrue result → IsMore number times made.old.items made.new.items }
    ensures same { result ≡ false → made.new.items ≡ made.old.items }
{
    match class_at(made, number) {
        None => false,
        Some(place) => {
            raise(made, place, times);
            true
        }
    }
}

/// The classes of a host; none where nothing was counted.
pub fn counted_at<F: Fulls>(table: &[Vec<Class<F>>], host: u64) -> &[Class<F>]
    ensures { result.now ≡ listed table.now host }
{
    match table.get(host as usize) {
        Some(made) => made.as_slice(),
        None => &[],
    }
}
