//! What a list leaves out once it is made.

ghost use Rattle.std.specs.Prelude.{◌≡◌, All, IfOk, IsTrue};
ghost use Rattle.std.specs.List.Sorted.{IsPermutation};
ghost use Rattle.forest_unpack.specs.declared.sifting.LeftOut.TheVariants as lefts;
ghost use Rattle.forest_unpack.specs.Items.{items_of};
ghost use Rattle.forest_unpack.specs.Sifted.{AreEnough, IsThere, IsSifted};
ghost use Rattle.forest_unpack.specs.Inner.Memos.{IsNumbered, known_in};

use crate::counted::CountedTree;
use crate::item::Item;
use crate::memo::Memo;
use crate::{Fulls, NoMemory};
use std::alloc::Global;

/// What lists leave out: nothing, or each tree whose full structure another tree of the same list has.
#[derive(Debug, Clone, Copy)]
pub enum LeftOut {
    Nothing,
    Repeats,
}

/// Puts items in the order of the numbers of their full structures.
fn order<F: Fulls>(items: &mut Vec<Item<F>>)
    ensures { IsPermutation items.old.items items.new.items }
{
    items.sort_unstable_by(|a, b| a.number.cmp(&b.number));
}

/// Whether an item's full structure has this number.
fn has_number<F: Fulls>(item: &Item<F>, number: u32) -> bool
    ensures { IsTrue result → item.now.number ≡ number }
{
    item.number == number
}

/// Whether the last of these has the number of the item's full structure.
fn repeats<F: Fulls>(kept: &[Item<F>], item: &Item<F>) -> bool
    ensures { IsTrue result → IsThere kept.now item.now.number }
{
    let count = kept.len();
    if count == 0 {
        return false;
    }
    let place = count - 1;
    has_number(&kept[place], item.number)
}

/// One item of each full structure that has a number of its own.
fn without_repeats<F: Fulls>(
    alloc: Global,
    _fulls: &F,
    _memo: &Memo<F>,
    made: Vec<Item<F>>,
) -> Result<Vec<Item<F>>, NoMemory>
    requires { All (IsNumbered (F.value _fulls.now) (known_in (F.value _fulls.now) _memo.now)) made.items }
    ensures numbered { IfOk result (λ kept. All (IsNumbered (F.value _fulls.now) (known_in (F.value _fulls.now) _memo.now)) kept.items) }
    ensures sifted { IfOk result (λ kept. IsSifted lefts.Repeats (items_of (F.value _fulls.now) made.items) (items_of (F.value _fulls.now) kept.items)) }
{
    let mut items = made;
    order(&mut items);
    let mut kept = Vec::new(alloc);
    while let Some(item) = items.pop() {
        if repeats(&kept, &item) {
            continue;
        }
        kept.push(item)?;
    }
    Ok(kept)
}

/// What is left of a list.
pub fn sift<F: Fulls>(
    alloc: Global,
    fulls: &F,
    memo: &Memo<F>,
    left: LeftOut,
    made: Vec<Item<F>>,
) -> Result<Vec<Item<F>>, NoMemory>
    requires { All (IsNumbered (F.value fulls.now) (known_in (F.value fulls.now) memo.now)) made.items }
    ensures numbered { IfOk result (λ kept. All (IsNumbered (F.value fulls.now) (known_in (F.value fulls.now) memo.now)) kept.items) }
    ensures sifted { IfOk result (λ kept. IsSifted left (items_of (F.value fulls.now) made.items) (items_of (F.value fulls.now) kept.items)) }
{
    match left {
        LeftOut::Nothing => Ok(made),
        LeftOut::Repeats => without_repeats(alloc, fulls, memo, made),
    }
}

/// Whether what was kept of whole lists is all that is asked for: where lists left something out, only if nothing was kept.
pub fn are_enough(left: LeftOut, kept: &[CountedTree]) -> bool
    ensures { IsTrue result → AreEnough left kept.now }
{
    match left {
        LeftOut::Nothing => true,
        LeftOut::Repeats => kept.is_empty(),
    }
}
