//! The trees that are asked for.

ghost use Rattle.std.specs.Prelude.{◌≡◌, ◌<◌, ◌↔◌, ◌∷◌, [], All, None, length, map, IfOk, OnOk, IsTrue};
ghost use Rattle.std.specs.Arc.{arc_value};
ghost use Rattle.std.specs.List.Sorted.{IsPermutation, IsSortedBy};
ghost use Rattle.std.specs.Ordering.{is_lt};
ghost use Rattle.derivation.specs.Order.{compare_trees};
ghost use Rattle.forest_unpack.specs.Items.{items_of, list_at, IsListed};
ghost use Rattle.forest_unpack.specs.Inner.Memos.{AreAccepted, AreReached, IsNumbered, IsReachedItem, IsReady, known_in};
ghost use Rattle.forest_unpack.specs.Keeping.{Kept};
ghost use Rattle.forest_unpack.specs.Counted.{derivation_in};
ghost use Rattle.derivation.specs.Views.{derivation_of};

use crate::counted::CountedTree;
use crate::item::Item;
use crate::memo::Memo;
use crate::{Fulls, NoMemory};
use derivation::{Tree, compare_counted};
use std::alloc::Global;

/// Whether no tree comes before the one in front of it.
fn is_sorted(trees: &[CountedTree]) -> bool
    ensures { IsTrue result → IsSortedBy (λ x y. is_lt (compare_trees x y)) (map derivation_in trees.now) }
{
    for i in 1..trees.len() {
        if compare_counted(&trees[i].tree, &trees[i - 1].tree).is_lt() {
            return false;
        }
    }
    true
}

/// Puts trees in the order of trees.
fn arrange(trees: &mut Vec<CountedTree>)
    ensures moved { IsPermutation (map derivation_in trees.old.items) (map derivation_in trees.new.items) }
    ensures sorted { IsSortedBy (λ x y. is_lt (compare_trees x y)) (map derivation_in trees.new.items) }
{
    trees.sort_unstable_by(|a, b| compare_counted(&a.tree, &b.tree));
}

/// Puts trees in the order of trees. Trees that stand in it stay as they are, after one walk.
pub fn sort(trees: &mut Vec<CountedTree>)
    ensures moved { IsPermutation (map derivation_in trees.old.items) (map derivation_in trees.new.items) }
    ensures sorted { IsSortedBy (λ x y. is_lt (compare_trees x y)) (map derivation_in trees.new.items) }
{
    if is_sorted(trees) {
        return;
    }
    arrange(trees);
}

/// By what trees are asked for: their full structures, those that are known by number, and their cover.
#[derive(Drop)]
pub struct Demand<'k, F: Fulls> {
    pub fulls: &'k F,
    pub memo: &'k Memo<F>,
    pub cover: &'k F::Cover,
}

/// Whether trees of an item's full structure are asked for, which is found out once.
fn accepted<F: Fulls>(
    alloc: Global,
    demand: &Demand<F>,
    work: &mut F::Work,
    item: &Item<F>,
    told: &mut Vec<Option<bool>>,
) -> Result<bool, NoMemory>
    requires numbered { IsNumbered (F.value demand.now.fulls.now) (known_in (F.value demand.now.fulls.now) demand.now.memo.now) item.now }
    requires reached { IsReachedItem (F.value demand.now.fulls.now) (F.wholes demand.now.fulls.now) (F.named demand.now.fulls.now) item.now }
    requires told { AreAccepted (F.wholes demand.now.fulls.now) (known_in (F.value demand.now.fulls.now) demand.now.memo.now) demand.now.cover.now told.old.items }
    ensures told { OnOk result (AreAccepted (F.wholes demand.now.fulls.now) (known_in (F.value demand.now.fulls.now) demand.now.memo.now) demand.now.cover.now told.new.items) }
    ensures is { IfOk result (λ yes. IsTrue yes ↔ (F.wholes demand.now.fulls.now).accepted (F.value demand.now.fulls.now (arc_value item.now.full)) demand.now.cover.now) }
{
    let number = item.number as usize;
    if number >= told.len() {
        return demand.fulls.accepts(alloc, work, &item.full, demand.cover);
    }
    if let Some(yes) = told[number] {
        return Ok(yes);
    }
    let yes = demand.fulls.accepts(alloc, work, &item.full, demand.cover)?;
    told[number] = Some(yes);
    Ok(yes)
}

/// Adds a tree if it is asked for.
fn keep_one<F: Fulls>(
    alloc: Global,
    demand: &Demand<F>,
    work: &mut F::Work,
    item: &Item<F>,
    told: &mut Vec<Option<bool>>,
    into: &mut Vec<CountedTree>,
) -> Result<(), NoMemory>
    requires numbered { IsNumbered (F.value demand.now.fulls.now) (known_in (F.value demand.now.fulls.now) demand.now.memo.now) item.now }
    requires reached { IsReachedItem (F.value demand.now.fulls.now) (F.wholes demand.now.fulls.now) (F.named demand.now.fulls.now) item.now }
    requires told { AreAccepted (F.wholes demand.now.fulls.now) (known_in (F.value demand.now.fulls.now) demand.now.memo.now) demand.now.cover.now told.old.items }
    ensures told { OnOk result (AreAccepted (F.wholes demand.now.fulls.now) (known_in (F.value demand.now.fulls.now) demand.now.memo.now) demand.now.cover.now told.new.items) }
    ensures kept { OnOk result (Kept (F.value demand.now.fulls.now) (F.wholes demand.now.fulls.now) demand.now.cover.now (items_of (F.value demand.now.fulls.now) (item.now ∷ [])) into.old.items into.new.items) }
{
    if accepted(alloc, demand, work, item, told)? {
        into.push(item.tree.copy()?)?;
    }
    Ok(())
}

/// Nothing found out yet, of as many full structures.
fn none_told(alloc: Global, count: usize) -> Result<Vec<Option<bool>>, NoMemory>
    ensures { IfOk result (λ told. All (λ o. o ≡ None) told.items) }
{
    let mut told = Vec::with_capacity(alloc, count)?;
    while told.len() < count {
        told.push(None)?;
    }
    Ok(told)
}

/// Adds the trees of a list that are asked for.
fn keep<F: Fulls>(
    alloc: Global,
    demand: &Demand<F>,
    work: &mut F::Work,
    items: &[Item<F>],
    into: &mut Vec<CountedTree>,
) -> Result<(), NoMemory>
    requires numbered { All (IsNumbered (F.value demand.now.fulls.now) (known_in (F.value demand.now.fulls.now) demand.now.memo.now)) items.now }
    requires reached { All (IsReachedItem (F.value demand.now.fulls.now) (F.wholes demand.now.fulls.now) (F.named demand.now.fulls.now)) items.now }
    ensures { OnOk result (Kept (F.value demand.now.fulls.now) (F.wholes demand.now.fulls.now) demand.now.cover.now (items_of (F.value demand.now.fulls.now) items.now) into.old.items into.new.items) }
{
    let mut told = none_told(alloc, demand.memo.known.len())?;
    for item in items {
        keep_one(alloc, demand, work, item, &mut told, into)?;
    }
    Ok(())
}

/// Adds the trees of the list of a host that are asked for.
pub fn keep_host<F: Fulls>(
    alloc: Global,
    demand: &Demand<F>,
    work: &mut F::Work,
    host: u64,
    table: &[Option<Vec<Item<F>>>],
    into: &mut Vec<CountedTree>,
) -> Result<(), NoMemory>
    requires host { host < length table.now }
    requires listed { IsListed table.now host }
    requires ready { IsReady (F.value demand.now.fulls.now) (F.wholes demand.now.fulls.now) demand.now.memo.now table.now }
    requires reached { AreReached (F.value demand.now.fulls.now) (F.wholes demand.now.fulls.now) (F.named demand.now.fulls.now) table.now }
    ensures { OnOk result (Kept (F.value demand.now.fulls.now) (F.wholes demand.now.fulls.now) demand.now.cover.now (list_at (F.value demand.now.fulls.now) table.now host) into.old.items into.new.items) }
{
    match &table[host as usize] {
        None => Ok(()),
        Some(items) => keep(alloc, demand, work, items, into),
    }
}

/// The trees alone.
pub fn trees_of(alloc: Global, counted: Vec<CountedTree>) -> Result<Vec<Tree>, NoMemory>
    ensures { IfOk result (λ v. map derivation_of v.items ≡ map derivation_in counted.items) }
{
    let mut trees = Vec::with_capacity(alloc, counted.len())?;
    for one in counted {
        trees.push(one.tree)?;
    }
    Ok(trees)
}
