//! The sets for which written types stand, as words of bits.

ghost use Rattle.std.specs.Prelude.{◌≡◌, ◌≢◌, ℕ, ◌+◌, ◌*◌, ◌<◌, ◌≤◌, ◌^◌, ◌||◌, ◌==◌, length, All, IfOk, OnOk, true, false, slice_index_or, [], ◌↔◌, IsTrue};
ghost use Rattle.type_hierarchy.specs.Bits.{has_bit, IsRow};
ghost use Rattle.type_hierarchy.specs.Inner.Reach.{lists};
ghost use Rattle.type_hierarchy.specs.Table.{has_member};
ghost use Rattle.type_hierarchy.specs.Inner.Rows.{row_at, AreRows, AreEmpty, HoldOrder, Marks, AreOwn, IsRaised, IsClosedAt, AreClosed, HoldBelow};

use crate::bits;
use crate::components::components_of;
use crate::order::above;
use std::alloc::{AllocError, Global};

/// The set of the members, which are below `count`.
pub fn row_of(alloc: Global, members: &[u32], count: u32) -> Result<Vec<u64>, AllocError>
    requires { All (λ x. x < count) members.now }
    ensures row { IfOk result (λ row. IsRow count row.items) }
    ensures has { IfOk result (λ row. (x : ℕ) → has_bit row.items x ≡ has_member members.now x) }
{
    let mut row = bits::empty(alloc, count)?;
    for x in members {
        bits::mark(&mut row, *x, true);
    }
    Ok(row)
}

// By number, the set of a type alone.
fn own_rows(alloc: Global, count: u32) -> Result<Vec<Vec<u64>>, AllocError>
    ensures rows { IfOk result (λ rows. AreRows rows.items) }
    ensures size { IfOk result (λ rows. length rows.items ≡ count) }
    ensures own { IfOk result (λ rows. AreOwn (lists rows.items)) }
{
    let mut rows = Vec::with_capacity(alloc, count as usize)?;
    for t in 0..count {
        let mut row = bits::empty(alloc, count)?;
        bits::mark(&mut row, t, true);
        rows.push(row)?;
    }
    Ok(rows)
}

// Puts a set into the sets of these types.
fn raise(rows: &mut [Vec<u64>], parents: &[usize], row: &[u64])
    requires rows { AreRows rows.old }
    requires row { IsRow (length rows.old) row.now }
    requires range { All (λ x. x < length rows.old) parents.now }
    ensures rows { AreRows rows.new }
    ensures raised { IsRaised (lists rows.old) (lists rows.new) parents.now row.now }
{
    for parent in parents {
        bits::extend(&mut rows[*parent], row);
    }
}

// Puts the sets of types into those of their parents, the last type of the order first.
fn raise_all(
    alloc: Global,
    rows: &mut [Vec<u64>],
    parents: &[Vec<usize>],
    mut order: Vec<usize>,
) -> Result<(), AllocError>
    requires range { All (λ row. All (λ x. x < length parents.now) row.items) parents.now }
    requires rows { AreRows rows.old }
    requires size { length rows.old ≡ length parents.now }
    requires held { HoldBelow (lists parents.now) (lists rows.old) }
    ensures rows { OnOk result (AreRows rows.new) }
    ensures held { OnOk result (HoldBelow (lists parents.now) (lists rows.new)) }
{
    while let Some(t) = order.pop() {
        if t < parents.len() {
            let row = Vec::from_slice(alloc, &rows[t])?;
            raise(rows, &parents[t], &row);
        }
    }
    Ok(())
}

// By number, sets of types at or below each one: all of them where no type is below itself, since then each type's set
// is whole before it goes into those of its parents.
fn united_rows(alloc: Global, parents: &[Vec<usize>]) -> Result<Vec<Vec<u64>>, AllocError>
    requires range { All (λ row. All (λ x. x < length parents.now) row.items) parents.now }
    requires few { length parents.now < 2 ^ 32 }
    ensures rows { IfOk result (λ rows. AreRows rows.items) }
    ensures one_each { IfOk result (λ rows. length rows.items ≡ length parents.now) }
    ensures held { IfOk result (λ rows. HoldBelow (lists parents.now) (lists rows.items)) }
{
    let order = components_of(alloc, parents)?.order;
    let mut rows = own_rows(alloc, parents.len() as u32)?;
    raise_all(alloc, &mut rows, parents, order)?;
    Ok(rows)
}

// Whether the sets of these types have all that a set has.
fn are_above(rows: &[Vec<u64>], parents: &[usize], row: &[u64]) -> bool
    requires rows { AreRows rows.now }
    requires row { IsRow (length rows.now) row.now }
    requires range { All (λ x. x < length rows.now) parents.now }
    ensures { IsTrue result → IsClosedAt (lists rows.now) parents.now row.now }
{
    for parent in parents {
        if !bits::is_subset(row, &rows[*parent]) {
            return false;
        }
    }
    true
}

// Whether each type's set is a part of its parents' sets.
fn are_closed(rows: &[Vec<u64>], parents: &[Vec<usize>]) -> bool
    requires rows { AreRows rows.now }
    requires size { length rows.now ≡ length parents.now }
    requires range { All (λ row. All (λ x. x < length parents.now) row.items) parents.now }
    ensures { IsTrue result → AreClosed (lists parents.now) (lists rows.now) }
{
    for t in 0..parents.len() {
        if !are_above(rows, &parents[t], &rows[t]) {
            return false;
        }
    }
    true
}

// Puts a type into the sets of the types that it is marked to be below, and into its own.
fn spread(rows: &mut [Vec<u64>], marks: &[bool], t: u32)
    requires rows { AreRows rows.old }
    requires marks_fit { length marks.now ≡ length rows.old }
    requires t_in { t < length rows.old }
    requires few { length rows.old < 2 ^ 32 }
    ensures rows { AreRows rows.new }
    ensures marked { Marks (lists rows.old) (lists rows.new) marks.now t }
{
    for b in 0..rows.len() {
        let is_above = marks[b] || b == t as usize;
        bits::mark(&mut rows[b], t, is_above);
    }
}

// Puts each type into the sets of the types that it is at or below.
fn fill(alloc: Global, parents: &[Vec<usize>], rows: &mut [Vec<u64>]) -> Result<(), AllocError>
    requires range { All (λ row. All (λ x. x < length parents.now) row.items) parents.now }
    requires few { length parents.now < 2 ^ 32 }
    requires size { length rows.old ≡ length parents.now }
    requires rows { AreRows rows.old }
    requires none { AreEmpty (lists rows.old) }
    ensures rows { OnOk result (AreRows rows.new) }
    ensures order { OnOk result (HoldOrder (lists parents.now) (lists rows.new)) }
{
    for t in 0..parents.len() {
        let marks = above(alloc, parents, t)?;
        spread(rows, &marks, t as u32);
    }
    Ok(())
}

// The same by a search from each type, which serves also where types are below themselves.
fn rows_by_search(alloc: Global, parents: &[Vec<usize>]) -> Result<Vec<Vec<u64>>, AllocError>
    requires range { All (λ row. All (λ x. x < length parents.now) row.items) parents.now }
    requires few { length parents.now < 2 ^ 32 }
    ensures rows { IfOk result (λ rows. AreRows rows.items) }
    ensures one_each { IfOk result (λ rows. length rows.items ≡ length parents.now) }
    ensures order { IfOk result (λ rows. HoldOrder (lists parents.now) (lists rows.items)) }
{
    let count = parents.len() as u32;
    let mut rows = bits::empty_rows(alloc, count, count)?;
    fill(alloc, parents, &mut rows)?;
    Ok(rows)
}

/// By number, the set of the types that are at or below each one.
pub fn rows_of(alloc: Global, parents: &[Vec<usize>]) -> Result<Vec<Vec<u64>>, AllocError>
    requires range { All (λ row. All (λ x. x < length parents.now) row.items) parents.now }
    requires few { length parents.now < 2 ^ 32 }
    ensures rows { IfOk result (λ rows. AreRows rows.items) }
    ensures one_each { IfOk result (λ rows. length rows.items ≡ length parents.now) }
    ensures order { IfOk result (λ rows. HoldOrder (lists parents.now) (lists rows.items)) }
{
    let rows = united_rows(alloc, parents)?;
    if are_closed(&rows, parents) {
        return Ok(rows);
    }
    rows_by_search(alloc, parents)
}
