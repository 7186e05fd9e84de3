//! What the set at one place has in common with written types.

ghost use Rattle.std.specs.Prelude.{◌≡◌, ℕ, ◌<◌, ◌≤◌, ◌*◌, ◌&&◌, ◌||◌, not, length, IfOk, IfErr, OnOk, IsTrue, All};
ghost use Rattle.type_hierarchy.specs.Bits.{has_bit, IsRow};
ghost use Rattle.type_hierarchy.specs.Inner.Tables.{row_items};
ghost use Rattle.type_hierarchy.specs.Laws.{IsHierarchy};
ghost use Rattle.glb_completion.specs.Completion.{IsCompleteFault};
ghost use Rattle.glb_completion.specs.Inner.Crossings.{HasCrossings};
ghost use Rattle.glb_completion.specs.Inner.Kinds.{AreKinds};
ghost use Rattle.glb_completion.specs.Inner.Growing.{IsUpRow, IsGrowing, HasNear, StartsWith, IsMet, IsSpread};

use crate::complete_fault::CompleteFault;
use crate::family::Family;
use crate::kinds::Kinds;
use std::alloc::{AllocError, Global};
use type_hierarchy::{Hierarchy, bits};

/// The types that have a member in common with a set: those above its members. The lowest members are taken first,
/// since what is above them is above the others, too. Words whose members are all there are passed over.
pub fn near(
    alloc: Global,
    h: &Hierarchy,
    above: &[Vec<u64>],
    set: &[u64],
) -> Result<Vec<u64>, AllocError>
    requires enough { h.now.written ≤ length above.now }
    requires rows { All (λ row. IsRow h.now.written row.items) above.now }
    requires up { (t : ℕ) → t < h.now.written → IsUpRow h.now t (row_items above.now t) }
    requires set { IsRow h.now.written set.now }
    ensures row { IfOk result (λ v. IsRow h.now.written v.items) }
    ensures near { IfOk result (λ v. HasNear h.now set.now v.items) }
{
    let mut x = h.count();
    let mut near = bits::empty(alloc, x)?;
    while x > 0 {
        let word = (x - 1) / 64;
        if bits::is_word_subset(set, &near, word) {
            x = 64 * word;
        } else {
            x -= 1;
            if bits::has(set, x) && !bits::has(&near, x) {
                bits::extend(&mut near, &above[x as usize]);
            }
        }
    }
    Ok(near)
}

// Adds what the set at a place has in common with one written type.
fn meet_with(
    alloc: Global,
    h: &Hierarchy,
    family: &mut Family,
    at: usize,
    t: u32,
) -> Result<(), CompleteFault>
    requires laws { IsHierarchy h.now }
    requires growing { IsGrowing h.now family.old.sets.keys family.old.above.items }
    requires at_in { at < length family.old.sets.keys }
    requires t_in { t < h.now.written }
    ensures growing { OnOk result (IsGrowing h.now family.new.sets.keys family.new.above.items) }
    ensures more { OnOk result (StartsWith family.new.sets.keys family.old.sets.keys) }
    ensures met { OnOk result (IsMet h.now family.new.sets.keys at t) }
    ensures fault { IfErr result (IsCompleteFault h.now) }
{
    let set = family.sets.as_slice()[at].as_slice();
    if bits::are_disjoint(set, h.row(t)) {
        return Ok(());
    }
    let common = bits::common(alloc, set, h.row(t))?;
    if family.sets.contains(common.as_slice()) {
        return Ok(());
    }
    let more = bits::united(alloc, &family.above[at], &family.above[t as usize])?;
    family.add(common, more)
}

// Adds what the set at a place has in common with one written type, unless one of the same kind was met.
fn meet_kind(
    alloc: Global,
    h: &Hierarchy,
    family: &mut Family,
    kinds: &mut Kinds,
    at: usize,
    t: u32,
) -> Result<(), CompleteFault>
    requires laws { IsHierarchy h.now }
    requires growing { IsGrowing h.now family.old.sets.keys family.old.above.items }
    requires at_in { at < length family.old.sets.keys }
    requires t_in { t < h.now.written }
    requires kinds { AreKinds h.now family.old.sets.keys at kinds.old.shared.items kinds.old.places.items kinds.old.keys.keys }
    ensures growing { OnOk result (IsGrowing h.now family.new.sets.keys family.new.above.items) }
    ensures more { OnOk result (StartsWith family.new.sets.keys family.old.sets.keys) }
    ensures met { OnOk result (IsMet h.now family.new.sets.keys at t) }
    ensures more_kinds { OnOk result (AreKinds h.now family.new.sets.keys at kinds.new.shared.items kinds.new.places.items kinds.new.keys.keys) }
    ensures fault { IfErr result (IsCompleteFault h.now) }
{
    if !is_open(family, at, t) {
        return Ok(());
    }
    if !kinds.is_new(alloc, h.row(t))? {
        return Ok(());
    }
    meet_with(alloc, h, family, at, t)?;
    Ok(())
}

// Adds what the set at a place has in common with each written type. Only types that share a member with it which
// doesn't stand immediately below one type alone are looked at.
fn spread_near(
    alloc: Global,
    h: &Hierarchy,
    family: &mut Family,
    crossing: &[u64],
    at: usize,
) -> Result<(), CompleteFault>
    requires growing { IsGrowing h.now family.old.sets.keys family.old.above.items }
    requires crossing_row { IsRow h.now.written crossing.now }
    requires crossings { HasCrossings h.now crossing.now }
    requires at_in { at < length family.old.sets.keys }
    ensures growing { OnOk result (IsGrowing h.now family.new.sets.keys family.new.above.items) }
    ensures more { OnOk result (StartsWith family.new.sets.keys family.old.sets.keys) }
    ensures spread { OnOk result (IsSpread h.now family.new.sets.keys at) }
    ensures fault { IfErr result (IsCompleteFault h.now) }
{
    let shared = bits::common(alloc, &family.sets.as_slice()[at], crossing)?;
    let near = near(alloc, h, &family.above, &shared)?;
    let mut kinds = Kinds::of(alloc, shared)?;
    let count = h.count();
    let mut t = bits::next(&near, 0, count);
    while t < count {
        meet_kind(alloc, h, family, &mut kinds, at, t)?;
        t = bits::next(&near, t + 1, count);
    }
    Ok(())
}

// Whether the set at a place is seen to have no crossing member. Of a written type the row of what is over these says
// so.
fn is_apart(h: &Hierarchy, family: &Family, crossing: &[u64], over: &[u64], at: usize) -> bool
    requires growing { IsGrowing h.now family.now.sets.keys family.now.above.items }
    requires crossing_row { IsRow h.now.written crossing.now }
    requires crossings { HasCrossings h.now crossing.now }
    requires over_row { IsRow h.now.written over.now }
    requires over { HasNear h.now crossing.now over.now }
    requires at_in { at < length family.now.sets.keys }
    ensures { IsTrue result → IsSpread h.now family.now.sets.keys at }
{
    if at < h.count() as usize {
        return !bits::has(over, at as u32);
    }
    bits::are_disjoint(&family.sets.as_slice()[at], crossing)
}

/// Adds what the set at a place has in common with each written type.
///
/// Only types that are neither in the set nor known to be above all of it can give a set that isn't there, and these
/// share a crossing member with it, one that doesn't stand immediately below one type alone. Most sets have none.
/// `over` has the types at or above one.
pub fn spread(
    alloc: Global,
    h: &Hierarchy,
    family: &mut Family,
    crossing: &[u64],
    over: &[u64],
    at: usize,
) -> Result<(), CompleteFault>
    requires growing { IsGrowing h.now family.old.sets.keys family.old.above.items }
    requires crossing_row { IsRow h.now.written crossing.now }
    requires crossings { HasCrossings h.now crossing.now }
    requires over_row { IsRow h.now.written over.now }
    requires over { HasNear h.now crossing.now over.now }
    requires at_in { at < length family.old.sets.keys }
    ensures growing { OnOk result (IsGrowing h.now family.new.sets.keys family.new.above.items) }
    ensures more { OnOk result (StartsWith family.new.sets.keys family.old.sets.keys) }
    ensures spread { OnOk result (IsSpread h.now family.new.sets.keys at) }
    ensures fault { IfErr result (IsCompleteFault h.now) }
{
    if is_apart(h, family, crossing, over, at) {
        return Ok(());
    }
    spread_near(alloc, h, family, crossing, at)
}

// Whether a type is neither in the set at a place nor known to be above all of it.
fn is_open(family: &Family, at: usize, t: u32) -> bool
    requires at_in { at < length family.now.sets.keys }
    requires pairs { length family.now.above.items ≡ length family.now.sets.keys }
    requires in_set { t < 64 * length (row_items family.now.sets.keys at) }
    requires in_above { t < 64 * length (row_items family.now.above.items at) }
    ensures { result ≡ (not (has_bit (row_items family.now.sets.keys at) t) && not (has_bit (row_items family.now.above.items at) t)) }
{
    !bits::has(&family.sets.as_slice()[at], t) && !bits::has(&family.above[at], t)
}
