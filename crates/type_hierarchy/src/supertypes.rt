//! What stands immediately above a type.

ghost use Rattle.std.specs.Prelude.{◌≡◌, ◌<◌, ◌++◌, ◌∷◌, [], IfOk, All, true, false, filter, not};
ghost use Rattle.std.specs.List.{list_any};
ghost use Rattle.type_hierarchy.specs.Table.{count_of, completed_count, is_below};
ghost use Rattle.type_hierarchy.specs.Bits.{has_bit, IsRow};
ghost use Rattle.type_hierarchy.specs.Inner.Nearest.{HasNearest, IsTaken};
ghost use Rattle.type_hierarchy.specs.Supertypes.{supertypes_of, numbers_of};

use crate::bits;
use crate::types::{NoMemory, Ty, Types};
use std::alloc::{AllocError, Global};

impl Types {
    /// The immediate supertypes of a type among the completed types, in rising order: those above it with no third
    /// one strictly between. A string stands immediately below the string type alone.
    pub fn supertypes(&self, alloc: Global, t: Ty) -> Result<Vec<Ty>, NoMemory>
        requires { t.0 < count_of self.now }
        ensures { IfOk result (λ v. numbers_of v.items ≡ supertypes_of self.now t.0) }
    {
        let lowest = lowest_above(alloc, self, t.0)?;
        Ok(types_of(alloc, &lowest)?)
    }
}

// The types of these numbers.
fn types_of(alloc: Global, numbers: &[u32]) -> Result<Vec<Ty>, AllocError>
    ensures { IfOk result (λ v. numbers_of v.items ≡ numbers.now) }
{
    let mut types = Vec::new(alloc);
    for number in numbers {
        types.push(Ty(*number))?;
    }
    Ok(types)
}

// Types above one, such that each type above it is at or above one of them. The last ones are taken first, and what is
// above one of them is passed over: where supertypes are written first, few others are taken.
fn nearest_above(alloc: Global, types: &Types, t: u32) -> Result<Vec<u64>, AllocError>
    requires { t < count_of types.now }
    ensures row { IfOk result (λ v. IsRow (completed_count types.now) v.items) }
    ensures covered { IfOk result (λ v. HasNearest types.now t v.items) }
{
    types.laws();
    let candidates = types.may_be_above(t);
    let mut x = types.counts().completed;
    let mut nearest = bits::empty(alloc, x)?;
    let mut passed = bits::empty(alloc, x)?;
    while x > 0 {
        let word = (x - 1) / 64;
        if bits::is_word_subset(candidates, &passed, word) {
            x = 64 * word;
        } else {
            x -= 1;
            take_nearest(types, candidates, &mut nearest, &mut passed, t, x);
        }
    }
    Ok(nearest)
}

// Takes a type that is above another one and wasn't passed over, and passes over what is above it.
fn take_nearest(
    types: &Types,
    candidates: &[u64],
    nearest: &mut Vec<u64>,
    passed: &mut Vec<u64>,
    t: u32,
    x: u32,
)
    requires t_in { t < count_of types.now }
    requires x_in { x < completed_count types.now }
    requires x_number { x < count_of types.now }
    requires candidates_row { IsRow (completed_count types.now) candidates.now }
    requires candidates { is_below types.now t x ≡ true → has_bit candidates.now x ≡ true }
    requires nearest_row { IsRow (completed_count types.now) nearest.old.items }
    requires passed_row { IsRow (completed_count types.now) passed.old.items }
    ensures nearest_row { IsRow (completed_count types.now) nearest.new.items }
    ensures passed_row { IsRow (completed_count types.now) passed.new.items }
    ensures taken { IsTaken types.now t x nearest.old.items nearest.new.items passed.old.items passed.new.items }
{
    if !bits::has(candidates, x) || bits::has(passed, x) {
        return;
    }
    if x != t && types.at_or_below(Ty(t), Ty(x)) {
        bits::mark(nearest, x, true);
        types.pass_above(passed, x);
    }
}

// Of the types above one, those that no other one is below.
fn lowest_above(alloc: Global, types: &Types, t: u32) -> Result<Vec<u32>, AllocError>
    requires { t < count_of types.now }
    ensures { IfOk result (λ v. v.items ≡ supertypes_of types.now t) }
{
    types.laws();
    let completed = types.counts().completed;
    let nearest = nearest_above(alloc, types, t)?;
    let mut lowest = Vec::new(alloc);
    let mut above = bits::next(&nearest, 0, completed);
    while above < completed {
        if above != t && types.at_or_below(Ty(t), Ty(above)) {
            lowest = with_type(alloc, types, lowest, above)?;
        }
        above = bits::next(&nearest, above + 1, completed);
    }
    Ok(lowest)
}

// Adds a type in the place of those that it is below, unless one of them is below it.
fn with_type(alloc: Global, types: &Types, lowest: Vec<u32>, t: u32) -> Result<Vec<u32>, AllocError>
    requires t_in { t < count_of types.now }
    requires all_in { All (λ u. u < count_of types.now) lowest.items }
    ensures kept { IfOk result (λ v. list_any (λ u. is_below types.now u t) lowest.items ≡ true → v.items ≡ lowest.items) }
    ensures changed { IfOk result (λ v. list_any (λ u. is_below types.now u t) lowest.items ≡ false → v.items ≡ filter (λ u. not (is_below types.now t u)) lowest.items ++ t ∷ []) }
{
    if has_below(types, &lowest, t) {
        return Ok(lowest);
    }
    let mut lower = not_above(alloc, types, &lowest, t)?;
    lower.push(t)?;
    Ok(lower)
}

// Whether one of the types is at or below a type.
fn has_below(types: &Types, lowest: &[u32], t: u32) -> bool
    requires t_in { t < count_of types.now }
    requires all_in { All (λ u. u < count_of types.now) lowest.now }
    ensures { result ≡ list_any (λ u. is_below types.now u t) lowest.now }
{
    for lower in lowest {
        if types.at_or_below(Ty(*lower), Ty(t)) {
            return true;
        }
    }
    false
}

// Those of the types that a type isn't at or below.
fn not_above(alloc: Global, types: &Types, lowest: &[u32], t: u32) -> Result<Vec<u32>, AllocError>
    requires t_in { t < count_of types.now }
    requires all_in { All (λ u. u < count_of types.now) lowest.now }
    ensures { IfOk result (λ v. v.items ≡ filter (λ u. not (is_below types.now t u)) lowest.now) }
{
    let mut lower = Vec::new(alloc);
    for above in lowest {
        if !types.at_or_below(Ty(t), Ty(*above)) {
            lower.push(*above)?;
        }
    }
    Ok(lower)
}
