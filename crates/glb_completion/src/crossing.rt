//! The types that don't stand immediately below one type alone.

ghost use Rattle.std.specs.Prelude.{◌≡◌, ℕ, ◌<◌, ◌≤◌, ◌*◌, true, length, IfOk, All};
ghost use Rattle.type_hierarchy.specs.Bits.{has_bit, IsRow};
ghost use Rattle.type_hierarchy.specs.Inner.Tables.{row_items};
ghost use Rattle.glb_completion.specs.Inner.Growing.{IsUpRow};
ghost use Rattle.glb_completion.specs.Inner.Crossings.{IsRowUnder, HasCrossings};

use std::alloc::{AllocError, Global};
use type_hierarchy::{Hierarchy, bits};

// The last member from `from` on that is below `end`, and `end` where there is none.
fn last_from(row: &[u64], from: u32, end: u32) -> u32
    requires rising { from ≤ end }
    requires within { end ≤ 64 * length row.now }
    ensures within { result ≤ end }
    ensures member { result < end → has_bit row.now result ≡ true }
{
    let mut last = end;
    let mut at = bits::next(row, from, end);
    while at < end {
        last = at;
        at = bits::next(row, at + 1, end);
    }
    last
}

// The last member before `x`, and `x` where there is none. Words are looked at from that of `x` down.
fn last_before(row: &[u64], x: u32) -> u32
    requires { x ≤ 64 * length row.now }
    ensures within { result ≤ x }
    ensures member { result < x → has_bit row.now result ≡ true }
{
    let mut end = x;
    while end > 0 {
        let word = (end - 1) / 64;
        if row[word as usize] != 0 {
            let last = last_from(row, 64 * word, end);
            if last < end {
                return last;
            }
        }
        end = 64 * word;
    }
    x
}

// Whether what is above a type is one earlier type and what is above that. Only the last earlier one is tried: where
// supertypes come first, no other one can be it.
fn is_under_one(alloc: Global, above: &[Vec<u64>], x: u32) -> Result<bool, AllocError>
    requires rows { (n : ℕ) × (x < n) × All (λ row. IsRow n row.items) above.now }
    requires x_in { x < length above.now }
    ensures { IfOk result (λ b. b ≡ true → (p : ℕ) × IsRowUnder above.now x p) }
{
    let row = above[x as usize].as_slice();
    let p = last_before(row, x);
    if p == x {
        return Ok(false);
    }
    let mut upper = Vec::from_slice(alloc, &above[p as usize])?;
    bits::mark(&mut upper, x, true);
    Ok(bits::is_subset(row, &upper))
}

/// The types that don't stand immediately below one earlier type alone.
///
/// Where an intersection and a type have a member in common, the type isn't in the intersection, and the intersection
/// isn't all below the type, they have such a member in common: from any other one the way up leads to it.
pub fn crossings(alloc: Global, h: &Hierarchy, above: &[Vec<u64>]) -> Result<Vec<u64>, AllocError>
    requires enough { h.now.written ≤ length above.now }
    requires rows { All (λ row. IsRow h.now.written row.items) above.now }
    requires up { (t : ℕ) → t < h.now.written → IsUpRow h.now t (row_items above.now t) }
    ensures row { IfOk result (λ v. IsRow h.now.written v.items) }
    ensures crossings { IfOk result (λ v. HasCrossings h.now v.items) }
{
    let count = h.count();
    let mut row = bits::empty(alloc, count)?;
    for x in 0..count {
        let is_under = is_under_one(alloc, above, x)?;
        bits::mark(&mut row, x, !is_under);
    }
    Ok(row)
}
