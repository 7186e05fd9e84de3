//! The completion.

ghost use Rattle.std.specs.Prelude.{◌≡◌, ℕ, ◌<◌, ◌≤◌, ◌+◌, ◌^◌, ◌++◌, length, drop, IfOk, IfErr, All};
ghost use Rattle.std.specs.List.Sorted.{IsSorted, IsPermutation};
ghost use Rattle.std.specs.Ordering.{nat_cmp};
ghost use Rattle.std.specs.Cmp.Lexicographic.{slice_cmp};
ghost use Rattle.type_hierarchy.specs.Bits.{IsRow};
ghost use Rattle.type_hierarchy.specs.Decls.{texts};
ghost use Rattle.type_hierarchy.specs.Inner.Reach.{lists};
ghost use Rattle.type_hierarchy.specs.Inner.Tables.{sets_of};
ghost use Rattle.type_hierarchy.specs.Table.{IsFamily};
ghost use Rattle.glb_completion.specs.Completion.{IsCompletionOf, IsCompleteFault};
ghost use Rattle.glb_completion.specs.Inner.Growing.{IsGrowing};

use crate::complete_fault::CompleteFault;
use crate::crossing::crossings;
use crate::family::Family;
use crate::spread::{near, spread};
use std::alloc::{AllocError, Global};
use type_hierarchy::{Hierarchy, Types, bits};

// All nonempty intersections.
fn closed(alloc: Global, h: &Hierarchy) -> Result<Family, CompleteFault>
    ensures growing { IfOk result (λ f. IsGrowing h.now f.sets.keys f.above.items) }
    ensures family { IfOk result (λ f. IsFamily h.now (sets_of h.now.written f.sets.keys)) }
    ensures fault { IfErr result (IsCompleteFault h.now) }
{
    let mut family = Family::written(alloc, h)?;
    let crossing = crossings(alloc, h, &family.above)?;
    let over = near(alloc, h, &family.above, &crossing)?;
    let mut at = 0;
    while at < family.sets.len() {
        spread(alloc, h, &mut family, &crossing, &over, at)?;
        at += 1;
    }
    Ok(family)
}

// The members of each of the rows.
fn member_lists(alloc: Global, count: u32, rows: &[Vec<u64>]) -> Result<Vec<Vec<u32>>, AllocError>
    requires { All (λ row. IsRow count row.items) rows.now }
    ensures { IfOk result (λ v. lists v.items ≡ sets_of count rows.now) }
{
    let mut members = Vec::new(alloc);
    for row in rows {
        members.push(bits::members(alloc, row, count)?)?;
    }
    Ok(members)
}

/// Completes a hierarchy. Each written type stands for the set of written types at or below it, and the completed
/// types are all nonempty intersections of such sets. Added types are numbered in the lexicographic order of their
/// members and named `glbtype1`, `glbtype2` and so on; `strings` follow them.
pub fn complete(alloc: Global, h: Hierarchy, strings: &[String]) -> Result<Types, CompleteFault>
    ensures completion { IfOk result (IsCompletionOf h (texts strings.now)) }
    ensures fault { IfErr result (IsCompleteFault h) }
{
    let family = closed(alloc, &h)?;
    let count = h.count();
    let mut added = member_lists(alloc, count, &family.sets.as_slice()[count as usize..])?;
    // The answer takes as much room as the family does, so this goes first.
    drop(family);
    added.sort()?;
    Ok(Types::of_sets(alloc, h, added, strings)?)
}
