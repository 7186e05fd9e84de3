//! What an MRS asks for.

ghost use Rattle.std.specs.Prelude.{◌≡◌, ◌<◌, ◌^◌, true, map, IfOk};
ghost use Rattle.chart_model.specs.Sums.{counts_size};
ghost use Rattle.generate_model.specs.Bags.{bag_of, bound_of, preds_of};
ghost use Rattle.mrs_model.specs.Views.{meaning_of};

use crate::NoMemory;
use chart_model::Counts;
use generate_model::{Bag, predicates_of};
use mrs_model::Mrs;
use std::alloc::Global;

// Whether the size of the bound is a number of 32 bits.
fn is_small(bound: &Counts) -> bool
    ensures { result ≡ true → counts_size bound.now < 2 ^ 32 }
{
    let counts = bound.of.as_slice();
    let mut left = u32::MAX - bound.empty;
    for count in counts {
        if *count > left {
            return false;
        }
        left -= *count;
    }
    true
}

/// The predicates that an MRS asks for, as a bag.
pub(crate) fn bag_of(alloc: Global, mrs: &Mrs) -> Result<Bag, NoMemory>
    ensures { IfOk result (λ b. b ≡ bag_of (preds_of (meaning_of mrs.now))) }
{
    let preds = predicates_of(alloc, mrs)?;
    if preds.len() > u32::MAX as usize {
        return Err(NoMemory);
    }
    let bag = Bag::make(alloc, &preds)?;
    Ok(bag)
}

/// The bound of covers: the bag with so many empty words. More than a `u32` can number together count as want of memory.
pub(crate) fn bound_of(alloc: Global, _mrs: &Mrs, bag: &Bag, empty: u32) -> Result<Counts, NoMemory>
    requires { bag.now ≡ bag_of (preds_of (meaning_of _mrs.now)) }
    ensures bound { IfOk result (λ c. c ≡ bound_of (preds_of (meaning_of _mrs.now)) empty) }
    ensures small { IfOk result (λ c. counts_size c < 2 ^ 32) }
{
    let bound = bag.bound(alloc, empty)?;
    if !is_small(&bound) {
        return Err(NoMemory);
    }
    Ok(bound)
}
