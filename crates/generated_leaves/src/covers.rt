//! Sums of counts.

ghost use Rattle.std.specs.Prelude.{◌≡◌, IfOk, map, []};
ghost use Rattle.chart_model.specs.Tuples.{on_list, covers_of};
ghost use Rattle.generate_model.specs.Covers.{counts_next};

use chart_model::{Counts, Cover, NoMemory, Part, Tuple};
use std::alloc::Global;

// Counts with those of a daughter, if there is one.
fn added<T>(
    alloc: Global,
    sum: Option<Counts>,
    part: &Option<Part<T, Counts>>,
    bound: &Counts,
) -> Result<Option<Counts>, NoMemory>
    ensures { IfOk result (λ o. o ≡ counts_next bound.now sum (map (λ p. p.cover) (on_list part.now []))) }
{
    let Some(part) = part else {
        return Ok(sum);
    };
    match sum {
        Some(sum) => sum.join(alloc, &part.cover, bound),
        None => Ok(None),
    }
}

/// Counts with those of all daughters; none where a sum passes the bound.
pub(crate) fn summed<T>(
    alloc: Global,
    own: Option<Counts>,
    parts: &Tuple<T, Counts>,
    bound: &Counts,
) -> Result<Option<Counts>, NoMemory>
    ensures { IfOk result (λ o. o ≡ counts_next bound.now own (covers_of parts.now)) }
{
    let sum = added(alloc, own, &parts.a, bound)?;
    let sum = added(alloc, sum, &parts.b, bound)?;
    let sum = added(alloc, sum, &parts.c, bound)?;
    added(alloc, sum, &parts.d, bound)
}
