//! Variables that stand nowhere are dropped.

ghost use Rattle.std.specs.Prelude.{◌≡◌, ◌<◌, ℕ, Some, List, length, map, take, slice_index, IfOk};
ghost use Rattle.std.specs.List.{AllZip, slice_get};
ghost use Rattle.mrs_model.specs.Views.{variable_of, meaning_of};
ghost use Rattle.transfer_model.specs.Applying.{IsTrimmed, IsShaped};
ghost use Rattle.mrs_transfer.specs.Inner.Trimming.{kept_by};

use crate::NoMemory;
use crate::marking::standing;
use crate::numbers::number_of;
use crate::renumbering::renumber;
use mrs_model::{Mrs, Var};
use std::alloc::Global;

// The number of each variable among those that are marked.
fn numbers_left(alloc: Global, marks: &[bool]) -> Result<Vec<u32>, NoMemory>
    ensures size { IfOk result (λ to. length to.items ≡ length marks.now) }
    ensures numbers { IfOk result (λ to. (v : ℕ) → v < length marks.now → slice_index to.items v ≡ length (kept_by (take v marks.now))) }
{
    let mut to = Vec::with_capacity(alloc, marks.len())?;
    let mut next = 0_usize;
    for mark in marks {
        to.push(number_of(next)?)?;
        if *mark {
            next += 1;
        }
    }
    Ok(to)
}

// The variables that are marked, in their order.
fn vars_left(alloc: Global, vars: Vec<Var>, marks: &[bool]) -> Result<Vec<Var>, NoMemory>
    requires { length vars.items ≡ length marks.now }
    ensures { IfOk result (λ left. AllZip (λ v x. slice_get (map variable_of vars.items) v ≡ Some x) (kept_by marks.now) (map variable_of left.items)) }
{
    let mut rest = vars;
    let mut backwards = Vec::with_capacity(alloc, rest.len())?;
    while let Some(var) = rest.pop() {
        if marks[rest.len()] {
            backwards.push(var)?;
        }
    }
    backwards.reverse();
    Ok(backwards)
}

/// Drops the variables that stand nowhere; those that are left keep their order without gaps.
pub(crate) fn trim(alloc: Global, mrs: Mrs) -> Result<Mrs, NoMemory>
    requires { IsShaped (meaning_of mrs) }
    ensures { IfOk result (λ next. (kept : List ℕ) × IsTrimmed (meaning_of mrs) (meaning_of next) kept) }
{
    let marks = standing(alloc, &mrs)?;
    if !marks.contains(&false) {
        return Ok(mrs);
    }
    let to = numbers_left(alloc, &marks)?;
    let mut mrs = mrs;
    renumber(&mut mrs, &to);
    let vars = vars_left(alloc, mrs.vars, &marks)?;
    Ok(Mrs {
        top: mrs.top,
        index: mrs.index,
        vars,
        eps: mrs.eps,
        hcons: mrs.hcons,
        icons: mrs.icons,
    })
}
