//! Covers and how they join.

ghost use Rattle.std.specs.Prelude.{◌≤◌};

use crate::steps::{front, number};
use crate::told::push_number;
use chart_model::{Counts, Cover, NoMemory, Numbers, Span};
use std::alloc::Global;

// The span of two numbers.
pub fn span(text: &str) -> Span {
    let (from, to) = front(text, ' ');
    Span {
        from: number(from),
        to: number(to),
    }
}

// The join of two spans, and the size of the second one.
pub fn spans(alloc: Global, left: &str, right: &str, out: &mut String) -> Result<(), NoMemory> {
    let (left, right) = (span(left), span(right));
    match left.join(alloc, &right, &())? {
        Some(both) => {
            push_number(alloc, out, "", u64::from(both.from))?;
            push_number(alloc, out, " ", u64::from(both.to))?;
        }
        None => out.push_str("none")?,
    }
    push_number(alloc, out, ", ", u64::from(right.size()))
}

// Counts with a comma between each two, and after a blank that of empty words.
fn counts_of(alloc: Global, text: &str) -> Result<Counts, NoMemory> {
    let (counts, empty) = front(text, ' ');
    let mut of = Vec::new(alloc);
    for count in counts.split(',') {
        of.push(number(count))?;
    }
    Ok(Counts {
        of: Numbers::new(of),
        empty: number(empty),
    })
}

// Whether two counts join within a bound, and an equal cover to their join.
pub fn counts(
    alloc: Global,
    bound: &str,
    left: &str,
    right: &str,
    out: &mut String,
) -> Result<(), NoMemory> {
    let bound = counts_of(alloc, bound)?;
    let left = counts_of(alloc, left)?;
    let right = counts_of(alloc, right)?;
    joined(alloc, &bound, &left, &right, out)
}

fn joined(
    alloc: Global,
    bound: &Counts,
    left: &Counts,
    right: &Counts,
    out: &mut String,
) -> Result<(), NoMemory> {
    let joins = left.joins(right, bound);
    out.push_str(if joins { "true " } else { "false " })?;
    match left.join(alloc, right, bound)? {
        Some(both) => push_both(alloc, &both, out),
        None => Ok(out.push_str("none")?),
    }
}

// Adds counts, and whether an equal cover to them is equal.
fn push_both(alloc: Global, both: &Counts, out: &mut String) -> Result<(), NoMemory> {
    let equal = both.share(alloc)?;
    let of = equal.of.as_slice();
    let text = format!(in alloc; "{of:?} {} {}", equal.empty, equal == *both)?;
    out.push_str(text.as_str())?;
    Ok(())
}
