//! What is counted of items that were parsed, and the line that sums it up.

ghost use Rattle.std.specs.Prelude.{◌≡◌, ◌<◌, ◌^◌, ◌++◌, ◌∷◌, [], length, IfOk};
ghost use Rattle.self_tests.specs.Summaries.{items_text, sums_text, summary_line, is_some_refused, is_some_lacking};

use crate::NoMemory;
use crate::sums::sums_of;
use std::alloc::Global;

/// What is counted of an item.
#[derive(Clone, Copy, Debug, PartialEq, Eq)]
pub enum Count {
    /// It broke a limit.
    Refused,
    /// Memory was wanting for it.
    NoMemory,
    /// It has so many packed classes and readings.
    Found { classes: u32, readings: u32 },
}

// `self-test NUMBER SIZE items I`.
fn items_text(alloc: Global, number: u64, size: u32, items: usize) -> Result<Vec<u8>, NoMemory>
    ensures { IfOk result (λ text. text.items ≡ items_text number size items) }
{
    let text = format!(in alloc; "self-test {number} {size} items {items}")?;
    Ok(text.into_bytes())
}

// ` refused F classes C readings K`.
fn sums_text(alloc: Global, refused: u64, classes: u64, readings: u64) -> Result<Vec<u8>, NoMemory>
    ensures { IfOk result (λ text. text.items ≡ sums_text refused classes readings) }
{
    let text = format!(in alloc; " refused {refused} classes {classes} readings {readings}")?;
    Ok(text.into_bytes())
}

// Two texts as one line.
fn joined(mut line: Vec<u8>, more: &[u8]) -> Result<Vec<u8>, NoMemory>
    ensures { IfOk result (λ l. l.items ≡ (line.items ++ more.now) ++ 10 ∷ []) }
{
    line.extend_from_slice(more)?;
    line.push(b'\n')?;
    Ok(line)
}

/// `self-test NUMBER SIZE items I refused F classes C readings K` and a line end: how many items there are, how many of them
/// are refused, and the sums of the classes and the readings of the others. An item for which memory was wanting counts as refused.
pub fn summary(alloc: Global, number: u64, size: u32, counts: &[Count]) -> Result<Vec<u8>, NoMemory>
    requires { length counts.now < 2 ^ 32 }
    ensures { IfOk result (λ line. line.items ≡ summary_line number size counts.now) }
{
    let sums = sums_of(counts);
    let first = items_text(alloc, number, size, counts.len())?;
    let more = sums_text(alloc, sums.refused, sums.classes, sums.readings)?;
    joined(first, &more)
}

/// Whether one of these items is refused, or memory was wanting for one.
pub fn some_refused(counts: &[Count]) -> bool
    ensures { result ≡ is_some_refused counts.now }
{
    counts.iter().any(|c| !matches!(c, Count::Found { .. }))
}

/// Whether memory was wanting for one of these items.
pub fn some_lacking(counts: &[Count]) -> bool
    ensures { result ≡ is_some_lacking counts.now }
{
    counts.contains(&Count::NoMemory)
}
