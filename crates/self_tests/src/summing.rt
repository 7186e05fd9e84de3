//! What is counted of the items of a workload, summed up.

ghost use Rattle.std.specs.Prelude.{◌≡◌, ◌<◌, ◌^◌, ◌∷◌, ◌++◌, [], length, map, IfOk, OnOk};
ghost use Rattle.self_tests.specs.Summaries.{summary_line};
ghost use Rattle.endings.specs.Reports.{no_memory_line};
ghost use Rattle.self_tests.specs.SelfTests.{gap_line, gap_lines};
ghost use Rattle.self_tests.specs.Inner.Counts.{IsToldOf};

use crate::{Count, NoMemory, some_lacking, some_refused, summary};
use endings::commands::ItemsReport;
use endings::pieces::Report;
use std::alloc::Global;

// `item N no-memory`
fn no_memory_line(alloc: Global, number: u64) -> Result<Vec<u8>, NoMemory>
    ensures { IfOk result (λ line. line.items ≡ no_memory_line number) }
{
    let text = format!(in alloc; "item {number} no-memory\n")?;
    Ok(text.into_bytes())
}

// The line of the item of this number, where memory was wanting for it.
fn put_gap(
    alloc: Global,
    number: u64,
    count: Count,
    lines: &mut Vec<Vec<u8>>,
) -> Result<(), NoMemory>
    ensures { OnOk result (map (λ l. l.items) lines.new.items ≡ map (λ l. l.items) lines.old.items ++ gap_line number count) }
{
    if count == Count::NoMemory {
        lines.push(no_memory_line(alloc, number)?)?;
    }
    Ok(())
}

// The lines of the items for which memory was wanting.
fn put_gaps(alloc: Global, counts: &[Count], lines: &mut Vec<Vec<u8>>) -> Result<(), NoMemory>
    requires { length counts.now < 2 ^ 32 }
    ensures { OnOk result (map (λ l. l.items) lines.new.items ≡ map (λ l. l.items) lines.old.items ++ gap_lines 1 counts.now) }
{
    for (i, count) in counts.iter().enumerate() {
        put_gap(alloc, i as u64 + 1, *count, lines)?;
    }
    Ok(())
}

// The report lines: those of the items for which memory was wanting, and the summary.
fn lines_on(
    alloc: Global,
    number: u64,
    size: u32,
    counts: &[Count],
) -> Result<Vec<Vec<u8>>, NoMemory>
    requires { length counts.now ≡ size }
    ensures { IfOk result (λ lines. map (λ l. l.items) lines.items ≡ gap_lines 1 counts.now ++ summary_line number size counts.now ∷ []) }
{
    let mut lines = Vec::with_capacity(alloc, 1)?;
    put_gaps(alloc, counts, &mut lines)?;
    let Ok(line) = summary(alloc, number, size, counts) else {
        return Err(NoMemory);
    };
    lines.push(line)?;
    Ok(lines)
}

/// The report on what is counted of a workload: a count for each line.
pub(crate) fn report_on(
    alloc: Global,
    number: u64,
    size: u32,
    counts: &[Count],
) -> Result<ItemsReport, NoMemory>
    requires { length counts.now ≡ size }
    ensures { IfOk result (IsToldOf number size counts.now) }
{
    let lines = lines_on(alloc, number, size, counts)?;
    if some_lacking(counts) {
        return Ok(ItemsReport::WithGaps(lines));
    }
    Ok(ItemsReport::AllAnswered(Report {
        lines,
        refused: some_refused(counts),
    }))
}
