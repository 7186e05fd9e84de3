//! The report on a profile.
ghost use Rattle.std.specs.Prelude.{◌≡◌, ◌<◌, ◌^◌, ◌++◌, length, map, IfOk, OnOk};
ghost use Rattle.profile_reports.specs.ItemsViews.{item_kept};
ghost use Rattle.profile_reports.specs.Comparing.{verdict_of};
ghost use Rattle.profile_reports.specs.Lines.{item_lines, trees_lines, report_lines, is_refused};

use crate::lines::{has_trees, item_line, summary_line, trees_line};
use crate::verdicts::{count, lacks_memory, verdict_of};
use crate::{Counts, ItemResult, NoMemory, ProfileItem, Verdict};
use std::alloc::Global;

/// The report lines of a profile, each with its end, and whether an item differs or is bad.
#[derive(Drop)]
pub struct ProfileReport {
    pub lines: Vec<Vec<u8>>,
    pub refused: bool,
}

// The line on an item's trees, where trees are written for it and memory wasn't wanting.
fn put_trees(
    alloc: Global,
    item: &ProfileItem,
    found: &ItemResult,
    lines: &mut Vec<Vec<u8>>,
) -> Result<(), NoMemory>
    ensures { OnOk result (map (λ l. l.items) lines.new.items ≡ map (λ l. l.items) lines.old.items ++ trees_lines (item_kept item.now) found.now) }
{
    if !has_trees(item) || lacks_memory(found) {
        return Ok(());
    }
    lines.push(trees_line(alloc, found)?)?;
    Ok(())
}

// The lines of the item of this number, after those of the items before it. It tells the verdict.
fn put_item(
    alloc: Global,
    number: u64,
    item: &ProfileItem,
    found: &ItemResult,
    lines: &mut Vec<Vec<u8>>,
) -> Result<Verdict, NoMemory>
    ensures lines { OnOk result (map (λ l. l.items) lines.new.items ≡ map (λ l. l.items) lines.old.items ++ item_lines number (item_kept item.now) found.now) }
    ensures verdict { IfOk result (λ v. v ≡ verdict_of (item_kept item.now) found.now) }
{
    let verdict = verdict_of(item, found);
    lines.push(item_line(alloc, number, verdict, item, found)?)?;
    put_trees(alloc, item, found, lines)?;
    Ok(verdict)
}

/// The report on a profile, by what is found of each item: the lines of each, and the summary; and whether an item differs or is bad.
pub fn report_on(
    alloc: Global,
    items: &[ProfileItem],
    results: &[ItemResult],
) -> Result<ProfileReport, NoMemory>
    requires few { length items.now < 2 ^ 32 }
    requires each { length results.now ≡ length items.now }
    ensures lines { IfOk result (λ r. map (λ l. l.items) r.lines.items ≡ report_lines (map item_kept items.now) results.now) }
    ensures refused { IfOk result (λ r. r.refused ≡ is_refused (map item_kept items.now) results.now) }
{
    let mut lines = Vec::with_capacity(alloc, items.len() + 1)?;
    let mut counts = Counts {
        same: 0,
        differs: 0,
        new: 0,
        bad: 0,
    };
    for (i, item) in items.iter().enumerate() {
        let verdict = put_item(alloc, i as u64 + 1, item, &results[i], &mut lines)?;
        count(&mut counts, verdict);
    }
    lines.push(summary_line(alloc, items.len(), &counts)?)?;
    Ok(ProfileReport {
        lines,
        refused: counts.differs > 0 || counts.bad > 0,
    })
}
