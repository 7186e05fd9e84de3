//! Verdicts on items.
ghost use Rattle.std.specs.Prelude.{◌≡◌, ◌+◌, ◌-◌, ◌<◌, ◌^◌};
ghost use Rattle.profile_reports.specs.ItemsViews.{item_kept};
ghost use Rattle.profile_reports.specs.Comparing.{is_expected, compared, lacks_memory, is_some_lacking, verdict_on, verdict_of};
ghost use Rattle.profile_reports.specs.Lines.{counted};

use crate::{Counts, Expected, Got, ItemResult, ProfileItem, Verdict};

// Whether what came is what is expected.
fn is_expected(expected: Expected, got: Got) -> bool
    ensures { result ≡ is_expected expected got }
{
    match (expected, got) {
        (Expected::Readings { count: wanted }, Got::Readings { count }) => wanted == count,
        (Expected::LexicalDepth, Got::LexicalDepth) => true,
        (Expected::UnaryChain, Got::UnaryChain) => true,
        (Expected::Edges, Got::Edges) => true,
        (Expected::TooManyReadings, Got::TooManyReadings) => true,
        _ => false,
    }
}

// The verdict where this is expected.
fn compared(expected: Expected, found: &ItemResult) -> Verdict
    ensures { result ≡ compared expected found.now }
{
    if expected == Expected::Unknown {
        return Verdict::New;
    }
    if is_expected(expected, found.got) && found.lost == 0 && found.gained == 0 {
        return Verdict::Same;
    }
    Verdict::Differs
}

// Whether memory was wanting for the item.
pub(crate) fn lacks_memory(found: &ItemResult) -> bool
    ensures { result ≡ lacks_memory found.now }
{
    matches!(found.got, Got::NoMemory)
}

/// Whether memory was wanting for one of several items.
pub fn some_lacking(results: &[ItemResult]) -> bool
    ensures { result ≡ is_some_lacking results.now }
{
    results.iter().any(|r| lacks_memory(r))
}

// The verdict on an item of good form.
fn verdict_on(expected: Expected, found: &ItemResult) -> Verdict
    ensures { result ≡ verdict_on expected found.now }
{
    if lacks_memory(found) {
        return Verdict::Bad;
    }
    compared(expected, found)
}

/// The verdict on an item, by what is found of it.
pub fn verdict_of(item: &ProfileItem, found: &ItemResult) -> Verdict
    ensures { result ≡ verdict_of (item_kept item.now) found.now }
{
    match item {
        ProfileItem::Item { expected, .. } => verdict_on(*expected, found),
        ProfileItem::TooLong => Verdict::Bad,
        ProfileItem::NotUtf8 => Verdict::Bad,
        ProfileItem::NoItem => Verdict::Bad,
    }
}

/// One item more has this verdict.
pub(crate) fn count(counts: &mut Counts, verdict: Verdict)
    requires { counts.now.same + counts.now.differs + counts.now.new + counts.now.bad < 2 ^ 32 - 1 }
    ensures { counts.exit.now ≡ counted verdict counts.entry.now }
{
    match verdict {
        Verdict::Same => counts.same += 1,
        Verdict::Differs => counts.differs += 1,
        Verdict::New => counts.new += 1,
        Verdict::Bad => counts.bad += 1,
    }
}
