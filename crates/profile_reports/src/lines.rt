//! The report lines of a profile.
ghost use Rattle.std.specs.Prelude.{◌≡◌, ◌++◌, ◌∷◌, [], IfOk, OnOk};
ghost use Rattle.std.specs.Fmt.{decimal};
ghost use Rattle.profile_reports.specs.ItemsViews.{item_kept};
ghost use Rattle.profile_reports.specs.Comparing.{verdict_on, verdict_of};
ghost use Rattle.profile_reports.specs.Lines.{got_text, expected_text, compared_text, told_of, told, item_line, trees_line, has_trees, summary_line};

use crate::verdicts::lacks_memory;
use crate::{Counts, Expected, Got, ItemResult, NoMemory, ProfileItem, Verdict};
use itoa::Buffer;
use std::alloc::Global;

// These bytes.
fn put(text: &[u8], into: &mut Vec<u8>) -> Result<(), NoMemory>
    ensures { OnOk result (into.new.items ≡ into.old.items ++ text.now) }
{
    into.extend_from_slice(text)?;
    Ok(())
}

// A number in decimal digits.
fn put_number(number: u64, into: &mut Vec<u8>) -> Result<(), NoMemory>
    ensures { OnOk result (into.new.items ≡ into.old.items ++ decimal number) }
{
    let mut buffer = Buffer::new();
    put(buffer.format(number).as_bytes(), into)
}

// A text and a number.
fn put_count(name: &[u8], number: u64, into: &mut Vec<u8>) -> Result<(), NoMemory>
    ensures { OnOk result (into.new.items ≡ into.old.items ++ name.now ++ decimal number) }
{
    put(name, into)?;
    put_number(number, into)
}

// What came.
fn put_got(got: Got, into: &mut Vec<u8>) -> Result<(), NoMemory>
    ensures { OnOk result (into.new.items ≡ into.old.items ++ got_text got) }
{
    match got {
        Got::Readings { count } => put_number(count as u64, into),
        Got::LexicalDepth => put(b"lexical-depth", into),
        Got::UnaryChain => put(b"unary-chain", into),
        Got::Edges => put(b"edges", into),
        Got::TooManyReadings => put(b"readings", into),
        Got::NoMemory => put(b"no-memory", into),
        Got::Bad => put(b"bad", into),
    }
}

// What is expected.
fn put_expected(expected: Expected, into: &mut Vec<u8>) -> Result<(), NoMemory>
    ensures { OnOk result (into.new.items ≡ into.old.items ++ expected_text expected) }
{
    match expected {
        Expected::Readings { count } => put_number(count as u64, into),
        Expected::LexicalDepth => put(b"lexical-depth", into),
        Expected::UnaryChain => put(b"unary-chain", into),
        Expected::Edges => put(b"edges", into),
        Expected::TooManyReadings => put(b"readings", into),
        Expected::Unknown => put(b"?", into),
    }
}

// `differs EXPECTED GOT`
fn put_difference(expected: Expected, got: Got, into: &mut Vec<u8>) -> Result<(), NoMemory>
    ensures { OnOk result (into.new.items ≡ into.old.items ++ compared_text Verdict.Differs expected got) }
{
    put(b"differs ", into)?;
    put_expected(expected, into)?;
    into.push(b' ')?;
    put_got(got, into)
}

// What came, by the verdict, after what is expected where it differs.
fn put_compared(
    verdict: Verdict,
    expected: Expected,
    got: Got,
    into: &mut Vec<u8>,
) -> Result<(), NoMemory>
    ensures { OnOk result (into.new.items ≡ into.old.items ++ compared_text verdict expected got) }
{
    match verdict {
        Verdict::New => {
            put(b"new ", into)?;
            put_got(got, into)
        }
        Verdict::Same => {
            put(b"same ", into)?;
            put_got(got, into)
        }
        Verdict::Differs => put_difference(expected, got, into),
        Verdict::Bad => put_difference(expected, got, into),
    }
}

// What is told of an item of good form, by its verdict.
fn put_told_of(
    verdict: Verdict,
    expected: Expected,
    found: &ItemResult,
    into: &mut Vec<u8>,
) -> Result<(), NoMemory>
    requires { verdict ≡ verdict_on expected found.now }
    ensures { OnOk result (into.new.items ≡ into.old.items ++ told_of expected found.now) }
{
    if lacks_memory(found) {
        return put(b"no-memory", into);
    }
    put_compared(verdict, expected, found.got, into)
}

// What is told of an item, by its verdict.
fn put_told(
    verdict: Verdict,
    item: &ProfileItem,
    found: &ItemResult,
    into: &mut Vec<u8>,
) -> Result<(), NoMemory>
    requires { verdict ≡ verdict_of (item_kept item.now) found.now }
    ensures { OnOk result (into.new.items ≡ into.old.items ++ told (item_kept item.now) found.now) }
{
    match item {
        ProfileItem::TooLong => put(b"too-long", into),
        ProfileItem::NotUtf8 => put(b"not-utf8", into),
        ProfileItem::NoItem => put(b"no-item", into),
        ProfileItem::Item { expected, .. } => put_told_of(verdict, *expected, found, into),
    }
}

/// `item N TEXT`
pub(crate) fn item_line(
    alloc: Global,
    number: u64,
    verdict: Verdict,
    item: &ProfileItem,
    found: &ItemResult,
) -> Result<Vec<u8>, NoMemory>
    requires { verdict ≡ verdict_of (item_kept item.now) found.now }
    ensures { IfOk result (λ line. line.items ≡ item_line number (told (item_kept item.now) found.now)) }
{
    let mut line = Vec::with_capacity(alloc, 32)?;
    put_count(b"item ", number, &mut line)?;
    line.push(b' ')?;
    put_told(verdict, item, found, &mut line)?;
    line.push(b'\n')?;
    Ok(line)
}

/// Two blanks and `trees kept A lost B gained C`
pub(crate) fn trees_line(alloc: Global, found: &ItemResult) -> Result<Vec<u8>, NoMemory>
    ensures { IfOk result (λ line. line.items ≡ trees_line found.now) }
{
    let mut line = Vec::with_capacity(alloc, 48)?;
    put_count(b"  trees kept ", found.kept as u64, &mut line)?;
    put_count(b" lost ", found.lost as u64, &mut line)?;
    put_count(b" gained ", found.gained as u64, &mut line)?;
    line.push(b'\n')?;
    Ok(line)
}

/// Whether trees are written for an item that isn't bad.
pub(crate) fn has_trees(item: &ProfileItem) -> bool
    ensures { result ≡ has_trees (item_kept item.now) }
{
    match item {
        ProfileItem::Item { trees, .. } => !trees.is_empty(),
        _ => false,
    }
}

/// `batch items I same A differs B new C bad D`
pub(crate) fn summary_line(
    alloc: Global,
    items: usize,
    counts: &Counts,
) -> Result<Vec<u8>, NoMemory>
    ensures { IfOk result (λ line. line.items ≡ summary_line items counts.now) }
{
    let mut line = Vec::with_capacity(alloc, 64)?;
    put_count(b"batch items ", items as u64, &mut line)?;
    put_count(b" same ", counts.same as u64, &mut line)?;
    put_count(b" differs ", counts.differs as u64, &mut line)?;
    put_count(b" new ", counts.new as u64, &mut line)?;
    put_count(b" bad ", counts.bad as u64, &mut line)?;
    line.push(b'\n')?;
    Ok(line)
}
