//! What is told of lines: their answers, or that memory was wanting for them.
ghost use Rattle.std.specs.Prelude.{◌≡◌, ◌+◌, ◌<◌, ◌≤◌, ◌^◌, length, OnOk};
ghost use Rattle.std.specs.List.{concat};
ghost use Rattle.endings.specs.Reports.{no_memory_line};
ghost use Rattle.endings.specs.Inner.Batches.{IsToldPut, told_lines, lines_of_all, is_one_refused, is_one_wanting};

use crate::Stop;
use crate::lines::{Answer, NoMemory};
use crate::pieces::put_lines;
use itoa::Buffer;
use lkb_io::{Sink, put_all};

/// Whether an answer tells that something is refused.
pub(crate) fn is_one_refused(told: &[Option<Answer>]) -> bool
    ensures { result ≡ is_one_refused told.now }
{
    told.iter().any(|a| match a {
        Some(answer) => answer.report.refused,
        None => false,
    })
}

/// Whether an answer is lacking.
pub(crate) fn is_one_wanting(told: &[Option<Answer>]) -> bool
    ensures { result ≡ is_one_wanting told.now }
{
    told.iter().any(|a| a.is_none())
}

// `item N no-memory`, in place of what stood there.
fn write_note(note: &mut Vec<u8>, number: u64) -> Result<(), NoMemory>
    ensures { OnOk result (note.new.items ≡ no_memory_line number) }
{
    let mut digits = Buffer::new();
    note.clear();
    note.extend_from_slice(b"item ")?;
    note.extend_from_slice(digits.format(number).as_bytes())?;
    note.extend_from_slice(b" no-memory\n")?;
    Ok(())
}

// Tells that memory was wanting for the item of this number.
fn put_note<O: Sink>(out: &mut O, number: u64, note: &mut Vec<u8>) -> Result<(), Stop>
    ensures put { IsToldPut (no_memory_line number) (O.written out.old) (O.written out.new) (O.faults out.old) (O.faults out.new) result }
    ensures no_fall { O.faults out.old ≤ O.faults out.new }
{
    write_note(note, number)?;
    put_all(out, note)?;
    Ok(())
}

// Tells what came of the line of this number.
fn put_one<O: Sink>(
    out: &mut O,
    number: u64,
    told: &Option<Answer>,
    note: &mut Vec<u8>,
) -> Result<(), Stop>
    ensures put { IsToldPut (concat (told_lines number told.now)) (O.written out.old) (O.written out.new) (O.faults out.old) (O.faults out.new) result }
    ensures no_fall { O.faults out.old ≤ O.faults out.new }
{
    match told {
        Some(answer) => Ok(put_lines(out, &answer.report.lines)?),
        None => put_note(out, number, note),
    }
}

/// Tells what came of these lines, the first of this number, each report line as one piece. The note has what is written where memory was
/// wanting.
pub(crate) fn put_told<O: Sink>(
    out: &mut O,
    number: u64,
    told: &[Option<Answer>],
    note: &mut Vec<u8>,
) -> Result<(), Stop>
    requires room { number + length told.now ≤ 2 ^ 64 }
    ensures put { IsToldPut (concat (lines_of_all number told.now)) (O.written out.old) (O.written out.new) (O.faults out.old) (O.faults out.new) result }
    ensures no_fall { O.faults out.old ≤ O.faults out.new }
{
    for place in 0..told.len() {
        put_one(out, number + place as u64, &told[place], note)?;
    }
    Ok(())
}
