//! The report lines of an answer.

ghost use Rattle.std.specs.Prelude.{◌≡◌, ◌∷◌, ◌++◌, [], true, false, map, IfOk, OnOk};
ghost use Rattle.std.specs.Fmt.{decimal};
ghost use Rattle.std.specs.List.{flat_map};
ghost use Rattle.mrs_model.specs.Valid.{IsValid};
ghost use Rattle.mrs_model.specs.Views.{meaning_of};
ghost use Rattle.item_reports.specs.Reports.{item_line, no_mrs_line, refused_line};
ghost use Rattle.scope_model.specs.Answers.{plug_of, plugged_of, plug_text, reading_line};
ghost use Rattle.scope_commands.specs.Reports.{count, readings_lines};
ghost use Rattle.scope_commands.specs.Inner.{IsReportOn};

use endings::pieces::Report;
use item_reports::{NoMemory, lines_of_no_mrs, lines_of_refusal};
use itoa::Buffer;
use mrs_model::Mrs;
use scope_model::{Plugging, ScopeFault};
use scope_resolve::scopes;
use std::alloc::Global;

// `item N scopes K`
fn count_line(alloc: Global, number: u64, readings: usize) -> Result<Vec<u8>, NoMemory>
    ensures { IfOk result (λ line. line.items ≡ item_line number (count readings)) }
{
    let line = format!(in alloc; "item {number} scopes {readings}\n")?;
    Ok(line.into_bytes())
}

// A number in decimal digits.
fn put_number(number: u32, into: &mut Vec<u8>) -> Result<(), NoMemory>
    ensures { OnOk result (into.new.items ≡ into.old.items ++ decimal number) }
{
    let mut buffer = Buffer::new();
    into.extend_from_slice(buffer.format(number).as_bytes())?;
    Ok(())
}

// ` hB=hC`: a hole and the label that is plugged into it.
fn put_plug(plug: (u32, u32), into: &mut Vec<u8>) -> Result<(), NoMemory>
    ensures { OnOk result (into.new.items ≡ into.old.items ++ plug_text (plug_of plug)) }
{
    into.extend_from_slice(b" h")?;
    put_number(plug.0, into)?;
    into.extend_from_slice(b"=h")?;
    put_number(plug.1, into)
}

// Each hole and its label.
fn put_plugs(plugs: &[(u32, u32)], into: &mut Vec<u8>) -> Result<(), NoMemory>
    ensures { OnOk result (into.new.items ≡ into.old.items ++ flat_map plug_text (map plug_of plugs.now)) }
{
    for plug in plugs {
        put_plug(*plug, into)?;
    }
    Ok(())
}

// Two blanks, `top=hA`, and each hole with its label, in a vector that has room for so many bytes from the start.
fn reading_line(alloc: Global, reading: &Plugging, room: usize) -> Result<Vec<u8>, NoMemory>
    ensures { IfOk result (λ line. line.items ≡ reading_line (plugged_of reading.now)) }
{
    let mut line = Vec::with_capacity(alloc, room)?;
    line.extend_from_slice(b"  top=h")?;
    put_number(reading.top, &mut line)?;
    put_plugs(&reading.holes, &mut line)?;
    line.push(b'\n')?;
    Ok(line)
}

// The line of the number of readings, and a line for each.
fn lines_of_readings(
    alloc: Global,
    number: u64,
    readings: &[Plugging],
) -> Result<Vec<Vec<u8>>, NoMemory>
    ensures { IfOk result (λ lines. map (λ l. l.items) lines.items ≡ readings_lines number (map plugged_of readings.now)) }
{
    let mut lines = Vec::with_capacity(alloc, readings.len() + 1)?;
    lines.push(count_line(alloc, number, readings.len())?)?;
    // (the readings of an MRS have lines of much the same length)
    let mut room = 0;
    for reading in readings {
        let line = reading_line(alloc, reading, room)?;
        room = line.len();
        lines.push(line)?;
    }
    Ok(lines)
}

// What is written of an MRS that has these readings.
fn report_of_readings(alloc: Global, number: u64, readings: &[Plugging]) -> Result<Report, NoMemory>
    ensures lines { IfOk result (λ r. map (λ l. l.items) r.lines.items ≡ readings_lines number (map plugged_of readings.now)) }
    ensures refused { IfOk result (λ r. r.refused ≡ false) }
{
    Ok(Report {
        lines: lines_of_readings(alloc, number, readings)?,
        refused: false,
    })
}

// What is written of an MRS that is refused, by this name.
fn report_of_refusal(alloc: Global, number: u64, name: &str) -> Result<Report, NoMemory>
    ensures lines { IfOk result (λ r. map (λ l. l.items) r.lines.items ≡ refused_line number name.now ∷ []) }
    ensures refused { IfOk result (λ r. r.refused ≡ true) }
{
    Ok(Report {
        lines: lines_of_refusal(alloc, number, name)?,
        refused: true,
    })
}

/// What is written of an MRS, at most `max` readings of which are asked for.
pub(crate) fn report_of(alloc: Global, number: u64, mrs: &Mrs, max: u32) -> Result<Report, NoMemory>
    requires { IsValid (meaning_of mrs.now) }
    ensures { IfOk result (λ r. IsReportOn max number (meaning_of mrs.now) (map (λ l. l.items) r.lines.items) r.refused) }
{
    match scopes(alloc, mrs, max) {
        Ok(readings) => report_of_readings(alloc, number, &readings),
        Err(ScopeFault::Relation { .. }) => report_of_refusal(alloc, number, "relation"),
        Err(ScopeFault::ReadingLimit) => report_of_refusal(alloc, number, "readings"),
        Err(ScopeFault::NoMemory) => Err(NoMemory),
    }
}

/// What is written of a line that writes no MRS, whose first fault stands at this byte.
pub(crate) fn report_of_no_mrs(alloc: Global, number: u64, at: usize) -> Result<Report, NoMemory>
    ensures lines { IfOk result (λ r. map (λ l. l.items) r.lines.items ≡ no_mrs_line number at ∷ []) }
    ensures refused { IfOk result (λ r. r.refused ≡ true) }
{
    Ok(Report {
        lines: lines_of_no_mrs(alloc, number, at)?,
        refused: true,
    })
}
