//! Report lines into a sink, each as one piece.
ghost use Rattle.std.specs.Prelude.{◌≡◌, ◌≤◌, [], ◌∷◌, map, Err, OnOk, true, false};
ghost use Rattle.std.specs.List.{concat};
ghost use Rattle.lkb_io.specs.Outside.{Adds};
ghost use Rattle.endings.specs.Reports.{IsPut, IsFlushed, Said, Exactly, NoReport, output};

use crate::Stop;
use lkb_io::{Failed, Sink, put_all};

/// The report lines of a line or of a command, each with its end, and whether something is refused.
#[derive(Drop)]
pub struct Report {
    pub lines: Vec<Vec<u8>>,
    pub refused: bool,
}

/// Writes these lines, each as one piece.
pub fn put_lines<O: Sink>(out: &mut O, lines: &[Vec<u8>]) -> Result<(), Failed>
    ensures { IsPut (concat (map (λ l. l.items) lines.now)) (output O.written O.flushed O.faults out.old out.new) result }
{
    for line in lines {
        put_all(out, line)?;
    }
    Ok(())
}

/// Flushes the sink where a run stops, so that what was written comes out, unless the sink fails. A fault of this flush changes nothing
/// else: the run has its cause.
pub fn flush_at_stop<O: Sink>(out: &mut O)
    ensures same { Adds (O.written out.old) (O.written out.new) [] }
    ensures no_fall { O.faults out.old ≤ O.faults out.new }
    ensures flushed { IsFlushed (output O.written O.flushed O.faults out.old out.new) }
{
    let _flushed = out.flush();
}

// Writes these lines, each as one piece, and flushes.
fn put_whole<O: Sink>(out: &mut O, lines: &[Vec<u8>]) -> Result<(), Failed>
    ensures put { IsPut (concat (map (λ l. l.items) lines.now)) (output O.written O.flushed O.faults out.old out.new) result }
    ensures flushed { OnOk result (O.flushed out.new ≡ O.written out.new) }
{
    put_lines(out, lines)?;
    out.flush()
}

// Writes this text as one piece, and flushes.
fn put_text<O: Sink>(out: &mut O, text: &[u8]) -> Result<(), Failed>
    ensures put { IsPut text.now (output O.written O.flushed O.faults out.old out.new) result }
    ensures flushed { OnOk result (O.flushed out.new ≡ O.written out.new) }
{
    put_all(out, text)?;
    out.flush()
}

/// Writes a report, each line as one piece, and flushes. `Ok` tells whether something is refused.
pub fn put_report<O: Sink>(report: &Report, out: &mut O) -> Result<bool, Stop>
    ensures { Said (Exactly (map (λ l. l.items) report.now.lines.items) report.now.refused) NoReport (output O.written O.flushed O.faults out.old out.new) result }
{
    match put_whole(out, &report.lines) {
        Ok(()) => Ok(report.refused),
        Err(_) => {
            flush_at_stop(out);
            Err(Stop::Write)
        }
    }
}

/// Writes a report in which items are told for which memory was wanting, each line as one piece, and flushes. It says how the run ends.
pub(crate) fn put_with_gaps<O: Sink>(lines: &[Vec<u8>], out: &mut O) -> Stop
    ensures { Said NoReport (Exactly (map (λ l. l.items) lines.now) true) (output O.written O.flushed O.faults out.old out.new) (Err result) }
{
    match put_whole(out, lines) {
        Ok(()) => Stop::Gaps,
        Err(_) => {
            flush_at_stop(out);
            Stop::NoMemory
        }
    }
}

/// Writes a report of one line, and flushes. Nothing is refused.
pub fn say<O: Sink>(out: &mut O, line: &[u8]) -> Result<bool, Stop>
    ensures { Said (Exactly (line.now ∷ []) false) NoReport (output O.written O.flushed O.faults out.old out.new) result }
{
    match put_text(out, line) {
        Ok(()) => Ok(false),
        Err(_) => {
            flush_at_stop(out);
            Err(Stop::Write)
        }
    }
}
