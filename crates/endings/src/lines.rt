//! The run over lines: each line of a source is answered, and the answer written.
ghost use Rattle.std.specs.Prelude.{◌≡◌, ℕ, ◌+◌, ◌<◌, ◌≤◌, ◌^◌, ◌||◌, List, [], Bool, true, false, length, map, IfOk, OnErr};
ghost use Rattle.std.specs.Thread.{IsSync};
ghost use Rattle.lkb_io.specs.Outside.{HasRisen, Adds};
ghost use Rattle.endings.specs.Reports.{AreAnswers, OrNoMemory, Served, output, streams};
ghost use Rattle.endings.specs.Notes.{AreNotes, no_note, OrNone, AreAllNotes, Noted};
ghost use Rattle.endings.specs.Inner.Batches.{Ends, EndNotes, IsFlag, IsNotedSoFar, ServedBatch, TellsMore, Told};

use crate::Stop;
use crate::answering::answer_apart;
use crate::gathering::{Batch, read_batch};
use crate::kept::{Kept, either, ended, flush_before_read, nothing_kept};
use crate::noting::{Nobody, put_notes};
use crate::pieces::{Report, flush_at_stop};
use crate::telling::{is_one_refused, is_one_wanting, put_told};
use lkb_io::{Failed, Held, LineFault, Sink, Source};
pub use std::alloc::AllocError as NoMemory;
use std::alloc::Global;
use std::sync::Wait;
use std::thread::Threads;
use worker_gate::Gate;

/// What a line has of the workers.
#[derive(Clone, Copy, Debug, PartialEq, Eq)]
pub enum Share {
    /// All of them: no other line is answered meanwhile.
    Whole,
    /// One, while the others answer other lines.
    Single,
}

/// The answer to a line: its report, and the note on it, which is told on the error stream with its end, or empty.
#[derive(Drop)]
pub struct Answer {
    pub report: Report,
    pub note: Vec<u8>,
}

/// What answers lines.
pub trait Answers {
    /// What is known of an object that answers: a fact that is no proposition can't stand in a field of it.
    ghost ready: { Self → Type 0 };

    /// The report lines that answer the line of this number, and whether the line is refused.
    ghost IsAnswer: { Self → ℕ → List ℕ → List (List ℕ) → Bool → Type 0 };

    /// The note on the line of this number, which is told on the error stream where notes are.
    ghost IsNote: { Self → ℕ → List ℕ → List ℕ → Type 0 } = { λ _. no_note };

    /// How many workers there are, at least one. It changes no answer.
    fn workers(&self) -> u32
        ensures { 0 < result };

    /// The answer to the line of this number, by this share of the workers. Lines are numbered from 1.
    fn answer<Rt: Threads + Wait + Sync>(
        &self,
        rt: &Rt,
        alloc: Global,
        number: u64,
        line: &[u8],
        share: Share,
        gate: &dyn Gate,
    ) -> Result<Answer, NoMemory>
        requires sync { IsSync Rt.row }
        requires ready { ready self.now }
        ensures report { IfOk result (λ a. IsAnswer self.now number line.now (map (λ l. l.items) a.report.lines.items) a.report.refused) }
        ensures note { IfOk result (λ a. IsNote self.now number line.now a.note.items) };
}

impl From<LineFault> for Stop {
    ghost use Rattle.endings.specs.Stops.{stop_of};

    ghost from_gives = { λ fault e. e ≡ stop_of fault };

    fn from(fault: LineFault) -> Stop {
        match fault {
            LineFault::Failed => Stop::Read,
            LineFault::TooLong => Stop::TooLong,
            LineFault::NoMemory => Stop::NoMemory,
        }
    }
}

impl From<Failed> for Stop {
    ghost use Rattle.endings.specs.declared.Stop.{Stop};

    ghost from_gives = { λ _ e. e ≡ Stop.Write };

    fn from(_fault: Failed) -> Stop {
        Stop::Write
    }
}

impl From<NoMemory> for Stop {
    ghost use Rattle.endings.specs.declared.Stop.{Stop};

    ghost from_gives = { λ _ e. e ≡ Stop.NoMemory };

    fn from(_fault: NoMemory) -> Stop {
        Stop::NoMemory
    }
}

// Answers some lines, and sets the pace by it. `Ok` tells whether one is refused.
fn serve_batch<C: Answers + Sync, O: Sink, X: Sink, Rt: Threads + Wait + Sync>(
    rt: &Rt,
    command: &C,
    batch: &Batch<'_>,
    kept: &mut Kept,
    out: &mut O,
    err: &mut X,
    gate: &dyn Gate,
) -> Result<bool, Stop>
    requires ready { C.ready command.now }
    requires room { batch.now.number + length batch.now.lines.now ≤ 2 ^ 64 }
    ensures outcome { ServedBatch (C.IsAnswer command.now) batch.now.number (map (λ l. l.items) batch.now.lines.now) (O.written out.old) (O.written out.new) (O.faults out.old) (O.faults out.new)
        kept.old.wanting kept.new.wanting result }
    ensures no_fall { O.faults out.old ≤ O.faults out.new }
    ensures held { kept.old.wanting ≡ true → kept.new.wanting ≡ true }
    ensures noted { IfOk result (λ _. (text : List ℕ) × AreNotes (OrNone kept.new.wanting (C.IsNote command.now)) batch.now.number (map (λ l. l.items) batch.now.lines.now) text
        × TellsMore kept.old.failed kept.new.failed (X.written err.old) (X.written err.new) (X.faults err.old) (X.faults err.new) text) }
    ensures unnoted { OnErr result ((err.new ≡ err.old) × (kept.new.failed ≡ kept.old.failed)) }
{
    let told = answer_apart(rt, kept.alloc, command, batch.number, batch.lines, gate)?;
    kept.pace.heed(&told);
    kept.wanting = either(kept.wanting, is_one_wanting(&told));
    put_told(out, batch.number, &told, &mut kept.note)?;
    put_notes(err, &told, &mut kept.failed);
    Ok(is_one_refused(&told))
}

// Answers all lines of the source, and flushes the sink at the end and before the source is asked for more.
fn serve_lines<C: Answers + Sync, I: Source, O: Sink, X: Sink, Rt: Threads + Wait + Sync>(
    rt: &Rt,
    command: &C,
    input: &mut I,
    out: &mut O,
    err: &mut X,
    kept: &mut Kept,
    gate: &dyn Gate,
) -> Result<bool, Stop>
    requires ready { C.ready command.now }
    requires none_yet { kept.old.wanting ≡ false }
    requires calm { kept.old.failed ≡ false }
    ensures ends { (wanting : Bool) × IsFlag result false wanting kept.new.wanting
        × Ends (Told (C.IsAnswer command.now) wanting) (streams I.left I.faults O.written O.flushed O.faults input.old input.new out.old out.new) result }
    ensures no_fall { O.faults out.old ≤ O.faults out.new }
    ensures noted { (text : List ℕ) × EndNotes (AreNotes (OrNone kept.new.wanting (C.IsNote command.now)) 1) (I.left input.old) (I.left input.new) text result
        × IsNotedSoFar kept.new.failed (X.written err.old) (X.written err.new) (X.faults err.old) (X.faults err.new) text }
{
    let alloc = kept.alloc;
    let mut held = Held::new(alloc);
    let mut refused = false;
    let mut count = 0;
    let mut lines = Vec::new(alloc);
    while count < u64::MAX {
        flush_before_read(out, &held, count > 0)?;
        lines.clear();
        let read = read_batch(
            alloc,
            input,
            &mut held,
            kept.pace.lines().min(u64::MAX - count),
            &mut lines,
        );
        let batch = Batch {
            number: count + 1,
            lines: &lines,
        };
        let batch_refused = serve_batch(rt, command, &batch, kept, out, err, gate)?;
        refused = refused || batch_refused;
        let came = read?;
        if came == 0 {
            out.flush()?;
            return Ok(refused);
        }
        count += came;
    }
    Err(Stop::TooMany)
}

/// Answers all lines of the source by an object that is ready. `Ok` tells whether a line was refused. A line for which memory is wanting is
/// told to be so, and the next one is answered; the run then ends with `Gaps`. The sink is flushed at the end, where the run stops, and
/// before the source is asked for more. The notes on lines are told on `err`, those of a batch after its reports; a fault of `err` changes
/// nothing, and no note is told after it.
pub fn serve_noted<C: Answers + Sync, I: Source, O: Sink, X: Sink, Rt: Threads + Wait + Sync>(
    rt: &Rt,
    alloc: Global,
    command: &C,
    input: &mut I,
    out: &mut O,
    err: &mut X,
    gate: &dyn Gate,
) -> Result<bool, Stop>
    requires { C.ready command.now }
    ensures served { Served (AreAnswers (C.IsAnswer command.now) 1) (AreAnswers (OrNoMemory (C.IsAnswer command.now)) 1)
        (streams I.left I.faults O.written O.flushed O.faults input.old input.new out.old out.new) result }
    ensures noted { Noted (AreAllNotes (C.IsNote command.now)) (I.left input.old) (I.left input.new) (output X.written X.flushed X.faults err.old err.new) result }
{
    let Ok(mut kept) = nothing_kept(alloc, command.workers()) else {
        flush_at_stop(out);
        return Err(Stop::NoMemory);
    };
    let end = serve_lines(rt, command, input, out, err, &mut kept, gate);
    match end {
        Ok(refused) => ended(Ok(refused), kept.wanting),
        Err(stop) => {
            flush_at_stop(out);
            ended(Err(stop), kept.wanting)
        }
    }
}

/// The same where nobody is told of notes.
pub fn serve<C: Answers + Sync, I: Source, O: Sink, Rt: Threads + Wait + Sync>(
    rt: &Rt,
    alloc: Global,
    command: &C,
    input: &mut I,
    out: &mut O,
    gate: &dyn Gate,
) -> Result<bool, Stop>
    requires { C.ready command.now }
    ensures { Served (AreAnswers (C.IsAnswer command.now) 1) (AreAnswers (OrNoMemory (C.IsAnswer command.now)) 1)
        (streams I.left I.faults O.written O.flushed O.faults input.old input.new out.old out.new) result }
{
    serve_noted(rt, alloc, command, input, out, &mut Nobody, gate)
}
