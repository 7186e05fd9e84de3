//! The run over lines that are answered one after the other, each by all workers: for an object that threads can't share. What differs from
//! `lines` is who answers; a body that is given its answerer by a trait isn't given that threads may share it.
ghost use Rattle.std.specs.Prelude.{◌≡◌, ℕ, ◌+◌, ◌≤◌, ◌^◌, Bool, false, length, map};
ghost use Rattle.endings.specs.Reports.{AreAnswers, OrNoMemory, Served, streams};
ghost use Rattle.endings.specs.Inner.Batches.{Ends, IsFlag, ServedBatch, Told};

use crate::Stop;
use crate::answering::answer_in_turn;
use crate::gathering::{Batch, read_batch};
use crate::kept::{Kept, either, ended, flush_before_read, nothing_kept};
use crate::lines::Answers;
use crate::pieces::flush_at_stop;
use crate::telling::{is_one_refused, is_one_wanting, put_told};
use lkb_io::{Held, Sink, Source};
use std::alloc::Global;
use std::sync::Wait;
use std::thread::Threads;
use worker_gate::Gate;

// Answers some lines, and sets the pace by it. `Ok` tells whether one is refused.
fn serve_batch<C: Answers, O: Sink, Rt: Threads + Wait + Sync>(
    rt: &Rt,
    command: &C,
    batch: &Batch<'_>,
    kept: &mut Kept,
    out: &mut O,
    gate: &dyn Gate,
) -> Result<bool, Stop>
    requires ready { C.ready command.now }
    requires room { batch.now.number + length batch.now.lines.now ≤ 2 ^ 64 }
    ensures outcome { ServedBatch (C.IsAnswer command.now) batch.now.number (map (λ l. l.items) batch.now.lines.now) (O.written out.old) (O.written out.new) (O.faults out.old) (O.faults out.new)
        kept.old.wanting kept.new.wanting result }
    ensures no_fall { O.faults out.old ≤ O.faults out.new }
{
    let told = answer_in_turn(rt, kept.alloc, command, batch.number, batch.lines, gate)?;
    kept.pace.heed(&told);
    kept.wanting = either(kept.wanting, is_one_wanting(&told));
    put_told(out, batch.number, &told, &mut kept.note)?;
    Ok(is_one_refused(&told))
}

// Answers all lines of the source, and flushes the sink at the end and before the source is asked for more.
fn serve_lines<C: Answers, I: Source, O: Sink, Rt: Threads + Wait + Sync>(
    rt: &Rt,
    command: &C,
    input: &mut I,
    out: &mut O,
    kept: &mut Kept,
    gate: &dyn Gate,
) -> Result<bool, Stop>
    requires ready { C.ready command.now }
    requires none_yet { kept.old.wanting ≡ false }
    ensures ends { (wanting : Bool) × IsFlag result false wanting kept.new.wanting
        × Ends (Told (C.IsAnswer command.now) wanting) (streams I.left I.faults O.written O.flushed O.faults input.old input.new out.old out.new) result }
    ensures no_fall { O.faults out.old ≤ O.faults out.new }
{
    let alloc = kept.alloc;
    let mut held = Held::new(alloc);
    let mut refused = false;
    let mut count = 0;
    let mut lines = Vec::new(alloc);
    while count < u64::MAX {
        flush_before_read(out, &held, count > 0)?;
        lines.clear();
        let read = read_batch(
            alloc,
            input,
            &mut held,
            kept.pace.lines().min(u64::MAX - count),
            &mut lines,
        );
        let batch = Batch {
            number: count + 1,
            lines: &lines,
        };
        let batch_refused = serve_batch(rt, command, &batch, kept, out, gate)?;
        refused = refused || batch_refused;
        let came = read?;
        if came == 0 {
            out.flush()?;
            return Ok(refused);
        }
        count += came;
    }
    Err(Stop::TooMany)
}

/// The same as `serve` of `lines`, where lines are answered one after the other.
pub fn serve_in_turn<C: Answers, I: Source, O: Sink, Rt: Threads + Wait + Sync>(
    rt: &Rt,
    alloc: Global,
    command: &C,
    input: &mut I,
    out: &mut O,
    gate: &dyn Gate,
) -> Result<bool, Stop>
    requires { C.ready command.now }
    ensures { Served (AreAnswers (C.IsAnswer command.now) 1) (AreAnswers (OrNoMemory (C.IsAnswer command.now)) 1)
        (streams I.left I.faults O.written O.flushed O.faults input.old input.new out.old out.new) result }
{
    let Ok(mut kept) = nothing_kept(alloc, 1) else {
        flush_at_stop(out);
        return Err(Stop::NoMemory);
    };
    let end = serve_lines(rt, command, input, out, &mut kept, gate);
    match end {
        Ok(refused) => ended(Ok(refused), kept.wanting),
        Err(stop) => {
            flush_at_stop(out);
            ended(Err(stop), kept.wanting)
        }
    }
}
