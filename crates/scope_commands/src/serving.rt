//! The run over lines that write MRSs.

ghost use Rattle.std.specs.Prelude.{◌≡◌};
ghost use Rattle.endings.specs.Meanings.{Shelves};
ghost use Rattle.endings.specs.Reports.{streams};
ghost use Rattle.endings.specs.Endings.{Ended};
ghost use Rattle.scope_commands.specs.Scoping.{scope_meaning};

use crate::answering::Scoper;
use endings::Fault;
use endings::lines::serve;
use lkb_io::{Sink, Source};
use std::alloc::Global;
use std::sync::Wait;
use std::thread::Threads;
use worker_gate::Gate;

/// `scope`: answers all lines of the source, line by line: read, answer, write. Lines that are held already are answered side by side
/// where there is more than one worker. `Ok` tells whether a line was refused. It has no files.
pub fn scope_lines<I: Source, O: Sink, Rt: Threads + Wait + Sync>(
    rt: &Rt,
    alloc: Global,
    scoper: &Scoper,
    input: &mut I,
    out: &mut O,
    gate: &dyn Gate,
) -> Result<bool, Fault>
    ensures { (h : Shelves) → Ended (scope_meaning scoper.now.max) h (streams I.left I.faults O.written O.flushed O.faults input.old input.new out.old out.new)
        (input.new ≡ input.old) ((input.new ≡ input.old) × (out.new ≡ out.old)) result }
{
    let refused = serve(rt, alloc, scoper, input, out, gate)?;
    Ok(refused)
}
