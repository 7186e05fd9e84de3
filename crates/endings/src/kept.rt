//! What is kept between the batches of lines of a run, and how a run ends by it.
ghost use Rattle.std.specs.Prelude.{◌≡◌, ◌≤◌, ◌||◌, [], false, IfOk, OnErr};
ghost use Rattle.lkb_io.specs.Outside.{HasRisen, Adds};
ghost use Rattle.endings.specs.Inner.Batches.{end_with};

use crate::Stop;
use crate::lines::NoMemory;
use crate::pace::Pace;
use lkb_io::{Failed, Held, Sink};
use std::alloc::Global;

/// What is kept from one batch of lines to the next: the allocator, their pace, whether memory was wanting for an item, and room for the line
/// that tells it, so that telling it takes none.
#[derive(Drop)]
pub(crate) struct Kept {
    pub(crate) alloc: Global,
    pub(crate) pace: Pace,
    pub(crate) wanting: bool,
    pub(crate) note: Vec<u8>,
    // whether the error stream has failed
    pub(crate) failed: bool,
}

// How many bytes the longest line has that tells that memory was wanting for an item.
const NOTE_BYTES: usize = 40;

/// What is kept before the first line.
pub(crate) fn nothing_kept(alloc: Global, workers: u32) -> Result<Kept, NoMemory>
    ensures wanting { IfOk result (λ k. k.wanting ≡ false) }
    ensures failed { IfOk result (λ k. k.failed ≡ false) }
{
    Ok(Kept {
        alloc,
        pace: Pace::new(workers),
        wanting: false,
        note: Vec::with_capacity(alloc, NOTE_BYTES)?,
        failed: false,
    })
}

/// Whether the one or the other is so.
pub(crate) fn either(one: bool, other: bool) -> bool
    ensures { result ≡ (one || other) }
{
    one || other
}

/// Flushes what was written before the source is asked for more, which may wait for a user who looks at the
/// answers. While a line is held, the source isn't asked.
pub(crate) fn flush_before_read<O: Sink>(
    out: &mut O,
    held: &Held,
    has_written: bool,
) -> Result<(), Failed>
    ensures same { Adds (O.written out.old) (O.written out.new) [] }
    ensures no_fall { O.faults out.old ≤ O.faults out.new }
    ensures failed { OnErr result (HasRisen (O.faults out.old) (O.faults out.new)) }
{
    if has_written && !held.has_line() {
        return out.flush();
    }
    Ok(())
}

/// How a run ends in which memory was wanting for an item, or not. It isn't told of a stop that came later than that.
pub(crate) fn ended(end: Result<bool, Stop>, wanting: bool) -> Result<bool, Stop>
    ensures { result ≡ end_with wanting end }
{
    match end {
        _ if !wanting => end,
        Ok(_) => Err(Stop::Gaps),
        Err(_) => Err(Stop::NoMemory),
    }
}
