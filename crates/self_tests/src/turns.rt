//! Lines, counted by workers side by side and by one in turn.

ghost use Rattle.std.specs.Prelude.{◌<◌, All, IfOk};
ghost use Rattle.std.specs.Str.{IsUtf8};
ghost use Rattle.chart_core.specs.Kept.{InRange};
ghost use Rattle.packed_items.specs.Answers.{limits_in};
ghost use Rattle.engine.specs.Ready.{IsReady};
ghost use Rattle.engine.specs.Views.{speech_of};
ghost use Rattle.side_by_side.specs.Works.{AreGiven};
ghost use Rattle.self_tests.specs.Inner.Counts.{MayBeCounted};

use crate::counter::Counter;
use crate::{Count, NoMemory};
use endings::lines::Share;
use engine::desks::Desks;
use side_by_side::each_by;
use std::alloc::Global;
use std::sync::Wait;
use std::thread::Threads;
use worker_gate::Gate;

// Lines that lacked memory while they had several workers, or others were counted beside them, are counted once more, one after the other,
// by one worker.
fn count_again<Rt: Threads + Wait + Sync>(
    rt: &Rt,
    alloc: Global,
    counter: &Counter<'_, '_, '_>,
    lines: &[Vec<u8>],
    counts: &mut Vec<Count>,
)
    requires ready { IsReady counter.now.engine.now }
    requires limits { InRange counter.now.limits.now }
    requires text { All (λ l. IsUtf8 l.items) lines.now }
    requires counted { AreGiven (λ place line count. MayBeCounted (speech_of counter.now.engine.now) (limits_in counter.now.limits.now) counter.now.limits.now.lexical line.items count) 0 lines.now counts.old.items }
    ensures { AreGiven (λ place line count. MayBeCounted (speech_of counter.now.engine.now) (limits_in counter.now.limits.now) counter.now.limits.now.lexical line.items count) 0 lines.now counts.new.items }
{
    for place in 0..lines.len() {
        if counts[place] == Count::NoMemory {
            counts[place] = counter.counted(rt, alloc, &lines[place]);
        }
    }
}

// Lines are counted one after the other, by one worker.
fn count_in_turn<Rt: Threads + Wait + Sync>(
    rt: &Rt,
    alloc: Global,
    counter: &Counter<'_, '_, '_>,
    lines: &[Vec<u8>],
    gate: &dyn Gate,
) -> Result<Vec<Count>, NoMemory>
    requires ready { IsReady counter.now.engine.now }
    requires limits { InRange counter.now.limits.now }
    requires text { All (λ l. IsUtf8 l.items) lines.now }
    ensures { IfOk result (λ counts. AreGiven (λ place line count. MayBeCounted (speech_of counter.now.engine.now) (limits_in counter.now.limits.now) counter.now.limits.now.lexical line.items count) 0 lines.now counts.items) }
{
    let mut counts = Vec::with_capacity(alloc, lines.len())?;
    for place in 0..lines.len() {
        gate.at(0, place as u64);
        counts.push_reserved(counter.counted(rt, alloc, &lines[place]));
    }
    Ok(counts)
}

/// What is counted of each of these lines, in order. So many workers draw them, or where there is no room for several workers one counts all.
pub(crate) fn count_all<Rt: Threads + Wait + Sync>(
    rt: &Rt,
    alloc: Global,
    mut counter: Counter<'_, '_, '_>,
    lines: &[Vec<u8>],
    workers: u32,
    gate: &dyn Gate,
) -> Result<Vec<Count>, NoMemory>
    requires ready { IsReady counter.engine.now }
    requires limits { InRange counter.limits.now }
    requires text { All (λ l. IsUtf8 l.items) lines.now }
    requires some { 0 < workers }
    ensures { IfOk result (λ counts. AreGiven (λ place line count. MayBeCounted (speech_of counter.entry.engine.now) (limits_in counter.entry.limits.now) counter.entry.limits.now.lexical line.items count) 0 lines.now counts.items) }
{
    let drawn = each_by(rt, alloc, &counter, lines, workers, gate);
    // (what the workers' desks hold is given back before one worker goes on alone)
    counter.desks = Desks::new(alloc, 1);
    counter.share = Share::Single;
    let Ok(mut counts) = drawn else {
        return count_in_turn(rt, alloc, &counter, lines, gate);
    };
    if workers == 1 {
        return Ok(counts);
    }
    count_again(rt, alloc, &counter, lines, &mut counts);
    Ok(counts)
}
