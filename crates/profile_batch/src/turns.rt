//! Items, judged by workers side by side and by one in turn.

ghost use Rattle.std.specs.Prelude.{ℕ, ◌<◌, ◌^◌, All, length, IfOk};
ghost use Rattle.chart_core.specs.Kept.{InRange};
ghost use Rattle.packed_items.specs.Answers.{limits_in};
ghost use Rattle.engine.specs.Ready.{IsReady};
ghost use Rattle.engine.specs.Views.{speech_of};
ghost use Rattle.side_by_side.specs.Works.{AreGiven};
ghost use Rattle.profile_reports.specs.ItemsViews.{item_kept};
ghost use Rattle.profile_batch.specs.Results.{IsResultOrGap};
ghost use Rattle.profile_batch.specs.Views.{trees_of};

use crate::judging::Judge;
use engine::desks::Desks;
use profile_reports::{Got, ItemResult, NoMemory, ProfileItem};
use side_by_side::each_by;
use std::alloc::Global;
use std::sync::Wait;
use std::thread::Threads;
use worker_gate::Gate;

// Items that lacked memory while others were judged beside them are judged once more, one after the other, by one worker.
fn judge_again<Rt: Threads + Wait + Sync>(
    rt: &Rt,
    alloc: Global,
    judge: &Judge<'_, '_, '_>,
    items: &[ProfileItem],
    results: &mut Vec<ItemResult>,
)
    requires ready { IsReady judge.now.engine }
    requires limits { InRange judge.now.limits }
    requires few { length items.now < 2 ^ 32 }
    requires trees { All (λ i. trees_of i < 2 ^ 32) items.now }
    requires found { AreGiven (λ place item r. IsResultOrGap (speech_of judge.now.engine) (limits_in judge.now.limits) judge.now.limits.lexical place (item_kept item) r) 0 items.now results.old.items }
    ensures { AreGiven (λ place item r. IsResultOrGap (speech_of judge.now.engine) (limits_in judge.now.limits) judge.now.limits.lexical place (item_kept item) r) 0 items.now results.new.items }
{
    for place in 0..items.len() {
        if results[place].got == Got::NoMemory {
            results[place] = judge.judged(rt, alloc, place as u32, &items[place]);
        }
    }
}

// Items are judged one after the other, by one worker.
fn judge_in_turn<Rt: Threads + Wait + Sync>(
    rt: &Rt,
    alloc: Global,
    judge: &Judge<'_, '_, '_>,
    items: &[ProfileItem],
    gate: &dyn Gate,
) -> Result<Vec<ItemResult>, NoMemory>
    requires ready { IsReady judge.now.engine }
    requires limits { InRange judge.now.limits }
    requires few { length items.now < 2 ^ 32 }
    requires trees { All (λ i. trees_of i < 2 ^ 32) items.now }
    ensures { IfOk result (λ results. AreGiven (λ place item r. IsResultOrGap (speech_of judge.now.engine) (limits_in judge.now.limits) judge.now.limits.lexical place (item_kept item) r) 0 items.now results.items) }
{
    let mut results = Vec::with_capacity(alloc, items.len())?;
    for place in 0..items.len() {
        gate.at(0, place as u64);
        results.push_reserved(judge.judged(rt, alloc, place as u32, &items[place]));
    }
    Ok(results)
}

/// What is found of each of these items, in order. So many workers draw them, or where there is no room for several workers one judges all.
pub(crate) fn judge_all<Rt: Threads + Wait + Sync>(
    rt: &Rt,
    alloc: Global,
    mut judge: Judge<'_, '_, '_>,
    items: &[ProfileItem],
    workers: u32,
    gate: &dyn Gate,
) -> Result<Vec<ItemResult>, NoMemory>
    requires ready { IsReady judge.engine }
    requires limits { InRange judge.limits }
    requires few { length items.now < 2 ^ 32 }
    requires trees { All (λ i. trees_of i < 2 ^ 32) items.now }
    requires some { 0 < workers }
    ensures { IfOk result (λ results. AreGiven (λ place item r. IsResultOrGap (speech_of judge.entry.engine) (limits_in judge.entry.limits) judge.entry.limits.lexical place (item_kept item) r) 0 items.now results.items) }
{
    let drawn = each_by(rt, alloc, &judge, items, workers, gate);
    // (what the workers' desks hold is given back before one worker goes on alone)
    judge.desks = Desks::new(alloc, 1);
    let Ok(mut results) = drawn else {
        return judge_in_turn(rt, alloc, &judge, items, gate);
    };
    if workers == 1 {
        return Ok(results);
    }
    judge_again(rt, alloc, &judge, items, &mut results);
    Ok(results)
}
