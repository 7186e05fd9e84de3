//! What is counted of the answer to a line.

ghost use Rattle.std.specs.Prelude.{◌≡◌, IfOk};
ghost use Rattle.chart_core.specs.Kept.{InRange};
ghost use Rattle.grammar_rules.specs.Views.{item_answer};
ghost use Rattle.packed_items.specs.Answers.{limits_in};
ghost use Rattle.engine.specs.Named.{IsFew};
ghost use Rattle.engine.specs.Ready.{IsReady};
ghost use Rattle.engine.specs.Views.{speech_of};
ghost use Rattle.self_tests.specs.Items.{count_of};
ghost use Rattle.self_tests.specs.Inner.Counts.{IsCounted};

use crate::Count;
use chart_core::Limits;
use endings::lines::Share;
use engine::desks::{Desk, Desks};
use engine::{Engine, lattice_of_words};
use grammar_rules::ItemAnswer;
use side_by_side::{NoMemory, Work};
use std::alloc::Global;
use std::sync::Wait;
use std::thread::Threads;
use worker_gate::OpenGate;

/// What counts the answers to lines: an engine, the limits of each line, and the desks at which lines are answered, each with this share of
/// the workers.
#[derive(Drop)]
pub(crate) struct Counter<'e, 'r, 'k> {
    pub(crate) engine: &'e Engine<'e, 'r, 'k>,
    pub(crate) limits: &'e Limits,
    pub(crate) desks: Desks,
    pub(crate) share: Share,
}

// What is counted of an answer.
fn count_of(answer: &ItemAnswer) -> Count
    requires { IsFew (item_answer answer.now) }
    ensures { result ≡ count_of (item_answer answer.now) }
{
    match answer {
        ItemAnswer::Trees { classes, trees } => Count::Found {
            classes: *classes,
            readings: trees.len() as u32,
        },
        _ => Count::Refused,
    }
}

// What is counted of the answer to a line, at a desk. The gate stays open for the tasks of its chart: the gate of the run was told of the
// line.
fn count_line<Rt: Threads + Wait + Sync>(
    rt: &Rt,
    alloc: Global,
    engine: &Engine<'_, '_, '_>,
    desk: &mut Desk,
    limits: &Limits,
    line: &str,
) -> Result<Count, NoMemory>
    requires ready { IsReady engine.now }
    requires limits { InRange limits.now }
    ensures { IfOk result (IsCounted (speech_of engine.now) (limits_in limits.now) limits.now.lexical line.now) }
{
    let Ok(lattice) = lattice_of_words(alloc, line) else {
        return Err(NoMemory);
    };
    let Ok(answer) = engine.parse(rt, alloc, desk, &lattice, limits, &OpenGate) else {
        return Err(NoMemory);
    };
    Ok(count_of(&answer))
}

impl Counter<'_, '_, '_> {
    ghost use Rattle.std.specs.Thread.{IsSync};
    ghost use Rattle.std.specs.Str.{IsUtf8};
    ghost use Rattle.chart_core.specs.Kept.{InRange};
    ghost use Rattle.packed_items.specs.Answers.{limits_in};
    ghost use Rattle.engine.specs.Ready.{IsReady};
    ghost use Rattle.engine.specs.Views.{speech_of};
    ghost use Rattle.self_tests.specs.Inner.Counts.{MayBeCounted};

    /// What is counted of the answer to a line, or that memory was wanting for it. A desk at which it was wanting is let go, with what it
    /// holds.
    pub(crate) fn counted<Rt: Threads + Wait + Sync>(
        &self,
        rt: &Rt,
        alloc: Global,
        line: &[u8],
    ) -> Count
        requires sync { IsSync Rt.row }
        requires ready { IsReady self.now.engine.now }
        requires limits { InRange self.now.limits.now }
        requires text { IsUtf8 line.now }
        ensures { MayBeCounted (speech_of self.now.engine.now) (limits_in self.now.limits.now) self.now.limits.now.lexical line.now result }
    {
        let Ok(text) = str::from_utf8(line) else {
            unreachable!()
        };
        let mut desk = self.desks.take(rt, alloc, self.share);
        match count_line(rt, alloc, self.engine, &mut desk, self.limits, text) {
            Ok(count) => {
                self.desks.give_back(rt, self.share, desk);
                count
            }
            Err(_) => Count::NoMemory,
        }
    }
}

impl Work<Vec<u8>, Count> for Counter<'_, '_, '_> {
    ghost use Rattle.std.specs.Str.{IsUtf8};
    ghost use Rattle.chart_core.specs.Kept.{InRange};
    ghost use Rattle.packed_items.specs.Answers.{limits_in};
    ghost use Rattle.engine.specs.Ready.{IsReady};
    ghost use Rattle.engine.specs.Views.{speech_of};
    ghost use Rattle.self_tests.specs.Inner.Counts.{MayBeCounted};

    ghost ready = { λ c place line. IsReady c.engine.now × InRange c.limits.now × IsUtf8 line.items };

    ghost Gives = { λ c place line count. MayBeCounted (speech_of c.engine.now) (limits_in c.limits.now) c.limits.now.lexical line.items count };

    fn perform<Rt: Threads + Wait + Sync>(
        &self,
        rt: &Rt,
        alloc: Global,
        _place: u64,
        line: &Vec<u8>,
    ) -> Result<Count, NoMemory> {
        Ok(self.counted(rt, alloc, line))
    }
}
