//! What is counted of the answers to the lines of a workload.

ghost use Rattle.std.specs.Prelude.{◌≡◌, map};
ghost use Rattle.self_tests.specs.Lines.{lines as workload_lines};

use crate::counter::Counter;
use crate::turns::count_all;
use crate::workload_laws::lines_are_text;
use crate::{Count, NoMemory, SelfTest};
use endings::lines::Share;
use engine::desks::Desks;
use engine::{Engine, Use};
use std::alloc::Global;
use std::sync::Wait;
use std::thread::Threads;
use worker_gate::Gate;

/// What is done with an engine: what comes of the lines of a workload is counted.
#[derive(Drop)]
pub(crate) struct Counting<'t> {
    pub(crate) alloc: Global,
    pub(crate) test: &'t SelfTest,
    pub(crate) lines: &'t [Vec<u8>],
    ghost lines_are: { map (λ l. l.items) lines.now ≡ workload_lines test.now.number test.now.size },
}

// What each of so many lines has of so many workers: one that is alone has all of them.
fn share_of(workers: u32, lines: usize) -> Share {
    if workers == 1 || lines <= 1 {
        Share::Whole
    } else {
        Share::Single
    }
}

impl<X> Use<(), (), X> for Counting<'_> {
    ghost use Rattle.std.specs.Prelude.{IfOk};
    ghost use Rattle.packed_items.specs.Answers.{limits_in};
    ghost use Rattle.self_tests.specs.Lines.{lines as workload_lines};
    ghost use Rattle.self_tests.specs.Items.{AreCountsOrGaps};

    type Out = Result<Vec<Count>, NoMemory>;

    ghost Gives = { λ c g speech a b p q x y out. let t = c.test.now in
        IfOk out (λ counts. AreCountsOrGaps speech.signs speech.words (limits_in t.limits) t.limits.lexical (workload_lines t.number t.size) counts.items) };

    fn allocator(&self) -> Global {
        self.alloc
    }

    fn run<Rt: Threads + Wait + Sync>(
        &self,
        rt: &Rt,
        engine: &Engine<'_, '_, '_>,
        _a: &mut (),
        _b: &mut (),
        _c: &mut X,
        gate: &dyn Gate,
    ) -> Result<Vec<Count>, NoMemory> {
        lines_are_text();
        let workers = self.test.workers;
        let counter = Counter {
            engine,
            limits: &self.test.limits,
            desks: Desks::new(self.alloc, workers),
            share: share_of(workers, self.lines.len()),
        };
        count_all(rt, self.alloc, counter, self.lines, workers, gate)
    }
}
