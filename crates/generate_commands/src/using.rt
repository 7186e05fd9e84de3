//! What `generate` does with an engine: it answers all lines of its source.

ghost use Rattle.chart_core.specs.Kept.{InRange};
ghost use Rattle.chart_workers.specs.Crews.{IsCrewSize};

use crate::answering::Generator;
use crate::contributing::contributions_of;
use chart_core::Limits;
use endings::Stop;
use endings::in_turn::serve_in_turn;
use endings::pieces::flush_at_stop;
use engine::desks::Desks;
use engine::{Engine, Use};
use lkb_io::{Sink, Source};
use std::alloc::Global;
use std::sync::Wait;
use std::thread::Threads;
use worker_gate::Gate;

/// All lines of a source, under these limits and by so many workers.
#[derive(Drop)]
pub(crate) struct AllLines {
    pub(crate) alloc: Global,
    pub(crate) limits: Limits,
    pub(crate) workers: u32,
    ghost in_range: { InRange limits },
    ghost size: { IsCrewSize workers },
}

impl<I: Source, O: Sink, X> Use<I, O, X> for AllLines {
    ghost use Rattle.endings.specs.Reports.{streams};
    ghost use Rattle.generate_commands.specs.Views.{bounds_with};
    ghost use Rattle.generate_commands.specs.Inner.Contributing.{IsServedBy};

    type Out = Result<bool, Stop>;

    ghost Gives = { λ job g speech input left out written none nothing end. IsServedBy g speech (bounds_with job.limits) (streams I.left I.faults O.written O.flushed O.faults input left out written) end };

    fn allocator(&self) -> Global {
        self.alloc
    }

    fn run<Rt: Threads + Wait + Sync>(
        &self,
        rt: &Rt,
        engine: &Engine<'_, '_, '_>,
        input: &mut I,
        out: &mut O,
        _nothing: &mut X,
        gate: &dyn Gate,
    ) -> Result<bool, Stop> {
        let alloc = self.alloc;
        let Ok(given) = contributions_of(alloc, engine, self.limits.lexical) else {
            flush_at_stop(out);
            return Err(Stop::NoMemory);
        };
        let generator = Generator {
            engine: *engine,
            contributors: &given.contributors,
            c_cont: &given.c_cont,
            limits: self.limits,
            desks: Desks::new(alloc, self.workers),
        };
        // (what a grammar's lexical trees contribute isn't shown to be fit for threads that share it, since trees are of a type that reaches
        // itself; so MRSs aren't answered side by side, as the lines of `parse` are)
        serve_in_turn(rt, alloc, &generator, input, out, gate)
    }
}
