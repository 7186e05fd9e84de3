//! The answers to lines that write MRSs.

ghost use Rattle.std.specs.Prelude.{◌<◌};

use crate::reports::{report_of, report_of_no_mrs};
use endings::lines::{Answer, Answers, Share};
use endings::pieces::Report;
use item_reports::NoMemory;
use mrs_text::{MrsFault, read};
use std::alloc::Global;
use std::sync::Wait;
use std::thread::Threads;
use worker_gate::Gate;

/// What answers MRSs by their scoped readings: at most so many, and by so many workers, who answer other lines each. How many there are
/// changes no answer.
#[derive(Clone, Copy, Debug)]
pub struct Scoper {
    /// The most readings of an MRS.
    pub max: u32,
    /// How many workers answer lines, at least one.
    pub workers: u32,
    ghost some: { 0 < workers },
}

impl Scoper {
    ghost use Rattle.std.specs.Prelude.{map, IfOk};
    ghost use Rattle.scope_commands.specs.Answers.{IsAnswer};

    /// The report on the line of this number, by one worker. It waits for nobody, so this call returns. `NoMemory` comes only for want of memory.
    pub fn report(&self, alloc: Global, number: u64, line: &[u8]) -> Result<Report, NoMemory>
        ensures { IfOk result (λ r. IsAnswer self.now.max number line.now (map (λ l. l.items) r.lines.items) r.refused) }
    {
        match read(alloc, line) {
            Ok(mrs) => report_of(alloc, number, &mrs, self.max),
            Err(MrsFault::At { at }) => report_of_no_mrs(alloc, number, at),
            Err(MrsFault::NoMemory) => Err(NoMemory),
        }
    }
}

impl Answers for Scoper {
    ghost use Rattle.scope_commands.specs.Answers.{IsAnswer};

    ghost ready = { λ s. Unit {0} };

    ghost IsAnswer = { λ s. IsAnswer s.max };

    fn workers(&self) -> u32 {
        self.workers
    }

    // (one MRS is answered by one worker, whatever share a line has)
    fn answer<Rt: Threads + Wait + Sync>(
        &self,
        _rt: &Rt,
        alloc: Global,
        number: u64,
        line: &[u8],
        _share: Share,
        _gate: &dyn Gate,
    ) -> Result<Answer, endings::lines::NoMemory> {
        match self.report(alloc, number, line) {
            Ok(report) => Ok(Answer {
                report,
                note: Vec::new(alloc),
            }),
            Err(_) => Err(endings::lines::NoMemory),
        }
    }
}
