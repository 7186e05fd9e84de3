//! The answers to lines that write MRSs.

ghost use Rattle.std.specs.Prelude.{◌<◌};

use crate::reports::{report_of_budget, report_of_no_mrs, report_of_result};
use crate::skipping::Unskipped;
use endings::lines::{Answer, Answers, Share};
use endings::pieces::Report;
use item_reports::NoMemory;
use mrs_model::Mrs;
use mrs_text::{MrsFault, read};
use mrs_transfer::{TransferLimit, transfer};
use sieve::Guard;
use std::alloc::Global;
use std::sync::Wait;
use std::thread::Threads;
use transfer_model::{Site, TransferRules};
use worker_gate::Gate;

/// What answers MRSs by what rules make of them, and by so many workers, who answer other lines each. How many there are changes no answer.
#[derive(Drop)]
pub struct Transferrer {
    pub rules: TransferRules,
    /// Which rules are allowed.
    pub guard: Guard<Site, Unskipped>,
    /// How many workers answer lines, at least one.
    pub workers: u32,
    ghost some: { 0 < workers },
}

impl Transferrer {
    ghost use Rattle.std.specs.Prelude.{map, IfOk};
    ghost use Rattle.mrs_model.specs.Valid.{IsValid};
    ghost use Rattle.mrs_model.specs.Views.{meaning_of};
    ghost use Rattle.transfer_commands.specs.Answers.{IsAnswer};
    ghost use Rattle.transfer_commands.specs.Views.{rewriter_of};
    ghost use Rattle.transfer_commands.specs.Inner.{IsReportOn};

    // The report on an MRS, which the line of this number writes.
    fn report_on(&self, alloc: Global, number: u64, mrs: Mrs) -> Result<Report, NoMemory>
        requires { IsValid (meaning_of mrs) }
        ensures { IfOk result (λ r. IsReportOn (rewriter_of self.now) number (meaning_of mrs) (map (λ l. l.items) r.lines.items) r.refused) }
    {
        match transfer(alloc, &self.rules, &self.guard, mrs) {
            Ok(done) => report_of_result(alloc, number, done.steps, &done.mrs),
            Err(TransferLimit::Budget { .. }) => report_of_budget(alloc, number),
            Err(TransferLimit::NoMemory) => Err(NoMemory),
        }
    }

    /// The report on the line of this number, by one worker. It waits for nobody, so this call returns. `NoMemory` comes only for want of memory.
    pub fn report(&self, alloc: Global, number: u64, line: &[u8]) -> Result<Report, NoMemory>
        ensures { IfOk result (λ r. IsAnswer (rewriter_of self.now) number line.now (map (λ l. l.items) r.lines.items) r.refused) }
    {
        match read(alloc, line) {
            Ok(mrs) => self.report_on(alloc, number, mrs),
            Err(MrsFault::At { at }) => report_of_no_mrs(alloc, number, at),
            Err(MrsFault::NoMemory) => Err(NoMemory),
        }
    }
}

impl Answers for Transferrer {
    ghost use Rattle.transfer_commands.specs.Answers.{IsAnswer};
    ghost use Rattle.transfer_commands.specs.Views.{rewriter_of};

    ghost ready = { λ s. Unit {0} };

    ghost IsAnswer = { λ s. IsAnswer (rewriter_of s) };

    fn workers(&self) -> u32 {
        self.workers
    }

    // (one MRS is answered by one worker, whatever share a line has)
    fn answer<Rt: Threads + Wait + Sync>(
        &self,
        _rt: &Rt,
        alloc: Global,
        number: u64,
        line: &[u8],
        _share: Share,
        _gate: &dyn Gate,
    ) -> Result<Answer, endings::lines::NoMemory> {
        match self.report(alloc, number, line) {
            Ok(report) => Ok(Answer {
                report,
                note: Vec::new(alloc),
            }),
            Err(_) => Err(endings::lines::NoMemory),
        }
    }
}
