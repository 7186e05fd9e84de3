//! `self-test`, as what makes a report of the items of its workload.
ghost use Rattle.chart_core.specs.Kept.{InRange};
ghost use Rattle.chart_workers.specs.Crews.{IsCrewSize};

use crate::testing::report_of;
use chart_core::Limits;
use endings::Fault;
use endings::commands::{ItemsReport, OfItems};
use lkb_io::Shelf;
use std::alloc::Global;
use std::sync::Wait;
use std::thread::Threads;
use worker_gate::Gate;

/// `self-test`: the items of the workload of this number, with so many lines. It reads no file and no input.
#[derive(Clone, Copy)]
pub struct SelfTest {
    pub number: u64,
    /// How many lines there are: 1 to 1,000 where the program asks.
    pub size: u32,
    pub limits: Limits,
    /// How many workers share the lines, 1 to 64. It changes no answer.
    pub workers: u32,
    ghost in_range: { InRange limits },
    ghost crew: { IsCrewSize workers },
}

impl OfItems for SelfTest {
    ghost use Rattle.packed_items.specs.Answers.{limits_in};
    ghost use Rattle.self_tests.specs.SelfTests.{self_test_meaning};

    ghost meaning = { λ t. self_test_meaning t.number t.size (limits_in t.limits) t.limits.lexical };

    fn report<S: Shelf, Rt: Threads + Wait + Sync>(
        &self,
        rt: &Rt,
        alloc: Global,
        _shelf: &mut S,
        gate: &dyn Gate,
    ) -> Result<ItemsReport, Fault> {
        report_of(rt, alloc, self, gate)
    }
}
