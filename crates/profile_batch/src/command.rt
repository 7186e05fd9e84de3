//! `batch`, as what makes a report of the items of its files.

ghost use Rattle.chart_core.specs.Kept.{InRange};
ghost use Rattle.chart_workers.specs.Crews.{IsCrewSize};

use crate::batching::report_of;
use chart_core::Limits;
use endings::Fault;
use endings::commands::{ItemsReport, OfItems};
use lkb_io::Shelf;
use std::alloc::Global;
use std::sync::Wait;
use std::thread::Threads;
use worker_gate::Gate;

/// `batch`: the profile of this name, compared with what the grammar of that name gives under the settings of a file. It reads no input.
#[derive(Clone, Copy)]
pub struct Batch<'a> {
    pub grammar: &'a str,
    pub settings: Option<&'a str>,
    /// The name of the profile's file, taken as it is written.
    pub profile: &'a str,
    /// The limits of each item.
    pub limits: Limits,
    /// How many workers draw items, 1 to 64. It changes no answer.
    pub workers: u32,
    /// Whether more is told of a fault of its files.
    pub verbose: bool,
    ghost in_range: { InRange limits },
    ghost crew: { IsCrewSize workers },
}

impl OfItems for Batch<'_> {
    ghost use Rattle.std.specs.Prelude.{option_map};
    ghost use Rattle.packed_items.specs.Answers.{limits_in};
    ghost use Rattle.profile_batch.specs.Batches.{batch_meaning};

    ghost meaning = { λ b. batch_meaning b.grammar.now (option_map (λ s. s.now) b.settings) b.verbose b.profile.now (limits_in b.limits) b.limits.lexical };

    fn report<S: Shelf, Rt: Threads + Wait + Sync>(
        &self,
        rt: &Rt,
        alloc: Global,
        shelf: &mut S,
        gate: &dyn Gate,
    ) -> Result<ItemsReport, Fault> {
        report_of(rt, alloc, self, shelf, gate)
    }
}
