//! A profile is compared with what a grammar gives.

ghost use Rattle.std.specs.Prelude.{◌≡◌, ◌<◌, ◌^◌, All, length, map, option_map, IfOk};
ghost use Rattle.std.specs.Thread.{IsSync};
ghost use Rattle.chart_core.specs.Kept.{InRange};
ghost use Rattle.chart_workers.specs.Crews.{IsCrewSize};
ghost use Rattle.packed_items.specs.Answers.{limits_in};
ghost use Rattle.book_signs.specs.Conditions.{IsWhole};
ghost use Rattle.grammar_files.specs.Walks.{IsText};
ghost use Rattle.grammar_load.specs.Conditions.{IsLoaded};
ghost use Rattle.grammar_load.specs.Views.{grammar_of};
ghost use Rattle.mrs_lines.specs.Fitting.{IsWellNamed};
ghost use Rattle.endings.specs.Meanings.{Files, shelves};
ghost use Rattle.endings.specs.Endings.{MadeOfItems};
ghost use Rattle.engine.specs.Speeches.{Speech, IsSpeechOf};
ghost use Rattle.profile_reports.specs.Profiles.{items_of};
ghost use Rattle.profile_reports.specs.ItemsViews.{item_kept};
ghost use Rattle.profile_batch.specs.Batches.{batch_meaning};
ghost use Rattle.profile_batch.specs.Results.{AreResultsOrGaps};
ghost use Rattle.profile_batch.specs.Inner.Told.{IsToldOf, told_as};
ghost use Rattle.profile_batch.specs.Views.{trees_of};

use crate::command::Batch;
use crate::judging::Judge;
use crate::turns::judge_all;
use book_signs::laws::whole_book;
use chart_core::Limits;
use command_files::laws::late_text;
use command_files::{load_grammar, load_text};
use endings::commands::ItemsReport;
use endings::pieces::Report;
use endings::{Fault, Stop};
use engine::desks::Desks;
use engine::{Engine, Use, with_engine};
use grammar_load::Grammar;
use lkb_io::Shelf;
use mrs_lines::loaded_names;
use profile_reports::{
    ItemResult, NoMemory, ProfileItem, ProfileReport, profile, report_on, some_lacking,
};
use std::alloc::Global;
use std::sync::Wait;
use std::thread::Threads;
use worker_gate::Gate;

/// What is done with an engine: these items are judged within these limits, by so many workers.
#[derive(Clone, Copy)]
struct Items<'i> {
    alloc: Global,
    items: &'i [ProfileItem],
    limits: Limits,
    workers: u32,
    ghost in_range: { InRange limits },
    ghost crew: { IsCrewSize workers },
    ghost few: { length items.now < 2 ^ 32 },
    ghost trees: { All (λ i. trees_of i < 2 ^ 32) items.now },
}

impl<X> Use<(), (), X> for Items<'_> {
    ghost use Rattle.std.specs.Prelude.{map, IfOk};
    ghost use Rattle.packed_items.specs.Answers.{limits_in};
    ghost use Rattle.profile_reports.specs.ItemsViews.{item_kept};
    ghost use Rattle.profile_batch.specs.Results.{AreResultsOrGaps};

    type Out = Result<Vec<ItemResult>, NoMemory>;

    ghost Gives = { λ job g speech a b c d x y out. IfOk out (λ results. AreResultsOrGaps speech (limits_in job.limits) job.limits.lexical (map item_kept job.items.now) results.items) };

    fn allocator(&self) -> Global {
        self.alloc
    }

    fn run<Rt: Threads + Wait + Sync>(
        &self,
        rt: &Rt,
        engine: &Engine<'_, '_, '_>,
        _a: &mut (),
        _b: &mut (),
        _c: &mut X,
        gate: &dyn Gate,
    ) -> Result<Vec<ItemResult>, NoMemory> {
        let judge = Judge {
            engine: *engine,
            limits: self.limits,
            desks: Desks::new(self.alloc, 1),
        };
        judge_all(rt, self.alloc, judge, self.items, self.workers, gate)
    }
}

/// What is found of each of these items, in their order, by what the grammar gives for its sentence within these limits. So many workers
/// draw the items, and each tells the gate its number and the item's place, from 0, before it begins it. Neither changes a result. An item
/// for which memory is wanting is told to be so, and the others have their results; where others were at work beside it, it was judged once
/// more by one worker alone. `NoMemory` comes where there is no engine, or no room for the results.
pub fn batch<Rt: Threads + Wait + Sync>(
    rt: &Rt,
    alloc: Global,
    grammar: &Grammar,
    items: &[ProfileItem],
    limits: &Limits,
    workers: u32,
    gate: &dyn Gate,
) -> Result<Vec<ItemResult>, NoMemory>
    requires loaded { IsLoaded (grammar_of grammar.now) }
    requires whole { IsWhole grammar.now.book }
    requires fits { IsWellNamed (grammar_of grammar.now) }
    requires limits { InRange limits.now }
    requires workers { IsCrewSize workers }
    requires few { length items.now < 2 ^ 32 }
    requires trees { All (λ i. trees_of i < 2 ^ 32) items.now }
    ensures { IfOk result (λ results. (speech : Speech) × IsSpeechOf (grammar_of grammar.now) speech
        × AreResultsOrGaps speech (limits_in limits.now) limits.now.lexical (map item_kept items.now) results.items) }
{
    let job = Items {
        alloc,
        items,
        limits: *limits,
        workers,
    };
    let mut none = ();
    let mut nothing = ();
    let mut no_more = ();
    match with_engine(
        rt,
        grammar,
        &job,
        &mut none,
        &mut nothing,
        &mut no_more,
        gate,
    ) {
        Ok(results) => results,
        Err(_) => Err(NoMemory),
    }
}

// The report, with items that are told to lack memory where there are such.
fn told(found: ProfileReport, lacking: bool) -> ItemsReport
    ensures { result ≡ told_as found lacking }
{
    if lacking {
        return ItemsReport::WithGaps(found.lines);
    }
    ItemsReport::AllAnswered(Report {
        lines: found.lines,
        refused: found.refused,
    })
}

// The report on the items of a text, by a grammar.
fn report_with<Rt: Threads + Wait + Sync>(
    rt: &Rt,
    alloc: Global,
    batch_of: &Batch<'_>,
    grammar: &Grammar,
    text: &[u8],
    gate: &dyn Gate,
) -> Result<ItemsReport, NoMemory>
    requires loaded { IsLoaded (grammar_of grammar.now) }
    requires whole { IsWhole grammar.now.book }
    requires fits { IsWellNamed (grammar_of grammar.now) }
    requires few { length text.now < 2 ^ 31 }
    ensures { IfOk result (λ r. (speech : Speech) × IsSpeechOf (grammar_of grammar.now) speech
        × IsToldOf speech (limits_in batch_of.now.limits) batch_of.now.limits.lexical (items_of text.now) r) }
{
    let items = profile(alloc, text)?;
    let results = batch(
        rt,
        alloc,
        grammar,
        &items,
        &batch_of.limits,
        batch_of.workers,
        gate,
    )?;
    let found = report_on(alloc, &items, &results)?;
    Ok(told(found, some_lacking(&results)))
}

/// The report of `batch`, with items that are told to lack memory where there are such, or the first fault of its files: the grammar's, and then the profile's.
pub(crate) fn report_of<S: Shelf, Rt: Threads + Wait + Sync>(
    rt: &Rt,
    alloc: Global,
    command: &Batch<'_>,
    shelf: &mut S,
    gate: &dyn Gate,
) -> Result<ItemsReport, Fault>
    ensures { MadeOfItems (batch_meaning command.now.grammar.now (option_map (λ s. s.now) command.now.settings) command.now.verbose command.now.profile.now (limits_in command.now.limits) command.now.limits.lexical)
        (shelves S.files S.faults S.asked shelf.old shelf.new) result }
{
    whole_book();
    loaded_names();
    late_text();
    let grammar = load_grammar(
        alloc,
        shelf,
        command.grammar,
        command.settings,
        command.verbose,
    )?;
    let text = load_text(alloc, shelf, command.profile, command.verbose)?;
    match report_with(rt, alloc, command, &grammar, &text, gate) {
        Ok(report) => Ok(report),
        Err(_) => Err(Fault::Stopped(Stop::NoMemory)),
    }
}
