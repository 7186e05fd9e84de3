//! A workload is parsed with its grammar.

ghost use Rattle.std.specs.Prelude.{◌≡◌, None, map, IfOk, IfErr};
ghost use Rattle.book_signs.specs.Conditions.{IsWhole};
ghost use Rattle.packed_items.specs.Answers.{limits_in};
ghost use Rattle.grammar_load.specs.Conditions.{IsLoaded};
ghost use Rattle.grammar_load.specs.Views.{grammar_of};
ghost use Rattle.mrs_lines.specs.Fitting.{IsWellNamed};
ghost use Rattle.command_files.specs.Grammars.{HasGrammar};
ghost use Rattle.endings.specs.Meanings.{Shelves};
ghost use Rattle.endings.specs.Endings.{MadeOfItems};
ghost use Rattle.self_tests.specs.Made.{file_of, files as workload_files_made};
ghost use Rattle.self_tests.specs.Lines.{lines as workload_lines};
ghost use Rattle.engine.specs.Speeches.{Speech, IsSpeechOf};
ghost use Rattle.self_tests.specs.SelfTests.{shelved, workload_files, workload_name, self_test_meaning};
ghost use Rattle.self_tests.specs.Inner.Counts.{AreCountedWith, IsSummedSo, IsWorkloadFault};

use crate::counting::Counting;
use crate::summing::report_on;
use crate::{Count, NoMemory, SelfTest, WorkFile, Workload, make};
use book_signs::laws::whole_book;
use command_files::grammar_laws::grammar_laws;
use command_files::load_grammar;
use endings::commands::ItemsReport;
use endings::{Fault, Stop};
use engine::with_engine;
use grammar_load::Grammar;
use lkb_io::{ShelfFile, WholeShelf};
use mrs_lines::loaded_names;
use std::alloc::Global;
use std::sync::Wait;
use std::thread::Threads;
use worker_gate::Gate;

// A shelf of the files of a workload.
fn shelf_of(alloc: Global, files: Vec<WorkFile>) -> Result<WholeShelf, NoMemory>
    ensures { IfOk result (λ s. s ≡ map shelved (map file_of files.items)) }
{
    let mut shelf = Vec::with_capacity(alloc, files.len())?;
    for file in files {
        let WorkFile { name, text } = file;
        shelf.push(ShelfFile { name, text })?;
    }
    Ok(WholeShelf::new(shelf))
}

// The grammar that the file of a workload loads to, or its first fault.
fn load_workload(alloc: Global, files: Vec<WorkFile>) -> Result<Grammar, Fault>
    requires { map file_of files.items ≡ workload_files_made }
    ensures grammar { IfOk result (λ g. HasGrammar workload_files workload_name None (grammar_of g)) }
    ensures loaded { IfOk result (λ g. IsLoaded (grammar_of g)) }
    ensures fault { IfErr result IsWorkloadFault }
{
    grammar_laws();
    let Ok(mut shelf) = shelf_of(alloc, files) else {
        return Err(Fault::Stopped(Stop::NoMemory));
    };
    load_grammar(alloc, &mut shelf, "g.tdl", None, false)
}

// What is counted of the answers to the lines of a workload, by a grammar.
fn count_with<Rt: Threads + Wait + Sync>(
    rt: &Rt,
    alloc: Global,
    test: &SelfTest,
    grammar: &Grammar,
    lines: &[Vec<u8>],
    gate: &dyn Gate,
) -> Result<Vec<Count>, NoMemory>
    requires loaded { IsLoaded (grammar_of grammar.now) }
    requires whole { IsWhole grammar.now.book }
    requires fits { IsWellNamed (grammar_of grammar.now) }
    requires lines { map (λ l. l.items) lines.now ≡ workload_lines test.now.number test.now.size }
    ensures { IfOk result (λ counts. AreCountedWith (grammar_of grammar.now) (limits_in test.now.limits) test.now.limits.lexical (workload_lines test.now.number test.now.size) counts.items) }
{
    let job = Counting { alloc, test, lines };
    let mut nothing = ();
    let mut no_more = ();
    let mut none = ();
    with_engine(
        rt,
        grammar,
        &job,
        &mut nothing,
        &mut no_more,
        &mut none,
        gate,
    )?
}

// The report on the lines of a workload, by its grammar.
fn report_with<Rt: Threads + Wait + Sync>(
    rt: &Rt,
    alloc: Global,
    test: &SelfTest,
    grammar: &Grammar,
    lines: &[Vec<u8>],
    gate: &dyn Gate,
) -> Result<ItemsReport, NoMemory>
    requires grammar { HasGrammar workload_files workload_name None (grammar_of grammar.now) }
    requires loaded { IsLoaded (grammar_of grammar.now) }
    requires lines { map (λ l. l.items) lines.now ≡ workload_lines test.now.number test.now.size }
    ensures { IfOk result (λ r. (speech : Speech) × IsSpeechOf (grammar_of grammar.now) speech
        × IsSummedSo speech (limits_in test.now.limits) test.now.limits.lexical test.now.number test.now.size r) }
{
    whole_book();
    loaded_names();
    let counts = count_with(rt, alloc, test, grammar, lines, gate)?;
    report_on(alloc, test.number, test.size, &counts)
}

/// The report of `self-test`: the summary of a workload's items, after those that are told to lack memory, or the first fault of its file.
pub(crate) fn report_of<Rt: Threads + Wait + Sync>(
    rt: &Rt,
    alloc: Global,
    test: &SelfTest,
    gate: &dyn Gate,
) -> Result<ItemsReport, Fault>
    ensures { (h : Shelves) → MadeOfItems (self_test_meaning test.now.number test.now.size (limits_in test.now.limits) test.now.limits.lexical) h result }
{
    let Ok(workload) = make(alloc, test.number, test.size) else {
        return Err(Fault::Stopped(Stop::NoMemory));
    };
    let Workload { files, lines } = workload;
    match load_workload(alloc, files) {
        Err(fault) => Err(fault),
        Ok(grammar) => match report_with(rt, alloc, test, &grammar, &lines, gate) {
            Ok(report) => Ok(report),
            Err(_) => Err(Fault::Stopped(Stop::NoMemory)),
        },
    }
}
