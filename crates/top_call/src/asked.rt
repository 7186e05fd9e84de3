//! What the words of the command line ask for, as a command. A command is one arm of `do_task`.
ghost use Rattle.std.specs.Prelude.{◌≡◌, ◌⊎◌, [], IfOk, IfErr, map, string_bytes, false};
ghost use Rattle.chart_core.specs.Kept.{InRange};
ghost use Rattle.chart_workers.specs.Crews.{IsCrewSize};
ghost use Rattle.command_line.specs.Commands.{form, options_in, task as task_in};
ghost use Rattle.command_line.specs.Words.{IsForm, AreWithin, IsWithin, in_range};
ghost use Rattle.command_line.specs.declared.reading.WordsFault.{WordsFault};
ghost use Rattle.command_line.specs.declared.tasks.Command.{Command};
ghost use Rattle.endings.specs.Meanings.{shelves};
ghost use Rattle.endings.specs.Reports.{output, streams};
ghost use Rattle.endings.specs.Endings.{Ended};
ghost use Rattle.endings.specs.Notes.{IsNoted};
ghost use Rattle.generate_commands.specs.Views.{bounds_with};
ghost use Rattle.line_commands.specs.Views.{asked_with};
ghost use Rattle.top_call.specs.Commands.{IsInRange, IsSized, meaning_of, asked_of, bounds_of, version_line};
ghost use Rattle.top_call.specs.Runs.{IsFormless, IsOfWords};
ghost use Rattle.command_line.specs.Faults.{IsText};

use crate::help::{help_text, text_on};
use crate::laws::built_lawful;
use chart_core::Limits;
use command_line::laws::{numbers_are_within, one_form};
use command_line::{Command, Options, Task, WordsFault, command_of, word_fault};
use endings::commands::{write_items, write_whole};
use endings::plain::Plain;
use endings::{Fault, Stop};
use generate_commands::{Generate, generate_lines};
use grammar_commands::{Check, Expand, Types};
use line_commands::{Chart, Explain, Parse, chart_lines, explain_lines, parse_lines};
use lkb_io::{Shelf, Sink, Source};
use profile_batch::Batch;
use scope_commands::{Scoper, scope_lines};
use self_tests::SelfTest;
use std::alloc::Global;
use std::sync::Wait;
use std::thread::Threads;
use transfer_commands::{Transfer, transfer_lines};
use worker_gate::Gate;

/// The version and its line end.
pub fn version_text() -> &'static [u8]
    ensures { result.now ≡ version_line }
{
    b"lkb 0.1.0\n"
}

/// What the words ask for, as a command. Its numbers are in their ranges.
#[derive(Clone, Copy, Debug)]
pub struct Asked<'a> {
    /// The allocator from which memory is taken.
    pub alloc: Global,
    pub command: Command<'a>,
    ghost within: { IsInRange (form command) },
}

impl endings::Command for Asked<'_> {
    ghost use Rattle.command_line.specs.Commands.{form};
    ghost use Rattle.top_call.specs.Commands.{meaning_of};

    ghost meaning = { λ a. meaning_of (form a.command) };

    fn lawful(&self) {
        built_lawful();
    }

    fn perform<S: Shelf, I: Source, O: Sink, X: Sink, Rt: Threads + Wait + Sync>(
        &self,
        rt: &Rt,
        shelf: &mut S,
        input: &mut I,
        out: &mut O,
        err: &mut X,
        gate: &dyn Gate,
    ) -> Result<bool, Fault> {
        match self.command {
            Command::Help => {
                let text = help_text();
                (Plain { text }).perform(rt, shelf, input, out, err, gate)
            }
            Command::HelpOn(command) => {
                let text = text_on(command);
                (Plain { text }).perform(rt, shelf, input, out, err, gate)
            }
            Command::Version => {
                let text = version_text();
                (Plain { text }).perform(rt, shelf, input, out, err, gate)
            }
            Command::Run(task, options) => {
                let order = Order {
                    alloc: self.alloc,
                    task,
                    options,
                };
                do_task(rt, &order, shelf, input, out, err, gate)
            }
        }
    }
}

// The limits that the options set.
fn limits_of(options: &Options) -> Limits
    requires { AreWithin (options_in options.now) }
    ensures range { InRange result }
    ensures asked { asked_with result options.now.lattice options.now.mrs ≡ asked_of (options_in options.now) }
    ensures bounds { bounds_with result ≡ bounds_of (options_in options.now) }
{
    Limits {
        edges: options.edges as u32,
        readings: options.readings as u32,
        lexical: options.lexical as u32,
        unary: options.unary as u32,
        empty: options.empty as u32,
    }
}

// The most readings of an MRS that the options ask for.
fn readings_of(options: &Options) -> u32
    requires { AreWithin (options_in options.now) }
    ensures { result ≡ (options_in options.now).readings }
{
    options.readings as u32
}

// How many workers the options ask for.
fn workers_of(options: &Options) -> u32
    requires { AreWithin (options_in options.now) }
    ensures { IsCrewSize result }
{
    options.workers as u32
}

// How many lines a workload has, where that is in its range.
fn size_of(size: u64) -> u32
    requires { IsWithin (in_range 1 1000) size }
    ensures { result ≡ size }
{
    size as u32
}

// A task, the options under which it is done, and the allocator from which it takes memory.
#[derive(Clone, Copy)]
struct Order<'a> {
    alloc: Global,
    task: Task<'a>,
    options: Options<'a>,
}

// Does a task under its options. A command is one arm.
fn do_task<S: Shelf, I: Source, O: Sink, X: Sink, Rt: Threads + Wait + Sync>(
    rt: &Rt,
    order: &Order<'_>,
    shelf: &mut S,
    input: &mut I,
    out: &mut O,
    err: &mut X,
    gate: &dyn Gate,
) -> Result<bool, Fault>
    requires within { AreWithin (options_in order.now.options) }
    requires sized { IsSized (task_in order.now.task) }
    ensures ended { Ended (meaning_of (form (Command.Run order.now.task order.now.options))) (shelves S.files S.faults S.asked shelf.old shelf.new) (streams I.left I.faults O.written O.flushed O.faults input.old input.new out.old out.new)
        (input.new ≡ input.old) ((input.new ≡ input.old) × (out.new ≡ out.old)) result }
    ensures noted { IsNoted (meaning_of (form (Command.Run order.now.task order.now.options))) (S.files shelf.old) (I.left input.old) (I.left input.new) (output X.written X.flushed X.faults err.old err.new) result }
    ensures unopened { (meaning_of (form (Command.Run order.now.task order.now.options))).opens ≡ false → shelf.new ≡ shelf.old }
{
    let alloc = order.alloc;
    let task = order.task;
    let options = order.options;
    let settings = options.settings;
    let mrs = options.mrs;
    let verbose = options.verbose;
    match task {
        Task::Parse(grammar) => {
            let command = Parse {
                alloc,
                grammar,
                settings,
                limits: limits_of(&options),
                workers: workers_of(&options),
                lattice: options.lattice,
                mrs,
                verbose,
            };
            parse_lines(rt, &command, shelf, input, out, err, gate)
        }
        Task::Chart(grammar) => {
            let command = Chart {
                alloc,
                grammar,
                settings,
                limits: limits_of(&options),
                workers: workers_of(&options),
                lattice: options.lattice,
                verbose,
            };
            chart_lines(rt, &command, shelf, input, out, gate)
        }
        Task::Explain(grammar) => {
            let command = Explain {
                alloc,
                grammar,
                settings,
                workers: workers_of(&options),
                mrs,
                verbose,
            };
            explain_lines(rt, &command, shelf, input, out, gate)
        }
        Task::Generate(grammar) => {
            let command = Generate {
                alloc,
                grammar,
                settings,
                limits: limits_of(&options),
                workers: workers_of(&options),
                verbose,
            };
            generate_lines(rt, &command, shelf, input, out, gate)
        }
        Task::Types(grammar) => {
            let command = Types {
                grammar,
                settings,
                verbose,
            };
            write_whole(alloc, &command, shelf, input, out)
        }
        Task::Expand(grammar, entry) => {
            let command = Expand {
                grammar,
                entry,
                settings,
                verbose,
            };
            write_whole(alloc, &command, shelf, input, out)
        }
        Task::Check(grammar) => {
            let command = Check {
                grammar,
                settings,
                verbose,
            };
            write_whole(alloc, &command, shelf, input, out)
        }
        Task::SelfTest(number, size) => {
            let command = SelfTest {
                number,
                size: size_of(size),
                limits: limits_of(&options),
                workers: workers_of(&options),
            };
            write_items(rt, alloc, &command, shelf, input, out, gate)
        }
        Task::Scope => {
            let scoper = Scoper {
                max: readings_of(&options),
                workers: workers_of(&options),
            };
            scope_lines(rt, alloc, &scoper, input, out, gate)
        }
        Task::Batch(grammar, profile) => {
            let command = Batch {
                grammar,
                settings,
                profile,
                limits: limits_of(&options),
                workers: workers_of(&options),
                verbose,
            };
            write_items(rt, alloc, &command, shelf, input, out, gate)
        }
        Task::Transfer(rules) => {
            let command = Transfer {
                rules,
                settings,
                workers: workers_of(&options),
                verbose,
            };
            transfer_lines(rt, alloc, &command, shelf, input, out, gate)
        }
    }
}

/// What these words ask for.
pub fn asked_by(alloc: Global, words: &[String]) -> Result<Asked<'_>, WordsFault>
    ensures ok { IfOk result (λ a. IsForm (map (λ w. string_bytes w) words.now) (form a.command)) }
    ensures usage { IfErr result (λ e. e ≡ WordsFault.Usage → IsFormless (map (λ w. string_bytes w) words.now)) }
{
    one_form();
    numbers_are_within();
    match command_of(alloc, words) {
        Err(fault) => Err(fault),
        Ok(command) => Ok(Asked { alloc, command }),
    }
}

// What is told of words of no form: nothing, where memory is wanting for it.
fn told_of(alloc: Global, words: &[String]) -> Vec<u8>
    ensures { IsText (map (λ w. string_bytes w) words.now) result.items ⊎ (result.items ≡ []) }
{
    match word_fault(alloc, words) {
        Ok(text) => text,
        Err(_) => Vec::new(alloc),
    }
}

/// What a fault of these words is to the program.
pub fn fault_of(alloc: Global, fault: WordsFault, words: &[String]) -> Fault
    ensures { (fault ≡ WordsFault.Usage → IsFormless (map (λ w. string_bytes w) words.now)) → IsOfWords (map (λ w. string_bytes w) words.now) result }
{
    match fault {
        WordsFault::Usage => Fault::Usage(told_of(alloc, words)),
        WordsFault::NoMemory => Fault::Stopped(Stop::NoMemory),
    }
}
