//! The command `generate`: each line of the input writes an MRS, and is answered by the sentences that realize it with a grammar.

ghost use Rattle.std.specs.Prelude.{◌≡◌, option_map};
ghost use Rattle.chart_core.specs.Kept.{InRange};
ghost use Rattle.chart_workers.specs.Crews.{IsCrewSize};
ghost use Rattle.endings.specs.Meanings.{shelves};
ghost use Rattle.endings.specs.Reports.{streams};
ghost use Rattle.endings.specs.Endings.{Ended};
ghost use Rattle.generate_commands.specs.Generating.{generate_meaning};
ghost use Rattle.generate_commands.specs.Views.{bounds_with};

use crate::using::AllLines;
use book_signs::laws::whole_book;
use chart_core::Limits;
use command_files::load_grammar;
use endings::{Fault, Stop};
use engine::with_engine;
use lkb_io::{Shelf, Sink, Source};
use mrs_lines::loaded_names;
use std::alloc::Global;
use std::sync::Wait;
use std::thread::Threads;
use worker_gate::Gate;

/// `generate`: the answers to lines that write MRSs, with the grammar of this name under the settings of the file of that name.
#[derive(Clone, Copy)]
pub struct Generate<'a> {
    /// The allocator from which memory is taken.
    pub alloc: Global,
    pub grammar: &'a str,
    pub settings: Option<&'a str>,
    /// The limits, each in its range; `empty` is the most empty words of a sentence.
    pub limits: Limits,
    /// How many workers share the lines, 1 to 64. It changes no answer.
    pub workers: u32,
    /// Whether more is told of a fault of its files.
    pub verbose: bool,
}

/// `generate`: loads the grammar, and answers all lines of the source. `Ok` tells whether a line was refused. The order is: the
/// grammar, then line by line: read, answer, write.
pub fn generate_lines<S: Shelf, I: Source, O: Sink, Rt: Threads + Wait + Sync>(
    rt: &Rt,
    command: &Generate<'_>,
    shelf: &mut S,
    input: &mut I,
    out: &mut O,
    gate: &dyn Gate,
) -> Result<bool, Fault>
    requires limits { InRange command.now.limits }
    requires workers { IsCrewSize command.now.workers }
    ensures { Ended (generate_meaning command.now.grammar.now (option_map (λ s. s.now) command.now.settings) command.now.verbose (bounds_with command.now.limits)) (shelves S.files S.faults S.asked shelf.old shelf.new)
        (streams I.left I.faults O.written O.flushed O.faults input.old input.new out.old out.new) (input.new ≡ input.old) ((input.new ≡ input.old) × (out.new ≡ out.old)) result }
{
    whole_book();
    loaded_names();
    let grammar = load_grammar(
        command.alloc,
        shelf,
        command.grammar,
        command.settings,
        command.verbose,
    )?;
    let job = AllLines {
        alloc: command.alloc,
        limits: command.limits,
        workers: command.workers,
    };
    let mut nothing = ();
    match with_engine(rt, &grammar, &job, input, out, &mut nothing, gate) {
        Ok(Ok(refused)) => Ok(refused),
        Ok(Err(stop)) => Err(Fault::Stopped(stop)),
        Err(_) => Err(Fault::Stopped(Stop::NoMemory)),
    }
}
