//! The command `parse`: each line of the input is answered by the trees that a grammar licenses for it.

ghost use Rattle.std.specs.Prelude.{◌≡◌, option_map};
ghost use Rattle.chart_core.specs.Kept.{InRange};
ghost use Rattle.chart_workers.specs.Crews.{IsCrewSize};
ghost use Rattle.book_signs.specs.Conditions.{IsWhole};
ghost use Rattle.grammar_load.specs.Conditions.{IsLoaded};
ghost use Rattle.grammar_load.specs.Views.{grammar_of};
ghost use Rattle.mrs_lines.specs.Fitting.{IsWellNamed};
ghost use Rattle.endings.specs.Meanings.{Shelves, shelves};
ghost use Rattle.endings.specs.Reports.{output, streams};
ghost use Rattle.endings.specs.Endings.{Ended};
ghost use Rattle.endings.specs.Notes.{IsNoted};
ghost use Rattle.command_files.specs.Grammars.{HasGrammar};
ghost use Rattle.line_commands.specs.Parsing.{parse_meaning};
ghost use Rattle.line_commands.specs.Views.{asked_with};

use crate::answering::Parser;
use book_signs::laws::whole_book;
use chart_core::Limits;
use command_files::load_grammar;
use endings::lines::serve_noted;
use endings::pieces::flush_at_stop;
use endings::{Fault, Stop};
use engine::desks::Desks;
use engine::{Engine, Use, with_engine};
use grammar_load::Grammar;
use lkb_io::{Shelf, Sink, Source};
use mrs_lines::{MrsMemory, loaded_names};
use std::alloc::Global;
use std::sync::Wait;
use std::thread::Threads;
use worker_gate::Gate;

/// `parse`: the answers to lines, with the grammar of this name under the settings of the file of that name.
#[derive(Clone, Copy)]
pub struct Parse<'a> {
    /// The allocator from which memory is taken.
    pub alloc: Global,
    pub grammar: &'a str,
    pub settings: Option<&'a str>,
    /// The limits, each in its range.
    pub limits: Limits,
    /// How many workers share the lines, 1 to 64. It changes no answer.
    pub workers: u32,
    /// Whether each line writes a lattice of words.
    pub lattice: bool,
    /// Whether each tree is followed by its MRS.
    pub mrs: bool,
    /// Whether more is told of a fault of its files, and the unknown words of lines without a tree are noted.
    pub verbose: bool,
}

// What `parse` does with an engine: it answers the lines of a source to a sink.
#[derive(Drop)]
struct Serving {
    alloc: Global,
    limits: Limits,
    workers: u32,
    lattice: bool,
    mrs: bool,
    verbose: bool,
    ghost in_range: { InRange limits },
    ghost crew: { IsCrewSize workers },
}

impl<I: Source, O: Sink, X: Sink> Use<I, O, X> for Serving {
    ghost use Rattle.endings.specs.Reports.{output, streams};
    ghost use Rattle.line_commands.specs.Views.{asked_with};
    ghost use Rattle.line_commands.specs.Inner.Parsers.{IsParsedBy};

    type Out = Result<bool, Stop>;

    ghost Gives = { λ job grammar speech input_old input_new out_old out_new err_old err_new end. IsParsedBy speech (asked_with job.limits job.lattice job.mrs) job.verbose
        (streams I.left I.faults O.written O.flushed O.faults input_old input_new out_old out_new) (output X.written X.flushed X.faults err_old err_new) end };

    fn allocator(&self) -> Global {
        self.alloc
    }

    fn run<Rt: Threads + Wait + Sync>(
        &self,
        rt: &Rt,
        engine: &Engine<'_, '_, '_>,
        a: &mut I,
        b: &mut O,
        c: &mut X,
        gate: &dyn Gate,
    ) -> Result<bool, Stop> {
        let Ok(lines) = MrsMemory::new(self.alloc, engine.signs, engine.paths) else {
            flush_at_stop(b);
            return Err(Stop::NoMemory);
        };
        let parser = Parser {
            engine: *engine,
            limits: self.limits,
            lattice: self.lattice,
            mrs: self.mrs,
            verbose: self.verbose,
            desks: Desks::new(self.alloc, self.workers),
            lines,
        };
        serve_noted(rt, self.alloc, &parser, a, b, c, gate)
    }
}

// Answers all lines of the source with a grammar.
fn parse_with<I: Source, O: Sink, X: Sink, Rt: Threads + Wait + Sync>(
    rt: &Rt,
    command: &Parse<'_>,
    grammar: &Grammar,
    input: &mut I,
    out: &mut O,
    err: &mut X,
    gate: &dyn Gate,
) -> Result<bool, Fault>
    requires limits { InRange command.now.limits }
    requires workers { IsCrewSize command.now.workers }
    requires loaded { IsLoaded (grammar_of grammar.now) }
    requires fits { IsWellNamed (grammar_of grammar.now) }
    requires whole { IsWhole grammar.now.book }
    ensures ended { (h : Shelves) → HasGrammar h.files command.now.grammar.now (option_map (λ s. s.now) command.now.settings) (grammar_of grammar.now)
        → Ended (parse_meaning command.now.grammar.now (option_map (λ s. s.now) command.now.settings) command.now.verbose (asked_with command.now.limits command.now.lattice command.now.mrs)) h
        (streams I.left I.faults O.written O.flushed O.faults input.old input.new out.old out.new) (input.new ≡ input.old) ((input.new ≡ input.old) × (out.new ≡ out.old)) result }
    ensures noted { (h : Shelves) → HasGrammar h.files command.now.grammar.now (option_map (λ s. s.now) command.now.settings) (grammar_of grammar.now)
        → IsNoted (parse_meaning command.now.grammar.now (option_map (λ s. s.now) command.now.settings) command.now.verbose (asked_with command.now.limits command.now.lattice command.now.mrs)) h.files
        (I.left input.old) (I.left input.new) (output X.written X.flushed X.faults err.old err.new) result }
{
    let job = Serving {
        alloc: command.alloc,
        limits: command.limits,
        workers: command.workers,
        lattice: command.lattice,
        mrs: command.mrs,
        verbose: command.verbose,
    };
    match with_engine(rt, grammar, &job, input, out, err, gate) {
        Ok(Ok(refused)) => Ok(refused),
        Ok(Err(stop)) => Err(Fault::Stopped(stop)),
        Err(_) => Err(Fault::Stopped(Stop::NoMemory)),
    }
}

/// `parse`: loads the grammar, and answers all lines of the source. `Ok` tells whether a line was refused. The order is: the
/// grammar, then line by line: read, answer, write. The notes on lines are told on `err`, where they are asked for.
pub fn parse_lines<S: Shelf, I: Source, O: Sink, X: Sink, Rt: Threads + Wait + Sync>(
    rt: &Rt,
    command: &Parse<'_>,
    shelf: &mut S,
    input: &mut I,
    out: &mut O,
    err: &mut X,
    gate: &dyn Gate,
) -> Result<bool, Fault>
    requires limits { InRange command.now.limits }
    requires workers { IsCrewSize command.now.workers }
    ensures ended { Ended (parse_meaning command.now.grammar.now (option_map (λ s. s.now) command.now.settings) command.now.verbose (asked_with command.now.limits command.now.lattice command.now.mrs)) (shelves S.files S.faults S.asked shelf.old shelf.new)
        (streams I.left I.faults O.written O.flushed O.faults input.old input.new out.old out.new) (input.new ≡ input.old) ((input.new ≡ input.old) × (out.new ≡ out.old)) result }
    ensures noted { IsNoted (parse_meaning command.now.grammar.now (option_map (λ s. s.now) command.now.settings) command.now.verbose (asked_with command.now.limits command.now.lattice command.now.mrs)) (S.files shelf.old)
        (I.left input.old) (I.left input.new) (output X.written X.flushed X.faults err.old err.new) result }
{
    whole_book();
    loaded_names();
    let grammar = load_grammar(
        command.alloc,
        shelf,
        command.grammar,
        command.settings,
        command.verbose,
    )?;
    parse_with(rt, command, &grammar, input, out, err, gate)
}
