//! The command `chart`: each line of the input is answered by the packed forest that a grammar has for it.

ghost use Rattle.std.specs.Prelude.{◌≡◌, option_map};
ghost use Rattle.chart_core.specs.Kept.{InRange};
ghost use Rattle.chart_workers.specs.Crews.{IsCrewSize};
ghost use Rattle.packed_items.specs.Answers.{limits_in};
ghost use Rattle.book_signs.specs.Conditions.{IsWhole};
ghost use Rattle.grammar_load.specs.Conditions.{IsLoaded};
ghost use Rattle.grammar_load.specs.Views.{grammar_of};
ghost use Rattle.mrs_lines.specs.Fitting.{IsWellNamed};
ghost use Rattle.endings.specs.Meanings.{Shelves, shelves};
ghost use Rattle.endings.specs.Reports.{streams};
ghost use Rattle.endings.specs.Endings.{Ended};
ghost use Rattle.command_files.specs.Grammars.{HasGrammar};
ghost use Rattle.line_commands.specs.Charting.{chart_meaning};

use crate::charter::Charter;
use book_signs::laws::whole_book;
use chart_core::Limits;
use command_files::load_grammar;
use endings::lines::serve;
use endings::{Fault, Stop};
use engine::desks::Desks;
use engine::{Engine, Use, with_engine};
use grammar_load::Grammar;
use lkb_io::{Shelf, Sink, Source};
use mrs_lines::loaded_names;
use std::alloc::Global;
use std::sync::Wait;
use std::thread::Threads;
use worker_gate::Gate;

/// `chart`: the packed forests of lines, with the grammar of this name under the settings of the file of that name.
#[derive(Clone, Copy)]
pub struct Chart<'a> {
    /// The allocator from which memory is taken.
    pub alloc: Global,
    pub grammar: &'a str,
    pub settings: Option<&'a str>,
    /// The limits, each in its range. Nothing is unpacked, so that the limit on readings is never broken.
    pub limits: Limits,
    /// How many workers share the lines, 1 to 64. It changes no answer.
    pub workers: u32,
    /// Whether each line writes a lattice of words.
    pub lattice: bool,
    /// Whether more is told of a fault of its files.
    pub verbose: bool,
}

// What `chart` does with an engine: it answers the lines of a source to a sink.
#[derive(Drop)]
struct Charting {
    alloc: Global,
    limits: Limits,
    workers: u32,
    lattice: bool,
    ghost in_range: { InRange limits },
    ghost crew: { IsCrewSize workers },
}

impl<I: Source, O: Sink, X> Use<I, O, X> for Charting {
    ghost use Rattle.type_hierarchy.specs.Decls.{texts};
    ghost use Rattle.packed_items.specs.Answers.{limits_in};
    ghost use Rattle.endings.specs.Reports.{AreAnswers, OrNoMemory, Served, streams};
    ghost use Rattle.line_commands.specs.Charting.{IsChartLine};

    type Out = Result<bool, Stop>;

    ghost Gives = { λ job g speech input_old input_new out_old out_new none nothing end. Served (AreAnswers (IsChartLine g.book.system.types (texts g.book.feats.items) speech (limits_in job.limits) job.limits.lexical job.lattice) 1)
        (AreAnswers (OrNoMemory (IsChartLine g.book.system.types (texts g.book.feats.items) speech (limits_in job.limits) job.limits.lexical job.lattice)) 1)
        (streams I.left I.faults O.written O.flushed O.faults input_old input_new out_old out_new) end };

    fn allocator(&self) -> Global {
        self.alloc
    }

    fn run<Rt: Threads + Wait + Sync>(
        &self,
        rt: &Rt,
        engine: &Engine<'_, '_, '_>,
        a: &mut I,
        b: &mut O,
        _c: &mut X,
        gate: &dyn Gate,
    ) -> Result<bool, Stop> {
        let charter = Charter {
            engine: *engine,
            limits: self.limits,
            lattice: self.lattice,
            desks: Desks::new(self.alloc, self.workers),
        };
        serve(rt, self.alloc, &charter, a, b, gate)
    }
}

// Answers all lines of the source with a grammar.
fn chart_with<I: Source, O: Sink, Rt: Threads + Wait + Sync>(
    rt: &Rt,
    command: &Chart<'_>,
    grammar: &Grammar,
    input: &mut I,
    out: &mut O,
    gate: &dyn Gate,
) -> Result<bool, Fault>
    requires limits { InRange command.now.limits }
    requires workers { IsCrewSize command.now.workers }
    requires loaded { IsLoaded (grammar_of grammar.now) }
    requires fits { IsWellNamed (grammar_of grammar.now) }
    requires whole { IsWhole grammar.now.book }
    ensures { (h : Shelves) → HasGrammar h.files command.now.grammar.now (option_map (λ s. s.now) command.now.settings) (grammar_of grammar.now)
        → Ended (chart_meaning command.now.grammar.now (option_map (λ s. s.now) command.now.settings) command.now.verbose (limits_in command.now.limits) command.now.limits.lexical command.now.lattice) h
        (streams I.left I.faults O.written O.flushed O.faults input.old input.new out.old out.new) (input.new ≡ input.old) ((input.new ≡ input.old) × (out.new ≡ out.old)) result }
{
    let job = Charting {
        alloc: command.alloc,
        limits: command.limits,
        workers: command.workers,
        lattice: command.lattice,
    };
    let mut nothing = ();
    match with_engine(rt, grammar, &job, input, out, &mut nothing, gate) {
        Ok(Ok(refused)) => Ok(refused),
        Ok(Err(stop)) => Err(Fault::Stopped(stop)),
        Err(_) => Err(Fault::Stopped(Stop::NoMemory)),
    }
}

/// `chart`: loads the grammar, and answers all lines of the source. `Ok` tells whether a line was refused. The order is: the
/// grammar, then line by line: read, answer, write.
pub fn chart_lines<S: Shelf, I: Source, O: Sink, Rt: Threads + Wait + Sync>(
    rt: &Rt,
    command: &Chart<'_>,
    shelf: &mut S,
    input: &mut I,
    out: &mut O,
    gate: &dyn Gate,
) -> Result<bool, Fault>
    requires limits { InRange command.now.limits }
    requires workers { IsCrewSize command.now.workers }
    ensures { Ended (chart_meaning command.now.grammar.now (option_map (λ s. s.now) command.now.settings) command.now.verbose (limits_in command.now.limits) command.now.limits.lexical command.now.lattice) (shelves S.files S.faults S.asked shelf.old shelf.new)
        (streams I.left I.faults O.written O.flushed O.faults input.old input.new out.old out.new) (input.new ≡ input.old) ((input.new ≡ input.old) × (out.new ≡ out.old)) result }
{
    whole_book();
    loaded_names();
    let grammar = load_grammar(
        command.alloc,
        shelf,
        command.grammar,
        command.settings,
        command.verbose,
    )?;
    chart_with(rt, command, &grammar, input, out, gate)
}
