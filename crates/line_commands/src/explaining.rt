//! The command `explain`: of the tree that each line of the input writes it is told whether a grammar licenses it, and if not, why not.

ghost use Rattle.std.specs.Prelude.{◌≡◌, option_map};
ghost use Rattle.chart_workers.specs.Crews.{IsCrewSize};
ghost use Rattle.book_signs.specs.Conditions.{IsWhole};
ghost use Rattle.grammar_load.specs.Conditions.{IsLoaded};
ghost use Rattle.grammar_load.specs.Views.{grammar_of};
ghost use Rattle.mrs_lines.specs.Fitting.{IsWellNamed};
ghost use Rattle.endings.specs.Meanings.{Shelves, shelves};
ghost use Rattle.endings.specs.Reports.{streams};
ghost use Rattle.endings.specs.Endings.{Ended};
ghost use Rattle.command_files.specs.Grammars.{HasGrammar};
ghost use Rattle.line_commands.specs.Explaining.{explain_meaning};

use crate::explainer::Explainer;
use book_signs::laws::whole_book;
use command_files::load_grammar;
use endings::lines::serve;
use endings::pieces::flush_at_stop;
use endings::{Fault, Stop};
use engine::desks::Desks;
use engine::{Engine, Use, with_engine};
use grammar_load::Grammar;
use lkb_io::{Shelf, Sink, Source};
use mrs_lines::{MrsMemory, loaded_names};
use std::alloc::Global;
use std::sync::Wait;
use std::thread::Threads;
use tree_names::tree_names;
use worker_gate::Gate;

/// `explain`: whether trees are licensed, and if not, why not, by the grammar of this name under the settings of the file of that name.
/// No limit is heeded.
#[derive(Clone, Copy)]
pub struct Explain<'a> {
    /// The allocator from which memory is taken.
    pub alloc: Global,
    pub grammar: &'a str,
    pub settings: Option<&'a str>,
    /// How many workers share the lines, 1 to 64. It changes no answer.
    pub workers: u32,
    /// Whether a licensed tree is followed by its MRS.
    pub mrs: bool,
    /// Whether more is told of a fault of its files.
    pub verbose: bool,
}

// What `explain` does with an engine: it answers the lines of a source to a sink.
#[derive(Drop)]
struct Explaining {
    alloc: Global,
    workers: u32,
    mrs: bool,
    ghost crew: { IsCrewSize workers },
}

impl<I: Source, O: Sink, X> Use<I, O, X> for Explaining {
    ghost use Rattle.type_hierarchy.specs.Decls.{texts};
    ghost use Rattle.endings.specs.Reports.{AreAnswers, OrNoMemory, Served, streams};
    ghost use Rattle.line_commands.specs.Explaining.{IsExplainLine};

    type Out = Result<bool, Stop>;

    ghost Gives = { λ job g speech input_old input_new out_old out_new none nothing end. Served (AreAnswers (IsExplainLine g.book.system.types (texts g.book.feats.items) speech job.mrs) 1)
        (AreAnswers (OrNoMemory (IsExplainLine g.book.system.types (texts g.book.feats.items) speech job.mrs)) 1)
        (streams I.left I.faults O.written O.flushed O.faults input_old input_new out_old out_new) end };

    fn allocator(&self) -> Global {
        self.alloc
    }

    fn run<Rt: Threads + Wait + Sync>(
        &self,
        rt: &Rt,
        engine: &Engine<'_, '_, '_>,
        a: &mut I,
        b: &mut O,
        _c: &mut X,
        gate: &dyn Gate,
    ) -> Result<bool, Stop> {
        let Ok(names) = tree_names(self.alloc, engine.grammar, engine.signs) else {
            flush_at_stop(b);
            return Err(Stop::NoMemory);
        };
        let Ok(lines) = MrsMemory::new(self.alloc, engine.signs, engine.paths) else {
            flush_at_stop(b);
            return Err(Stop::NoMemory);
        };
        let explainer = Explainer {
            engine: *engine,
            names,
            mrs: self.mrs,
            desks: Desks::new(self.alloc, self.workers),
            lines,
        };
        explainer.made();
        serve(rt, self.alloc, &explainer, a, b, gate)
    }
}

// Answers all lines of the source with a grammar.
fn explain_with<I: Source, O: Sink, Rt: Threads + Wait + Sync>(
    rt: &Rt,
    command: &Explain<'_>,
    grammar: &Grammar,
    input: &mut I,
    out: &mut O,
    gate: &dyn Gate,
) -> Result<bool, Fault>
    requires workers { IsCrewSize command.now.workers }
    requires loaded { IsLoaded (grammar_of grammar.now) }
    requires fits { IsWellNamed (grammar_of grammar.now) }
    requires whole { IsWhole grammar.now.book }
    ensures { (h : Shelves) → HasGrammar h.files command.now.grammar.now (option_map (λ s. s.now) command.now.settings) (grammar_of grammar.now)
        → Ended (explain_meaning command.now.grammar.now (option_map (λ s. s.now) command.now.settings) command.now.verbose command.now.mrs) h
        (streams I.left I.faults O.written O.flushed O.faults input.old input.new out.old out.new) (input.new ≡ input.old) ((input.new ≡ input.old) × (out.new ≡ out.old)) result }
{
    let job = Explaining {
        alloc: command.alloc,
        workers: command.workers,
        mrs: command.mrs,
    };
    let mut nothing = ();
    match with_engine(rt, grammar, &job, input, out, &mut nothing, gate) {
        Ok(Ok(refused)) => Ok(refused),
        Ok(Err(stop)) => Err(Fault::Stopped(stop)),
        Err(_) => Err(Fault::Stopped(Stop::NoMemory)),
    }
}

/// `explain`: loads the grammar, and answers all lines of the source. `Ok` tells whether a line was refused, as each is whose tree isn't
/// licensed. The order is: the grammar, then line by line: read, answer, write.
pub fn explain_lines<S: Shelf, I: Source, O: Sink, Rt: Threads + Wait + Sync>(
    rt: &Rt,
    command: &Explain<'_>,
    shelf: &mut S,
    input: &mut I,
    out: &mut O,
    gate: &dyn Gate,
) -> Result<bool, Fault>
    requires workers { IsCrewSize command.now.workers }
    ensures { Ended (explain_meaning command.now.grammar.now (option_map (λ s. s.now) command.now.settings) command.now.verbose command.now.mrs) (shelves S.files S.faults S.asked shelf.old shelf.new)
        (streams I.left I.faults O.written O.flushed O.faults input.old input.new out.old out.new) (input.new ≡ input.old) ((input.new ≡ input.old) × (out.new ≡ out.old)) result }
{
    whole_book();
    loaded_names();
    let grammar = load_grammar(
        command.alloc,
        shelf,
        command.grammar,
        command.settings,
        command.verbose,
    )?;
    explain_with(rt, command, &grammar, input, out, gate)
}
