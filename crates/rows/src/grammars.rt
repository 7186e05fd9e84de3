//! Grammars, and what is made of each once.

ghost use Rattle.std.specs.Prelude.{map, IfOk};
ghost use Rattle.chart_core.specs.Kept.{InRange};
ghost use Rattle.book_signs.specs.Conditions.{IsWhole};
ghost use Rattle.grammar_load.specs.Conditions.{IsLoaded};
ghost use Rattle.grammar_load.specs.Views.{grammar_of};
ghost use Rattle.mrs_lines.specs.Fitting.{IsWellNamed};
ghost use Rattle.mrs_places.specs.Paths.{feature_of, paths_of};
ghost use Rattle.mrs_generate.specs.Contributors.{AreContributors};
ghost use Rattle.engine.specs.Ready.{IsReady};

use crate::asking::add_line;
use book_signs::laws::whole_book;
use chart_core::Limits;
use command_files::load_grammar;
use engine::{Engine, Use, with_engine};
use fs_unify::Scratch;
use grammar_load::Grammar;
use lexical_items::LexicalGrammar;
use lkb_io::Shelf;
use mrs_generate::{Contributors, contributors_of};
use mrs_lines::loaded_names;
use mrs_places::{MrsFeat, c_cont_path};
use rule_trees::SignFulls;
use std::alloc::{AllocError, Global};
use std::sync::Wait;
use std::thread::Threads;
use worker_gate::{Gate, OpenGate};

/// What is asked: an engine, and what its grammar contributes to MRSs. Lines and MRSs share what the engine remembers.
#[derive(Clone, Copy)]
pub struct Ready<'e, 'r, 'k> {
    pub engine: Engine<'e, 'r, 'k>,
    pub contributors: &'e Contributors,
    pub c_cont: &'e [MrsFeat],
    pub limits: Limits,
}

// The limits of the program where no options are.
fn defaults() -> Limits
    ensures { InRange result }
{
    Limits {
        edges: 5_000,
        readings: 10_000,
        lexical: 7,
        unary: 8,
        empty: 4,
    }
}

// The steps of some lines.
#[derive(Clone, Copy)]
struct Steps<'x> {
    alloc: Global,
    text: &'x str,
}

impl<X> Use<Vec<u8>, (), X> for Steps<'_> {
    type Out = Result<(), AllocError>;

    ghost Gives = { λ _ _ _ _ _ _ _ _ _ _. Unit {0} };

    fn allocator(&self) -> Global {
        self.alloc
    }

    fn run<R: Threads + Wait + Sync>(
        &self,
        rt: &R,
        engine: &Engine<'_, '_, '_>,
        out: &mut Vec<u8>,
        _nothing: &mut (),
        _no_more: &mut X,
        _gate: &dyn Gate,
    ) -> Result<(), AllocError> {
        let alloc = self.alloc;
        let grammar = engine.grammar;
        let Ok(c_cont) = c_cont_path(alloc, &grammar.settings, &grammar.book.feats) else {
            return Err(AllocError);
        };
        engine.laws();
        let limits = defaults();
        let at: &[MrsFeat] = &c_cont;
        let contributors = contributors_in(alloc, engine, at, limits.lexical)?;
        let ready = Ready {
            engine: *engine,
            contributors: &contributors,
            c_cont: at,
            limits,
        };
        ready.take_all(rt, alloc, self.text, out)
    }
}

// What the grammar of an engine contributes, with lexical trees of up to so many rules and one more.
fn contributors_in(
    alloc: Global,
    engine: &Engine<'_, '_, '_>,
    c_cont: &[MrsFeat],
    lexical: u32,
) -> Result<Contributors, AllocError>
    requires ready { IsReady engine.now }
    ensures { IfOk result (AreContributors engine.now.signs.now engine.now.grammar.now.lexicon engine.now.grammar.now.spelling (paths_of engine.now.paths.now) (map feature_of c_cont.now) lexical) }
{
    engine.laws();
    let mut work = Scratch::new(alloc);
    let fulls = SignFulls {
        signs: engine.signs,
    };
    let words = LexicalGrammar {
        fulls: &fulls,
        lexicon: &engine.grammar.lexicon,
        spelling: &engine.grammar.spelling,
        feeds: engine.feeds,
    };
    let Ok(contributors) = contributors_of(alloc, &mut work, &words, engine.paths, c_cont, lexical)
    else {
        return Err(AllocError);
    };
    Ok(contributors)
}

// What comes of steps, with a grammar.
fn show_with<R: Threads + Wait + Sync>(
    rt: &R,
    alloc: Global,
    grammar: &Grammar,
    steps: &str,
    out: &mut Vec<u8>,
) -> Result<(), AllocError>
    requires loaded { IsLoaded (grammar_of grammar.now) }
    requires fits { IsWellNamed (grammar_of grammar.now) }
    requires whole { IsWhole grammar.now.book }
{
    let job = Steps { alloc, text: steps };
    let mut nothing = ();
    let mut no_more = ();
    match with_engine(
        rt,
        grammar,
        &job,
        out,
        &mut nothing,
        &mut no_more,
        &OpenGate,
    ) {
        Ok(done) => done,
        Err(_) => Err(AllocError),
    }
}

/// What comes of steps, with the grammar of this name.
pub fn show<S: Shelf, R: Threads + Wait + Sync>(
    rt: &R,
    alloc: Global,
    shelf: &mut S,
    name: &str,
    steps: &str,
    out: &mut Vec<u8>,
) -> Result<(), AllocError> {
    whole_book();
    loaded_names();
    let Ok(grammar) = load_grammar(alloc, shelf, name, None, false) else {
        return add_line("no grammar", out);
    };
    show_with(rt, alloc, &grammar, steps, out)
}
