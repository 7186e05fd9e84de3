//! An engine is made of a grammar, and lent.

ghost use Rattle.std.specs.Prelude.{◌≡◌, IfOk, OnErr};
ghost use Rattle.std.specs.Thread.{IsSync};
ghost use Rattle.book_signs.specs.Conditions.{IsWhole};
ghost use Rattle.grammar_load.specs.Conditions.{IsLoaded};
ghost use Rattle.grammar_load.specs.Loaded.{GrammarTree};
ghost use Rattle.grammar_load.specs.Views.{grammar_of};
ghost use Rattle.mrs_lines.specs.Fitting.{mrs_paths_of, IsWellNamed};
ghost use Rattle.grammar_rules.specs.Lines.{AreShapesOf, AreFeedsOf};
ghost use Rattle.mrs_places.specs.Paths.{paths_of};
ghost use Rattle.engine.specs.Ready.{IsReady};
ghost use Rattle.engine.specs.Speeches.{Speech, IsSpeechOf};
ghost use Rattle.engine.specs.Views.{speech_of};

use crate::NoMemory;
use crate::lent::Engine;
use crate::rules::{rule_feeds, shapes_of};
use book_signs::SignBook;
use grammar_load::Grammar;
use grammar_rules::{RunMemory, run_shapes};
use grammar_shapes::GrammarShapes;
use morph_analysis::Feeds;
use mrs_places::{MrsPaths, mrs_paths};
use std::alloc::Global;
use std::sync::Wait;
use std::thread::Threads;
use worker_gate::Gate;

/// What is done with an engine, and with three things that it changes.
pub trait Use<A, B, C> {
    type Out;

    /// What is given, by the grammar and as its lines see it, of three things as they were and as they are left.
    ghost Gives: { Self → GrammarTree → Speech → A → A → B → B → C → C → Self.Out → Type 0 };

    /// The allocator from which memory is taken for it, and for the engine.
    fn allocator(&self) -> Global;

    /// Does it, with an engine that is ready.
    fn run<Rt: Threads + Wait + Sync>(
        &self,
        rt: &Rt,
        engine: &Engine<'_, '_, '_>,
        a: &mut A,
        b: &mut B,
        c: &mut C,
        gate: &dyn Gate,
    ) -> Self::Out
        requires sync { IsSync Rt.row }
        requires ready { IsReady engine.now }
        ensures { Gives self.now (grammar_of engine.now.grammar.now) (speech_of engine.now) a.old a.new b.old b.new c.old c.new result };
}

// What is made of signs: the phrase rules over abstract structures, which lexical rule may follow which, and where MRSs stand.
#[derive(Drop)]
struct Parts<'x> {
    shapes: GrammarShapes<'x>,
    feeds: Feeds,
    paths: MrsPaths,
}

// Makes it.
fn parts_of<'x>(
    alloc: Global,
    grammar: &Grammar,
    signs: &'x SignBook<'x>,
) -> Result<Parts<'x>, NoMemory>
    ensures shapes { IfOk result (λ m. AreShapesOf signs.now m.shapes) }
    ensures feeds { IfOk result (λ m. AreFeedsOf signs.now m.feeds) }
    ensures paths { IfOk result (λ m. paths_of m.paths ≡ mrs_paths_of (grammar_of grammar.now)) }
{
    let book = &grammar.book;
    let shapes = shapes_of(alloc, signs)?;
    let feeds = rule_feeds(alloc, signs)?;
    let Ok(paths) = mrs_paths(alloc, &grammar.settings, book.system.types(), &book.feats) else {
        return Err(NoMemory);
    };
    Ok(Parts {
        shapes,
        feeds,
        paths,
    })
}

// A grammar with its signs.
#[derive(Clone, Copy)]
struct Signed<'x> {
    grammar: &'x Grammar,
    signs: &'x SignBook<'x>,
}

// What an engine is made of: a grammar, its signs, and what is made of them.
#[derive(Clone, Copy)]
struct Made<'x, 'y> {
    grammar: &'x Grammar,
    signs: &'x SignBook<'y>,
    parts: &'x Parts<'y>,
}

// Lends what was made, with a memory for lines. What that is made of has one lifetime, so that it is let go as a whole.
fn with_parts<'x, A, B, C, U: Use<A, B, C>, Rt: Threads + Wait + Sync>(
    rt: &Rt,
    made: &Made<'x, 'x>,
    job: &U,
    a: &mut A,
    b: &mut B,
    c: &mut C,
    gate: &dyn Gate,
) -> Result<U::Out, NoMemory>
    requires sync { IsSync Rt.row }
    requires loaded { IsLoaded (grammar_of made.now.grammar.now) }
    requires fits { IsWellNamed (grammar_of made.now.grammar.now) }
    requires book { made.now.signs.now.book ≡ made.now.grammar.now.book }
    requires shapes { AreShapesOf made.now.signs.now made.now.parts.now.shapes }
    requires feeds { AreFeedsOf made.now.signs.now made.now.parts.now.feeds }
    requires paths { paths_of made.now.parts.now.paths ≡ mrs_paths_of (grammar_of made.now.grammar.now) }
    ensures none { OnErr result ((a.new ≡ a.old) × (b.new ≡ b.old) × (c.new ≡ c.old)) }
    ensures given { IfOk result (λ out. (speech : Speech) × IsSpeechOf (grammar_of made.now.grammar.now) speech
        × U.Gives job.now (grammar_of made.now.grammar.now) speech a.old a.new b.old b.new c.old c.new out) }
{
    let alloc = job.allocator();
    let signs = made.signs;
    let parts = made.parts;
    let shapes = run_shapes(alloc, &parts.shapes)?;
    let shared = RunMemory::new(alloc, signs, &parts.shapes)?;
    let engine = Engine {
        grammar: made.grammar,
        signs,
        shapes: &shapes,
        shared: &shared,
        feeds: &parts.feeds,
        paths: &parts.paths,
    };
    engine.laws();
    Ok(job.run(rt, &engine, a, b, c, gate))
}

// The same where what is lent was made at another lifetime.
fn with_lent<'x, 'y, A, B, C, U: Use<A, B, C>, Rt: Threads + Wait + Sync>(
    rt: &Rt,
    lent: &Made<'x, 'y>,
    job: &U,
    a: &mut A,
    b: &mut B,
    c: &mut C,
    gate: &dyn Gate,
) -> Result<U::Out, NoMemory>
    requires sync { IsSync Rt.row }
    requires loaded { IsLoaded (grammar_of lent.now.grammar.now) }
    requires fits { IsWellNamed (grammar_of lent.now.grammar.now) }
    requires book { lent.now.signs.now.book ≡ lent.now.grammar.now.book }
    requires shapes { AreShapesOf lent.now.signs.now lent.now.parts.now.shapes }
    requires feeds { AreFeedsOf lent.now.signs.now lent.now.parts.now.feeds }
    requires paths { paths_of lent.now.parts.now.paths ≡ mrs_paths_of (grammar_of lent.now.grammar.now) }
    ensures none { OnErr result ((a.new ≡ a.old) × (b.new ≡ b.old) × (c.new ≡ c.old)) }
    ensures given { IfOk result (λ out. (speech : Speech) × IsSpeechOf (grammar_of lent.now.grammar.now) speech
        × U.Gives job.now (grammar_of lent.now.grammar.now) speech a.old a.new b.old b.new c.old c.new out) }
{
    let made = Made {
        grammar: lent.grammar,
        signs: &*lent.signs,
        parts: &*lent.parts,
    };
    with_parts(rt, &made, job, a, b, c, gate)
}

// The same with what is made here of signs.
fn with_signs<'x, A, B, C, U: Use<A, B, C>, Rt: Threads + Wait + Sync>(
    rt: &Rt,
    signed: &Signed<'x>,
    job: &U,
    a: &mut A,
    b: &mut B,
    c: &mut C,
    gate: &dyn Gate,
) -> Result<U::Out, NoMemory>
    requires sync { IsSync Rt.row }
    requires loaded { IsLoaded (grammar_of signed.now.grammar.now) }
    requires fits { IsWellNamed (grammar_of signed.now.grammar.now) }
    requires book { signed.now.signs.now.book ≡ signed.now.grammar.now.book }
    ensures none { OnErr result ((a.new ≡ a.old) × (b.new ≡ b.old) × (c.new ≡ c.old)) }
    ensures given { IfOk result (λ out. (speech : Speech) × IsSpeechOf (grammar_of signed.now.grammar.now) speech
        × U.Gives job.now (grammar_of signed.now.grammar.now) speech a.old a.new b.old b.new c.old c.new out) }
{
    let parts = parts_of(job.allocator(), signed.grammar, signed.signs)?;
    let made = Made {
        grammar: signed.grammar,
        signs: &*signed.signs,
        parts: &parts,
    };
    with_lent(rt, &made, job, a, b, c, gate)
}

/// Makes an engine of a grammar, once, and lends it to a job, which is told what it may change. `NoMemory` comes where memory is wanting
/// before the job begins; nothing has changed then.
pub fn with_engine<A, B, C, U: Use<A, B, C>, Rt: Threads + Wait + Sync>(
    rt: &Rt,
    grammar: &Grammar,
    job: &U,
    a: &mut A,
    b: &mut B,
    c: &mut C,
    gate: &dyn Gate,
) -> Result<U::Out, NoMemory>
    requires sync { IsSync Rt.row }
    requires loaded { IsLoaded (grammar_of grammar.now) }
    requires whole { IsWhole grammar.now.book }
    requires fits { IsWellNamed (grammar_of grammar.now) }
    ensures none { OnErr result ((a.new ≡ a.old) × (b.new ≡ b.old) × (c.new ≡ c.old)) }
    ensures given { IfOk result (λ out. (speech : Speech) × IsSpeechOf (grammar_of grammar.now) speech
        × U.Gives job.now (grammar_of grammar.now) speech a.old a.new b.old b.new c.old c.new out) }
{
    let alloc = job.allocator();
    let Ok(signs) = SignBook::make(alloc, &grammar.book) else {
        return Err(NoMemory);
    };
    let signed = Signed {
        grammar,
        signs: &signs,
    };
    with_signs(rt, &signed, job, a, b, c, gate)
}
