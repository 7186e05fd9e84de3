//! What workers answer to a line or an MRS, with the sieves, the priority and the gate that they are lent.

ghost use Rattle.chart_workers.specs.Crews.{IsCrewSize};
ghost use Rattle.morph_analysis.specs.Lattices.{IsValid};
ghost use Rattle.morph_analysis.specs.LatticeViews.{lattice_of};
ghost use Rattle.mrs_model.specs.Valid.{IsValid as IsValidMrs};
ghost use Rattle.mrs_model.specs.Views.{meaning_of};
ghost use Rattle.rows.specs.Ready.{IsReady, IsFit};

use crate::grammars::Ready;
use crate::lent::{Order, Test};
use chart_workers::Crew;
use derivation::{Tree, is_named, write};
use engine::desks::Desk;
use fs_unify::Scratch;
use grammar_rules::{ItemAnswer, LineWork, Search};
use line_parsing::parse_words;
use morph_analysis::Lattice;
use mrs_generate::{GenAnswer, GenGrammar, generate};
use mrs_model::Mrs;
use sieve::{Priority, Sieve};
use std::alloc::{AllocError, Global};
use std::sync::Wait;
use std::thread::Threads;
use worker_gate::Gate;

/// What a grammar is asked: the trees of a line, or the sentences of an MRS.
#[derive(Clone, Copy)]
pub enum Asked<'x> {
    Line(&'x Lattice),
    Mrs(&'x Mrs),
}

/// With what an answer is found. None of it changes the answer.
#[derive(Clone, Copy)]
pub struct Means<'x> {
    pub workers: u32,
    pub sieves: &'x [Sieve<Test<'x>>],
    pub order: Order,
}

// What is worked out with, by so many workers.
fn desk(alloc: Global, workers: u32) -> Desk
    requires { IsCrewSize workers }
{
    let work = LineWork {
        chart: Scratch::new(alloc),
        trees: Scratch::new(alloc),
    };
    let crew = Crew::new(alloc, workers);
    Desk { work, crew }
}

// Adds a tree, whose places have names, as a line.
fn add_tree(tree: &Tree, names: &[String], into: &mut Vec<u8>) -> Result<(), AllocError> {
    into.extend_from_slice(b"  ")?;
    if is_named(tree, names.len()) && write(tree, names, false, into).is_err() {
        return Err(AllocError);
    }
    into.push(b'\n')?;
    Ok(())
}

// Adds a number of classes and trees, and these.
fn add_trees(
    alloc: Global,
    answer: &ItemAnswer,
    names: &[String],
    into: &mut Vec<u8>,
) -> Result<(), AllocError> {
    let ItemAnswer::Trees { classes, trees } = answer else {
        into.extend_from_slice(b"a limit\n")?;
        return Ok(());
    };
    let readings = trees.len();
    let head = format!(in alloc; "classes {classes} readings {readings}\n")?;
    into.extend_from_slice(head.as_bytes())?;
    for tree in trees {
        add_tree(tree, names, into)?;
    }
    Ok(())
}

// Adds a text as a line.
fn add_text(text: &str, into: &mut Vec<u8>) -> Result<(), AllocError> {
    into.extend_from_slice(b"  ")?;
    into.extend_from_slice(text.as_bytes())?;
    into.push(b'\n')?;
    Ok(())
}

// Adds a number of classes and sentences, and these.
fn add_sentences(alloc: Global, answer: &GenAnswer, into: &mut Vec<u8>) -> Result<(), AllocError> {
    let GenAnswer::Sentences { classes, sentences } = answer else {
        into.extend_from_slice(b"a limit\n")?;
        return Ok(());
    };
    let count = sentences.len();
    let head = format!(in alloc; "classes {classes} sentences {count}\n")?;
    into.extend_from_slice(head.as_bytes())?;
    for sentence in sentences {
        add_text(sentence.text.as_str(), into)?;
    }
    Ok(())
}

impl Ready<'_, '_, '_> {
    // Adds the trees of a line.
    fn parsed<R: Wait + Threads + Sync>(
        &self,
        rt: &R,
        alloc: Global,
        lattice: &Lattice,
        means: Means<'_>,
        gate: &dyn Gate,
        into: &mut Vec<u8>,
    ) -> Result<(), AllocError>
        requires workers { IsCrewSize means.workers }
        requires ready { IsReady self.now }
        requires valid { IsValid (lattice_of lattice.now) }
    {
        let mut desk = desk(alloc, means.workers);
        let grammar = self.engine.lines();
        let order = Priority::new(means.order);
        let search = Search {
            limits: &self.limits,
            sieves: means.sieves,
            priority: &order,
        };
        let Ok(answer) = parse_words(rt, alloc, &mut desk, &grammar, lattice, &search, gate) else {
            return Err(AllocError);
        };
        add_trees(alloc, &answer, &self.engine.grammar.names, into)
    }

    // Adds the sentences of an MRS.
    fn generated<R: Wait + Threads + Sync>(
        &self,
        rt: &R,
        alloc: Global,
        mrs: &Mrs,
        means: Means<'_>,
        gate: &dyn Gate,
        into: &mut Vec<u8>,
    ) -> Result<(), AllocError>
        requires workers { IsCrewSize means.workers }
        requires ready { IsReady self.now }
        requires valid { IsValidMrs (meaning_of mrs.now) }
    {
        let mut desk = desk(alloc, means.workers);
        let grammar = GenGrammar {
            signs: self.engine.signs,
            shapes: self.engine.shapes.shapes(),
            lexicon: &self.engine.grammar.lexicon,
            spelling: &self.engine.grammar.spelling,
            contributors: self.contributors,
            paths: self.engine.paths,
            c_cont: self.c_cont,
        };
        let order = Priority::new(means.order);
        let search = Search {
            limits: &self.limits,
            sieves: means.sieves,
            priority: &order,
        };
        let Ok(answer) = generate(rt, alloc, &mut desk, &grammar, mrs, &search, gate) else {
            return Err(AllocError);
        };
        add_sentences(alloc, &answer, into)
    }

    /// Adds what is answered.
    pub fn answer<R: Wait + Threads + Sync>(
        &self,
        rt: &R,
        alloc: Global,
        asked: Asked<'_>,
        means: Means<'_>,
        gate: &dyn Gate,
        into: &mut Vec<u8>,
    ) -> Result<(), AllocError>
        requires workers { IsCrewSize means.workers }
        requires ready { IsReady self.now }
        requires fit { IsFit asked }
    {
        match asked {
            Asked::Line(lattice) => self.parsed(rt, alloc, lattice, means, gate, into),
            Asked::Mrs(mrs) => self.generated(rt, alloc, mrs, means, gate, into),
        }
    }
}
