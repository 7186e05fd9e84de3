//! Worked rows of typed feature structures. Each line of the input is a step, and each line of the output a step with what
//! its call answers for it.
#![tactic(auto)]

ghost use Rattle.std.specs.Prelude.{◌≡◌, length, All, OnOk};
ghost use Rattle.fs_model.specs.Claims.{IsBare};
ghost use Rattle.fs_unify.specs.Rules.{system_of};
ghost use Rattle.fs_unify.specs.Placing.{IsAnswerIn};

mod asked;
mod drawn;
mod facts;
mod names;
mod sample;
mod steps;
mod structures;
mod texts;

use asked::{of_one, subsumption};
use drawn::drawn;
use fs_graph::Graph;
use fs_unify::{Scratch, TypeSystem};
use sample::lists;
use std::alloc::{AllocError, Global};
use std::io;
use std::io::{Read, Write};
use steps::{front, number};
use structures::{room, structure, unification};
use type_hierarchy::Types;

// The structures that the steps so far have made, by number: those of facts and unifications, and those that were drawn.
#[derive(Drop)]
struct Rows {
    scratch: Scratch,
    made: Vec<Graph>,
    drawn: Vec<Graph>,
}

// The structure of this number, or the drawn one, whose number has a `g` before it.
fn named<'a>(made: &'a [Graph], drawn: &'a [Graph], word: &str) -> Option<&'a Graph> {
    match word.strip_prefix('g') {
        Some(rest) => drawn.get(number(rest) as usize),
        None => made.get(number(word) as usize),
    }
}

// `structure LINES` makes a structure of facts, `unify A PATH B` unifies two; `graph TYPES / ARCS` draws one. `same A B`,
// `subsumes A B` and `text`, `nodes`, `at` and `arcs` ask them. `room COUNT` makes room. `aged GENERATION` makes the scratch of the
// steps from there on.
fn answer(
    alloc: Global,
    system: &TypeSystem,
    rows: &mut Rows,
    step: &str,
    rest: &str,
) -> Result<String, AllocError>
    requires bare { IsBare (system_of system.now) }
    requires feats { length system.now.introducers ≡ 5 }
    requires known { All (IsAnswerIn system.now) rows.old.made.items }
    ensures { OnOk result (All (IsAnswerIn system.now) rows.new.made.items) }
{
    match step {
        "structure" => structure(alloc, &mut rows.scratch, system, &mut rows.made, rest),
        "unify" => unification(alloc, &mut rows.scratch, system, &mut rows.made, rest),
        "graph" => draw(alloc, system.types(), &mut rows.drawn, rest),
        "room" => room(alloc, number(rest)),
        "aged" => {
            rows.scratch = Scratch::aged(alloc, number(rest));
            String::from_str(alloc, "made")
        }
        _ => {
            let scratch = &mut rows.scratch;
            told(
                alloc,
                system.types(),
                scratch,
                &rows.made,
                &rows.drawn,
                step,
                rest,
            )
        }
    }
}

// Draws a graph; its text, or why there is none.
fn draw(
    alloc: Global,
    types: &Types,
    graphs: &mut Vec<Graph>,
    text: &str,
) -> Result<String, AllocError> {
    match drawn(alloc, types, text) {
        Ok(graph) => {
            let text = texts::shown(alloc, types, &graph)?;
            graphs.push(graph)?;
            Ok(text)
        }
        Err(clash) => format!(in alloc; "{clash:?}"),
    }
}

// What is asked of one structure or two.
fn told(
    alloc: Global,
    types: &Types,
    scratch: &mut Scratch,
    made: &[Graph],
    graphs: &[Graph],
    step: &str,
    rest: &str,
) -> Result<String, AllocError> {
    let (word, rest) = front(rest);
    let Some(graph) = named(made, graphs, word) else {
        return String::from_str(alloc, "no such structure");
    };
    match (step, named(made, graphs, rest)) {
        ("same", Some(other)) => format!(in alloc; "{}", graph.same(other)),
        ("subsumes", Some(other)) => subsumption(alloc, types, scratch, graph, other),
        _ => of_one(alloc, types, step, graph, rest),
    }
}

// Takes a line of the input, and adds it with what it asks for.
fn take(
    alloc: Global,
    system: &TypeSystem,
    rows: &mut Rows,
    line: &str,
    out: &mut String,
) -> Result<(), AllocError>
    requires bare { IsBare (system_of system.now) }
    requires feats { length system.now.introducers ≡ 5 }
    requires known { All (IsAnswerIn system.now) rows.old.made.items }
    ensures { OnOk result (All (IsAnswerIn system.now) rows.new.made.items) }
{
    if line.is_empty() {
        return Ok(());
    }
    let (step, rest) = front(line);
    let found = answer(alloc, system, rows, step, rest)?;
    out.push_str(line)?;
    out.push_str(": ")?;
    out.push_str(found.as_str())?;
    out.push('\n')
}

// What the lines of the input ask for.
fn answers(alloc: Global, system: &TypeSystem, input: &str) -> Result<String, AllocError>
    requires bare { IsBare (system_of system.now) }
    requires feats { length system.now.introducers ≡ 5 }
{
    let mut rows = Rows {
        scratch: Scratch::new(alloc),
        made: Vec::new(alloc),
        drawn: Vec::new(alloc),
    };
    let mut out = String::new(alloc);
    for line in input.split('\n') {
        take(alloc, system, &mut rows, line, &mut out)?;
    }
    Ok(out)
}

// The same over the sample.
fn all_answers(alloc: Global, input: &str) -> Result<String, AllocError> {
    match lists(alloc)? {
        Some(system) => answers(alloc, &system, input),
        None => String::from_str(alloc, "no sample\n"),
    }
}

fn main(rt: HostRuntime) -> io::Result<()> {
    let mut input = String::new(rt.alloc());
    rt.stdin().read_to_string(&mut input)?;
    let out = all_answers(rt.alloc(), input.as_str())?;
    let mut stdout = rt.stdout();
    stdout.write_all(out.as_bytes())?;
    stdout.flush()
}
