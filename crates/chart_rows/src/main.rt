//! Worked rows of charts, of the workers that make them, and of covers. Each line of the input is a step, and each line of the
//! output a step with what it answers.
#![tactic(auto)]

mod charts;
mod covers;
mod grammars;
mod passes;
mod pools;
mod seats;
mod steps;
mod told;
mod turns;
mod watched;
mod worker;
mod workers;

use chart_model::NoMemory;
use covers::{counts, span, spans};
use grammars::{grammar, leaves};
use std::alloc::{AllocError, Global};
use std::io;
use std::io::{Read, Write};
use std::sync::Wait;
use std::thread::Threads;
use steps::{front, number, parts};

// `chart RULES | LEAVES | STEPS | COVER` makes a chart by its steps, `classes EDGES | RULES | LEAVES` by the ordered pass.
// `spans A | B` joins two spans, `counts BOUND | A | B` two counts.
fn answer_alone(alloc: Global, step: &str, rest: &str, out: &mut String) -> Result<(), NoMemory> {
    let (a, b, c, d) = parts(rest);
    match step {
        "chart" => {
            let shapes = grammar(alloc, a)?;
            let leaves = leaves(alloc, b)?;
            charts::chart(alloc, &shapes, &mut (), &span(d), leaves, c, out)
        }
        "classes" => {
            let shapes = grammar(alloc, b)?;
            let leaves = leaves(alloc, c)?;
            passes::classes(alloc, &shapes, leaves, number(a), out)
        }
        "spans" => spans(alloc, a, b, out),
        "counts" => counts(alloc, a, b, c, out),
        _ => Ok(out.push_str("no such step")?),
    }
}

// `pool SEATS | CALLS` makes a pool and calls its seats, `seats RULES | LEAVES | CALLS` a chart of two seats. `crew WORKERS |
// EDGES | RULES | LEAVES` lets workers make a chart, `refused WORKERS | CALL | RULES | LEAVES` with a grammar that wants memory
// at a call, and `held RULES | LEAVES` lets two of them wait for each other. Every other step is about a chart without workers,
// or about covers.
fn answer<R: Wait + Threads + Sync>(
    rt: &R,
    alloc: Global,
    step: &str,
    rest: &str,
    out: &mut String,
) -> Result<(), NoMemory> {
    let (a, b, c, d) = parts(rest);
    match step {
        "pool" => pools::pool(rt, alloc, number(a), b, out),
        "seats" => {
            let shapes = grammar(alloc, a)?;
            let leaves = leaves(alloc, b)?;
            seats::chart(rt, alloc, &shapes, leaves, c, out)
        }
        "crew" => workers::crew(rt, alloc, parts(rest), out),
        "refused" => workers::refused(rt, alloc, parts(rest), out),
        "held" => workers::held(rt, alloc, a, b, out),
        _ => answer_alone(alloc, step, rest, out),
    }
}

// Takes a line of the input, and adds it with what it asks for.
fn take<R: Wait + Threads + Sync>(
    rt: &R,
    alloc: Global,
    line: &str,
    out: &mut String,
) -> Result<(), NoMemory> {
    if line.is_empty() {
        return Ok(());
    }
    let (step, rest) = front(line, ' ');
    out.push_str(line)?;
    out.push_str(": ")?;
    answer(rt, alloc, step, rest, out)?;
    out.push('\n')?;
    Ok(())
}

// Takes the lines of the input.
fn take_all<R: Wait + Threads + Sync>(
    rt: &R,
    alloc: Global,
    input: &str,
    out: &mut String,
) -> Result<(), NoMemory> {
    for line in input.split('\n') {
        take(rt, alloc, line, out)?;
    }
    Ok(())
}

fn main(rt: HostRuntime) -> io::Result<()> {
    let mut input = String::new(rt.alloc());
    rt.stdin().read_to_string(&mut input)?;
    let mut out = String::new(rt.alloc());
    take_all(&rt, rt.alloc(), input.as_str(), &mut out).map_err(|_| AllocError)?;
    let mut stdout = rt.stdout();
    stdout.write_all(out.as_bytes())?;
    stdout.flush()
}
