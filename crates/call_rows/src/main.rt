//! Worked rows of calls below `run`. Each line of the input is a step, and each line of the output a step with what its call
//! answers for it. Steps that only say what later ones are about are not written again. The steps themselves are read and written
//! by calls that the rows are about, over the system's streams.
#![tactic(auto)]

mod mrss;
mod shelves;
mod sinks;
mod slow;
mod sources;
mod steps;
mod tokens;
mod trees;
mod words;

use derivation::Tree;
use lkb_io::{Held, LineFault, Sink, Source, StdSink, StdSource, put_all, read_line};
use std::alloc::{AllocError, Global};
use std::process::ExitCode;
use std::rt::Files;
use steps::{front, push};

// Adds what the call of a step answers. A step that calls nothing else calls a shelf.
fn answer<F: Files>(
    files: &F,
    alloc: Global,
    pile: &[Tree],
    step: &str,
    rest: &str,
    out: &mut Vec<u8>,
) -> Result<(), AllocError> {
    match step {
        "tokens" => tokens::of_text(alloc, rest, out),
        "bytes" => tokens::of_bytes(alloc, rest, out),
        "values" => tokens::values(alloc, rest, out),
        "tree" => trees::last(alloc, pile, rest, false, out),
        "spans" => trees::last(alloc, pile, rest, true, out),
        "order" => trees::order(alloc, pile, out),
        "command" | "among" | "no-words" => words::answer(alloc, step, rest, out),
        "memory" | "whole" | "system" => sources::answer(alloc, step, rest, out),
        "sink" | "whole-sink" | "system-sink" => sinks::answer(alloc, step, rest, out),
        "match" => mrss::matched(alloc, rest, out),
        _ => shelves::answer(files, alloc, step, rest, out),
    }
}

// Takes a step, and adds it with what it asks for.
fn take<F: Files>(
    files: &F,
    alloc: Global,
    pile: &mut Vec<Tree>,
    line: &str,
    out: &mut Vec<u8>,
) -> Result<(), AllocError> {
    let (step, rest) = front(line);
    match step {
        "lexical" => trees::add_lexical(alloc, pile, rest),
        "phrase" => trees::join(alloc, pile, rest),
        _ => {
            push(out, line)?;
            push(out, ": ")?;
            answer(files, alloc, pile, step, rest, out)?;
            push(out, "\n")
        }
    }
}

// Takes a line of the input, and writes it with what it asks for.
fn take_line<F: Files, O: Sink>(
    files: &F,
    alloc: Global,
    pile: &mut Vec<Tree>,
    line: &[u8],
    sink: &mut O,
) -> Result<(), LineFault> {
    let Ok(text) = std::str::from_utf8(line) else {
        return Err(LineFault::Failed);
    };
    let mut out = Vec::new(alloc);
    take(files, alloc, pile, text, &mut out)?;
    put_all(sink, &out)?;
    Ok(())
}

// Takes the lines of a source, a thousand at most.
fn answers<F: Files, S: Source, O: Sink>(
    files: &F,
    alloc: Global,
    source: &mut S,
    sink: &mut O,
) -> Result<(), LineFault> {
    let mut pile = Vec::new(alloc);
    let mut held = Held::new(alloc);
    for _ in 0..1_000 {
        match read_line(alloc, source, &mut held)? {
            Some(line) => take_line(files, alloc, &mut pile, &line, sink)?,
            None => return Ok(sink.flush()?),
        }
    }
    Ok(())
}

fn main(rt: HostRuntime) -> ExitCode {
    let mut source = StdSource::new(rt.stdin());
    let mut sink = StdSink::new(rt.stdout());
    match answers(&rt, rt.alloc(), &mut source, &mut sink) {
        Ok(()) => ExitCode::SUCCESS,
        Err(_) => ExitCode::from(1),
    }
}
