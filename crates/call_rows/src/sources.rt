//! Lines and bytes of sources.

use crate::slow::Slow;
use crate::steps::{bytes, number, numbers, parts, push, push_bytes};
use lkb_io::{Held, LineFault, MemSource, Source, StdSource, WholeSource, read_line};
use std::alloc::{AllocError, Global};

// What the calls on a source of a text answer, which is the first part of the step; the second part is the calls. `memory` is a
// source in memory whose calls of the numbers in the third part fail, and that gives at a call as many bytes at most as the
// fourth part says, where that isn't 0; `whole` one that never fails, and `system` the system's source over a reader.
pub fn answer(alloc: Global, kind: &str, rest: &str, out: &mut Vec<u8>) -> Result<(), AllocError> {
    let (text, calls, fails, piece) = parts(rest);
    let mut text = bytes(alloc, text)?;
    match kind {
        "whole" => ask(alloc, &mut WholeSource::new(text), calls, out),
        "system" => {
            let reader = Slow { bytes: &mut text };
            ask(alloc, &mut StdSource::new(reader), calls, out)
        }
        _ => {
            let mut source = in_memory(text, numbers(alloc, fails)?, number(piece));
            ask(alloc, &mut source, calls, out)
        }
    }
}

fn in_memory(text: Vec<u8>, fails: Vec<u64>, piece: u32) -> MemSource {
    let source = MemSource::new(text, fails);
    if piece > 0 {
        source.in_pieces(piece)
    } else {
        source
    }
}

// `line` is the next line, `held` whether one is held, `read` how many bytes come into room for four.
fn ask<S: Source>(
    alloc: Global,
    source: &mut S,
    calls: &str,
    out: &mut Vec<u8>,
) -> Result<(), AllocError> {
    let mut held = Held::new(alloc);
    for call in calls.split(' ') {
        match call {
            "line" => push_line(alloc, source, &mut held, out)?,
            "held" => push(out, if held.has_line() { "true" } else { "false" })?,
            _ => push_count(alloc, source, out)?,
        }
        push(out, ", ")?;
    }
    Ok(())
}

fn push_line<S: Source>(
    alloc: Global,
    source: &mut S,
    held: &mut Held,
    out: &mut Vec<u8>,
) -> Result<(), AllocError> {
    match read_line(alloc, source, held) {
        Ok(Some(line)) => {
            push(out, "\"")?;
            push_bytes(alloc, out, &line)?;
            push(out, "\"")
        }
        Ok(None) => push(out, "none"),
        Err(LineFault::TooLong) => push(out, "too long"),
        Err(LineFault::Failed) => push(out, "failed"),
        Err(LineFault::NoMemory) => Err(AllocError),
    }
}

fn push_count<S: Source>(
    alloc: Global,
    source: &mut S,
    out: &mut Vec<u8>,
) -> Result<(), AllocError> {
    let mut piece = [0; 4];
    match source.read(&mut piece) {
        Ok(count) => push(out, format!(in alloc; "{count}")?.as_str()),
        Err(_) => push(out, "failed"),
    }
}
