//! What sinks take.

use crate::slow::Slow;
use crate::steps::{bytes, number, numbers, parts, push, push_bytes};
use lkb_io::{MemSink, Sink, StdSink, WholeSink, put_all};
use std::alloc::{AllocError, Global};

// What the calls on a sink answer, and then the bytes that it has. `sink` is one in memory, whose writes and flushes of the
// numbers in the second and third part of the step fail, and that takes at a call as many bytes at most as the fourth one says;
// `whole-sink` one that never fails, and `system-sink` the system's sink over a writer.
pub fn answer(alloc: Global, kind: &str, rest: &str, out: &mut Vec<u8>) -> Result<(), AllocError> {
    match kind {
        "whole-sink" => whole(alloc, rest, out),
        "system-sink" => slowly(alloc, rest, out),
        _ => in_memory(alloc, rest, out),
    }
}

fn in_memory(alloc: Global, rest: &str, out: &mut Vec<u8>) -> Result<(), AllocError> {
    let (calls, writes, flushes, piece) = parts(rest);
    let writes = numbers(alloc, writes)?;
    let flushes = numbers(alloc, flushes)?;
    let mut sink = MemSink::new(alloc, writes, flushes).in_pieces(number(piece).max(1));
    ask(alloc, &mut sink, calls, out)?;
    push_bytes(alloc, out, sink.bytes())
}

fn whole(alloc: Global, calls: &str, out: &mut Vec<u8>) -> Result<(), AllocError> {
    let mut sink = WholeSink::new(alloc);
    ask(alloc, &mut sink, calls, out)?;
    match sink.bytes() {
        Some(bytes) => push_bytes(alloc, out, bytes),
        None => Err(AllocError),
    }
}

fn slowly(alloc: Global, calls: &str, out: &mut Vec<u8>) -> Result<(), AllocError> {
    let mut taken = Vec::new(alloc);
    let writer = Slow { bytes: &mut taken };
    ask(alloc, &mut StdSink::new(writer), calls, out)?;
    push_bytes(alloc, out, &taken)
}

// `put:TEXT` writes a whole text, `flush` flushes.
fn ask<O: Sink>(
    alloc: Global,
    sink: &mut O,
    calls: &str,
    out: &mut Vec<u8>,
) -> Result<(), AllocError> {
    for call in calls.split(' ') {
        let done = match call.strip_prefix("put:") {
            Some(text) => put_all(sink, &bytes(alloc, text)?),
            None => sink.flush(),
        };
        push(out, if done.is_ok() { "ok, " } else { "failed, " })?;
    }
    Ok(())
}
