//! Worked rows of the program over devices in memory, which fail at calls that a row names or move one byte a call, and of kept filters
//! and priorities over an engine. What is to be run or asked stands in the input, a step a line, and what came of each is written.
#![tactic(auto)]

use lkb_io::{FileShelf, Shelf};
use row::Row;
use std::alloc::{AllocError, AllocGlobal};
use std::io;
use std::io::{Read, Write};
use std::sync::Wait;
use std::thread::Threads;

mod alike;
mod answers;
mod asking;
mod devices;
mod grammars;
mod lent;
mod row;
mod shown;

// The word at the front of a line, and what stands after the blank that follows it.
fn front(line: &str) -> (&str, &str) {
    match line.split_once(' ') {
        Some((word, rest)) => (word, rest),
        None => (line, ""),
    }
}

// Adds what came of the runs that some lines say.
fn show_runs<R: AllocGlobal + Threads + Wait + Sync>(
    rt: &R,
    lines: &str,
    out: &mut Vec<u8>,
) -> Result<(), AllocError> {
    let mut row = Row::new(rt.alloc());
    for line in lines.split('\n') {
        let (step, rest) = front(line);
        row.take(rt.alloc(), step, rest)?;
        shown::show(rt, &mut row, step, rest, out)?;
    }
    Ok(())
}

// Adds what came of the steps of some grammars, each after its name.
fn show_grammars<S: Shelf, R: AllocGlobal + Threads + Wait + Sync>(
    rt: &R,
    shelf: &mut S,
    grammars: &str,
    out: &mut Vec<u8>,
) -> Result<(), AllocError> {
    for part in grammars.split("\ngrammar ") {
        if let Some((name, steps)) = part.split_once('\n') {
            grammars::show(rt, rt.alloc(), shelf, name, steps, out)?;
        }
    }
    Ok(())
}

// Adds what came of the steps of the input: runs, and after them grammars.
fn show_all<S: Shelf, R: AllocGlobal + Threads + Wait + Sync>(
    rt: &R,
    shelf: &mut S,
    input: &str,
    out: &mut Vec<u8>,
) -> Result<(), AllocError> {
    let (runs, grammars) = input.split_once("\ngrammar ").unwrap_or((input, ""));
    show_runs(rt, runs, out)?;
    show_grammars(rt, shelf, grammars, out)
}

fn main(rt: HostRuntime) -> io::Result<()> {
    let mut input = String::new(rt.alloc());
    rt.stdin().read_to_string(&mut input)?;
    let mut shelf = FileShelf::new(&rt);
    let mut out = Vec::new(rt.alloc());
    show_all(&rt, &mut shelf, input.as_str(), &mut out)?;
    let mut stdout = rt.stdout();
    stdout.write_all(&out)?;
    stdout.flush()
}
