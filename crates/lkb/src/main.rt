//! The program `lkb`: it gives `run` the system's files and streams, and the words of the command line.
#![tactic(auto)]

mod pipes;

use endings::{Fault, Stop, conclude};
use lkb_io::{FileShelf, StdSink, StdSource};
use pipes::{Hushed, Watched};
use std::alloc::Global;
use std::cell::Cell;
use std::io::{BufWriter, ErrorKind};
use std::process::ExitCode;
use std::{env, io};
use top_call::run;
use worker_gate::OpenGate;

// How many bytes of the report are kept back until they are written at once. The report is flushed before the input
// is asked for more, so a user sees the answer to his line; since such a flush writes less, the buffer is twice the 64
// KiB that a write should have.
const BUFFER: usize = 131_072;

// The words of the command line without the program's name. One that isn't UTF-8 is outside every form.
fn words_of(rt: &HostRuntime) -> Result<Vec<String>, Fault> {
    let mut words = Vec::new(rt.alloc());
    for word in env::args(rt)
        .map_err(|error| fault_of_words(rt.alloc(), error))?
        .skip(1)
    {
        words
            .push(word)
            .map_err(|_| Fault::Stopped(Stop::NoMemory))?;
    }
    Ok(words)
}

// What an error of the system at the words of the command line is to the program.
fn fault_of_words(alloc: Global, error: io::Error) -> Fault {
    match error.kind() {
        ErrorKind::OutOfMemory => Fault::Stopped(Stop::NoMemory),
        _ => Fault::Usage(Vec::new(alloc)),
    }
}

fn main(rt: HostRuntime) -> ExitCode {
    let gone = Cell::new(false);
    let mut err = StdSink::new(Hushed::new(rt.stderr(), &gone));
    let report = Watched::new(rt.stdout(), &gone);
    let buffer = BufWriter::with_capacity(rt.alloc(), BUFFER, report);
    let status = match (words_of(&rt), buffer) {
        (Ok(words), Ok(buffer)) => {
            let mut shelf = FileShelf::new(&rt);
            let mut input = StdSource::new(rt.stdin());
            let mut out = StdSink::new(buffer);
            run(
                &rt, &words, &mut shelf, &mut input, &mut out, &mut err, &OpenGate,
            )
        }
        (Err(fault), _) => conclude(&mut err, &Err(fault)),
        (Ok(_), Err(_)) => conclude(&mut err, &Err(Fault::Stopped(Stop::NoMemory))),
    };
    ExitCode::from(status.code())
}
