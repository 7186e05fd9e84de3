//! The large valid input of the program: a grammar and lines for it to parse, made from a number.

ghost use Rattle.std.specs.Prelude.{IfOk};
ghost use Rattle.self_tests.specs.Made.{IsWorkload};

use crate::NoMemory;
use std::alloc::Global;

/// A file: its name, and its bytes.
#[derive(Debug, Drop)]
pub struct WorkFile {
    pub name: String,
    pub text: Vec<u8>,
}

/// The files of a grammar, the first of which is the one to load, and lines to parse, each without an end.
#[derive(Debug, Drop)]
pub struct Workload {
    pub files: Vec<WorkFile>,
    pub lines: Vec<Vec<u8>>,
}

/// The workload of a number: the one grammar, and `size` lines, which the number's last three digits decide.
/// The program asks for 1 to 1,000 lines.
pub fn make(alloc: Global, number: u64, size: u32) -> Result<Workload, NoMemory>
    ensures { IfOk result (IsWorkload number size) }
{
    let files = crate::grammar::files(alloc)?;
    let lines = crate::lines::lines(alloc, number % 1000, size)?;
    Ok(Workload { files, lines })
}
