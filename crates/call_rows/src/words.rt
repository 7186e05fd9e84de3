//! What the words of a command line ask for.

use crate::steps::{parted, push};
use command_line::{Command, CommandName, Options, WordsFault, command_among, command_of};
use std::alloc::{AllocError, Global};

// `command WORDS` is what words with a blank between each two ask for: two blanks have an empty word between them.
// `among WORDS` is that where `types` and `check` alone are there. `no-words` is what no words ask for.
pub fn answer(alloc: Global, step: &str, rest: &str, out: &mut Vec<u8>) -> Result<(), AllocError> {
    let words = parted(alloc, rest, ' ')?;
    match step {
        "no-words" => shown(alloc, command_of(alloc, &[]), out),
        "command" => shown(alloc, command_of(alloc, &words), out),
        _ => {
            let there = [CommandName::Types, CommandName::Check];
            shown(alloc, command_among(alloc, &there, &words), out)
        }
    }
}

// The command, with its options where a step says so.
fn shown(
    alloc: Global,
    found: Result<Command<'_>, WordsFault>,
    out: &mut Vec<u8>,
) -> Result<(), AllocError> {
    match found {
        Err(fault) => push(out, format!(in alloc; "{fault:?}")?.as_str()),
        Ok(Command::Run(task, options)) => {
            push(out, format!(in alloc; "{task:?}")?.as_str())?;
            push_options(alloc, &options, out)
        }
        Ok(command) => push(out, format!(in alloc; "{command:?}")?.as_str()),
    }
}

// The options, each by its value, where one isn't its default.
fn push_options(alloc: Global, options: &Options<'_>, out: &mut Vec<u8>) -> Result<(), AllocError> {
    let numbers = format!(in alloc;
        " {} {} {} {} {} {}",
        options.workers,
        options.edges,
        options.readings,
        options.lexical,
        options.unary,
        options.empty
    )?;
    let rest = format!(in alloc;
        " {:?} {} {} {}",
        options.settings, options.mrs, options.lattice, options.verbose
    )?;
    if numbers.as_str() == " 1 5000 10000 7 8 4" && rest.as_str() == " None false false false" {
        return Ok(());
    }
    push(out, numbers.as_str())?;
    push(out, rest.as_str())
}
