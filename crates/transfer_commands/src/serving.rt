//! The run over lines that write MRSs.

ghost use Rattle.std.specs.Prelude.{◌≡◌, ◌<◌, option_map};
ghost use Rattle.endings.specs.Meanings.{shelves};
ghost use Rattle.endings.specs.Reports.{streams};
ghost use Rattle.endings.specs.Endings.{Ended};
ghost use Rattle.transfer_commands.specs.Transferring.{transfer_meaning};

use crate::loading::load;
use endings::Fault;
use endings::lines::serve;
use lkb_io::{Shelf, Sink, Source};
use std::alloc::Global;
use std::sync::Wait;
use std::thread::Threads;
use worker_gate::Gate;

/// `transfer`: the answers to lines, by the rules of the file of this name under the settings of the file of that name.
#[derive(Clone, Copy)]
pub struct Transfer<'a> {
    /// The file of rules, its name taken as written.
    pub rules: &'a str,
    pub settings: Option<&'a str>,
    /// How many workers answer lines, at least one. It changes no answer.
    pub workers: u32,
    /// Whether more is told of a fault of its files.
    pub verbose: bool,
}

/// `transfer`: reads the settings and the rules, and answers all lines of the source, line by line: read, answer, write. Lines that are held already
/// are answered side by side where there is more than one worker. `Ok` tells whether a line was refused.
pub fn transfer_lines<S: Shelf, I: Source, O: Sink, Rt: Threads + Wait + Sync>(
    rt: &Rt,
    alloc: Global,
    command: &Transfer<'_>,
    shelf: &mut S,
    input: &mut I,
    out: &mut O,
    gate: &dyn Gate,
) -> Result<bool, Fault>
    requires { 0 < command.now.workers }
    ensures { Ended (transfer_meaning command.now.rules.now (option_map (λ s. s.now) command.now.settings) command.now.verbose) (shelves S.files S.faults S.asked shelf.old shelf.new)
        (streams I.left I.faults O.written O.flushed O.faults input.old input.new out.old out.new) (input.new ≡ input.old) ((input.new ≡ input.old) × (out.new ≡ out.old)) result }
{
    let transferrer = load(alloc, shelf, command)?;
    let refused = serve(rt, alloc, &transferrer, input, out, gate)?;
    Ok(refused)
}
