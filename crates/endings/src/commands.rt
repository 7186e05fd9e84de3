//! Commands that make a whole report of their files.
ghost use Rattle.std.specs.Prelude.{◌≡◌, false};
ghost use Rattle.std.specs.Thread.{IsSync};
ghost use Rattle.endings.specs.Meanings.{Meaning, shelves};
ghost use Rattle.endings.specs.Reports.{streams};
ghost use Rattle.endings.specs.Endings.{Ended, Made, MadeOfItems};

use crate::Fault;
use crate::pieces::{Report, put_report, put_with_gaps};
use lkb_io::{Shelf, Sink, Source};
use std::alloc::Global;
use std::sync::Wait;
use std::thread::Threads;
use worker_gate::Gate;

/// A command that reads no lines: what its files give is its whole report. It waits for nobody, so its report is proved to come.
pub trait Whole {
    /// What the command is to do.
    ghost meaning: { Self → Meaning };

    /// The report, or the first fault of the command's files.
    fn report<S: Shelf>(&self, alloc: Global, shelf: &mut S) -> Result<Report, Fault>
        ensures made { Made (meaning self.now) (shelves S.files S.faults S.asked shelf.old shelf.new) result }
        ensures unopened { (meaning self.now).opens ≡ false → shelf.new ≡ shelf.old };
}

/// The whole report of a command with items.
#[derive(Drop)]
pub enum ItemsReport {
    /// Each item is answered.
    AllAnswered(Report),
    /// Memory was wanting for some items: the report lines, each with its end, among which these items are told.
    WithGaps(Vec<Vec<u8>>),
}

/// A command that reads no lines, and whose files have items, which workers answer.
pub trait OfItems {
    /// What the command is to do.
    ghost meaning: { Self → Meaning };

    /// The report, or the first fault of the command's files. An item for which memory is wanting doesn't end it.
    fn report<S: Shelf, Rt: Threads + Wait + Sync>(
        &self,
        rt: &Rt,
        alloc: Global,
        shelf: &mut S,
        gate: &dyn Gate,
    ) -> Result<ItemsReport, Fault>
        requires { IsSync Rt.row }
        ensures made { MadeOfItems (meaning self.now) (shelves S.files S.faults S.asked shelf.old shelf.new) result }
        ensures unopened { (meaning self.now).opens ≡ false → shelf.new ≡ shelf.old };
}

/// Writes the report of such a command, and flushes.
pub fn write_whole<W: Whole, S: Shelf, I: Source, O: Sink>(
    alloc: Global,
    command: &W,
    shelf: &mut S,
    input: &mut I,
    out: &mut O,
) -> Result<bool, Fault>
    requires { (W.meaning command.now).reads ≡ false }
    ensures ended { Ended (W.meaning command.now) (shelves S.files S.faults S.asked shelf.old shelf.new) (streams I.left I.faults O.written O.flushed O.faults input.old input.new out.old out.new)
        (input.new ≡ input.old) ((input.new ≡ input.old) × (out.new ≡ out.old)) result }
    ensures unopened { (W.meaning command.now).opens ≡ false → shelf.new ≡ shelf.old }
{
    let _input = input;
    let report = command.report(alloc, shelf)?;
    let refused = put_report(&report, out)?;
    Ok(refused)
}

/// Writes the report of a command with items, and flushes.
pub fn write_items<W: OfItems, S: Shelf, I: Source, O: Sink, Rt: Threads + Wait + Sync>(
    rt: &Rt,
    alloc: Global,
    command: &W,
    shelf: &mut S,
    input: &mut I,
    out: &mut O,
    gate: &dyn Gate,
) -> Result<bool, Fault>
    requires { (W.meaning command.now).reads ≡ false }
    ensures ended { Ended (W.meaning command.now) (shelves S.files S.faults S.asked shelf.old shelf.new) (streams I.left I.faults O.written O.flushed O.faults input.old input.new out.old out.new)
        (input.new ≡ input.old) ((input.new ≡ input.old) × (out.new ≡ out.old)) result }
    ensures unopened { (W.meaning command.now).opens ≡ false → shelf.new ≡ shelf.old }
{
    let _input = input;
    let made = command.report(rt, alloc, shelf, gate)?;
    match made {
        ItemsReport::AllAnswered(report) => {
            let refused = put_report(&report, out)?;
            Ok(refused)
        }
        ItemsReport::WithGaps(lines) => Err(Fault::Stopped(put_with_gaps(&lines, out))),
    }
}
