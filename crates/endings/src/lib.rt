//! How a run of the program ends: over any command, that reads lines or none.
#![tactic(auto)]

ghost use Rattle.std.specs.Prelude.{◌≡◌, ◌++◌, ◌⊎◌, ◌≤◌, ℕ, List, Bool, Option, Some, Result, Ok, true, false};
ghost use Rattle.std.specs.List.{concat};
ghost use Rattle.std.specs.Thread.{IsSync};
ghost use Rattle.lkb_io.specs.Outside.{HasRisen};
ghost use Rattle.lkb_io.specs.Lines.{lines_of};
ghost use Rattle.endings.specs.Meanings.{Meaning, Lawful, FileFault, Fails, shelves};
ghost use Rattle.endings.specs.Readings.{AreReadable};
ghost use Rattle.endings.specs.Reports.{IsPut, output, streams};
ghost use Rattle.endings.specs.Endings.{Ended, RanInPart, RanWithGaps, StopsReading, IsFaultless, IsWhole, IsReadThrough, Tells, word_text, fault_text, status_of, is_items};
ghost use Rattle.endings.specs.Notes.{AreNoted, IsNoted, TellsBoth};
ghost use Rattle.endings.specs.declared.Fault.{Fault};

mod answering;
pub mod commands;
mod gathering;
pub mod in_turn;
mod kept;
pub mod lines;
mod noting;
mod pace;
pub mod pieces;
pub mod plain;
mod telling;

use lkb_io::{Failed, Shelf, Sink, Source, put_all};
use std::sync::Wait;
use std::thread::Threads;
use worker_gate::Gate;

// The usage text and its line end.
const USAGE: &[u8] =
    b"usage: lkb parse|chart|explain|generate|types|check GRAMMAR, lkb expand GRAMMAR NAME, lkb self-test NUMBER SIZE, lkb scope, lkb batch GRAMMAR PROFILE, lkb transfer RULES, with options\n";

/// Why a run over lines stops before the end.
#[derive(Clone, Copy, Debug, PartialEq, Eq)]
pub enum Stop {
    /// The source failed.
    Read,
    /// 65,536 bytes came without a line end.
    TooLong,
    /// 2^64 - 1 lines were answered, and the next would have no number.
    TooMany,
    /// The sink failed.
    Write,
    /// All was done, but memory was wanting for some items, which were told to be so.
    Gaps,
    /// Memory was wanting.
    NoMemory,
}

/// Why a run ends without its whole report.
#[derive(Debug, Drop)]
pub enum Fault {
    /// The words of the command line are outside the form. This text follows the usage text.
    Usage(Vec<u8>),
    /// The command's files have a fault, which is told by this line, and by the lines that follow it where they are asked for.
    Files(Vec<u8>),
    /// The run stopped, at a line or for want of memory.
    Stopped(Stop),
}

/// How a run of the program ends.
#[derive(Clone, Copy, Debug, PartialEq, Eq)]
pub enum Status {
    /// All was done, and no line is refused.
    Done,
    /// The words of the command line are outside the form.
    Usage,
    /// The command's files have a fault.
    Grammar,
    /// All was done, and some line is refused.
    Items,
    /// The source failed, or a line is too long.
    ReadFault,
    /// The sink failed.
    WriteFault,
    /// All was done, but memory was wanting for some items, which were told to be so.
    Gaps,
    /// Memory was wanting.
    NoMemory,
}

impl Status {
    ghost use Rattle.endings.specs.Endings.{code_of};

    /// The number by which the status goes out, as the exit status of the program.
    pub fn code(&self) -> u8
        ensures { result ≡ code_of self.now }
    {
        match self {
            Status::Done => 0,
            Status::Usage => 2,
            Status::Grammar => 3,
            Status::Items => 4,
            Status::ReadFault => 5,
            Status::WriteFault => 6,
            Status::Gaps | Status::NoMemory => 7,
        }
    }
}

impl From<Stop> for Fault {
    ghost use Rattle.endings.specs.declared.Fault.{Fault};

    ghost from_gives = { λ stop e. e ≡ Fault.Stopped stop };

    fn from(stop: Stop) -> Fault {
        Fault::Stopped(stop)
    }
}

/// A command of the program, with its positional words and its options.
pub trait Command {
    /// What the command is to do.
    ghost meaning: { Self → Meaning };

    /// What holds of the command's files and reports. It does nothing.
    fn lawful(&self)
        ensures { Lawful (meaning self.now) };

    /// Does what the command says, and tells on `err` the notes on lines, if it has any. `Ok` tells whether something is refused. The command
    /// has its allocator.
    fn perform<S: Shelf, I: Source, O: Sink, X: Sink, Rt: Threads + Wait + Sync>(
        &self,
        rt: &Rt,
        shelf: &mut S,
        input: &mut I,
        out: &mut O,
        err: &mut X,
        gate: &dyn Gate,
    ) -> Result<bool, Fault>
        requires { IsSync Rt.row }
        ensures ended { Ended (meaning self.now) (shelves S.files S.faults S.asked shelf.old shelf.new) (streams I.left I.faults O.written O.flushed O.faults input.old input.new out.old out.new)
            (input.new ≡ input.old) ((input.new ≡ input.old) × (out.new ≡ out.old)) result }
        ensures noted { IsNoted (meaning self.now) (S.files shelf.old) (I.left input.old) (I.left input.new) (output X.written X.flushed X.faults err.old err.new) result }
        ensures unopened { (meaning self.now).opens ≡ false → shelf.new ≡ shelf.old };
}

// What is told first of this end of a run.
fn text_of(end: &Result<bool, Fault>) -> &[u8]
    ensures { result.now ++ word_text end.now ≡ fault_text end.now }
{
    match end {
        Ok(_) => b"",
        Err(Fault::Usage(_)) => USAGE,
        Err(Fault::Files(text)) => text,
        Err(Fault::Stopped(Stop::Read)) | Err(Fault::Stopped(Stop::TooMany)) => {
            b"lkb: read fault\n"
        }
        Err(Fault::Stopped(Stop::TooLong)) => b"lkb: line too long\n",
        Err(Fault::Stopped(Stop::Write)) => b"lkb: write fault\n",
        Err(Fault::Stopped(Stop::Gaps)) | Err(Fault::Stopped(Stop::NoMemory)) => {
            b"lkb: no memory\n"
        }
    }
}

// What is told then: of words that are outside the form, the text that follows the usage text.
fn word_text_of(end: &Result<bool, Fault>) -> &[u8]
    ensures { result.now ≡ word_text end.now }
{
    match end {
        Err(Fault::Usage(text)) => text,
        _ => b"",
    }
}

// Tells this end of a run.
fn tell<X: Sink>(err: &mut X, end: &Result<bool, Fault>) -> Result<(), Failed>
    ensures { IsPut (fault_text end.now) (output X.written X.flushed X.faults err.old err.new) result }
{
    put_all(err, text_of(end))?;
    put_all(err, word_text_of(end))
}

// The status of this end of a run.
fn status_at(end: &Result<bool, Fault>) -> Status
    ensures { result ≡ status_of end.now }
{
    match end {
        Ok(false) => Status::Done,
        Ok(true) => Status::Items,
        Err(Fault::Usage(_)) => Status::Usage,
        Err(Fault::Files(_)) => Status::Grammar,
        Err(Fault::Stopped(Stop::Write)) => Status::WriteFault,
        Err(Fault::Stopped(Stop::Gaps)) => Status::Gaps,
        Err(Fault::Stopped(Stop::NoMemory)) => Status::NoMemory,
        Err(Fault::Stopped(_)) => Status::ReadFault,
    }
}

/// The status of this end of a run. Where it is a fault, its text is written to the error stream; a
/// fault of that stream changes nothing.
pub fn conclude<X: Sink>(err: &mut X, end: &Result<bool, Fault>) -> Status
    ensures status { result ≡ status_of end.now }
    ensures tells { Tells (X.written err.old) (X.written err.new) (X.faults err.old) (X.faults err.new) (fault_text end.now) }
    ensures silent { (refused : _) → end.now ≡ Ok refused → err.new ≡ err.old }
    ensures no_fall { X.faults err.old ≤ X.faults err.new }
{
    if end.is_err() {
        let _told = tell(err, end);
    }
    status_at(end)
}

/// Does what the command says, tells on `err` its notes on lines and then a fault by its text, and ends with the command's status. A fault of
/// `err` itself changes nothing. What the workers are, and when the gate lets them go on, no clause names.
pub fn run_command<C: Command, S: Shelf, I: Source, O: Sink, X: Sink, Rt: Threads + Wait + Sync>(
    rt: &Rt,
    command: &C,
    shelf: &mut S,
    input: &mut I,
    out: &mut O,
    err: &mut X,
    gate: &dyn Gate,
) -> Status
    // How the run ended. The status, the notes, and what was told of a fault, are those of this end.
    ensures ended { let h = shelves S.files S.faults S.asked shelf.old shelf.new in
        let o = streams I.left I.faults O.written O.flushed O.faults input.old input.new out.old out.new in
        (end : Result Bool Fault) × Ended (C.meaning command.now) h o (input.new ≡ input.old) ((input.new ≡ input.old) × (out.new ≡ out.old)) end
        × (result ≡ status_of end) × (notes : List ℕ) × AreNoted (C.meaning command.now) (S.files shelf.old) (I.left input.old) (I.left input.new) notes end
        × TellsBoth (X.written err.old) (X.written err.new) (X.faults err.old) (X.faults err.new) notes (fault_text end) }

    // The headline: after `Done` and `Items` the bytes written are the report over all lines of the input, which was
    // read to its end. It is `Items` where something is refused, and `Done` where nothing is.
    ensures report { (bytes before after : List ℕ) → (result ≡ Status.Done) ⊎ (result ≡ Status.Items)
        → I.left input.old ≡ Some bytes → O.written out.old ≡ Some before → O.written out.new ≡ Some after
        → (pieces : List (List ℕ)) × (C.meaning command.now).report (S.files shelf.old) (lines_of bytes) pieces (is_items result)
        × (after ≡ before ++ concat pieces) × IsReadThrough (C.meaning command.now) (I.left input.new) }
    ensures flushed { (result ≡ Status.Done) ⊎ (result ≡ Status.Items) → O.flushed out.new ≡ O.written out.new }

    // Then exactly the notes on all lines are told, which are none for most commands.
    ensures noted { (bytes : List ℕ) → (result ≡ Status.Done) ⊎ (result ≡ Status.Items) → I.left input.old ≡ Some bytes
        → (notes : List ℕ) × (C.meaning command.now).notes (S.files shelf.old) false (lines_of bytes) notes
        × Tells (X.written err.old) (X.written err.new) (X.faults err.old) (X.faults err.new) notes }

    // A command is never outside the form of the words. One that has no files leaves the shelf as it was.
    ensures no_usage { result ≡ Status.Usage → ⊥ }
    ensures unopened { (C.meaning command.now).opens ≡ false → shelf.new ≡ shelf.old }

    // `Grammar` only where the command's files have the fault that is told, and always where they have no report.
    // Nothing is read of the input, and nothing written to `out`.
    ensures grammar { let h = shelves S.files S.faults S.asked shelf.old shelf.new in
        result ≡ Status.Grammar → (fault : FileFault) × Fails (C.meaning command.now) h fault
        × Tells (X.written err.old) (X.written err.new) (X.faults err.old) (X.faults err.new) (fault.text ++ fault.details)
        × (input.new ≡ input.old) × (out.new ≡ out.old) }
    ensures no_grammar { ((C.meaning command.now).loadable (S.files shelf.old) → ⊥) → (result ≡ Status.Grammar) ⊎ (result ≡ Status.NoMemory) }

    // Where the shelf tells its files and counts no fault, it is their first fault that is told: its line, and then what may follow it.
    ensures first_fault { (files : List ℕ → Option (List ℕ)) (fault : FileFault) → S.files shelf.old ≡ Some files
        → (C.meaning command.now).first (Some files) (λ name. false) fault → (HasRisen (S.faults shelf.old) (S.faults shelf.new) → ⊥)
        → (result ≡ Status.NoMemory) ⊎ ((result ≡ Status.Grammar) × (told : FileFault) × (C.meaning command.now).first (Some files) (λ name. false) told
        × (told.text ≡ fault.text) × Tells (X.written err.old) (X.written err.new) (X.faults err.old) (X.faults err.new) (told.text ++ told.details)) }

    // `ReadFault` only where the source failed, a line is too long, or a line has no number; and always where a line
    // can't be read. Exactly the report over the lines before was written, and flushed, unless the sink failed.
    ensures read_fault { let h = shelves S.files S.faults S.asked shelf.old shelf.new in
        let o = streams I.left I.faults O.written O.flushed O.faults input.old input.new out.old out.new in
        result ≡ Status.ReadFault → StopsReading (C.meaning command.now) h o }
    ensures unreadable { let h = shelves S.files S.faults S.asked shelf.old shelf.new in
        let o = streams I.left I.faults O.written O.flushed O.faults input.old input.new out.old out.new in
        (files : List ℕ → Option (List ℕ)) (bytes : List ℕ) → (C.meaning command.now).reads ≡ true
        → S.files shelf.old ≡ Some files → I.left input.old ≡ Some bytes → (C.meaning command.now).loadable (Some files)
        → (AreReadable (lines_of bytes) → ⊥) → IsFaultless h o → (result ≡ Status.ReadFault) ⊎ (result ≡ Status.NoMemory) }

    // `WriteFault` only where the sink failed. Then a front of the report over lines that were read was written.
    ensures write_fault { let h = shelves S.files S.faults S.asked shelf.old shelf.new in
        let o = streams I.left I.faults O.written O.flushed O.faults input.old input.new out.old out.new in
        result ≡ Status.WriteFault → RanInPart (C.meaning command.now) h o × HasRisen (O.faults out.old) (O.faults out.new) }

    // After `Gaps` the input was read to its end, and the whole report was written and flushed, but that memory was wanting for some items,
    // which are told by a line each. After `NoMemory` a front of such a report, with gaps or without, over lines that were read was
    // written, and flushed, unless the sink failed; where memory was wanting before the first line, nothing was read or written.
    ensures gaps { (bytes before after : List ℕ) → result ≡ Status.Gaps
        → I.left input.old ≡ Some bytes → O.written out.old ≡ Some before → O.written out.new ≡ Some after
        → (pieces : List (List ℕ)) × (C.meaning command.now).with_gaps (S.files shelf.old) (lines_of bytes) pieces true
        × (after ≡ before ++ concat pieces) × IsReadThrough (C.meaning command.now) (I.left input.new) × (O.flushed out.new ≡ O.written out.new) }
    ensures no_memory { let h = shelves S.files S.faults S.asked shelf.old shelf.new in
        let o = streams I.left I.faults O.written O.flushed O.faults input.old input.new out.old out.new in
        result ≡ Status.NoMemory → ((input.new ≡ input.old) × (out.new ≡ out.old)) ⊎ RanWithGaps (C.meaning command.now) h o }

    // Completeness: where the told files have no fault, each line can be read and nothing fails, the whole report is
    // written, or memory was wanting, for some items alone or elsewhere. That report is the only one.
    ensures complete { let h = shelves S.files S.faults S.asked shelf.old shelf.new in
        let o = streams I.left I.faults O.written O.flushed O.faults input.old input.new out.old out.new in
        (files : List ℕ → Option (List ℕ)) (bytes : List ℕ) → S.files shelf.old ≡ Some files → I.left input.old ≡ Some bytes
        → (C.meaning command.now).loadable (Some files) → AreReadable (lines_of bytes) → IsFaultless h o → IsWhole (C.meaning command.now) h o bytes result }
    ensures one_report { (files : List ℕ → Option (List ℕ)) (lines pieces others : List (List ℕ)) (refused may : Bool)
        → (C.meaning command.now).report (Some files) lines pieces refused → (C.meaning command.now).report (Some files) lines others may
        → (pieces ≡ others) × (refused ≡ may) }
    ensures one_notes { (files : List ℕ → Option (List ℕ)) (lines : List (List ℕ)) (text other : List ℕ)
        → (C.meaning command.now).notes (Some files) false lines text → (C.meaning command.now).notes (Some files) false lines other → text ≡ other }
{
    command.lawful();
    let end = command.perform(rt, shelf, input, out, err, gate);
    conclude(err, &end)
}
