//! The top call: one function, `run`, does all that the program does.
#![tactic(auto)]

ghost use Rattle.std.specs.Prelude.{◌≡◌, ◌++◌, ◌⊎◌, ℕ, List, Bool, Option, Some, Result, true, false, map, string_bytes};
ghost use Rattle.std.specs.List.{concat};
ghost use Rattle.lkb_io.specs.Outside.{HasRisen};
ghost use Rattle.lkb_io.specs.Lines.{lines_of};
ghost use Rattle.command_line.specs.Words.{Form, IsForm};
ghost use Rattle.endings.specs.Meanings.{FileFault, Fails, shelves};
ghost use Rattle.endings.specs.Reports.{streams};
ghost use Rattle.endings.specs.Readings.{AreReadable};
ghost use Rattle.endings.specs.Notes.{TellsBoth};
ghost use Rattle.endings.specs.Endings.{RanInPart, RanWithGaps, StopsReading, IsFaultless, IsReadThrough, IsWhole, Tells, fault_text, usage_line, status_of, is_items};
ghost use Rattle.endings.specs.declared.Fault.{Fault};
ghost use Rattle.top_call.specs.Commands.{meaning_of};
ghost use Rattle.top_call.specs.Runs.{IsFormless, RunEnded, TellsWords};

pub mod asked;
pub mod help;
pub mod laws;

use asked::{asked_by, fault_of};
use command_line::laws::one_form;
use endings::{Status, conclude, run_command};
use laws::built_lawful;
use lkb_io::{Shelf, Sink, Source};
use std::alloc::AllocGlobal;
use std::sync::Wait;
use std::thread::Threads;
use worker_gate::Gate;

/// Does all that the program does: reads the words of the command line, which don't hold the program's name, does
/// what they say, and tells how it ended. The order is: words, the command's files from the shelf, then the input,
/// where the command reads it, line by line: read, answer, write. Notes on lines are told on `err`, and then a fault by
/// its text; a fault of `err` itself changes nothing. No clause names the workers or the gate.
pub fn run<S: Shelf, I: Source, O: Sink, X: Sink, Rt: AllocGlobal + Threads + Wait + Sync>(
    rt: &Rt,
    words: &[String],
    shelf: &mut S,
    input: &mut I,
    out: &mut O,
    err: &mut X,
    gate: &dyn Gate,
) -> Status
    // How the run ended, by what the words ask for. The status, the notes, and what was told of a fault, are those of this end.
    ensures ended { let h = shelves S.files S.faults S.asked shelf.old shelf.new in
        let o = streams I.left I.faults O.written O.flushed O.faults input.old input.new out.old out.new in
        (end : Result Bool Fault) × (notes : List ℕ) × RunEnded (map (λ w. string_bytes w) words.now) h o (shelf.new ≡ shelf.old) (input.new ≡ input.old) ((input.new ≡ input.old) × (out.new ≡ out.old)) notes end
        × (result ≡ status_of end) × TellsBoth (X.written err.old) (X.written err.new) (X.faults err.old) (X.faults err.new) notes (fault_text end) }

    // The headline: after `Done` and `Items` the bytes written are the report over all lines of the input, which was
    // read to its end where the command reads it. It is `Items` where something is refused, and `Done` where nothing is.
    ensures report { (bytes before after : List ℕ) → (result ≡ Status.Done) ⊎ (result ≡ Status.Items)
        → I.left input.old ≡ Some bytes → O.written out.old ≡ Some before → O.written out.new ≡ Some after
        → (form : Form) × (pieces : List (List ℕ)) × IsForm (map (λ w. string_bytes w) words.now) form
        × (meaning_of form).report (S.files shelf.old) (lines_of bytes) pieces (is_items result)
        × (after ≡ before ++ concat pieces) × IsReadThrough (meaning_of form) (I.left input.new) }
    ensures flushed { (result ≡ Status.Done) ⊎ (result ≡ Status.Items) → O.flushed out.new ≡ O.written out.new }

    // Then exactly the notes on all lines are told, which are none for most commands, and for each command without the flag.
    ensures noted { (bytes : List ℕ) → (result ≡ Status.Done) ⊎ (result ≡ Status.Items) → I.left input.old ≡ Some bytes
        → (form : Form) × (notes : List ℕ) × IsForm (map (λ w. string_bytes w) words.now) form × (meaning_of form).notes (S.files shelf.old) false (lines_of bytes) notes
        × Tells (X.written err.old) (X.written err.new) (X.faults err.old) (X.faults err.new) notes }

    // `Usage` only where the words are of no form, and always there, unless memory was wanting. Nothing is read, and
    // nothing written to `out`. What is told is the usage text and the line of the words' fault, or the usage text alone,
    // where memory was wanting for that line.
    ensures usage { result ≡ Status.Usage → IsFormless (map (λ w. string_bytes w) words.now)
        × (shelf.new ≡ shelf.old) × (input.new ≡ input.old) × (out.new ≡ out.old)
        × ((text : List ℕ) × TellsWords (map (λ w. string_bytes w) words.now) text
        × Tells (X.written err.old) (X.written err.new) (X.faults err.old) (X.faults err.new) (usage_line ++ text)) }
    ensures no_form { IsFormless (map (λ w. string_bytes w) words.now) → ((result ≡ Status.Usage) ⊎ (result ≡ Status.NoMemory))
        × (shelf.new ≡ shelf.old) × (input.new ≡ input.old) × (out.new ≡ out.old) }
    ensures unopened { (form : Form) → IsForm (map (λ w. string_bytes w) words.now) form → (meaning_of form).opens ≡ false → shelf.new ≡ shelf.old }

    // `Grammar` only where the command's files have the fault that is told, and always where they have no report.
    // Nothing is read of the input, and nothing written to `out`.
    ensures grammar { let h = shelves S.files S.faults S.asked shelf.old shelf.new in
        result ≡ Status.Grammar → (form : Form) × (fault : FileFault)
        × IsForm (map (λ w. string_bytes w) words.now) form × Fails (meaning_of form) h fault
        × Tells (X.written err.old) (X.written err.new) (X.faults err.old) (X.faults err.new) (fault.text ++ fault.details)
        × (input.new ≡ input.old) × (out.new ≡ out.old) }
    ensures no_grammar { (form : Form) → IsForm (map (λ w. string_bytes w) words.now) form
        → ((meaning_of form).loadable (S.files shelf.old) → ⊥) → (result ≡ Status.Grammar) ⊎ (result ≡ Status.NoMemory) }

    // Where the shelf tells its files and counts no fault, it is their first fault that is told: its line, and then what may follow it.
    ensures first_fault { (form : Form) (files : List ℕ → Option (List ℕ)) (fault : FileFault)
        → IsForm (map (λ w. string_bytes w) words.now) form → S.files shelf.old ≡ Some files
        → (meaning_of form).first (Some files) (λ name. false) fault → (HasRisen (S.faults shelf.old) (S.faults shelf.new) → ⊥)
        → (result ≡ Status.NoMemory) ⊎ ((result ≡ Status.Grammar) × (told : FileFault) × (meaning_of form).first (Some files) (λ name. false) told
        × (told.text ≡ fault.text) × Tells (X.written err.old) (X.written err.new) (X.faults err.old) (X.faults err.new) (told.text ++ told.details)) }

    // `ReadFault` only where the source failed, a line is too long, or a line has no number; and always where a line
    // that the command reads can't be read. Exactly the report over the lines before was written, and flushed, unless the sink failed.
    ensures read_fault { let h = shelves S.files S.faults S.asked shelf.old shelf.new in
        let o = streams I.left I.faults O.written O.flushed O.faults input.old input.new out.old out.new in
        result ≡ Status.ReadFault → (form : Form) × IsForm (map (λ w. string_bytes w) words.now) form × StopsReading (meaning_of form) h o }
    ensures unreadable { let h = shelves S.files S.faults S.asked shelf.old shelf.new in
        let o = streams I.left I.faults O.written O.flushed O.faults input.old input.new out.old out.new in
        (form : Form) (files : List ℕ → Option (List ℕ)) (bytes : List ℕ) → IsForm (map (λ w. string_bytes w) words.now) form
        → (meaning_of form).reads ≡ true → S.files shelf.old ≡ Some files → I.left input.old ≡ Some bytes
        → (meaning_of form).loadable (Some files) → (AreReadable (lines_of bytes) → ⊥) → IsFaultless h o
        → (result ≡ Status.ReadFault) ⊎ (result ≡ Status.NoMemory) }

    // `WriteFault` only where the sink failed. Then a front of the report over lines that were read was written.
    ensures write_fault { let h = shelves S.files S.faults S.asked shelf.old shelf.new in
        let o = streams I.left I.faults O.written O.flushed O.faults input.old input.new out.old out.new in
        result ≡ Status.WriteFault → (form : Form) × IsForm (map (λ w. string_bytes w) words.now) form
        × RanInPart (meaning_of form) h o × HasRisen (O.faults out.old) (O.faults out.new) }

    // After `Gaps` the input was read to its end, where the command reads it, and the whole report was written and flushed, but that memory
    // was wanting for some items, which are told by a line each. After `NoMemory` a front of such a report, with gaps or without, over
    // lines that were read was written, and flushed, unless the sink failed; where memory was wanting before the first line, nothing was read or written.
    ensures gaps { (bytes before after : List ℕ) → result ≡ Status.Gaps
        → I.left input.old ≡ Some bytes → O.written out.old ≡ Some before → O.written out.new ≡ Some after
        → (form : Form) × (pieces : List (List ℕ)) × IsForm (map (λ w. string_bytes w) words.now) form
        × (meaning_of form).with_gaps (S.files shelf.old) (lines_of bytes) pieces true
        × (after ≡ before ++ concat pieces) × IsReadThrough (meaning_of form) (I.left input.new) × (O.flushed out.new ≡ O.written out.new) }
    ensures no_memory { let h = shelves S.files S.faults S.asked shelf.old shelf.new in
        let o = streams I.left I.faults O.written O.flushed O.faults input.old input.new out.old out.new in
        result ≡ Status.NoMemory → ((input.new ≡ input.old) × (out.new ≡ out.old))
        ⊎ ((form : Form) × IsForm (map (λ w. string_bytes w) words.now) form × RanWithGaps (meaning_of form) h o) }

    // Completeness: where the words are in the form, the told files have no fault, each line can be read and nothing
    // fails, the whole report is written, or memory was wanting, for some items alone or elsewhere. That report is the only one.
    ensures complete { let h = shelves S.files S.faults S.asked shelf.old shelf.new in
        let o = streams I.left I.faults O.written O.flushed O.faults input.old input.new out.old out.new in
        (form : Form) (files : List ℕ → Option (List ℕ)) (bytes : List ℕ) → IsForm (map (λ w. string_bytes w) words.now) form
        → S.files shelf.old ≡ Some files → I.left input.old ≡ Some bytes
        → (meaning_of form).loadable (Some files) → AreReadable (lines_of bytes) → IsFaultless h o → IsWhole (meaning_of form) h o bytes result }
    ensures one_report { (form : Form) (files : List ℕ → Option (List ℕ)) (lines pieces others : List (List ℕ)) (refused may : Bool)
        → (meaning_of form).report (Some files) lines pieces refused → (meaning_of form).report (Some files) lines others may
        → (pieces ≡ others) × (refused ≡ may) }
    ensures one_notes { (form : Form) (files : List ℕ → Option (List ℕ)) (lines : List (List ℕ)) (text other : List ℕ)
        → (meaning_of form).notes (Some files) false lines text → (meaning_of form).notes (Some files) false lines other → text ≡ other }
{
    one_form();
    built_lawful();
    match asked_by(rt.alloc(), words) {
        Ok(command) => run_command(rt, &command, shelf, input, out, err, gate),
        Err(fault) => conclude(err, &Err(fault_of(rt.alloc(), fault, words))),
    }
}
