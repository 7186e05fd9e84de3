//! The files of commands: the grammar of some, the text of one, and the lines that tell their faults.
#![tactic(auto)]

ghost use Rattle.std.specs.Prelude.{◌≡◌, ◌≤◌, [], false, IfOk, IfErr};
ghost use Rattle.lkb_io.specs.declared.ShelfFault.{ShelfFault};
ghost use Rattle.grammar_files.specs.TextViews.{IsShelfFault};
ghost use Rattle.grammar_files.specs.Walks.{IsText, fault_at};
ghost use Rattle.endings.specs.Meanings.{shelves};
ghost use Rattle.command_files.specs.FaultTexts.{has_place};
ghost use Rattle.command_files.specs.Told.{IsToldBy, IsToldAs};
ghost use Rattle.command_files.specs.Shown.{AreShown};
ghost use Rattle.command_files.specs.Texts.{LacksText};

mod causes;
pub mod grammar_laws;
mod grammars;
pub mod laws;
mod showing;
mod texts;

pub use causes::{cause, form_cause};
use endings::{Fault, Stop};
use grammar_files::{LoadFault, Why};
pub use grammars::load_grammar;
use lkb_io::{Shelf, ShelfFault};
pub use showing::{followed, place_shown, shown};
pub use std::alloc::AllocError as NoMemory;
use std::alloc::Global;
pub use texts::{found_line, has_place, word_line};

/// What a fault of files is to a run: the line that tells it, or want of memory.
pub fn fault_of(alloc: Global, fault: &LoadFault) -> Fault
    ensures { IsToldAs fault.now result }
{
    match fault {
        LoadFault::NoMemory => Fault::Stopped(Stop::NoMemory),
        LoadFault::Found { file, at, why } => match found_line(alloc, file.as_str(), *at, why) {
            Ok(text) => Fault::Files(text),
            Err(_) => Fault::Stopped(Stop::NoMemory),
        },
    }
}

// The line that tells a fault of the file of this name as a whole.
fn line_at(alloc: Global, name: &str, why: &Why) -> Fault
    ensures { IsToldBy (λ f details. (f ≡ fault_at name.now 0 why.now) × (details ≡ [])) result }
{
    match found_line(alloc, name, 0, why) {
        Ok(text) => Fault::Files(text),
        Err(_) => Fault::Stopped(Stop::NoMemory),
    }
}

// What a fault of the file of this name as a whole is to a run, with the lines that show it under the flag.
fn fault_at<S: Shelf>(alloc: Global, shelf: &mut S, name: &str, why: &Why, verbose: bool) -> Fault
    requires { has_place why.now ≡ false }
    ensures told { IsToldBy (λ f details. (f ≡ fault_at name.now 0 why.now) × AreShown verbose (S.files shelf.old) f details) result }
    ensures still { shelf.new ≡ shelf.old }
{
    let told = line_at(alloc, name, why);
    if !verbose {
        return told;
    }
    match shown(alloc, shelf, name, 0, why) {
        Ok(lines) => followed(told, &lines),
        Err(_) => told,
    }
}

// What the fault of a shelf that gives no text is to a run.
fn text_fault<S: Shelf>(
    alloc: Global,
    shelf: &mut S,
    name: &str,
    fault: ShelfFault,
    verbose: bool,
) -> Fault
    ensures told { IsToldBy (λ f details. IsShelfFault name.now fault f × AreShown verbose (S.files shelf.old) f details) result }
    ensures still { shelf.new ≡ shelf.old }
{
    match fault {
        ShelfFault::Failed => fault_at(alloc, shelf, name, &Why::Shelf, verbose),
        ShelfFault::TooLong => fault_at(alloc, shelf, name, &Why::TooLong, verbose),
        ShelfFault::NoMemory => Fault::Stopped(Stop::NoMemory),
    }
}

/// The text of the file of this name, which is taken as it is written and has at most 67,108,864 bytes; or the line that tells why
/// there is none: a fault of the shelf, only where the shelf failed when it was asked for this file, or that the file is longer;
/// or want of memory. Under the flag the line is followed by those that show the fault.
pub fn load_text<S: Shelf>(
    alloc: Global,
    shelf: &mut S,
    name: &str,
    verbose: bool,
) -> Result<Vec<u8>, Fault>
    ensures text { IfOk result (λ v. IsText (S.files shelf.old) name.now v.items) }
    ensures fault { let h = shelves S.files S.faults S.asked shelf.old shelf.new in IfErr result (LacksText h name.now verbose) }
    ensures same { S.files shelf.new ≡ S.files shelf.old }
    ensures no_fall { S.faults shelf.old ≤ S.faults shelf.new }
{
    match shelf.text(alloc, name) {
        Ok(text) => Ok(text),
        Err(fault) => Err(text_fault(alloc, shelf, name, fault, verbose)),
    }
}
