//! The grammar of some files as commands take it: loaded, or its first fault told as a line, under the flag with lines that show it.

ghost use Rattle.std.specs.Prelude.{◌≡◌, ◌≤◌, ◌++◌, ◌⊎◌, true, false, option_map, IfOk, IfErr};
ghost use Rattle.endings.specs.Meanings.{shelves};
ghost use Rattle.grammar_load.specs.Conditions.{IsLoaded};
ghost use Rattle.grammar_load.specs.Views.{grammar_of};
ghost use Rattle.grammar_files.specs.Faults.{IsFaultBy};
ghost use Rattle.grammar_files.specs.Walks.{fault_at};
ghost use Rattle.grammar_files.specs.declared.fault.Why.{Why};
ghost use Rattle.fault_details.specs.Further.{has_further};
ghost use Rattle.command_files.specs.Grammars.{AreDetails, HasGrammar, LacksGrammar};
ghost use Rattle.command_files.specs.Views.{AreDetailsOf, IsMoreOf, IsToldIn};

use crate::grammar_laws::load_without_faults;
use crate::{fault_of, followed, shown};
use endings::Fault;
use fault_details::further;
use grammar_files::Why;
use grammar_load::{Grammar, LoadFault, load};
use lkb_io::Shelf;
use std::alloc::Global;

// Lines with more lines, where memory isn't wanting for them.
fn with_more(lines: Vec<u8>, more: &[u8]) -> Vec<u8>
    ensures { (result.items ≡ lines.items ++ more.now) ⊎ (result.items ≡ lines.items) }
{
    let mut lines = lines;
    let _ = lines.extend_from_slice(more);
    lines
}

// Lines that show a fault, followed by what is told of it beyond them, where it can be told.
fn with_further<S: Shelf>(
    alloc: Global,
    shelf: &mut S,
    name: &str,
    settings: Option<&str>,
    why: &Why,
    lines: Vec<u8>,
) -> Vec<u8>
    ensures more { IsMoreOf (S.files shelf.old) name.now (option_map (λ s. s.now) settings.entry) why.now lines.items result.items }
    ensures still { has_further why.now ≡ false → shelf.new ≡ shelf.old }
    ensures same { S.files shelf.new ≡ S.files shelf.old }
    ensures no_fall { S.faults shelf.old ≤ S.faults shelf.new }
{
    match further(alloc, shelf, name, settings, why) {
        Ok(more) => with_more(lines, &more),
        Err(_) => lines,
    }
}

// The lines that follow the line of a fault under the flag. A fault of the shelf leaves the shelf as it is.
fn found_details<S: Shelf>(
    alloc: Global,
    shelf: &mut S,
    name: &str,
    settings: Option<&str>,
    file: &str,
    at: u32,
    why: &Why,
) -> Vec<u8>
    ensures details { AreDetails true (S.files shelf.old) name.now (option_map (λ s. s.now) settings.entry) (fault_at file.now at why.now) result.items }
    ensures still { why.now ≡ Why.Shelf → shelf.new ≡ shelf.old }
    ensures same { S.files shelf.new ≡ S.files shelf.old }
    ensures no_fall { S.faults shelf.old ≤ S.faults shelf.new }
{
    match shown(alloc, shelf, file, at, why) {
        Ok(lines) => with_further(alloc, shelf, name, settings, why, lines),
        Err(_) => Vec::new(alloc),
    }
}

// The lines that follow the line of this fault under the flag; want of memory has none.
fn details_of<S: Shelf>(
    alloc: Global,
    shelf: &mut S,
    name: &str,
    settings: Option<&str>,
    fault: &LoadFault,
) -> Vec<u8>
    ensures details { AreDetailsOf (S.files shelf.old) name.now (option_map (λ s. s.now) settings.entry) fault.now result.items }
    ensures still { IsFaultBy (λ f. f.why ≡ Why.Shelf → shelf.new ≡ shelf.old) fault.now }
    ensures same { S.files shelf.new ≡ S.files shelf.old }
    ensures no_fall { S.faults shelf.old ≤ S.faults shelf.new }
{
    match fault {
        LoadFault::NoMemory => Vec::new(alloc),
        LoadFault::Found { file, at, why } => {
            found_details(alloc, shelf, name, settings, file.as_str(), *at, why)
        }
    }
}

/// The grammar of this name, under the settings of the file of that name; or the line that tells the first fault of its
/// files, a fault of the shelf only where the shelf failed when it was asked for that file; or want of memory. Under the flag the line
/// is followed by those that show the fault and tell more of it, for which files are read once more.
pub fn load_grammar<S: Shelf>(
    alloc: Global,
    shelf: &mut S,
    name: &str,
    settings: Option<&str>,
    verbose: bool,
) -> Result<Grammar, Fault>
    ensures grammar { let h = shelves S.files S.faults S.asked shelf.old shelf.new in
        IfOk result (λ g. HasGrammar h.files name.now (option_map (λ s. s.now) settings.entry) (grammar_of g)) }
    ensures loaded { IfOk result (λ g. IsLoaded (grammar_of g)) }
    ensures fault { let h = shelves S.files S.faults S.asked shelf.old shelf.new in
        IfErr result (LacksGrammar h name.now (option_map (λ s. s.now) settings.entry) verbose) }
    ensures same { S.files shelf.new ≡ S.files shelf.old }
    ensures no_fall { S.faults shelf.old ≤ S.faults shelf.new }
{
    load_without_faults();
    match load(alloc, shelf, name, settings) {
        Ok(grammar) => Ok(grammar),
        Err(fault) => Err(told(alloc, shelf, name, settings, &fault, verbose)),
    }
}

// What a fault of a grammar's files is to a run.
fn told<S: Shelf>(
    alloc: Global,
    shelf: &mut S,
    name: &str,
    settings: Option<&str>,
    fault: &LoadFault,
    verbose: bool,
) -> Fault
    ensures told { IsToldIn verbose (S.files shelf.old) name.now (option_map (λ s. s.now) settings.entry) fault.now result }
    ensures still { IsFaultBy (λ f. f.why ≡ Why.Shelf → shelf.new ≡ shelf.old) fault.now }
    ensures same { S.files shelf.new ≡ S.files shelf.old }
    ensures no_fall { S.faults shelf.old ≤ S.faults shelf.new }
{
    let line = fault_of(alloc, fault);
    if !verbose {
        return line;
    }
    let details = details_of(alloc, shelf, name, settings, fault);
    followed(line, &details)
}
