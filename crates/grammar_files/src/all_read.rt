//! What the files of a grammar say: its settings, its statements, and then the text of its irregular forms.

ghost use Rattle.std.specs.Prelude.{◌≡◌, ℕ, ◌≤◌, List, Bool, IfOk, IfErr, Ok, Err, Option, option_map, Some, None, string_bytes};
ghost use Rattle.lkb_io.specs.declared.ShelfFault.{ShelfFault};
ghost use Rattle.grammar_settings.specs.Forms.{Name};
ghost use Rattle.grammar_files.specs.Faults.{IsFaultBy};
ghost use Rattle.grammar_files.specs.TextViews.{IsShelfFault, Covers};
ghost use Rattle.grammar_files.specs.WalkViews.{walked_of, CanSettle};
ghost use Rattle.grammar_files.specs.Walks.{IsText, has_failed};
ghost use Rattle.grammar_files.specs.Reads.{AreIrregular, ReadsTo};
ghost use Rattle.grammar_files.specs.Views.{read_of};

use crate::{LoadFault, Walked, Why, found, walk};
use lkb_io::{Shelf, ShelfFault};
use std::alloc::Global;

/// What the files of a grammar say: what was walked, and the text of the irregular forms, empty where the settings name none.
#[derive(Drop)]
pub struct Read {
    pub walked: Walked,
    pub irregular: Vec<u8>,
}

// The fault of a shelf that gives no text.
fn shelf_fault(alloc: Global, file: &str, fault: ShelfFault) -> LoadFault
    ensures { IsFaultBy (IsShelfFault file.now fault) result }
{
    match fault {
        ShelfFault::Failed => found(alloc, file, 0, Why::Shelf),
        ShelfFault::TooLong => found(alloc, file, 0, Why::TooLong),
        ShelfFault::NoMemory => LoadFault::NoMemory,
    }
}

// The text of the irregular forms in the file of this name, which is taken as it is written.
fn named_text<S: Shelf>(alloc: Global, shelf: &mut S, name: &str) -> Result<Vec<u8>, LoadFault>
    ensures text { IfOk result (λ v. (fails : Name → Bool) → AreIrregular (S.files shelf.old) fails (Some name.now) (Ok v.items)) }
    ensures fault { IfErr result (IsFaultBy (λ f. (fails : Name → Bool) → Covers (S.faults shelf.old) (S.faults shelf.new) (S.asked shelf.new) fails → AreIrregular (S.files shelf.old) fails (Some name.now) (Err f))) }
    ensures same { S.files shelf.new ≡ S.files shelf.old }
    ensures no_fall { S.faults shelf.old ≤ S.faults shelf.new }
{
    match shelf.text(alloc, name) {
        Ok(text) => Ok(text),
        Err(fault) => Err(shelf_fault(alloc, name, fault)),
    }
}

// The text of the irregular forms, which is empty where there is no file of them.
fn irregular_text<S: Shelf>(
    alloc: Global,
    shelf: &mut S,
    file: &Option<String>,
) -> Result<Vec<u8>, LoadFault>
    ensures text { IfOk result (λ v. (fails : Name → Bool) → AreIrregular (S.files shelf.old) fails (option_map string_bytes file.now) (Ok v.items)) }
    ensures fault { IfErr result (IsFaultBy (λ f. (fails : Name → Bool) → Covers (S.faults shelf.old) (S.faults shelf.new) (S.asked shelf.new) fails → AreIrregular (S.files shelf.old) fails (option_map string_bytes file.now) (Err f))) }
    ensures same { S.files shelf.new ≡ S.files shelf.old }
    ensures no_fall { S.faults shelf.old ≤ S.faults shelf.new }
{
    match file {
        None => Ok(Vec::new(alloc)),
        Some(name) => named_text(alloc, shelf, name.as_str()),
    }
}

/// Reads the files of a grammar: the settings, the TDL files from the top one on, and then the irregular forms.
///
/// The fault is the first in this order. A fault of the shelf comes only where the shelf's count of faults rose.
pub fn read_files<S: Shelf>(
    alloc: Global,
    shelf: &mut S,
    top: &str,
    settings: Option<&str>,
) -> Result<Read, LoadFault>
    ensures read { let fails = has_failed (S.faults shelf.old) (S.faults shelf.new) (S.asked shelf.new) in
        IfOk result (λ r. ReadsTo (S.files shelf.old) fails top.now (option_map (λ n. n.now) settings.entry) (Ok (read_of r))) }
    ensures fault { let fails = has_failed (S.faults shelf.old) (S.faults shelf.new) (S.asked shelf.new) in
        IfErr result (IsFaultBy (λ f. ReadsTo (S.files shelf.old) fails top.now (option_map (λ n. n.now) settings.entry) (Err f))) }
    ensures settled { IfOk result (λ r. CanSettle (walked_of r.walked)) }
    ensures same { S.files shelf.new ≡ S.files shelf.old }
    ensures no_fall { S.faults shelf.old ≤ S.faults shelf.new }
{
    let walked = walk(alloc, shelf, top, settings)?;
    let irregular = irregular_text(alloc, shelf, &walked.settings.irregular_file)?;
    Ok(Read { walked, irregular })
}
