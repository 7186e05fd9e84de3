//! The walk over the files of a grammar.

ghost use Rattle.std.specs.Prelude.{◌≡◌, ℕ, ◌<◌, ◌≤◌, ◌++◌, ◌∷◌, [], List, Bool, true, false, length, map, IfOk, IfErr, OnOk, Ok, Err, Option, option_map, Some, None, string_bytes};
ghost use Rattle.tdl_reader.specs.Views.{statement_of};
ghost use Rattle.grammar_files.specs.declared.fault.Why.{Why};
ghost use Rattle.grammar_files.specs.Environments.{breaks, place_of, left_open};
ghost use Rattle.grammar_files.specs.Faults.{IsFaultBy};
ghost use Rattle.grammar_settings.specs.Forms.{Name, is_among};
ghost use Rattle.grammar_files.specs.FileNames.{with_ending};
ghost use Rattle.grammar_settings.specs.SettingsViews.{names_in};
ghost use Rattle.grammar_files.specs.Walks.{WalksFile, WalksTo, with_file, has_failed, fault_at};
ghost use Rattle.grammar_files.specs.TextViews.{Covers};
ghost use Rattle.grammar_files.specs.WalkViews.{walk_of, walked_of, IsTurnedAway, Taken, CanSettle};

use crate::Placed;
use crate::environment::Environment;
use crate::fault::{LoadFault, Why};
use crate::file_names::with_ending;
use crate::placed_statements::place_of;
use crate::reading::{found, read_settings, said};
use crate::statements::{breaks, environment_after, included, left_open, place, status_in};
use grammar_settings::{NoMemory, Settings};
use lkb_io::Shelf;
use std::alloc::Global;
use tdl_reader::Statement;

/// What the files of a grammar say: its settings, its definitions and addenda in order of writing, and the names of its
/// TDL files in order of reading. A file that is read twice stands there twice.
#[derive(Drop)]
pub struct Walked {
    pub settings: Settings,
    pub statements: Vec<Placed>,
    pub files: Vec<String>,
}

/// The most TDL files that one grammar has.
pub const MOST_FILES: usize = 1024;

/// What was met so far in a walk.
#[derive(Drop)]
struct Progress {
    placed: Vec<Placed>,
    files: Vec<String>,
    environment: Option<Environment>,
}

// Whether a name is one of these.
fn is_among(names: &[String], name: &str) -> bool
    ensures { result ≡ is_among (map string_bytes names.now) name.now }
{
    for n in names {
        if n.as_str() == name {
            return true;
        }
    }
    false
}

// Turns a file away that is being walked already, or that would be one too many.
fn admit(alloc: Global, open: &[String], files: &[String], name: &str) -> Result<(), LoadFault>
    ensures ok { OnOk result ((is_among (map string_bytes open.now) name.now ≡ false) × (length files.now < 1024)) }
    ensures fault { IfErr result (IsFaultBy (IsTurnedAway (map string_bytes open.now) (length files.now) name.now)) }
{
    if is_among(open, name) {
        return Err(found(alloc, name, 0, Why::IncludeLoop));
    }
    if files.len() >= MOST_FILES {
        return Err(found(alloc, name, 0, Why::TooManyFiles));
    }
    Ok(())
}

impl Progress {
    // Takes a statement of the file of this name and number. Gives the file that it includes, if it does.
    fn take(
        &mut self,
        alloc: Global,
        name: &str,
        file: u32,
        statement: Statement,
    ) -> Result<Option<String>, LoadFault>
        ensures lawful { OnOk result (breaks (walk_of self.old).environment (statement_of statement) ≡ false) }
        ensures taken { IfOk result (λ o. Taken file name.now (walk_of self.old) (statement_of statement) (walk_of self.new) (option_map string_bytes o)) }
        ensures fault { IfErr result (IsFaultBy (λ f. (breaks (walk_of self.old).environment (statement_of statement) ≡ true) × (f ≡ fault_at name.now (place_of (statement_of statement)) Why.Environment))) }
    {
        if breaks(&self.environment, &statement) {
            return Err(found(alloc, name, place_of(&statement), Why::Environment));
        }
        if let Some(included) = included(alloc, name, &statement)? {
            return Ok(Some(included));
        }
        let status = status_in(&self.environment);
        self.environment = environment_after(self.environment, file, &statement);
        place(&mut self.placed, statement, status, file)?;
        Ok(None)
    }
}

// Enters a file: it stands among those that were read, and among those that are being walked. Gives its number.
fn enter(open: &mut Vec<String>, progress: &mut Progress, name: &String) -> Result<u32, NoMemory>
    requires { length progress.old.files.items < 1024 }
    ensures number { IfOk result (λ n. n ≡ length (names_in progress.old.files)) }
    ensures entered { OnOk result (walk_of progress.new ≡ with_file (walk_of progress.old) (string_bytes name.now)) }
    ensures open { OnOk result (names_in open.new ≡ names_in open.old ++ string_bytes name.now ∷ []) }
{
    let number = progress.files.len() as u32;
    progress.files.push(name.clone()?)?;
    open.push(name.clone()?)?;
    Ok(number)
}

// Leaves a file at its end.
fn leave(
    alloc: Global,
    open: &mut Vec<String>,
    environment: &Option<Environment>,
    name: &str,
    file: u32,
) -> Result<(), LoadFault>
    ensures ended { OnOk result (left_open file environment.now ≡ None) }
    ensures open { (within : List Name) → names_in open.old ≡ within ++ name.now ∷ [] → OnOk result (names_in open.new ≡ within) }
    ensures fault { IfErr result (IsFaultBy (λ f. (at : ℕ) × (left_open file environment.now ≡ Some at) × (f ≡ fault_at name.now at Why.Environment))) }
{
    if let Some(at) = left_open(environment, file) {
        return Err(found(alloc, name, at, Why::Environment));
    }
    open.pop();
    Ok(())
}

// Walks a file, within the files that are being walked already: it is read whole, and then its statements are taken in
// order, an include where it stands.
fn walk_file<S: Shelf>(
    alloc: Global,
    shelf: &mut S,
    open: &mut Vec<String>,
    progress: &mut Progress,
    name: String,
) -> Result<(), LoadFault>
    ensures walked { OnOk result ((fails : Name → Bool) → WalksFile (S.files shelf.old) fails (names_in open.old) (walk_of progress.old) (string_bytes name) (Ok (walk_of progress.new))) }
    ensures open { OnOk result (names_in open.new ≡ names_in open.old) }
    ensures grows { OnOk result (length progress.old.files.items < length progress.new.files.items) }
    ensures fault { IfErr result (IsFaultBy (λ f. (fails : Name → Bool) → Covers (S.faults shelf.old) (S.faults shelf.new) (S.asked shelf.new) fails → WalksFile (S.files shelf.old) fails (names_in open.old) (walk_of progress.old) (string_bytes name) (Err f))) }
    ensures same { S.files shelf.new ≡ S.files shelf.old }
    ensures no_fall { S.faults shelf.old ≤ S.faults shelf.new }
{
    admit(alloc, open, &progress.files, &name)?;
    let statements = said(alloc, shelf, &name)?;
    let file = enter(open, progress, &name)?;
    for statement in statements {
        if let Some(included) = progress.take(alloc, &name, file, statement)? {
            walk_file(alloc, shelf, open, progress, included)?;
        }
    }
    leave(alloc, open, &progress.environment, &name, file)
}

/// Reads the settings file, if there is one, and then the TDL files of a grammar from the top one on.
///
/// `.tdl` is added to the top name where no `.` stands after its last `/`. Each file is read whole before its statements
/// are taken in order, and an include is followed where it stands (DELPH-IN TDL). The first fault is given: a file that the
/// shelf doesn't give, one that includes itself or is the 1,025th, one whose bytes are no tokens or whose tokens are no
/// statements, and a statement that stands in no environment that takes it. `specs/Walks.antt` says what the files say.
pub fn walk<S: Shelf>(
    alloc: Global,
    shelf: &mut S,
    top: &str,
    settings: Option<&str>,
) -> Result<Walked, LoadFault>
    ensures walked { let fails = has_failed (S.faults shelf.old) (S.faults shelf.new) (S.asked shelf.new) in
        IfOk result (λ w. WalksTo (S.files shelf.old) fails top.now (option_map (λ n. n.now) settings.entry) (Ok (walked_of w))) }
    ensures fault { let fails = has_failed (S.faults shelf.old) (S.faults shelf.new) (S.asked shelf.new) in
        IfErr result (IsFaultBy (λ f. WalksTo (S.files shelf.old) fails top.now (option_map (λ n. n.now) settings.entry) (Err f))) }
    ensures settled { IfOk result (λ w. CanSettle (walked_of w)) }
    ensures same { S.files shelf.new ≡ S.files shelf.old }
    ensures no_fall { S.faults shelf.old ≤ S.faults shelf.new }
{
    let settings = read_settings(alloc, shelf, settings)?;
    let top = with_ending(alloc, top)?;
    let mut open = Vec::new(alloc);
    let mut progress = Progress {
        placed: Vec::new(alloc),
        files: Vec::new(alloc),
        environment: None,
    };
    walk_file(alloc, shelf, &mut open, &mut progress, top)?;
    Ok(Walked {
        settings,
        statements: progress.placed,
        files: progress.files,
    })
}
