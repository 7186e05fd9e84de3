//! What is told of a fault beyond its place: the two types that clash in a definition, and the path that was looked at for daughters or
//! words.
#![tactic(auto)]

ghost use Rattle.std.specs.Prelude.{◌≡◌, ◌≢◌, ◌≤◌, ℕ, true, false, List, map, Some, Ok, Err, option_map, string_bytes, IfOk, IsErrOf};
ghost use Rattle.grammar_files.specs.Faults.{FoundFault};
ghost use Rattle.grammar_files.specs.Walks.{WalkedTree, WalksTo};
ghost use Rattle.grammar_files.specs.WalkViews.{walked_of, CanSettle};
ghost use Rattle.grammar_files.specs.Reads.{ReadTree};
ghost use Rattle.grammar_load.specs.Loads.{Makes};
ghost use Rattle.fault_places.specs.Places.{set_in};
ghost use Rattle.fault_details.specs.Further.{never, names_path, is_clash, has_further, IsFurther, IsFurtherLine, IsExpansionLine};
ghost use Rattle.fault_details.specs.Views.{CannotLack, FaultIsMade};

pub mod laws;
mod structures;
mod texts;

use constraint_expand::ExpandFault;
use fault_places::Lack;
use grammar_files::laws::{one_walk, walk_without_faults};
use grammar_files::{LoadFault, Walked, Why, walk};
use lkb_io::Shelf;
use std::alloc::Global;
use structures::clash_line;
use texts::names_line;

// What a fault of files is here: they had none before.
fn lack_in(fault: &LoadFault) -> Lack
    ensures { result ≡ Lack.Unread → fault.now ≢ LoadFault.NoMemory }
{
    match fault {
        LoadFault::NoMemory => Lack::NoMemory,
        LoadFault::Found { .. } => Lack::Unread,
    }
}

// What the files say, read once more.
fn walked_again<S: Shelf>(
    alloc: Global,
    shelf: &mut S,
    name: &str,
    settings: Option<&str>,
) -> Result<Walked, Lack>
    ensures walked { IfOk result (λ w. WalksTo (S.files shelf.old) never name.now (option_map (λ n. n.now) settings.entry) (Ok (walked_of w))) }
    ensures settled { IfOk result (λ w. CanSettle (walked_of w)) }
    ensures read { IsErrOf result Lack.Unread → CannotLack (S.files shelf.old) (S.faults shelf.old) (S.faults shelf.new)
        (λ told. (w : WalkedTree) × WalksTo (Some told) never name.now (option_map (λ n. n.now) settings.entry) (Ok w)) }
    ensures same { S.files shelf.new ≡ S.files shelf.old }
    ensures no_fall { S.faults shelf.old ≤ S.faults shelf.new }
{
    one_walk();
    walk_without_faults();
    match walk(alloc, shelf, name, settings) {
        Ok(walked) => Ok(walked),
        Err(fault) => Err(lack_in(&fault)),
    }
}

// The line of a path by names.
fn path_line(alloc: Global, path: &[String]) -> Result<Vec<u8>, Lack>
    ensures line { IfOk result (λ v. v.items ≡ set_in (names_path (map string_bytes path.now))) }
    ensures read { IsErrOf result Lack.Unread → ⊥ }
{
    match names_line(alloc, path) {
        Ok(line) => Ok(line),
        Err(_) => Err(Lack::NoMemory),
    }
}

// The line of a fault of expansion of which there is more to tell, where this was walked.
fn expansion_line(alloc: Global, walked: &Walked, fault: &ExpandFault) -> Result<Vec<u8>, Lack>
    requires settled { CanSettle (walked_of walked.now) }
    requires more { is_clash fault.now ≡ true }
    ensures line { IfOk result (λ v. (line : List ℕ) × IsExpansionLine (walked_of walked.now) fault.now line × (v.items ≡ set_in line)) }
    ensures read { IsErrOf result Lack.Unread → (r : ReadTree) (f : FoundFault) → r.walked ≡ walked_of walked.now → f.why ≡ Why.Expand fault.now → Makes r (Err f) → ⊥ }
{
    match fault {
        ExpandFault::NoStructure { statement, .. } => clash_line(alloc, walked, *statement),
        ExpandFault::UnknownName { .. }
        | ExpandFault::NoIntro { .. }
        | ExpandFault::Intro { .. }
        | ExpandFault::NoMemory => unreachable!(),
    }
}

// The line of a cause of which there is more to tell, where this was walked.
fn further_line(alloc: Global, walked: &Walked, why: &Why) -> Result<Vec<u8>, Lack>
    requires settled { CanSettle (walked_of walked.now) }
    requires more { has_further why.now ≡ true }
    ensures line { IfOk result (λ v. (line : List ℕ) × IsFurtherLine (walked_of walked.now) why.now line × (v.items ≡ set_in line)) }
    ensures read { IsErrOf result Lack.Unread → (r : ReadTree) (f : FoundFault) → r.walked ≡ walked_of walked.now → f.why ≡ why.now → Makes r (Err f) → ⊥ }
{
    match why {
        Why::Arity => path_line(alloc, &walked.settings.args_path),
        Why::Orthography => path_line(alloc, &walked.settings.orth_path),
        Why::Expand(fault) => expansion_line(alloc, walked, fault),
        Why::Settings
        | Why::Shelf
        | Why::TooLong
        | Why::IncludeLoop
        | Why::TooManyFiles
        | Why::Lex(_)
        | Why::Read(_)
        | Why::Environment
        | Why::Typing(_)
        | Why::TooManyTypes => unreachable!(),
    }
}

// Whether there is more to tell of a fault of expansion than its place.
fn is_clash(fault: &ExpandFault) -> bool
    ensures { result ≡ is_clash fault.now }
{
    match fault {
        ExpandFault::NoStructure { .. } => true,
        ExpandFault::UnknownName { .. }
        | ExpandFault::NoIntro { .. }
        | ExpandFault::Intro { .. }
        | ExpandFault::NoMemory => false,
    }
}

// Whether there is more to tell of a cause than its place.
fn has_further(why: &Why) -> bool
    ensures { result ≡ has_further why.now }
{
    match why {
        Why::Arity | Why::Orthography => true,
        Why::Expand(fault) => is_clash(fault),
        Why::Settings
        | Why::Shelf
        | Why::TooLong
        | Why::IncludeLoop
        | Why::TooManyFiles
        | Why::Lex(_)
        | Why::Read(_)
        | Why::Environment
        | Why::Typing(_)
        | Why::TooManyTypes => false,
    }
}

/// What is told of a fault of this cause beyond its place, as lines after two blanks: for a definition without a structure that more paths
/// are forced than the limit allows, or else the least path at which two types are forced that have no common subtype, and these types, or
/// a path that is too long; for a rule or an entry the path that the settings name for its daughters or its words; and nothing for other
/// causes. The files are read once more for it, and only where there is something to tell.
///
/// `Unread` comes where they can't be, or say something else by now: told files never do, where the shelf counts no fault.
pub fn further<S: Shelf>(
    alloc: Global,
    shelf: &mut S,
    name: &str,
    settings: Option<&str>,
    why: &Why,
) -> Result<Vec<u8>, Lack>
    ensures further { IfOk result (λ v. IsFurther (S.files shelf.old) name.now (option_map (λ n. n.now) settings.entry) why.now v.items) }
    ensures read { IsErrOf result Lack.Unread → CannotLack (S.files shelf.old) (S.faults shelf.old) (S.faults shelf.new)
        (λ told. FaultIsMade told name.now (option_map (λ n. n.now) settings.entry) why.now) }
    ensures still { has_further why.now ≡ false → shelf.new ≡ shelf.old }
    ensures same { S.files shelf.new ≡ S.files shelf.old }
    ensures no_fall { S.faults shelf.old ≤ S.faults shelf.new }
{
    one_walk();
    if !has_further(why) {
        return Ok(Vec::new(alloc));
    }
    match walked_again(alloc, shelf, name, settings) {
        Ok(walked) => further_line(alloc, &walked, why),
        Err(lack) => Err(lack),
    }
}
