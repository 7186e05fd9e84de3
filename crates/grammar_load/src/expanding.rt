//! What a grammar's statements expand to.

ghost use Rattle.std.specs.Prelude.{◌≡◌, ◌≢◌, ◌<◌, length, map, IfOk, IfErr, string_bytes};
ghost use Rattle.grammar_files.specs.Placings.{placed_of};
ghost use Rattle.constraint_expand.specs.Systems.{settled_of};
ghost use Rattle.grammar_files.specs.declared.expand_fault.ExpandFault.{ExpandFault};
ghost use Rattle.grammar_load.specs.Expanding.{names_by, IsBook, stands_at, place_within, expand_fault, IsExpandFault};
ghost use Rattle.grammar_files.specs.Faults.{IsFaultBy};
ghost use Rattle.grammar_settings.specs.SettingsViews.{settings_of, names_in};
ghost use Rattle.grammar_types.specs.Typings.{AreTypesOf};
ghost use Rattle.grammar_files.specs.WalkViews.{walked_of};

use constraint_expand::{Book, Names, expand};
use grammar_files::placed_statements::place_of;
use grammar_files::{ExpandFault, LoadFault, NoMemory, Placed, Settings, Walked, Why, found};
use grammar_types::file_name;
use std::alloc::Global;
use type_hierarchy::Types;

// The same names.
fn copied(alloc: Global, names: &[String]) -> Result<Vec<String>, NoMemory>
    ensures { IfOk result (λ v. names_in v ≡ map string_bytes names.now) }
{
    let mut out = Vec::new(alloc);
    for name in names {
        out.push(name.clone()?)?;
    }
    Ok(out)
}

// The same paths.
fn paths_copied(alloc: Global, paths: &[Vec<String>]) -> Result<Vec<Vec<String>>, NoMemory>
    ensures { IfOk result (λ v. map names_in v.items ≡ map names_in paths.now) }
{
    let mut out = Vec::new(alloc);
    for path in paths {
        out.push(copied(alloc, path)?)?;
    }
    Ok(out)
}

/// The names that settings give to lists, and to what rules and roots look at.
pub fn names_by(alloc: Global, settings: &Settings) -> Result<Names, NoMemory>
    ensures { IfOk result (λ n. settled_of n ≡ names_by (settings_of settings.now)) }
{
    Ok(Names {
        list: settings.list_type.clone()?,
        cons: settings.cons_type.clone()?,
        null: settings.null_type.clone()?,
        first: settings.first.clone()?,
        rest: settings.rest.clone()?,
        diff_list: settings.diff_list.clone()?,
        diff_last: settings.diff_last.clone()?,
        args_path: copied(alloc, &settings.args_path)?,
        daughter_features: copied(alloc, &settings.daughter_features)?,
        restrictors: copied(alloc, &settings.restrictors)?,
        check_paths: paths_copied(alloc, &settings.check_paths)?,
        path_limit: settings.path_limit,
        node_limit: settings.node_limit,
    })
}

// The place, among the statements, of the one at which a fault stands.
fn stands_at(fault: &ExpandFault) -> usize
    ensures { result ≡ stands_at fault.now }
{
    match fault {
        ExpandFault::UnknownName { statement, .. }
        | ExpandFault::NoIntro { statement, .. }
        | ExpandFault::Intro { statement, .. }
        | ExpandFault::NoStructure { statement, .. } => *statement,
        ExpandFault::NoMemory => 0,
    }
}

// The place in its file of a fault that stands at this statement.
fn place_within(placed: &Placed, fault: &ExpandFault) -> u32
    ensures { result ≡ place_within (placed_of placed.now) fault.now }
{
    match fault {
        ExpandFault::UnknownName { at, .. } | ExpandFault::NoIntro { at, .. } => *at,
        ExpandFault::Intro { .. } | ExpandFault::NoStructure { .. } => place_of(&placed.statement),
        ExpandFault::NoMemory => 0,
    }
}

// A fault of expansion, with the file and the place at which it stands.
fn expand_fault(alloc: Global, walked: &Walked, fault: ExpandFault) -> LoadFault
    requires { stands_at fault < length walked.now.statements.items }
    ensures { IsFaultBy (λ f. f ≡ expand_fault (walked_of walked.now) fault) result }
{
    let placed = &walked.statements[stands_at(&fault)];
    let at = place_within(placed, &fault);
    found(
        alloc,
        file_name(walked, placed.file as usize),
        at,
        Why::Expand(fault),
    )
}

/// What a grammar's statements expand to, over their completed types and under the names of the settings: the type
/// system, the constraint of each type, the structure of each instance, and what the settings name (Copestake 2002).
///
/// The first fault is given in the order of `ExpandFault`. It stands in the file of the statement that it names, at the
/// place that it carries; where it carries none, at the definition. `specs/Expanding.antt` says which book and which
/// fault there are.
pub fn expand_types(alloc: Global, walked: &Walked, types: Types) -> Result<Book, LoadFault>
    requires { AreTypesOf (walked_of walked.now) types }
    ensures book { IfOk result (λ b. IsBook (walked_of walked.now) b) }
    ensures fault { IfErr result (IsFaultBy (IsExpandFault (walked_of walked.now))) }
{
    let names = names_by(alloc, &walked.settings)?;
    match expand(alloc, types, &walked.statements, &names) {
        Ok(book) => Ok(book),
        Err(ExpandFault::NoMemory) => Err(LoadFault::NoMemory),
        Err(fault) => Err(expand_fault(alloc, walked, fault)),
    }
}
