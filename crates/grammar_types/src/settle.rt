//! The types that a grammar's statements settle.

ghost use Rattle.std.specs.Prelude.{◌≡◌, ◌≢◌, ℕ, ◌<◌, length, map, IfOk, IfErr, MatchOption, string_bytes};
ghost use Rattle.grammar_files.specs.Placings.{PlacedTree, placed_of};
ghost use Rattle.type_hierarchy.specs.Decls.{decls_of};
ghost use Rattle.type_hierarchy.specs.Faults.{IsFirst, IsFaultOf};
ghost use Rattle.type_hierarchy.specs.declared.decl.TypeFault.{TypeFault};
ghost use Rattle.grammar_files.specs.Faults.{IsFaultBy};
ghost use Rattle.grammar_types.specs.Typings.{file_name, fault_of, name_written, type_definitions, decls_in, StandsAt, IsRepeat, HasNoRepeat, IsWritten, AreTypesOf, IsTypesFault};
ghost use Rattle.grammar_files.specs.WalkViews.{walked_of, CanSettle};

use crate::declarations::{declarations, definition_at, definition_of, first_repeat};
use crate::strings::strings_in;
use glb_completion::{CompleteFault, complete};
use grammar_files::placed_statements::place_of;
use grammar_files::{LoadFault, NoMemory, Placed, Walked, Why, found};
use std::alloc::Global;
use tdl_reader::Statement;
use type_hierarchy::{Decl, Hierarchy, MOST_TYPES, TypeFault, Types};

/// The name of a file by its number.
pub fn file_name(walked: &Walked, file: usize) -> &str
    ensures { result.now ≡ file_name (walked_of walked.now) file }
{
    match walked.files.get(file) {
        Some(name) => name.as_str(),
        None => "",
    }
}

// A fault at the first token of a statement.
fn fault_of(alloc: Global, walked: &Walked, placed: &Placed, why: Why) -> LoadFault
    ensures { IsFaultBy (λ f. f ≡ fault_of (walked_of walked.now) (placed_of placed.now) why) result }
{
    found(
        alloc,
        file_name(walked, placed.file as usize),
        place_of(&placed.statement),
        why,
    )
}

// The name of a definition or an addendum.
fn name_of(alloc: Global, placed: &Placed) -> Result<String, NoMemory>
    ensures { IfOk result (λ name. string_bytes name ≡ name_written (placed_of placed.now).statement) }
{
    match &placed.statement {
        Statement::Define { name, .. } | Statement::Adds { name, .. } => Ok(name.clone()?),
        _ => Ok(String::new(alloc)),
    }
}

// The fault of a name that is defined a second time.
fn repeat_fault(alloc: Global, walked: &Walked, place: usize) -> LoadFault
    requires within { place < length walked.now.statements.items }
    requires first { IsFirst (IsRepeat (walked_of walked.now).statements) place }
    ensures { IsFaultBy (IsTypesFault (walked_of walked.now)) result }
{
    let placed = &walked.statements[place];
    match name_of(alloc, placed) {
        Ok(name) => fault_of(
            alloc,
            walked,
            placed,
            Why::Typing(TypeFault::Duplicate { name }),
        ),
        Err(_) => LoadFault::NoMemory,
    }
}

// The definition of a type at which a fault stands.
fn definition_with<'a>(statements: &'a [Placed], fault: &TypeFault) -> Option<&'a Placed>
    ensures { MatchOption result ((p : PlacedTree) → StandsAt (type_definitions (map placed_of statements.now)) fault.now p → ⊥) (λ p. StandsAt (type_definitions (map placed_of statements.now)) fault.now (placed_of p.now)) }
{
    match fault {
        TypeFault::Unknown { name, .. } => definition_of(statements, name.as_str()),
        TypeFault::Cycle { name } => definition_of(statements, name.as_str()),
        TypeFault::Reserved { name } => definition_of(statements, name.as_str()),
        TypeFault::TooMany { .. } => definition_at(statements, MOST_TYPES),
        TypeFault::Duplicate { .. } => None,
        TypeFault::NoMemory => None,
    }
}

// The fault of the declarations of types.
fn typing_fault(alloc: Global, walked: &Walked, fault: TypeFault) -> LoadFault
    requires own { fault ≢ TypeFault.NoMemory }
    requires once { HasNoRepeat (walked_of walked.now).statements }
    requires fault { IsFaultOf (walked_of walked.now).settings.top_type (walked_of walked.now).settings.string_type (decls_in (walked_of walked.now).statements) fault }
    ensures { IsFaultBy (IsTypesFault (walked_of walked.now)) result }
{
    match definition_with(&walked.statements, &fault) {
        Some(placed) => fault_of(alloc, walked, placed, Why::Typing(fault)),
        None => unreachable!(),
    }
}

// The hierarchy of the types that are defined.
fn written(alloc: Global, walked: &Walked, decls: &[Decl]) -> Result<Hierarchy, LoadFault>
    requires can { CanSettle (walked_of walked.now) }
    requires once { HasNoRepeat (walked_of walked.now).statements }
    requires declared { decls_of decls.now ≡ decls_in (walked_of walked.now).statements }
    ensures written { IfOk result (IsWritten (walked_of walked.now)) }
    ensures fault { IfErr result (IsFaultBy (IsTypesFault (walked_of walked.now))) }
{
    let settings = &walked.settings;
    match Hierarchy::build(
        alloc,
        decls,
        settings.top_type.as_str(),
        settings.string_type.as_str(),
    ) {
        Ok(hierarchy) => {
            let _count = hierarchy.count();
            Ok(hierarchy)
        }
        Err(TypeFault::NoMemory) => Err(LoadFault::NoMemory),
        Err(fault) => Err(typing_fault(alloc, walked, fault)),
    }
}

// The completed types of a hierarchy, with the strings beside them.
fn completed(alloc: Global, walked: &Walked, hierarchy: Hierarchy) -> Result<Types, LoadFault>
    requires { IsWritten (walked_of walked.now) hierarchy }
    ensures types { IfOk result (AreTypesOf (walked_of walked.now)) }
    ensures fault { IfErr result (IsFaultBy (IsTypesFault (walked_of walked.now))) }
{
    let strings = strings_in(alloc, &walked.statements)?;
    match complete(alloc, hierarchy, strings.as_slice()) {
        Ok(types) => Ok(types),
        Err(CompleteFault::TooManyTypes) => Err(found(
            alloc,
            file_name(walked, 0),
            0,
            Why::TooManyTypes,
        )),
        Err(CompleteFault::NoMemory) => Err(LoadFault::NoMemory),
    }
}

/// The completed types of a grammar's statements, with their strings beside them (Copestake 2002; DELPH-IN TDL).
///
/// A type's parents are the names of types at the top of its body, and then those of its addenda in order of writing.
/// A name that a type, or an instance of the same status, has already is refused first, over all statements, at the
/// second definition; then what is wrong with the types, at the definition of the type that the fault names, or at the
/// 16,385th; then more than 65,535 completed types, at the top file. `specs/Typings.antt` says which types there are.
pub fn settle_types(alloc: Global, walked: &Walked) -> Result<Types, LoadFault>
    requires { CanSettle (walked_of walked.now) }
    ensures types { IfOk result (λ t. AreTypesOf (walked_of walked.now) t) }
    ensures fault { IfErr result (IsFaultBy (IsTypesFault (walked_of walked.now))) }
{
    let place = first_repeat(alloc, &walked.statements)?;
    if place < walked.statements.len() {
        return Err(repeat_fault(alloc, walked, place));
    }
    let decls = declarations(alloc, &walked.statements)?;
    let hierarchy = written(alloc, walked, decls.as_slice())?;
    completed(alloc, walked, hierarchy)
}
