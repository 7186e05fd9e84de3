//! Names of types that a grammar doesn't have.

ghost use Rattle.std.specs.Prelude.{◌≡◌, ◌||◌, List, map, option_map, IfOk, OnOk, IfErr, true};
ghost use Rattle.type_hierarchy.specs.Decls.{Name};
ghost use Rattle.body_facts.specs.Writing.{list_names};
ghost use Rattle.body_facts.specs.Mentions.{mention_of, unknown_in};
ghost use Rattle.tdl_reader.specs.Views.{body_in};
ghost use Rattle.grammar_files.specs.Placings.{PlacedTree, placed_of};
ghost use Rattle.constraint_expand.specs.Statements.{HoldsOfNone, body_of};
ghost use Rattle.constraint_expand.specs.Kinds.{picks};
ghost use Rattle.constraint_expand.specs.Unknowns.{is_defined, own_unknown, unknown_of, NamesUnknown};
ghost use Rattle.constraint_expand.specs.Found.{has_text_key, defines_named, IsUnknownHere, IsUnknownAmong, IsUnknownFault};
ghost use Rattle.constraint_expand.specs.Faults.{AreKnown};
ghost use Rattle.constraint_expand.specs.Systems.{settled_of};

use crate::OutOfMemory;
use crate::kinds::{Kind, body_under};
use body_facts::{Names, Unknown, first_unknown};
use grammar_files::placed_statements::{adds_to_type, defines_type, name_of, place_of};
use grammar_files::{ExpandFault, Placed};
use indexmap::IndexSet;
use std::alloc::Global;
use tdl_reader::Body;
use type_hierarchy::Types;

// Adds the name of the type that a statement defines, if it defines one.
fn add_name(alloc: Global, names: &mut IndexSet<String>, placed: &Placed) -> Result<(), OutOfMemory>
    ensures { OnOk result ((n : Name) → has_text_key names.new.keys n ≡ (has_text_key names.old.keys n || defines_named n (placed_of placed.now))) }
{
    if defines_type(placed) {
        names.insert(String::from_str(alloc, name_of(placed))?)?;
    }
    Ok(())
}

// The names of the types that statements define.
fn defined_names(alloc: Global, statements: &[Placed]) -> Result<IndexSet<String>, OutOfMemory>
    ensures { IfOk result (λ names. (n : Name) → has_text_key names.keys n ≡ is_defined (map placed_of statements.now) n) }
{
    let mut names = IndexSet::new(alloc);
    for placed in statements {
        add_name(alloc, &mut names, placed)?;
    }
    Ok(names)
}

// The name of an addendum, where no type has it.
fn own_unknown<'a>(defined: &IndexSet<String>, placed: &'a Placed) -> Option<Unknown<'a>>
    ensures { (ps : List PlacedTree) → ((n : Name) → has_text_key defined.now.keys n ≡ is_defined ps n) → option_map mention_of result ≡ own_unknown ps (placed_of placed.now) }
{
    let name = name_of(placed);
    if adds_to_type(placed) && !defined.contains(name) {
        return Some(Unknown {
            name,
            at: place_of(&placed.statement),
        });
    }
    None
}

// The first name of a statement that no type has.
fn unknown_of<'a>(
    types: &Types,
    names: &'a Names,
    defined: &IndexSet<String>,
    placed: &'a Placed,
    body: &'a Body,
) -> Option<Unknown<'a>>
    requires { body_in body.now ≡ body_of (placed_of placed.now) }
    ensures { (ps : List PlacedTree) → ((n : Name) → has_text_key defined.now.keys n ≡ is_defined ps n) → option_map mention_of result ≡ unknown_of types.now (list_names names.now) ps (placed_of placed.now) }
{
    let own = own_unknown(defined, placed);
    if own.is_some() {
        return own;
    }
    first_unknown(types, names, body)
}

// The fault of a statement of this kind that names an unknown type.
fn check_statement(
    alloc: Global,
    types: &Types,
    names: &Names,
    defined: &IndexSet<String>,
    placed: &Placed,
    kind: Kind,
    statement: usize,
) -> Result<(), ExpandFault>
    ensures known { OnOk result ((ps : List PlacedTree) → ((n : Name) → has_text_key defined.now.keys n ≡ is_defined ps n) → picks kind (placed_of placed.now) ≡ true → NamesUnknown types.now (list_names names.now) ps (placed_of placed.now) → ⊥) }
    ensures fault { IfErr result (λ e. (ps : List PlacedTree) → ((n : Name) → has_text_key defined.now.keys n ≡ is_defined ps n) → IsUnknownHere types.now (list_names names.now) ps kind (placed_of placed.now) statement e) }
{
    match body_under(placed, kind) {
        Some(body) => match unknown_of(types, names, defined, placed, body) {
            Some(unknown) => Err(ExpandFault::UnknownName {
                name: String::from_str(alloc, unknown.name)?,
                at: unknown.at,
                statement,
            }),
            None => Ok(()),
        },
        None => Ok(()),
    }
}

// The fault of the first statement of this kind that names an unknown type.
fn check_kind(
    alloc: Global,
    types: &Types,
    names: &Names,
    defined: &IndexSet<String>,
    statements: &[Placed],
    kind: Kind,
) -> Result<(), ExpandFault>
    requires { (n : Name) → has_text_key defined.now.keys n ≡ is_defined (map placed_of statements.now) n }
    ensures known { OnOk result (HoldsOfNone (picks kind) (map placed_of statements.now) (NamesUnknown types.now (list_names names.now) (map placed_of statements.now))) }
    ensures fault { IfErr result (IsUnknownAmong types.now (list_names names.now) (map placed_of statements.now) kind) }
{
    for i in 0..statements.len() {
        check_statement(alloc, types, names, defined, &statements[i], kind, i)?;
    }
    Ok(())
}

/// Refuses statements that name a type that isn't there, in a body or by an addendum: at the first such name.
pub fn check_names(
    alloc: Global,
    types: &Types,
    names: &Names,
    statements: &[Placed],
) -> Result<(), ExpandFault>
    ensures known { OnOk result (AreKnown types.now (settled_of names.now) (map placed_of statements.now)) }
    ensures fault { IfErr result (IsUnknownFault types.now (settled_of names.now) (map placed_of statements.now)) }
{
    let defined = defined_names(alloc, statements)?;
    check_kind(alloc, types, names, &defined, statements, Kind::Types)?;
    check_kind(alloc, types, names, &defined, statements, Kind::Instances)
}
