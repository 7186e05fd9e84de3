//! The declarations of types, and the names that are defined twice.

ghost use Rattle.std.specs.Prelude.{◌≡◌, ℕ, ◌≤◌, ◌++◌, [], map, length, find, flat_map, slice_get, if◌then◌else◌, IfOk, OnOk, MatchOption, true, false, option_map, string_bytes};
ghost use Rattle.std.specs.Str.{bytes_eq};
ghost use Rattle.grammar_files.specs.Placings.{placed_of};
ghost use Rattle.tdl_reader.specs.Views.{term_of, body_in};
ghost use Rattle.type_hierarchy.specs.Decls.{decls_of, texts};
ghost use Rattle.grammar_settings.specs.Forms.{Name};
ghost use Rattle.grammar_types.specs.SettleViews.{IsEntered, IsEarliest, IsEarliestOfAll, parents_noted, parents_by, decl_by, defines_type_named};
ghost use Rattle.grammar_types.specs.Typings.{is_status, defines_under, name_written, top_name, top_names, parents_added, type_definitions, decls_in};

use grammar_files::Placed;
use grammar_files::placed_statements::{defines_type, is_of_types, is_status, name_of};
use grammar_settings::NoMemory;
use indexmap::{IndexMap, IndexSet};
use std::alloc::Global;
use tdl_reader::{Body, Statement, Status, Term};
use type_hierarchy::Decl;

// The name of a definition of this status.
fn defined_under(placed: &Placed, status: Status) -> Option<&String>
    ensures { MatchOption result (defines_under status (placed_of placed.now) ≡ false) (λ n. (defines_under status (placed_of placed.now) ≡ true) × (string_bytes n.now ≡ name_written (placed_of placed.now).statement)) }
{
    match &placed.statement {
        Statement::Define { name, .. } if is_status(status, placed.status) => Some(name),
        _ => None,
    }
}

// Enters the name of a definition of this status. Gives whether it is new; so is what defines nothing.
fn enter(names: &mut IndexSet<String>, placed: &Placed, status: Status) -> Result<bool, NoMemory>
    ensures { IfOk result (IsEntered status (placed_of placed.now) (texts names.old.keys) (texts names.new.keys)) }
{
    match defined_under(placed, status) {
        Some(name) => {
            let (_, is_new) = names.insert_full(name.clone()?)?;
            Ok(is_new)
        }
        None => Ok(true),
    }
}

// The first definition of this status before the bound whose name an earlier one has, or the bound.
fn earliest(
    alloc: Global,
    statements: &[Placed],
    status: Status,
    bound: usize,
) -> Result<usize, NoMemory>
    requires { bound ≤ length statements.now }
    ensures { IfOk result (IsEarliest status (map placed_of statements.now) bound) }
{
    let mut names = IndexSet::new(alloc);
    for i in 0..bound {
        let is_new = enter(&mut names, &statements[i], status)?;
        if !is_new {
            return Ok(i);
        }
    }
    Ok(bound)
}

/// The place of the first definition whose name an earlier one of its status has, or how many statements there are.
pub(crate) fn first_repeat(alloc: Global, statements: &[Placed]) -> Result<usize, NoMemory>
    ensures { IfOk result (IsEarliestOfAll (map placed_of statements.now)) }
{
    let types = earliest(alloc, statements, Status::TypeDef, statements.len())?;
    let entries = earliest(alloc, statements, Status::Entry, types)?;
    let lex_rules = earliest(alloc, statements, Status::LexRule, entries)?;
    let rules = earliest(alloc, statements, Status::Rule, lex_rules)?;
    let roots = earliest(alloc, statements, Status::Root, rules)?;
    Ok(roots)
}

// Adds the name of a type, if the term is one.
fn push_top_name(names: &mut Vec<String>, term: &Term) -> Result<(), NoMemory>
    ensures { OnOk result (texts names.new.items ≡ texts names.old.items ++ top_name (term_of term.now)) }
{
    match term {
        Term::Name { name, .. } => {
            names.push(name.clone()?)?;
            Ok(())
        }
        Term::Text { .. } => Ok(()),
        Term::Coref { .. } => Ok(()),
        Term::Avm { .. } => Ok(()),
        Term::List { .. } => Ok(()),
        Term::Diff { .. } => Ok(()),
    }
}

// Adds the names of types at the top of a body.
fn push_top_names(names: &mut Vec<String>, body: &Body) -> Result<(), NoMemory>
    ensures { OnOk result (texts names.new.items ≡ texts names.old.items ++ top_names (body_in body.now)) }
{
    for term in &body.terms {
        push_top_name(names, term)?;
    }
    Ok(())
}

// Adds names to others.
fn push_all(names: &mut Vec<String>, more: &Vec<String>) -> Result<(), NoMemory>
    ensures { OnOk result (texts names.new.items ≡ texts names.old.items ++ texts more.now.items) }
{
    for name in more {
        names.push(name.clone()?)?;
    }
    Ok(())
}

// Adds the names at the top of a body to those that are noted for a name.
fn note_parents(
    alloc: Global,
    added: &mut IndexMap<String, Vec<String>>,
    name: &String,
    body: &Body,
) -> Result<(), NoMemory>
    ensures { OnOk result ((n : Name) → parents_noted added.new.entries n ≡ parents_noted added.old.entries n ++ (if bytes_eq n (string_bytes name.now) then top_names (body_in body.now) else [])) }
{
    let noted = added.insert(name.clone()?, Vec::new(alloc))?;
    let mut parents = noted.unwrap_or(Vec::new(alloc));
    push_top_names(&mut parents, body)?;
    added.insert(name.clone()?, parents)?;
    Ok(())
}

// Notes what a statement adds to the parents of a type.
fn note_addendum(
    alloc: Global,
    added: &mut IndexMap<String, Vec<String>>,
    placed: &Placed,
) -> Result<(), NoMemory>
    ensures { OnOk result ((n : Name) → parents_noted added.new.entries n ≡ parents_noted added.old.entries n ++ parents_by (placed_of placed.now) n) }
{
    match &placed.statement {
        Statement::Adds { name, body, .. } if is_of_types(placed.status) => {
            note_parents(alloc, added, name, body)
        }
        _ => Ok(()),
    }
}

// The parents that addenda add, by the names of their types.
fn added_parents(
    alloc: Global,
    statements: &[Placed],
) -> Result<IndexMap<String, Vec<String>>, NoMemory>
    ensures { IfOk result (λ added. (n : Name) → parents_noted added.entries n ≡ parents_added n (map placed_of statements.now)) }
{
    let mut added = IndexMap::new(alloc);
    for placed in statements {
        note_addendum(alloc, &mut added, placed)?;
    }
    Ok(added)
}

// Adds the parents that are noted for a name.
fn push_noted(
    parents: &mut Vec<String>,
    added: &IndexMap<String, Vec<String>>,
    name: &str,
) -> Result<(), NoMemory>
    ensures { OnOk result (texts parents.new.items ≡ texts parents.old.items ++ parents_noted added.now.entries name.now) }
{
    match added.get(name) {
        Some(more) => push_all(parents, more),
        None => Ok(()),
    }
}

// Adds the declaration of a type, if the statement defines one.
fn push_declaration(
    alloc: Global,
    decls: &mut Vec<Decl>,
    added: &IndexMap<String, Vec<String>>,
    placed: &Placed,
) -> Result<(), NoMemory>
    ensures { OnOk result (decls_of decls.new.items ≡ decls_of decls.old.items ++ decl_by (parents_noted added.now.entries) (placed_of placed.now)) }
{
    match &placed.statement {
        Statement::Define { name, at, body, .. } if is_of_types(placed.status) => {
            let mut parents = Vec::new(alloc);
            push_top_names(&mut parents, body)?;
            push_noted(&mut parents, added, name.as_str())?;
            let name = name.clone()?;
            decls.push(Decl {
                name,
                parents,
                at: *at,
            })?;
            Ok(())
        }
        _ => Ok(()),
    }
}

// The declarations of the types that statements define, with the parents that are noted for them.
fn declared_by(
    alloc: Global,
    added: &IndexMap<String, Vec<String>>,
    statements: &[Placed],
) -> Result<Vec<Decl>, NoMemory>
    ensures { IfOk result (λ decls. decls_of decls.items ≡ flat_map (λ p. decl_by (parents_noted added.now.entries) (placed_of p)) statements.now) }
{
    let mut decls = Vec::new(alloc);
    for placed in statements {
        push_declaration(alloc, &mut decls, added, placed)?;
    }
    Ok(decls)
}

/// The declarations of the types that statements define, in order of writing.
pub(crate) fn declarations(alloc: Global, statements: &[Placed]) -> Result<Vec<Decl>, NoMemory>
    ensures { IfOk result (λ decls. decls_of decls.items ≡ decls_in (map placed_of statements.now)) }
{
    let added = added_parents(alloc, statements)?;
    let decls = declared_by(alloc, &added, statements)?;
    Ok(decls)
}

fn defines_type_named(placed: &Placed, name: &str) -> bool
    ensures { result ≡ defines_type_named name.now (placed_of placed.now) }
{
    defines_type(placed) && name == name_of(placed)
}

/// The first definition of a type of this name.
pub(crate) fn definition_of<'a>(statements: &'a [Placed], name: &str) -> Option<&'a Placed>
    ensures { option_map (λ p. placed_of p.now) result ≡ find (λ d. bytes_eq name.now (name_written d.statement)) (type_definitions (map placed_of statements.now)) }
{
    for placed in statements {
        if defines_type_named(placed, name) {
            return Some(placed);
        }
    }
    None
}

/// The definition of a type at this place among those of types.
pub(crate) fn definition_at(statements: &[Placed], place: usize) -> Option<&Placed>
    ensures { option_map (λ p. placed_of p.now) result ≡ slice_get (type_definitions (map placed_of statements.now)) place }
{
    let mut left = place;
    for placed in statements {
        if defines_type(placed) {
            if left == 0 {
                return Some(placed);
            }
            left -= 1;
        }
    }
    None
}
