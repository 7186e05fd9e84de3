//! The facts of types.

ghost use Rattle.std.specs.Prelude.{◌≡◌, ◌<◌, ◌++◌, ◌∷◌, [], map, flat_map, if◌then◌else◌, IfOk, OnOk, All, length};
ghost use Rattle.tdl_reader.specs.Trees.{no_terms};
ghost use Rattle.tdl_reader.specs.Views.{body_in};
ghost use Rattle.type_hierarchy.specs.Decls.{Name};
ghost use Rattle.fs_graph.specs.Facts.{claims_of};
ghost use Rattle.fs_unify.specs.Systems.{rules_of};
ghost use Rattle.body_facts.specs.WordTables.{table_of};
ghost use Rattle.grammar_files.specs.Placings.{placed_of};
ghost use Rattle.grammar_files.specs.Statements.{statement_at, defines_type};
ghost use Rattle.type_facts.specs.Facts.{said_by, rule_of, rules_in};
ghost use Rattle.type_facts.specs.Notes.{noted};
ghost use Rattle.type_facts.specs.Addenda.{place_by, addenda_places};

use crate::OutOfMemory;
use crate::notes::{note, noted};
use body_facts::{Words, facts};
use fs_graph::Fact;
use fs_unify::TypeFacts;
use grammar_files::Placed;
use grammar_files::placed_statements::{adds_to_type, body_written, defines_type, name_of};
use indexmap::IndexMap;
use std::alloc::Global;
use type_hierarchy::Ty;

/// Adds what a statement's body says.
pub fn add_facts(
    alloc: Global,
    words: &Words<'_>,
    all: &mut Vec<Fact>,
    placed: &Placed,
) -> Result<(), OutOfMemory>
    ensures { OnOk result (claims_of all.new.items ≡ claims_of all.old.items ++ said_by (table_of words.now) (placed_of placed.now)) }
{
    match body_written(placed) {
        Some(body) => {
            let mut more = facts(alloc, words, body)?;
            all.append(&mut more)?;
            Ok(())
        }
        None => Ok(()),
    }
}

// Notes the place of an addendum for the name of its type.
fn note_addendum(
    alloc: Global,
    addenda: &mut IndexMap<String, Vec<usize>>,
    placed: &Placed,
    place: usize,
) -> Result<(), OutOfMemory>
    ensures { OnOk result ((n : Name) → noted addenda.new.entries n ≡ noted addenda.old.entries n ++ place_by n (placed_of placed.now) place) }
{
    if adds_to_type(placed) {
        return note(alloc, addenda, name_of(placed), place);
    }
    Ok(())
}

// The places of the addenda to each type, by its name.
fn addenda_by_name(
    alloc: Global,
    statements: &[Placed],
) -> Result<IndexMap<String, Vec<usize>>, OutOfMemory>
    ensures { IfOk result (λ addenda. (n : Name) → noted addenda.entries n ≡ addenda_places n (map placed_of statements.now)) }
{
    let mut addenda = IndexMap::new(alloc);
    for i in 0..statements.len() {
        note_addendum(alloc, &mut addenda, &statements[i], i)?;
    }
    Ok(addenda)
}

// The facts of a type's definition, and then those of its addenda.
fn facts_of_type(
    alloc: Global,
    words: &Words<'_>,
    statements: &[Placed],
    addenda: &[usize],
    placed: &Placed,
) -> Result<Vec<Fact>, OutOfMemory>
    requires { All (λ k. k < length statements.now) addenda.now }
    ensures { IfOk result (λ all. claims_of all.items ≡ said_by (table_of words.now) (placed_of placed.now) ++ flat_map (λ k. said_by (table_of words.now) (statement_at (map placed_of statements.now) k)) addenda.now) }
{
    let mut all = Vec::new(alloc);
    add_facts(alloc, words, &mut all, placed)?;
    for place in addenda {
        add_facts(alloc, words, &mut all, &statements[*place])?;
    }
    Ok(all)
}

// Adds the facts of a type, if the statement defines one.
fn push_rule(
    alloc: Global,
    words: &Words<'_>,
    statements: &[Placed],
    addenda: &IndexMap<String, Vec<usize>>,
    rules: &mut Vec<TypeFacts>,
    placed: &Placed,
) -> Result<(), OutOfMemory>
    requires { (n : Name) → noted addenda.now.entries n ≡ addenda_places n (map placed_of statements.now) }
    ensures { OnOk result (rules_of rules.new.items ≡ rules_of rules.old.items ++ (if defines_type (placed_of placed.now) then rule_of (table_of words.now) (map placed_of statements.now) (placed_of placed.now) ∷ [] else [])) }
{
    if defines_type(placed) {
        let name = name_of(placed);
        let places = noted(addenda, name);
        let facts = facts_of_type(alloc, words, statements, places, placed)?;
        let ty = words.types.find(name).unwrap_or(Ty(0));
        rules.push(TypeFacts { ty, facts })?;
    }
    Ok(())
}

/// The facts of each type that is defined, in order of definition: those of its definition, and then those of its addenda.
pub fn rules_in(
    alloc: Global,
    words: &Words<'_>,
    statements: &[Placed],
) -> Result<Vec<TypeFacts>, OutOfMemory>
    ensures { IfOk result (λ rules. rules_of rules.items ≡ rules_in (table_of words.now) (map placed_of statements.now)) }
{
    let addenda = addenda_by_name(alloc, statements)?;
    let mut rules = Vec::new(alloc);
    for placed in statements {
        push_rule(alloc, words, statements, &addenda, &mut rules, placed)?;
    }
    Ok(rules)
}
