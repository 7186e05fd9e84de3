//! The strings that stand in the bodies of statements.

ghost use Rattle.std.specs.Prelude.{◌≡◌, ◌∷◌, [], map, IfOk, OnOk, string_bytes};
ghost use Rattle.grammar_files.specs.Placings.{placed_of};
ghost use Rattle.tdl_reader.specs.Trees.{attrs_of, items_of};
ghost use Rattle.tdl_reader.specs.Views.{term_of, attr_of, body_in, rest_of};
ghost use Rattle.type_hierarchy.specs.Decls.{texts};
ghost use Rattle.grammar_files.specs.BodyStrings.{strings_of_term, strings_of_body, strings_of_attrs, strings_of_items, strings_of_rest};
ghost use Rattle.grammar_types.specs.SettleViews.{with_each, strings_written};
ghost use Rattle.grammar_types.specs.Typings.{strings_in};

use grammar_files::Placed;
use grammar_files::placed_statements::is_heeded;
use grammar_settings::NoMemory;
use indexmap::IndexSet;
use std::alloc::{AllocError, Global};
use tdl_reader::{Attr, Body, Rest, Statement, Term};

// Adds a string, unless it was met before.
fn note(found: &mut IndexSet<String>, text: &String) -> Result<(), NoMemory>
    ensures { OnOk result (texts found.new.keys ≡ with_each (texts found.old.keys) (string_bytes text.now ∷ [])) }
{
    if !found.contains(text.as_str()) {
        found.insert(text.clone()?)?;
    }
    Ok(())
}

// Adds the strings of a term.
#[cycle(strings)]
fn add_term(found: &mut IndexSet<String>, term: &Term) -> Result<(), NoMemory>
    ensures { OnOk result (texts found.new.keys ≡ with_each (texts found.old.keys) (strings_of_term (term_of term.now))) }
{
    match term {
        Term::Name { .. } | Term::Coref { .. } => Ok(()),
        Term::Text { text, .. } => note(found, text),
        Term::Avm { attrs, .. } => add_attrs(found, attrs),
        Term::List { items, rest, .. } => {
            add_items(found, items)?;
            add_rest(found, rest)
        }
        Term::Diff { items, .. } => add_items(found, items),
    }
}

// Adds the strings of a body.
#[cycle(strings)]
fn add_body(found: &mut IndexSet<String>, body: &Body) -> Result<(), NoMemory>
    ensures { OnOk result (texts found.new.keys ≡ with_each (texts found.old.keys) (strings_of_body (body_in body.now))) }
{
    for term in &body.terms {
        add_term(found, term)?;
    }
    Ok(())
}

// Adds the strings of the values of attributes.
#[cycle(strings)]
fn add_attrs(found: &mut IndexSet<String>, attrs: &Vec<Attr>) -> Result<(), NoMemory>
    ensures { OnOk result (texts found.new.keys ≡ with_each (texts found.old.keys) (strings_of_attrs (attrs_of (map attr_of attrs.now.items)))) }
{
    for attr in attrs {
        add_body(found, &attr.body)?;
    }
    Ok(())
}

// Adds the strings of a list's items.
#[cycle(strings)]
fn add_items(found: &mut IndexSet<String>, items: &Vec<Body>) -> Result<(), NoMemory>
    ensures { OnOk result (texts found.new.keys ≡ with_each (texts found.old.keys) (strings_of_items (items_of (map body_in items.now.items)))) }
{
    for item in items {
        add_body(found, item)?;
    }
    Ok(())
}

// Adds the strings of a list's end.
#[cycle(strings)]
fn add_rest(found: &mut IndexSet<String>, rest: &Rest) -> Result<(), NoMemory>
    ensures { OnOk result (texts found.new.keys ≡ with_each (texts found.old.keys) (strings_of_rest (rest_of rest.now))) }
{
    match rest {
        Rest::Closed | Rest::Open => Ok(()),
        Rest::Tail { body } => add_body(found, body),
    }
}

// Adds the strings of a statement's body, if it is heeded.
fn add_statement(found: &mut IndexSet<String>, placed: &Placed) -> Result<(), NoMemory>
    ensures { OnOk result (texts found.new.keys ≡ with_each (texts found.old.keys) (strings_written (placed_of placed.now))) }
{
    if !is_heeded(placed.status) {
        return Ok(());
    }
    match &placed.statement {
        Statement::Define { body, .. } | Statement::Adds { body, .. } => add_body(found, body),
        _ => Ok(()),
    }
}

// The strings that were met.
fn list_of(alloc: Global, found: IndexSet<String>) -> Result<Vec<String>, AllocError>
    ensures { IfOk result (λ v. v.items ≡ found.keys) }
{
    found.into_iter().collect(alloc)
}

/// The strings of all bodies that are heeded, each once, in order of writing.
pub(crate) fn strings_in(alloc: Global, statements: &[Placed]) -> Result<Vec<String>, NoMemory>
    ensures { IfOk result (λ strings. texts strings.items ≡ strings_in (map placed_of statements.now)) }
{
    let mut found = IndexSet::new(alloc);
    for placed in statements {
        add_statement(&mut found, placed)?;
    }
    let strings = list_of(alloc, found)?;
    Ok(strings)
}
