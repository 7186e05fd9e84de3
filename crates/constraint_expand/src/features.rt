//! The features that statements use.

ghost use Rattle.std.specs.Prelude.{◌≡◌, true, ◌∷◌, [], map, flat_map, filter, IfOk, OnOk};
ghost use Rattle.std.specs.List.Sorted.{IsPermutation, IsSorted};
ghost use Rattle.std.specs.Cmp.Lexicographic.{slice_cmp};
ghost use Rattle.std.specs.Ordering.{nat_cmp};
ghost use Rattle.tdl_reader.specs.Views.{body_in};
ghost use Rattle.type_hierarchy.specs.Decls.{texts};
ghost use Rattle.body_facts.specs.Writing.{list_names};
ghost use Rattle.body_facts.specs.BracketUses.{body_uses};
ghost use Rattle.grammar_files.specs.Placings.{placed_of};
ghost use Rattle.constraint_expand.specs.Kinds.{picks};
ghost use Rattle.constraint_expand.specs.Features.{uses_in, features_used, AreFeatures};
ghost use Rattle.constraint_expand.specs.Found.{with_each, features_under};

use crate::OutOfMemory;
use crate::kinds::{Kind, body_under};
use body_facts::{Names, uses};
use grammar_files::Placed;
use indexmap::IndexSet;
use std::alloc::Global;
use tdl_reader::Body;

// Adds a feature, unless it was met before.
fn note(alloc: Global, features: &mut IndexSet<String>, feature: &str) -> Result<(), OutOfMemory>
    ensures { OnOk result (texts features.new.keys ≡ with_each (texts features.old.keys) (feature.now ∷ [])) }
{
    if !features.contains(feature) {
        features.insert(String::from_str(alloc, feature)?)?;
    }
    Ok(())
}

// Adds the features that a body uses.
fn add_body(
    alloc: Global,
    features: &mut IndexSet<String>,
    names: &Names,
    body: &Body,
) -> Result<(), OutOfMemory>
    ensures { OnOk result (texts features.new.keys ≡ with_each (texts features.old.keys) (map (λ u. u.feature) (body_uses (list_names names.now) true (body_in body.now)))) }
{
    let found = uses(alloc, names, body)?;
    for used in &found {
        note(alloc, features, used.feature)?;
    }
    Ok(())
}

// Adds the features that a statement of this kind uses.
fn add_statement(
    alloc: Global,
    features: &mut IndexSet<String>,
    names: &Names,
    placed: &Placed,
    kind: Kind,
) -> Result<(), OutOfMemory>
    ensures { OnOk result (texts features.new.keys ≡ with_each (texts features.old.keys) (features_under (list_names names.now) kind (placed_of placed.now))) }
{
    match body_under(placed, kind) {
        Some(body) => add_body(alloc, features, names, body),
        None => Ok(()),
    }
}

// Adds the features that the statements of this kind use.
fn add_kind(
    alloc: Global,
    features: &mut IndexSet<String>,
    names: &Names,
    statements: &[Placed],
    kind: Kind,
) -> Result<(), OutOfMemory>
    ensures { OnOk result (texts features.new.keys ≡ with_each (texts features.old.keys) (map (λ u. u.feature) (flat_map (uses_in (list_names names.now)) (filter (picks kind) (map placed_of statements.now))))) }
{
    for placed in statements {
        add_statement(alloc, features, names, placed, kind)?;
    }
    Ok(())
}

/// The features that statements use, in order of first writing, types before instances.
pub fn features_written(
    alloc: Global,
    names: &Names,
    statements: &[Placed],
) -> Result<IndexSet<String>, OutOfMemory>
    ensures { IfOk result (λ features. texts features.keys ≡ with_each [] (features_used (list_names names.now) (map placed_of statements.now))) }
{
    let mut features = IndexSet::new(alloc);
    add_kind(alloc, &mut features, names, statements, Kind::Types)?;
    add_kind(alloc, &mut features, names, statements, Kind::Instances)?;
    Ok(features)
}

/// The features in the byte order of their names.
pub fn in_order(alloc: Global, features: &IndexSet<String>) -> Result<Vec<String>, OutOfMemory>
    ensures moved { IfOk result (λ names. IsPermutation (texts features.now.keys) (texts names.items)) }
    ensures sorted { IfOk result (λ names. IsSorted (slice_cmp nat_cmp) (texts names.items)) }
{
    let mut names = copied(alloc, features)?;
    names.sort()?;
    Ok(names)
}

// The features as they stand.
fn copied(alloc: Global, features: &IndexSet<String>) -> Result<Vec<String>, OutOfMemory>
    ensures { IfOk result (λ names. texts names.items ≡ texts features.now.keys) }
{
    let mut names = Vec::new(alloc);
    for feature in features.as_slice() {
        names.push(feature.clone()?)?;
    }
    Ok(names)
}
