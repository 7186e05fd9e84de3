//! The types that write features.

ghost use Rattle.std.specs.Prelude.{◌≡◌, true, ◌++◌, ◌∷◌, [], map, filter, if◌then◌else◌, IfOk, OnOk};
ghost use Rattle.tdl_reader.specs.Views.{body_in};
ghost use Rattle.type_hierarchy.specs.Decls.{Name};
ghost use Rattle.body_facts.specs.Writing.{list_names};
ghost use Rattle.body_facts.specs.BracketUses.{body_uses, used_of};
ghost use Rattle.body_facts.specs.Numbers.{type_number};
ghost use Rattle.grammar_files.specs.Placings.{placed_of};
ghost use Rattle.constraint_expand.specs.Features.{is_writing, writings_in, writers_of};
ghost use Rattle.constraint_expand.specs.Found.{numbers_noted, writings_by};

use crate::OutOfMemory;
use crate::kinds::{Kind, body_under};
use body_facts::{Names, Use, uses};
use grammar_files::Placed;
use grammar_files::placed_statements::name_of;
use indexmap::IndexMap;
use std::alloc::Global;
use tdl_reader::Body;
use type_facts::note;
use type_hierarchy::{Ty, Types};

// Notes a type as a writer of the features that its body has at its own node.
fn note_uses(
    alloc: Global,
    writers: &mut IndexMap<String, Vec<Ty>>,
    names: &Names,
    body: &Body,
    ty: Ty,
) -> Result<(), OutOfMemory>
    ensures { OnOk result ((f : Name) → numbers_noted writers.new.entries f ≡ numbers_noted writers.old.entries f ++ map (λ u. ty.0) (filter (is_writing f) (body_uses (list_names names.now) true (body_in body.now)))) }
{
    let found = uses(alloc, names, body)?;
    for used in &found {
        note_if_own(alloc, writers, used, ty)?;
    }
    Ok(())
}

// Notes a writer of a feature, if the feature stands at the body's own node.
fn note_if_own(
    alloc: Global,
    writers: &mut IndexMap<String, Vec<Ty>>,
    used: &Use<'_>,
    ty: Ty,
) -> Result<(), OutOfMemory>
    ensures { OnOk result ((f : Name) → numbers_noted writers.new.entries f ≡ numbers_noted writers.old.entries f ++ (if is_writing f (used_of used.now) then ty.0 ∷ [] else [])) }
{
    if used.own {
        return note(alloc, writers, used.feature, ty);
    }
    Ok(())
}

// Notes what a definition of a type or an addendum writes.
fn note_statement(
    alloc: Global,
    writers: &mut IndexMap<String, Vec<Ty>>,
    types: &Types,
    names: &Names,
    placed: &Placed,
) -> Result<(), OutOfMemory>
    ensures { OnOk result ((f : Name) → numbers_noted writers.new.entries f ≡ numbers_noted writers.old.entries f ++ writings_by types.now (list_names names.now) f (placed_of placed.now)) }
{
    match body_under(placed, Kind::Types) {
        Some(body) => {
            let ty = types.find(name_of(placed)).unwrap_or(Ty(0));
            note_uses(alloc, writers, names, body, ty)
        }
        None => Ok(()),
    }
}

/// The writers of each feature, in order of writing, as often as they have it at their own nodes.
pub fn writers_by_feature(
    alloc: Global,
    types: &Types,
    names: &Names,
    statements: &[Placed],
) -> Result<IndexMap<String, Vec<Ty>>, OutOfMemory>
    ensures { IfOk result (λ writers. (f : Name) → numbers_noted writers.entries f ≡ writers_of types.now (list_names names.now) (map placed_of statements.now) f) }
{
    let mut writers = IndexMap::new(alloc);
    for placed in statements {
        note_statement(alloc, &mut writers, types, names, placed)?;
    }
    Ok(writers)
}
