//! Features that no type writes.

ghost use Rattle.std.specs.Prelude.{◌≡◌, ◌<◌, ◌↔◌, length, map, true, IsTrue, IfOk, IfErr, IfSome, OnOk, MatchOption};
ghost use Rattle.fs_model.specs.Claims.{Has};
ghost use Rattle.type_hierarchy.specs.Decls.{Name};
ghost use Rattle.tdl_reader.specs.Views.{body_in};
ghost use Rattle.body_facts.specs.Writing.{list_names};
ghost use Rattle.body_facts.specs.BracketUses.{Used, used_of, body_uses};
ghost use Rattle.grammar_files.specs.Placings.{placed_of};
ghost use Rattle.constraint_expand.specs.Statements.{HoldsOfNone};
ghost use Rattle.constraint_expand.specs.Kinds.{picks};
ghost use Rattle.constraint_expand.specs.Features.{uses_in, writers_of};
ghost use Rattle.constraint_expand.specs.Systems.{settled_of};
ghost use Rattle.constraint_expand.specs.Faults.{IsFirstUse, use_at, AreWritten};
ghost use Rattle.constraint_expand.specs.Found.{numbers_noted, HasNoWriter, UsesWithout, IsWithoutHere, IsWithoutAmong, IsUnwrittenFault};

use crate::OutOfMemory;
use crate::kinds::{Kind, body_under};
use body_facts::{Names, Use, uses};
use grammar_files::{ExpandFault, Placed};
use indexmap::IndexMap;
use std::alloc::Global;
use tdl_reader::Body;
use type_facts::noted;
use type_hierarchy::{Ty, Types};

// Whether no type writes the feature of a use.
fn has_no_writer(writers: &IndexMap<String, Vec<Ty>>, used: &Use<'_>) -> bool
    ensures { IsTrue result ↔ HasNoWriter writers.now.entries (used_of used.now) }
{
    noted(writers, used.feature).is_empty()
}

// Whether a use stands before the best one so far, if there is one.
fn is_before(found: &[Use<'_>], i: usize, best: Option<usize>) -> bool
    requires here { i < length found.now }
    requires best { IfSome best (λ b. b < length found.now) }
    ensures { MatchOption best (result ≡ true) (λ b. IsTrue result ↔ ((use_at (map used_of found.now) i).at < (use_at (map used_of found.now) b).at)) }
{
    match best {
        Some(b) => found[i].at < found[b].at,
        None => true,
    }
}

// The first of the uses of features that no type writes: the one with the least place, and the first written of those.
fn first_use(writers: &IndexMap<String, Vec<Ty>>, found: &[Use<'_>]) -> Option<usize>
    ensures { MatchOption result ((u : Used) → Has u (map used_of found.now) → HasNoWriter writers.now.entries u → ⊥) (IsFirstUse (map used_of found.now) (HasNoWriter writers.now.entries)) }
{
    let mut best = None;
    for i in 0..found.len() {
        if has_no_writer(writers, &found[i]) && is_before(found, i, best) {
            best = Some(i);
        }
    }
    best
}

// The features that the brackets of a body have.
fn uses_of<'a>(alloc: Global, names: &'a Names, body: &'a Body) -> Result<Vec<Use<'a>>, OutOfMemory>
    ensures { IfOk result (λ found. map used_of found.items ≡ body_uses (list_names names.now) true (body_in body.now)) }
{
    let found = uses(alloc, names, body)?;
    Ok(found)
}

// The fault of a statement of this kind that uses a feature that no type writes.
fn check_statement(
    alloc: Global,
    writers: &IndexMap<String, Vec<Ty>>,
    names: &Names,
    placed: &Placed,
    kind: Kind,
    statement: usize,
) -> Result<(), ExpandFault>
    ensures written { OnOk result (picks kind (placed_of placed.now) ≡ true → (u : Used) → Has u (uses_in (list_names names.now) (placed_of placed.now)) → HasNoWriter writers.now.entries u → ⊥) }
    ensures fault { IfErr result (IsWithoutHere writers.now.entries (list_names names.now) kind (placed_of placed.now) statement) }
{
    let body = match body_under(placed, kind) {
        Some(body) => body,
        None => return Ok(()),
    };
    let found = uses_of(alloc, names, body)?;
    match first_use(writers, &found) {
        Some(i) => Err(ExpandFault::NoIntro {
            feature: String::from_str(alloc, found[i].feature)?,
            at: found[i].at,
            statement,
        }),
        None => Ok(()),
    }
}

// The fault of the first statement of this kind that uses a feature that no type writes.
fn check_kind(
    alloc: Global,
    writers: &IndexMap<String, Vec<Ty>>,
    names: &Names,
    statements: &[Placed],
    kind: Kind,
) -> Result<(), ExpandFault>
    ensures written { OnOk result (HoldsOfNone (picks kind) (map placed_of statements.now) (UsesWithout writers.now.entries (list_names names.now))) }
    ensures fault { IfErr result (IsWithoutAmong writers.now.entries (list_names names.now) (map placed_of statements.now) kind) }
{
    for i in 0..statements.len() {
        check_statement(alloc, writers, names, &statements[i], kind, i)?;
    }
    Ok(())
}

/// Refuses features that no type writes: at the first bracket that itself has one.
pub fn check_written(
    alloc: Global,
    writers: &IndexMap<String, Vec<Ty>>,
    types: &Types,
    names: &Names,
    statements: &[Placed],
) -> Result<(), ExpandFault>
    requires { (f : Name) → numbers_noted writers.now.entries f ≡ writers_of types.now (list_names names.now) (map placed_of statements.now) f }
    ensures written { OnOk result (AreWritten types.now (settled_of names.now) (map placed_of statements.now)) }
    ensures fault { IfErr result (IsUnwrittenFault types.now (settled_of names.now) (map placed_of statements.now)) }
{
    check_kind(alloc, writers, names, statements, Kind::Types)?;
    check_kind(alloc, writers, names, statements, Kind::Instances)
}
