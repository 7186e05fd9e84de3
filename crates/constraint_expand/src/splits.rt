//! The introducers of features.

ghost use Rattle.std.specs.Prelude.{◌≡◌, ℕ, ◌<◌, ◌↔◌, map, true, IsTrue, IfOk, IfErr, OnOk, MatchOption};
ghost use Rattle.std.specs.List.{AllZip};
ghost use Rattle.fs_model.specs.Claims.{Has};
ghost use Rattle.type_hierarchy.specs.Decls.{Name, texts};
ghost use Rattle.type_hierarchy.specs.Named.{type_named};
ghost use Rattle.type_hierarchy.specs.Table.{count_of};
ghost use Rattle.grammar_files.specs.Placings.{placed_of};
ghost use Rattle.constraint_expand.specs.Statements.{name_of, defines_type, IsFirstAmong, HoldsOfNone};
ghost use Rattle.constraint_expand.specs.Conditions.{IsDefined};
ghost use Rattle.constraint_expand.specs.Introducers.{numbers_of, IsIntroducer};
ghost use Rattle.constraint_expand.specs.Found.{numbers_noted, AreNoted, HasNoted, IsSplitOf, IsSplitHere, IsSplitAmong};

use crate::OutOfMemory;
use crate::introducers::{Introduced, find_introducer};
use grammar_files::placed_statements::{defines_type, name_of};
use grammar_files::{ExpandFault, Placed};
use indexmap::{IndexMap, IndexSet};
use std::alloc::Global;
use type_facts::noted;
use type_hierarchy::{Ty, Types};

// Whether the statement defines the type of this number.
fn defines_number(types: &Types, placed: &Placed, t: Ty) -> bool
    ensures { IsTrue result ↔ (defines_type (placed_of placed.now) ≡ true) × (type_named types.now (name_of (placed_of placed.now)) ≡ Some t.0) }
{
    defines_type(placed) && types.find(name_of(placed)) == Some(t)
}

/// The place of the first definition of the type of this number.
pub fn definition_of(types: &Types, statements: &[Placed], t: Ty) -> Option<usize>
    ensures { MatchOption result (HoldsOfNone defines_type (map placed_of statements.now) (λ p. type_named types.now (name_of p) ≡ Some t.0)) (IsFirstAmong defines_type (map placed_of statements.now) (λ p. type_named types.now (name_of p) ≡ Some t.0)) }
{
    for i in 0..statements.len() {
        if defines_number(types, &statements[i], t) {
            return Some(i);
        }
    }
    None
}

// The fault of a feature with two most general writers.
fn split_fault(
    alloc: Global,
    types: &Types,
    statements: &[Placed],
    feature: &str,
    a: Ty,
    b: Ty,
) -> Result<ExpandFault, OutOfMemory>
    requires a_in { a.0 < count_of types.now }
    requires b_in { b.0 < count_of types.now }
    requires defined { IsDefined types.now (map placed_of statements.now) b.0 }
    ensures { IfOk result (IsSplitOf types.now (map placed_of statements.now) feature.now a.0 b.0) }
{
    match definition_of(types, statements, b) {
        Some(statement) => Ok(ExpandFault::Intro {
            feature: String::from_str(alloc, feature)?,
            a: String::from_str(alloc, types.name(a))?,
            b: String::from_str(alloc, types.name(b))?,
            statement,
        }),
        None => unreachable!(),
    }
}

// The fault of a feature that has no introducer.
fn check_feature(
    alloc: Global,
    types: &Types,
    writers: &IndexMap<String, Vec<Ty>>,
    feature: &str,
    statements: &[Placed],
) -> Result<(), ExpandFault>
    requires noted { AreNoted (count_of types.now) (numbers_noted writers.now.entries feature.now) }
    requires defined { (t : ℕ) → Has t (numbers_noted writers.now.entries feature.now) → IsDefined types.now (map placed_of statements.now) t }
    ensures introduced { OnOk result (HasNoted types.now (numbers_noted writers.now.entries feature.now)) }
    ensures fault { IfErr result (IsSplitHere types.now (map placed_of statements.now) (numbers_noted writers.now.entries feature.now) feature.now) }
{
    match find_introducer(types, noted(writers, feature)) {
        Introduced::By(_) => Ok(()),
        Introduced::Split { a, b } => Err(split_fault(alloc, types, statements, feature, a, b)?),
    }
}

/// Refuses features without an introducer: at the first, by order of the features.
pub fn check_introducers(
    alloc: Global,
    types: &Types,
    writers: &IndexMap<String, Vec<Ty>>,
    features: &IndexSet<String>,
    statements: &[Placed],
) -> Result<(), ExpandFault>
    requires noted { (f : Name) → Has f (texts features.now.keys) → AreNoted (count_of types.now) (numbers_noted writers.now.entries f) }
    requires defined { (f : Name) (t : ℕ) → Has f (texts features.now.keys) → Has t (numbers_noted writers.now.entries f) → IsDefined types.now (map placed_of statements.now) t }
    ensures introduced { OnOk result ((f : Name) → Has f (texts features.now.keys) → HasNoted types.now (numbers_noted writers.now.entries f)) }
    ensures fault { IfErr result (IsSplitAmong types.now (map placed_of statements.now) (numbers_noted writers.now.entries) (texts features.now.keys)) }
{
    for feature in features.as_slice() {
        check_feature(alloc, types, writers, feature.as_str(), statements)?;
    }
    Ok(())
}

// The introducer of a feature that has one.
fn introducer_of(types: &Types, writers: &IndexMap<String, Vec<Ty>>, feature: &str) -> Ty
    requires noted { AreNoted (count_of types.now) (numbers_noted writers.now.entries feature.now) }
    requires introduced { HasNoted types.now (numbers_noted writers.now.entries feature.now) }
    ensures { IsIntroducer types.now (numbers_noted writers.now.entries feature.now) result.0 }
{
    match find_introducer(types, noted(writers, feature)) {
        Introduced::By(t) => t,
        Introduced::Split { .. } => unreachable!(),
    }
}

/// The introducers of features that have them.
pub fn introducers_of(
    alloc: Global,
    types: &Types,
    writers: &IndexMap<String, Vec<Ty>>,
    feats: &[String],
) -> Result<Vec<Ty>, OutOfMemory>
    requires noted { (f : Name) → Has f (texts feats.now) → AreNoted (count_of types.now) (numbers_noted writers.now.entries f) }
    requires introduced { (f : Name) → Has f (texts feats.now) → HasNoted types.now (numbers_noted writers.now.entries f) }
    ensures { IfOk result (λ ts. AllZip (λ f t. IsIntroducer types.now (numbers_noted writers.now.entries f) t) (texts feats.now) (numbers_of ts.items)) }
{
    let mut introducers = Vec::new(alloc);
    for feat in feats {
        introducers.push(introducer_of(types, writers, feat.as_str()))?;
    }
    Ok(introducers)
}
