//! Predicates by the names of their types.

ghost use Rattle.std.specs.Prelude.{◌≡◌, ◌<◌, map, IfOk, All};
ghost use Rattle.std.specs.List.{AllZip};
ghost use Rattle.std.specs.String.{string_bytes};
ghost use Rattle.std.specs.Char.{to_ascii_lowercase};
ghost use Rattle.type_hierarchy.specs.Table.{count_of};
ghost use Rattle.mrs_places.specs.Paths.{feature_of, paths_of};
ghost use Rattle.mrs_places.specs.Asked.{IsTyped};
ghost use Rattle.mrs_extract.specs.Extraction.{Normal};
ghost use Rattle.generate_model.specs.Contributing.{IsNamed, Predicates};

use crate::NoMemory;
use crate::relations::pred_types;
use fs_graph::Graph;
use mrs_places::{MrsFeat, MrsPaths};
use std::alloc::Global;
use type_hierarchy::{Ty, Types};

// In ASCII lower case, without an ending `_rel` as often as there is one.
fn normal(alloc: Global, text: &str) -> Result<String, NoMemory>
    ensures { IfOk result (λ s. Normal (map to_ascii_lowercase text.now) (string_bytes s)) }
{
    let mut pred = text.to_ascii_lowercase(alloc)?;
    'ends: while pred.as_bytes().ends_with(b"_rel") {
        pred.truncate(pred.len() - 4);
    }
    Ok(pred)
}

/// The predicate that a type names: in ASCII lower case, without an ending `_rel` as often as there is one (SimpleMRS).
pub fn predicate(alloc: Global, types: &Types, ty: Ty) -> Result<String, NoMemory>
    requires { ty.0 < count_of types.now }
    ensures { IfOk result (λ s. IsNamed types.now ty.0 (string_bytes s)) }
{
    normal(alloc, types.name(ty))
}

// The predicates that some types name.
fn named(alloc: Global, types: &Types, preds: &[Ty]) -> Result<Vec<String>, NoMemory>
    requires { All (λ t. t.0 < count_of types.now) preds.now }
    ensures { IfOk result (λ v. AllZip (IsNamed types.now) (map (λ t. t.0) preds.now) (map string_bytes v.items)) }
{
    let mut names = Vec::with_capacity(alloc, preds.len())?;
    for k in 0..preds.len() {
        names.push(predicate(alloc, types, preds[k])?)?;
    }
    Ok(names)
}

/// The predicates that stand in RELS at a path of a structure, in order, as `pred_types` finds them.
pub fn predicates(
    alloc: Global,
    graph: &Graph,
    types: &Types,
    paths: &MrsPaths,
    base: &[MrsFeat],
) -> Result<Vec<String>, NoMemory>
    requires { IsTyped types.now (paths_of paths.now) graph.now }
    ensures { IfOk result (λ v. Predicates graph.now types.now (paths_of paths.now) (map feature_of base.now) (map string_bytes v.items)) }
{
    let preds = pred_types(alloc, graph, types, paths, base)?;
    named(alloc, types, &preds)
}
