//! What settings name, by number.

ghost use Rattle.std.specs.Prelude.{◌≡◌, ◌<◌, ◌^◌, map, option_map, length, IfOk, string_bytes};
ghost use Rattle.type_hierarchy.specs.Decls.{texts};
ghost use Rattle.type_hierarchy.specs.Named.{type_named};
ghost use Rattle.constraint_expand.specs.Systems.{settled_of};
ghost use Rattle.constraint_expand.specs.Books.{feature_named, numbered_of, numbered_in};

use crate::OutOfMemory;
use crate::books::BookNames;
use body_facts::Names;
use fs_graph::Feat;
use std::alloc::Global;
use type_hierarchy::{Ty, Types};

// The type of a name.
fn type_of(types: &Types, name: &String) -> Option<Ty>
    ensures { option_map (λ t. t.0) result ≡ type_named types.now (string_bytes name.now) }
{
    types.find(name.as_str())
}

// The feature of a name.
fn feature(feats: &[String], name: &String) -> Option<Feat>
    requires { length feats.now < 2 ^ 32 }
    ensures { option_map (λ f. f.0) result ≡ feature_named (texts feats.now) (string_bytes name.now) }
{
    for i in 0..feats.len() {
        if name.as_str() == feats[i].as_str() {
            return Some(Feat(i as u32));
        }
    }
    None
}

// The features of names.
fn features(
    alloc: Global,
    feats: &[String],
    names: &Vec<String>,
) -> Result<Vec<Option<Feat>>, OutOfMemory>
    requires { length feats.now < 2 ^ 32 }
    ensures { IfOk result (λ found. map (option_map (λ f. f.0)) found.items ≡ map (feature_named (texts feats.now)) (texts names.now.items)) }
{
    let mut found = Vec::new(alloc);
    for name in names {
        found.push(feature(feats, name))?;
    }
    Ok(found)
}

// The features of paths.
fn paths(
    alloc: Global,
    feats: &[String],
    names: &Vec<Vec<String>>,
) -> Result<Vec<Vec<Option<Feat>>>, OutOfMemory>
    requires { length feats.now < 2 ^ 32 }
    ensures { IfOk result (λ found. map (λ p. map (option_map (λ f. f.0)) p.items) found.items ≡ map (map (feature_named (texts feats.now))) (map (λ p. texts p.items) names.now.items)) }
{
    let mut found = Vec::new(alloc);
    for path in names {
        found.push(features(alloc, feats, path)?)?;
    }
    Ok(found)
}

/// What settings name, by number: types and features that the grammar has.
pub fn book_names(
    alloc: Global,
    types: &Types,
    feats: &[String],
    names: &Names,
) -> Result<BookNames, OutOfMemory>
    requires { length feats.now < 2 ^ 32 }
    ensures { IfOk result (λ b. numbered_of b ≡ numbered_in types.now (texts feats.now) (settled_of names.now)) }
{
    let args_path = features(alloc, feats, &names.args_path)?;
    let daughter_features = features(alloc, feats, &names.daughter_features)?;
    let restrictors = features(alloc, feats, &names.restrictors)?;
    let check_paths = paths(alloc, feats, &names.check_paths)?;
    Ok(BookNames {
        list: type_of(types, &names.list),
        cons: type_of(types, &names.cons),
        null: type_of(types, &names.null),
        first: feature(feats, &names.first),
        rest: feature(feats, &names.rest),
        diff_list: feature(feats, &names.diff_list),
        diff_last: feature(feats, &names.diff_last),
        args_path,
        daughter_features,
        restrictors,
        check_paths,
        path_limit: names.path_limit,
    })
}
