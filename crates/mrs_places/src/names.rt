//! Features, types and sorts of the settings, by what a grammar has.

ghost use Rattle.std.specs.Prelude.{◌≡◌, ◌<◌, ◌^◌, length, map, option_map, IfOk, string_bytes};
ghost use Rattle.type_hierarchy.specs.Decls.{texts};
ghost use Rattle.type_hierarchy.specs.Named.{type_named};
ghost use Rattle.grammar_settings.specs.SettingsViews.{sort_of};
ghost use Rattle.mrs_places.specs.Paths.{feature_of, sort_line_of};
ghost use Rattle.mrs_places.specs.Settled.{feature_named, feature_said, sort_said};

use crate::{MrsFeat, MrsSort, NoMemory};
use fs_graph::Feat;
use grammar_settings::SortLine;
use std::alloc::Global;
use type_hierarchy::{Ty, Types};

// The number of a name.
fn feature(feats: &[String], name: &String) -> Option<Feat>
    requires { length feats.now < 2 ^ 32 }
    ensures { option_map (λ f. f.0) result ≡ feature_named (texts feats.now) (string_bytes name.now) }
{
    for i in 0..feats.len() {
        if name.as_str() == feats[i].as_str() {
            return Some(Feat(i as u32));
        }
    }
    None
}

/// A feature of the settings.
pub(crate) fn feat(feats: &[String], name: &String) -> Result<MrsFeat, NoMemory>
    requires { length feats.now < 2 ^ 32 }
    ensures { IfOk result (λ f. feature_of f ≡ feature_said (texts feats.now) (string_bytes name.now)) }
{
    Ok(MrsFeat {
        name: name.clone()?,
        feat: feature(feats, name),
    })
}

/// Features of the settings, in order.
pub(crate) fn feats_of(
    alloc: Global,
    feats: &[String],
    names: &Vec<String>,
) -> Result<Vec<MrsFeat>, NoMemory>
    requires { length feats.now < 2 ^ 32 }
    ensures { IfOk result (λ v. map feature_of v.items ≡ map (feature_said (texts feats.now)) (texts names.now.items)) }
{
    let mut found = Vec::new(alloc);
    for name in names {
        found.push(feat(feats, name)?)?;
    }
    Ok(found)
}

/// The type of a name.
pub(crate) fn type_of(types: &Types, name: &String) -> Option<Ty>
    ensures { option_map (λ t. t.0) result ≡ type_named types.now (string_bytes name.now) }
{
    types.find(name.as_str())
}

fn sort(types: &Types, line: &SortLine) -> Result<MrsSort, NoMemory>
    ensures { IfOk result (λ s. sort_line_of s ≡ sort_said types.now (sort_of line.now)) }
{
    Ok(MrsSort {
        ty: type_of(types, &line.ty),
        letters: line.letters.clone()?,
    })
}

/// The sorts of the settings, in order.
pub(crate) fn sorts_of(
    alloc: Global,
    types: &Types,
    lines: &Vec<SortLine>,
) -> Result<Vec<MrsSort>, NoMemory>
    ensures { IfOk result (λ v. map sort_line_of v.items ≡ map (sort_said types.now) (map sort_of lines.now.items)) }
{
    let mut sorts = Vec::new(alloc);
    for line in lines {
        sorts.push(sort(types, line)?)?;
    }
    Ok(sorts)
}

/// The same names.
pub(crate) fn copies(alloc: Global, names: &[String]) -> Result<Vec<String>, NoMemory>
    ensures { IfOk result (λ v. texts v.items ≡ texts names.now) }
{
    let mut copies = Vec::with_capacity(alloc, names.len())?;
    for name in names {
        copies.push(name.clone()?)?;
    }
    Ok(copies)
}
