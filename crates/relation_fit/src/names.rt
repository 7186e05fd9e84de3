//! Features and paths of features by their names, and names that begin as a predicate.

ghost use Rattle.std.specs.Prelude.{◌≡◌, ◌<◌, All, map, length, false, IfOk, IfSome};
ghost use Rattle.std.specs.Char.{to_ascii_lowercase};
ghost use Rattle.std.specs.String.{string_bytes};
ghost use Rattle.mrs_places.specs.Paths.{paths_of};
ghost use Rattle.mrs_extract.specs.Extraction.{Normal, feature_name};
ghost use Rattle.mrs_extract.specs.Inner.Routes.{joined, numbers_of};

use crate::NoMemory;
use fs_graph::Feat;
use mrs_places::MrsPaths;
use std::alloc::Global;

/// Whether a name begins as a predicate, in ASCII lower case: false only where the normal form of the name isn't that predicate.
pub(crate) fn begins_as(name: &[u8], pred: &[u8]) -> bool
    ensures { result ≡ false → Normal (map to_ascii_lowercase name.now) pred.now → ⊥ }
{
    if name.len() < pred.len() {
        return false;
    }
    for k in 0..pred.len() {
        if name[k].to_ascii_lowercase() != pred[k] {
            return false;
        }
    }
    true
}

/// A feature of the grammar that has a name.
pub(crate) fn feature_named(paths: &MrsPaths, name: &str) -> Option<Feat>
    ensures { IfSome result (λ f. (f.0 < length (paths_of paths.now).feats) × (feature_name (paths_of paths.now) f.0 ≡ name.now)) }
{
    for k in 0..paths.feats.len() {
        if k < u32::MAX as usize && paths.feats[k].as_str() == name {
            return Some(Feat(k as u32));
        }
    }
    None
}

// The name of a path: that of each feature, joined by dots.
fn name_of(paths: &MrsPaths, path: &[Feat]) -> Result<String, NoMemory>
    requires filled { 0 < length path.now }
    requires inside { All (λ f. f < length paths.now.feats.items) (numbers_of path.now) }
    ensures { IfOk result (λ s. string_bytes s ≡ joined (paths_of paths.now) (numbers_of path.now)) }
{
    let mut name = paths.feats[path[0].0 as usize].clone()?;
    for k in 1..path.len() {
        name.push('.')?;
        name.push_str(&paths.feats[path[k].0 as usize])?;
    }
    Ok(name)
}

// The features that the parts of a name between dots name, where each names one.
fn features_named(
    alloc: Global,
    paths: &MrsPaths,
    name: &str,
) -> Result<Option<Vec<Feat>>, NoMemory>
    ensures { IfOk result (λ o. IfSome o (λ v. All (λ f. f < length paths.now.feats.items) (numbers_of v.items))) }
{
    let mut path = Vec::new(alloc);
    for part in name.split('.') {
        let Some(feat) = feature_named(paths, part) else {
            return Ok(None);
        };
        path.push(feat)?;
    }
    Ok(Some(path))
}

/// The path of features that has a name.
pub(crate) fn path_named(
    alloc: Global,
    paths: &MrsPaths,
    name: &str,
) -> Result<Option<Vec<Feat>>, NoMemory>
    ensures { IfOk result (λ o. IfSome o (λ v. (0 < length v.items) × All (λ f. f < length (paths_of paths.now).feats) (numbers_of v.items) × (joined (paths_of paths.now) (numbers_of v.items) ≡ name.now))) }
{
    let Some(path) = features_named(alloc, paths, name)? else {
        return Ok(None);
    };
    if path.is_empty() {
        return Ok(None);
    }
    let own = name_of(paths, &path)?;
    if own.as_str() != name {
        return Ok(None);
    }
    Ok(Some(path))
}
