//! Paths that are told as missing.

ghost use Rattle.std.specs.Prelude.{◌≡◌, ◌++◌, map, replicate, OnOk, IfOk};
ghost use Rattle.std.specs.String.{string_bytes};
ghost use Rattle.mrs_places.specs.Paths.{feature_of, paths_of};
ghost use Rattle.mrs_places.specs.Looking.{names, NamedPath};
ghost use Rattle.mrs_places.specs.Faults.{Names};
ghost use Rattle.mrs_places.specs.Inner.Walked.{cell_path, names_at};

use crate::paths::{MrsFeat, MrsPaths, NoMemory, NoMrs};
use std::alloc::Global;

fn push_path(path: &mut Vec<String>, feats: &[MrsFeat]) -> Result<(), NoMemory>
    ensures { OnOk result (map string_bytes path.new.items ≡ map string_bytes path.old.items ++ names (map feature_of feats.now)) }
{
    for feat in feats {
        path.push(feat.name.clone()?)?;
    }
    Ok(())
}

fn push_feats(path: &mut Vec<String>, feats: &[&MrsFeat]) -> Result<(), NoMemory>
    ensures { OnOk result (map string_bytes path.new.items ≡ map string_bytes path.old.items ++ names_at feats.now) }
{
    for feat in feats {
        path.push(feat.name.clone()?)?;
    }
    Ok(())
}

fn push_rests(path: &mut Vec<String>, rest: &MrsFeat, count: usize) -> Result<(), NoMemory>
    ensures { OnOk result (map string_bytes path.new.items ≡ map string_bytes path.old.items ++ replicate count (string_bytes rest.now.name)) }
{
    for k in 0..count {
        path.push(rest.name.clone()?)?;
    }
    Ok(())
}

// The names of two paths, one after the other.
fn joined(alloc: Global, front: &[MrsFeat], end: &[MrsFeat]) -> Result<Vec<String>, NoMemory>
    ensures { IfOk result (λ v. map string_bytes v.items ≡ names (map feature_of front.now) ++ names (map feature_of end.now)) }
{
    let mut path = Vec::new(alloc);
    push_path(&mut path, front)?;
    push_path(&mut path, end)?;
    Ok(path)
}

// The names of the path from the root to M, and then of some features.
fn below_mrs(alloc: Global, paths: &MrsPaths, feats: &[&MrsFeat]) -> Result<Vec<String>, NoMemory>
    ensures { IfOk result (λ v. map string_bytes v.items ≡ names (paths_of paths.now).mrs_path ++ names_at feats.now) }
{
    let mut path = Vec::new(alloc);
    push_path(&mut path, &paths.mrs_path)?;
    push_feats(&mut path, feats)?;
    Ok(path)
}

// The names of the path to a cell of a list of M, and then of some features.
fn below_cell(
    alloc: Global,
    paths: &MrsPaths,
    list: &MrsFeat,
    cell: usize,
    feats: &[&MrsFeat],
) -> Result<Vec<String>, NoMemory>
    ensures { IfOk result (λ v. map string_bytes v.items ≡ cell_path (paths_of paths.now) (feature_of list.now) cell ++ names_at feats.now) }
{
    let mut path = below_mrs(alloc, paths, &[list, &paths.diff_list])?;
    push_rests(&mut path, &paths.rest, cell)?;
    push_feats(&mut path, feats)?;
    Ok(path)
}

// The answer that a path is missing.
fn missing(path: Result<Vec<String>, NoMemory>) -> NoMrs
    ensures { (named : NamedPath) → IfOk path (λ v. map string_bytes v.items ≡ named) → Names named result }
{
    match path {
        Ok(path) => NoMrs::Absent { path },
        Err(_) => NoMrs::NoMemory,
    }
}

/// The answer that a path is missing after another.
pub(crate) fn missing_after(alloc: Global, front: &[MrsFeat], end: &[MrsFeat]) -> NoMrs
    ensures { Names (names (map feature_of front.now) ++ names (map feature_of end.now)) result }
{
    missing(joined(alloc, front, end))
}

/// The answer that some features are missing after M.
pub(crate) fn missing_in_mrs(alloc: Global, paths: &MrsPaths, feats: &[&MrsFeat]) -> NoMrs
    ensures { Names (names (paths_of paths.now).mrs_path ++ names_at feats.now) result }
{
    missing(below_mrs(alloc, paths, feats))
}

/// The answer that some features are missing after a cell of a list of M.
pub(crate) fn missing_in_list(
    alloc: Global,
    paths: &MrsPaths,
    list: &MrsFeat,
    cell: usize,
    feats: &[&MrsFeat],
) -> NoMrs
    ensures { Names (cell_path (paths_of paths.now) (feature_of list.now) cell ++ names_at feats.now) result }
{
    missing(below_cell(alloc, paths, list, cell, feats))
}
