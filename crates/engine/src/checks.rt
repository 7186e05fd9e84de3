//! The paths at which types are compared.

ghost use Rattle.std.specs.Prelude.{◌≡◌, map, option_map, IfOk};
ghost use Rattle.fs_graph.specs.Facts.{path_of};
ghost use Rattle.engine.specs.Checks.{path_known, paths_known};

use crate::NoMemory;
use fs_graph::Feat;
use std::alloc::Global;

// A path of features that the grammar has; none where it lacks one.
fn path_known(alloc: Global, feats: &[Option<Feat>]) -> Result<Option<Vec<Feat>>, NoMemory>
    ensures { IfOk result (λ o. option_map (λ p. path_of p.items) o ≡ path_known (map (option_map (λ f. f.0)) feats.now)) }
{
    let mut path = Vec::new(alloc);
    for feat in feats {
        match feat {
            Some(feat) => path.push(*feat)?,
            None => return Ok(None),
        }
    }
    Ok(Some(path))
}

/// Those of some paths whose features the grammar has, in order: any other is in no structure.
pub(crate) fn paths_known(
    alloc: Global,
    paths: &[Vec<Option<Feat>>],
) -> Result<Vec<Vec<Feat>>, NoMemory>
    ensures { IfOk result (λ v. map (λ p. path_of p.items) v.items ≡ paths_known (map (λ p. map (option_map (λ f. f.0)) p.items) paths.now)) }
{
    let mut known = Vec::new(alloc);
    for path in paths {
        if let Some(path) = path_known(alloc, path)? {
            known.push(path)?;
        }
    }
    Ok(known)
}
