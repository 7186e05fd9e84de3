//! The features that a grammar has.

ghost use Rattle.std.specs.Prelude.{◌≡◌, map, option_map, IfOk};
ghost use Rattle.fs_graph.specs.Facts.{path_of};
ghost use Rattle.book_signs.specs.Signed.{known_of};

use fs_graph::Feat;
use lexicon::NoMemory;
use std::alloc::Global;

/// Those of some features that the grammar has, in order.
pub fn known(alloc: Global, feats: &[Option<Feat>]) -> Result<Vec<Feat>, NoMemory>
    ensures { IfOk result (λ v. path_of v.items ≡ known_of (map (option_map (λ f. f.0)) feats.now)) }
{
    let mut found = Vec::new(alloc);
    for feat in feats {
        if let Some(feat) = feat {
            found.push(*feat)?;
        }
    }
    Ok(found)
}
