//! Which structures are dropped.

ghost use Rattle.std.specs.Prelude.{◌↔◌, IsTrue, All, List, map, IfOk};
ghost use Rattle.std.specs.Arc.{arc_value};
ghost use Rattle.fs_model.specs.Claims.{Has};
ghost use Rattle.mrs_places.specs.Paths.{paths_of};
ghost use Rattle.tree_model.specs.Structures.{Structure};
ghost use Rattle.book_signs.specs.Trees.{signs_of};
ghost use Rattle.rule_trees.specs.Mothers.{IsMade, view_in};
ghost use Rattle.forest_unpack.specs.Parts.{parts_of};
ghost use Rattle.realized_trees.specs.Sieves.{MayDrop};
ghost use Rattle.realized_trees.specs.Inner.Parts.{HasDropped, of_part};

use crate::sifting::Sieve;
use book_signs::SignBook;
use forest_unpack::{FullParts, NoMemory};
use mrs_places::MrsPaths;
use relation_fit::has_misfit;
use rule_trees::FullStructure;
use std::sync::Arc;

/// Whether a structure is dropped, which is an entry's or made by a rule.
pub(crate) fn is_dropped(
    signs: &SignBook<'_>,
    paths: &MrsPaths,
    sieve: &Option<Sieve<'_>>,
    full: &FullStructure,
) -> Result<bool, NoMemory>
    requires { IsMade (signs_of signs.now) (view_in signs.now full.now.graph) }
    ensures { IfOk result (λ yes. IsTrue yes ↔ MayDrop signs.now (paths_of paths.now) sieve.now (view_in signs.now full.now.graph)) }
{
    let Some(sieve) = sieve else {
        return Ok(false);
    };
    full.laws(signs);
    full.graph().laws();
    Ok(has_misfit(
        signs.system().types(),
        full.graph(),
        sieve.list,
        paths,
        &sieve.sought,
    ))
}

// Whether a daughter is there and dropped.
fn is_part_dropped(
    signs: &SignBook<'_>,
    paths: &MrsPaths,
    sieve: &Option<Sieve<'_>>,
    part: &Option<Arc<FullStructure>>,
) -> Result<bool, NoMemory>
    requires { All (λ f. IsMade (signs_of signs.now) (view_in signs.now f.graph)) (of_part part.now) }
    ensures { IfOk result (λ yes. IsTrue yes ↔ HasDropped signs.now (paths_of paths.now) sieve.now (map (λ f. view_in signs.now f.graph) (of_part part.now))) }
{
    match part {
        None => Ok(false),
        Some(full) => is_dropped(signs, paths, sieve, full),
    }
}

/// Whether one of some daughters is.
pub(crate) fn has_dropped(
    signs: &SignBook<'_>,
    paths: &MrsPaths,
    sieve: &Option<Sieve<'_>>,
    parts: &FullParts<FullStructure>,
) -> Result<bool, NoMemory>
    requires { All (λ f. IsMade (signs_of signs.now) (view_in signs.now f.graph)) (parts_of parts.now) }
    ensures { IfOk result (λ yes. IsTrue yes ↔ HasDropped signs.now (paths_of paths.now) sieve.now (map (λ f. view_in signs.now f.graph) (parts_of parts.now))) }
{
    if is_part_dropped(signs, paths, sieve, &parts.a)? {
        return Ok(true);
    }
    if is_part_dropped(signs, paths, sieve, &parts.b)? {
        return Ok(true);
    }
    if is_part_dropped(signs, paths, sieve, &parts.c)? {
        return Ok(true);
    }
    is_part_dropped(signs, paths, sieve, &parts.d)
}
