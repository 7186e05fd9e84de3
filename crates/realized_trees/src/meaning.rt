//! Whether a full structure means what is meant.

ghost use Rattle.std.specs.Prelude.{◌≡◌, ◌↔◌, length, IsTrue, IfOk, IfSome, MatchOption};
ghost use Rattle.fs_model.specs.Closure.{AreConsistent};
ghost use Rattle.tree_model.specs.Mothers.{Meant};
ghost use Rattle.tree_model.specs.Signs.{rule_system};
ghost use Rattle.tree_model.specs.Trees.{IsRooted};
ghost use Rattle.mrs_model.specs.Meanings.{Meaning};
ghost use Rattle.mrs_model.specs.Valid.{IsValid};
ghost use Rattle.mrs_model.specs.Views.{meaning_of};
ghost use Rattle.mrs_places.specs.Paths.{paths_of};
ghost use Rattle.mrs_extract.specs.Asked.{ArePaths, IsOf};
ghost use Rattle.mrs_extract.specs.Extraction.{HasMrs};
ghost use Rattle.book_signs.specs.Trees.{signs_of};
ghost use Rattle.rule_trees.specs.Mothers.{view_in, IsMade, IsShortIn};
ghost use Rattle.generate_model.specs.Contributions.{Means};
ghost use Rattle.realized_trees.specs.Wholes.{input_of};

use crate::NoMemory;
use book_signs::SignBook;
use fs_graph::Graph;
use fs_unify::Scratch;
use mrs_extract::{extract, mrs_is_one};
use mrs_model::{Mrs, matching};
use mrs_places::{MrsPaths, NoMrs};
use rule_trees::{FullStructure, rooted};
use std::alloc::Global;
use tree_structures::{closed_of, structure_laws};

// The MRS of a structure; none where one of its parts is missing.
fn mrs_of(
    alloc: Global,
    signs: &SignBook<'_>,
    paths: &MrsPaths,
    graph: &Graph,
) -> Result<Option<Mrs>, NoMemory>
    requires paths { ArePaths signs.now.book.system.types (paths_of paths.now) }
    requires of { IsOf signs.now.book.system.types (paths_of paths.now) graph.now }
    ensures has { IfOk result (λ o. MatchOption o
        ((m : Meaning) → HasMrs graph.now signs.now.book.system.types (paths_of paths.now) m → ⊥)
        (λ mrs. HasMrs graph.now signs.now.book.system.types (paths_of paths.now) (meaning_of mrs))) }
    ensures valid { IfOk result (λ o. IfSome o (λ mrs. IsValid (meaning_of mrs))) }
{
    mrs_is_one();
    match extract(alloc, graph, signs.system().types(), paths) {
        Ok(mrs) => Ok(Some(mrs)),
        Err(NoMrs::Absent { path: _path }) => Ok(None),
        Err(NoMrs::NoMemory) => Err(NoMemory),
    }
}

// Whether the MRS of what a full structure means is this one, up to renamed variables.
fn means(
    alloc: Global,
    work: &mut Scratch,
    signs: &SignBook<'_>,
    paths: &MrsPaths,
    mrs: &Mrs,
    full: &FullStructure,
) -> Result<bool, NoMemory>
    requires sound { AreConsistent (signs_of signs.now).system (Meant (rule_system (signs_of signs.now)) (view_in signs.now full.now.graph)) }
    requires made { IsMade (signs_of signs.now) (view_in signs.now full.now.graph) }
    requires paths { ArePaths signs.now.book.system.types (paths_of paths.now) }
    requires feats { length (paths_of paths.now).feats ≡ length signs.now.book.system.introducers }
    requires valid { IsValid (meaning_of mrs.now) }
    ensures { IfOk result (λ yes. IsTrue yes ↔ Means (signs_of signs.now) (input_of signs.now (paths_of paths.now) (meaning_of mrs.now)) (view_in signs.now full.now.graph)) }
{
    signs.laws();
    structure_laws();
    mrs_is_one();
    let graph = closed_of(alloc, work, signs, full)?;
    match mrs_of(alloc, signs, paths, &graph)? {
        Some(own) => {
            let renaming = matching(alloc, &own, mrs)?;
            Ok(renaming.is_some())
        }
        None => Ok(false),
    }
}

/// Whether some root unifies with a full structure, and the MRS of what it means is this one, up to renamed variables. The structure is
/// an entry's or made by a rule. Whatever the scratch holds, the answer is the same.
///
/// Roots are asked first: that makes no structure.
pub(crate) fn is_realized(
    alloc: Global,
    work: &mut Scratch,
    signs: &SignBook<'_>,
    paths: &MrsPaths,
    mrs: &Mrs,
    full: &FullStructure,
) -> Result<bool, NoMemory>
    requires sound { AreConsistent (signs_of signs.now).system (Meant (rule_system (signs_of signs.now)) (view_in signs.now full.now.graph)) }
    requires made { IsMade (signs_of signs.now) (view_in signs.now full.now.graph) }
    requires paths { ArePaths signs.now.book.system.types (paths_of paths.now) }
    requires feats { length (paths_of paths.now).feats ≡ length signs.now.book.system.introducers }
    requires valid { IsValid (meaning_of mrs.now) }
    ensures { IfOk result (λ yes. IsTrue yes ↔ (IsRooted (signs_of signs.now) (view_in signs.now full.now.graph)
        × Means (signs_of signs.now) (input_of signs.now (paths_of paths.now) (meaning_of mrs.now)) (view_in signs.now full.now.graph))) }
{
    if !rooted(alloc, work, signs, full)? {
        return Ok(false);
    }
    means(alloc, work, signs, paths, mrs, full)
}
