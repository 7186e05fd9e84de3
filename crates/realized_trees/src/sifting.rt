//! What unpacking drops.

ghost use Rattle.std.specs.Prelude.{◌≡◌, All, true, map, IfOk, IfSome};
ghost use Rattle.std.specs.Arc.{arc_value};
ghost use Rattle.tree_model.specs.Signs.{rule_system};
ghost use Rattle.generate_model.specs.Threading.{Fit};
ghost use Rattle.mrs_model.specs.Views.{meaning_of};
ghost use Rattle.mrs_places.specs.Paths.{paths_of};
ghost use Rattle.book_signs.specs.Trees.{signs_of};
ghost use Rattle.rule_trees.specs.Mothers.{IsMade, view_in};
ghost use Rattle.generated_leaves.specs.Views.{leaf_seen};
ghost use Rattle.relation_fit.specs.Lists.{list_seen};
ghost use Rattle.realized_trees.specs.Sieves.{IsThreaded, IsSieve};

use crate::NoMemory;
use book_signs::SignBook;
use generated_leaves::GenLeaf;
use mrs_model::Mrs;
use mrs_places::MrsPaths;
use relation_fit::{RelationList, Sought, reaches, sought_of};
use rule_trees::FullStructure;
use std::alloc::Global;

/// By what structures are dropped: the list of their relations, and what an MRS asks for among these.
#[derive(Drop)]
pub struct Sieve<'a> {
    pub list: &'a RelationList,
    pub sought: Sought,
}

// Whether the list of a leaf reaches its end.
fn leaf_reaches(
    alloc: Global,
    signs: &SignBook<'_>,
    list: &RelationList,
    full: &FullStructure,
) -> Result<bool, NoMemory>
    requires { IsMade (signs_of signs.now) (view_in signs.now full.now.graph) }
    ensures { IfOk result (λ yes. yes ≡ true → Fit (rule_system (signs_of signs.now)) (list_seen list.now).rest (list_seen list.now).ends (view_in signs.now full.now.graph)) }
{
    full.laws(signs);
    let yes = reaches(alloc, full.graph(), list)?;
    Ok(yes)
}

// Whether that of each leaf does.
fn leaves_reach(
    alloc: Global,
    signs: &SignBook<'_>,
    list: &RelationList,
    leaves: &[GenLeaf],
) -> Result<bool, NoMemory>
    requires { All (λ l. IsMade (signs_of signs.now) (leaf_seen signs.now l).full) leaves.now }
    ensures { IfOk result (λ yes. yes ≡ true → All (λ x. Fit (rule_system (signs_of signs.now)) (list_seen list.now).rest (list_seen list.now).ends x.full) (map (leaf_seen signs.now) leaves.now)) }
{
    for leaf in leaves {
        if !leaf_reaches(alloc, signs, list, &leaf.full)? {
            return Ok(false);
        }
    }
    Ok(true)
}

/// What may be dropped in unpacking over these leaves, for an MRS, by the list of the grammar; nothing where the grammar has none, or the
/// list of a leaf doesn't reach its end. The structures of the leaves are of entries, or made by rules.
pub fn sieve_of<'a>(
    alloc: Global,
    signs: &SignBook<'_>,
    list: &'a Option<RelationList>,
    paths: &MrsPaths,
    mrs: &Mrs,
    leaves: &[GenLeaf],
) -> Result<Option<Sieve<'a>>, NoMemory>
    requires threaded { IfSome list.now (λ l. IsThreaded signs.now (paths_of paths.now) (list_seen l)) }
    requires made { All (λ l. IsMade (signs_of signs.now) (leaf_seen signs.now l).full) leaves.now }
    ensures { IfOk result (λ o. IfSome o (IsSieve signs.now (paths_of paths.now) (meaning_of mrs.now) (map (leaf_seen signs.now) leaves.now))) }
{
    let Some(list) = list else {
        return Ok(None);
    };
    if !leaves_reach(alloc, signs, list, leaves)? {
        return Ok(None);
    }
    let sought = sought_of(alloc, signs.system().types(), paths, mrs)?;
    Ok(Some(Sieve { list, sought }))
}
