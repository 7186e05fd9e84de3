//! Whether the phrase rules of a grammar append the relations of their daughters.

ghost use Rattle.std.specs.Prelude.{◌≡◌, ◌<◌, length, true, Some, IfOk, IfSome};
ghost use Rattle.type_hierarchy.specs.Table.{count_of};
ghost use Rattle.tree_model.specs.Mothers.{Rule};
ghost use Rattle.tree_model.specs.Signs.{rule_system};
ghost use Rattle.generate_model.specs.Threading.{IsThreading, AllThread};
ghost use Rattle.mrs_places.specs.Paths.{paths_of};
ghost use Rattle.mrs_extract.specs.Asked.{ArePaths};
ghost use Rattle.book_signs.specs.Trees.{signs_of, rule_at};
ghost use Rattle.relation_fit.specs.Fits.{NullApart};
ghost use Rattle.relation_fit.specs.Lists.{list_seen};
ghost use Rattle.realized_trees.specs.Sieves.{IsThreaded};

use crate::NoMemory;
use book_signs::SignBook;
use fs_graph::Feat;
use mrs_places::MrsPaths;
use relation_fit::{RelationList, is_outside, relation_list, threads};
use std::alloc::Global;
use type_hierarchy::Ty;

// Whether the rule at a place is seen to append the lists of its daughters.
fn rule_threads(
    alloc: Global,
    signs: &SignBook<'_>,
    list: &RelationList,
    place: u32,
) -> Result<bool, NoMemory>
    requires { place < length (signs_of signs.now).instances }
    ensures { IfOk result (λ yes. yes ≡ true → (rule : Rule) → rule_at (signs_of signs.now) place ≡ Some rule → IsThreading (rule_system (signs_of signs.now)) (list_seen list.now).rest (list_seen list.now).ends rule) }
{
    let yes = threads(alloc, signs.structure(place), list, signs.places(place))?;
    Ok(yes)
}

// Whether each phrase rule is.
fn all_thread(alloc: Global, signs: &SignBook<'_>, list: &RelationList) -> Result<bool, NoMemory>
    ensures { IfOk result (λ yes. yes ≡ true → AllThread (rule_system (signs_of signs.now)) (list_seen list.now).rest (list_seen list.now).ends) }
{
    let rules = signs.phrase_rules();
    for k in 0..rules.len() {
        if !rule_threads(alloc, signs, list, rules[k])? {
            return Ok(false);
        }
    }
    Ok(true)
}

// Whether the null type has no meet with the type that introduces REST, so that no cell is an empty list.
fn is_null_apart(signs: &SignBook<'_>, paths: &MrsPaths, rest: Feat) -> bool
    requires { IfSome (paths_of paths.now).null (λ t. t < count_of signs.now.book.system.types) }
    ensures { result ≡ true → NullApart (signs_of signs.now).system (paths_of paths.now) rest.0 }
{
    signs.laws();
    let Some(null) = paths.null else {
        return true;
    };
    if rest.0 as usize >= signs.book().feats.len() {
        return false;
    }
    let introducer = Ty(signs.system().introducer(rest.0));
    signs.system().types().meet(null, introducer).is_none()
}

/// The list of relations of a grammar, where structures may be dropped by it: no path of the list begins with a feature of daughters, each
/// phrase rule is seen to append the lists of its daughters, and no cell is an empty list. It is asked once for a grammar.
pub fn threaded_list(
    alloc: Global,
    signs: &SignBook<'_>,
    paths: &MrsPaths,
) -> Result<Option<RelationList>, NoMemory>
    requires { ArePaths signs.now.book.system.types (paths_of paths.now) }
    ensures { IfOk result (λ o. IfSome o (λ l. IsThreaded signs.now (paths_of paths.now) (list_seen l))) }
{
    signs.laws();
    let Some(list) = relation_list(alloc, paths)? else {
        return Ok(None);
    };
    if !is_outside(&list, &signs.daughters().at_root) {
        return Ok(None);
    }
    if !is_null_apart(signs, paths, list.rest) {
        return Ok(None);
    }
    if !all_thread(alloc, signs, &list)? {
        return Ok(None);
    }
    Ok(Some(list))
}
