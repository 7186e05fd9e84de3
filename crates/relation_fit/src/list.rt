//! Where the relations of a structure stand.

ghost use Rattle.std.specs.Prelude.{◌≡◌, [], true, map, option_map, IfOk};
ghost use Rattle.fs_graph.specs.Facts.{path_of};
ghost use Rattle.tree_model.specs.Mothers.{RuleSystem, daughters_cut};
ghost use Rattle.generate_model.specs.Embedding.{IsOutside};
ghost use Rattle.mrs_places.specs.Paths.{feature_of, paths_of};
ghost use Rattle.relation_fit.specs.Lists.{list_seen, list_in, numbers, longer};
ghost use Rattle.relation_fit.specs.Inner.Lists.{begins_apart};
ghost use Rattle.tree_model.specs.Cuts.{has_feature};

use crate::NoMemory;
use fs_graph::Feat;
use mrs_places::{MrsFeat, MrsPaths};
use std::alloc::Global;

/// The open list of relations: the paths from a structure's root to where it begins and to where it ends, and the feature from a cell to
/// the next.
#[derive(Debug, Drop)]
pub struct RelationList {
    pub start: Vec<Feat>,
    pub end: Vec<Feat>,
    pub rest: Feat,
}

// The numbers of features, where the grammar has each of them.
fn known(alloc: Global, feats: &[MrsFeat]) -> Result<Option<Vec<Feat>>, NoMemory>
    ensures { IfOk result (λ o. option_map (λ v. path_of v.items) o ≡ numbers (map feature_of feats.now)) }
{
    let mut path = Vec::new(alloc);
    for k in 0..feats.len() {
        let Some(feat) = feats[k].feat else {
            return Ok(None);
        };
        path.push(feat)?;
    }
    Ok(Some(path))
}

// A path with two features more.
fn longer(alloc: Global, path: &[Feat], one: Feat, two: Feat) -> Result<Vec<Feat>, NoMemory>
    ensures { IfOk result (λ v. path_of v.items ≡ longer (path_of path.now) one.0 two.0) }
{
    let mut more = Vec::from_slice(alloc, path)?;
    more.push(one)?;
    more.push(two)?;
    Ok(more)
}

/// The list of relations of the MRSs that stand at a path, where the grammar has each of its features.
pub fn relation_list(alloc: Global, paths: &MrsPaths) -> Result<Option<RelationList>, NoMemory>
    ensures { IfOk result (λ o. option_map list_seen o ≡ list_in (paths_of paths.now)) }
{
    let Some(mrs) = known(alloc, &paths.mrs_path)? else {
        return Ok(None);
    };
    let (Some(rels), Some(list), Some(last), Some(rest)) = (
        paths.rels.feat,
        paths.diff_list.feat,
        paths.diff_last.feat,
        paths.rest.feat,
    ) else {
        return Ok(None);
    };
    let start = longer(alloc, &mrs, rels, list)?;
    let end = longer(alloc, &mrs, rels, last)?;
    Ok(Some(RelationList { start, end, rest }))
}

// Whether a feature is among some.
fn is_among(feats: &[Feat], feat: Feat) -> bool
    ensures { result ≡ has_feature (path_of feats.now) feat.0 }
{
    for k in 0..feats.len() {
        if feats[k].0 == feat.0 {
            return true;
        }
    }
    false
}

// Whether a path has a first feature, and one that isn't among some.
fn begins_apart(path: &[Feat], feats: &[Feat]) -> bool
    ensures { result ≡ begins_apart (path_of path.now) (path_of feats.now) }
{
    if path.is_empty() {
        return false;
    }
    !is_among(feats, path[0])
}

/// Whether no path of the list begins with one of these features, with which the paths of daughters begin.
pub fn is_outside(list: &RelationList, daughters: &[Feat]) -> bool
    ensures { result ≡ true → (g : RuleSystem) → daughters_cut g ≡ record { at_root = path_of daughters.now; anywhere = [] } → IsOutside g (list_seen list.now).ends }
{
    begins_apart(&list.start, daughters) && begins_apart(&list.end, daughters)
}
