//! The full structures of the trees over the leaves of generation.

ghost use Rattle.std.specs.Prelude.{◌≡◌, length};
ghost use Rattle.mrs_model.specs.Valid.{IsValid};
ghost use Rattle.mrs_model.specs.Views.{meaning_of};
ghost use Rattle.mrs_places.specs.Paths.{paths_of};
ghost use Rattle.mrs_extract.specs.Asked.{ArePaths};
ghost use Rattle.realized_trees.specs.Inner.Props.{path_props};

use crate::meaning::is_realized;
use book_signs::SignBook;
use chart_model::Counts;
use derivation::Tree;
use forest_unpack::{FullParts, Fulls, NoMemory};
use fs_unify::Scratch;
use generated_leaves::GenLeaf;
use mrs_model::Mrs;
use mrs_places::MrsPaths;
use rule_trees::{FullStructure, LineFulls, mother_of};
use std::alloc::Global;
use std::sync::Arc;

/// The full structures of trees over the leaves of generation, which are named by their places, and which of them are asked for:
/// those that realize an MRS. Their counts are those of the bound, some root unifies with them, and the MRS of what they mean is
/// the one that is generated from, up to renamed variables.
///
/// `paths` say where MRSs stand in structures of the grammar, and `mrs` is valid.
#[derive(Drop)]
pub struct RealizedFulls<'a> {
    pub signs: &'a SignBook<'a>,
    pub leaves: &'a [GenLeaf],
    pub paths: &'a MrsPaths,
    /// what is generated from
    pub mrs: &'a Mrs,
    /// the counts of its predicates
    pub bound: &'a Counts,
    pub ghost paths_are: { ArePaths signs.now.book.system.types (paths_of paths.now) } by { Prim.hlevel path_props },
    pub ghost feats: { length (paths_of paths.now).feats ≡ length signs.now.book.system.introducers },
    pub ghost valid: { ∥ IsValid (meaning_of mrs.now) ∥₁ },
}

impl<'a> Fulls for RealizedFulls<'a> {
    ghost use Rattle.std.specs.Prelude.{map};
    ghost use Rattle.chart_model.specs.declared.counts.Counts.{Counts as CountsValue};
    ghost use Rattle.tree_model.specs.Structures.{Structure};
    ghost use Rattle.mrs_model.specs.Views.{meaning_of};
    ghost use Rattle.mrs_places.specs.Paths.{paths_of};
    ghost use Rattle.book_signs.specs.Trees.{signs_of};
    ghost use Rattle.rule_trees.specs.Mothers.{view_in};
    ghost use Rattle.rule_trees.specs.Wholes.{IsRuled};
    ghost use Rattle.generated_leaves.specs.Views.{leaf_seen};
    ghost use Rattle.realized_trees.specs.Wholes.{input_of, wholes_of, IsLeafAt};

    type Full = FullStructure;

    type Cover = Counts;

    type Work = Scratch;

    ghost Value = { Structure };

    ghost value = { λ s full. view_in s.signs.now full.graph };

    ghost wholes = { λ s. wholes_of (signs_of s.signs.now) (input_of s.signs.now (paths_of s.paths.now) (meaning_of s.mrs.now)) s.bound.now (map (leaf_seen s.signs.now) s.leaves.now) };

    ghost named = { λ s. IsLeafAt (signs_of s.signs.now) (map (leaf_seen s.signs.now) s.leaves.now) };

    ghost ruled = { λ s. IsRuled (signs_of s.signs.now) };

    // A leaf's structure is shared, and its tree copied.
    fn leaf(&self, _alloc: Global, name: u32) -> Result<(Arc<FullStructure>, Tree), NoMemory> {
        let leaf = &self.leaves[name as usize];
        let full = leaf.full.clone()?;
        let tree = leaf.tree.copy()?;
        Ok((full, tree))
    }

    fn apply(
        &self,
        alloc: Global,
        work: &mut Scratch,
        rule: u32,
        parts: &FullParts<FullStructure>,
    ) -> Result<Option<FullStructure>, NoMemory> {
        self.signs.laws();
        let place = self.signs.phrase_rules()[rule as usize];
        match mother_of(alloc, work, self.signs, place, parts) {
            Ok(full) => Ok(full),
            Err(_) => Err(NoMemory),
        }
    }

    // As full structures over a line are.
    fn same(&self, full: &FullStructure, other: &FullStructure) -> bool {
        let line = LineFulls {
            signs: self.signs,
            leaves: &[],
            end: 0,
        };
        let same = line.same(full, other);
        let LineFulls {
            signs: _signs,
            leaves: _leaves,
            end: _end,
        } = line;
        same
    }

    fn mark(&self, full: &FullStructure) -> u64 {
        let line = LineFulls {
            signs: self.signs,
            leaves: &[],
            end: 0,
        };
        let mark = line.mark(full);
        let LineFulls {
            signs: _signs,
            leaves: _leaves,
            end: _end,
        } = line;
        mark
    }

    // The counts are compared first: the rest unifies.
    fn accepts(
        &self,
        alloc: Global,
        work: &mut Scratch,
        full: &FullStructure,
        cover: &Counts,
    ) -> Result<bool, NoMemory> {
        if cover.of != self.bound.of {
            return Ok(false);
        }
        match is_realized(alloc, work, self.signs, self.paths, self.mrs, full) {
            Ok(yes) => Ok(yes),
            Err(_) => Err(NoMemory),
        }
    }

    fn wants(&self, cover: &Counts) -> bool {
        cover.of == self.bound.of
    }

    fn place(&self, rule: u32) -> u32 {
        self.signs.laws();
        self.signs.phrase_rules()[rule as usize]
    }
}
