//! The full structures of the trees over the leaves of generation, without those that are dropped.

use crate::RealizedFulls;
use crate::dropping::{has_dropped, is_dropped};
use crate::sifting::Sieve;
use chart_model::Counts;
use derivation::Tree;
use forest_unpack::{FullParts, Fulls, NoMemory};
use fs_unify::Scratch;
use rule_trees::FullStructure;
use std::alloc::Global;
use std::sync::Arc;

/// The full structures over the leaves of generation without those that a sieve drops: there is none of a daughter that is dropped, and
/// none that is. What is asked for is as without it.
#[derive(Drop)]
pub struct PrunedFulls<'a> {
    pub fulls: &'a RealizedFulls<'a>,
    pub sieve: &'a Option<Sieve<'a>>,
}

impl<'a> Fulls for PrunedFulls<'a> {
    ghost use Rattle.std.specs.Prelude.{map};
    ghost use Rattle.chart_model.specs.declared.counts.Counts.{Counts as CountsValue};
    ghost use Rattle.tree_model.specs.Structures.{Structure};
    ghost use Rattle.mrs_model.specs.Views.{meaning_of};
    ghost use Rattle.mrs_places.specs.Paths.{paths_of};
    ghost use Rattle.book_signs.specs.Trees.{signs_of};
    ghost use Rattle.rule_trees.specs.Mothers.{view_in};
    ghost use Rattle.rule_trees.specs.Wholes.{IsRuled};
    ghost use Rattle.generated_leaves.specs.Views.{leaf_seen};
    ghost use Rattle.realized_trees.specs.Wholes.{input_of, wholes_of, IsLeafAt};
    ghost use Rattle.realized_trees.specs.Sieves.{sifted};

    type Full = FullStructure;

    type Cover = Counts;

    type Work = Scratch;

    ghost Value = { Structure };

    ghost value = { λ s full. view_in s.fulls.now.signs.now full.graph };

    ghost wholes = { λ s. sifted s.fulls.now.signs.now (paths_of s.fulls.now.paths.now) s.sieve.now
        (wholes_of (signs_of s.fulls.now.signs.now) (input_of s.fulls.now.signs.now (paths_of s.fulls.now.paths.now) (meaning_of s.fulls.now.mrs.now)) s.fulls.now.bound.now (map (leaf_seen s.fulls.now.signs.now) s.fulls.now.leaves.now)) };

    ghost named = { λ s. IsLeafAt (signs_of s.fulls.now.signs.now) (map (leaf_seen s.fulls.now.signs.now) s.fulls.now.leaves.now) };

    ghost ruled = { λ s. IsRuled (signs_of s.fulls.now.signs.now) };

    fn leaf(&self, alloc: Global, name: u32) -> Result<(Arc<FullStructure>, Tree), NoMemory> {
        self.fulls.leaf(alloc, name)
    }

    // Daughters are tested first: leaves may be dropped too, and a test takes no memory.
    fn apply(
        &self,
        alloc: Global,
        work: &mut Scratch,
        rule: u32,
        parts: &FullParts<FullStructure>,
    ) -> Result<Option<FullStructure>, NoMemory> {
        self.fulls.signs.laws();
        if has_dropped(self.fulls.signs, self.fulls.paths, self.sieve, parts)? {
            return Ok(None);
        }
        let Some(full) = self.fulls.apply(alloc, work, rule, parts)? else {
            return Ok(None);
        };
        if is_dropped(self.fulls.signs, self.fulls.paths, self.sieve, &full)? {
            return Ok(None);
        }
        Ok(Some(full))
    }

    fn same(&self, full: &FullStructure, other: &FullStructure) -> bool {
        self.fulls.same(full, other)
    }

    fn mark(&self, full: &FullStructure) -> u64 {
        self.fulls.mark(full)
    }

    fn accepts(
        &self,
        alloc: Global,
        work: &mut Scratch,
        full: &FullStructure,
        cover: &Counts,
    ) -> Result<bool, NoMemory> {
        self.fulls.accepts(alloc, work, full, cover)
    }

    fn wants(&self, cover: &Counts) -> bool {
        self.fulls.wants(cover)
    }

    fn place(&self, rule: u32) -> u32 {
        self.fulls.place(rule)
    }
}
