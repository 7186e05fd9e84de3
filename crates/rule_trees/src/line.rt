//! The full structures of the trees over a line's lexical trees.

ghost use Rattle.std.specs.Prelude.{◌≡◌, ◌↔◌, IfOk, IsTrue};
ghost use Rattle.tree_model.specs.Trees.{IsRooted};
ghost use Rattle.book_signs.specs.Trees.{signs_of};
ghost use Rattle.rule_trees.specs.Mothers.{IsMade, view_in};

use crate::full::FullStructure;
use crate::mothers::mother_of;
use crate::roots::rooted;
use book_signs::SignBook;
use chart_model::Span;
use derivation::Tree;
use forest_unpack::{FullParts, Fulls, NoMemory};
use fs_unify::Scratch;
use lexical_items::LexTree;
use std::alloc::Global;
use std::sync::Arc;

/// The full structures of trees over the lexical trees of a line, which are named by their places, and which of them are
/// asked for: those that go from the first node to the end and are rooted.
pub struct LineFulls<'a> {
    pub signs: &'a SignBook<'a>,
    pub leaves: &'a [LexTree<FullStructure>],
    /// the last node of the line
    pub end: u32,
}

// Whether some root unifies with a full structure.
fn is_rooted(
    alloc: Global,
    work: &mut Scratch,
    signs: &SignBook<'_>,
    full: &FullStructure,
) -> Result<bool, NoMemory>
    requires { IsMade (signs_of signs.now) (view_in signs.now full.now.graph) }
    ensures { IfOk result (λ yes. IsTrue yes ↔ IsRooted (signs_of signs.now) (view_in signs.now full.now.graph)) }
{
    match rooted(alloc, work, signs, full) {
        Ok(yes) => Ok(yes),
        Err(_) => Err(NoMemory),
    }
}

impl<'a> Fulls for LineFulls<'a> {
    ghost use Rattle.std.specs.Prelude.{map};
    ghost use Rattle.chart_model.specs.declared.span.Span.{Span as SpanValue};
    ghost use Rattle.tree_model.specs.Structures.{Structure};
    ghost use Rattle.book_signs.specs.Trees.{signs_of};
    ghost use Rattle.lexical_items.specs.Views.{lexeme_seen};
    ghost use Rattle.rule_trees.specs.Mothers.{view_in};
    ghost use Rattle.rule_trees.specs.Wholes.{wholes_of, IsLexicalAt, IsRuled};

    type Full = FullStructure;

    type Cover = Span;

    type Work = Scratch;

    ghost Value = { Structure };

    ghost value = { λ s full. view_in s.signs.now full.graph };

    ghost wholes = { λ s. wholes_of (signs_of s.signs.now) (map (lexeme_seen (λ full. view_in s.signs.now full.graph)) s.leaves.now) s.end };

    ghost named = { λ s. IsLexicalAt (signs_of s.signs.now) (map (lexeme_seen (λ full. view_in s.signs.now full.graph)) s.leaves.now) };

    ghost ruled = { λ s. IsRuled (signs_of s.signs.now) };

    fn leaf(&self, alloc: Global, name: u32) -> Result<(Arc<FullStructure>, Tree), NoMemory> {
        let leaf = &self.leaves[name as usize];
        let Ok(full) = leaf.full.copy(alloc) else {
            return Err(NoMemory);
        };
        let tree = leaf.tree.copy()?;
        Ok((full, tree))
    }

    fn apply(
        &self,
        alloc: Global,
        work: &mut Scratch,
        rule: u32,
        parts: &FullParts<FullStructure>,
    ) -> Result<Option<FullStructure>, NoMemory> {
        self.signs.laws();
        let place = self.signs.phrase_rules()[rule as usize];
        match mother_of(alloc, work, self.signs, place, parts) {
            Ok(full) => Ok(full),
            Err(_) => Err(NoMemory),
        }
    }

    fn same(&self, full: &FullStructure, other: &FullStructure) -> bool {
        full.same(other, self.signs)
    }

    fn mark(&self, full: &FullStructure) -> u64 {
        full.mark()
    }

    fn accepts(
        &self,
        alloc: Global,
        work: &mut Scratch,
        full: &FullStructure,
        cover: &Span,
    ) -> Result<bool, NoMemory> {
        if cover.from != 0 || cover.to != self.end {
            return Ok(false);
        }
        let yes = is_rooted(alloc, work, self.signs, full)?;
        Ok(yes)
    }

    fn wants(&self, cover: &Span) -> bool {
        cover.from == 0 && cover.to == self.end
    }

    fn place(&self, rule: u32) -> u32 {
        self.signs.laws();
        self.signs.phrase_rules()[rule as usize]
    }
}
