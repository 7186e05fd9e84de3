//! The full structures of a line's trees, each made once however many lines ask for it.

ghost use Rattle.std.specs.Prelude.{◌≡◌, IfOk, map};
ghost use Rattle.forest_unpack.specs.Reached.{IsReached};
ghost use Rattle.book_signs.specs.Trees.{signs_of};
ghost use Rattle.lexical_items.specs.Views.{lexeme_seen};
ghost use Rattle.rule_trees.specs.Mothers.{view_in};
ghost use Rattle.rule_trees.specs.Wholes.{wholes_of, IsLexicalAt};
ghost use Rattle.grammar_rules.specs.Told.{TellsRooted};

use chart_model::Span;
use derivation::Tree;
use forest_unpack::{FullParts, Fulls, NoMemory};
use fs_unify::Scratch;
use grammar_rules::RememberedMothers;
use rule_trees::{FullStructure, LineFulls};
use std::alloc::Global;
use std::sync::Arc;

/// The full structures of the trees over a line's lexical trees, with what is remembered of those of the same grammar.
pub struct RememberedLine<'a, 'm, 'g> {
    pub line: LineFulls<'a>,
    pub mothers: &'m RememberedMothers<'g>,
    pub ghost same: { mothers.now ≡ line.signs.now },
}

// Whether a full structure is rooted, which is found out where it isn't remembered. The cover is that of the whole line.
fn is_rooted(
    alloc: Global,
    work: &mut Scratch,
    of: &RememberedLine<'_, '_, '_>,
    full: &FullStructure,
    cover: &Span,
) -> Result<bool, NoMemory>
    requires reached { IsReached (wholes_of (signs_of of.now.line.signs.now) (map (lexeme_seen (λ f. view_in of.now.line.signs.now f.graph)) of.now.line.leaves.now) of.now.line.end)
        (IsLexicalAt (signs_of of.now.line.signs.now) (map (lexeme_seen (λ f. view_in of.now.line.signs.now f.graph)) of.now.line.leaves.now)) (view_in of.now.line.signs.now full.now.graph) }
    requires from { cover.now.from ≡ 0 }
    requires to { cover.now.to ≡ of.now.line.end }
    ensures { IfOk result (TellsRooted of.now.line.signs.now (view_in of.now.line.signs.now full.now.graph)) }
{
    if let Some(known) = of.mothers.rooted(full) {
        return Ok(known);
    }
    let yes = of.line.accepts(alloc, work, full, cover)?;
    of.mothers.keep_rooted(alloc, full, yes).ok();
    Ok(yes)
}

impl<'a, 'm, 'g> Fulls for RememberedLine<'a, 'm, 'g> {
    ghost use Rattle.std.specs.Prelude.{map};
    ghost use Rattle.chart_model.specs.declared.span.Span.{Span as SpanValue};
    ghost use Rattle.tree_model.specs.Structures.{Structure};
    ghost use Rattle.book_signs.specs.Trees.{signs_of};
    ghost use Rattle.lexical_items.specs.Views.{lexeme_seen};
    ghost use Rattle.rule_trees.specs.Mothers.{view_in};
    ghost use Rattle.rule_trees.specs.Wholes.{wholes_of, IsLexicalAt, IsRuled};

    type Full = FullStructure;

    type Cover = Span;

    type Work = Scratch;

    ghost Value = { Structure };

    ghost value = { λ s full. view_in s.line.signs.now full.graph };

    ghost wholes = { λ s. wholes_of (signs_of s.line.signs.now) (map (lexeme_seen (λ full. view_in s.line.signs.now full.graph)) s.line.leaves.now) s.line.end };

    ghost named = { λ s. IsLexicalAt (signs_of s.line.signs.now) (map (lexeme_seen (λ full. view_in s.line.signs.now full.graph)) s.line.leaves.now) };

    ghost ruled = { λ s. IsRuled (signs_of s.line.signs.now) };

    fn leaf(&self, alloc: Global, name: u32) -> Result<(Arc<FullStructure>, Tree), NoMemory> {
        self.line.leaf(alloc, name)
    }

    fn apply(
        &self,
        alloc: Global,
        work: &mut Scratch,
        rule: u32,
        parts: &FullParts<FullStructure>,
    ) -> Result<Option<FullStructure>, NoMemory> {
        let place = self.line.place(rule);
        match self.mothers.mother(alloc, work, place, parts) {
            Ok(full) => Ok(full),
            Err(_) => Err(NoMemory),
        }
    }

    fn same(&self, full: &FullStructure, other: &FullStructure) -> bool {
        self.line.same(full, other)
    }

    fn mark(&self, full: &FullStructure) -> u64 {
        self.line.mark(full)
    }

    fn accepts(
        &self,
        alloc: Global,
        work: &mut Scratch,
        full: &FullStructure,
        cover: &Span,
    ) -> Result<bool, NoMemory> {
        if cover.from != 0 || cover.to != self.line.end {
            return Ok(false);
        }
        let yes = is_rooted(alloc, work, self, full, cover)?;
        Ok(yes)
    }

    fn wants(&self, cover: &Span) -> bool {
        self.line.wants(cover)
    }

    fn place(&self, rule: u32) -> u32 {
        self.line.place(rule)
    }
}
