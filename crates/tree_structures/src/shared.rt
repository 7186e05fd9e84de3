//! What a run remembers of full structures.

ghost use Rattle.std.specs.Prelude.{◌≡◌, All, IfOk};
ghost use Rattle.forest_unpack.specs.Parts.{AreParts, parts_of};
ghost use Rattle.book_signs.specs.Trees.{signs_of};
ghost use Rattle.rule_trees.specs.Mothers.{view_in, IsMade, HasDaughters};
ghost use Rattle.lexical_items.specs.Fulls.{IsLexicalFull};
ghost use Rattle.lexical_items.specs.Known.{IsOfEntry, IsUnder};
ghost use Rattle.grammar_rules.specs.Told.{all_seen, TellsMother};
ghost use Rattle.tree_structures.specs.Formed.{IsEntryAt, IsLexicalRuleAt};

use crate::NoMemory;
use book_signs::SignBook;
use forest_unpack::FullParts;
use fs_unify::Scratch;
use grammar_rules::RememberedMothers;
use lexical_items::{LexicalFulls, RememberedFulls};
use rule_trees::{FullStructure, SignFulls};
use std::alloc::Global;
use std::marker::Model;

/// What lines of a run share of a grammar's full structures: those of entries and under lexical rules, and what rules made of others. In
/// contracts it is the grammar's signs: what is remembered enters into no answer.
#[derive(Drop)]
pub struct SharedFulls<'m, 'k> {
    lexical: &'m RememberedFulls<SignFulls<'k>>,
    mothers: &'m RememberedMothers<'k>,
}

impl<'m, 'k> Model for SharedFulls<'m, 'k> {
    ghost use Rattle.std.specs.Prelude.{◌≡◌};
    ghost use Rattle.book_signs.specs.Trees.{SignTree};

    ghost Value = { SignTree };

    ghost view = { λ s. s.lexical.now.signs.now };

    ghost invariant = { λ s. s.mothers.now ≡ s.lexical.now.signs.now };
}

impl<'m, 'k> SharedFulls<'m, 'k> {
    ghost use Rattle.fs_model.specs.Claims.{IsOrder};
    ghost use Rattle.book_signs.specs.Trees.{HaveArities};

    /// What is remembered of the same signs.
    pub fn new(
        lexical: &'m RememberedFulls<SignFulls<'k>>,
        mothers: &'m RememberedMothers<'k>,
    ) -> SharedFulls<'m, 'k>
        requires { mothers.now ≡ lexical.now.signs.now }
        ensures { result ≡ lexical.now.signs.now }
    {
        SharedFulls { lexical, mothers }
    }

    // The signs.
    fn signs(&self) -> &'k SignBook<'k>
        ensures { result.now ≡ self.now }
    {
        let fulls = self.lexical.fulls();
        fulls.signs
    }

    /// A law: each instance has as many places as its kind asks, and types are in order. It does nothing.
    pub(crate) fn laws(&self)
        ensures arities { HaveArities (signs_of self.now) }
        ensures order { IsOrder (signs_of self.now).system }
    {
        self.signs().laws();
    }

    /// The full structure of the entry at a place; none exactly where it has none.
    pub(crate) fn entry(
        &self,
        alloc: Global,
        work: &mut Scratch,
        place: u32,
    ) -> Result<Option<FullStructure>, NoMemory>
        requires { IsEntryAt (signs_of self.now) place }
        ensures { IfOk result (IsOfEntry (signs_of self.now) (λ f. view_in self.now f.graph) place) }
    {
        self.lexical.laws();
        let full = self.lexical.entry(alloc, work, place)?;
        Ok(full)
    }

    /// What the lexical rule at a place makes of a lexical tree's full structure; none exactly where it makes none.
    pub(crate) fn under(
        &self,
        alloc: Global,
        work: &mut Scratch,
        place: u32,
        full: &FullStructure,
    ) -> Result<Option<FullStructure>, NoMemory>
        requires rule { IsLexicalRuleAt (signs_of self.now) place }
        requires lexical { IsLexicalFull (signs_of self.now) (view_in self.now full.now.graph) }
        ensures { IfOk result (IsUnder (signs_of self.now) (λ f. view_in self.now f.graph) place (view_in self.now full.now.graph)) }
    {
        self.lexical.laws();
        let made = self.lexical.under(alloc, work, place, full)?;
        Ok(made)
    }

    /// The full structure under the rule at a place over its daughters' full structures; none exactly where it makes none.
    pub(crate) fn mother(
        &self,
        alloc: Global,
        work: &mut Scratch,
        place: u32,
        parts: &FullParts<FullStructure>,
    ) -> Result<Option<FullStructure>, NoMemory>
        requires parts { AreParts parts.now }
        requires made { All (λ f. IsMade (signs_of self.now) (view_in self.now f.graph)) (parts_of parts.now) }
        requires rule { HasDaughters (signs_of self.now) place parts.now.count }
        ensures { IfOk result (TellsMother self.now place (all_seen self.now parts.now)) }
    {
        let full = self.mothers.mother(alloc, work, place, parts)?;
        Ok(full)
    }
}
