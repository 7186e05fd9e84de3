//! A book of signs.

ghost use Rattle.std.specs.Prelude.{◌≡◌, ◌<◌, length, Some, IfOk};
ghost use Rattle.fs_model.specs.Claims.{IsOrder};
ghost use Rattle.fs_unify.specs.Rules.{system_of};
ghost use Rattle.fs_unify.specs.Owing.{ListsOwed};
ghost use Rattle.fs_trim.specs.Cutting.{cut_of, owed_of, IsShort};
ghost use Rattle.tree_model.specs.Mothers.{daughters_cut, restrictors_cut};
ghost use Rattle.tree_model.specs.Signs.{rule_system};
ghost use Rattle.book_signs.specs.Signed.{IsSignsOf, facts_of};
ghost use Rattle.book_signs.specs.Conditions.{IsWhole, IsClosed};
ghost use Rattle.book_signs.specs.Trees.{signs_of, paths_of, facts_at, places_at, entries_of, lexical_rules_of, phrase_rules_of, roots_of, ArePathsIn, HaveArities};

use crate::kinds::{Kinds, kinds_of};
use crate::known::known;
use crate::placing::all_places;
use constraint_expand::Book;
use fs_graph::{Feat, Graph};
use fs_trim::Cut;
use fs_unify::{Owed, TypeSystem};
use lexicon::NoMemory;
use std::alloc::Global;
use std::marker::Model;

/// A grammar's book as its trees see it: for each instance its structure and the places of its daughters, what a mother loses
/// and what abstract structures lack, and which instances are entries, rules and roots. It is made once for a grammar.
#[derive(Drop)]
pub struct SignBook<'a> {
    book: &'a Book,
    places: Vec<Vec<Vec<Feat>>>,
    daughters: Cut,
    // what a mother owes when she has lost them
    owed: Owed,
    restrictors: Cut,
    kinds: Kinds,
}

impl<'a> Model for SignBook<'a> {
    ghost use Rattle.std.specs.Prelude.{map};
    ghost use Rattle.fs_trim.specs.Cutting.{cut_of};
    ghost use Rattle.book_signs.specs.Trees.{SignTree, paths_of};
    ghost use Rattle.book_signs.specs.Inner.Kept.{AreKept};

    ghost Value = { SignTree };

    ghost view = { λ s. record { book = s.book.now; places = map (λ p. paths_of p.items) s.places.items } };

    ghost invariant = { λ s. AreKept s.book.now (map (λ p. paths_of p.items) s.places.items) (cut_of s.daughters) (cut_of s.restrictors) s.owed s.kinds };
}

impl<'a> SignBook<'a> {
    /// The signs of a book. More instances than a `u32` can number count as want of memory.
    pub fn make(alloc: Global, book: &'a Book) -> Result<SignBook<'a>, NoMemory>
        requires { IsWhole book.now }
        ensures { IfOk result (λ s. s.book ≡ book.now) }
    {
        let places = all_places(alloc, book)?;
        let kinds = kinds_of(alloc, &book.instances)?;
        let daughters = Cut {
            at_root: known(alloc, &book.names.daughter_features)?,
            anywhere: Vec::new(alloc),
        };
        let restrictors = Cut {
            at_root: Vec::new(alloc),
            anywhere: known(alloc, &book.names.restrictors)?,
        };
        let Ok(owed) = fs_trim::owed(alloc, &book.system, &daughters) else {
            return Err(NoMemory);
        };
        Ok(SignBook {
            book,
            places,
            daughters,
            owed,
            restrictors,
            kinds,
        })
    }

    /// A law: these are the book's signs, the book is whole, each instance has as many places as its kind asks, and
    /// types are in order. It does nothing.
    pub fn laws(&self)
        ensures signs { IsSignsOf self.now.book (signs_of self.now) }
        ensures whole { IsWhole self.now.book }
        ensures arities { HaveArities (signs_of self.now) }
        ensures order { IsOrder (system_of self.now.book.system) }
    {
        let types = self.book.system.types();
        types.laws();
    }

    /// The book.
    pub fn book(&self) -> &Book
        ensures { result.now ≡ self.now.book }
    {
        self.book
    }

    /// The type system.
    pub fn system(&self) -> &TypeSystem
        ensures { result.now ≡ self.now.book.system }
    {
        &self.book.system
    }

    /// What a mother loses: her daughters.
    pub fn daughters(&self) -> &Cut
        ensures { cut_of result.now ≡ daughters_cut (rule_system (signs_of self.now)) }
    {
        &self.daughters
    }

    /// What a mother owes when she has lost them: the rules with a fact that speaks of her daughters.
    pub fn owed(&self) -> &Owed
        ensures { ListsOwed self.now.book.system (owed_of (daughters_cut (rule_system (signs_of self.now)))) result.now }
    {
        &self.owed
    }

    /// What abstract structures lack.
    pub fn restrictors(&self) -> &Cut
        ensures { cut_of result.now ≡ restrictors_cut (rule_system (signs_of self.now)) }
    {
        &self.restrictors
    }

    /// The structure of the instance at a place.
    pub fn structure(&self, place: u32) -> &Graph
        requires { place < length (signs_of self.now).instances }
        ensures facts { facts_at (signs_of self.now) place ≡ Some (facts_of self.now.book.system result.now) }
        ensures closed { IsClosed self.now.book.system result.now }
        ensures short { IsShort self.now.book.system result.now }
    {
        let structure = &self.book.instances[place as usize].structure;
        structure.laws();
        structure
    }

    /// The paths to the daughters of the instance at a place, from the left; none where it is no rule.
    pub fn places(&self, place: u32) -> &[Vec<Feat>]
        requires { place < length (signs_of self.now).instances }
        ensures places { places_at (signs_of self.now) place ≡ Some (paths_of result.now) }
        ensures within { ArePathsIn self.now.book.system (paths_of result.now) }
    {
        self.book.instances[place as usize].structure.laws();
        &self.places[place as usize]
    }

    /// The places of the entries, in order.
    pub fn entries(&self) -> &[u32]
        ensures { result.now ≡ entries_of (signs_of self.now) }
    {
        &self.kinds.entries
    }

    /// The places of the lexical rules, in order.
    pub fn lexical_rules(&self) -> &[u32]
        ensures { result.now ≡ lexical_rules_of (signs_of self.now) }
    {
        &self.kinds.lexical_rules
    }

    /// The places of the phrase rules, in order.
    pub fn phrase_rules(&self) -> &[u32]
        ensures { result.now ≡ phrase_rules_of (signs_of self.now) }
    {
        &self.kinds.phrase_rules
    }

    /// The places of the roots, in order.
    pub fn roots(&self) -> &[u32]
        ensures { result.now ≡ roots_of (signs_of self.now) }
    {
        &self.kinds.roots
    }
}
