//! What is remembered of full structures.

ghost use Rattle.std.specs.Prelude.{◌≡◌, All, IfOk, IfSome};
ghost use Rattle.forest_unpack.specs.Parts.{AreParts, parts_of};
ghost use Rattle.book_signs.specs.Trees.{signs_of};
ghost use Rattle.rule_trees.specs.Mothers.{view_in, IsMade, HasDaughters};
ghost use Rattle.grammar_rules.specs.Told.{all_seen, TellsMother, TellsRooted};

use crate::NoMemory;
use crate::asked::{Rooted, UnderRules};
use crate::parts::{full_again, parts_again};
use answer_memo::Memo;
use book_signs::SignBook;
use forest_unpack::FullParts;
use fs_unify::Scratch;
use rule_trees::{FullStructure, mother_of};
use std::alloc::Global;
use std::marker::Model;

/// The greatest weight of what is kept of what rules made, in words, and of which structures are rooted. A word is a node with its
/// arcs, of some 24 bytes, so that these are about 15 MB and 3 MB.
const MOST_MADE: u64 = 655_360;

const MOST_ROOTED: u64 = 131_072;

/// What the rules of a grammar made of full structures, and which of these are rooted. In contracts it is the grammar's signs.
///
/// One is made for a whole run: what is asked of it depends on the grammar alone. Threads may share it by reference.
#[derive(Drop)]
pub struct RememberedMothers<'a> {
    signs: &'a SignBook<'a>,
    made: Memo<UnderRules<'a>>,
    roots: Memo<Rooted<'a>>,
}

impl<'a> Model for RememberedMothers<'a> {
    ghost use Rattle.std.specs.Prelude.{◌≡◌};
    ghost use Rattle.book_signs.specs.Trees.{SignTree};

    ghost Value = { SignTree };

    ghost view = { λ s. s.signs.now };

    ghost invariant = { λ s. (s.made.signs.now ≡ s.signs.now) × (s.roots.signs.now ≡ s.signs.now) };
}

impl<'a> RememberedMothers<'a> {
    /// Nothing is remembered yet of the full structures of these signs.
    pub fn new(alloc: Global, signs: &'a SignBook<'a>) -> Result<RememberedMothers<'a>, NoMemory>
        ensures { IfOk result (λ s. s ≡ signs.now) }
    {
        let made = Memo::new(alloc, UnderRules { signs }, MOST_MADE)?;
        let roots = Memo::new(alloc, Rooted { signs }, MOST_ROOTED)?;
        Ok(RememberedMothers { signs, made, roots })
    }

    // What the rule at a place makes of full structures, where it is known.
    fn made(&self, place: u32, parts: &FullParts<FullStructure>) -> Option<&Option<FullStructure>>
        ensures { IfSome result (λ told. TellsMother self.now place (all_seen self.now parts.now) told.now) }
    {
        self.made.find(place, parts)
    }

    // Remembers what the rule at a place made of full structures, or that it made none, where there is room.
    fn keep_made(
        &self,
        alloc: Global,
        place: u32,
        parts: &FullParts<FullStructure>,
        told: &Option<FullStructure>,
    ) -> Result<(), NoMemory>
        requires { TellsMother self.now place (all_seen self.now parts.now) told.now }
    {
        if self.made.is_full() {
            return Ok(());
        }
        let key = parts_again(self.signs, parts)?;
        let copy = full_again(told)?;
        self.made.keep(alloc, place, key, copy);
        Ok(())
    }

    /// The full structure under the rule at a place over its daughters' full structures; none exactly where the rule makes none of these.
    /// It is made where it isn't remembered. There is a structure for each of the rule's daughters, each an entry's or made by a rule.
    pub fn mother(
        &self,
        alloc: Global,
        work: &mut Scratch,
        place: u32,
        parts: &FullParts<FullStructure>,
    ) -> Result<Option<FullStructure>, NoMemory>
        requires parts { AreParts parts.now }
        requires made { All (λ f. IsMade (signs_of self.now) (view_in self.now f.graph)) (parts_of parts.now) }
        requires rule { HasDaughters (signs_of self.now) place parts.now.count }
        ensures { IfOk result (TellsMother self.now place (all_seen self.now parts.now)) }
    {
        if let Some(known) = self.made(place, parts) {
            let told = full_again(known)?;
            return Ok(told);
        }
        let full = mother_of(alloc, work, self.signs, place, parts)?;
        self.keep_made(alloc, place, parts, &full).ok();
        Ok(full)
    }

    /// Whether a full structure is rooted, where it is known.
    pub fn rooted(&self, full: &FullStructure) -> Option<bool>
        ensures { IfSome result (TellsRooted self.now (view_in self.now full.now.graph)) }
    {
        let told = self.roots.find(0, full)?;
        Some(*told)
    }

    /// Remembers whether a full structure is rooted, where there is room.
    pub fn keep_rooted(
        &self,
        alloc: Global,
        full: &FullStructure,
        yes: bool,
    ) -> Result<(), NoMemory>
        requires { TellsRooted self.now (view_in self.now full.now.graph) yes }
    {
        if self.roots.is_full() {
            return Ok(());
        }
        let key = full.share()?;
        self.roots.keep(alloc, 0, key, yes);
        Ok(())
    }
}
