//! What is asked of the full structures of entries and lexical rules.

ghost use Rattle.std.specs.Prelude.{◌≡◌, ℕ, List, false, IfOk, MatchOption};
ghost use Rattle.fs_model.specs.Claims.{IsOrder};
ghost use Rattle.chart_model.specs.At.{At};
ghost use Rattle.tree_model.specs.Structures.{Structure};
ghost use Rattle.tree_model.specs.Signs.{Signs, an_entry, a_lexical_rule};
ghost use Rattle.tree_model.specs.Lexical.{IsEntry, IsUnderRule};
ghost use Rattle.lexical_items.specs.Fulls.{IsLexicalFull};
ghost use Rattle.lexical_items.specs.Places.{ArePlaces};

use crate::NoMemory;
use std::alloc::Global;

/// The full structures of entries, and what lexical rules make of full structures. Entries and rules are named by place.
pub trait LexicalFulls {
    /// A full structure.
    type Full: Drop;
    /// Scratch for unification, reused from call to call.
    type Work: Drop;

    // the structures that these stand for
    ghost value: { Self → Self.Full → Structure };

    // the grammar as its trees see it, and the places of its entries and lexical rules
    ghost signs: { Self → Signs };

    ghost entries_of: { Self → List ℕ };

    ghost rules_of: { Self → List ℕ };

    /// The places of the entries, in order. Takes no memory.
    fn entries(&self) -> &[u32]
        ensures { result.now ≡ entries_of self.now };

    /// The places of the lexical rules, in order. Takes no memory.
    fn rules(&self) -> &[u32]
        ensures { result.now ≡ rules_of self.now };

    /// The full structure of the entry at this place; none exactly where there is none.
    fn entry(
        &self,
        alloc: Global,
        work: &mut Self::Work,
        place: u32,
    ) -> Result<Option<Self::Full>, NoMemory>
        requires { (n : ℕ) × At (entries_of self.now) n place }
        ensures { IfOk result (λ o. MatchOption o
            ((f : Structure) → IsEntry (signs self.now) place f → ⊥)
            (λ full. IsEntry (signs self.now) place (value self.now full))) };

    /// What the lexical rule at this place makes of the full structure of a lexical tree; none exactly where there is none.
    fn under(
        &self,
        alloc: Global,
        work: &mut Self::Work,
        place: u32,
        full: &Self::Full,
    ) -> Result<Option<Self::Full>, NoMemory>
        requires place { (n : ℕ) × At (rules_of self.now) n place }
        requires lexical { IsLexicalFull (signs self.now) (value self.now full.now) }
        ensures { IfOk result (λ o. MatchOption o
            ((f : Structure) → IsUnderRule (signs self.now) place (value self.now full.now) f → ⊥)
            (λ made. IsUnderRule (signs self.now) place (value self.now full.now) (value self.now made))) };

    /// Whether the lexical rule at one place may apply to what that at another place makes; false only where it never does.
    fn may_follow(
        &self,
        alloc: Global,
        work: &mut Self::Work,
        inner: u32,
        outer: u32,
    ) -> Result<bool, NoMemory>
        requires inner { (n : ℕ) × At (rules_of self.now) n inner }
        requires outer { (n : ℕ) × At (rules_of self.now) n outer }
        ensures { IfOk result (λ yes. yes ≡ false → (d e f : Structure) → IsUnderRule (signs self.now) inner d e → IsUnderRule (signs self.now) outer e f → ⊥) };

    /// A law: types are in order, and the places of entries and of lexical rules are those of all of them. It does nothing.
    fn laws(&self)
        ensures order { IsOrder (signs self.now).system }
        ensures entry_places { ArePlaces (signs self.now) an_entry (entries_of self.now) }
        ensures rule_places { ArePlaces (signs self.now) a_lexical_rule (rules_of self.now) };
}
