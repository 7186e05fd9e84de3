//! Chains with what is made of them.

ghost use Rattle.std.specs.Prelude.{◌≡◌, ◌++◌, ◌∷◌, [], ℕ, List, true, IfOk, MatchOption};
ghost use Rattle.morph_analysis.specs.declared.made.Halt.TheVariants as halt;

use crate::chain::Chain;
use lexicon::NoMemory;
use std::alloc::{AllocError, AllocFailed, Global};
use std::cmp::Ordering;

/// A chain, and what is made of its entry and its rules. It has the order of its chain.
#[derive(Drop)]
pub struct MadeChain<T> {
    pub chain: Chain,
    pub made: T,
}

/// Why a search for chains ended before all were found.
#[derive(Clone, Copy, Debug, PartialEq, Eq)]
pub enum Halt {
    /// a chain was found that is enough
    Enough,
    /// memory was wanting
    NoMemory,
}

impl From<AllocError> for Halt {
    ghost from_gives = { λ _ e. e ≡ halt.NoMemory };

    fn from(_: AllocError) -> Halt {
        Halt::NoMemory
    }
}

impl<T: Drop> From<AllocFailed<T>> for Halt {
    ghost from_gives = { λ _ e. e ≡ halt.NoMemory };

    fn from(_: AllocFailed<T>) -> Halt {
        Halt::NoMemory
    }
}

/// Something that is made of an entry and then, from the inside out, of what each lexical rule makes of it, as a structure
/// is by unification. Entries are numbered among the entries and rules among the lexical rules, both in order of place.
pub trait Maker {
    /// What is made.
    type Made: Drop;
    /// Scratch, reused from call to call.
    type Work: Drop;

    // what is made in plain values, and what an entry and rules over it make
    ghost Value: { Type 0 };

    ghost value: { Self → Self.Made → Value };

    ghost makes: { Self → ℕ → List ℕ → Value → Type 0 };

    // which rules over an entry are enough, so that a chain with them ends the search
    ghost enough: { Self → List ℕ → Type 0 };

    /// What is made of an entry; none exactly where there is nothing.
    fn begin(
        &self,
        alloc: Global,
        work: &mut Self::Work,
        entry: u32,
    ) -> Result<Option<Self::Made>, NoMemory>
        ensures { IfOk result (λ o. MatchOption o
            ((v : Value) → makes self.now entry [] v → ⊥)
            (λ made. makes self.now entry [] (value self.now made))) };

    /// What a rule makes of what an entry and some rules made; none exactly where there is nothing.
    fn go_on(
        &self,
        alloc: Global,
        work: &mut Self::Work,
        entry: u32,
        rules: &[u32],
        made: &Self::Made,
        rule: u32,
    ) -> Result<Option<Self::Made>, NoMemory>
        requires { makes self.now entry rules.now (value self.now made.now) }
        ensures { IfOk result (λ o. MatchOption o
            ((v : Value) → makes self.now entry (rules.now ++ rule ∷ []) v → ⊥)
            (λ next. makes self.now entry (rules.now ++ rule ∷ []) (value self.now next))) };

    /// Whether a chain with these rules is enough, so that no other is looked for. Takes no memory.
    fn is_enough(&self, rules: &[u32]) -> bool
        ensures { result ≡ true → enough self.now rules.now };

    /// A law: an entry and rules make one thing at most, and what they make with one rule more is made of what they make. It
    /// does nothing.
    fn laws(&self)
        ensures one { (entry : ℕ) (rules : List ℕ) (v w : Value) → makes self.now entry rules v → makes self.now entry rules w → v ≡ w }
        ensures inner { (entry : ℕ) (rules : List ℕ) (rule : ℕ) (v : Value) → makes self.now entry (rules ++ rule ∷ []) v → (w : Value) × makes self.now entry rules w };
}

impl<T> PartialEq for MadeChain<T> {
    ghost use Rattle.std.specs.Cmp.{partial_equiv_from_equiv, eq_by_cmp_equiv};
    ghost use Rattle.std.specs.Ordering.{eq_by_cmp};
    ghost use Rattle.morph_analysis.specs.Inner.Orders.{made_order, made_total};

    ghost eq = { eq_by_cmp made_order };

    ghost laws = { partial_equiv_from_equiv (eq_by_cmp_equiv made_total) };

    fn eq(&self, other: &MadeChain<T>) -> bool {
        self.chain.cmp(&other.chain).is_eq()
    }
}

impl<T> Eq for MadeChain<T> {
    ghost use Rattle.std.specs.Cmp.{eq_by_cmp_equiv};
    ghost use Rattle.morph_analysis.specs.Inner.Orders.{made_total};

    ghost laws = { eq_by_cmp_equiv made_total };
}

impl<T> PartialOrd for MadeChain<T> {
    ghost use Rattle.std.specs.Cmp.{partial_order_from_total};
    ghost use Rattle.std.specs.Ordering.{as_partial_cmp};
    ghost use Rattle.morph_analysis.specs.Inner.Orders.{made_order, made_total};

    ghost partial_cmp = { as_partial_cmp made_order };

    ghost laws = { partial_order_from_total made_total };

    fn partial_cmp(&self, other: &MadeChain<T>) -> Option<Ordering> {
        Some(self.cmp(other))
    }
}

impl<T> Ord for MadeChain<T> {
    ghost use Rattle.std.specs.Cmp.Rules.{comparing};
    ghost use Rattle.std.proofs.Common.{rules};
    ghost use Rattle.morph_analysis.specs.Inner.Orders.{made_order, made_total};

    ghost cmp = { made_order };

    ghost total = { made_total };

    ghost matches_partial_cmp = { Prim.search (comparing, rules) };

    ghost matches_eq = { Prim.search (comparing, rules) };

    fn cmp(&self, other: &MadeChain<T>) -> Ordering {
        self.chain.cmp(&other.chain)
    }
}
