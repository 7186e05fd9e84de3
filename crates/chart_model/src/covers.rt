//! Covers and shapes: what a chart needs to know of a grammar, and the laws that it rests on.
//!
//! A chart packs edges by subsumption (Oepen and Carroll 2000). What it needs to know of an edge is
//! its cover, the stretch of the input that it stands for, and its shape, an abstract feature structure.

ghost use Rattle.std.specs.Prelude.{◌≡◌, ℕ, ◌<◌, ◌^◌, IfOk, MatchOption, map, option_map, slice_get, Option, is_some, true, false, List};
ghost use Rattle.std.specs.Ordering.{is_eq};
ghost use Rattle.std.proofs.lemmas.Map.Lookups.{CmpEqualImpliesEq};
ghost use Rattle.chart_model.specs.Calculus.{Calculus, Laws, NoneApplies, Agreement};

use crate::NoMemory;
use std::alloc::Global;

/// What an edge of a chart covers: in parsing a span of the line, in generation counts of predicates.
///
/// The order tells all covers apart, and a chart finds equal covers by it.
pub trait Cover: Ord + Drop {
    /// What joined covers stay within.
    type Bound;

    // what the size of a cover is
    ghost extent: { Self → ℕ };

    // what two covers join to within a bound
    ghost joined: { Self.Bound → Self → Self → Option Self };

    // the numbers by which a chart finds covers
    ghost cell_of: { Self → ℕ };

    ghost begins: { Self → ℕ };

    ghost ends: { Self → ℕ };

    /// The cover of this edge and one to its right, where they fit together within the bound.
    fn join(
        &self,
        alloc: Global,
        right: &Self,
        bound: &Self::Bound,
    ) -> Result<Option<Self>, NoMemory>
        ensures { IfOk result (λ o. o ≡ joined bound.now self.now right.now) };

    /// Whether this edge and one to its right fit together within the bound. Takes no memory.
    fn joins(&self, right: &Self, bound: &Self::Bound) -> bool
        ensures { result ≡ is_some (joined bound.now self.now right.now) };

    /// An equal cover.
    fn share(&self, alloc: Global) -> Result<Self, NoMemory>
        ensures { IfOk result (λ c. c ≡ self.now) };

    /// The size: a mother of two daughters or more is larger than each of them.
    fn size(&self) -> u32
        requires { extent self.now < 2 ^ 32 }
        ensures { result ≡ extent self.now };

    /// A number that few other covers share.
    fn cell(&self) -> u32
        ensures { result ≡ cell_of self.now };

    /// A number for where the cover begins. Covers join only where the left one ends as the right one begins.
    fn begin(&self) -> u32
        ensures { result ≡ begins self.now };

    /// A number for where the cover ends.
    fn end(&self) -> u32
        ensures { result ≡ ends self.now };

    ghost told_apart: { CmpEqualImpliesEq Self.cmp };

    ghost meets: { (bound : Self.Bound) (c d : Self) → is_some (joined bound c d) ≡ true → ends c ≡ begins d };
}

/// One daughter.
#[derive(Drop)]
pub struct Part<T, C> {
    pub shape: T,
    pub cover: C,
}

/// The daughters of a rule from left to right: `count` of them, 0 to 4, from `a` on.
#[derive(Drop)]
pub struct Tuple<T, C> {
    pub count: u32,
    pub a: Option<Part<T, C>>,
    pub b: Option<Part<T, C>>,
    pub c: Option<Part<T, C>>,
    pub d: Option<Part<T, C>>,
}

impl<T, C> Tuple<T, C> {
    ghost use Rattle.chart_model.specs.Tuples.{parts_of, IsTuple};

    /// The daughter at this place, counted from 0 on; none where there are no more.
    pub fn get(&self, place: u32) -> Option<&Part<T, C>>
        requires { IsTuple self.now }
        ensures { option_map (λ part. part.now) result ≡ slice_get (parts_of self.now) place }
    {
        match place {
            0 => self.a.as_ref(),
            1 => self.b.as_ref(),
            2 => self.c.as_ref(),
            3 => self.d.as_ref(),
            _ => None,
        }
    }
}

/// A grammar as a chart sees it: rules over shapes, which stand for abstract feature structures.
///
/// A shape belongs to the object that made it, and is passed to no other.
pub trait Shapes {
    ghost use Rattle.chart_model.specs.Tuples.{shapes_of, covers_of, IsFor};

    type Shape: Drop;

    type Cover: Cover;
    /// Scratch for unification, reused from call to call.
    type Work: Drop;

    // the structures that shapes stand for
    ghost Meaning: { Type 0 };

    ghost meaning: { Self → Self.Shape → Meaning };

    ghost belongs: { Self → Self.Shape → Type 0 };

    // the grammar in plain values
    ghost calculus: { Self → Calculus Meaning Self.Cover };

    ghost bound_of: { Self → Self.Cover.Bound };

    // the structures without a restrictor, and when a shape agrees with one
    ghost Full: { Type 0 };

    ghost full: { Self → ℕ → List Full → Full → Type 0 };

    ghost agrees: { Self → Meaning → Full → Type 0 };

    /// The number of rules.
    fn rules(&self) -> u32
        ensures { result ≡ (calculus self.now).rules };

    /// The number of daughters of a rule, 1 to 4.
    fn arity(&self, rule: u32) -> u32
        requires { rule < (calculus self.now).rules }
        ensures { result ≡ (calculus self.now).arity rule };

    /// New scratch.
    fn work(&self, alloc: Global) -> Result<Self::Work, NoMemory>;

    /// What joined covers stay within.
    fn bound(&self) -> &<Self::Cover as Cover>::Bound
        ensures { result.now ≡ bound_of self.now };

    /// An equal shape.
    fn share(&self, alloc: Global, shape: &Self::Shape) -> Result<Self::Shape, NoMemory>
        requires { belongs self.now shape.now }
        ensures { IfOk result (λ s. belongs self.now s × (meaning self.now s ≡ meaning self.now shape.now)) };

    /// A quick test of daughters: false only where the rule applies to no tuple that begins with them. Takes no memory.
    fn may(&self, work: &mut Self::Work, rule: u32, parts: &Tuple<Self::Shape, Self::Cover>) -> bool
        requires { IsFor (calculus self.now) (belongs self.now) rule parts.now }
        ensures { result ≡ false → NoneApplies (calculus self.now) rule (map (meaning self.now) (shapes_of parts.now)) };

    /// A test of daughters by unification: false only where the rule applies to no tuple that begins with them.
    fn fits(
        &self,
        alloc: Global,
        work: &mut Self::Work,
        rule: u32,
        parts: &Tuple<Self::Shape, Self::Cover>,
    ) -> Result<bool, NoMemory>
        requires { IsFor (calculus self.now) (belongs self.now) rule parts.now }
        ensures { IfOk result (λ yes. yes ≡ false → NoneApplies (calculus self.now) rule (map (meaning self.now) (shapes_of parts.now))) };

    /// The mother of a whole tuple; none exactly where the rule doesn't apply to it.
    fn apply(
        &self,
        alloc: Global,
        work: &mut Self::Work,
        rule: u32,
        parts: &Tuple<Self::Shape, Self::Cover>,
    ) -> Result<Option<Self::Shape>, NoMemory>
        requires parts { IsFor (calculus self.now) (belongs self.now) rule parts.now }
        requires whole { parts.now.count ≡ (calculus self.now).arity rule }
        ensures mother { IfOk result (λ o. MatchOption o ((calculus self.now).applies rule (map (meaning self.now) (shapes_of parts.now)) → ⊥) (λ s. (calculus self.now).mother rule (map (meaning self.now) (shapes_of parts.now)) (meaning self.now s))) }
        ensures belongs { IfOk result (λ o. MatchOption o (Unit {0}) (belongs self.now)) };

    /// The cover of daughters under a rule, where they fit together.
    fn covers(
        &self,
        alloc: Global,
        rule: u32,
        parts: &Tuple<Self::Shape, Self::Cover>,
    ) -> Result<Option<Self::Cover>, NoMemory>
        requires { IsFor (calculus self.now) (belongs self.now) rule parts.now }
        ensures { IfOk result (λ o. o ≡ (calculus self.now).covers rule (covers_of parts.now)) };

    /// Whether the first structure subsumes the second.
    fn subsumes(
        &self,
        work: &mut Self::Work,
        general: &Self::Shape,
        special: &Self::Shape,
    ) -> Result<bool, NoMemory>
        requires general { belongs self.now general.now }
        requires special { belongs self.now special.now }
        ensures { IfOk result (λ yes. yes ≡ (calculus self.now).over (meaning self.now general.now) (meaning self.now special.now)) };

    ghost laws: { (s : Self) → Laws (calculus s) };

    ghost agreement: { (s : Self) → Agreement (calculus s).over (calculus s).applies (calculus s).mother (full s) (agrees s) };

    ghost joins: { (s : Self) (c d : Self.Cover) → (calculus s).join c d ≡ Self.Cover.joined (bound_of s) c d };

    ghost sames: { (s : Self) (c d : Self.Cover) → (calculus s).same c d ≡ is_eq (Self.Cover.cmp c d) };

    ghost sizes: { (s : Self) (c : Self.Cover) → (calculus s).size c ≡ Self.Cover.extent c };
}
