//! Shapes that remember.

ghost use Rattle.std.specs.Prelude.{◌≡◌, ◌<◌, All, IfOk, IfSome, IsTrue, map, option_map};
ghost use Rattle.chart_model.specs.Tuples.{shapes_of, IsFor};
ghost use Rattle.shape_memo.specs.Known.{IsRightFor, meant};

use crate::NoMemory;
use crate::answer::{Answer, Outcome, hash_of};
use crate::front::first_alone;
use crate::marked::Marked;
use crate::memo::Memo;
use chart_model::{Part, Shapes, Tuple};
use std::alloc::Global;
use std::marker::Model;
use std::sync::atomic::{AtomicU64, Ordering};

/// The greatest weight of what is remembered, in words, where none is given. A word is a node with its arcs, of some 24 bytes, so
/// that this is about 50 MB.
const MOST_WORDS: u64 = 2_097_152;

/// After so many first daughters that fit in no pair, each one is tested before it is tried in pairs.
const MANY_IN_VAIN: u64 = 4;

/// Shapes with the answers that they gave. In contracts they are the shapes themselves.
///
/// Threads share them by reference: an answer is kept in a slot that is written once, and read without a lock. There is room
/// for a fixed number of answers; once it is used up, no further ones are kept (`is_full`). Lines may share one, or each have its
/// own: it takes little memory until something is remembered.
#[derive(Drop)]
pub struct RememberedShapes<'a, S: Marked> {
    shapes: &'a S,
    memo: Memo<S>,
    // how many first daughters were found to fit in no pair
    in_vain: AtomicU64,
}

impl<'a, S: Marked> Model for RememberedShapes<'a, S> {
    ghost use Rattle.std.specs.Prelude.{◌≡◌};

    ghost Value = { S };

    ghost coded = { S.code };

    ghost view = { λ s. s.shapes.now };

    ghost invariant = { λ s. s.memo.stamp.value.value ≡ s.shapes.now };
}

/// One more of a daughter, without what it covers.
fn part_again<S: Marked, C>(
    alloc: Global,
    shapes: &S,
    part: &Option<Part<S::Shape, C>>,
) -> Result<Option<Part<S::Shape, ()>>, NoMemory>
    requires { IfSome part.now (λ p. S.belongs shapes.now p.shape) }
    ensures { IfOk result (λ again. option_map (meant (S.meaning shapes.now)) again ≡ option_map (meant (S.meaning shapes.now)) part.now) }
{
    match part {
        Some(part) => {
            let shape = shapes.share(alloc, &part.shape)?;
            Ok(Some(Part { shape, cover: () }))
        }
        None => Ok(None),
    }
}

/// The same daughters once more, without what they cover.
fn parts_again<S: Marked, C>(
    alloc: Global,
    shapes: &S,
    parts: &Tuple<S::Shape, C>,
) -> Result<Tuple<S::Shape, ()>, NoMemory>
    requires { All (S.belongs shapes.now) (shapes_of parts.now) }
    ensures { IfOk result (λ again. map (S.meaning shapes.now) (shapes_of again) ≡ map (S.meaning shapes.now) (shapes_of parts.now)) }
{
    Ok(Tuple {
        count: parts.count,
        a: part_again(alloc, shapes, &parts.a)?,
        b: part_again(alloc, shapes, &parts.b)?,
        c: part_again(alloc, shapes, &parts.c)?,
        d: part_again(alloc, shapes, &parts.d)?,
    })
}

/// One more of a mother, where there is one.
fn mother_again<S: Marked>(
    alloc: Global,
    shapes: &S,
    mother: &Option<S::Shape>,
) -> Result<Option<S::Shape>, NoMemory>
    requires { IfSome mother.now (S.belongs shapes.now) }
    ensures meaning { IfOk result (λ again. option_map (S.meaning shapes.now) again ≡ option_map (S.meaning shapes.now) mother.now) }
    ensures belongs { IfOk result (λ again. IfSome again (S.belongs shapes.now)) }
{
    match mother {
        Some(mother) => Ok(Some(shapes.share(alloc, mother)?)),
        None => Ok(None),
    }
}

/// The weight of a mother, and none of anything else.
fn weight_of<S: Marked>(shapes: &S, outcome: &Outcome<S::Shape>) -> u32 {
    match outcome {
        Outcome::Mother(Some(mother)) => shapes.weight(mother),
        _ => 0,
    }
}

impl<'a, S: Marked> RememberedShapes<'a, S> {
    /// These shapes, of which nothing is remembered yet.
    pub fn new(alloc: Global, shapes: &'a S) -> Result<RememberedShapes<'a, S>, NoMemory>
        ensures { IfOk result (λ s. s ≡ shapes.now) }
    {
        RememberedShapes::with_room(alloc, shapes, MOST_WORDS)
    }

    /// These shapes, of which nothing is remembered yet, with room for so many words of what will be: a mother weighs as many as it
    /// has nodes, and each answer 16 besides.
    pub fn with_room(
        alloc: Global,
        shapes: &'a S,
        words: u64,
    ) -> Result<RememberedShapes<'a, S>, NoMemory>
        ensures { IfOk result (λ s. s ≡ shapes.now) }
    {
        let memo = Memo::new(alloc, shapes, words)?;
        Ok(RememberedShapes {
            shapes,
            memo,
            in_vain: AtomicU64::new(0),
        })
    }

    /// Whether nothing further is remembered, since the room is used up.
    pub fn is_full(&self) -> bool {
        self.memo.is_full()
    }

    /// The shapes themselves, which remember nothing.
    pub fn shapes(&self) -> &'a S
        ensures { result.now ≡ self.now }
    {
        self.shapes
    }

    // Keeps what the shapes said of a rule with these daughters, where there is room.
    fn remember<C>(
        &self,
        alloc: Global,
        hash: u64,
        rule: u32,
        parts: &Tuple<S::Shape, C>,
        outcome: Outcome<S::Shape>,
    )
        requires belong { All (S.belongs self.now) (shapes_of parts.now) }
        requires right { IsRightFor (S.calculus self.now) (S.meaning self.now) (S.belongs self.now) rule parts.now outcome }
    {
        if self.memo.is_full() {
            return;
        }
        let Ok(parts) = parts_again(alloc, self.shapes, parts) else {
            return;
        };
        let weight = weight_of(self.shapes, &outcome);
        let answer = Answer {
            stamp: self.memo.stamp.again(),
            hash,
            rule,
            parts,
            outcome,
        };
        if let Ok(answer) = Box::new(alloc, answer) {
            self.memo.keep(alloc, answer, weight);
        }
    }

    // Whether the first daughter of a pair is tried in pairs untested. Mostly a daughter that passes the quick test fits, so
    // that testing it alone is work for nothing; where some didn't fit, the others are tested.
    fn is_trusted(&self, rule: u32, count: u32) -> bool
        requires { rule < (S.calculus self.now).rules }
    {
        if count == 1 && self.shapes.arity(rule) == 2 {
            self.in_vain.load(Ordering::SeqCst) < MANY_IN_VAIN
        } else {
            false
        }
    }

    // Whether it is known of the first daughter of a pair that it fits in none.
    fn is_in_vain(&self, alloc: Global, rule: u32, parts: &Tuple<S::Shape, S::Cover>) -> bool
        requires parts { IsFor (S.calculus self.now) (S.belongs self.now) rule parts.now }
        requires whole { parts.now.count ≡ (S.calculus self.now).arity rule }
        ensures { IsTrue result → (S.calculus self.now).applies rule (map (S.meaning self.now) (shapes_of parts.now)) → ⊥ }
    {
        if parts.count != 2 {
            return false;
        }
        let Ok(front) = first_alone(alloc, self.shapes, parts) else {
            return false;
        };
        let hash = hash_of(self.shapes, false, rule, &front);
        match self.memo.find(self.shapes, hash, rule, &front) {
            Some(Outcome::Fits(yes)) => !*yes,
            _ => false,
        }
    }

    // Tests the first daughter of a pair to which a rule doesn't apply, once, so that it isn't tried in further pairs in vain.
    fn test_first(
        &self,
        alloc: Global,
        work: &mut S::Work,
        rule: u32,
        parts: &Tuple<S::Shape, S::Cover>,
    )
        requires { IsFor (S.calculus self.now) (S.belongs self.now) rule parts.now }
    {
        if parts.count != 2 {
            return;
        }
        let Ok(front) = first_alone(alloc, self.shapes, parts) else {
            return;
        };
        let hash = hash_of(self.shapes, false, rule, &front);
        if self.memo.find(self.shapes, hash, rule, &front).is_some() {
            return;
        }
        let Ok(yes) = self.shapes.fits(alloc, work, rule, &front) else {
            return;
        };
        if !yes {
            self.in_vain.fetch_add(1, Ordering::SeqCst);
        }
        self.remember(alloc, hash, rule, &front, Outcome::Fits(yes));
    }
}

impl<S: Marked> Shapes for RememberedShapes<'_, S> {
    ghost use Rattle.std.specs.Prelude.{ℕ, ◌≡◌};

    type Shape = S::Shape;

    type Cover = S::Cover;

    type Work = S::Work;

    ghost Meaning = { S.Meaning };

    ghost meaning = { λ s shape. S.meaning s shape };

    ghost belongs = { λ s shape. S.belongs s shape };

    ghost calculus = { λ s. S.calculus s };

    ghost bound_of = { λ s. S.bound_of s };

    ghost Full = { S.Full };

    ghost full = { λ s. S.full s };

    ghost agrees = { λ s. S.agrees s };

    fn rules(&self) -> u32 {
        self.shapes.rules()
    }

    fn arity(&self, rule: u32) -> u32 {
        self.shapes.arity(rule)
    }

    fn work(&self, alloc: Global) -> Result<S::Work, NoMemory> {
        self.shapes.work(alloc)
    }

    fn bound(&self) -> &<S::Cover as chart_model::Cover>::Bound {
        self.shapes.bound()
    }

    fn share(&self, alloc: Global, shape: &S::Shape) -> Result<S::Shape, NoMemory> {
        self.shapes.share(alloc, shape)
    }

    fn may(&self, work: &mut S::Work, rule: u32, parts: &Tuple<S::Shape, S::Cover>) -> bool {
        self.shapes.may(work, rule, parts)
    }

    fn fits(
        &self,
        alloc: Global,
        work: &mut S::Work,
        rule: u32,
        parts: &Tuple<S::Shape, S::Cover>,
    ) -> Result<bool, NoMemory> {
        let hash = hash_of(self.shapes, false, rule, parts);
        if let Some(Outcome::Fits(yes)) = self.memo.find(self.shapes, hash, rule, parts) {
            return Ok(*yes);
        }
        if self.is_trusted(rule, parts.count) {
            return Ok(true);
        }
        let yes = self.shapes.fits(alloc, work, rule, parts)?;
        self.remember(alloc, hash, rule, parts, Outcome::Fits(yes));
        Ok(yes)
    }

    fn apply(
        &self,
        alloc: Global,
        work: &mut S::Work,
        rule: u32,
        parts: &Tuple<S::Shape, S::Cover>,
    ) -> Result<Option<S::Shape>, NoMemory> {
        let hash = hash_of(self.shapes, true, rule, parts);
        if let Some(Outcome::Mother(mother)) = self.memo.find(self.shapes, hash, rule, parts) {
            return mother_again(alloc, self.shapes, mother);
        }
        if self.is_in_vain(alloc, rule, parts) {
            return Ok(None);
        }
        let mother = self.shapes.apply(alloc, work, rule, parts)?;
        if mother.is_none() {
            self.test_first(alloc, work, rule, parts);
        }
        if let Ok(again) = mother_again(alloc, self.shapes, &mother) {
            self.remember(alloc, hash, rule, parts, Outcome::Mother(again));
        }
        Ok(mother)
    }

    fn covers(
        &self,
        alloc: Global,
        rule: u32,
        parts: &Tuple<S::Shape, S::Cover>,
    ) -> Result<Option<S::Cover>, NoMemory> {
        self.shapes.covers(alloc, rule, parts)
    }

    fn subsumes(
        &self,
        work: &mut S::Work,
        general: &S::Shape,
        special: &S::Shape,
    ) -> Result<bool, NoMemory> {
        if self.shapes.same(general, special) {
            return Ok(true);
        }
        self.shapes.subsumes(work, general, special)
    }

    ghost laws = { λ s. S.laws s };

    ghost agreement = { λ s. S.agreement s };

    ghost joins = { λ s c d. S.joins s c d };

    ghost sames = { λ s c d. S.sames s c d };

    ghost sizes = { λ s c. S.sizes s c };
}
