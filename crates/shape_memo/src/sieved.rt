//! Shapes that ask sieves.

ghost use Rattle.std.specs.Prelude.{◌≡◌, false};
ghost use Rattle.sieve.specs.Sketches.{AreTypesIn};
ghost use Rattle.sieve.specs.Unifying.{NoneUnify};

use crate::RememberedShapes;
use crate::sketched::Sketched;
use chart_model::{NoMemory, Shapes, Tuple};
use sieve::{Filter, Sieve, Sketch};
use std::alloc::Global;
use std::marker::Model;
use type_hierarchy::Types;

/// Shapes that remember, and whose quick test asks sieves. In contracts they are the shapes themselves: no sieve occurs in what they
/// answer.
///
/// With no sieve the quick test is that of the shapes; with sieves it is theirs alone.
#[derive(Drop)]
pub struct SievedShapes<'a, 'm, 'f, S: Sketched, F: Filter> {
    shapes: &'a RememberedShapes<'m, S>,
    sieves: &'f [Sieve<F>],
}

impl<'a, 'm, 'f, S: Sketched, F: Filter> Model for SievedShapes<'a, 'm, 'f, S, F> {
    ghost Value = { S };

    ghost coded = { S.code };

    ghost view = { λ s. s.shapes.now };
}

// Whether every sieve passes these sketches.
fn all_pass<F: Filter>(
    sieves: &[Sieve<F>],
    types: &Types,
    place: &Sketch,
    daughter: &Sketch,
) -> bool
    requires place { AreTypesIn types.now place.now }
    requires daughter { AreTypesIn types.now daughter.now }
    ensures { result ≡ false → NoneUnify types.now place.now daughter.now }
{
    for sieve in sieves {
        if !sieve.passes(types, place, daughter) {
            return false;
        }
    }
    true
}

impl<'a, 'm, 'f, S: Sketched, F: Filter> SievedShapes<'a, 'm, 'f, S, F> {
    /// These shapes, with these sieves to be asked. Takes no memory.
    pub fn new(
        shapes: &'a RememberedShapes<'m, S>,
        sieves: &'f [Sieve<F>],
    ) -> SievedShapes<'a, 'm, 'f, S, F>
        ensures { result ≡ shapes.now }
    {
        SievedShapes { shapes, sieves }
    }
}

impl<S: Sketched, F: Filter> Shapes for SievedShapes<'_, '_, '_, S, F> {
    type Shape = S::Shape;

    type Cover = S::Cover;

    type Work = S::Work;

    ghost Meaning = { S.Meaning };

    ghost meaning = { λ s shape. S.meaning s shape };

    ghost belongs = { λ s shape. S.belongs s shape };

    ghost calculus = { λ s. S.calculus s };

    ghost bound_of = { λ s. S.bound_of s };

    ghost Full = { S.Full };

    ghost full = { λ s. S.full s };

    ghost agrees = { λ s. S.agrees s };

    fn rules(&self) -> u32 {
        self.shapes.rules()
    }

    fn arity(&self, rule: u32) -> u32 {
        self.shapes.arity(rule)
    }

    fn work(&self, alloc: Global) -> Result<S::Work, NoMemory> {
        self.shapes.work(alloc)
    }

    fn bound(&self) -> &<S::Cover as chart_model::Cover>::Bound {
        self.shapes.bound()
    }

    fn share(&self, alloc: Global, shape: &S::Shape) -> Result<S::Shape, NoMemory> {
        self.shapes.share(alloc, shape)
    }

    fn may(&self, work: &mut S::Work, rule: u32, parts: &Tuple<S::Shape, S::Cover>) -> bool {
        if self.sieves.is_empty() {
            return self.shapes.may(work, rule, parts);
        }
        let shapes = self.shapes.shapes();
        let sketches = shapes.sketches(rule, parts);
        all_pass(
            self.sieves,
            shapes.types(),
            sketches.place,
            sketches.daughter,
        )
    }

    fn fits(
        &self,
        alloc: Global,
        work: &mut S::Work,
        rule: u32,
        parts: &Tuple<S::Shape, S::Cover>,
    ) -> Result<bool, NoMemory> {
        self.shapes.fits(alloc, work, rule, parts)
    }

    fn apply(
        &self,
        alloc: Global,
        work: &mut S::Work,
        rule: u32,
        parts: &Tuple<S::Shape, S::Cover>,
    ) -> Result<Option<S::Shape>, NoMemory> {
        self.shapes.apply(alloc, work, rule, parts)
    }

    fn covers(
        &self,
        alloc: Global,
        rule: u32,
        parts: &Tuple<S::Shape, S::Cover>,
    ) -> Result<Option<S::Cover>, NoMemory> {
        self.shapes.covers(alloc, rule, parts)
    }

    fn subsumes(
        &self,
        work: &mut S::Work,
        general: &S::Shape,
        special: &S::Shape,
    ) -> Result<bool, NoMemory> {
        self.shapes.subsumes(work, general, special)
    }

    ghost laws = { λ s. S.laws s };

    ghost agreement = { λ s. S.agreement s };

    ghost joins = { λ s c d. S.joins s c d };

    ghost sames = { λ s c d. S.sames s c d };

    ghost sizes = { λ s c. S.sizes s c };
}
