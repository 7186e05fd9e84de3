//! Sieves: tests that tell from two sketches that no structures unify.

ghost use Rattle.std.specs.Prelude.{◌≡◌, false, List, Bool};
ghost use Rattle.std.specs.Borrow.{Bor};
ghost use Rattle.type_hierarchy.specs.Table.{TypeTable};
ghost use Rattle.sieve.specs.Sketches.{TypeAt, AreTypesIn};
ghost use Rattle.sieve.specs.Unifying.{NoneUnify};

use crate::sketches::Sketch;
use std::marker::Model;
use type_hierarchy::Types;

/// What may be kept as a sieve: a test of two sketches, whose no is right. A type that is one says what it answers.
pub trait Filter {
    // what it answers
    ghost answers: { Self → Bor TypeTable → Bor (List TypeAt) → Bor (List TypeAt) → Bool → Type 0 };

    /// What is answered of two sketches whose types are in range of the types that are given. It is false only where no two structures
    /// with these sketches unify. Takes no memory.
    fn ask(&self, types: &Types, a: &Sketch, b: &Sketch) -> bool
        requires a_in { AreTypesIn types.now a.now }
        requires b_in { AreTypesIn types.now b.now }
        ensures answer { answers self.now types.entry a.entry b.entry result }
        ensures apart { result ≡ false → NoneUnify types.now a.now b.now };
}

/// A kept filter: a test that answers false only on sketches of which no two structures unify. Whoever is lent a sieve may rely on
/// its no.
#[derive(Drop)]
pub struct Sieve<F: Filter> {
    f: F,
}

impl<F: Filter> Model for Sieve<F> {
    ghost Value = { F };

    ghost coded = { F.code };

    ghost view = { λ s. s.f };
}

impl<F: Filter> Sieve<F> {
    /// Keeps a test. That its no is right is part of what a `Filter` is. Takes no memory.
    pub fn new(f: F) -> Sieve<F>
        ensures { result ≡ f }
    {
        Sieve { f }
    }

    /// What the test answers. Where that is false, no two structures with these sketches unify. Takes no memory.
    pub fn passes(&self, types: &Types, a: &Sketch, b: &Sketch) -> bool
        requires a_in { AreTypesIn types.now a.now }
        requires b_in { AreTypesIn types.now b.now }
        ensures answer { F.answers self.now types.entry a.entry b.entry result }
        ensures apart { result ≡ false → NoneUnify types.now a.now b.now }
    {
        self.f.ask(types, a, b)
    }
}
