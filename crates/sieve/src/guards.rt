//! Guards, which decide whether a rule may be applied at a site.

ghost use Rattle.std.specs.Prelude.{◌≡◌, ℕ, Bool};
ghost use Rattle.std.specs.Borrow.{Bor};
ghost use Rattle.sieve.specs.Guards.{Answers};

use std::marker::{Model, PhantomData};

/// What may be kept as a guard: it decides on a rule and a value. A type that is one says what it answers.
pub trait Decision<T> {
    // what it answers
    ghost answers: { Self → ℕ → Bor T → Bool → Type 0 };

    /// The decision. Takes no memory.
    fn ask(&self, rule: u32, site: &T) -> bool
        ensures { answers self.now rule site.entry result };
}

/// A kept guard: it answers exactly a relation of rules and values. That it does is kept beside it.
#[derive(Drop)]
pub struct Guard<T, F: Decision<T>> {
    f: F,
    sites: PhantomData<T>,
}

impl<T, F: Decision<T>> Model for Guard<T, F> {
    ghost use Rattle.std.specs.Prelude.{ℕ, Bool};
    ghost use Rattle.sieve.specs.Guards.{Answers};

    ghost Value = { F };

    ghost coded = { F.code };

    ghost view = { λ g. g.f };

    ghost invariant = { λ g. (relation : ℕ → T → Bool) × Answers F.answers g.f relation };
}

impl<T, F: Decision<T>> Guard<T, F> {
    /// Keeps a decision that is exactly a relation, which the caller states. Takes no memory.
    pub fn new(f: F) -> Guard<T, F>
        requires stated { (relation : ℕ → T → Bool) × Answers F.answers f relation }
        ensures { result ≡ f }
    {
        Guard {
            f,
            sites: PhantomData,
        }
    }

    /// What is decided: the relation that was stated of it. Takes no memory.
    pub fn allows(&self, rule: u32, site: &T) -> bool
        ensures answer { F.answers self.now rule site.entry result }
        ensures stated { (relation : ℕ → T → Bool) → Answers F.answers self.now relation → result ≡ relation rule site.now }
    {
        self.f.ask(rule, site)
    }
}
