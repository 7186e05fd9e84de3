//! Priorities, which rank tasks.

ghost use Rattle.std.specs.Prelude.{ℕ};

use std::marker::Model;

/// What may be kept as a priority: it ranks a rule, and the size and the level of a host. A type that is one says what it answers.
pub trait Ranking {
    // what it answers
    ghost answers: { Self → ℕ → ℕ → ℕ → ℕ → Type 0 };

    /// The rank. Takes no memory.
    fn ask(&self, rule: u32, size: u32, level: u32) -> u32
        ensures { answers self.now rule size level result };
}

/// A kept priority: it gives each task a rank, by its rule, and the size and the level of its host. It orders the work
/// on a chart and changes no answer.
#[derive(Drop)]
pub struct Priority<F: Ranking> {
    f: F,
}

impl<F: Ranking> Model for Priority<F> {
    ghost Value = { F };

    ghost coded = { F.code };

    ghost view = { λ p. p.f };
}

impl<F: Ranking> Priority<F> {
    ghost use Rattle.std.specs.Prelude.{◌≡◌};

    /// Keeps a ranking. Takes no memory.
    pub fn new(f: F) -> Priority<F>
        ensures { result ≡ f }
    {
        Priority { f }
    }

    /// The rank that it gives a task of this rule, with a host of this size and level. Takes no memory.
    pub fn rank(&self, rule: u32, size: u32, level: u32) -> u32
        ensures { F.answers self.now rule size level result }
    {
        self.f.ask(rule, size, level)
    }
}
