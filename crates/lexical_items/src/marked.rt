//! Full structures that are told apart quickly.

ghost use Rattle.std.specs.Prelude.{◌≡◌, IfOk, IsTrue};

use crate::{LexicalFulls, NoMemory};

/// Full structures of entries and lexical rules that are told apart, and shared, without unification.
pub trait MarkedFulls: LexicalFulls + Copy {
    /// A number by which a full structure is found: those that are the same have one number, and those that differ seldom have.
    /// Takes no memory.
    fn mark(&self, full: &Self::Full) -> u64;

    /// About how many words of memory a full structure takes.
    fn weight(&self, full: &Self::Full) -> u32;

    /// Whether two full structures are seen to stand for the same structure; where they aren't, nothing is said. Takes no memory.
    fn same(&self, full: &Self::Full, other: &Self::Full) -> bool
        ensures { IsTrue result → Self.value self.now full.now ≡ Self.value self.now other.now };

    /// One more of a full structure, at little cost.
    fn share(&self, full: &Self::Full) -> Result<Self::Full, NoMemory>
        ensures { IfOk result (λ again. Self.value self.now again ≡ Self.value self.now full.now) };
}
