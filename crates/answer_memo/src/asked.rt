//! What may be asked of an object.

ghost use Rattle.std.specs.Prelude.{ℕ, IsTrue};

/// An object of which the same is asked again and again. A question is a number with a key, and an answer may be right for it
/// or not; what is asked and how an answer is found is no matter here.
pub trait Asked: Drop {
    /// What a question has beside its number.
    type Key: Drop;

    /// An answer.
    type Told: Drop;

    // whether an answer is right for a number with a key
    ghost right: { Self → ℕ → Self.Key → Self.Told → Type 0 };

    /// A number by which a key is found: keys that are the same have one number, and those that differ seldom have. Takes no
    /// memory.
    fn mark(&self, key: &Self::Key) -> u64;

    /// About how many words of memory a key takes with an answer.
    fn weight(&self, key: &Self::Key, told: &Self::Told) -> u32;

    /// Whether a key is seen to have all right answers of another; where it isn't, nothing is said. Takes no memory.
    fn same(&self, key: &Self::Key, other: &Self::Key) -> bool
        ensures { IsTrue result → (number : ℕ) → (told : Self.Told) → right self.now number key.now told → right self.now number other.now told };
}
