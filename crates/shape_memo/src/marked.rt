//! Shapes that are told apart quickly.

ghost use Rattle.std.specs.Prelude.{◌≡◌, IsTrue};

use chart_model::Shapes;

/// Shapes that are told apart without unification.
pub trait Marked: Shapes + Drop {
    /// A number by which a shape is found: shapes that are the same have one number, and those that differ seldom have. Takes no
    /// memory.
    fn mark(&self, shape: &Self::Shape) -> u64;

    /// About how many words of memory a shape takes.
    fn weight(&self, shape: &Self::Shape) -> u32;

    /// Whether two shapes are seen to stand for the same structure; where they aren't, nothing is said. Takes no memory.
    fn same(&self, shape: &Self::Shape, other: &Self::Shape) -> bool
        ensures { IsTrue result → Self.meaning self.now shape.now ≡ Self.meaning self.now other.now };
}
