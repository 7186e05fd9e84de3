//! Trees that hold the numbers of their words.

ghost use Rattle.derivation.specs.Counted.{IsCounted};

use derivation::Tree;

/// A tree in which each phrase holds the number of its words, so that it is compared without counting them.
#[derive(Drop)]
pub struct CountedTree {
    pub tree: Tree,
    ghost counted: { IsCounted tree },
}
