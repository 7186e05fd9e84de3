//! Lexical trees of a lattice.

ghost use Rattle.derivation.specs.Counted.{IsCounted};

use derivation::Tree;

/// A lexical tree between two nodes of a lattice, with its full structure.
#[derive(Drop)]
pub struct LexTree<T> {
    pub from: u32,
    pub to: u32,
    pub tree: Tree,
    pub full: T,
    ghost counted: { IsCounted tree },
}
