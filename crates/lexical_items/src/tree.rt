//! Lexical trees of a grammar.

ghost use Rattle.derivation.specs.Counted.{IsCounted};

use derivation::Tree;
use std::sync::Arc;

/// A lexical tree of a grammar, with its full structure.
#[derive(Drop)]
pub struct InflectedTree<T> {
    pub tree: Tree,
    pub full: Arc<T>,
    ghost counted: { IsCounted tree },
}
