//! The full structures of trees over the leaves of generation, without those of which no realization can come.
//!
//! Chart generation: Carroll, Copestake, Flickinger and Poznanski 1999. Unpacking of packed charts: Oepen and Carroll 2000.

ghost use Rattle.realized_trees.specs.PrunedLaws.{SievesAreExact};

/// A law: the trees that are asked for are the same with and without what a sieve drops (`SievesAreExact`). It does nothing.
pub fn pruned_laws()
    ensures { SievesAreExact }
{}
