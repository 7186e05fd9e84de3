//! What types say, and what is given.

ghost use Rattle.std.specs.Prelude.{◌≡◌, ◌+◌};

use crate::placed::PlacedGraph;
use fs_closing::TypeSystem;
use fs_graph::Fact;

/// The types of a grammar, and what is given: parts, and facts on paths from the root.
#[derive(Clone, Copy)]
pub struct Given<'a> {
    pub system: &'a TypeSystem,
    pub parts: &'a [PlacedGraph<'a>],
    pub facts: &'a [Fact],
}

impl Given<'_> {
    /// The greatest number of features of a path in what is forced: one more than paths may have.
    pub fn most(&self) -> usize
        ensures { result ≡ self.now.system.now.path_limit + 1 }
    {
        self.system.path_limit() as usize + 1
    }
}
