//! Graphs at places, and what is told of them.

use fs_graph::{Feat, Graph};
use type_hierarchy::Ty;

/// A graph at a place.
#[derive(Clone, Copy)]
pub struct PlacedGraph<'a> {
    pub at: &'a [Feat],
    pub graph: &'a Graph,
}

/// Why parts don't go together: the least path, in the order of paths, at which two types are forced that have no common subtype,
/// with the two of least number; or, where there are no such two, the least forced path of more features than paths may have.
#[derive(Debug, Drop)]
pub enum Verdict {
    /// They go together.
    Fits,
    /// These two types have no common subtype.
    Clash {
        path: Vec<Feat>,
        first: Ty,
        second: Ty,
    },
    /// This path is too long.
    TooLong {
        path: Vec<Feat>,
    },
}
