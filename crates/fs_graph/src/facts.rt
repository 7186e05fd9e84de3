//! What is said of paths.

use type_hierarchy::Ty;

/// A feature by number. Features are numbered in the byte order of their names.
#[derive(Clone, Copy, Debug, PartialEq, Eq, PartialOrd, Ord, Hash)]
pub struct Feat(pub u32);

/// A fact on the paths of a structure. A path is the list of its features from the root on.
#[derive(Debug, Drop)]
pub enum Fact {
    /// The path exists.
    Exists { path: Vec<Feat> },
    /// The two paths lead to one node.
    Same { a: Vec<Feat>, b: Vec<Feat> },
    /// The path's type is at or below this one.
    Below { path: Vec<Feat>, ty: Ty },
}

/// A path of a structure, with its type. `same_as` is the least path that leads to the same node, where that is another one.
#[derive(Debug, Drop)]
pub struct PathLine {
    pub path: Vec<Feat>,
    pub ty: Ty,
    pub same_as: Option<Vec<Feat>>,
}

/// A structure as a list of its paths, in their order. A path that goes on from one whose `same_as` is set has no line.
#[derive(Debug, Drop)]
pub struct PathList {
    pub lines: Vec<PathLine>,
}
