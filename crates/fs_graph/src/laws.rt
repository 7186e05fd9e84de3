//! What holds of graphs and their lists of paths.

ghost use Rattle.fs_graph.specs.PathLaws.{ListsAreOne};

/// A law of lists of paths: graphs that are one structure have one list. It does nothing.
pub fn path_laws()
    ensures { ListsAreOne }
{}
