//! Laws of graphs.

ghost use Rattle.std.specs.Prelude.{length};
ghost use Rattle.type_hierarchy.specs.Table.{count_of};
ghost use Rattle.fs_model.specs.Closure.{IsConsistent};
ghost use Rattle.fs_model.specs.Sources.{Told};
ghost use Rattle.fs_graph.specs.GraphMap.{reader_of};
ghost use Rattle.fs_closing.specs.Rules.{system_of};
ghost use Rattle.fs_unify.specs.Entering.{IsGraphIn};
ghost use Rattle.fs_trim.specs.Cutting.{IsShort};
ghost use Rattle.tree_model.specs.Views.{source_alone};

use fs_graph::Graph;
use fs_unify::TypeSystem;

/// A law: a graph whose types and features are there, and whose facts have a consistent closure, has no path that is too long,
/// as is asked of the structures of rules. It does nothing.
pub fn structure_laws(_system: &TypeSystem, graph: &Graph)
    requires in_range { IsGraphIn (count_of _system.now.types) (length _system.now.introducers) graph.now }
    requires consistent { IsConsistent (system_of _system.now) (Told (source_alone (reader_of graph.now))) }
    ensures { IsShort _system.now graph.now }
{
    graph.laws();
}
