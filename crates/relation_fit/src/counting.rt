//! Structures with too many relations.

ghost use Rattle.std.specs.Prelude.{◌≡◌, true, length, IfOk};
ghost use Rattle.chart_model.specs.declared.counts.Counts.{Counts as CountsOf};
ghost use Rattle.fs_graph.specs.GraphMap.{reader_of};
ghost use Rattle.tree_model.specs.Structures.{Structure};
ghost use Rattle.tree_model.specs.Views.{Shows};
ghost use Rattle.tree_model.specs.Mothers.{Meant};
ghost use Rattle.tree_model.specs.Signs.{Signs, rule_system};
ghost use Rattle.generate_model.specs.Threading.{Hopeless};
ghost use Rattle.generate_model.specs.Contributions.{Input, Means};
ghost use Rattle.relation_fit.specs.Lists.{list_seen};
ghost use Rattle.relation_fit.specs.Fits.{IsAskedOf};

use crate::NoMemory;
use crate::cells::cells;
use crate::list::RelationList;
use fs_graph::Graph;
use std::alloc::Global;

/// Whether a structure's list of relations has more elements than there are elementary predications: then no structure that holds them
/// means what is asked for. The graph is that of what the structure means.
pub fn has_too_many(
    alloc: Global,
    graph: &Graph,
    list: &RelationList,
    most: usize,
) -> Result<bool, NoMemory>
    ensures { IfOk result (λ yes. yes ≡ true → (g : Signs) (input : Input) (f : Structure) → IsAskedOf g input (list_seen list.now) → length input.meaning.eps ≡ most → Shows g.system (Meant (rule_system g) f) (reader_of graph.now) → Hopeless {C = CountsOf} (rule_system g) (list_seen list.now).rest (list_seen list.now).ends (λ u c. Means g input u) f) }
{
    graph.laws();
    match cells(alloc, graph, list)? {
        Some(found) => Ok(found.len() > most),
        None => Ok(false),
    }
}
