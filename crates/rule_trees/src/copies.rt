//! Copies of graphs.

ghost use Rattle.std.specs.Prelude.{◌≡◌, IfOk};
ghost use Rattle.rule_trees.specs.Mothers.{graph_view, IsShortIn};

use crate::NoMemory;
use book_signs::SignBook;
use fs_graph::Graph;
use fs_trim::{Cut, keep};
use std::alloc::Global;

/// The same structure once more.
pub(crate) fn copied(alloc: Global, signs: &SignBook<'_>, graph: &Graph) -> Result<Graph, NoMemory>
    requires { IsShortIn signs.now graph.now }
    ensures same { IfOk result (λ g. graph_view signs.now graph.now ≡ graph_view signs.now g) }
    ensures short { IfOk result (IsShortIn signs.now) }
{
    signs.laws();
    let nothing = Cut {
        at_root: Vec::new(alloc),
        anywhere: Vec::new(alloc),
    };
    let copy = keep(alloc, graph, &nothing)?;
    Ok(copy)
}
