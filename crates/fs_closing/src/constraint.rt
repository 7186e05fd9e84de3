//! Constraints of types.

ghost use Rattle.std.specs.Prelude.{◌≡◌, IfOk};

use crate::NoMemory;
use fs_graph::Graph;
use std::alloc::Global;
use std::marker::Model;
use std::sync::Arc;

/// A graph that several have. One more of it costs next to nothing.
#[derive(Drop)]
pub struct SharedGraph {
    graph: Arc<Graph>,
}

impl Model for SharedGraph {
    ghost use Rattle.std.specs.Arc.{arc_value};
    ghost use Rattle.fs_graph.specs.GraphMap.{GraphMap};

    ghost Value = { GraphMap };

    ghost view = { λ s. arc_value s.graph };
}

impl SharedGraph {
    /// A graph that others may have too. `NoMemory` comes only for want of memory.
    pub fn new(alloc: Global, graph: Graph) -> Result<SharedGraph, NoMemory>
        ensures { IfOk result (λ s. s ≡ graph) }
    {
        let graph = Arc::new(alloc, graph)?;
        Ok(SharedGraph { graph })
    }

    /// The same graph once more. `NoMemory` comes only for want of numbers for those who have it.
    pub fn share(&self) -> Result<SharedGraph, NoMemory>
        ensures { IfOk result (λ s. s ≡ self.now) }
    {
        let graph = self.graph.clone()?;
        Ok(SharedGraph { graph })
    }

    /// The graph.
    pub fn graph(&self) -> &Graph
        ensures { result.now ≡ self.now }
    {
        &self.graph
    }
}

/// The graph of a type's constraint.
#[derive(Drop)]
pub struct Constraint {
    pub ty: u32,
    pub graph: SharedGraph,
}
