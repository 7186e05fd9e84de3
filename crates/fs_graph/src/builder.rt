//! Builders of graphs.

ghost use Rattle.std.specs.Prelude.{◌≡◌, ◌≢◌, ℕ, ◌+◌, ◌<◌, ◌≤◌, ◌∷◌, [], length, map, slice_index, IfOk, IfErr, OnOk, OnErr, None};
ghost use Rattle.fs_graph.specs.GraphMap.{arcs_at, arc_to, Rises};
ghost use Rattle.fs_graph.specs.Visits.{feats_of};
ghost use Rattle.fs_graph.specs.Drawn.{with_node, AddsArc};
ghost use Rattle.fs_graph.specs.Orders.{IsOrdering, IsClash};

use crate::order::{ordered, place};
use crate::{Clash, Feat, Graph, GraphArc, NoMemory, Node};
use std::alloc::Global;
use std::marker::Model;
use type_hierarchy::Ty;

/// A graph that is being built: nodes with their types, of which the root is node 0, and each node's arcs.
#[derive(Debug, Drop)]
pub struct Builder {
    alloc: Global,
    types: Vec<Ty>,
    rows: Vec<Vec<GraphArc>>,
}

impl Model for Builder {
    ghost use Rattle.fs_graph.specs.GraphMap.{GraphMap};

    ghost Value = { GraphMap };

    ghost use Rattle.fs_graph.specs.Drawn.{drawn_map, IsDrawn};

    ghost view = { λ b. drawn_map b.types.items b.rows.items };

    ghost invariant = { λ b. IsDrawn b.types.items b.rows.items };
}

// The place of a feature among arcs by rising feature.
fn place_of(arcs: &[GraphArc], feat: Feat) -> usize
    ensures within { result ≤ length arcs.now }
    ensures before { (k : ℕ) → k < result → slice_index (feats_of arcs.now) k < feat.0 }
    ensures found { result < length arcs.now → feat.0 ≤ slice_index (feats_of arcs.now) result }
{
    for (i, arc) in arcs.iter().enumerate() {
        if arc.feat.0 >= feat.0 {
            return i;
        }
    }
    arcs.len()
}

impl Builder {
    /// A root of this type. `NoMemory` comes only for want of memory.
    pub fn new(alloc: Global, ty: Ty) -> Result<Builder, NoMemory>
        ensures { IfOk result (λ b. b ≡ record { types = ty.0 ∷ []; arcs = [] ∷ [] }) }
    {
        let types = vec![in alloc; ty]?;
        let row = Vec::new(alloc);
        let rows = vec![in alloc; row]?;
        Ok(Builder { alloc, types, rows })
    }

    /// One more node, without arcs. `NoMemory` comes only for want of memory, or of numbers for nodes.
    pub fn node(&mut self, ty: Ty) -> Result<Node, NoMemory>
        ensures number { IfOk result (λ n. n.0 ≡ length self.old.types) }
        ensures ok { OnOk result (self.new ≡ with_node self.old ty.0) }
        ensures err { OnErr result (self.new ≡ self.old) }
    {
        let number = self.types.len() as u32;
        if number == u32::MAX {
            return Err(NoMemory);
        }
        self.types.reserve(1)?;
        self.rows.push(Vec::new(self.alloc))?;
        self.types.push(ty).unwrap();
        Ok(Node(number))
    }

    /// An arc between two nodes. `from` has no arc with this feature yet. `NoMemory` comes only for want of memory.
    pub fn arc(&mut self, from: Node, feat: Feat, to: Node) -> Result<(), NoMemory>
        requires from_in { from.0 < length self.old.types }
        requires to_in { to.0 < length self.old.types }
        requires no_arc { arc_to (arcs_at self.old from.0) feat.0 ≡ None }
        ensures ok { OnOk result (AddsArc self.old self.new from.0 feat.0 to.0) }
        ensures err { OnErr result (self.new ≡ self.old) }
    {
        let row = &mut self.rows[from.0 as usize];
        let place = place_of(row, feat);
        row.insert(place, GraphArc { feat, to })?;
        Ok(())
    }

    /// The graph of what the root reaches. `Cycle` comes exactly where a reached node reaches itself, and names such a node.
    pub fn finish(self) -> Result<Graph, Clash>
        ensures ok { IfOk result (IsOrdering self) }
        ensures err { IfErr result (IsClash self) }
    {
        let Builder { alloc, types, rows } = self;
        let mut starts = Vec::with_capacity(alloc, types.len() + 1)?;
        let mut arcs = Vec::new(alloc);
        for row in &rows {
            starts.push(place(&arcs)?)?;
            arcs.extend_from_slice(row)?;
        }
        starts.push(place(&arcs)?)?;
        ordered(alloc, &types, &starts, &arcs)
    }
}
