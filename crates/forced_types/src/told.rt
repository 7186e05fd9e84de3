//! Whether nodes say what parts tell.

ghost use Rattle.std.specs.Prelude.{◌≡◌, ℕ, ◌<◌, length, true, slice_index_or, IfOk};
ghost use Rattle.type_hierarchy.specs.Table.{count_of};
ghost use Rattle.fs_model.specs.Claims.{Has};
ghost use Rattle.fs_graph.specs.declared.graph.GraphArc.{GraphArc as ArcValue};
ghost use Rattle.fs_closing.specs.NodeSteps.{IsGraphIn};
ghost use Rattle.forced_types.specs.declared.placed.PlacedGraph.{PlacedGraph as PartValue};
ghost use Rattle.forced_types.specs.Inner.Sound.{AreSound, size_of};
ghost use Rattle.forced_types.specs.Inner.Closed.{IsFlat, IsPartTold, IsClosed};
ghost use Rattle.forced_types.specs.Inner.Told.{IsNodeTold, IsArcTold, IsRootTold};

use crate::given::Given;
use crate::loading::{NONE, spot};
use crate::nodes::Nodes;
use crate::placed::PlacedGraph;
use fs_closing::NoMemory;
use fs_graph::{Graph, GraphArc, Node as GraphNode};
use std::alloc::Global;

impl Nodes {
    // For each node of a part's graph the first node that was made for it.
    fn spots(
        &self,
        alloc: Global,
        given: Given<'_>,
        i: u32,
        count: u32,
    ) -> Result<Vec<u32>, NoMemory>
        requires { AreSound given self.now }
    {
        let mut spots = vec![in alloc; NONE; count as usize]?;
        for n in 0..self.size() {
            if let Some(image) = self.image_at(given, n) {
                if image.part == i && spot(&spots, image.node) == NONE && image.node < count {
                    spots[image.node as usize] = n;
                }
            }
        }
        Ok(spots)
    }

    // Whether an arc of a graph's node is an arc of the node that was made for it.
    fn has_arc(&self, given: Given<'_>, spots: &[u32], n: u32, arc: GraphArc) -> bool
        requires sound { AreSound given self.now }
        requires node { n < size_of self.now }
        ensures { result ≡ true → IsArcTold given.entry self.now spots.now n arc }
    {
        if self.depth(n) >= given.most() {
            return true;
        }
        let to = spot(spots, arc.to.0);
        if to >= self.size() || self.depth(to).saturating_sub(self.depth(n)) > 1 {
            return false;
        }
        match self.arc_end(given, self.up(n), arc.feat) {
            Some(end) => self.up(end) == self.up(to),
            None => false,
        }
    }

    // The same of all arcs of a graph's node.
    fn has_arcs(&self, given: Given<'_>, spots: &[u32], n: u32, arcs: &[GraphArc]) -> bool
        requires sound { AreSound given self.now }
        requires node { n < size_of self.now }
        ensures { result ≡ true → (a : ArcValue) → Has a arcs.now → IsArcTold given.entry self.now spots.now n a }
    {
        for k in 0..arcs.len() {
            if !self.has_arc(given, spots, n, arcs[k]) {
                return false;
            }
        }
        true
    }

    // Whether the node that was made for a graph's node says what that tells.
    fn is_node_told(&self, given: Given<'_>, graph: &Graph, spots: &[u32], k: u32) -> bool
        requires sound { AreSound given self.now }
        requires graph { IsGraphIn (count_of given.system.now.types) (length given.system.now.introducers) graph.now }
        requires node { k < length graph.now.types }
        ensures { result ≡ true → IsNodeTold given.entry self.now graph.now spots.now k }
    {
        let n = spot(spots, k);
        if n >= self.size() {
            return true;
        }
        self.covers(given, self.up(n), graph.ty(GraphNode(k)).0)
            && self.has_arcs(given, spots, n, graph.arcs(GraphNode(k)))
    }

    // The same of all nodes of a graph.
    fn are_nodes_told(&self, given: Given<'_>, graph: &Graph, spots: &[u32]) -> bool
        requires sound { AreSound given self.now }
        requires graph { IsGraphIn (count_of given.system.now.types) (length given.system.now.introducers) graph.now }
        ensures { result ≡ true → (k : ℕ) → k < length graph.now.types → IsNodeTold given.entry self.now graph.now spots.now k }
    {
        for k in 0..graph.nodes() {
            if !self.is_node_told(given, graph, spots, k) {
                return false;
            }
        }
        true
    }

    // Whether the root of a part's graph stands at its place.
    fn is_root_told(&self, given: Given<'_>, part: PlacedGraph<'_>, spots: &[u32]) -> bool
        requires { AreSound given self.now }
        ensures { result ≡ true → IsRootTold self.now part.entry spots.now }
    {
        let root = spot(spots, 0);
        if root >= self.size() || self.depth(root) > part.at.len() {
            return false;
        }
        match self.follow(given, 0, part.at) {
            Some(end) => end == self.up(root),
            None => false,
        }
    }

    // Whether nodes say what a part tells.
    fn is_part_told(&self, given: Given<'_>, part: PlacedGraph<'_>, spots: &[u32]) -> bool
        requires sound { AreSound given self.now }
        requires flat { IsFlat self.now }
        requires part { Has part given.parts.now }
        ensures { result ≡ true → IsPartTold given.entry self.now part.entry }
    {
        part.graph.laws();
        if part.at.len() > given.most() {
            return self.has_front(given, 0, given.most(), part.at);
        }
        if !self.is_root_told(given, part, spots) {
            return false;
        }
        self.are_nodes_told(given, part.graph, spots)
    }

    // The same of all parts.
    fn are_parts_told(&self, alloc: Global, given: Given<'_>) -> Result<bool, NoMemory>
        requires sound { AreSound given self.now }
        requires flat { IsFlat self.now }
        ensures { IfOk result (λ b. b ≡ true → (p : PartValue) → Has p given.entry.parts.now → IsPartTold given.entry self.now p) }
    {
        if given.parts.len() >= NONE as usize {
            return Err(NoMemory);
        }
        for i in 0..given.parts.len() as u32 {
            let part = given.parts[i as usize];
            let spots = self.spots(alloc, given, i, part.graph.nodes())?;
            if !self.is_part_told(given, part, &spots) {
                return Ok(false);
            }
        }
        Ok(true)
    }

    /// Whether nodes say all that is forced.
    pub fn is_closed(&self, alloc: Global, given: Given<'_>) -> Result<bool, NoMemory>
        requires { AreSound given self.now }
        ensures { IfOk result (λ b. b ≡ true → IsClosed given.entry self.now) }
    {
        if !self.is_flat(given) {
            return Ok(false);
        }
        let top = self.up(0);
        if self.depth(top) != 0 {
            return Ok(false);
        }
        if !self.are_nodes_closed(given) {
            return Ok(false);
        }
        if !self.holds_facts(given) {
            return Ok(false);
        }
        let told = self.are_parts_told(alloc, given)?;
        Ok(told)
    }
}
