//! Whether nodes say all that is forced.

ghost use Rattle.std.specs.Prelude.{◌≡◌, ℕ, ◌<◌, length, true, Some, slice_index_or};
ghost use Rattle.type_hierarchy.specs.Table.{count_of, is_below};
ghost use Rattle.fs_model.specs.Claims.{Claim, exists_at, same, below, Has};
ghost use Rattle.fs_graph.specs.Facts.{path_of, claim_of};
ghost use Rattle.fs_graph.specs.GraphMap.{arc_to};
ghost use Rattle.fs_closing.specs.Rules.{IsClaimIn, facts_in, no_rule};
ghost use Rattle.forced_types.specs.Forced.{IsWithin};
ghost use Rattle.forced_types.specs.Inner.Sound.{AreSound, Covers, size_of, entry_in};
ghost use Rattle.forced_types.specs.Inner.Closed.{walk_in, IsFlat, HasFront, AreHeld, HoldsAt, SaysFrom, IsArcClosed, IsNodeClosed};

use crate::closed_types::are_types_closed;
use crate::given::Given;
use crate::nodes::Nodes;
use fs_graph::{Fact, Feat, GraphArc};

impl Nodes {
    /// The node at a path from a node.
    pub fn follow(&self, given: Given<'_>, n: u32, path: &[Feat]) -> Option<u32>
        requires sound { AreSound given self.now }
        requires node { n < size_of self.now }
        ensures { result ≡ walk_in self.now n (path_of path.now) }
    {
        let mut at = n;
        for feat in path {
            match self.arc_end(given, self.up(at), *feat) {
                Some(to) => at = to,
                None => return None,
            }
        }
        Some(self.up(at))
    }

    // Whether a path is there.
    fn is_there(&self, given: Given<'_>, n: u32, path: &[Feat]) -> bool
        requires sound { AreSound given self.now }
        requires node { n < size_of self.now }
        ensures { result ≡ true → (m : ℕ) × (walk_in self.now n (path_of path.now) ≡ Some m) }
    {
        match self.follow(given, n, path) {
            Some(_) => true,
            None => false,
        }
    }

    /// Whether a path is there, as far as so many features.
    pub fn has_front(&self, given: Given<'_>, n: u32, left: usize, path: &[Feat]) -> bool
        requires sound { AreSound given self.now }
        requires node { n < size_of self.now }
        ensures { result ≡ true → HasFront self.now n left (path_of path.now) }
    {
        if path.len() <= left {
            return self.is_there(given, n, path);
        }
        self.is_there(given, n, &path[..left])
    }

    // Whether two paths lead to one node, if they have so many features at most.
    fn are_same(&self, given: Given<'_>, n: u32, left: usize, a: &[Feat], b: &[Feat]) -> bool
        requires sound { AreSound given self.now }
        requires node { n < size_of self.now }
        ensures { result ≡ true → IsWithin left (same (path_of a.now) (path_of b.now)) → SaysFrom given.entry.system.now.types self.now n (same (path_of a.now) (path_of b.now)) }
    {
        if a.len() > left || b.len() > left {
            return true;
        }
        let Some(first) = self.follow(given, n, a) else {
            return false;
        };
        let Some(second) = self.follow(given, n, b) else {
            return false;
        };
        first == second
    }

    // Whether the node at a path is at or below a type, if the path has so many features at most.
    fn is_under(&self, given: Given<'_>, n: u32, left: usize, path: &[Feat], ty: u32) -> bool
        requires sound { AreSound given self.now }
        requires flat { IsFlat self.now }
        requires node { n < size_of self.now }
        requires ty { ty < count_of given.system.now.types }
        ensures { result ≡ true → IsWithin left (below (path_of path.now) ty) → SaysFrom given.entry.system.now.types self.now n (below (path_of path.now) ty) }
    {
        if path.len() > left {
            return true;
        }
        match self.follow(given, n, path) {
            Some(end) => self.covers(given, end, ty),
            None => false,
        }
    }

    // Whether it holds at a node that a path is there.
    fn holds_path(&self, given: Given<'_>, n: u32, left: usize, path: &[Feat]) -> bool
        requires sound { AreSound given self.now }
        requires node { n < size_of self.now }
        ensures { result ≡ true → HoldsAt given.entry.system.now.types self.now n left (exists_at (path_of path.now)) }
    {
        self.has_front(given, n, left, path)
    }

    // Whether it holds at a node that two paths are equal.
    fn holds_same(&self, given: Given<'_>, n: u32, left: usize, a: &[Feat], b: &[Feat]) -> bool
        requires sound { AreSound given self.now }
        requires node { n < size_of self.now }
        ensures { result ≡ true → HoldsAt given.entry.system.now.types self.now n left (same (path_of a.now) (path_of b.now)) }
    {
        if !self.has_front(given, n, left, a) || !self.has_front(given, n, left, b) {
            return false;
        }
        self.are_same(given, n, left, a, b)
    }

    // Whether it holds at a node that a path is at or below a type.
    fn holds_below(&self, given: Given<'_>, n: u32, left: usize, path: &[Feat], ty: u32) -> bool
        requires sound { AreSound given self.now }
        requires flat { IsFlat self.now }
        requires node { n < size_of self.now }
        requires ty { ty < count_of given.system.now.types }
        ensures { result ≡ true → HoldsAt given.entry.system.now.types self.now n left (below (path_of path.now) ty) }
    {
        if !self.has_front(given, n, left, path) {
            return false;
        }
        self.is_under(given, n, left, path, ty)
    }

    /// Whether a fact holds at a node, as far as its paths have so many features.
    pub fn holds(&self, given: Given<'_>, n: u32, left: usize, fact: &Fact) -> bool
        requires sound { AreSound given self.now }
        requires flat { IsFlat self.now }
        requires node { n < size_of self.now }
        requires inside { IsClaimIn (count_of given.system.now.types) (length given.system.now.introducers) (claim_of fact.now) }
        ensures { result ≡ true → HoldsAt given.entry.system.now.types self.now n left (claim_of fact.now) }
    {
        match fact {
            Fact::Exists { path } => self.holds_path(given, n, left, path),
            Fact::Same { a, b } => self.holds_same(given, n, left, a, b),
            Fact::Below { path, ty } => self.holds_below(given, n, left, path, ty.0),
        }
    }

    // Whether the facts of a rule hold at a node.
    fn holds_rule(&self, given: Given<'_>, n: u32, left: usize, rule: u32) -> bool
        requires sound { AreSound given self.now }
        requires flat { IsFlat self.now }
        requires node { n < size_of self.now }
        requires rule { rule < length given.system.now.rules }
        ensures { result ≡ true → AreHeld given.entry.system.now.types self.now n left (slice_index_or given.entry.system.now.rules rule no_rule).claims }
    {
        let facts = given.system.facts(rule);
        for k in 0..facts.len() {
            if !self.holds(given, n, left, &facts[k]) {
                return false;
            }
        }
        true
    }

    // Whether the facts of a type and of all above it hold at a node.
    fn holds_type(&self, given: Given<'_>, n: u32, left: usize, ty: u32) -> bool
        requires sound { AreSound given self.now }
        requires flat { IsFlat self.now }
        requires node { n < size_of self.now }
        requires ty { ty < count_of given.system.now.types }
        ensures { result ≡ true → (u : ℕ) → is_below given.entry.system.now.types ty u ≡ true → AreHeld given.entry.system.now.types self.now n left (facts_in given.entry.system.now.rules u) }
    {
        let rules = given.system.rules_above(ty);
        for k in 0..rules.len() {
            if !self.holds_rule(given, n, left, rules[k]) {
                return false;
            }
        }
        true
    }

    // Whether the facts of all types of a node hold at it.
    fn holds_all(&self, given: Given<'_>, n: u32, left: usize) -> bool
        requires sound { AreSound given self.now }
        requires flat { IsFlat self.now }
        requires node { n < size_of self.now }
        ensures { result ≡ true → (u : ℕ) → Covers given.entry.system.now.types (entry_in self.now n).types u → AreHeld given.entry.system.now.types self.now n left (facts_in given.entry.system.now.rules u) }
    {
        let types = self.types(n);
        for k in 0..types.len() {
            if !self.holds_type(given, n, left, types[k]) {
                return false;
            }
        }
        true
    }

    // Whether a node has the type that introduces an arc's feature, and the arc leads to no path that is much longer.
    fn is_arc_closed(&self, given: Given<'_>, n: u32, arc: GraphArc) -> bool
        requires sound { AreSound given self.now }
        requires node { n < size_of self.now }
        requires arc { Has arc (entry_in self.now n).arcs }
        ensures { result ≡ true → IsArcClosed given.entry self.now n arc.feat.0 arc.to.0 }
    {
        self.covers(given, n, given.system.introducer(arc.feat.0))
            && self.depth(self.up(arc.to.0)).saturating_sub(self.depth(n)) <= 1
    }

    // The same of all arcs of a node.
    fn are_arcs_closed(&self, given: Given<'_>, n: u32) -> bool
        requires sound { AreSound given self.now }
        requires node { n < size_of self.now }
        ensures { result ≡ true → (f m : ℕ) → arc_to (entry_in self.now n).arcs f ≡ Some m → IsArcClosed given.entry self.now n f m }
    {
        let arcs = self.arcs(n);
        for k in 0..arcs.len() {
            if !self.is_arc_closed(given, n, arcs[k]) {
                return false;
            }
        }
        true
    }

    // Whether what types say of a live node holds.
    fn is_node_closed(&self, given: Given<'_>, n: u32) -> bool
        requires sound { AreSound given self.now }
        requires flat { IsFlat self.now }
        requires node { n < size_of self.now }
        ensures { result ≡ true → (entry_in self.now n).up ≡ n → IsNodeClosed given.entry self.now n }
    {
        if self.up(n) != n {
            return true;
        }
        if !are_types_closed(given, self.types(n)) || !self.are_arcs_closed(given, n) {
            return false;
        }
        let left = given.most().saturating_sub(self.depth(n));
        self.holds_all(given, n, left)
    }

    /// The same of all nodes.
    pub fn are_nodes_closed(&self, given: Given<'_>) -> bool
        requires sound { AreSound given self.now }
        requires flat { IsFlat self.now }
        ensures { result ≡ true → (n : ℕ) → n < size_of self.now → (entry_in self.now n).up ≡ n → IsNodeClosed given.entry self.now n }
    {
        for n in 0..self.size() {
            if !self.is_node_closed(given, n) {
                return false;
            }
        }
        true
    }

    /// Whether each node was merged into a live one at once.
    pub fn is_flat(&self, given: Given<'_>) -> bool
        requires { AreSound given self.now }
        ensures { result ≡ true → IsFlat self.now }
    {
        for n in 0..self.size() {
            if self.up(self.up(n)) != self.up(n) {
                return false;
            }
        }
        true
    }
}
