//! Steps that add to nodes. None says what isn't forced.

ghost use Rattle.std.specs.Prelude.{◌≡◌, ℕ, ◌<◌, ◌≤◌, ◌∷◌, ◌++◌, [], length, true, Some, None, IfOk, IfSome, OnOk, OnErr, option_map};
ghost use Rattle.type_hierarchy.specs.Table.{count_of, meet_of};
ghost use Rattle.fs_model.specs.Claims.{exists_at, same, below, Has};
ghost use Rattle.fs_graph.specs.Facts.{path_of};
ghost use Rattle.fs_graph.specs.GraphMap.{arc_to};
ghost use Rattle.fs_graph.specs.declared.graph.GraphArc.{GraphArc as ArcValue};
ghost use Rattle.forced_types.specs.declared.nodes.Image.{Image as ImageValue};
ghost use Rattle.forced_types.specs.Inner.Sound.{Forces, AreSound, KeepPaths, Covers, IsImage, IsTypeAt, IsArcAt, IsArcEnd, IsCommon, size_of, entry_in, path_in};

use crate::given::Given;
use crate::nodes::{Image, Nodes, Pair};
use fs_closing::NoMemory;
use fs_graph::{Feat, GraphArc};
use std::alloc::Global;
use type_hierarchy::{Ty, Types};

/// Whether one of the types is at or below a type.
pub fn covers(types: &Types, list: &[u32], ty: u32) -> bool
    requires list { (t : ℕ) → Has t list.now → t < count_of types.now }
    requires ty { ty < count_of types.now }
    ensures { result ≡ true → Covers types.now list.now ty }
{
    for i in 0..list.len() {
        if types.at_or_below(Ty(list[i]), Ty(ty)) {
            return true;
        }
    }
    false
}

// The common type of the one type of a list and another type.
fn lowered(types: &Types, list: &[u32], ty: u32) -> Option<u32>
    requires list { (t : ℕ) → Has t list.now → t < count_of types.now }
    requires ty { ty < count_of types.now }
    ensures common { IfSome result (λ m. (t : ℕ) × Has t list.now × (meet_of types.now t ty ≡ Some m)) }
    ensures within { IfSome result (λ m. m < count_of types.now) }
{
    types.laws();
    if list.len() != 1 {
        return None;
    }
    let both = types.meet(Ty(list[0]), Ty(ty))?;
    Some(both.0)
}

/// Where an arc leads, of a row.
pub fn find_arc(arcs: &[GraphArc], feat: Feat) -> Option<u32>
    ensures { result ≡ arc_to arcs.now feat.0 }
{
    arcs.iter()
        .find(|arc| arc.feat.0 == feat.0)
        .map(|arc| arc.to.0)
}

/// The common type of two types.
pub fn common(given: Given<'_>, first: u32, second: u32) -> Option<u32>
    requires first { first < count_of given.system.now.types }
    requires second { second < count_of given.system.now.types }
    ensures value { result ≡ meet_of given.entry.system.now.types first second }
    ensures common { IfSome result (IsCommon given.entry first second) }
{
    given.system.types().laws();
    match given.system.types().meet(Ty(first), Ty(second)) {
        Some(both) => Some(both.0),
        None => None,
    }
}

impl Nodes {
    /// A type of a node by place, `None` where there is none.
    pub fn type_at(&self, given: Given<'_>, n: u32, i: usize) -> Option<u32>
        requires { AreSound given self.now }
        ensures { IfSome result (IsTypeAt given.entry self.now n) }
    {
        if n >= self.size() || i >= self.types(n).len() {
            return None;
        }
        Some(self.types(n)[i])
    }

    /// An arc of a node by place, `None` where there is none.
    pub fn arc_at(&self, given: Given<'_>, n: u32, i: usize) -> Option<GraphArc>
        requires { AreSound given self.now }
        ensures { IfSome result (IsArcAt given.entry self.now n) }
    {
        if n >= self.size() || i >= self.arcs(n).len() {
            return None;
        }
        Some(self.arcs(n)[i])
    }

    /// Where an arc of a node leads.
    pub fn arc_end(&self, given: Given<'_>, n: u32, feat: Feat) -> Option<u32>
        requires sound { AreSound given self.now }
        requires node { n < size_of self.now }
        ensures value { result ≡ arc_to (entry_in self.now n).arcs feat.0 }
        ensures end { IfSome result (IsArcEnd given.entry self.now n feat.0) }
    {
        let end = find_arc(self.arcs(n), feat)?;
        Some(end)
    }

    /// A node that a node was merged into, and itself for one that wasn't.
    pub fn live(&self, given: Given<'_>, n: u32) -> u32
        requires sound { AreSound given self.now }
        requires node { n < size_of self.now }
        ensures within { result < size_of self.now }
        ensures same { Forces given.entry (same (path_in self.now n) (path_in self.now result)) }
    {
        let mut at = n;
        for _ in 0..self.list.len() {
            let up = self.up(at);
            if up == at {
                return at;
            }
            at = up;
        }
        at
    }

    /// Whether a node's types put it at or below a type.
    pub fn covers(&self, given: Given<'_>, n: u32, ty: u32) -> bool
        requires sound { AreSound given self.now }
        requires node { n < size_of self.now }
        requires ty { ty < count_of given.system.now.types }
        ensures { result ≡ true → Covers given.entry.system.now.types (entry_in self.now n).types ty }
    {
        covers(given.system.types(), self.types(n), ty)
    }

    /// A node is at or below a type too. A node of one type gets the common type in its place, if there is one.
    pub fn add_type(&mut self, given: Given<'_>, n: u32, ty: u32) -> Result<(), NoMemory>
        requires sound { AreSound given self.old }
        requires node { n < size_of self.old }
        requires ty { ty < count_of given.system.now.types }
        requires forced { Forces given (below (path_in self.old n) ty) }
        ensures sound { AreSound given.entry self.new }
        ensures keeps { KeepPaths self.old self.new }
    {
        if self.covers(given, n, ty) {
            return Ok(());
        }
        match lowered(given.system.types(), self.types(n), ty) {
            Some(both) => self.put_in_place(given, n, both),
            None => self.put_beside(given, n, ty)?,
        }
        Ok(())
    }

    // One type in place of another one.
    fn put_in_place(&mut self, given: Given<'_>, n: u32, ty: u32)
        requires sound { AreSound given self.old }
        requires node { n < size_of self.old }
        requires ty { ty < count_of given.system.now.types }
        requires forced { Forces given (below (path_in self.old n) ty) }
        ensures sound { AreSound given.entry self.new }
        ensures keeps { KeepPaths self.old self.new }
    {
        self.replace_type(n, ty);
    }

    /// One type more.
    pub fn put_beside(&mut self, given: Given<'_>, n: u32, ty: u32) -> Result<(), NoMemory>
        requires sound { AreSound given self.old }
        requires node { n < size_of self.old }
        requires ty { ty < count_of given.system.now.types }
        requires forced { Forces given (below (path_in self.old n) ty) }
        ensures sound { AreSound given.entry self.new }
        ensures keeps { KeepPaths self.old self.new }
    {
        self.push_type(n, ty)
    }

    /// One arc more, of a feature that a node lacks.
    pub fn add_arc(&mut self, given: Given<'_>, n: u32, arc: GraphArc) -> Result<(), NoMemory>
        requires sound { AreSound given self.old }
        requires node { n < size_of self.old }
        requires to { arc.to.0 < size_of self.old }
        requires feat { arc.feat.0 < length given.system.now.introducers }
        requires lacks { arc_to (entry_in self.old n).arcs arc.feat.0 ≡ None }
        requires forced { Forces given (same (path_in self.old n ++ arc.feat.0 ∷ []) (path_in self.old arc.to.0)) }
        ensures sound { AreSound given.entry self.new }
        ensures keeps { KeepPaths self.old self.new }
    {
        self.push_arc(n, arc)
    }

    /// A node is merged into another one.
    pub fn raise(&mut self, given: Given<'_>, n: u32, up: u32)
        requires sound { AreSound given self.old }
        requires node { n < size_of self.old }
        requires up { up < size_of self.old }
        requires forced { Forces given (same (path_in self.old n) (path_in self.old up)) }
        ensures sound { AreSound given.entry self.new }
        ensures keeps { KeepPaths self.old self.new }
    {
        self.write_up(n, up);
    }

    /// One node more.
    pub fn add_node(
        &mut self,
        alloc: Global,
        given: Given<'_>,
        path: Vec<Feat>,
        image: Option<Image>,
    ) -> Result<u32, NoMemory>
        requires sound { AreSound given self.old }
        requires forced { Forces given (exists_at (path_of path.items)) }
        requires image { (im : ImageValue) → image ≡ Some im → IsImage given.parts.now (path_of path.items) im }
        ensures node { IfOk result (λ n. n < size_of self.new) }
        ensures path { IfOk result (λ n. path_in self.new n ≡ path_of path.items) }
        ensures sound { AreSound given.entry self.new }
        ensures keeps { KeepPaths self.old self.new }
        ensures others { OnOk result ((k : ℕ) → k < size_of self.old → entry_in self.new k ≡ entry_in self.old k) }
    {
        given.system.laws();
        let node = self.push_node(alloc, path, image)?;
        Ok(node)
    }

    /// Two nodes are to be merged.
    pub fn add_pair(&mut self, given: Given<'_>, a: u32, b: u32) -> Result<(), NoMemory>
        requires sound { AreSound given self.old }
        requires a_in { a < size_of self.old }
        requires b_in { b < size_of self.old }
        requires forced { Forces given (same (path_in self.old a) (path_in self.old b)) }
        ensures sound { AreSound given.entry self.new }
        ensures keeps { KeepPaths self.old self.new }
    {
        self.pairs.push(Pair { a, b })?;
        Ok(())
    }
}
