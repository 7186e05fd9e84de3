//! Facts are put at nodes.

ghost use Rattle.std.specs.Prelude.{◌≡◌, ℕ, ◌<◌, ◌≤◌, ◌+◌, ◌∷◌, ◌++◌, [], length, None, All, IfOk, IfSome, OnOk};
ghost use Rattle.fs_model.specs.Claims.{exists_at, same};
ghost use Rattle.fs_graph.specs.Facts.{path_of, claim_of};
ghost use Rattle.fs_graph.specs.GraphMap.{arc_to};
ghost use Rattle.forced_types.specs.Inner.Sound.{Forces, AreSound, KeepPaths, AreFronts, MayPut, IsEnd, EndsAt, GoesOn, size_of, entry_in, path_in};

use crate::given::Given;
use crate::nodes::Nodes;
use crate::steps::find_arc;
use fs_closing::NoMemory;
use fs_graph::{Fact, Feat, GraphArc, Node as GraphNode};
use std::alloc::Global;

/// A path, and one feature more.
pub fn longer(alloc: Global, path: &[Feat], feat: Feat) -> Result<Vec<Feat>, NoMemory>
    ensures { IfOk result (λ v. path_of v.items ≡ path_of path.now ++ feat.0 ∷ []) }
{
    let mut all = Vec::new(alloc);
    all.extend_from_slice(path)?;
    all.push(feat)?;
    Ok(all)
}

/// The same path.
pub fn copied(alloc: Global, path: &[Feat]) -> Result<Vec<Feat>, NoMemory>
    ensures { IfOk result (λ v. path_of v.items ≡ path_of path.now) }
{
    let mut all = Vec::new(alloc);
    all.extend_from_slice(path)?;
    Ok(all)
}

impl Nodes {
    // A new node at the end of an arc that a node lacks.
    fn grow(&mut self, alloc: Global, given: Given<'_>, n: u32, feat: Feat) -> Result<u32, NoMemory>
        requires sound { AreSound given self.old }
        requires node { n < size_of self.old }
        requires feat { feat.0 < length given.system.now.introducers }
        requires lacks { arc_to (entry_in self.old n).arcs feat.0 ≡ None }
        requires forced { Forces given (exists_at (path_in self.old n ++ feat.0 ∷ [])) }
        ensures sound { AreSound given.entry self.new }
        ensures keeps { KeepPaths self.old self.new }
        ensures inside { IfOk result (λ m. m < size_of self.new) }
        ensures path { IfOk result (λ m. path_in self.new m ≡ path_in self.old n ++ feat.0 ∷ []) }
    {
        let path = longer(alloc, self.path(n), feat)?;
        let to = self.add_node(alloc, given, path, None)?;
        let arc = GraphArc {
            feat,
            to: GraphNode(to),
        };
        self.add_arc(given, n, arc)?;
        Ok(to)
    }

    // The end of an arc, which is made where there is none; `None` where its path would be too long.
    fn step(
        &mut self,
        alloc: Global,
        given: Given<'_>,
        n: u32,
        feat: Feat,
    ) -> Result<Option<u32>, NoMemory>
        requires sound { AreSound given self.old }
        requires node { n < size_of self.old }
        requires feat { feat.0 < length given.system.now.introducers }
        requires on { GoesOn given (path_in self.old n) feat.0 }
        ensures sound { AreSound given.entry self.new }
        ensures keeps { KeepPaths self.old self.new }
        ensures end { IfOk result (λ o. IfSome o (EndsAt given.entry self.new (path_in self.old n) feat.0)) }
    {
        if let Some(to) = find_arc(self.arcs(n), feat) {
            return Ok(Some(to));
        }
        if self.depth(n) >= given.most() {
            return Ok(None);
        }
        let to = self.grow(alloc, given, n, feat)?;
        Ok(Some(to))
    }

    /// The end of a path from a node, which is made where it isn't there; `None` where paths would be too long.
    pub fn reach(
        &mut self,
        alloc: Global,
        given: Given<'_>,
        n: u32,
        path: &[Feat],
    ) -> Result<Option<u32>, NoMemory>
        requires sound { AreSound given self.old }
        requires node { n < size_of self.old }
        requires feats { All (λ f. f < length given.system.now.introducers) (path_of path.now) }
        requires fronts { AreFronts given (path_in self.old n ++ path_of path.now) }
        ensures sound { AreSound given.entry self.new }
        ensures keeps { KeepPaths self.old self.new }
        ensures end { IfOk result (λ o. IfSome o (IsEnd given.entry self.new (path_in self.old n ++ path_of path.now))) }
    {
        let depth = self.depth(n);
        let mut left = given.most().saturating_sub(depth);
        let mut at = n;
        for feat in path {
            if left == 0 {
                return Ok(None);
            }
            left -= 1;
            let live = self.live(given, at);
            match self.step(alloc, given, live, *feat)? {
                Some(to) => at = to,
                None => return Ok(None),
            }
        }
        Ok(Some(at))
    }

    // The ends of two paths are to be merged.
    fn put_same(
        &mut self,
        alloc: Global,
        given: Given<'_>,
        n: u32,
        a: &[Feat],
        b: &[Feat],
    ) -> Result<(), NoMemory>
        requires sound { AreSound given self.old }
        requires node { n < size_of self.old }
        requires put { MayPut given (path_in self.old n) (same (path_of a.now) (path_of b.now)) }
        ensures sound { AreSound given.entry self.new }
        ensures keeps { KeepPaths self.old self.new }
    {
        let Some(first) = self.reach(alloc, given, n, a)? else {
            return Ok(());
        };
        let Some(second) = self.reach(alloc, given, n, b)? else {
            return Ok(());
        };
        self.add_pair(given, first, second)
    }

    /// A fact is put at a node, as far as no path gets too long.
    pub fn put(
        &mut self,
        alloc: Global,
        given: Given<'_>,
        n: u32,
        fact: &Fact,
    ) -> Result<(), NoMemory>
        requires sound { AreSound given self.old }
        requires node { n < size_of self.old }
        requires put { MayPut given (path_in self.old n) (claim_of fact.now) }
        ensures sound { AreSound given.entry self.new }
        ensures keeps { KeepPaths self.old self.new }
    {
        match fact {
            Fact::Exists { path } => {
                self.reach(alloc, given, n, path)?;
                Ok(())
            }
            Fact::Same { a, b } => self.put_same(alloc, given, n, a, b),
            Fact::Below { path, ty } => match self.reach(alloc, given, n, path)? {
                Some(end) => self.add_type(given, end, ty.0),
                None => Ok(()),
            },
        }
    }
}
