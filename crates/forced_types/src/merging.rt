//! Nodes are merged.

ghost use Rattle.std.specs.Prelude.{◌≡◌, ℕ, ◌<◌, length, IfSome};
ghost use Rattle.fs_model.specs.Claims.{same};
ghost use Rattle.forced_types.specs.Inner.Entries.{entries_of};
ghost use Rattle.forced_types.specs.Inner.Sound.{Forces, AreSound, KeepPaths, IsPairSound, size_of, path_in};

use crate::given::Given;
use crate::nodes::{Nodes, Pair};
use fs_closing::NoMemory;

impl Nodes {
    /// Whether a node is there, and wasn't merged.
    pub fn is_live(&self, given: Given<'_>, n: u32) -> bool
        requires { AreSound given self.now }
    {
        n < self.size() && self.up(n) == n
    }

    /// How many types a node has, none where there is no such node.
    pub fn type_count(&self, given: Given<'_>, n: u32) -> usize
        requires { AreSound given self.now }
    {
        if n < self.size() {
            self.types(n).len()
        } else {
            0
        }
    }

    /// How many arcs a node has, none where there is no such node.
    pub fn arc_count(&self, given: Given<'_>, n: u32) -> usize
        requires { AreSound given self.now }
    {
        if n < self.size() {
            self.arcs(n).len()
        } else {
            0
        }
    }

    // A type of a node that was merged goes to the node into which it was.
    fn pull_type(&mut self, given: Given<'_>, gone: u32, i: usize) -> Result<(), NoMemory>
        requires { AreSound given self.old }
        ensures { AreSound given.entry self.new }
    {
        let Some(ty) = self.type_at(given, gone, i) else {
            return Ok(());
        };
        let to = self.live(given, gone);
        self.add_type(given, to, ty)
    }

    // An arc of a node that was merged goes to the node into which it was. Where that has such an arc, their ends are to be
    // merged.
    fn pull_arc(&mut self, given: Given<'_>, gone: u32, i: usize) -> Result<(), NoMemory>
        requires { AreSound given self.old }
        ensures { AreSound given.entry self.new }
    {
        let Some(arc) = self.arc_at(given, gone, i) else {
            return Ok(());
        };
        let to = self.live(given, gone);
        match self.arc_end(given, to, arc.feat) {
            Some(end) => self.add_pair(given, end, arc.to.0),
            None => {
                if self.depth(to) < given.most() {
                    self.add_arc(given, to, arc)?;
                }
                Ok(())
            }
        }
    }

    // All types of a node that was merged.
    fn pull_types(&mut self, given: Given<'_>, gone: u32) -> Result<(), NoMemory>
        requires { AreSound given self.old }
        ensures { AreSound given.entry self.new }
    {
        for i in 0..self.type_count(given, gone) {
            self.pull_type(given, gone, i)?;
        }
        Ok(())
    }

    // All arcs of a node that was merged.
    fn pull_arcs(&mut self, given: Given<'_>, gone: u32) -> Result<(), NoMemory>
        requires { AreSound given self.old }
        ensures { AreSound given.entry self.new }
    {
        for i in 0..self.arc_count(given, gone) {
            self.pull_arc(given, gone, i)?;
        }
        Ok(())
    }

    // A node is merged into another one.
    fn merge(&mut self, given: Given<'_>, gone: u32, to: u32) -> Result<(), NoMemory>
        requires sound { AreSound given self.old }
        requires gone_in { gone < size_of self.old }
        requires to_in { to < size_of self.old }
        requires forced { Forces given (same (path_in self.old gone) (path_in self.old to)) }
        ensures { AreSound given.entry self.new }
    {
        self.raise(given, gone, to);
        self.pull_types(given, gone)?;
        self.pull_arcs(given, gone)
    }

    // Two nodes are merged into the one whose path is shorter.
    fn join(&mut self, given: Given<'_>, pair: Pair) -> Result<(), NoMemory>
        requires sound { AreSound given self.old }
        requires pair { IsPairSound given (entries_of self.old.list.items) pair }
        ensures { AreSound given.entry self.new }
    {
        let a = self.live(given, pair.a);
        let b = self.live(given, pair.b);
        if a == b {
            return Ok(());
        }
        if self.depth(a) <= self.depth(b) {
            self.merge(given, b, a)
        } else {
            self.merge(given, a, b)
        }
    }

    // Two nodes that are to be merged are taken from the rest.
    fn next_pair(&mut self, given: Given<'_>) -> Option<Pair>
        requires { AreSound given self.old }
        ensures sound { AreSound given.entry self.new }
        ensures pair { IfSome result (IsPairSound given.entry (entries_of self.new.list.items)) }
    {
        let pair = self.pairs.pop()?;
        Some(pair)
    }

    /// All nodes are merged that are to be. More steps than a `u32` counts are taken for want of memory.
    pub fn join_all(&mut self, given: Given<'_>) -> Result<(), NoMemory>
        requires { AreSound given self.old }
        ensures { AreSound given.entry self.new }
    {
        for _ in 0..u32::MAX {
            let Some(pair) = self.next_pair(given) else {
                return Ok(());
            };
            self.join(given, pair)?;
        }
        Err(NoMemory)
    }

    // A node is merged into the live one at once.
    fn flatten_at(&mut self, given: Given<'_>, n: u32)
        requires { AreSound given self.old }
        ensures { AreSound given.entry self.new }
    {
        if n < self.size() {
            let to = self.live(given, n);
            self.raise(given, n, to);
        }
    }

    /// Each node is merged into the live one at once.
    pub fn flatten(&mut self, given: Given<'_>)
        requires { AreSound given self.old }
        ensures { AreSound given.entry self.new }
    {
        for n in 0..self.size() {
            self.flatten_at(given, n);
        }
    }
}
