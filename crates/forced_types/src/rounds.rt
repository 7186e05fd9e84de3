//! Rounds over all nodes, which add what types say.

ghost use Rattle.std.specs.Prelude.{◌≡◌, ℕ, ◌<◌, length};
ghost use Rattle.forced_types.specs.Inner.Sound.{AreSound};

use crate::given::Given;
use crate::nodes::Nodes;
use crate::putting::longer;
use crate::steps::common;
use fs_closing::NoMemory;
use std::alloc::Global;
use type_hierarchy::Ty;

impl Nodes {
    // The introducer of an arc's feature is a type of its node.
    fn introduce(&mut self, given: Given<'_>, n: u32, i: usize) -> Result<(), NoMemory>
        requires { AreSound given self.old }
        ensures { AreSound given.entry self.new }
    {
        let Some(arc) = self.arc_at(given, n, i) else {
            return Ok(());
        };
        self.add_type(given, n, given.system.introducer(arc.feat.0))
    }

    // What is above one of two or more types of a node is a type of it.
    fn spread(&mut self, given: Given<'_>, n: u32, i: usize, above: u32) -> Result<(), NoMemory>
        requires { AreSound given self.old }
        ensures { AreSound given.entry self.new }
    {
        let Some(ty) = self.type_at(given, n, i) else {
            return Ok(());
        };
        if above >= given.system.types().counts().all {
            return Ok(());
        }
        if !given.system.types().at_or_below(Ty(ty), Ty(above)) || self.types(n).contains(&above) {
            return Ok(());
        }
        self.put_beside(given, n, above)
    }

    // The common type of two types of a node is a type of it.
    fn meet(&mut self, given: Given<'_>, n: u32, i: usize, j: usize) -> Result<(), NoMemory>
        requires { AreSound given self.old }
        ensures { AreSound given.entry self.new }
    {
        let Some(first) = self.type_at(given, n, i) else {
            return Ok(());
        };
        let Some(second) = self.type_at(given, n, j) else {
            return Ok(());
        };
        let Some(both) = common(given, first, second) else {
            return Ok(());
        };
        if self.types(n).contains(&both) {
            return Ok(());
        }
        self.put_beside(given, n, both)
    }

    // A fact of a rule is put at a node, if the node is at or below the rule's type.
    fn apply(
        &mut self,
        alloc: Global,
        given: Given<'_>,
        n: u32,
        rule: u32,
        k: usize,
    ) -> Result<(), NoMemory>
        requires { AreSound given self.old }
        ensures { AreSound given.entry self.new }
    {
        if n >= self.size() || rule >= given.system.rule_count() {
            return Ok(());
        }
        let facts = given.system.facts(rule);
        if k >= facts.len() || !self.covers(given, n, given.system.rule_type(rule)) {
            return Ok(());
        }
        self.put(alloc, given, n, &facts[k])
    }

    // A node at the end of an arc gets a path that is not more than one feature longer.
    fn shorten(&mut self, alloc: Global, given: Given<'_>, n: u32, i: usize) -> Result<(), NoMemory>
        requires { AreSound given self.old }
        ensures { AreSound given.entry self.new }
    {
        let Some(arc) = self.arc_at(given, n, i) else {
            return Ok(());
        };
        let end = self.live(given, arc.to.0);
        if self.depth(end).saturating_sub(self.depth(n)) <= 1 {
            return Ok(());
        }
        let path = longer(alloc, self.path(n), arc.feat)?;
        let near = self.add_node(alloc, given, path, None)?;
        self.add_pair(given, near, arc.to.0)
    }

    // The introducers of all arcs of a node.
    fn introduce_all(&mut self, given: Given<'_>, n: u32) -> Result<(), NoMemory>
        requires { AreSound given self.old }
        ensures { AreSound given.entry self.new }
    {
        for i in 0..self.arc_count(given, n) {
            self.introduce(given, n, i)?;
        }
        Ok(())
    }

    // What is immediately above a type.
    fn spread_type(
        &mut self,
        alloc: Global,
        given: Given<'_>,
        n: u32,
        i: usize,
    ) -> Result<(), NoMemory>
        requires { AreSound given self.old }
        ensures { AreSound given.entry self.new }
    {
        let Some(ty) = self.type_at(given, n, i) else {
            return Ok(());
        };
        let Ok(above) = given.system.types().supertypes(alloc, Ty(ty)) else {
            return Err(NoMemory);
        };
        for higher in &above {
            self.spread(given, n, i, higher.0)?;
        }
        Ok(())
    }

    // The common types of a type and those before it.
    fn meet_type(&mut self, given: Given<'_>, n: u32, i: usize) -> Result<(), NoMemory>
        requires { AreSound given self.old }
        ensures { AreSound given.entry self.new }
    {
        for j in 0..i {
            self.meet(given, n, i, j)?;
        }
        Ok(())
    }

    // Where a node has two or more types, what is above them and their common types.
    fn close_types(&mut self, alloc: Global, given: Given<'_>, n: u32) -> Result<(), NoMemory>
        requires { AreSound given self.old }
        ensures { AreSound given.entry self.new }
    {
        for i in 0..usize::MAX {
            let count = self.type_count(given, n);
            if count <= 1 || i >= count {
                return Ok(());
            }
            self.spread_type(alloc, given, n, i)?;
            self.meet_type(given, n, i)?;
        }
        Err(NoMemory)
    }

    // All facts of a rule.
    fn apply_rule(
        &mut self,
        alloc: Global,
        given: Given<'_>,
        n: u32,
        rule: u32,
    ) -> Result<(), NoMemory>
        requires { AreSound given self.old }
        ensures { AreSound given.entry self.new }
    {
        if rule >= given.system.rule_count() {
            return Ok(());
        }
        for k in 0..given.system.facts(rule).len() {
            self.apply(alloc, given, n, rule, k)?;
        }
        Ok(())
    }

    // The facts of a type of a node and of what is above it.
    fn apply_type(
        &mut self,
        alloc: Global,
        given: Given<'_>,
        n: u32,
        i: usize,
    ) -> Result<(), NoMemory>
        requires { AreSound given self.old }
        ensures { AreSound given.entry self.new }
    {
        let Some(ty) = self.type_at(given, n, i) else {
            return Ok(());
        };
        for rule in given.system.rules_above(ty) {
            self.apply_rule(alloc, given, n, *rule)?;
        }
        Ok(())
    }

    // The facts of all types of a node.
    fn apply_all(&mut self, alloc: Global, given: Given<'_>, n: u32) -> Result<(), NoMemory>
        requires { AreSound given self.old }
        ensures { AreSound given.entry self.new }
    {
        for i in 0..self.type_count(given, n) {
            self.apply_type(alloc, given, n, i)?;
        }
        Ok(())
    }

    // The paths of the ends of all arcs of a node.
    fn shorten_all(&mut self, alloc: Global, given: Given<'_>, n: u32) -> Result<(), NoMemory>
        requires { AreSound given self.old }
        ensures { AreSound given.entry self.new }
    {
        for i in 0..self.arc_count(given, n) {
            self.shorten(alloc, given, n, i)?;
        }
        Ok(())
    }

    // All that a node lacks.
    fn visit(&mut self, alloc: Global, given: Given<'_>, n: u32) -> Result<(), NoMemory>
        requires { AreSound given self.old }
        ensures { AreSound given.entry self.new }
    {
        if !self.is_live(given, n) {
            return Ok(());
        }
        self.introduce_all(given, n)?;
        self.close_types(alloc, given, n)?;
        self.apply_all(alloc, given, n)?;
        self.shorten_all(alloc, given, n)?;
        self.join_all(given)
    }

    /// All that all nodes lack, until there are more nodes than `most`. What that brings about is left for another round.
    pub fn round(&mut self, alloc: Global, given: Given<'_>, most: u32) -> Result<(), NoMemory>
        requires { AreSound given self.old }
        ensures { AreSound given.entry self.new }
    {
        for n in 0..self.size() {
            if self.size() > most {
                break;
            }
            self.visit(alloc, given, n)?;
        }
        self.flatten(given);
        Ok(())
    }
}
