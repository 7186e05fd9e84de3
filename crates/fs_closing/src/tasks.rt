//! What is left to do in a closing.

ghost use Rattle.std.specs.Prelude.{◌≡◌, ℕ, ◌+◌, ◌<◌, ◌≤◌, List, [], ◌∷◌, ◌++◌, length, OnOk};
ghost use Rattle.fs_model.specs.Table.{is_same, is_under};
ghost use Rattle.fs_closing.specs.Rules.{Rule};
ghost use Rattle.fs_closing.specs.Work.{work_of, entry_claims, AreReady};
ghost use Rattle.fs_closing.specs.Joined.{IsJoined};

use crate::NoMemory;
use std::alloc::Global;

/// Two nodes that are to be one.
#[derive(Clone, Copy, Debug)]
pub struct Pair {
    pub node: u32,
    pub other: u32,
}

/// A type that a node is to be at or below.
#[derive(Clone, Copy, Debug)]
pub struct Bound {
    pub node: u32,
    pub ty: u32,
}

/// The facts of a rule, from a place on, that are to hold at a node.
#[derive(Clone, Copy, Debug)]
pub struct Entry {
    pub node: u32,
    pub rule: u32,
    pub from: u32,
}

/// Tasks by kind. Pairs are taken first, then bounds, then entries, which alone make nodes.
#[derive(Debug, Drop)]
pub struct Tasks {
    pub pairs: Vec<Pair>,
    pub bounds: Vec<Bound>,
    pub entries: Vec<Entry>,
}

impl Tasks {
    ghost use Rattle.fs_closing.specs.Work.{work_of, entry_claims, AreReady, TakesPair, TakesBound, TakesEntry};

    /// No tasks, and no memory.
    pub fn new(alloc: Global) -> Tasks {
        Tasks {
            pairs: Vec::new(alloc),
            bounds: Vec::new(alloc),
            entries: Vec::new(alloc),
        }
    }

    /// Drops all tasks, and keeps their memory.
    pub fn clear(&mut self)
        ensures none { (rules : List Rule) → work_of rules self.new ≡ [] }
        ensures ready { (size types rules : ℕ) → AreReady size types rules self.new }
    {
        self.pairs.clear();
        self.bounds.clear();
        self.entries.clear();
    }

    /// Two nodes are to be one.
    pub fn push_pair(&mut self, node: u32, other: u32) -> Result<(), NoMemory>
        ensures work { OnOk result ((rules : List Rule) → IsJoined (is_same node [] other [] ∷ []) (work_of rules self.old) (work_of rules self.new)) }
        ensures ready { OnOk result ((size types rules : ℕ) → node < size → other < size → AreReady size types rules self.old → AreReady size types rules self.new) }
    {
        self.pairs.push(Pair { node, other })?;
        Ok(())
    }

    /// A node is to be at or below a type.
    pub fn push_bound(&mut self, node: u32, ty: u32) -> Result<(), NoMemory>
        ensures work { OnOk result ((rules : List Rule) → IsJoined (is_under node [] ty ∷ []) (work_of rules self.old) (work_of rules self.new)) }
        ensures ready { OnOk result ((size types rules : ℕ) → node < size → ty < types → AreReady size types rules self.old → AreReady size types rules self.new) }
    {
        self.bounds.push(Bound { node, ty })?;
        Ok(())
    }

    /// The facts of a rule are to hold at a node, from a place on.
    pub fn push_entry(&mut self, node: u32, rule: u32, from: u32) -> Result<(), NoMemory>
        ensures work { OnOk result ((rules : List Rule) → IsJoined (entry_claims rules (record { node = node; rule = rule; from = from })) (work_of rules self.old) (work_of rules self.new)) }
        ensures ready { OnOk result ((size types rules : ℕ) → node < size → rule < rules → AreReady size types rules self.old → AreReady size types rules self.new) }
    {
        self.entries.push(Entry { node, rule, from })?;
        Ok(())
    }

    /// The last pair, if any.
    pub fn pop_pair(&mut self) -> Option<Pair>
        ensures { TakesPair self.old self.new result }
    {
        self.pairs.pop()
    }

    /// The last bound, if any.
    pub fn pop_bound(&mut self) -> Option<Bound>
        ensures { TakesBound self.old self.new result }
    {
        self.bounds.pop()
    }

    /// The last entry, if any.
    pub fn pop_entry(&mut self) -> Option<Entry>
        ensures { TakesEntry self.old self.new result }
    {
        self.entries.pop()
    }
}
