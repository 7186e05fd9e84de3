//! The nodes that are variables, with their numbers.

ghost use Rattle.std.specs.Prelude.{◌≡◌, ◌<◌, ◌==◌, [], All, IfOk, OnOk, MatchOption, false};
ghost use Rattle.std.specs.List.{list_any};
ghost use Rattle.mrs_extract.specs.Extraction.{Is, noted};
ghost use Rattle.mrs_extract.specs.Inner.Made.{NumberTree};

use fs_graph::Node;
use mrs_places::NoMemory;
use std::alloc::Global;
use std::marker::Model;

/// The nodes that are variables, in order of first occurrence. A node's number is its place in that order, and stands at the node's
/// slot; a slot is right where the node stands at that place, so slots needn't be cleared.
#[derive(Debug, Drop)]
pub(crate) struct Numbers {
    nodes: Vec<u32>,
    slots: Vec<u32>,
}

impl Model for Numbers {
    ghost use Rattle.mrs_extract.specs.Inner.Made.{NumberTree, AreSlots};
    ghost use Rattle.std.specs.Prelude.{length};

    ghost Value = { NumberTree };

    ghost view = { λ s. record { nodes = s.nodes.items; size = length s.slots.items } };

    ghost invariant = { λ s. AreSlots s.nodes.items s.slots.items };
}

impl Numbers {
    /// None of so many nodes.
    pub(crate) fn new(alloc: Global, size: u32) -> Result<Numbers, NoMemory>
        ensures { IfOk result (λ s. s ≡ record { nodes = []; size = size }) }
    {
        Ok(Numbers {
            nodes: Vec::new(alloc),
            slots: vec![in alloc; 0; size as usize]?,
        })
    }

    /// The nodes, in order of their numbers.
    pub(crate) fn nodes(&self) -> &[u32]
        ensures nodes { result.now ≡ self.now.nodes }
        ensures inside { All (λ n. n < self.now.size) self.now.nodes }
    {
        &self.nodes
    }

    // The number of a node that has one.
    fn find(&self, n: u32) -> Option<u32>
        requires { n < self.now.size }
        ensures { MatchOption result (list_any (λ m. m == n) self.now.nodes ≡ false) (λ v. Is self.now.nodes n v) }
    {
        let at = self.slots[n as usize];
        let place = at as usize;
        let count = self.nodes.len();
        if place >= count {
            return None;
        }
        let known = self.nodes[place];
        if known == n { Some(at) } else { None }
    }

    /// The number of a node, which is new where it had none.
    pub(crate) fn number(&mut self, n: Node) -> Result<u32, NoMemory>
        requires { n.0 < self.old.size }
        ensures size { self.new.size ≡ self.old.size }
        ensures noted { OnOk result (self.new.nodes ≡ noted self.old.nodes n.0) }
        ensures is { IfOk result (λ v. Is self.new.nodes n.0 v) }
    {
        if let Some(known) = self.find(n.0) {
            return Ok(known);
        }
        let Ok(at) = u32::try_from(self.nodes.len()) else {
            return Err(NoMemory);
        };
        self.nodes.push(n.0)?;
        self.slots[n.0 as usize] = at;
        Ok(at)
    }
}
