//! Graphs at paths.

ghost use Rattle.std.specs.Prelude.{◌≡◌, ◌∷◌, ◌++◌, [], IfOk, OnOk, OnErr};
ghost use Rattle.fs_graph.specs.Facts.{path_of};
ghost use Rattle.fs_unify.specs.Owing.{owes_all, owes_nothing, owes_rules};

use crate::NoMemory;
use crate::owed::Owed;
use fs_graph::{Feat, Graph};
use std::alloc::Global;
use std::marker::Model;

/// What a graph is said to owe of what its types and features force.
#[derive(Clone, Copy)]
pub enum Standing<'a> {
    /// All of it.
    Open,
    /// Nothing: it is well-formed.
    Closed,
    /// The facts of some rules, since it was cut out of a well-formed graph.
    Cut(&'a Owed),
}

/// A graph at a path, and what it is said to owe.
#[derive(Drop)]
pub struct Placed<'a> {
    pub place: Vec<Feat>,
    pub graph: &'a Graph,
    pub standing: Standing<'a>,
}

/// Graphs at paths, which are to be unified.
#[derive(Drop)]
pub struct Parts<'a> {
    pub(crate) items: Vec<Placed<'a>>,
}

impl<'a> Model for Parts<'a> {
    ghost use Rattle.std.specs.Prelude.{List, map};
    ghost use Rattle.fs_unify.specs.Placing.{PlacedGraph, placed};

    ghost Value = { List PlacedGraph };

    ghost view = { λ p. map placed p.items.items };
}

impl<'a> Parts<'a> {
    /// No graphs, and no memory.
    pub fn new(alloc: Global) -> Parts<'a>
        ensures { result ≡ [] }
    {
        Parts {
            items: Vec::new(alloc),
        }
    }

    /// One graph more, at a path. `NoMemory` comes only for want of memory; the parts are as before then.
    pub fn add(&mut self, at: Vec<Feat>, graph: &'a Graph) -> Result<(), NoMemory>
        ensures ok { OnOk result (self.new ≡ self.old ++ record { place = path_of at.items; graph = graph.now; owes = owes_all } ∷ []) }
        ensures err { OnErr result (self.new ≡ self.old) }
    {
        let part = Placed {
            place: at,
            graph,
            standing: Standing::Open,
        };
        self.items.push(part)?;
        Ok(())
    }

    /// The same for a graph that is known to be well-formed under the type system that the parts are unified with, as each
    /// answer of a unification is. It costs one number for each node before it is compared.
    pub fn add_closed(&mut self, at: Vec<Feat>, graph: &'a Graph) -> Result<(), NoMemory>
        ensures ok { OnOk result (self.new ≡ self.old ++ record { place = path_of at.items; graph = graph.now; owes = owes_nothing } ∷ []) }
        ensures err { OnErr result (self.new ≡ self.old) }
    {
        let part = Placed {
            place: at,
            graph,
            standing: Standing::Closed,
        };
        self.items.push(part)?;
        Ok(())
    }

    /// The same for a graph that is known to be well-formed under that type system but for facts of these rules, as what a cut
    /// keeps of a well-formed graph is. It costs a look at each node's type, and these facts where they are owed.
    pub fn add_cut(
        &mut self,
        at: Vec<Feat>,
        graph: &'a Graph,
        owed: &'a Owed,
    ) -> Result<(), NoMemory>
        ensures ok { OnOk result (self.new ≡ self.old ++ record { place = path_of at.items; graph = graph.now; owes = owes_rules owed.now } ∷ []) }
        ensures err { OnErr result (self.new ≡ self.old) }
    {
        let part = Placed {
            place: at,
            graph,
            standing: Standing::Cut(owed),
        };
        self.items.push(part)?;
        Ok(())
    }
}
