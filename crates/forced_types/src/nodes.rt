//! Nodes: each stands for a path.

ghost use Rattle.std.specs.Prelude.{◌≡◌, ℕ, ◌<◌, ◌^◌, length, map, OnOk, OnErr, IfOk};
ghost use Rattle.fs_graph.specs.Facts.{path_of};
ghost use Rattle.forced_types.specs.Inner.Entries.{entry_of, entries_of, entry_at, IsTyped, IsArced, IsRaised, Alters, Adds};

use fs_closing::NoMemory;
use fs_graph::{Feat, GraphArc};
use std::alloc::Global;

/// A node of the graph of a part, both by number.
#[derive(Clone, Copy)]
pub struct Image {
    pub part: u32,
    pub node: u32,
}

/// Two nodes whose paths are equal.
#[derive(Clone, Copy)]
pub struct Pair {
    pub a: u32,
    pub b: u32,
}

/// A node: the path that it stands for, the node that it was merged into or itself, types, and arcs. It may be made for a node of
/// a part's graph. One type stands for all types above it too, two or more for themselves.
#[derive(Drop)]
pub struct Node {
    pub path: Vec<Feat>,
    pub up: u32,
    pub types: Vec<u32>,
    pub arcs: Vec<GraphArc>,
    pub image: Option<Image>,
}

/// Nodes by number, and pairs of nodes that are to be merged.
#[derive(Drop)]
pub struct Nodes {
    pub list: Vec<Node>,
    pub pairs: Vec<Pair>,
}

// One type more. Without memory it is left out.
fn add_type(node: &mut Node, ty: u32) -> Result<(), NoMemory>
    ensures { IsTyped (entry_of node.old) (entry_of node.new) ty }
{
    node.types.push(ty)?;
    Ok(())
}

// One type in place of another one.
fn set_type(node: &mut Node, ty: u32)
    ensures { IsTyped (entry_of node.old) (entry_of node.new) ty }
{
    if node.types.len() == 1 {
        node.types[0] = ty;
    }
}

// One arc more. Without memory it is left out.
fn add_arc(node: &mut Node, arc: GraphArc) -> Result<(), NoMemory>
    ensures { IsArced (entry_of node.old) (entry_of node.new) arc }
{
    node.arcs.push(arc)?;
    Ok(())
}

// Another node that the node was merged into.
fn set_up(node: &mut Node, up: u32)
    ensures { IsRaised (entry_of node.old) (entry_of node.new) up }
{
    node.up = up;
}

impl Nodes {
    /// How many nodes there are.
    pub fn size(&self) -> u32
        requires { length self.now.list.items < 2 ^ 32 }
        ensures { result ≡ length self.now.list.items }
    {
        self.list.len() as u32
    }

    /// The path that a node stands for.
    pub fn path(&self, n: u32) -> &[Feat]
        requires { n < length self.now.list.items }
        ensures { path_of result.now ≡ (entry_at (entries_of self.now.list.items) n).path }
    {
        &self.list[n as usize].path
    }

    /// How many features that path has.
    pub fn depth(&self, n: u32) -> usize
        requires { n < length self.now.list.items }
        ensures { result ≡ length (entry_at (entries_of self.now.list.items) n).path }
    {
        self.path(n).len()
    }

    /// The node that a node was merged into.
    pub fn up(&self, n: u32) -> u32
        requires { n < length self.now.list.items }
        ensures { result ≡ (entry_at (entries_of self.now.list.items) n).up }
    {
        self.list[n as usize].up
    }

    /// The types of a node.
    pub fn types(&self, n: u32) -> &[u32]
        requires { n < length self.now.list.items }
        ensures { result.now ≡ (entry_at (entries_of self.now.list.items) n).types }
    {
        &self.list[n as usize].types
    }

    /// The arcs of a node.
    pub fn arcs(&self, n: u32) -> &[GraphArc]
        requires { n < length self.now.list.items }
        ensures { result.now ≡ (entry_at (entries_of self.now.list.items) n).arcs }
    {
        &self.list[n as usize].arcs
    }

    /// The node of a graph for which a node was made.
    pub fn image(&self, n: u32) -> Option<Image>
        requires { n < length self.now.list.items }
        ensures { result ≡ (entry_at (entries_of self.now.list.items) n).image }
    {
        self.list[n as usize].image
    }

    /// One type more at a node.
    pub fn push_type(&mut self, n: u32, ty: u32) -> Result<(), NoMemory>
        requires { n < length self.old.list.items }
        ensures node { Alters (entries_of self.old.list.items) (entries_of self.new.list.items) n (λ e f. IsTyped e f ty) }
        ensures pairs { self.new.pairs.items ≡ self.old.pairs.items }
    {
        add_type(&mut self.list[n as usize], ty)
    }

    /// One type in place of another one at a node.
    pub fn replace_type(&mut self, n: u32, ty: u32)
        requires { n < length self.old.list.items }
        ensures node { Alters (entries_of self.old.list.items) (entries_of self.new.list.items) n (λ e f. IsTyped e f ty) }
        ensures pairs { self.new.pairs.items ≡ self.old.pairs.items }
    {
        set_type(&mut self.list[n as usize], ty);
    }

    /// One arc more at a node.
    pub fn push_arc(&mut self, n: u32, arc: GraphArc) -> Result<(), NoMemory>
        requires { n < length self.old.list.items }
        ensures node { Alters (entries_of self.old.list.items) (entries_of self.new.list.items) n (λ e f. IsArced e f arc) }
        ensures pairs { self.new.pairs.items ≡ self.old.pairs.items }
    {
        add_arc(&mut self.list[n as usize], arc)
    }

    /// A node was merged into another one.
    pub fn write_up(&mut self, n: u32, up: u32)
        requires { n < length self.old.list.items }
        ensures node { Alters (entries_of self.old.list.items) (entries_of self.new.list.items) n (λ e f. IsRaised e f up) }
        ensures pairs { self.new.pairs.items ≡ self.old.pairs.items }
    {
        set_up(&mut self.list[n as usize], up);
    }

    /// One node more, of the top type, for a path. The answer is its number.
    pub fn push_node(
        &mut self,
        alloc: Global,
        path: Vec<Feat>,
        image: Option<Image>,
    ) -> Result<u32, NoMemory>
        ensures place { IfOk result (λ n. n ≡ length self.old.list.items) }
        ensures small { OnOk result (length self.new.list.items < 2 ^ 32) }
        ensures adds { OnOk result (Adds (entries_of self.old.list.items) (entries_of self.new.list.items) (path_of path.items) image) }
        ensures same { OnErr result (entries_of self.new.list.items ≡ entries_of self.old.list.items) }
        ensures pairs { self.new.pairs.items ≡ self.old.pairs.items }
    {
        let n = self.list.len();
        if n >= u32::MAX as usize {
            return Err(NoMemory);
        }
        let types = vec![in alloc; 0]?;
        self.list.push(Node {
            path,
            up: n as u32,
            types,
            arcs: Vec::new(alloc),
            image,
        })?;
        Ok(n as u32)
    }
}
