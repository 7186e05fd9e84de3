//! Graphs that are read where they stand.

ghost use Rattle.std.specs.Prelude.{◌≡◌, ℕ, ◌<◌, ◌≤◌, ◌^◌, length, [], ◌∷◌, ◌++◌, OnOk, None, Some, option_map, slice_index_or};
ghost use Rattle.fs_model.specs.Claims.{Has};
ghost use Rattle.fs_graph.specs.GraphMap.{arc_to};
ghost use Rattle.fs_closing.specs.declared.cells.Cell.{Cell as CellValue};
ghost use Rattle.fs_closing.specs.declared.parts.Based.{Based as BasedValue};
ghost use Rattle.fs_closing.specs.Cells.{find_arc};
ghost use Rattle.fs_closing.specs.Marked.{stands_by};
ghost use Rattle.fs_closing.specs.Beside.{cells_from, holds, home, depth_from, depth_in, row_in, type_in, ArePlaced};

use crate::NoMemory;
use crate::cells::Cell;
use crate::marks::Written;
use fs_graph::{Graph, GraphArc, Node};
use std::alloc::Global;
use std::marker::Model;

/// A graph whose nodes have the numbers from `base` on. Some path to its root has `depth` features at least, and some path to each
/// other node has `further`.
#[derive(Clone, Copy)]
pub struct Based<'a> {
    pub graph: &'a Graph,
    pub base: u32,
    pub depth: u32,
    pub further: u32,
}

/// Graphs beside one another. Each node's graph is found at once: `homes` has the place behind it, and 0 for a node of none.
#[derive(Drop)]
pub struct Beside<'a> {
    parts: Vec<Based<'a>>,
    homes: Vec<u32>,
}

impl<'a> Model for Beside<'a> {
    ghost use Rattle.std.specs.Prelude.{List};
    ghost use Rattle.fs_closing.specs.declared.parts.Based.{Based as Value_};
    ghost use Rattle.fs_closing.specs.Inner.Homes.{HaveHomes};

    ghost Value = { List Value_ };

    ghost view = { λ b. b.parts.items };

    ghost invariant = { λ b. HaveHomes b.parts.items b.homes.items };
}

impl<'a> Beside<'a> {
    /// No graphs. The memory of other homes is used.
    pub fn new(alloc: Global, homes: Vec<u32>) -> Beside<'a>
        ensures { result ≡ [] }
    {
        let mut homes = homes;
        homes.clear();
        Beside {
            parts: Vec::new(alloc),
            homes,
        }
    }

    /// The memory of the homes.
    pub fn homes(self) -> Vec<u32> {
        self.homes
    }

    /// Drops all graphs.
    pub fn clear(&mut self)
        ensures { self.new ≡ [] }
    {
        self.parts.clear();
        self.homes.clear();
    }

    /// One graph more, whose nodes come after all others'.
    pub fn add(&mut self, part: Based<'a>) -> Result<(), NoMemory>
        requires { ArePlaced self.old part.base }
        ensures { OnOk result (self.new ≡ self.old ++ part.entry ∷ []) }
    {
        let begin = part.base as usize;
        let end = begin + part.graph.nodes() as usize;
        let Ok(place) = u32::try_from(self.parts.len() + 1) else {
            return Err(NoMemory);
        };
        self.parts.reserve(1)?;
        self.homes.resize(begin, 0)?;
        self.homes.resize(end, place)?;
        self.parts.push_reserved(part);
        Ok(())
    }
}

// The graph of a node.
#[inline]
fn home<'b, 'a>(beside: &'b Beside<'a>, n: u32) -> Option<&'b Based<'a>>
    ensures { option_map (λ p. p.now) result ≡ home n beside.now }
{
    let at = n as usize;
    if at >= beside.homes.len() {
        return None;
    }
    let behind = beside.homes[at];
    if behind == 0 {
        return None;
    }
    Some(&beside.parts[behind as usize - 1])
}

/// The type that a node has from its graph, and the top type for a node of none.
pub fn own_type(beside: &Beside<'_>, n: u32) -> u32
    ensures { result ≡ type_in beside.now n }
{
    match home(beside, n) {
        Some(part) => part.graph.ty(Node(n - part.base)).0,
        None => 0,
    }
}

// A number of features that some path to a node of a graph has at least.
fn depth_at(part: &Based<'_>, n: u32) -> u32
    ensures { result ≡ depth_from n (Some part.now) }
{
    if n == part.base {
        return part.depth;
    }
    part.further
}

/// A number of features that some path to a node has at least, as its graph has it; none for a node of no graph.
pub fn own_depth(beside: &Beside<'_>, n: u32) -> u32
    ensures { result ≡ depth_in beside.now n }
{
    match home(beside, n) {
        Some(part) => depth_at(part, n),
        None => 0,
    }
}

/// What stands at a node at which nothing is written: itself, with its type and depth from its graph.
pub fn own_written(beside: &Beside<'_>, n: u32) -> Written
    ensures { result ≡ stands_by (type_in beside.now n) (depth_in beside.now n) n None }
{
    match home(beside, n) {
        Some(part) => Written {
            forward: n,
            ty: part.graph.ty(Node(n - part.base)).0,
            first: 0,
            depth: depth_at(part, n),
        },
        None => Written {
            forward: n,
            ty: 0,
            first: 0,
            depth: 0,
        },
    }
}

/// How many arcs a node has from its graph.
pub fn own_count(beside: &Beside<'_>, n: u32) -> usize
    ensures { result ≡ length (row_in beside.now n) }
{
    match home(beside, n) {
        Some(part) => part.graph.arcs(Node(n - part.base)).len(),
        None => 0,
    }
}

/// Arcs that a node has from its graph, by rising feature. Their ends are numbered from `base` on.
#[derive(Clone, Copy)]
pub struct OwnArcs<'a> {
    pub base: u32,
    pub arcs: &'a [GraphArc],
}

/// The arcs that a node has from its graph, which is looked for once for all of them; none for a node of no graph.
pub fn own_arcs<'a>(beside: &Beside<'a>, n: u32) -> OwnArcs<'a>
    ensures { cells_from result.base result.arcs.now ≡ row_in beside.now n }
{
    match home(beside, n) {
        Some(part) => OwnArcs {
            base: part.base,
            arcs: part.graph.arcs(Node(n - part.base)),
        },
        None => OwnArcs { base: 0, arcs: &[] },
    }
}

/// An arc that a node has from its graph, whose nodes have the numbers from `base` on.
pub fn own_cell(base: u32, arcs: &[GraphArc], i: usize) -> Cell
    requires place { i < length arcs.now }
    requires small { (c : CellValue) → Has c (cells_from base arcs.now) → c.to < 2 ^ 32 }
    ensures { (d : CellValue) → result ≡ slice_index_or (cells_from base arcs.now) i d }
{
    let arc = arcs[i];
    Cell {
        feat: arc.feat.0,
        to: base + arc.to.0,
        next: 0,
    }
}

// Where an arc leads, of a row.
fn find_in(arcs: &[GraphArc], feat: u32) -> Option<u32>
    ensures { result ≡ arc_to arcs.now feat }
{
    arcs.iter()
        .find(|arc| arc.feat.0 == feat)
        .map(|arc| arc.to.0)
}

/// Where an arc leads that a node has from its graph.
pub fn own_arc(beside: &Beside<'_>, n: u32, feat: u32) -> Option<u32>
    requires small { (c : CellValue) → Has c (row_in beside.now n) → c.to < 2 ^ 32 }
    ensures { result ≡ find_arc (row_in beside.now n) feat }
{
    let part = home(beside, n)?;
    let to = find_in(part.graph.arcs(Node(n - part.base)), feat)?;
    Some(part.base + to)
}
