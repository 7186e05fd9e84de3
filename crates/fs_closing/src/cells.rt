//! Arcs that were added to nodes.

ghost use Rattle.std.specs.Prelude.{◌≡◌, ◌<◌, ◌≤◌, ◌+◌, ◌-◌, ◌++◌, ◌∷◌, ◌^◌, [], length, OnOk, slice_index_or};
ghost use Rattle.fs_closing.specs.Cells.{chain, find_arc, no_cell, PlacesFall};
ghost use Rattle.fs_closing.specs.Inner.Indexes.{Leads};

use crate::NoMemory;
use crate::index::{self, Index};
use std::alloc::Global;
use std::marker::Model;

/// An arc, with the place of its node's next one: 0 for none, and k + 1 for cell k.
#[derive(Clone, Copy, Debug)]
pub struct Cell {
    pub feat: u32,
    pub to: u32,
    pub next: u32,
}

/// Where an arc leads, or the place from which on it is still to be sought.
#[derive(Clone, Copy, Debug)]
pub enum Sought {
    Found(u32),
    From(u32),
}

/// Up to so many arcs of a node are looked through one by one.
const FEW: u32 = 16;

/// The cells of all nodes. Those of a node with many are found by an index too, which is made once a node has as many: until
/// then `index` is empty, and never has more than one.
#[derive(Debug, Drop)]
pub struct Cells {
    cells: Vec<Cell>,
    index: Vec<Index>,
}

impl Model for Cells {
    ghost use Rattle.std.specs.Prelude.{List};
    ghost use Rattle.fs_closing.specs.declared.cells.Cell.{Cell as Entry};
    ghost use Rattle.fs_closing.specs.Inner.Indexes.{HaveIndex};

    ghost Value = { List Entry };

    ghost view = { λ c. c.cells.items };

    ghost invariant = { λ c. HaveIndex c.cells.items c.index.items };
}

// Looks through the arcs from a place on, up to so many as are few.
fn look_few(cells: &[Cell], first: u32, feat: u32) -> Sought
    requires place { first ≤ length cells.now }
    requires falls { PlacesFall cells.now }
    ensures { Leads cells.now first feat result }
{
    let mut place = first;
    let mut left = FEW;
    while left != 0 {
        if place == 0 {
            return Sought::From(0);
        }
        let cell = cells[place as usize - 1];
        if cell.feat == feat {
            return Sought::Found(cell.to);
        }
        place = cell.next;
        left -= 1;
    }
    Sought::From(place)
}

// Looks through all arcs from a place on.
fn look_through(cells: &[Cell], first: u32, feat: u32) -> Option<u32>
    requires place { first ≤ length cells.now }
    requires falls { PlacesFall cells.now }
    ensures { result ≡ find_arc (chain cells.now first) feat }
{
    let mut place = first;
    while place != 0 {
        let cell = cells[place as usize - 1];
        if cell.feat == feat {
            return Some(cell.to);
        }
        place = cell.next;
    }
    None
}

// Whether there are more arcs from a place on than are few.
fn are_many(cells: &[Cell], first: u32) -> bool
    requires place { first ≤ length cells.now }
    requires falls { PlacesFall cells.now }
{
    let mut place = first;
    for _ in 0..FEW {
        if place == 0 {
            return false;
        }
        place = cells[place as usize - 1].next;
    }
    place != 0
}

impl Cells {
    /// No cells, and no memory.
    pub fn new(alloc: Global) -> Cells
        ensures { result ≡ [] }
    {
        Cells {
            cells: Vec::new(alloc),
            index: Vec::new(alloc),
        }
    }

    /// How many cells there are.
    pub fn len(&self) -> usize
        ensures { result ≡ length self.now }
    {
        self.cells.len()
    }

    /// The cell at a place.
    pub fn at(&self, place: u32) -> Cell
        requires some { 0 < place }
        requires within { place ≤ length self.now }
        ensures { result ≡ slice_index_or self.now (place - 1) no_cell }
    {
        self.cells[place as usize - 1]
    }

    /// Where an arc leads, of those from a place on. They are those of a node: on its number the answer doesn't depend, but what
    /// it costs does.
    pub fn find(&self, n: u32, first: u32, feat: u32) -> Option<u32>
        requires place { first ≤ length self.now }
        requires falls { PlacesFall self.now }
        ensures { result ≡ find_arc (chain self.now first) feat }
    {
        if index::is_empty(&self.index) {
            return look_through(&self.cells, first, feat);
        }
        self.find_among_many(n, first, feat)
    }

    // The same, where some node has many arcs. It stands apart, so that other look-ups stay short.
    #[inline(never)]
    fn find_among_many(&self, n: u32, first: u32, feat: u32) -> Option<u32>
        requires place { first ≤ length self.now }
        requires falls { PlacesFall self.now }
        ensures { result ≡ find_arc (chain self.now first) feat }
    {
        match look_few(&self.cells, first, feat) {
            Sought::Found(to) => Some(to),
            Sought::From(0) => None,
            Sought::From(_) => match index::seek(&self.index, n, first, feat) {
                Sought::Found(to) => Some(to),
                Sought::From(rest) => look_through(&self.cells, rest, feat),
            },
        }
    }

    /// Adds a cell, which is to be a node's first one. On the node's number what stands here doesn't depend.
    pub fn push(&mut self, n: u32, cell: Cell) -> Result<(), NoMemory>
        requires next { cell.next ≤ length self.old }
        requires falls { PlacesFall self.old }
        requires small { length self.old + 1 < 2 ^ 32 }
        ensures { OnOk result (self.new ≡ self.old ++ cell ∷ []) }
    {
        let place = self.cells.len() as u32 + 1;
        let many = cell.next > FEW && are_many(&self.cells, cell.next);
        self.cells.push(cell)?;
        if many {
            let alloc = *self.cells.allocator();
            index::extend(&mut self.index, alloc, n, cell, place)?;
        }
        Ok(())
    }

    /// Drops all cells, and keeps their memory.
    pub fn clear(&mut self)
        ensures { self.new ≡ [] }
    {
        self.cells.clear();
        index::clear(&mut self.index);
    }
}
