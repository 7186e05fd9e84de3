//! Where the arcs of nodes with many of them lead.

ghost use Rattle.std.specs.Prelude.{◌≡◌, ◌≤◌, ◌+◌, ◌++◌, ◌∷◌, ◌<◌, [], List, length, OnOk};
ghost use Rattle.fs_closing.specs.declared.cells.Cell.{Cell as CellValue};
ghost use Rattle.fs_closing.specs.Inner.Indexes.{IsIndex, HaveIndex, Leads};

use crate::NoMemory;
use crate::cells::{Cell, Sought};
use std::alloc::Global;
use std::collections::HashMap;

/// What the index has of a node: its arcs from the place `first` on, but for those from `rest` on.
#[derive(Clone, Copy, Debug)]
pub struct Part {
    pub first: u32,
    pub rest: u32,
}

/// Where arcs lead, by node and feature, and which arcs of a node these are.
#[derive(Debug, Drop)]
pub struct Index {
    pub arcs: HashMap<(u32, u32), u32>,
    pub parts: HashMap<u32, Part>,
}

impl Index {
    ghost use Rattle.fs_closing.specs.Inner.Indexes.{IsIndex};

    /// An index of no arcs, without memory.
    pub fn new(alloc: Global) -> Index
        ensures { (cells : List CellValue) → IsIndex cells result }
    {
        Index {
            arcs: HashMap::new(alloc),
            parts: HashMap::new(alloc),
        }
    }

    /// Drops all arcs. It costs nothing where there are none.
    pub fn clear(&mut self)
        ensures { (cells later : List CellValue) → IsIndex cells self.old → IsIndex later self.new }
    {
        if self.parts.is_empty() {
            return;
        }
        self.arcs.clear();
        self.parts.clear();
    }
}

// The arcs of a node begin to be in the index: none yet, and those from a place on are left out.
fn begin(index: &mut Index, n: u32, first: u32) -> Result<(), NoMemory>
    ensures { (cells : List CellValue) → first ≤ length cells → IsIndex cells index.old → IsIndex cells index.new }
{
    if index.parts.contains_key(&n) {
        return Ok(());
    }
    index.parts.insert(n, Part { first, rest: first })?;
    Ok(())
}

// A new arc of a node gets into the index, if the one before it is the last that did.
fn enter(index: &mut Index, n: u32, cell: Cell, place: u32) -> Result<(), NoMemory>
    ensures { (cells : List CellValue) → place ≡ length cells + 1 → IsIndex cells index.old → IsIndex (cells ++ cell ∷ []) index.new }
{
    let Some(part) = index.parts.get(&n).copied() else {
        return Ok(());
    };
    if part.first != cell.next {
        return Ok(());
    }
    index.arcs.insert((n, cell.feat), cell.to)?;
    let longer = Part {
        first: place,
        rest: part.rest,
    };
    index.parts.insert(n, longer)?;
    Ok(())
}

// A new arc of a node with many gets into an index.
fn extend_in(index: &mut Index, n: u32, cell: Cell, place: u32) -> Result<(), NoMemory>
    ensures { (cells : List CellValue) → cell.next ≤ length cells → place ≡ length cells + 1 → IsIndex cells index.old → IsIndex (cells ++ cell ∷ []) index.new }
{
    begin(index, n, cell.next)?;
    enter(index, n, cell, place)?;
    Ok(())
}

// Where an arc of a node leads, of those from a place on, or the place from which on it is to be sought.
fn seek_in(index: &Index, n: u32, first: u32, feat: u32) -> Sought
    ensures { (cells : List CellValue) → first ≤ length cells → IsIndex cells index.now → Leads cells first feat result }
{
    let Some(part) = index.parts.get(&n).copied() else {
        return Sought::From(first);
    };
    if part.first != first {
        return Sought::From(first);
    }
    match index.arcs.get(&(n, feat)).copied() {
        Some(to) => Sought::Found(to),
        None => Sought::From(part.rest),
    }
}

/// Whether no node has many arcs.
pub fn is_empty(indexes: &[Index]) -> bool {
    if indexes.is_empty() {
        return true;
    }
    indexes[0].parts.is_empty()
}

// Makes the index, if it isn't there.
fn make(indexes: &mut Vec<Index>, alloc: Global) -> Result<(), NoMemory>
    ensures there { OnOk result (0 < length indexes.new.items) }
    ensures index { (cells : List CellValue) → HaveIndex cells indexes.old.items → HaveIndex cells indexes.new.items }
{
    if !indexes.is_empty() {
        return Ok(());
    }
    let index = Index::new(alloc);
    indexes.push(index)?;
    Ok(())
}

/// A new arc of a node with many gets into the index, which is made for the first one.
#[inline(never)]
pub fn extend(
    indexes: &mut Vec<Index>,
    alloc: Global,
    n: u32,
    cell: Cell,
    place: u32,
) -> Result<(), NoMemory>
    ensures { (cells : List CellValue) → cell.next ≤ length cells → place ≡ length cells + 1 → HaveIndex cells indexes.old.items → HaveIndex (cells ++ cell ∷ []) indexes.new.items }
{
    make(indexes, alloc)?;
    extend_in(&mut indexes[0], n, cell, place)?;
    Ok(())
}

/// Where an arc of a node leads, of those from a place on, or the place from which on it is to be sought.
pub fn seek(indexes: &[Index], n: u32, first: u32, feat: u32) -> Sought
    ensures { (cells : List CellValue) → first ≤ length cells → HaveIndex cells indexes.now → Leads cells first feat result }
{
    if indexes.is_empty() {
        return Sought::From(first);
    }
    seek_in(&indexes[0], n, first, feat)
}

/// Drops all arcs, and keeps their memory. It costs nothing where there are none.
pub fn clear(indexes: &mut Vec<Index>)
    ensures { (cells later : List CellValue) → HaveIndex cells indexes.old.items → HaveIndex later indexes.new.items }
{
    if indexes.is_empty() {
        return;
    }
    indexes[0].clear();
}
