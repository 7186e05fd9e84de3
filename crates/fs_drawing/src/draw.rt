//! The graph of closed nodes, without features that are cut off.

ghost use Rattle.std.specs.Prelude.{◌≡◌, ℕ, ◌+◌, ◌<◌, ◌≤◌, ◌++◌, ◌^◌, Bool, [], length, None, Some, IfOk, IfSome, OnOk, option_map, slice_index};
ghost use Rattle.fs_model.specs.Claims.{Has};
ghost use Rattle.fs_graph.specs.Facts.{path_of};
ghost use Rattle.fs_graph.specs.GraphMap.{arc_to, Rises, reader_of};
ghost use Rattle.fs_graph.specs.Visits.{feats_of, targets_of};
ghost use Rattle.fs_closing.specs.Cells.{find_arc};
ghost use Rattle.fs_closing.specs.NodeTable.{table_of, own_row, IsWhole, IsWithin};
ghost use Rattle.fs_closing.specs.Keeps.{deep_of};
ghost use Rattle.fs_closing.specs.NodeSteps.{IsGraphIn};
ghost use Rattle.fs_drawing.specs.Cutting.{is_one_of};
ghost use Rattle.fs_drawing.specs.Drawing.{PutsArc, ended_row, leaves_of, AreNumbered, IsPlaced, MeetsOne, MeetsEnds, AddsLeft, DrawsMet, IsLaidOut, IsPictureIn, Shows, BoundsPaths, Answers, AnswersWithout};

use crate::NoMemory;
use crate::notes::Notes;
use fs_closing::nodes::{Nodes, first_of, live, ty_of};
use fs_closing::parts::{own_arcs, own_cell};
use fs_graph::{Clash, Feat, Graph, GraphArc, Node, Order, graph_of, order_in};
use std::alloc::Global;
use type_hierarchy::Ty;

// So many arcs are few.
const FEW: usize = 16;

// The place of a feature among arcs by rising feature, by halves.
fn place_by_halves(arcs: &[GraphArc], feat: Feat) -> usize
    requires { Rises arcs.now }
    ensures within { result ≤ length arcs.now }
    ensures before { (k : ℕ) → k < result → slice_index (feats_of arcs.now) k < feat.0 }
    ensures found { result < length arcs.now → feat.0 ≤ slice_index (feats_of arcs.now) result }
{
    let mut low = 0;
    let mut high = arcs.len();
    while low < high {
        let middle = low + (high - low) / 2;
        if arcs[middle].feat.0 < feat.0 {
            low = middle + 1;
        } else {
            high = middle;
        }
    }
    low
}

// The place of a feature among arcs by rising feature. Among few it is sought from the end, where it mostly is.
fn place_of(arcs: &[GraphArc], feat: Feat) -> usize
    requires { Rises arcs.now }
    ensures within { result ≤ length arcs.now }
    ensures before { (k : ℕ) → k < result → slice_index (feats_of arcs.now) k < feat.0 }
    ensures found { result < length arcs.now → feat.0 ≤ slice_index (feats_of arcs.now) result }
{
    if arcs.len() > FEW {
        return place_by_halves(arcs, feat);
    }
    let mut place = arcs.len();
    while place > 0 {
        if arcs[place - 1].feat.0 < feat.0 {
            return place;
        }
        place -= 1;
    }
    0
}

// A row gets an arc that it hasn't.
fn put_arc(row: &mut Vec<GraphArc>, feat: Feat, to: Node) -> Result<(), NoMemory>
    requires rises { Rises row.old.items }
    requires new { arc_to row.old.items feat.0 ≡ None }
    ensures { OnOk result (PutsArc feat.0 to.0 row.old.items row.new.items) }
{
    let place = place_of(row, feat);
    row.insert(place, GraphArc { feat, to })?;
    Ok(())
}

// Adds the arcs that a node has from its graph, which stand in order there.
fn draw_own(arcs: &mut Vec<GraphArc>, nodes: &Nodes<'_>, n: u32) -> Result<(), NoMemory>
    requires whole { IsWhole nodes.now }
    requires node { n < nodes.now.size }
    ensures { OnOk result (arcs.new.items ≡ arcs.old.items ++ ended_row (table_of nodes.now).live (own_row nodes.now n)) }
{
    let own = own_arcs(&nodes.parts, n);
    for i in 0..own.arcs.len() {
        let cell = own_cell(own.base, own.arcs, i);
        let to = live(nodes, cell.to);
        arcs.push(GraphArc {
            feat: Feat(cell.feat),
            to: Node(to),
        })?;
    }
    Ok(())
}

// A row with the arcs that a node has from its graph gets those that were added.
fn draw_cells(row: &mut Vec<GraphArc>, nodes: &Nodes<'_>, n: u32) -> Result<(), NoMemory>
    requires whole { IsWhole nodes.now }
    requires node { n < nodes.now.size }
    requires rises { Rises row.old.items }
    requires own { (f : ℕ) → arc_to row.old.items f ≡ option_map (table_of nodes.now).live (find_arc (own_row nodes.now n) f) }
    requires to_in { (k : ℕ) → k < length row.old.items → slice_index (targets_of row.old.items) k < nodes.now.size }
    ensures rises { OnOk result (Rises row.new.items) }
    ensures here { OnOk result ((f : ℕ) → arc_to row.new.items f ≡ option_map (table_of nodes.now).live ((table_of nodes.now).arc n f)) }
    ensures to_in { OnOk result ((k : ℕ) → k < length row.new.items → slice_index (targets_of row.new.items) k < nodes.now.size) }
{
    let mut place = first_of(nodes, n);
    while place != 0 {
        let cell = nodes.cells.at(place);
        let to = live(nodes, cell.to);
        put_arc(row, Feat(cell.feat), Node(to))?;
        place = cell.next;
    }
    Ok(())
}

// An empty row gets the arcs of a node.
fn draw_arcs(row: &mut Vec<GraphArc>, nodes: &Nodes<'_>, n: u32) -> Result<(), NoMemory>
    requires whole { IsWhole nodes.now }
    requires node { n < nodes.now.size }
    requires empty { row.old.items ≡ [] }
    ensures rises { OnOk result (Rises row.new.items) }
    ensures here { OnOk result ((f : ℕ) → arc_to row.new.items f ≡ option_map (table_of nodes.now).live ((table_of nodes.now).arc n f)) }
    ensures to_in { OnOk result ((k : ℕ) → k < length row.new.items → slice_index (targets_of row.new.items) k < nodes.now.size) }
{
    draw_own(row, nodes, n)?;
    draw_cells(row, nodes, n)?;
    Ok(())
}

/// Features that are cut off at the root alone, and features that are cut off wherever they stand. Both lists are looked
/// through from the front, so they are to be short.
#[derive(Clone, Copy)]
pub struct Off<'c> {
    pub at_root: &'c [Feat],
    pub anywhere: &'c [Feat],
}

impl<'c> Off<'c> {
    /// Nothing is cut off.
    pub fn none() -> Off<'c>
        ensures at_root { path_of result.at_root.now ≡ [] }
        ensures anywhere { path_of result.anywhere.now ≡ [] }
    {
        Off {
            at_root: &[],
            anywhere: &[],
        }
    }
}

/// Nodes that were met, in the order in which they were. At each node its place among them is noted, counted from 1 on.
#[derive(Debug, Drop)]
pub struct Met {
    pub numbers: Notes,
    pub nodes: Vec<u32>,
}

/// Closed nodes that the root reaches by arcs that are left, as rows of such arcs, and their order. One is drawn in the memory
/// of another.
#[derive(Debug, Drop)]
pub struct Picture {
    pub met: Met,
    pub types: Vec<Ty>,
    pub starts: Vec<u32>,
    pub arcs: Vec<GraphArc>,
    pub order: Order,
    pub row: Vec<GraphArc>,
}

impl Picture {
    /// A picture of nothing, without memory.
    pub fn new(alloc: Global) -> Picture {
        Picture {
            met: Met {
                numbers: Notes::new(alloc),
                nodes: Vec::new(alloc),
            },
            types: Vec::new(alloc),
            starts: Vec::new(alloc),
            arcs: Vec::new(alloc),
            order: Order::new(alloc),
            row: Vec::new(alloc),
        }
    }
}

/// Whether a feature is one of these, which are few.
pub fn has(feats: &[Feat], feat: Feat) -> bool
    ensures { result ≡ is_one_of (path_of feats.now) feat.0 }
{
    feats.contains(&feat)
}

// Whether an arc with this feature is left, of the root or of another node.
fn is_left(off: Off<'_>, is_root: bool, feat: Feat) -> bool
    ensures { result ≡ leaves_of off.entry is_root feat.0 }
{
    !((is_root && has(off.at_root, feat)) || has(off.anywhere, feat))
}

// The place of a node among those that were met. Where it wasn't, it comes last.
fn place_in(met: &mut Met, n: u32) -> Result<u32, NoMemory>
    requires node { n < length met.old.numbers }
    requires numbered { AreNumbered met.old.numbers met.old.nodes.items }
    ensures place { IfOk result (λ k. IsPlaced met.new.nodes.items k n) }
    ensures meets { OnOk result (MeetsOne n met.old.nodes.items met.new.nodes.items) }
    ensures numbered { OnOk result (AreNumbered met.new.numbers met.new.nodes.items) }
    ensures room { OnOk result (length met.new.numbers ≡ length met.old.numbers) }
{
    let noted = met.numbers.get(n);
    if noted != 0 {
        return Ok(noted - 1);
    }
    let place = met.nodes.len();
    if place >= u32::MAX as usize {
        return Err(NoMemory);
    }
    met.numbers.note(n, place as u32 + 1)?;
    met.nodes.push(n)?;
    Ok(place as u32)
}

// Adds the arcs of a row that are left, to the places of their nodes.
fn push_left(
    met: &mut Met,
    arcs: &mut Vec<GraphArc>,
    row: &[GraphArc],
    off: Off<'_>,
    is_root: bool,
) -> Result<(), NoMemory>
    requires row { (n : ℕ) → Has n (targets_of row.now) → n < length met.old.numbers }
    requires numbered { AreNumbered met.old.numbers met.old.nodes.items }
    ensures arcs { OnOk result (AddsLeft met.new.nodes.items (leaves_of off.entry is_root) row.now arcs.old.items arcs.new.items) }
    ensures meets { OnOk result (MeetsEnds row.now met.old.nodes.items met.new.nodes.items) }
    ensures numbered { OnOk result (AreNumbered met.new.numbers met.new.nodes.items) }
    ensures room { OnOk result (length met.new.numbers ≡ length met.old.numbers) }
{
    for arc in row {
        if !is_left(off, is_root, arc.feat) {
            continue;
        }
        let place = place_in(met, arc.to.0)?;
        arcs.push(GraphArc {
            feat: arc.feat,
            to: Node(place),
        })?;
    }
    Ok(())
}

// The place of the next arc, where a u32 holds it.
fn place(arcs: &Vec<GraphArc>) -> Result<u32, NoMemory>
    ensures { IfOk result (λ n. n ≡ length arcs.now.items) }
{
    u32::try_from(arcs.len()).map_err(|_| NoMemory)
}

// Draws the next node that was met: its type, and its arcs that are left. They are put in order in `row` first.
fn draw_node(picture: &mut Picture, nodes: &Nodes<'_>, off: Off<'_>, k: u32) -> Result<(), NoMemory>
    requires whole { IsWhole nodes.now }
    requires place { k < length picture.old.met.nodes.items }
    requires drawn { DrawsMet (table_of nodes.now) (leaves_of off) k picture.old }
    ensures { OnOk result (DrawsMet (table_of nodes.now) (leaves_of off.entry) (k + 1) picture.new) }
{
    let n = picture.met.nodes[k as usize];
    picture.row.clear();
    draw_arcs(&mut picture.row, nodes, n)?;
    push_left(
        &mut picture.met,
        &mut picture.arcs,
        &picture.row,
        off,
        n == 0,
    )?;
    picture.types.push(Ty(ty_of(nodes, n)))?;
    let end = place(&picture.arcs)?;
    picture.starts.push(end)?;
    Ok(())
}

// Nothing is drawn, whatever was before: the root alone is met.
fn begin(picture: &mut Picture, nodes: &Nodes<'_>) -> Result<(), NoMemory>
    requires whole { IsWhole nodes.now }
    requires filled { 0 < nodes.now.size }
    ensures { OnOk result ((left : Bool → ℕ → Bool) → DrawsMet (table_of nodes.now) left 0 picture.new) }
{
    picture.types.clear();
    picture.starts.clear();
    picture.starts.push(0)?;
    picture.arcs.clear();
    picture.met.nodes.clear();
    picture.met.numbers.clear();
    picture.met.numbers.widen(nodes.size as usize)?;
    place_in(&mut picture.met, 0)?;
    Ok(())
}

// Draws all nodes that are met.
fn draw_met(picture: &mut Picture, nodes: &Nodes<'_>, off: Off<'_>) -> Result<(), NoMemory>
    requires whole { IsWhole nodes.now }
    requires drawn { DrawsMet (table_of nodes.now) (leaves_of off) 0 picture.old }
    ensures all { OnOk result (DrawsMet (table_of nodes.now) (leaves_of off.entry) (length picture.new.met.nodes.items) picture.new) }
    ensures few { OnOk result (length picture.new.met.nodes.items < 2 ^ 32) }
{
    for k in 0..u32::MAX {
        if k as usize >= picture.met.nodes.len() {
            return Ok(());
        }
        draw_node(picture, nodes, off, k)?;
    }
    Err(NoMemory)
}

/// Lays out as rows of arcs the nodes that the root reaches by arcs that are left, whatever was drawn before, and whether or not
/// work is left.
pub fn lay_out(picture: &mut Picture, nodes: &Nodes<'_>, off: Off<'_>) -> Result<(), NoMemory>
    requires whole { IsWhole nodes.now }
    requires filled { 0 < nodes.now.size }
    ensures { OnOk result (IsLaidOut (table_of nodes.now) (leaves_of off.entry) picture.new) }
{
    begin(picture, nodes)?;
    draw_met(picture, nodes, off)?;
    Ok(())
}

/// Draws closed nodes without features that are cut off, whatever was drawn before. The answer is false where a node reaches
/// itself or a path from the root is longer than the limit by what is drawn.
pub fn draw(
    picture: &mut Picture,
    nodes: &Nodes<'_>,
    limit: u32,
    off: Off<'_>,
) -> Result<bool, NoMemory>
    requires whole { IsWhole nodes.now }
    requires filled { 0 < nodes.now.size }
    ensures { IfOk result (Shows nodes.now limit off.entry picture.new) }
{
    lay_out(picture, nodes, off)?;
    match order_in(
        &mut picture.order,
        &picture.types,
        &picture.starts,
        &picture.arcs,
    ) {
        Ok(()) => {
            if picture.order.longest > limit {
                return Ok(false);
            }
            Ok(true)
        }
        Err(Clash::Cycle { node: _ }) => Ok(false),
        Err(Clash::NoMemory) => Err(NoMemory),
    }
}

/// The graph of closed nodes from their picture.
pub fn graph_from(
    alloc: Global,
    nodes: &Nodes<'_>,
    limit: u32,
    off: Off<'_>,
    picture: &Picture,
) -> Result<Graph, NoMemory>
    requires whole { IsWhole nodes.now }
    requires filled { 0 < nodes.now.size }
    requires bounds { BoundsPaths (table_of nodes.now) limit }
    requires picture { IsPictureIn (table_of nodes.now) (leaves_of off) limit picture.now }
    ensures answers { IfOk result (λ g. AnswersWithout (deep_of nodes.now) limit off.entry (Some (reader_of g))) }
    ensures inside { IfOk result (λ g. (types feats : ℕ) → IsWithin types feats nodes.now → IsGraphIn types feats g) }
{
    match graph_of(
        alloc,
        &picture.types,
        &picture.starts,
        &picture.arcs,
        &picture.order,
    ) {
        Ok(graph) => {
            graph.laws();
            Ok(graph)
        }
        Err(_) => Err(NoMemory),
    }
}

/// The graph of closed nodes without features that are cut off, where no path is longer than the limit.
pub fn draw_left(
    alloc: Global,
    picture: &mut Picture,
    nodes: &Nodes<'_>,
    limit: u32,
    off: Off<'_>,
) -> Result<Option<Graph>, NoMemory>
    requires whole { IsWhole nodes.now }
    requires filled { 0 < nodes.now.size }
    requires bounds { BoundsPaths (table_of nodes.now) limit }
    ensures answers { IfOk result (λ o. AnswersWithout (deep_of nodes.now) limit off.entry (option_map reader_of o)) }
    ensures inside { IfOk result (λ o. IfSome o (λ g. (types feats : ℕ) → IsWithin types feats nodes.now → IsGraphIn types feats g)) }
{
    let drawn = draw(picture, nodes, limit, off)?;
    if drawn {
        let graph = graph_from(alloc, nodes, limit, off, picture)?;
        return Ok(Some(graph));
    }
    Ok(None)
}

/// The graph of closed nodes, and `None` where a node that the root reaches reaches itself, or a path is longer than the limit.
pub fn draw_whole(
    alloc: Global,
    picture: &mut Picture,
    nodes: &Nodes<'_>,
    limit: u32,
) -> Result<Option<Graph>, NoMemory>
    requires whole { IsWhole nodes.now }
    requires filled { 0 < nodes.now.size }
    ensures answers { IfOk result (λ o. Answers (deep_of nodes.now) limit (option_map reader_of o)) }
    ensures inside { IfOk result (λ o. IfSome o (λ g. (types feats : ℕ) → IsWithin types feats nodes.now → IsGraphIn types feats g)) }
{
    let all = Off::none();
    let drawn = draw(picture, nodes, limit, all)?;
    if drawn {
        let graph = graph_from(alloc, nodes, limit, all, picture)?;
        return Ok(Some(graph));
    }
    Ok(None)
}
