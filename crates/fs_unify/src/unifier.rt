//! Unification of graphs.

ghost use Rattle.std.specs.Prelude.{◌≡◌, ◌↔◌, ℕ, ◌<◌, ◌≤◌, length, map, [], ◌++◌, IfOk, IfSome, IsTrue, OnOk, option_map};
ghost use Rattle.fs_model.specs.Claims.{IsBare, IsOrder, Has};
ghost use Rattle.fs_model.specs.Closure.{IsConsistent};
ghost use Rattle.fs_model.specs.Sources.{Told, IsUnified};
ghost use Rattle.type_hierarchy.specs.Table.{count_of};
ghost use Rattle.fs_graph.specs.Facts.{path_of};
ghost use Rattle.fs_graph.specs.GraphMap.{reader_of};
ghost use Rattle.fs_unify.specs.declared.parts.Placed.{Placed};
ghost use Rattle.fs_closing.specs.Rules.{system_of};
ghost use Rattle.fs_closing.specs.NodeTable.{IsWhole, IsWithin, AreFlat};
ghost use Rattle.fs_closing.specs.Work.{work_of, AreReady};
ghost use Rattle.fs_closing.specs.Keeps.{AreSound, StepsTo};
ghost use Rattle.fs_drawing.specs.Cutting.{IsUnifiedWithout};
ghost use Rattle.fs_unify.specs.Entering.{IsGraphIn};
ghost use Rattle.fs_unify.specs.Given.{Gathers};
ghost use Rattle.fs_unify.specs.Placing.{PlacedGraph, placed, part_in, source_of, source_in, joints, HasEntered, IsPlacedIn, IsAnswerIn};
ghost use Rattle.fs_unify.specs.Room.{room_of};

use crate::entering::enter;
use crate::parts::{Parts, Placed};
use crate::scratch::{Desk, Scratch};
use crate::structure::{close_bounded, settle, settle_without};
use fs_closing::NoMemory;
use fs_closing::closing::reach;
use fs_closing::nodes::{Nodes, add_node};
use fs_closing::steps::join;
use fs_closing::system::TypeSystem;
use fs_closing::tasks::Tasks;
use fs_drawing::bounds::Heights;
use fs_drawing::draw::{Off, Picture};
use fs_graph::{Feat, Graph};
use std::alloc::Global;

// All graphs enter; `offsets` gets the numbers of their roots.
fn enter_all<'a>(
    nodes: &mut Nodes<'a>,
    tasks: &mut Tasks,
    system: &TypeSystem,
    parts: &'a [Placed<'a>],
    offsets: &mut Vec<u32>,
) -> Result<(), NoMemory>
    requires bare { IsBare (system_of system.now) }
    requires sound { AreSound system.now nodes.old tasks.old }
    requires parts { (p : Placed) → Has p parts.now → IsPlacedIn system.now (placed p) }
    requires begun { HasEntered system.now parts.now [] offsets.old.items nodes.old tasks.old }
    ensures entered { OnOk result (HasEntered system.now parts.now parts.now offsets.new.items nodes.new tasks.new) }
    ensures sound { OnOk result (AreSound system.now nodes.new tasks.new) }
{
    for i in 0..parts.len() {
        let part = &parts[i];
        part.graph.laws();
        let offset = enter(nodes, tasks, system, part.graph, part.standing)?;
        offsets.push(offset)?;
    }
    Ok(())
}

// Each graph's root is put at its path. The two become one at once, so that the path of the next graph is found in those before it.
fn connect<'a>(
    nodes: &mut Nodes<'a>,
    tasks: &mut Tasks,
    system: &'a TypeSystem,
    parts: &[Placed<'_>],
    offsets: &[u32],
) -> Result<bool, NoMemory>
    requires bare { IsBare (system_of system.now) }
    requires sound { AreSound system.now nodes.old tasks.old }
    requires filled { 0 < nodes.old.size }
    requires parts { (p : Placed) → Has p parts.now → IsPlacedIn system.now (placed p) }
    requires even { length offsets.now ≡ length parts.now }
    requires offsets { (o : ℕ) → Has o offsets.now → o < nodes.old.size }
    ensures { IfOk result (StepsTo system.now nodes.old (joints (map part_in parts.now) offsets.now ++ work_of system.now.rules tasks.old) nodes.new tasks.new) }
{
    for i in 0..parts.len() {
        match reach(nodes, tasks, system, 0, &parts[i].place)? {
            Some(end) => match join(nodes, tasks, system, end, offsets[i])? {
                true => {}
                false => return Ok(false),
            },
            None => return Ok(false),
        }
    }
    Ok(true)
}

// All graphs enter, from no nodes on, and each is put at its path. The answer is false where a path gets too long.
fn gather<'a>(
    nodes: &mut Nodes<'a>,
    tasks: &mut Tasks,
    offsets: &mut Vec<u32>,
    system: &'a TypeSystem,
    parts: &'a [Placed<'a>],
) -> Result<bool, NoMemory>
    requires bare { IsBare (system_of system.now) }
    requires whole { IsWhole nodes.old }
    requires no_nodes { nodes.old.size ≡ 0 }
    requires flat { AreFlat nodes.old }
    requires within { (types feats : ℕ) → IsWithin types feats nodes.old }
    requires no_work { work_of system.now.rules tasks.old ≡ [] }
    requires ready { (size types rules : ℕ) → AreReady size types rules tasks.old }
    requires some { 0 < length parts.now }
    requires parts { (p : Placed) → Has p parts.now → IsPlacedIn system.now (placed p) }
    ensures { IfOk result (Gathers system.now (source_in parts.now) nodes.new tasks.new) }
{
    system.laws();
    let first = &parts[0];
    first.graph.laws();
    add_node(nodes, 0, 0)?;
    offsets.clear();
    enter_all(nodes, tasks, system, parts, offsets)?;
    let connected = connect(nodes, tasks, system, parts, offsets)?;
    Ok(connected)
}

// The unification of graphs, from no nodes on.
fn unified<'a>(
    alloc: Global,
    nodes: &mut Nodes<'a>,
    tasks: &mut Tasks,
    offsets: &mut Vec<u32>,
    picture: &mut Picture,
    system: &'a TypeSystem,
    parts: &'a [Placed<'a>],
) -> Result<Option<Graph>, NoMemory>
    requires order { IsOrder (system_of system.now) }
    requires bare { IsBare (system_of system.now) }
    requires whole { IsWhole nodes.old }
    requires no_nodes { nodes.old.size ≡ 0 }
    requires flat { AreFlat nodes.old }
    requires within { (types feats : ℕ) → IsWithin types feats nodes.old }
    requires no_work { work_of system.now.rules tasks.old ≡ [] }
    requires ready { (size types rules : ℕ) → AreReady size types rules tasks.old }
    requires some { 0 < length parts.now }
    requires parts { (p : Placed) → Has p parts.now → IsPlacedIn system.now (placed p) }
    ensures answer { IfOk result (λ o. IsUnified (system_of system.now) (source_in parts.now) (option_map reader_of o)) }
    ensures known { IfOk result (λ o. IfSome o (IsAnswerIn system.now)) }
{
    let gathered = gather(nodes, tasks, offsets, system, parts)?;
    if gathered {
        let graph = settle(alloc, nodes, tasks, picture, system)?;
        return Ok(graph);
    }
    Ok(None)
}

// The same without features that are cut off.
fn unified_without<'a>(
    alloc: Global,
    nodes: &mut Nodes<'a>,
    tasks: &mut Tasks,
    desk: &mut Desk,
    system: &'a TypeSystem,
    parts: &'a [Placed<'a>],
    off: Off<'_>,
) -> Result<Option<Graph>, NoMemory>
    requires order { IsOrder (system_of system.now) }
    requires bare { IsBare (system_of system.now) }
    requires whole { IsWhole nodes.old }
    requires no_nodes { nodes.old.size ≡ 0 }
    requires flat { AreFlat nodes.old }
    requires within { (types feats : ℕ) → IsWithin types feats nodes.old }
    requires no_work { work_of system.now.rules tasks.old ≡ [] }
    requires ready { (size types rules : ℕ) → AreReady size types rules tasks.old }
    requires some { 0 < length parts.now }
    requires parts { (p : Placed) → Has p parts.now → IsPlacedIn system.now (placed p) }
    ensures answer { IfOk result (λ o. IsUnifiedWithout (system_of system.now) (source_in parts.now) (path_of off.entry.at_root.now) (path_of off.entry.anywhere.now) (option_map reader_of o)) }
    ensures inside { IfOk result (λ o. IfSome o (IsGraphIn (count_of system.now.types) (length system.now.introducers))) }
{
    let gathered = gather(nodes, tasks, &mut desk.offsets, system, parts)?;
    if gathered {
        let graph = settle_without(alloc, nodes, tasks, desk, system, off)?;
        return Ok(graph);
    }
    Ok(None)
}

// Whether graphs unify, from no nodes on.
fn consistent<'a>(
    nodes: &mut Nodes<'a>,
    tasks: &mut Tasks,
    offsets: &mut Vec<u32>,
    heights: &mut Heights,
    system: &'a TypeSystem,
    parts: &'a [Placed<'a>],
) -> Result<bool, NoMemory>
    requires order { IsOrder (system_of system.now) }
    requires bare { IsBare (system_of system.now) }
    requires whole { IsWhole nodes.old }
    requires no_nodes { nodes.old.size ≡ 0 }
    requires flat { AreFlat nodes.old }
    requires within { (types feats : ℕ) → IsWithin types feats nodes.old }
    requires no_work { work_of system.now.rules tasks.old ≡ [] }
    requires ready { (size types rules : ℕ) → AreReady size types rules tasks.old }
    requires some { 0 < length parts.now }
    requires parts { (p : Placed) → Has p parts.now → IsPlacedIn system.now (placed p) }
    ensures { IfOk result (λ b. IsTrue b ↔ IsConsistent (system_of system.now) (Told (source_in parts.now))) }
{
    let gathered = gather(nodes, tasks, offsets, system, parts)?;
    if gathered {
        let consistent = close_bounded(nodes, tasks, heights, system)?;
        return Ok(consistent);
    }
    Ok(false)
}

/// The unification of graphs, each at its path: the structure of the closure of all that they tell, or `None` exactly where
/// that is inconsistent (Copestake 2002: unification of well-formed typed feature structures). There is one graph at least.
/// Whatever the scratch holds, the answer is the same. `NoMemory` comes only for want of memory, or of numbers for nodes,
/// arcs and turns.
pub fn unify(
    alloc: Global,
    scratch: &mut Scratch,
    system: &TypeSystem,
    parts: &Parts<'_>,
) -> Result<Option<Graph>, NoMemory>
    requires bare { IsBare (system_of system.now) }
    requires some { 0 < length parts.now }
    requires parts { (p : PlacedGraph) → Has p parts.now → IsPlacedIn system.now p }
    ensures room { room_of scratch.old ≤ room_of scratch.new }
    ensures answer { IfOk result (λ o. IsUnified (system_of system.now) (source_of parts.now) (option_map reader_of o)) }
    ensures known { IfOk result (λ o. IfSome o (IsAnswerIn system.now)) }
{
    let mut nodes = scratch.begin(alloc);
    scratch.tasks.clear();
    let types = system.types();
    types.laws();
    let answer = unified(
        alloc,
        &mut nodes,
        &mut scratch.tasks,
        &mut scratch.desk.offsets,
        &mut scratch.desk.picture,
        system,
        &parts.items,
    );
    scratch.keep(nodes);
    answer
}

/// What is left of the unification of graphs where features are cut off, some at the root alone and some wherever they stand:
/// the structure of the closure of all that the graphs tell without the paths that are cut off, or `None` exactly where that
/// closure is inconsistent. Both lists are to be short. The graph is drawn once, from what is left; what is cut off is only
/// gone along for the lengths of its paths. There is one graph at least. Whatever the scratch holds, the answer is the same.
/// `NoMemory` comes only for want of memory, or of numbers for nodes, arcs and turns.
pub fn unify_cut(
    alloc: Global,
    scratch: &mut Scratch,
    system: &TypeSystem,
    parts: &Parts<'_>,
    at_root: &[Feat],
    anywhere: &[Feat],
) -> Result<Option<Graph>, NoMemory>
    requires bare { IsBare (system_of system.now) }
    requires some { 0 < length parts.now }
    requires parts { (p : PlacedGraph) → Has p parts.now → IsPlacedIn system.now p }
    ensures room { room_of scratch.old ≤ room_of scratch.new }
    ensures answer { IfOk result (λ o. IsUnifiedWithout (system_of system.now) (source_of parts.now) (path_of at_root.now) (path_of anywhere.now) (option_map reader_of o)) }
    ensures inside { IfOk result (λ o. IfSome o (IsGraphIn (count_of system.now.types) (length system.now.introducers))) }
{
    let mut nodes = scratch.begin(alloc);
    scratch.tasks.clear();
    let types = system.types();
    types.laws();
    let answer = unified_without(
        alloc,
        &mut nodes,
        &mut scratch.tasks,
        &mut scratch.desk,
        system,
        &parts.items,
        Off { at_root, anywhere },
    );
    scratch.keep(nodes);
    answer
}

/// Whether graphs unify, each at its path: true exactly where the closure of all that they tell is consistent. There is one
/// graph at least. Whatever the scratch holds, the answer is the same. Nothing is drawn, and no graph is made. `NoMemory`
/// comes only for want of memory, or of numbers for nodes, arcs and turns.
pub fn unifies(
    alloc: Global,
    scratch: &mut Scratch,
    system: &TypeSystem,
    parts: &Parts<'_>,
) -> Result<bool, NoMemory>
    requires bare { IsBare (system_of system.now) }
    requires some { 0 < length parts.now }
    requires parts { (p : PlacedGraph) → Has p parts.now → IsPlacedIn system.now p }
    ensures room { room_of scratch.old ≤ room_of scratch.new }
    ensures answer { IfOk result (λ b. IsTrue b ↔ IsConsistent (system_of system.now) (Told (source_of parts.now))) }
{
    let mut nodes = scratch.begin(alloc);
    scratch.tasks.clear();
    let types = system.types();
    types.laws();
    let answer = consistent(
        &mut nodes,
        &mut scratch.tasks,
        &mut scratch.desk.offsets,
        &mut scratch.desk.heights,
        system,
        &parts.items,
    );
    scratch.keep(nodes);
    answer
}
