//! The structure of facts.

ghost use Rattle.std.specs.Prelude.{◌≡◌, ℕ, ◌<◌, ◌≤◌, length, map, [], ◌++◌, IfOk, IfSome, option_map};
ghost use Rattle.type_hierarchy.specs.Table.{count_of};
ghost use Rattle.fs_model.specs.Claims.{Claim, IsBare, IsOrder, Has};
ghost use Rattle.fs_model.specs.Sources.{IsUnified};
ghost use Rattle.fs_model.specs.Table.{from};
ghost use Rattle.fs_graph.specs.Facts.{claims_of};
ghost use Rattle.fs_graph.specs.GraphMap.{reader_of};
ghost use Rattle.fs_closing.specs.Rules.{system_of, IsClaimIn};
ghost use Rattle.fs_closing.specs.NodeTable.{IsWhole, IsWithin, AreFlat};
ghost use Rattle.fs_closing.specs.Work.{work_of, AreReady};
ghost use Rattle.fs_closing.specs.Keeps.{AreSound, StepsTo};
ghost use Rattle.fs_unify.specs.Entering.{IsGraphIn};
ghost use Rattle.fs_unify.specs.Placing.{IsAnswerIn};
ghost use Rattle.fs_unify.specs.Given.{facts_source, StandsForSome, Decides, Gathers, Settles, SettlesWithout};
ghost use Rattle.fs_unify.specs.Room.{room_of};

use crate::scratch::{Desk, Scratch};
use fs_closing::NoMemory;
use fs_closing::closing::{apply, close};
use fs_closing::nodes::{Nodes, add_node};
use fs_closing::system::TypeSystem;
use fs_closing::tasks::Tasks;
use fs_drawing::bounds::{Heights, bounded};
use fs_drawing::draw::{Off, Picture, draw_left, draw_whole};
use fs_graph::{Fact, Graph};
use std::alloc::Global;

// Puts facts at the root.
fn apply_all<'a>(
    nodes: &mut Nodes<'a>,
    tasks: &mut Tasks,
    system: &'a TypeSystem,
    facts: &[Fact],
) -> Result<bool, NoMemory>
    requires bare { IsBare (system_of system.now) }
    requires sound { AreSound system.now nodes.old tasks.old }
    requires filled { 0 < nodes.old.size }
    requires facts { (c : Claim) → Has c (claims_of facts.now) → IsClaimIn (count_of system.now.types) (length system.now.introducers) c }
    ensures { IfOk result (StepsTo system.now nodes.old (map (from 0) (claims_of facts.now) ++ work_of system.now.rules tasks.old) nodes.new tasks.new) }
{
    for fact in facts {
        match apply(nodes, tasks, system, 0, fact)? {
            true => {}
            false => return Ok(false),
        }
    }
    Ok(true)
}

// Facts are put at the root, from no nodes on. The answer is false where a path gets too long.
pub(crate) fn gather_facts<'a>(
    nodes: &mut Nodes<'a>,
    tasks: &mut Tasks,
    system: &'a TypeSystem,
    facts: &[Fact],
) -> Result<bool, NoMemory>
    requires bare { IsBare (system_of system.now) }
    requires whole { IsWhole nodes.old }
    requires no_nodes { nodes.old.size ≡ 0 }
    requires flat { AreFlat nodes.old }
    requires within { (types feats : ℕ) → IsWithin types feats nodes.old }
    requires no_work { work_of system.now.rules tasks.old ≡ [] }
    requires ready { (size types rules : ℕ) → AreReady size types rules tasks.old }
    requires some { 0 < length facts.now }
    requires facts { (c : Claim) → Has c (claims_of facts.now) → IsClaimIn (count_of system.now.types) (length system.now.introducers) c }
    ensures { IfOk result (Gathers system.now (facts_source (claims_of facts.now)) nodes.new tasks.new) }
{
    system.laws();
    add_node(nodes, 0, 0)?;
    let applied = apply_all(nodes, tasks, system, facts)?;
    Ok(applied)
}

/// Closes nodes with their tasks, and draws nothing. The answer is true exactly where what they stand for is consistent.
pub fn close_bounded<'a>(
    nodes: &mut Nodes<'a>,
    tasks: &mut Tasks,
    heights: &mut Heights,
    system: &'a TypeSystem,
) -> Result<bool, NoMemory>
    requires order { IsOrder (system_of system.now) }
    requires bare { IsBare (system_of system.now) }
    requires sound { AreSound system.now nodes.old tasks.old }
    requires stands { StandsForSome system.now nodes.old tasks.old }
    ensures { IfOk result (Decides system.now nodes.old tasks.old nodes.new) }
{
    let limit = system.path_limit();
    let closed = close(nodes, tasks, system)?;
    if closed {
        let within = bounded(heights, nodes, limit)?;
        return Ok(within);
    }
    Ok(false)
}

/// Closes nodes with their tasks, and gives the graph of their root, or `None` exactly where what they stand for is
/// inconsistent.
pub fn settle<'a>(
    alloc: Global,
    nodes: &mut Nodes<'a>,
    tasks: &mut Tasks,
    picture: &mut Picture,
    system: &'a TypeSystem,
) -> Result<Option<Graph>, NoMemory>
    requires order { IsOrder (system_of system.now) }
    requires bare { IsBare (system_of system.now) }
    requires sound { AreSound system.now nodes.old tasks.old }
    requires stands { StandsForSome system.now nodes.old tasks.old }
    ensures answer { IfOk result (λ o. Settles system.now nodes.old tasks.old (option_map reader_of o)) }
    ensures inside { IfOk result (λ o. IfSome o (IsGraphIn (count_of system.now.types) (length system.now.introducers))) }
{
    let limit = system.path_limit();
    let closed = close(nodes, tasks, system)?;
    if closed {
        let graph = draw_whole(alloc, picture, nodes, limit)?;
        return Ok(graph);
    }
    Ok(None)
}

/// The same without features that are cut off.
pub fn settle_without<'a>(
    alloc: Global,
    nodes: &mut Nodes<'a>,
    tasks: &mut Tasks,
    desk: &mut Desk,
    system: &'a TypeSystem,
    off: Off<'_>,
) -> Result<Option<Graph>, NoMemory>
    requires order { IsOrder (system_of system.now) }
    requires bare { IsBare (system_of system.now) }
    requires sound { AreSound system.now nodes.old tasks.old }
    requires stands { StandsForSome system.now nodes.old tasks.old }
    ensures answer { IfOk result (λ o. SettlesWithout system.now nodes.old tasks.old off.entry (option_map reader_of o)) }
    ensures inside { IfOk result (λ o. IfSome o (IsGraphIn (count_of system.now.types) (length system.now.introducers))) }
{
    let limit = system.path_limit();
    let bounded = close_bounded(nodes, tasks, &mut desk.heights, system)?;
    if bounded {
        let graph = draw_left(alloc, &mut desk.picture, nodes, limit, off)?;
        return Ok(graph);
    }
    Ok(None)
}

// The structure of facts, from no nodes on.
fn structure<'a>(
    alloc: Global,
    nodes: &mut Nodes<'a>,
    tasks: &mut Tasks,
    picture: &mut Picture,
    system: &'a TypeSystem,
    facts: &[Fact],
) -> Result<Option<Graph>, NoMemory>
    requires order { IsOrder (system_of system.now) }
    requires bare { IsBare (system_of system.now) }
    requires whole { IsWhole nodes.old }
    requires no_nodes { nodes.old.size ≡ 0 }
    requires flat { AreFlat nodes.old }
    requires within { (types feats : ℕ) → IsWithin types feats nodes.old }
    requires no_work { work_of system.now.rules tasks.old ≡ [] }
    requires ready { (size types rules : ℕ) → AreReady size types rules tasks.old }
    requires some { 0 < length facts.now }
    requires facts { (c : Claim) → Has c (claims_of facts.now) → IsClaimIn (count_of system.now.types) (length system.now.introducers) c }
    ensures answer { IfOk result (λ o. IsUnified (system_of system.now) (facts_source (claims_of facts.now)) (option_map reader_of o)) }
    ensures known { IfOk result (λ o. IfSome o (IsAnswerIn system.now)) }
{
    let gathered = gather_facts(nodes, tasks, system, facts)?;
    if gathered {
        let graph = settle(alloc, nodes, tasks, picture, system)?;
        return Ok(graph);
    }
    Ok(None)
}

/// The structure of facts: that of the closure of the facts, with the facts of all types that it comes below, or `None` exactly
/// where this closure is inconsistent (Copestake 2002: well-formed typed feature structures). There is one fact at least.
/// Whatever the scratch holds, the answer is the same. `NoMemory` comes only for want of memory, or of numbers for nodes,
/// arcs and turns.
pub fn structure_of(
    alloc: Global,
    scratch: &mut Scratch,
    system: &TypeSystem,
    facts: &[Fact],
) -> Result<Option<Graph>, NoMemory>
    requires bare { IsBare (system_of system.now) }
    requires some { 0 < length facts.now }
    requires facts { (c : Claim) → Has c (claims_of facts.now) → IsClaimIn (count_of system.now.types) (length system.now.introducers) c }
    ensures room { room_of scratch.old ≤ room_of scratch.new }
    ensures answer { IfOk result (λ o. IsUnified (system_of system.now) (facts_source (claims_of facts.now)) (option_map reader_of o)) }
    ensures known { IfOk result (λ o. IfSome o (IsAnswerIn system.now)) }
{
    let mut nodes = scratch.begin(alloc);
    scratch.tasks.clear();
    let types = system.types();
    types.laws();
    let answer = structure(
        alloc,
        &mut nodes,
        &mut scratch.tasks,
        &mut scratch.desk.picture,
        system,
        facts,
    );
    scratch.keep(nodes);
    answer
}
