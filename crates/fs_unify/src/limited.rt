//! The structure of facts, where it has no more paths than a limit.

ghost use Rattle.std.specs.Prelude.{◌≡◌, ℕ, ◌<◌, ◌≤◌, length, [], IfOk, IfSome, option_map};
ghost use Rattle.type_hierarchy.specs.Table.{count_of};
ghost use Rattle.fs_model.specs.Claims.{Claim, IsBare, IsOrder, Has};
ghost use Rattle.fs_graph.specs.Facts.{claims_of};
ghost use Rattle.fs_graph.specs.GraphMap.{reader_of};
ghost use Rattle.fs_closing.specs.Rules.{system_of, IsClaimIn};
ghost use Rattle.fs_closing.specs.NodeTable.{table_of, IsWhole, IsWithin, AreFlat};
ghost use Rattle.fs_closing.specs.Work.{work_of, AreReady};
ghost use Rattle.fs_closing.specs.Keeps.{AreSound, deep_of};
ghost use Rattle.fs_unify.specs.Entering.{IsGraphIn};
ghost use Rattle.fs_unify.specs.Placing.{IsAnswerIn};
ghost use Rattle.fs_unify.specs.Given.{facts_source, StandsForSome};
ghost use Rattle.fs_unify.specs.Limits.{IsUnifiedWithin};
ghost use Rattle.fs_drawing.specs.Counting.{Counts};
ghost use Rattle.fs_unify.specs.Counting.{ClosedWithin, AnswersWithin, SettlesWithin};
ghost use Rattle.fs_unify.specs.Room.{room_of};

use crate::scratch::Scratch;
use crate::structure::gather_facts;
use fs_closing::NoMemory;
use fs_closing::closing::{Progress, close_to};
use fs_closing::nodes::Nodes;
use fs_closing::system::TypeSystem;
use fs_closing::tasks::Tasks;
use fs_drawing::draw::{Off, Picture, draw, graph_from, lay_out};
use fs_drawing::few::few_paths;
use fs_graph::{Fact, Graph};
use std::alloc::Global;

/// What a closing within a limit on paths came to.
#[derive(Clone, Copy, Debug, PartialEq, Eq)]
pub enum Limited {
    Closed,
    Clashed,
    Exceeded,
}

// Whether no more paths than the limit lead from the root of nodes, whether or not work is left.
fn has_few(picture: &mut Picture, nodes: &Nodes<'_>, limit: u32) -> Result<bool, NoMemory>
    requires whole { IsWhole nodes.now }
    requires filled { 0 < nodes.now.size }
    ensures { IfOk result (Counts (table_of nodes.now) limit) }
{
    lay_out(picture, nodes, Off::none())?;
    let few = few_paths(&picture.starts, &picture.arcs, &mut picture.row, limit)?;
    Ok(few)
}

// Closes nodes with their tasks, unless more paths than the limit lead from the root. Each node that is made has a path of its own then, so
// that paths are counted once there are more nodes than the limit; and where they weren't many, again when there are twice as many nodes.
fn close_few<'a>(
    nodes: &mut Nodes<'a>,
    tasks: &mut Tasks,
    picture: &mut Picture,
    system: &'a TypeSystem,
    limit: u32,
) -> Result<Limited, NoMemory>
    requires bare { IsBare (system_of system.now) }
    requires sound { AreSound system.now nodes.old tasks.old }
    requires stands { StandsForSome system.now nodes.old tasks.old }
    ensures { IfOk result (ClosedWithin system.now limit nodes.old tasks.old nodes.new) }
{
    let mut most = limit;
    for _ in 0..u64::MAX {
        match close_to(nodes, tasks, system, most)? {
            Progress::Stepped => {}
            Progress::Clashed => return Ok(Limited::Clashed),
            Progress::Ended => return Ok(Limited::Closed),
        }
        let few = has_few(picture, nodes, limit)?;
        if !few {
            return Ok(Limited::Exceeded);
        }
        most = nodes.size.saturating_mul(2);
    }
    Err(NoMemory)
}

// The graph of closed nodes, if no path is longer than `longest` and there are no more paths than the limit.
fn draw_few(
    alloc: Global,
    nodes: &Nodes<'_>,
    picture: &mut Picture,
    longest: u32,
    limit: u32,
) -> Result<Option<Graph>, NoMemory>
    requires whole { IsWhole nodes.now }
    requires filled { 0 < nodes.now.size }
    ensures answer { IfOk result (λ o. AnswersWithin (deep_of nodes.now) longest limit (option_map reader_of o)) }
    ensures inside { IfOk result (λ o. IfSome o (λ g. (types feats : ℕ) → IsWithin types feats nodes.now → IsGraphIn types feats g)) }
{
    let all = Off::none();
    let drawn = draw(picture, nodes, longest, all)?;
    if !drawn {
        return Ok(None);
    }
    let few = few_paths(&picture.starts, &picture.arcs, &mut picture.row, limit)?;
    if !few {
        return Ok(None);
    }
    let graph = graph_from(alloc, nodes, longest, all, picture)?;
    Ok(Some(graph))
}

// Closes nodes with their tasks, and gives the graph of their root, or `None` exactly where what they stand for is inconsistent or
// has more paths than the limit.
fn settle_few<'a>(
    alloc: Global,
    nodes: &mut Nodes<'a>,
    tasks: &mut Tasks,
    picture: &mut Picture,
    system: &'a TypeSystem,
    limit: u32,
) -> Result<Option<Graph>, NoMemory>
    requires order { IsOrder (system_of system.now) }
    requires bare { IsBare (system_of system.now) }
    requires sound { AreSound system.now nodes.old tasks.old }
    requires stands { StandsForSome system.now nodes.old tasks.old }
    ensures answer { IfOk result (λ o. SettlesWithin system.now limit nodes.old tasks.old (option_map reader_of o)) }
    ensures inside { IfOk result (λ o. IfSome o (IsGraphIn (count_of system.now.types) (length system.now.introducers))) }
{
    match close_few(nodes, tasks, picture, system, limit)? {
        Limited::Closed => {
            let graph = draw_few(alloc, nodes, picture, system.path_limit(), limit)?;
            Ok(graph)
        }
        Limited::Clashed => Ok(None),
        Limited::Exceeded => Ok(None),
    }
}

// The structure of facts within the limit, from no nodes on.
fn structure_few<'a>(
    alloc: Global,
    nodes: &mut Nodes<'a>,
    tasks: &mut Tasks,
    picture: &mut Picture,
    system: &'a TypeSystem,
    facts: &[Fact],
    limit: u32,
) -> Result<Option<Graph>, NoMemory>
    requires order { IsOrder (system_of system.now) }
    requires bare { IsBare (system_of system.now) }
    requires whole { IsWhole nodes.old }
    requires no_nodes { nodes.old.size ≡ 0 }
    requires flat { AreFlat nodes.old }
    requires within { (types feats : ℕ) → IsWithin types feats nodes.old }
    requires no_work { work_of system.now.rules tasks.old ≡ [] }
    requires ready { (size types rules : ℕ) → AreReady size types rules tasks.old }
    requires some { 0 < length facts.now }
    requires facts { (c : Claim) → Has c (claims_of facts.now) → IsClaimIn (count_of system.now.types) (length system.now.introducers) c }
    ensures answer { IfOk result (λ o. IsUnifiedWithin (system_of system.now) limit (facts_source (claims_of facts.now)) (option_map reader_of o)) }
    ensures known { IfOk result (λ o. IfSome o (IsAnswerIn system.now)) }
{
    let gathered = gather_facts(nodes, tasks, system, facts)?;
    if gathered {
        let graph = settle_few(alloc, nodes, tasks, picture, system, limit)?;
        return Ok(graph);
    }
    Ok(None)
}

/// The structure of facts: that of the closure of the facts, with the facts of all types that it comes below, or `None` exactly
/// where this closure is inconsistent or has more paths than the limit (Copestake 2002: well-formed typed feature structures). There is
/// one fact at least. Whatever the scratch holds, the answer is the same. `NoMemory` comes only for want of memory, or of numbers for
/// nodes, arcs and turns.
///
/// More claims have no fewer paths, so the answer doesn't hang on the order of work: the closing stops once there are more, long before
/// memory does where types double their paths on each level.
pub fn structure_within(
    alloc: Global,
    scratch: &mut Scratch,
    system: &TypeSystem,
    facts: &[Fact],
    limit: u32,
) -> Result<Option<Graph>, NoMemory>
    requires bare { IsBare (system_of system.now) }
    requires some { 0 < length facts.now }
    requires facts { (c : Claim) → Has c (claims_of facts.now) → IsClaimIn (count_of system.now.types) (length system.now.introducers) c }
    ensures room { room_of scratch.old ≤ room_of scratch.new }
    ensures answer { IfOk result (λ o. IsUnifiedWithin (system_of system.now) limit (facts_source (claims_of facts.now)) (option_map reader_of o)) }
    ensures known { IfOk result (λ o. IfSome o (IsAnswerIn system.now)) }
{
    let mut nodes = scratch.begin(alloc);
    scratch.tasks.clear();
    let types = system.types();
    types.laws();
    let answer = structure_few(
        alloc,
        &mut nodes,
        &mut scratch.tasks,
        &mut scratch.desk.picture,
        system,
        facts,
        limit,
    );
    scratch.keep(nodes);
    answer
}
