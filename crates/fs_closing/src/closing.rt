//! The closing of nodes: tasks are worked off until none is left or a clash is met.

ghost use Rattle.std.specs.Prelude.{◌≡◌, ◌≢◌, ℕ, ◌+◌, ◌<◌, ◌≤◌, length, List, [], ◌∷◌, ◌++◌, All, IfOk, OnOk, Some, None, true, false};
ghost use Rattle.type_hierarchy.specs.Table.{count_of};
ghost use Rattle.fs_model.specs.Claims.{IsBare};
ghost use Rattle.fs_model.specs.Table.{is_same, is_under, from};
ghost use Rattle.fs_graph.specs.Facts.{path_of, claim_of};
ghost use Rattle.fs_closing.specs.Rules.{system_of, IsClaimIn};
ghost use Rattle.fs_closing.specs.Work.{work_of, pair_claim, entry_claims};
ghost use Rattle.fs_closing.specs.NodeTable.{IsWhole};
ghost use Rattle.fs_closing.specs.Keeps.{AreSound, StepsTo, Reaches, Progresses, Closed, ClosedTo};

use crate::NoMemory;
use crate::grafts::{go, put_under};
use crate::nodes::Nodes;
use crate::steps::join;
use crate::system::TypeSystem;
use crate::tasks::{Entry, Tasks};
use crate::told::is_told_next;
use fs_graph::{Fact, Feat};

/// What one turn of a closing did.
#[derive(Clone, Copy, Debug, PartialEq, Eq)]
pub enum Progress {
    Stepped,
    Clashed,
    Ended,
}

/// The node at the end of a path from a node; nodes are made where they aren't there. `None` where there is no such path.
pub fn reach<'a>(
    nodes: &mut Nodes<'a>,
    tasks: &mut Tasks,
    system: &'a TypeSystem,
    node: u32,
    path: &[Feat],
) -> Result<Option<u32>, NoMemory>
    requires bare { IsBare (system_of system.now) }
    requires sound { AreSound system.now nodes.old tasks.old }
    requires node { node < nodes.old.size }
    requires feats { All (λ f. f < length system.now.introducers) (path_of path.now) }
    ensures { IfOk result (Reaches system.now nodes.old tasks.old node (path_of path.now) nodes.new tasks.new) }
{
    let mut at = node;
    for feat in path {
        match go(nodes, tasks, system, at, feat.0)? {
            Some(to) => at = to,
            None => return Ok(None),
        }
    }
    Ok(Some(at))
}

/// A fact is put at a node. The answer is false where a path gets too long, or another clash was met.
pub fn apply<'a>(
    nodes: &mut Nodes<'a>,
    tasks: &mut Tasks,
    system: &'a TypeSystem,
    node: u32,
    fact: &Fact,
) -> Result<bool, NoMemory>
    requires bare { IsBare (system_of system.now) }
    requires sound { AreSound system.now nodes.old tasks.old }
    requires node { node < nodes.old.size }
    requires fact { IsClaimIn (count_of system.now.types) (length system.now.introducers) (claim_of fact.now) }
    ensures more { IfOk result (λ ok. ok ≡ true → nodes.old.size ≤ nodes.new.size) }
    ensures steps { IfOk result (StepsTo system.now nodes.old (from node (claim_of fact.now) ∷ work_of system.now.rules tasks.old) nodes.new tasks.new) }
{
    match fact {
        Fact::Exists { path } => match reach(nodes, tasks, system, node, path)? {
            Some(_) => Ok(true),
            None => Ok(false),
        },
        Fact::Below { path, ty } => match reach(nodes, tasks, system, node, path)? {
            Some(at) => {
                let ok = put_under(nodes, tasks, system, at, ty.0)?;
                Ok(ok)
            }
            None => Ok(false),
        },
        Fact::Same { a, b } => {
            let ok = apply_same(nodes, tasks, system, node, a, b)?;
            Ok(ok)
        }
    }
}

// Two paths from a node are to lead to one node. The first fact of a coreference speaks of one path alone, which is then there.
fn apply_same<'a>(
    nodes: &mut Nodes<'a>,
    tasks: &mut Tasks,
    system: &'a TypeSystem,
    node: u32,
    a: &[Feat],
    b: &[Feat],
) -> Result<bool, NoMemory>
    requires bare { IsBare (system_of system.now) }
    requires sound { AreSound system.now nodes.old tasks.old }
    requires node { node < nodes.old.size }
    requires a_in { All (λ f. f < length system.now.introducers) (path_of a.now) }
    requires b_in { All (λ f. f < length system.now.introducers) (path_of b.now) }
    ensures more { IfOk result (λ ok. ok ≡ true → nodes.old.size ≤ nodes.new.size) }
    ensures steps { IfOk result (StepsTo system.now nodes.old (is_same node (path_of a.now) node (path_of b.now) ∷ work_of system.now.rules tasks.old) nodes.new tasks.new) }
{
    let Some(one) = reach(nodes, tasks, system, node, a)? else {
        return Ok(false);
    };
    if a == b {
        return Ok(true);
    }
    let Some(other) = reach(nodes, tasks, system, node, b)? else {
        return Ok(false);
    };
    tasks.push_pair(other, one)?;
    Ok(true)
}

// The next fact of a rule is put at a node, unless the one behind it tells it.
fn step_entry<'a>(
    nodes: &mut Nodes<'a>,
    tasks: &mut Tasks,
    system: &'a TypeSystem,
    entry: Entry,
) -> Result<bool, NoMemory>
    requires bare { IsBare (system_of system.now) }
    requires sound { AreSound system.now nodes.old tasks.old }
    requires node { entry.node < nodes.old.size }
    requires rule { entry.rule < length system.now.rules }
    ensures { IfOk result (StepsTo system.now nodes.old (entry_claims system.now.rules entry ++ work_of system.now.rules tasks.old) nodes.new tasks.new) }
{
    let facts = system.facts(entry.rule);
    if entry.from as usize >= facts.len() {
        return Ok(true);
    }
    if entry.from == u32::MAX {
        return Err(NoMemory);
    }
    tasks.push_entry(entry.node, entry.rule, entry.from + 1)?;
    if is_told_next(facts, entry.from as usize) {
        return Ok(true);
    }
    let fact = &facts[entry.from as usize];
    let ok = apply(nodes, tasks, system, entry.node, fact)?;
    Ok(ok)
}

// One task.
fn step<'a>(
    nodes: &mut Nodes<'a>,
    tasks: &mut Tasks,
    system: &'a TypeSystem,
) -> Result<Progress, NoMemory>
    requires bare { IsBare (system_of system.now) }
    requires sound { AreSound system.now nodes.old tasks.old }
    ensures { IfOk result (Progresses system.now nodes.old tasks.old nodes.new tasks.new) }
{
    if let Some(pair) = tasks.pop_pair() {
        return match join(nodes, tasks, system, pair.node, pair.other)? {
            true => Ok(Progress::Stepped),
            false => Ok(Progress::Clashed),
        };
    }
    if let Some(bound) = tasks.pop_bound() {
        return match put_under(nodes, tasks, system, bound.node, bound.ty)? {
            true => Ok(Progress::Stepped),
            false => Ok(Progress::Clashed),
        };
    }
    if let Some(entry) = tasks.pop_entry() {
        return match step_entry(nodes, tasks, system, entry)? {
            true => Ok(Progress::Stepped),
            false => Ok(Progress::Clashed),
        };
    }
    Ok(Progress::Ended)
}

/// Works off all tasks. The answer is false where a clash was met: then there is no structure.
pub fn close<'a>(
    nodes: &mut Nodes<'a>,
    tasks: &mut Tasks,
    system: &'a TypeSystem,
) -> Result<bool, NoMemory>
    requires bare { IsBare (system_of system.now) }
    requires sound { AreSound system.now nodes.old tasks.old }
    ensures { IfOk result (Closed system.now nodes.old tasks.old nodes.new) }
{
    for _ in 0..u64::MAX {
        match step(nodes, tasks, system)? {
            Progress::Stepped => {}
            Progress::Clashed => return Ok(false),
            Progress::Ended => return Ok(true),
        }
    }
    Err(NoMemory)
}

/// Works off tasks until none is left, a clash was met, or there are more nodes than so many: then the answer is `Stepped`, and some tasks
/// may be left.
pub fn close_to<'a>(
    nodes: &mut Nodes<'a>,
    tasks: &mut Tasks,
    system: &'a TypeSystem,
    most: u32,
) -> Result<Progress, NoMemory>
    requires bare { IsBare (system_of system.now) }
    requires sound { AreSound system.now nodes.old tasks.old }
    ensures { IfOk result (ClosedTo system.now nodes.old tasks.old nodes.new tasks.new) }
{
    for _ in 0..u64::MAX {
        match step(nodes, tasks, system)? {
            Progress::Stepped => {}
            Progress::Clashed => return Ok(Progress::Clashed),
            Progress::Ended => return Ok(Progress::Ended),
        }
        if nodes.size > most {
            return Ok(Progress::Stepped);
        }
    }
    Err(NoMemory)
}
