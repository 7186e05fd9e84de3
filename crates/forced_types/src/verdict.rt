//! Verdicts on parts, and on facts.

ghost use Rattle.std.specs.Prelude.{◌≡◌, ◌<◌, [], length, IfOk, IfSome, option_map};
ghost use Rattle.fs_model.specs.Claims.{exists_at};
ghost use Rattle.fs_model.specs.Sources.{Told};
ghost use Rattle.fs_closing.specs.Rules.{system_of};
ghost use Rattle.type_hierarchy.specs.Table.{count_of};
ghost use Rattle.forced_types.specs.Verdicts.{IsVerdict, IsVerdictIn};
ghost use Rattle.forced_types.specs.Limits.{IsVerdictWithin};
ghost use Rattle.forced_types.specs.Views.{source_of, source_of_facts, verdict_of, ArePartsIn, AreFactsIn};
ghost use Rattle.forced_types.specs.Inner.Sound.{AreSound, Forces, source_in};
ghost use Rattle.forced_types.specs.Inner.Closed.{IsClosed};
ghost use Rattle.forced_types.specs.Inner.Search.{AreMarked};
ghost use Rattle.forced_types.specs.declared.search.Aim.TheVariants.{Clash as ClashAim, Long as LongAim};

use crate::closed_types::least_apart;
use crate::given::Given;
use crate::loading::NONE;
use crate::nodes::Nodes;
use crate::placed::{PlacedGraph, Verdict};
use crate::search::{Aim, is_near, mark};
use fs_closing::{NoMemory, TypeSystem};
use fs_graph::Fact;
use std::alloc::Global;
use type_hierarchy::Ty;

// The root alone.
fn begin(alloc: Global, given: Given<'_>) -> Result<Nodes, NoMemory>
    requires there { Forces given (exists_at []) }
    requires parts { ArePartsIn given.system.now given.parts.now }
    requires facts { AreFactsIn given.system.now given.facts.now }
    ensures { IfOk result (AreSound given.entry) }
{
    given.system.laws();
    let mut nodes = Nodes {
        list: Vec::new(alloc),
        pairs: Vec::new(alloc),
    };
    nodes.push_node(alloc, Vec::new(alloc), None)?;
    Ok(nodes)
}

// Nodes that say what is given.
fn loaded_nodes(alloc: Global, given: Given<'_>) -> Result<Nodes, NoMemory>
    requires there { Forces given (exists_at []) }
    requires parts { ArePartsIn given.system.now given.parts.now }
    requires facts { AreFactsIn given.system.now given.facts.now }
    ensures { IfOk result (AreSound given.entry) }
{
    let mut nodes = begin(alloc, given)?;
    nodes.load_all(alloc, given)?;
    nodes.put_facts(alloc, given)?;
    nodes.join_all(given)?;
    nodes.flatten(given);
    Ok(nodes)
}

// Nodes that say all that is forced.
fn closed_nodes(alloc: Global, given: Given<'_>) -> Result<Nodes, NoMemory>
    requires there { Forces given (exists_at []) }
    requires parts { ArePartsIn given.system.now given.parts.now }
    requires facts { AreFactsIn given.system.now given.facts.now }
    ensures sound { IfOk result (AreSound given.entry) }
    ensures closed { IfOk result (IsClosed given.entry) }
{
    let mut nodes = loaded_nodes(alloc, given)?;
    for _ in 0..NONE {
        if nodes.is_closed(alloc, given)? {
            return Ok(nodes);
        }
        nodes.round(alloc, given, NONE)?;
    }
    Err(NoMemory)
}

// The verdict where two types clash.
fn clash(alloc: Global, given: Given<'_>, nodes: &Nodes, marks: &[u32]) -> Result<Verdict, NoMemory>
    requires sound { AreSound given nodes.now }
    requires closed { IsClosed given nodes.now }
    requires marked { AreMarked given nodes.now ClashAim marks.now }
    ensures { IfOk result (λ v. IsVerdict (system_of given.entry.system.now) (Told (source_in given.entry)) (verdict_of v)) }
{
    let types = given.system.types();
    types.laws();
    let path = nodes.path_to(alloc, given, Aim::Clash, marks)?;
    let Some(end) = nodes.follow(given, 0, &path) else {
        return Err(NoMemory);
    };
    match least_apart(given, nodes.types(end)) {
        Some(apart) => Ok(Verdict::Clash {
            path,
            first: Ty(apart.first),
            second: Ty(apart.second),
        }),
        None => Err(NoMemory),
    }
}

// The verdict of closed nodes.
fn told_verdict(alloc: Global, given: Given<'_>, nodes: &Nodes) -> Result<Verdict, NoMemory>
    requires sound { AreSound given nodes.now }
    requires closed { IsClosed given nodes.now }
    ensures { IfOk result (λ v. IsVerdict (system_of given.entry.system.now) (Told (source_in given.entry)) (verdict_of v)) }
{
    let types = given.system.types();
    types.laws();
    let clashes = nodes.marks(alloc, given, Aim::Clash)?;
    if is_near(Aim::Clash, given.most(), mark(&clashes, nodes.up(0)), 0) {
        return clash(alloc, given, nodes, &clashes);
    }
    let lacks = nodes.marks(alloc, given, Aim::Long)?;
    if is_near(Aim::Long, given.most(), mark(&lacks, nodes.up(0)), 0) {
        let path = nodes.path_to(alloc, given, Aim::Long, &lacks)?;
        return Ok(Verdict::TooLong { path });
    }
    Ok(Verdict::Fits)
}

// The verdict on what is given, `None` where it forces more paths than the limit.
fn told_within(alloc: Global, given: Given<'_>, limit: u32) -> Result<Option<Verdict>, NoMemory>
    requires there { Forces given (exists_at []) }
    requires parts { ArePartsIn given.system.now given.parts.now }
    requires facts { AreFactsIn given.system.now given.facts.now }
    ensures { IfOk result (λ o. IsVerdictWithin (system_of given.entry.system.now) (Told (source_in given.entry)) limit (option_map verdict_of o)) }
{
    let mut nodes = loaded_nodes(alloc, given)?;
    let few = nodes.close_within(alloc, given, limit)?;
    if few {
        let verdict = told_verdict(alloc, given, &nodes)?;
        return Ok(Some(verdict));
    }
    Ok(None)
}

/// Whether parts go together, and else why not: the first path at which they force two types without a common subtype, or a path
/// that is too long. Parts that don't go together force such a path, whatever else they force (Copestake 2002).
///
/// `NoMemory` comes for want of memory, or where counts don't fit 32 bits.
pub fn verdict_on(
    alloc: Global,
    system: &TypeSystem,
    parts: &[PlacedGraph<'_>],
) -> Result<Verdict, NoMemory>
    requires some { 0 < length parts.now }
    requires within { ArePartsIn system.now parts.now }
    ensures { IfOk result (λ v. IsVerdict (system_of system.now) (Told (source_of parts.now)) (verdict_of v)) }
{
    let given = Given {
        system,
        parts,
        facts: &[],
    };
    let nodes = closed_nodes(alloc, given)?;
    told_verdict(alloc, given, &nodes)
}

/// The same of facts on paths from the root, what the structure of a definition is the closure of: `None` exactly where they force more
/// paths than the limit, beside that of the root. Then it stops soon after there are more, before what clashes is looked for.
///
/// `NoMemory` comes for want of memory, or where counts don't fit 32 bits.
pub fn verdict_on_facts(
    alloc: Global,
    system: &TypeSystem,
    facts: &[Fact],
    limit: u32,
) -> Result<Option<Verdict>, NoMemory>
    requires some { 0 < length facts.now }
    requires within { AreFactsIn system.now facts.now }
    ensures verdict { IfOk result (λ o. IsVerdictWithin (system_of system.now) (Told (source_of_facts facts.now)) limit (option_map verdict_of o)) }
    ensures within { IfOk result (λ o. IfSome o (λ v. IsVerdictIn (length system.now.introducers) (count_of system.now.types) (verdict_of v))) }
{
    system.laws();
    let types = system.types();
    types.laws();
    let _counts = types.counts();
    let given = Given {
        system,
        parts: &[],
        facts,
    };
    let verdict = told_within(alloc, given, limit)?;
    Ok(verdict)
}
