//! Structures of facts, and their unifications.

ghost use Rattle.std.specs.Prelude.{◌≡◌, length, All, IfOk, IfSome, OnOk};
ghost use Rattle.fs_model.specs.Claims.{IsBare};
ghost use Rattle.fs_unify.specs.Rules.{system_of};
ghost use Rattle.fs_unify.specs.Placing.{IsAnswerIn};

use crate::facts::{facts, facts_in, path_in};
use crate::names::{FEATS, path};
use crate::steps::{front, number};
use crate::texts::shown;
use fs_graph::{Feat, Graph};
use fs_unify::{NoMemory, Parts, Scratch, TypeSystem, structure_of, unifies, unify};
use std::alloc::{AllocError, Global};

// The structure of facts is put on the pile; its text, or `none`.
pub fn structure(
    alloc: Global,
    scratch: &mut Scratch,
    system: &TypeSystem,
    pile: &mut Vec<Graph>,
    text: &str,
) -> Result<String, AllocError>
    requires bare { IsBare (system_of system.now) }
    requires feats { length system.now.introducers ≡ 5 }
    requires known { All (IsAnswerIn system.now) pile.old.items }
    ensures { OnOk result (All (IsAnswerIn system.now) pile.new.items) }
{
    match of_facts(alloc, scratch, system, text)? {
        Some(graph) => kept(alloc, system, pile, graph),
        None => String::from_str(alloc, "none"),
    }
}

fn of_facts(
    alloc: Global,
    scratch: &mut Scratch,
    system: &TypeSystem,
    text: &str,
) -> Result<Option<Graph>, AllocError>
    requires bare { IsBare (system_of system.now) }
    requires feats { length system.now.introducers ≡ 5 }
    ensures { IfOk result (λ o. IfSome o (IsAnswerIn system.now)) }
{
    let types = system.types();
    let facts = facts(alloc, types, text)?;
    if facts.is_empty() || !facts_in(&facts, types.counts().all, FEATS) {
        return Ok(None);
    }
    structure_of(alloc, scratch, system, &facts).map_err(|_| AllocError)
}

// Puts a structure on the pile, and gives its text.
fn kept(
    alloc: Global,
    system: &TypeSystem,
    pile: &mut Vec<Graph>,
    graph: Graph,
) -> Result<String, AllocError>
    requires known { All (IsAnswerIn system.now) pile.old.items }
    requires graph { IsAnswerIn system.now graph }
    ensures { OnOk result (All (IsAnswerIn system.now) pile.new.items) }
{
    let text = shown(alloc, system.types(), &graph)?;
    pile.push(graph)?;
    Ok(text)
}

// The unification of two structures of the pile, of which the second one is at a path, is put on the pile too; what the test
// alone answers, and its text, or `none`.
pub fn unification(
    alloc: Global,
    scratch: &mut Scratch,
    system: &TypeSystem,
    pile: &mut Vec<Graph>,
    text: &str,
) -> Result<String, AllocError>
    requires bare { IsBare (system_of system.now) }
    requires feats { length system.now.introducers ≡ 5 }
    requires known { All (IsAnswerIn system.now) pile.old.items }
    ensures { OnOk result (All (IsAnswerIn system.now) pile.new.items) }
{
    let (a, rest) = front(text);
    let (place, b) = front(rest);
    let (a, b) = (number(a) as usize, number(b) as usize);
    if a >= pile.len() || b >= pile.len() {
        return String::from_str(alloc, "no such structures");
    }
    let at = path(alloc, place)?;
    match joined(alloc, scratch, system, &pile[a], at, &pile[b]) {
        Ok((test, Some(graph))) => {
            let text = kept(alloc, system, pile, graph)?;
            format!(in alloc; "{test}, {text}")
        }
        Ok((test, None)) => format!(in alloc; "{test}, none"),
        Err(NoMemory) => Err(AllocError),
    }
}

// What the test of two structures answers, and their unification.
fn joined(
    alloc: Global,
    scratch: &mut Scratch,
    system: &TypeSystem,
    a: &Graph,
    at: Vec<Feat>,
    b: &Graph,
) -> Result<(bool, Option<Graph>), NoMemory>
    requires bare { IsBare (system_of system.now) }
    requires feats { length system.now.introducers ≡ 5 }
    requires a { IsAnswerIn system.now a.now }
    requires b { IsAnswerIn system.now b.now }
    ensures { IfOk result (λ r. IfSome r.1 (IsAnswerIn system.now)) }
{
    if !path_in(&at, FEATS) {
        return Ok((false, None));
    }
    let mut parts = Parts::new(alloc);
    parts.add(Vec::new(alloc), a)?;
    parts.add_closed(at, b)?;
    let test = unifies(alloc, scratch, system, &parts)?;
    let graph = unify(alloc, scratch, system, &parts)?;
    Ok((test, graph))
}

// How many marks there are once room for so many nodes was made in a new scratch.
pub fn room(alloc: Global, nodes: u32) -> Result<String, AllocError> {
    let mut scratch = Scratch::new(alloc);
    match scratch.reserve(nodes) {
        Ok(()) => format!(in alloc; "{}", scratch.marks().len()),
        Err(NoMemory) => Err(AllocError),
    }
}
