//! Unification with cuts: what unification gives, without some of its features; and subsumption of graphs.
#![tactic(auto)]

ghost use Rattle.std.specs.Prelude.{◌≡◌, ◌<◌, ◌≤◌, ℕ, length, map, IfOk, IfSome, option_map, [], ◌∷◌};
ghost use Rattle.fs_model.specs.Claims.{IsBare, Has};
ghost use Rattle.fs_graph.specs.GraphMap.{reader_of};
ghost use Rattle.fs_closing.specs.Rules.{system_of};
ghost use Rattle.fs_unify.specs.Owing.{IsWellFormedBut, ListsOwed};
ghost use Rattle.fs_unify.specs.Placing.{PlacedGraph, source_of, IsPlacedIn};
ghost use Rattle.fs_unify.specs.Room.{room_of};
ghost use Rattle.tree_model.specs.Views.{IsTrimmed};
ghost use Rattle.fs_trim.specs.Cutting.{cut_of, owed_of, IsShort};
ghost use Rattle.fs_trim.specs.Owing.{FullsOwe, ShapesOwe, AbstractsOwe, ClosuresOwe};
ghost use Rattle.fs_trim.specs.Inner.Keeping.{KeepsUnified};

mod arcs;
mod kept;
mod nodes;
mod subsuming;

use fs_graph::{Feat, Graph};
use fs_unify::{NoMemory, Owed, Parts, Scratch, TypeSystem, unify_cut};
pub use kept::keep;
use std::alloc::Global;
pub use subsuming::subsumes;

/// Features that are cut off at the root alone, and features that are cut off wherever they stand.
#[derive(Debug, Drop)]
pub struct Cut {
    pub at_root: Vec<Feat>,
    pub anywhere: Vec<Feat>,
}

/// What a graph owes that this cut made of a well-formed one: the rules that have a fact which speaks of what it cuts off. Such
/// a graph can be a part by `add_cut`. `NoMemory` comes only for want of memory.
pub fn owed(alloc: Global, system: &TypeSystem, cut: &Cut) -> Result<Owed, NoMemory>
    ensures { IfOk result (ListsOwed system.now (owed_of (cut_of cut.now))) }
{
    Owed::new(alloc, system, &cut.at_root, &cut.anywhere)
}

/// A law: structures that rules make owe only facts that speak of what was cut off, whichever graphs show them. It does nothing.
pub fn owing_laws()
    ensures fulls { FullsOwe }
    ensures shapes { ShapesOwe }
    ensures abstracts { AbstractsOwe }
    ensures closures { ClosuresOwe }
{}

// What a cut keeps of the unification of graphs, which is told beside it.
fn unify_and_keep(
    alloc: Global,
    scratch: &mut Scratch,
    system: &TypeSystem,
    parts: &Parts<'_>,
    cut: &Cut,
) -> Result<Option<Graph>, NoMemory>
    requires bare { IsBare (system_of system.now) }
    requires some { 0 < length parts.now }
    requires parts { (p : PlacedGraph) → Has p parts.now → IsPlacedIn system.now p }
    ensures room { room_of scratch.old ≤ room_of scratch.new }
    ensures keeps { IfOk result (λ o. KeepsUnified system.now (source_of parts.now) (cut_of cut.now) o) }
{
    match unify_cut(alloc, scratch, system, parts, &cut.at_root, &cut.anywhere)? {
        Some(kept) => {
            kept.laws();
            Ok(Some(kept))
        }
        None => Ok(None),
    }
}

/// What a cut keeps of the unification of graphs, each at its path; `None` exactly where the closure of all that they tell is
/// inconsistent. There is one graph at least. Whatever the scratch holds, the answer is the same. It owes only facts that speak
/// of features which are cut off.
pub fn unify_without(
    alloc: Global,
    scratch: &mut Scratch,
    system: &TypeSystem,
    parts: &Parts<'_>,
    cut: &Cut,
) -> Result<Option<Graph>, NoMemory>
    requires bare { IsBare (system_of system.now) }
    requires some { 0 < length parts.now }
    requires parts { (p : PlacedGraph) → Has p parts.now → IsPlacedIn system.now p }
    ensures room { room_of scratch.old ≤ room_of scratch.new }
    ensures answer { IfOk result (λ o. IsTrimmed (system_of system.now) (source_of parts.now) [] (cut_of cut.now) (option_map reader_of o)) }
    ensures known { IfOk result (λ o. IfSome o (IsShort system.now)) }
    ensures owes { IfOk result (λ o. IfSome o (λ k. IsWellFormedBut (system_of system.now) (reader_of k) (owed_of (cut_of cut.now)))) }
{
    let kept = unify_and_keep(alloc, scratch, system, parts, cut)?;
    Ok(kept)
}

/// The same after a cut before it, whose answer is closed again.
pub fn unify_trimmed(
    alloc: Global,
    scratch: &mut Scratch,
    system: &TypeSystem,
    parts: &Parts<'_>,
    cut: &Cut,
    last: &Cut,
) -> Result<Option<Graph>, NoMemory>
    requires bare { IsBare (system_of system.now) }
    requires some { 0 < length parts.now }
    requires parts { (p : PlacedGraph) → Has p parts.now → IsPlacedIn system.now p }
    ensures room { room_of scratch.old ≤ room_of scratch.new }
    ensures answer { IfOk result (λ o. IsTrimmed (system_of system.now) (source_of parts.now) (cut_of cut.now ∷ []) (cut_of last.now) (option_map reader_of o)) }
    ensures known { IfOk result (λ o. IfSome o (IsShort system.now)) }
    ensures owes { IfOk result (λ o. IfSome o (λ k. IsWellFormedBut (system_of system.now) (reader_of k) (owed_of (cut_of last.now)))) }
{
    let Some(bare) = unify_without(alloc, scratch, system, parts, cut)? else {
        return Ok(None);
    };
    let mut alone = Parts::new(alloc);
    alone.add(Vec::new(alloc), &bare)?;
    let mother = unify_and_keep(alloc, scratch, system, &alone, last)?;
    Ok(mother)
}

/// The same where it is known what graphs owe that the first cut made: closing what it leaves takes these facts alone.
pub fn unify_trimmed_owing(
    alloc: Global,
    scratch: &mut Scratch,
    system: &TypeSystem,
    parts: &Parts<'_>,
    cut: &Cut,
    owed: &Owed,
    last: &Cut,
) -> Result<Option<Graph>, NoMemory>
    requires bare { IsBare (system_of system.now) }
    requires some { 0 < length parts.now }
    requires parts { (p : PlacedGraph) → Has p parts.now → IsPlacedIn system.now p }
    requires owed { ListsOwed system.now (owed_of (cut_of cut.now)) owed.now }
    ensures room { room_of scratch.old ≤ room_of scratch.new }
    ensures answer { IfOk result (λ o. IsTrimmed (system_of system.now) (source_of parts.now) (cut_of cut.now ∷ []) (cut_of last.now) (option_map reader_of o)) }
    ensures known { IfOk result (λ o. IfSome o (IsShort system.now)) }
    ensures owes { IfOk result (λ o. IfSome o (λ k. IsWellFormedBut (system_of system.now) (reader_of k) (owed_of (cut_of last.now)))) }
{
    let Some(bare) = unify_without(alloc, scratch, system, parts, cut)? else {
        return Ok(None);
    };
    let mut alone = Parts::new(alloc);
    alone.add_cut(Vec::new(alloc), &bare, owed)?;
    let kept = unify_and_keep(alloc, scratch, system, &alone, last)?;
    Ok(kept)
}
