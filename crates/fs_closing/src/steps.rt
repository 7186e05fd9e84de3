//! Steps of a closing: arcs, merged nodes, lowered types.

ghost use Rattle.std.specs.Prelude.{◌≡◌, ◌≢◌, ℕ, ◌<◌, ◌≤◌, ◌⊎◌, length, false, [], ◌∷◌, ◌++◌, IfOk, OnOk, IfSome, Some, true, slice_index_or};
ghost use Rattle.type_hierarchy.specs.Table.{count_of, is_below, meet_of};
ghost use Rattle.type_hierarchy.specs.Laws.{HasTypeLaws};
ghost use Rattle.fs_model.specs.Claims.{IsOrder};
ghost use Rattle.fs_model.specs.Table.{is_same, is_under};
ghost use Rattle.fs_closing.specs.Cells.{chain};
ghost use Rattle.fs_closing.specs.NodeTable.{table_of, own_row, IsWhole};
ghost use Rattle.fs_closing.specs.NodeSteps.{KeepsArcs};
ghost use Rattle.fs_closing.specs.Rules.{system_of, no_rule};
ghost use Rattle.fs_closing.specs.Joined.{IsJoined};
ghost use Rattle.fs_closing.specs.Work.{work_of, entry_claims, AreReady};
ghost use Rattle.fs_closing.specs.Keeps.{AreSound, Leads, StepsTo, arc_claims, IsHeld, PushesFacts};

use crate::NoMemory;
use crate::nodes::{Nodes, add_arc, first_of, live, set_type, ty_of, unite};
use crate::parts::{own_arc, own_arcs, own_cell, own_count};
use crate::system::TypeSystem;
use crate::tasks::Tasks;
use type_hierarchy::Ty;

/// The arc of a node with a feature.
pub fn arc_of(nodes: &Nodes<'_>, n: u32, feat: u32) -> Option<u32>
    requires node { n < nodes.now.size }
    requires sound { IsWhole nodes.now }
    ensures value { result ≡ (table_of nodes.now).arc n feat }
    ensures within { IfSome result (λ m. m < nodes.now.size) }
{
    if let Some(to) = nodes.cells.find(n, first_of(nodes, n), feat) {
        return Some(to);
    }
    own_arc(&nodes.parts, n, feat)
}

/// The meet of two types. It costs no test of types where one is the top type, as that of a new node is, or both are one.
pub fn meet(system: &TypeSystem, a: u32, b: u32) -> Option<u32>
    requires a_in { a < count_of system.now.types }
    requires b_in { b < count_of system.now.types }
    ensures value { result ≡ meet_of system.now.types a b }
    ensures within { IfSome result (λ m. m < count_of system.now.types) }
    ensures laws { HasTypeLaws system.now.types }
{
    let types = system.types();
    types.laws();
    if a == 0 {
        return Some(b);
    }
    if a == b {
        return Some(b);
    }
    if b == 0 {
        return Some(a);
    }
    let Some(met) = types.meet(Ty(a), Ty(b)) else {
        return None;
    };
    Some(met.0)
}

// Whether the facts of a rule hold at a type already. None is told of the top type, so no test is spent on it.
fn holds(system: &TypeSystem, ty: u32, rule: u32) -> bool
    requires ty_in { ty < count_of system.now.types }
    requires rule_in { rule < length system.now.rules }
    ensures { result ≡ true → is_below system.now.types ty (slice_index_or system.now.rules rule no_rule).ty ≡ true }
{
    if ty == 0 {
        return false;
    }
    system
        .types()
        .at_or_below(Ty(ty), Ty(system.rule_type(rule)))
}

// The facts of a rule are to hold at a node, unless they hold at one of two types already.
fn push_rule(
    tasks: &mut Tasks,
    system: &TypeSystem,
    node: u32,
    old: u32,
    other: u32,
    rule: u32,
) -> Result<(), NoMemory>
    requires rule_in { rule < length system.now.rules }
    requires old_in { old < count_of system.now.types }
    requires other_in { other < count_of system.now.types }
    ensures work { OnOk result ((IsHeld system.now old other (slice_index_or system.now.rules rule no_rule).ty × (tasks.new ≡ tasks.old)) ⊎ IsJoined (entry_claims system.now.rules (record { node = node; rule = rule; from = 0 })) (work_of system.now.rules tasks.old) (work_of system.now.rules tasks.new)) }
    ensures ready { OnOk result ((size types : ℕ) → node < size → AreReady size types (length system.now.rules) tasks.old → AreReady size types (length system.now.rules) tasks.new) }
{
    if holds(system, old, rule) {
        return Ok(());
    }
    if other != old && holds(system, other, rule) {
        return Ok(());
    }
    tasks.push_entry(node, rule, 0)?;
    Ok(())
}

/// The facts of the types at or above a type are to hold at a node, but for those of types that one of two old types is at or
/// below.
pub fn push_rules(
    tasks: &mut Tasks,
    system: &TypeSystem,
    node: u32,
    ty: u32,
    old: u32,
    other: u32,
) -> Result<(), NoMemory>
    requires ty_in { ty < count_of system.now.types }
    requires old_in { old < count_of system.now.types }
    requires other_in { other < count_of system.now.types }
    ensures work { OnOk result (PushesFacts (system_of system.now) node ty old other (work_of system.now.rules tasks.old) (work_of system.now.rules tasks.new)) }
    ensures ready { OnOk result ((size types : ℕ) → node < size → AreReady size types (length system.now.rules) tasks.old → AreReady size types (length system.now.rules) tasks.new) }
{
    if ty == old {
        return Ok(());
    }
    if ty == other {
        return Ok(());
    }
    for rule in system.rules_above(ty) {
        push_rule(tasks, system, node, old, other, *rule)?;
    }
    Ok(())
}

/// A node's type becomes its meet with another type. `old` is its type.
pub fn lower(
    nodes: &mut Nodes<'_>,
    tasks: &mut Tasks,
    system: &TypeSystem,
    n: u32,
    old: u32,
    ty: u32,
) -> Result<(), NoMemory>
    requires order { IsOrder (system_of system.now) }
    requires sound { AreSound system.now nodes.old tasks.old }
    requires node { n < nodes.old.size }
    requires type_is { old ≡ (table_of nodes.old).type_of n }
    requires ty_in { ty < count_of system.now.types }
    ensures leads { OnOk result ((m u : ℕ) → (table_of nodes.old).live m ≡ n → meet_of system.now.types ((table_of nodes.old).type_of n) u ≡ Some ty → Leads system.now nodes.old (is_under m [] u ∷ work_of system.now.rules tasks.old) nodes.new (work_of system.now.rules tasks.new)) }
    ensures arcs { OnOk result (KeepsArcs nodes.old nodes.new) }
    ensures sound { OnOk result (AreSound system.now nodes.new tasks.new) }
{
    set_type(nodes, n, ty);
    push_rules(tasks, system, n, ty, old, old)?;
    Ok(())
}

/// A node's type is put at or below a type by facts alone. The answer is false where the two have no common subtype.
pub fn bound(
    nodes: &mut Nodes<'_>,
    tasks: &mut Tasks,
    system: &TypeSystem,
    node: u32,
    ty: u32,
) -> Result<bool, NoMemory>
    requires sound { AreSound system.now nodes.old tasks.old }
    requires node { node < nodes.old.size }
    requires ty_in { ty < count_of system.now.types }
    ensures steps { IfOk result (StepsTo system.now nodes.old (is_under node [] ty ∷ work_of system.now.rules tasks.old) nodes.new tasks.new) }
    ensures arcs { OnOk result (KeepsArcs nodes.old nodes.new) }
{
    let n = live(nodes, node);
    let old = ty_of(nodes, n);
    let Some(met) = meet(system, old, ty) else {
        return Ok(false);
    };
    if met == old {
        return Ok(true);
    }
    lower(nodes, tasks, system, n, old, met)?;
    Ok(true)
}

/// A node that isn't merged is to have an arc. The answer is false where its type and the feature's introducer have no common
/// subtype.
pub fn attach(
    nodes: &mut Nodes<'_>,
    tasks: &mut Tasks,
    system: &TypeSystem,
    n: u32,
    feat: u32,
    to: u32,
) -> Result<bool, NoMemory>
    requires sound { AreSound system.now nodes.old tasks.old }
    requires node { n < nodes.old.size }
    requires to_in { to < nodes.old.size }
    requires feat_in { feat < length system.now.introducers }
    requires stays { (table_of nodes.old).live n ≡ n }
    ensures steps { IfOk result (StepsTo system.now nodes.old (is_same n (feat ∷ []) to [] ∷ work_of system.now.rules tasks.old) nodes.new tasks.new) }
    ensures arcs { OnOk result (KeepsArcs nodes.old nodes.new) }
{
    if let Some(found) = arc_of(nodes, n, feat) {
        tasks.push_pair(found, to)?;
        return Ok(true);
    }
    let introducer = system.introducer(feat);
    add_arc(nodes, n, feat, to)?;
    let ok = bound(nodes, tasks, system, n, introducer)?;
    Ok(ok)
}

/// A node that isn't merged is to have the arcs from a place on. The answer is false where a clash was met.
pub fn attach_cells(
    nodes: &mut Nodes<'_>,
    tasks: &mut Tasks,
    system: &TypeSystem,
    n: u32,
    first: u32,
) -> Result<bool, NoMemory>
    requires sound { AreSound system.now nodes.old tasks.old }
    requires node { n < nodes.old.size }
    requires first_in { first ≤ length nodes.old.cells }
    requires stays { (table_of nodes.old).live n ≡ n }
    ensures steps { IfOk result (StepsTo system.now nodes.old (arc_claims n (chain nodes.old.cells first) ++ work_of system.now.rules tasks.old) nodes.new tasks.new) }
    ensures arcs { OnOk result (KeepsArcs nodes.old nodes.new) }
{
    let mut place = first;
    while place != 0 {
        let cell = nodes.cells.at(place);
        match attach(nodes, tasks, system, n, cell.feat, cell.to)? {
            true => place = cell.next,
            false => return Ok(false),
        }
    }
    Ok(true)
}

/// A node that isn't merged is to have the arcs that another one has from its graph. The answer is false where a clash was met.
pub fn attach_own(
    nodes: &mut Nodes<'_>,
    tasks: &mut Tasks,
    system: &TypeSystem,
    n: u32,
    of: u32,
) -> Result<bool, NoMemory>
    requires sound { AreSound system.now nodes.old tasks.old }
    requires node { n < nodes.old.size }
    requires of_in { of < nodes.old.size }
    requires stays { (table_of nodes.old).live n ≡ n }
    ensures steps { IfOk result (StepsTo system.now nodes.old (arc_claims n (own_row nodes.old of) ++ work_of system.now.rules tasks.old) nodes.new tasks.new) }
    ensures size { OnOk result (nodes.new.size ≡ nodes.old.size) }
{
    let own = own_arcs(&nodes.parts, of);
    for i in 0..own.arcs.len() {
        let cell = own_cell(own.base, own.arcs, i);
        match attach(nodes, tasks, system, n, cell.feat, cell.to)? {
            true => {}
            false => return Ok(false),
        }
    }
    Ok(true)
}

/// A node that isn't merged is to have the arcs from a place on, and those that another one has from its graph. The answer is
/// false where a clash was met.
pub fn attach_all(
    nodes: &mut Nodes<'_>,
    tasks: &mut Tasks,
    system: &TypeSystem,
    n: u32,
    first: u32,
    of: u32,
) -> Result<bool, NoMemory>
    requires sound { AreSound system.now nodes.old tasks.old }
    requires node { n < nodes.old.size }
    requires first_in { first ≤ length nodes.old.cells }
    requires of_in { of < nodes.old.size }
    requires stays { (table_of nodes.old).live n ≡ n }
    ensures steps { IfOk result (StepsTo system.now nodes.old (arc_claims n (chain nodes.old.cells first ++ own_row nodes.old of) ++ work_of system.now.rules tasks.old) nodes.new tasks.new) }
    ensures size { OnOk result (nodes.new.size ≡ nodes.old.size) }
{
    match attach_cells(nodes, tasks, system, n, first)? {
        true => {
            let ok = attach_own(nodes, tasks, system, n, of)?;
            Ok(ok)
        }
        false => Ok(false),
    }
}

/// Merges b, which isn't the root, into a, whose type becomes the meet of both; b's arcs are to be a's. The answer is false where there is no meet,
/// or another clash was met.
pub fn merge(
    nodes: &mut Nodes<'_>,
    tasks: &mut Tasks,
    system: &TypeSystem,
    a: u32,
    b: u32,
) -> Result<bool, NoMemory>
    requires sound { AreSound system.now nodes.old tasks.old }
    requires a_in { a < nodes.old.size }
    requires b_in { b < nodes.old.size }
    requires apart { a ≢ b }
    requires no_root { b ≢ 0 }
    requires a_stays { (table_of nodes.old).live a ≡ a }
    requires b_stays { (table_of nodes.old).live b ≡ b }
    ensures steps { IfOk result (λ ok. (n m : ℕ) → (table_of nodes.old).live n ≡ a → (table_of nodes.old).live m ≡ b → StepsTo system.now nodes.old (is_same n [] m [] ∷ work_of system.now.rules tasks.old) nodes.new tasks.new ok) }
    ensures size { OnOk result (nodes.new.size ≡ nodes.old.size) }
{
    if nodes.merges == u32::MAX {
        return Err(NoMemory);
    }
    let old = ty_of(nodes, a);
    let other = ty_of(nodes, b);
    let Some(met) = meet(system, old, other) else {
        return Ok(false);
    };
    let first = first_of(nodes, b);
    unite(nodes, a, b, met);
    push_rules(tasks, system, a, met, old, other)?;
    let ok = attach_all(nodes, tasks, system, a, first, b)?;
    Ok(ok)
}

// Whether a node is to be merged into another one, rather than the other way round: the one with fewer arcs from its graph goes,
// but never the root.
fn is_barer(nodes: &Nodes<'_>, n: u32, than: u32) -> bool
    requires whole { IsWhole nodes.now }
    requires n_in { n < nodes.now.size }
    requires than_in { than < nodes.now.size }
    requires apart { n ≢ than }
    ensures yes { result ≡ true → n ≢ 0 }
    ensures no { result ≡ false → than ≢ 0 }
{
    if n == 0 {
        return false;
    }
    if than == 0 {
        return true;
    }
    own_count(&nodes.parts, n) <= own_count(&nodes.parts, than)
}

/// Two nodes become one. The answer is false where their types have no common subtype, or another clash was met.
pub fn join(
    nodes: &mut Nodes<'_>,
    tasks: &mut Tasks,
    system: &TypeSystem,
    node: u32,
    other: u32,
) -> Result<bool, NoMemory>
    requires sound { AreSound system.now nodes.old tasks.old }
    requires node { node < nodes.old.size }
    requires other { other < nodes.old.size }
    ensures steps { IfOk result (StepsTo system.now nodes.old (is_same node [] other [] ∷ work_of system.now.rules tasks.old) nodes.new tasks.new) }
    ensures size { OnOk result (nodes.new.size ≡ nodes.old.size) }
{
    let a = live(nodes, node);
    let b = live(nodes, other);
    if a == b {
        return Ok(true);
    }
    if is_barer(nodes, b, a) {
        let ok = merge(nodes, tasks, system, a, b)?;
        return Ok(ok);
    }
    let ok = merge(nodes, tasks, system, b, a)?;
    Ok(ok)
}
