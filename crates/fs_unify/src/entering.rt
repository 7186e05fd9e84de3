//! Graphs that enter as nodes.

ghost use Rattle.std.specs.Prelude.{◌≡◌, ℕ, ◌+◌, ◌<◌, ◌≤◌, ◌^◌, List, if◌then◌else◌, true, None, Some, length, option_map, IfOk, OnOk, slice_index_or};
ghost use Rattle.fs_model.specs.Claims.{Claim, Has, IsBare};
ghost use Rattle.fs_model.specs.Table.{Table, Follows, Seen, from};
ghost use Rattle.fs_graph.specs.declared.graph.GraphArc.{GraphArc};
ghost use Rattle.fs_graph.specs.GraphMap.{type_at, table_of as graph_table};
ghost use Rattle.fs_closing.specs.declared.tasks.Bound.{Bound};
ghost use Rattle.fs_closing.specs.NodeTable.{table_of, AreFlat};
ghost use Rattle.fs_unify.specs.declared.debts.Debt.{Debt as DebtValue};
ghost use Rattle.fs_unify.specs.Debts.{bound_claims, IsDebt};
ghost use Rattle.fs_unify.specs.Entering.{IsGraphIn, EntersTable, Owes, EntersOwing, Carries, ArePaid, introducer_claims};
ghost use Rattle.fs_unify.specs.Owing.{OwedFacts, ListsOwed, OwesRules, OwesOnly};
ghost use Rattle.fs_unify.specs.Placing.{owing_of};
ghost use Rattle.type_hierarchy.specs.Table.{count_of, is_below};
ghost use Rattle.fs_closing.specs.Rules.{Rule, system_of, no_rule, facts_in};
ghost use Rattle.fs_closing.specs.Joined.{IsJoined};
ghost use Rattle.fs_closing.specs.Work.{work_of, AreReady};
ghost use Rattle.fs_closing.specs.Keeps.{AreSound};

use crate::debts::Debt;
use crate::owed::Owed;
use crate::parts::Standing;
use fs_closing::NoMemory;
use fs_closing::nodes::{Nodes, add_graph};
use fs_closing::steps::push_rules;
use fs_closing::system::TypeSystem;
use fs_closing::tasks::{Bound, Tasks};
use fs_graph::{Graph, GraphArc, Node};

// Puts a node at or below the introducers of its arcs.
fn push_introducers(
    tasks: &mut Tasks,
    system: &TypeSystem,
    node: u32,
    arcs: &[GraphArc],
) -> Result<(), NoMemory>
    requires { (a : GraphArc) → Has a arcs.now → a.feat.0 < length system.now.introducers }
    ensures work { OnOk result (IsJoined (introducer_claims (system_of system.now) node arcs.now) (work_of system.now.rules tasks.old) (work_of system.now.rules tasks.new)) }
    ensures ready { OnOk result ((size rules : ℕ) → node < size → AreReady size (count_of system.now.types) rules tasks.old → AreReady size (count_of system.now.types) rules tasks.new) }
{
    for arc in arcs {
        tasks.push_bound(node, system.introducer(arc.feat.0))?;
    }
    Ok(())
}

/// What the types and arcs of a graph's nodes force becomes work. The nodes begin at an offset.
pub fn push_nodes(
    tasks: &mut Tasks,
    system: &TypeSystem,
    graph: &Graph,
    offset: u32,
) -> Result<(), NoMemory>
    requires bare { IsBare (system_of system.now) }
    requires graph { IsGraphIn (count_of system.now.types) (length system.now.introducers) graph.now }
    requires small { offset + length graph.now.types < 2 ^ 32 }
    ensures owes { OnOk result (Owes (system_of system.now) offset graph.now (length graph.now.types) (work_of system.now.rules tasks.old) (work_of system.now.rules tasks.new)) }
    ensures ready { OnOk result ((size : ℕ) → offset + length graph.now.types ≤ size → AreReady size (count_of system.now.types) (length system.now.rules) tasks.old → AreReady size (count_of system.now.types) (length system.now.rules) tasks.new) }
{
    system.laws();
    for k in 0..graph.nodes() {
        let node = Node(k);
        push_rules(tasks, system, offset + k, graph.ty(node).0, 0, 0)?;
        push_introducers(tasks, system, offset + k, graph.arcs(node))?;
    }
    Ok(())
}

// Bounds of nodes that begin at an offset become work.
fn push_bounds(tasks: &mut Tasks, bounds: &[Bound], offset: u32) -> Result<(), NoMemory>
    requires small { (b : Bound) → Has b bounds.now → offset + b.node < 2 ^ 32 }
    ensures work { OnOk result ((all : List Rule) → IsJoined (bound_claims offset bounds.now) (work_of all tasks.old) (work_of all tasks.new)) }
    ensures ready { OnOk result ((size types count : ℕ) → ((b : Bound) → Has b bounds.now → (offset + b.node < size) × (b.ty < types)) → AreReady size types count tasks.old → AreReady size types count tasks.new) }
{
    for bound in bounds {
        tasks.push_bound(offset + bound.node, bound.ty)?;
    }
    Ok(())
}

// What a node owes enters as a graph, whose root is to be the node.
fn enter_debt<'a>(
    nodes: &mut Nodes<'a>,
    tasks: &mut Tasks,
    system: &TypeSystem,
    node: u32,
    debt: &'a Debt,
) -> Result<(), NoMemory>
    requires sound { AreSound system.now nodes.old tasks.old }
    requires node { node < nodes.old.size }
    requires debt { (ty : ℕ) × IsDebt system.now ty debt.now × (is_below system.now.types ((table_of nodes.old).type_of node) ty ≡ true) }
    ensures carries { OnOk result (Carries (system_of system.now) (table_of nodes.old) (work_of system.now.rules tasks.old) (table_of nodes.new) (work_of system.now.rules tasks.new)) }
    ensures stands { OnOk result ((c : Claim) → Seen (system_of system.now) (graph_table debt.now.graph) (from 0 c) → Follows (system_of system.now) (table_of nodes.new) (work_of system.now.rules tasks.new) (from node c)) }
    ensures flat { OnOk result (AreFlat nodes.old → AreFlat nodes.new) }
    ensures sound { OnOk result (AreSound system.now nodes.new tasks.new) }
{
    system.laws();
    debt.graph.laws();
    let root = add_graph(nodes, &debt.graph, 0, 0)?;
    tasks.push_pair(node, root)?;
    push_bounds(tasks, &debt.bounds, root)?;
    Ok(())
}

// What a rule says is to hold at a node: what its type owes enters, where it is known, and else its facts become work.
fn enter_rule<'a>(
    nodes: &mut Nodes<'a>,
    tasks: &mut Tasks,
    system: &TypeSystem,
    node: u32,
    rule: u32,
    debt: Option<&'a Debt>,
) -> Result<(), NoMemory>
    requires sound { AreSound system.now nodes.old tasks.old }
    requires node { node < nodes.old.size }
    requires rule { rule < length system.now.rules }
    requires above { is_below system.now.types ((table_of nodes.old).type_of node) (slice_index_or system.now.rules rule no_rule).ty ≡ true }
    requires debt { (d : DebtValue) → option_map (λ x. x.now) debt ≡ Some d → IsDebt system.now (slice_index_or system.now.rules rule no_rule).ty d }
    ensures carries { OnOk result (Carries (system_of system.now) (table_of nodes.old) (work_of system.now.rules tasks.old) (table_of nodes.new) (work_of system.now.rules tasks.new)) }
    ensures says { OnOk result (option_map (λ x. x.now) debt.entry ≡ None → (c : Claim) → Has c (slice_index_or system.now.rules rule no_rule).claims → Follows (system_of system.now) (table_of nodes.new) (work_of system.now.rules tasks.new) (from node c)) }
    ensures stands { OnOk result ((d : DebtValue) → option_map (λ x. x.now) debt.entry ≡ Some d → (c : Claim) → Seen (system_of system.now) (graph_table d.graph) (from 0 c) → Follows (system_of system.now) (table_of nodes.new) (work_of system.now.rules tasks.new) (from node c)) }
    ensures flat { OnOk result (AreFlat nodes.old → AreFlat nodes.new) }
    ensures sound { OnOk result (AreSound system.now nodes.new tasks.new) }
{
    match debt {
        Some(known) => enter_debt(nodes, tasks, system, node, known),
        None => tasks.push_entry(node, rule, 0),
    }
}

// What is owed at a node of a type, which is the root of its graph or not.
fn enter_rules<'a>(
    nodes: &mut Nodes<'a>,
    tasks: &mut Tasks,
    system: &TypeSystem,
    owed: &'a Owed,
    node: u32,
    is_root: bool,
    ty: u32,
) -> Result<(), NoMemory>
    requires sound { AreSound system.now nodes.old tasks.old }
    requires node { node < nodes.old.size }
    requires ty_in { ty < count_of system.now.types }
    requires type_is { (table_of nodes.old).type_of node ≡ ty }
    requires lists { (facts : OwedFacts) × ListsOwed system.now facts owed.now }
    ensures carries { OnOk result (Carries (system_of system.now) (table_of nodes.old) (work_of system.now.rules tasks.old) (table_of nodes.new) (work_of system.now.rules tasks.new)) }
    ensures paid { OnOk result ((facts : OwedFacts) (x : ℕ) (c : Claim) → ListsOwed system.now facts owed.now → is_below system.now.types ty x ≡ true → Has c (facts_in system.now.rules x) → (if is_root then facts.at_root else facts.further) c ≡ true → Follows (system_of system.now) (table_of nodes.new) (work_of system.now.rules tasks.new) (from node c)) }
    ensures flat { OnOk result (AreFlat nodes.old → AreFlat nodes.new) }
    ensures sound { OnOk result (AreSound system.now nodes.new tasks.new) }
{
    for rule in owed.rules(is_root, ty) {
        enter_rule(nodes, tasks, system, node, *rule, owed.debt(is_root, *rule))?;
    }
    Ok(())
}

/// What a graph owes enters at its nodes, which begin at an offset.
pub fn enter_owed<'a>(
    nodes: &mut Nodes<'a>,
    tasks: &mut Tasks,
    system: &TypeSystem,
    graph: &Graph,
    offset: u32,
    owed: &'a Owed,
) -> Result<(), NoMemory>
    requires sound { AreSound system.now nodes.old tasks.old }
    requires graph { IsGraphIn (count_of system.now.types) (length system.now.introducers) graph.now }
    requires owes { OwesRules system.now graph.now owed.now }
    requires inside { offset + length graph.now.types ≤ nodes.old.size }
    requires types_are { (k : ℕ) → k < length graph.now.types → (table_of nodes.old).type_of (offset + k) ≡ type_at graph.now k }
    ensures carries { OnOk result (Carries (system_of system.now) (table_of nodes.old) (work_of system.now.rules tasks.old) (table_of nodes.new) (work_of system.now.rules tasks.new)) }
    ensures paid { OnOk result (ArePaid system.now graph.now offset (length graph.now.types) (table_of nodes.new) (work_of system.now.rules tasks.new)) }
    ensures flat { OnOk result (AreFlat nodes.old → AreFlat nodes.new) }
    ensures sound { OnOk result (AreSound system.now nodes.new tasks.new) }
{
    for k in 0..graph.nodes() {
        enter_rules(
            nodes,
            tasks,
            system,
            owed,
            offset + k,
            k == 0,
            graph.ty(Node(k)).0,
        )?;
    }
    Ok(())
}

// What a graph's nodes force becomes work, or enters, but for what is known to hold. The nodes begin at an offset.
fn enter_forced<'a>(
    nodes: &mut Nodes<'a>,
    tasks: &mut Tasks,
    system: &TypeSystem,
    graph: &Graph,
    offset: u32,
    standing: Standing<'a>,
) -> Result<(), NoMemory>
    requires bare { IsBare (system_of system.now) }
    requires sound { AreSound system.now nodes.old tasks.old }
    requires graph { IsGraphIn (count_of system.now.types) (length system.now.introducers) graph.now }
    requires owes { OwesOnly system.now graph.now (owing_of standing) }
    requires inside { offset + length graph.now.types ≤ nodes.old.size }
    requires types_are { (k : ℕ) → k < length graph.now.types → (table_of nodes.old).type_of (offset + k) ≡ type_at graph.now k }
    ensures owed { OnOk result ((t : Table) → t.size ≡ offset → EntersTable graph.now t (table_of nodes.old) → EntersOwing (system_of system.now) graph.now t (work_of system.now.rules tasks.old) (table_of nodes.new) (work_of system.now.rules tasks.new)) }
    ensures flat { OnOk result (AreFlat nodes.old → AreFlat nodes.new) }
    ensures sound { OnOk result (AreSound system.now nodes.new tasks.new) }
{
    graph.laws();
    match standing {
        Standing::Closed => Ok(()),
        Standing::Open => push_nodes(tasks, system, graph, offset),
        Standing::Cut(owed) => enter_owed(nodes, tasks, system, graph, offset, owed),
    }
}

/// A graph enters, after those before it: its nodes, and what their types and arcs force. The answer is the number of its root.
pub fn enter<'a>(
    nodes: &mut Nodes<'a>,
    tasks: &mut Tasks,
    system: &TypeSystem,
    graph: &'a Graph,
    standing: Standing<'a>,
) -> Result<u32, NoMemory>
    requires bare { IsBare (system_of system.now) }
    requires sound { AreSound system.now nodes.old tasks.old }
    requires graph { IsGraphIn (count_of system.now.types) (length system.now.introducers) graph.now }
    requires owes { OwesOnly system.now graph.now (owing_of standing) }
    ensures place { IfOk result (λ o. o ≡ nodes.old.size) }
    ensures enters { OnOk result (EntersOwing (system_of system.now) graph.now (table_of nodes.old) (work_of system.now.rules tasks.old) (table_of nodes.new) (work_of system.now.rules tasks.new)) }
    ensures flat { OnOk result (AreFlat nodes.old → AreFlat nodes.new) }
    ensures sound { OnOk result (AreSound system.now nodes.new tasks.new) }
{
    let offset = add_graph(nodes, graph, 0, 0)?;
    enter_forced(nodes, tasks, system, graph, offset, standing)?;
    Ok(offset)
}
