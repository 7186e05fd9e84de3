//! The structures of types and instances.

ghost use Rattle.std.specs.Prelude.{◌≡◌, ℕ, ◌<◌, ◌≤◌, ◌⊎◌, map, length, IfOk, IfErr, OnOk, true};
ghost use Rattle.type_hierarchy.specs.Laws.{HasTypeLaws};
ghost use Rattle.type_hierarchy.specs.Table.{count_of, completed_count};
ghost use Rattle.fs_closing.specs.Constraints.{IsConstraint};
ghost use Rattle.fs_model.specs.Claims.{IsBare};
ghost use Rattle.fs_unify.specs.Rules.{system_of};
ghost use Rattle.body_facts.specs.WordTables.{table_of};
ghost use Rattle.grammar_files.specs.Placings.{placed_of};
ghost use Rattle.constraint_expand.specs.Statements.{statement_at, defines_instance, HoldsOfNone};
ghost use Rattle.constraint_expand.specs.Conditions.{IsDefined, HasLesserBelow, HasNoneAbove};
ghost use Rattle.constraint_expand.specs.Systems.{constraint_claims, instance_claims};
ghost use Rattle.constraint_expand.specs.Books.{AreConstraints, IsConstraintOf, instance_of};
ghost use Rattle.constraint_expand.specs.Shaped.{AreFactsDefined, IsAnswerFor, IsInstanceBy, AreShaped, HasNoConstraint, HasNoShape, IsFaultyType, IsFaultyAmongTypes, IsFaultyHere, IsFaultyAmongInstances, HaveClaimsIn};

use crate::OutOfMemory;
use crate::books::Instance;
use crate::splits::definition_of;
use body_facts::Words;
use fs_graph::{Fact, Graph};
use fs_model::closure_laws;
use fs_unify::{Constraint, Scratch, SharedGraph, TypeSystem, structure_within};
use grammar_files::placed_statements::{defines_instance, name_of};
use grammar_files::{ExpandFault, Placed};
use std::alloc::Global;
use type_facts::add_facts;
use type_hierarchy::Ty;

// The constraint of a type.
fn constraint(
    alloc: Global,
    scratch: &mut Scratch,
    system: &TypeSystem,
    ty: Ty,
    limit: u32,
) -> Result<Option<Graph>, OutOfMemory>
    requires bare { IsBare (system_of system.now) }
    requires within { ty.0 < count_of system.now.types }
    ensures { IfOk result (IsAnswerFor system.now limit (constraint_claims ty.0)) }
{
    let mut facts = Vec::new(alloc);
    facts.push(Fact::Below {
        path: Vec::new(alloc),
        ty,
    })?;
    let structure = structure_within(alloc, scratch, system, &facts, limit)?;
    Ok(structure)
}

// The fault of a type that is defined and has no structure.
fn type_fault(
    alloc: Global,
    system: &TypeSystem,
    statements: &[Placed],
    ty: Ty,
) -> Result<ExpandFault, OutOfMemory>
    requires { IsDefined system.now.types (map placed_of statements.now) ty.0 }
    ensures { IfOk result (IsFaultyType system.now.types (map placed_of statements.now) ty.0) }
{
    match definition_of(system.types(), statements, ty) {
        Some(statement) => Ok(ExpandFault::NoStructure {
            name: String::from_str(alloc, name_of(&statements[statement]))?,
            statement,
        }),
        None => unreachable!(),
    }
}

// How many completed types there are.
fn completed_count(system: &TypeSystem) -> u32
    ensures count { result ≡ completed_count system.now.types }
    ensures within { result ≤ count_of system.now.types }
    ensures laws { HasTypeLaws system.now.types }
{
    let types = system.types();
    types.laws();
    types.counts().completed
}

// The type system knows the constraint of a type from then on.
fn known(
    alloc: Global,
    system: &mut TypeSystem,
    ty: Ty,
    graph: Graph,
) -> Result<SharedGraph, OutOfMemory>
    requires within { ty.0 < count_of system.old.types }
    requires is { IsConstraint system.old ty.0 graph }
    ensures graph { IfOk result (λ g. g ≡ graph) }
    ensures same { system.new ≡ system.old }
{
    let graph = SharedGraph::new(alloc, graph)?;
    system.know(Constraint {
        ty: ty.0,
        graph: graph.share()?,
    })?;
    Ok(graph)
}

// The constraint of a type, which the type system knows from then on, or the fault of the type that has none.
fn known_constraint(
    alloc: Global,
    scratch: &mut Scratch,
    system: &mut TypeSystem,
    statements: &[Placed],
    ty: Ty,
    limit: u32,
) -> Result<SharedGraph, ExpandFault>
    requires bare { IsBare (system_of system.old) }
    requires within { ty.0 < count_of system.old.types }
    requires defined { HasNoConstraint system.old limit ty.0 → IsDefined system.old.types (map placed_of statements.now) ty.0 }
    ensures constraint { IfOk result (IsConstraintOf system.old ty.0) }
    ensures some { OnOk result (HasNoConstraint system.old limit ty.0 → ⊥) }
    ensures fault { IfErr result (λ e. (e ≡ ExpandFault.NoMemory) ⊎ HasNoConstraint system.old limit ty.0 × IsFaultyType system.old.types (map placed_of statements.now) ty.0 e) }
    ensures same { system.new ≡ system.old }
{
    match constraint(alloc, scratch, system, ty, limit)? {
        Some(graph) => Ok(known(alloc, system, ty, graph)?),
        None => Err(type_fault(alloc, system, statements, ty)?),
    }
}

/// The constraints of all completed types by number, which the type system knows then, or the fault of the first type that has none
/// within the limit on paths.
/// The type system stands for the same grammar before and after.
pub fn constraints_of(
    alloc: Global,
    scratch: &mut Scratch,
    system: &mut TypeSystem,
    statements: &[Placed],
    limit: u32,
) -> Result<Vec<SharedGraph>, ExpandFault>
    requires bare { IsBare (system_of system.old) }
    requires facts { AreFactsDefined system.old (map placed_of statements.now) }
    requires covered { (t : ℕ) → t < completed_count system.old.types → IsDefined system.old.types (map placed_of statements.now) t ⊎ (HasLesserBelow system.old.types (map placed_of statements.now) t ⊎ HasNoneAbove system.old.types (map placed_of statements.now) t) }
    ensures constraints { IfOk result (λ graphs. AreConstraints system.old graphs.items) }
    ensures all { OnOk result ((t : ℕ) → t < completed_count system.old.types → HasNoConstraint system.old limit t → ⊥) }
    ensures fault { IfErr result (IsFaultyAmongTypes system.old limit (map placed_of statements.now)) }
    ensures same { system.new ≡ system.old }
{
    closure_laws();
    let completed = completed_count(system);
    let mut graphs = Vec::new(alloc);
    for t in 0..completed {
        let graph = known_constraint(alloc, scratch, system, statements, Ty(t), limit)?;
        graphs.push(graph)?;
    }
    Ok(graphs)
}

// The structure of an instance.
fn instance_structure(
    alloc: Global,
    scratch: &mut Scratch,
    system: &TypeSystem,
    words: &Words<'_>,
    placed: &Placed,
    limit: u32,
) -> Result<Option<Graph>, OutOfMemory>
    requires bare { IsBare (system_of system.now) }
    requires within { HaveClaimsIn system.now (instance_claims (table_of words.now) (placed_of placed.now)) }
    ensures { IfOk result (IsAnswerFor system.now limit (instance_claims (table_of words.now) (placed_of placed.now))) }
{
    let mut facts = Vec::new(alloc);
    facts.push(Fact::Exists {
        path: Vec::new(alloc),
    })?;
    add_facts(alloc, words, &mut facts, placed)?;
    let structure = structure_within(alloc, scratch, system, &facts, limit)?;
    Ok(structure)
}

// The instance that a statement defines, or its fault.
fn instance(
    alloc: Global,
    scratch: &mut Scratch,
    system: &TypeSystem,
    words: &Words<'_>,
    placed: &Placed,
    statement: usize,
    limit: u32,
) -> Result<Instance, ExpandFault>
    requires bare { IsBare (system_of system.now) }
    requires within { HaveClaimsIn system.now (instance_claims (table_of words.now) (placed_of placed.now)) }
    requires picked { defines_instance (placed_of placed.now) ≡ true }
    ensures instance { IfOk result (λ i. IsInstanceBy system.now (table_of words.now) (placed_of placed.now) (instance_of i)) }
    ensures shape { OnOk result (HasNoShape system.now limit (table_of words.now) (placed_of placed.now) → ⊥) }
    ensures fault { IfErr result (IsFaultyHere system.now limit (table_of words.now) (placed_of placed.now) statement) }
{
    match instance_structure(alloc, scratch, system, words, placed, limit)? {
        Some(structure) => Ok(Instance {
            status: placed.status,
            structure,
        }),
        None => Err(ExpandFault::NoStructure {
            name: String::from_str(alloc, name_of(placed))?,
            statement,
        }),
    }
}

/// The instances in order of place, or the fault of the first that has no structure within the limit on paths.
pub fn instances_of(
    alloc: Global,
    scratch: &mut Scratch,
    system: &TypeSystem,
    words: &Words<'_>,
    statements: &[Placed],
    limit: u32,
) -> Result<Vec<Instance>, ExpandFault>
    requires bare { IsBare (system_of system.now) }
    requires within { (k : ℕ) → k < length statements.now → defines_instance (statement_at (map placed_of statements.now) k) ≡ true → HaveClaimsIn system.now (instance_claims (table_of words.now) (statement_at (map placed_of statements.now) k)) }
    ensures instances { IfOk result (λ is. AreShaped system.now (table_of words.now) (map placed_of statements.now) (map instance_of is.items)) }
    ensures all { OnOk result (HoldsOfNone defines_instance (map placed_of statements.now) (HasNoShape system.now limit (table_of words.now))) }
    ensures fault { IfErr result (IsFaultyAmongInstances system.now limit (table_of words.now) (map placed_of statements.now)) }
{
    let mut instances = Vec::new(alloc);
    for i in 0..statements.len() {
        let placed = &statements[i];
        if defines_instance(placed) {
            let one = instance(alloc, scratch, system, words, placed, i, limit)?;
            instances.push(one)?;
        }
    }
    Ok(instances)
}
