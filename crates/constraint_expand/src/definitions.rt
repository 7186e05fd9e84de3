//! The type system of a grammar's statements alone, and what the structure of a definition is the closure of.

ghost use Rattle.std.specs.Prelude.{◌≡◌, ◌<◌, ◌≤◌, ◌||◌, true, map, length, IfOk, IfErr};
ghost use Rattle.type_hierarchy.specs.Decls.{texts};
ghost use Rattle.type_hierarchy.specs.Table.{count_of, completed_count};
ghost use Rattle.fs_model.specs.Claims.{IsBare};
ghost use Rattle.fs_graph.specs.Facts.{claims_of};
ghost use Rattle.fs_unify.specs.Rules.{system_of};
ghost use Rattle.body_facts.specs.Numbers.{type_number};
ghost use Rattle.body_facts.specs.WordTables.{table_of};
ghost use Rattle.grammar_files.specs.Placings.{placed_of};
ghost use Rattle.constraint_expand.specs.Statements.{statement_at, name_of, defines_type, defines_instance};
ghost use Rattle.constraint_expand.specs.Conditions.{AreTypesFor};
ghost use Rattle.constraint_expand.specs.Systems.{settled_of, constraint_claims, instance_claims, IsSystemOf};
ghost use Rattle.constraint_expand.specs.Faults.{claims_of_definition};
ghost use Rattle.constraint_expand.specs.Found.{IsEarlyFault};
ghost use Rattle.constraint_expand.specs.Shaped.{HaveClaimsIn};

use crate::OutOfMemory;
use crate::expansion::{Introductions, introduce, system_with, words_over};
use body_facts::{Names, Words};
use fs_graph::Fact;
use fs_unify::TypeSystem;
use grammar_files::placed_statements::{defines_type, name_of};
use grammar_files::{ExpandFault, Placed};
use std::alloc::Global;
use type_facts::add_facts;
use type_hierarchy::{Ty, Types};

/// The type system of a grammar's statements, and its features by number.
#[derive(Drop)]
pub struct Typed {
    pub system: TypeSystem,
    pub feats: Vec<String>,
}

/// The type system of a grammar's statements, over their completed types, or the first fault that names or features have.
pub fn type_system(
    alloc: Global,
    types: Types,
    statements: &[Placed],
    names: &Names,
) -> Result<Typed, ExpandFault>
    requires { AreTypesFor types (map placed_of statements.now) }
    ensures system { IfOk result (λ t. IsSystemOf types (settled_of names.now) (map placed_of statements.now) (texts t.feats.items) t.system) }
    ensures counts { IfOk result (λ t. completed_count types ≤ count_of types) }
    ensures bare { IfOk result (λ t. IsBare (system_of t.system)) }
    ensures fault { IfErr result (IsEarlyFault types (settled_of names.now) (map placed_of statements.now)) }
{
    let Introductions { feats, introducers } = introduce(alloc, &types, statements, names)?;
    let system = system_with(alloc, types, statements, names, &feats, introducers)?;
    Ok(Typed { system, feats })
}

// What the constraint of a type is the closure of.
fn type_claims(alloc: Global, ty: Ty) -> Result<Vec<Fact>, OutOfMemory>
    ensures { IfOk result (λ facts. claims_of facts.items ≡ constraint_claims ty.0) }
{
    let mut facts = Vec::new(alloc);
    facts.push(Fact::Below {
        path: Vec::new(alloc),
        ty,
    })?;
    Ok(facts)
}

// What the structure of an instance is the closure of.
fn body_claims(alloc: Global, words: &Words<'_>, placed: &Placed) -> Result<Vec<Fact>, OutOfMemory>
    ensures { IfOk result (λ facts. claims_of facts.items ≡ instance_claims (table_of words.now) (placed_of placed.now)) }
{
    let mut facts = Vec::new(alloc);
    facts.push(Fact::Exists {
        path: Vec::new(alloc),
    })?;
    add_facts(alloc, words, &mut facts, placed)?;
    Ok(facts)
}

// The number of a type that a statement defines.
fn type_of(types: &Types, placed: &Placed) -> Ty
    ensures { result.0 ≡ type_number types.now (name_of (placed_of placed.now)) }
{
    types.find(name_of(placed)).unwrap_or(Ty(0))
}

// What the structure of a statement's type or instance is the closure of.
fn claims_of(
    alloc: Global,
    typed: &Typed,
    names: &Names,
    placed: &Placed,
) -> Result<Vec<Fact>, OutOfMemory>
    ensures { IfOk result (λ facts. claims_of facts.items ≡ claims_of_definition typed.now.system (settled_of names.now) (texts typed.now.feats.items) (placed_of placed.now)) }
{
    let types = typed.system.types();
    if defines_type(placed) {
        return type_claims(alloc, type_of(types, placed));
    }
    let words = words_over(alloc, types, names, &typed.feats)?;
    body_claims(alloc, &words, placed)
}

/// What the structure of a definition is the closure of, by the place of the definition among the statements.
pub fn definition_claims(
    alloc: Global,
    typed: &Typed,
    statements: &[Placed],
    names: &Names,
    k: usize,
) -> Result<Vec<Fact>, OutOfMemory>
    requires types { AreTypesFor typed.now.system.types (map placed_of statements.now) }
    requires system { IsSystemOf typed.now.system.types (settled_of names.now) (map placed_of statements.now) (texts typed.now.feats.items) typed.now.system }
    requires there { k < length statements.now }
    requires defined { (defines_type (statement_at (map placed_of statements.now) k) || defines_instance (statement_at (map placed_of statements.now) k)) ≡ true }
    ensures claims { IfOk result (λ facts. claims_of facts.items ≡ claims_of_definition typed.now.system (settled_of names.now) (texts typed.now.feats.items) (statement_at (map placed_of statements.now) k)) }
    ensures within { IfOk result (λ facts. HaveClaimsIn typed.now.system (claims_of facts.items)) }
{
    let _counts = typed.system.types().counts();
    let facts = claims_of(alloc, typed, names, &statements[k])?;
    Ok(facts)
}
