//! The expansion of a grammar's statements.

ghost use Rattle.std.specs.Prelude.{◌≡◌, ℕ, ◌<◌, ◌≤◌, true, map, length, IfOk, IfErr, OnOk};
ghost use Rattle.type_hierarchy.specs.Decls.{texts};
ghost use Rattle.type_hierarchy.specs.Table.{count_of, completed_count};
ghost use Rattle.fs_model.specs.Claims.{IsBare};
ghost use Rattle.fs_unify.specs.Rules.{IsGrammar, system_of};
ghost use Rattle.fs_unify.specs.Systems.{rules_of};
ghost use Rattle.body_facts.specs.Writing.{list_names};
ghost use Rattle.body_facts.specs.WordTables.{table_of};
ghost use Rattle.grammar_files.specs.Placings.{placed_of};
ghost use Rattle.constraint_expand.specs.Statements.{statement_at, defines_instance, HoldsOfNone};
ghost use Rattle.constraint_expand.specs.Conditions.{AreTypesFor};
ghost use Rattle.constraint_expand.specs.Introducers.{numbers_of};
ghost use Rattle.constraint_expand.specs.Systems.{settled_of, words_of, rules_in, instance_claims, IsSystemOf};
ghost use Rattle.constraint_expand.specs.Books.{instance_of, IsBookOf};
ghost use Rattle.constraint_expand.specs.Faults.{IsFaultOf};
ghost use Rattle.constraint_expand.specs.Found.{IsIntroduced, IsEarlyFault};
ghost use Rattle.constraint_expand.specs.Shaped.{HaveClaimsIn, AreShaped, HasNoShape, IsFaultyAmongInstances};

use crate::OutOfMemory;
use crate::books::{Book, Instance};
use crate::features::{features_written, in_order};
use crate::missing::check_written;
use crate::numbers::book_names;
use crate::splits::{check_introducers, introducers_of};
use crate::structures::{constraints_of, instances_of};
use crate::unknown::check_names;
use crate::writers::writers_by_feature;
use body_facts::{Names, Words};
use fs_unify::{Scratch, TypeFacts, TypeSystem};
use grammar_files::{ExpandFault, Placed};
use std::alloc::Global;
use type_facts::rules_in;
use type_hierarchy::{Ty, Types};

/// The features of a grammar and their introducers.
#[derive(Drop)]
pub(crate) struct Introductions {
    pub(crate) feats: Vec<String>,
    pub(crate) introducers: Vec<Ty>,
}

/// The features and their introducers, or the first fault that names or features have.
pub(crate) fn introduce(
    alloc: Global,
    types: &Types,
    statements: &[Placed],
    names: &Names,
) -> Result<Introductions, ExpandFault>
    requires { AreTypesFor types.now (map placed_of statements.now) }
    ensures introduced { IfOk result (λ i. IsIntroduced types.now (settled_of names.now) (map placed_of statements.now) (texts i.feats.items) (numbers_of i.introducers.items)) }
    ensures fault { IfErr result (IsEarlyFault types.now (settled_of names.now) (map placed_of statements.now)) }
{
    let _counts = types.counts();
    check_names(alloc, types, names, statements)?;
    let features = features_written(alloc, names, statements)?;
    let writers = writers_by_feature(alloc, types, names, statements)?;
    check_written(alloc, &writers, types, names, statements)?;
    check_introducers(alloc, types, &writers, &features, statements)?;
    let feats = in_order(alloc, &features)?;
    let introducers = introducers_of(alloc, types, &writers, &feats)?;
    Ok(Introductions { feats, introducers })
}

// The facts of types.
fn type_facts(
    alloc: Global,
    types: &Types,
    statements: &[Placed],
    names: &Names,
    feats: &[String],
) -> Result<Vec<TypeFacts>, OutOfMemory>
    ensures { IfOk result (λ rules. rules_of rules.items ≡ rules_in (words_of types.now (list_names names.now) (texts feats.now)) (map placed_of statements.now)) }
{
    let words = words_over(alloc, types, names, feats)?;
    rules_in(alloc, &words, statements)
}

/// The type system of introductions and the facts of types.
pub(crate) fn system_with(
    alloc: Global,
    types: Types,
    statements: &[Placed],
    names: &Names,
    feats: &[String],
    introducers: Vec<Ty>,
) -> Result<TypeSystem, OutOfMemory>
    requires types { AreTypesFor types (map placed_of statements.now) }
    requires introduced { IsIntroduced types (settled_of names.now) (map placed_of statements.now) (texts feats.now) (numbers_of introducers.items) }
    ensures system { IfOk result (IsSystemOf types (settled_of names.now) (map placed_of statements.now) (texts feats.now)) }
    ensures in_range { IfOk result IsGrammar }
    ensures bare { IfOk result (λ g. IsBare (system_of g)) }
    ensures counts { IfOk result (λ g. completed_count types ≤ count_of types) }
{
    let _counts = types.counts();
    types.laws();
    let rules = type_facts(alloc, &types, statements, names, feats)?;
    let system = TypeSystem::new(alloc, types, introducers, rules, names.path_limit)?;
    Ok(system)
}

/// The words of bodies over these types, names and features.
pub(crate) fn words_over<'a>(
    alloc: Global,
    types: &'a Types,
    names: &'a Names,
    feats: &'a [String],
) -> Result<Words<'a>, OutOfMemory>
    ensures { IfOk result (λ words. table_of words ≡ words_of types.now (list_names names.now) (texts feats.now)) }
{
    let words = Words::new(alloc, types, names, feats)?;
    Ok(words)
}

// The instances with their structures, or the fault of the first that has none.
fn instances_with(
    alloc: Global,
    scratch: &mut Scratch,
    system: &TypeSystem,
    statements: &[Placed],
    names: &Names,
    feats: &[String],
) -> Result<Vec<Instance>, ExpandFault>
    requires bare { IsBare (system_of system.now) }
    requires within { (k : ℕ) → k < length statements.now → defines_instance (statement_at (map placed_of statements.now) k) ≡ true → HaveClaimsIn system.now (instance_claims (words_of system.now.types (list_names names.now) (texts feats.now)) (statement_at (map placed_of statements.now) k)) }
    ensures instances { IfOk result (λ is. AreShaped system.now (words_of system.now.types (list_names names.now) (texts feats.now)) (map placed_of statements.now) (map instance_of is.items)) }
    ensures all { OnOk result (HoldsOfNone defines_instance (map placed_of statements.now) (HasNoShape system.now names.now.node_limit (words_of system.now.types (list_names names.now) (texts feats.now)))) }
    ensures fault { IfErr result (IsFaultyAmongInstances system.now names.now.node_limit (words_of system.now.types (list_names names.now) (texts feats.now)) (map placed_of statements.now)) }
{
    let words = words_over(alloc, system.types(), names, feats)?;
    instances_of(alloc, scratch, system, &words, statements, names.node_limit)
}

/// Expands a grammar's statements: the type system, the constraint of each completed type, the structure of each instance,
/// and what the settings name (Copestake 2002: constraints of types are closed, well-formed typed feature structures).
///
/// `types` are the completed types of the statements, with the strings that stand in bodies. The statements are those
/// of all files in order of reading. A definition under any other status than those of types, entries, lexical rules, rules and
/// roots is passed over. The first fault is answered, as `ExpandFault` orders them; `specs/Faults.antt` says which that
/// is, and `specs/Books.antt` what the book has. A definition has no structure where its closure is inconsistent, or has more paths than
/// `node_limit` of the names, beside its root's. More features than a `u32` can number count as want of memory.
pub fn expand(
    alloc: Global,
    types: Types,
    statements: &[Placed],
    names: &Names,
) -> Result<Book, ExpandFault>
    requires { AreTypesFor types (map placed_of statements.now) }
    ensures book { IfOk result (λ b. IsBookOf types (settled_of names.now) (map placed_of statements.now) b) }
    ensures fault { IfErr result (λ e. IsFaultOf types (settled_of names.now) (map placed_of statements.now) e) }
{
    let Introductions { feats, introducers } = introduce(alloc, &types, statements, names)?;
    let mut system = system_with(alloc, types, statements, names, &feats, introducers)?;
    let mut scratch = Scratch::new(alloc);
    let constraints = constraints_of(
        alloc,
        &mut scratch,
        &mut system,
        statements,
        names.node_limit,
    )?;
    let instances = instances_with(alloc, &mut scratch, &system, statements, names, &feats)?;
    if feats.len() > u32::MAX as usize {
        return Err(ExpandFault::NoMemory);
    }
    let names = book_names(alloc, system.types(), &feats, names)?;
    Ok(Book {
        system,
        constraints,
        feats,
        instances,
        names,
    })
}
