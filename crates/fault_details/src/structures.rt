//! Why a definition has no structure.

ghost use Rattle.std.specs.Prelude.{◌≡◌, ◌<◌, ◌||◌, ◌≢◌, ℕ, List, None, true, false, length, IfOk, IfSome, OnOk, IsErrOf, option_map};
ghost use Rattle.type_hierarchy.specs.Decls.{texts};
ghost use Rattle.type_hierarchy.specs.Table.{TypeTable, count_of};
ghost use Rattle.grammar_files.specs.Placings.{placed_of};
ghost use Rattle.fs_model.specs.Claims.{IsBare};
ghost use Rattle.fs_model.specs.Sources.{Told};
ghost use Rattle.fs_graph.specs.Facts.{claims_of};
ghost use Rattle.fs_unify.specs.Rules.{system_of};
ghost use Rattle.fs_unify.specs.Given.{facts_source};
ghost use Rattle.fs_unify.specs.Limits.{IsUnifiedWithin};
ghost use Rattle.forced_types.specs.Verdicts.{IsVerdictIn};
ghost use Rattle.forced_types.specs.Limits.{IsVerdictWithin};
ghost use Rattle.forced_types.specs.Views.{verdict_of, source_of_facts, AreFactsIn};
ghost use Rattle.constraint_expand.specs.Statements.{statement_at, defines_type, defines_instance};
ghost use Rattle.constraint_expand.specs.Systems.{settled_of};
ghost use Rattle.constraint_expand.specs.Faults.{claims_of_definition};
ghost use Rattle.grammar_files.specs.WalkViews.{walked_of, CanSettle};
ghost use Rattle.grammar_load.specs.Expanding.{names_by};
ghost use Rattle.grammar_types.specs.Typings.{AreTypesOf};
ghost use Rattle.fault_places.specs.Places.{set_in};
ghost use Rattle.fault_details.specs.Further.{IsClashLine, told_text};
ghost use Rattle.fault_details.specs.Inner.{IsTypedBy, IsVerdictAt, IsLackAt, IsNoStructureAt, LacksStructure};

use crate::lack_in;
use crate::texts::verdict_line;
use constraint_expand::{ExpandFault, Names, Typed, definition_claims, type_system};
use fault_places::Lack;
use forced_types::{Verdict, verdict_on_facts};
use fs_graph::Fact;
use fs_unify::{Scratch, structure_within};
use grammar_files::placed_statements::{defines_instance, defines_type};
use grammar_files::{Placed, Walked};
use grammar_load::{names_by, settle_types};
use grammar_types::laws::one_settling;
use std::alloc::Global;
use type_hierarchy::Types;

// The names that settings give.
fn names_of(alloc: Global, walked: &Walked) -> Result<Names, Lack>
    ensures names { IfOk result (λ n. settled_of n ≡ names_by (walked_of walked.now).settings) }
    ensures read { IsErrOf result Lack.Unread → ⊥ }
{
    match names_by(alloc, &walked.settings) {
        Ok(names) => Ok(names),
        Err(_) => Err(Lack::NoMemory),
    }
}

// The completed types of what was walked.
fn types_of(alloc: Global, walked: &Walked) -> Result<Types, Lack>
    requires { CanSettle (walked_of walked.now) }
    ensures types { IfOk result (AreTypesOf (walked_of walked.now)) }
    ensures read { IsErrOf result Lack.Unread → (types : TypeTable) → AreTypesOf (walked_of walked.now) types → ⊥ }
{
    one_settling();
    match settle_types(alloc, walked) {
        Ok(types) => Ok(types),
        Err(fault) => Err(lack_in(&fault)),
    }
}

// What a fault of names or features is here: the statements had none before.
fn lack_of(fault: &ExpandFault) -> Lack
    ensures { result ≡ Lack.Unread → fault.now ≢ ExpandFault.NoMemory }
{
    match fault {
        ExpandFault::NoMemory => Lack::NoMemory,
        ExpandFault::UnknownName { .. }
        | ExpandFault::NoIntro { .. }
        | ExpandFault::Intro { .. }
        | ExpandFault::NoStructure { .. } => Lack::Unread,
    }
}

// The type system of statements over their types.
fn system_of(alloc: Global, types: Types, walked: &Walked, names: &Names) -> Result<Typed, Lack>
    requires { AreTypesOf (walked_of walked.now) types }
    ensures typed { IfOk result (IsTypedBy (walked_of walked.now) (settled_of names.now)) }
    ensures read { IsErrOf result Lack.Unread → LacksStructure (walked_of walked.now) (settled_of names.now) types → ⊥ }
{
    match type_system(alloc, types, &walked.statements, names) {
        Ok(typed) => Ok(typed),
        Err(fault) => Err(lack_of(&fault)),
    }
}

// Whether a statement defines a type or an instance.
fn is_definition(placed: &Placed) -> bool
    ensures { result ≡ (defines_type (placed_of placed.now) || defines_instance (placed_of placed.now)) }
{
    defines_type(placed) || defines_instance(placed)
}

// Whether the statement at a place defines a type or an instance.
fn is_definition_at(walked: &Walked, k: usize) -> bool
    ensures there { result ≡ true → k < length walked.now.statements.items }
    ensures defines { result ≡ true → (defines_type (statement_at (walked_of walked.now).statements k) || defines_instance (statement_at (walked_of walked.now).statements k)) ≡ true }
    ensures other { result ≡ false → (types : TypeTable) → IsNoStructureAt (walked_of walked.now) (names_by (walked_of walked.now).settings) types k → ⊥ }
{
    let statements = walked.statements.as_slice();
    if k >= statements.len() {
        return false;
    }
    is_definition(&statements[k])
}

// What the structure of a definition is the closure of.
fn facts_at(
    alloc: Global,
    walked: &Walked,
    names: &Names,
    typed: &Typed,
    k: usize,
) -> Result<Vec<Fact>, Lack>
    requires typed { IsTypedBy (walked_of walked.now) (settled_of names.now) typed.now }
    requires there { k < length walked.now.statements.items }
    requires defines { (defines_type (statement_at (walked_of walked.now).statements k) || defines_instance (statement_at (walked_of walked.now).statements k)) ≡ true }
    ensures claims { IfOk result (λ facts. claims_of facts.items ≡ claims_of_definition typed.now.system (settled_of names.now) (texts typed.now.feats.items) (statement_at (walked_of walked.now).statements k)) }
    ensures within { IfOk result (λ facts. AreFactsIn typed.now.system facts.items) }
    ensures read { IsErrOf result Lack.Unread → ⊥ }
{
    match definition_claims(alloc, typed, &walked.statements, names, k) {
        Ok(facts) => Ok(facts),
        Err(_) => Err(Lack::NoMemory),
    }
}

// That facts have no structure within the limit on paths. `Unread` comes where they have one.
fn lacks(alloc: Global, typed: &Typed, facts: &[Fact], limit: u32) -> Result<(), Lack>
    requires bare { IsBare (system_of typed.now.system) }
    requires some { 0 < length facts.now }
    requires within { AreFactsIn typed.now.system facts.now }
    ensures none { OnOk result (IsUnifiedWithin (system_of typed.now.system) limit (facts_source (claims_of facts.now)) None) }
    ensures read { IsErrOf result Lack.Unread → IsUnifiedWithin (system_of typed.now.system) limit (facts_source (claims_of facts.now)) None → ⊥ }
{
    let mut scratch = Scratch::new(alloc);
    match structure_within(alloc, &mut scratch, &typed.system, facts, limit) {
        Ok(None) => Ok(()),
        Ok(Some(_)) => Err(Lack::Unread),
        Err(_) => Err(Lack::NoMemory),
    }
}

// The verdict on facts in a type system, within the limit on paths.
fn facts_verdict(
    alloc: Global,
    typed: &Typed,
    facts: &[Fact],
    limit: u32,
) -> Result<Option<Verdict>, Lack>
    requires some { 0 < length facts.now }
    requires within { AreFactsIn typed.now.system facts.now }
    ensures verdict { IfOk result (λ o. IsVerdictWithin (system_of typed.now.system) (Told (source_of_facts facts.now)) limit (option_map verdict_of o)) }
    ensures within { IfOk result (λ o. IfSome o (λ v. IsVerdictIn (length typed.now.system.introducers) (count_of typed.now.system.types) (verdict_of v))) }
    ensures read { IsErrOf result Lack.Unread → ⊥ }
{
    match verdict_on_facts(alloc, &typed.system, facts, limit) {
        Ok(verdict) => Ok(verdict),
        Err(_) => Err(Lack::NoMemory),
    }
}

// The verdict on facts that have no structure within the limit on paths.
fn lacking_verdict(
    alloc: Global,
    typed: &Typed,
    facts: &[Fact],
    limit: u32,
) -> Result<Option<Verdict>, Lack>
    requires bare { IsBare (system_of typed.now.system) }
    requires some { 0 < length facts.now }
    requires within { AreFactsIn typed.now.system facts.now }
    ensures verdict { IfOk result (λ o. IsVerdictWithin (system_of typed.now.system) (Told (source_of_facts facts.now)) limit (option_map verdict_of o)) }
    ensures within { IfOk result (λ o. IfSome o (λ v. IsVerdictIn (length typed.now.system.introducers) (count_of typed.now.system.types) (verdict_of v))) }
    ensures none { OnOk result (IsUnifiedWithin (system_of typed.now.system) limit (facts_source (claims_of facts.now)) None) }
    ensures read { IsErrOf result Lack.Unread → IsUnifiedWithin (system_of typed.now.system) limit (facts_source (claims_of facts.now)) None → ⊥ }
{
    match lacks(alloc, typed, facts, limit) {
        Ok(()) => facts_verdict(alloc, typed, facts, limit),
        Err(lack) => Err(lack),
    }
}

// The verdict on what the structure of a definition is the closure of, which has none.
fn verdict_at(
    alloc: Global,
    walked: &Walked,
    names: &Names,
    typed: &Typed,
    k: usize,
) -> Result<Option<Verdict>, Lack>
    requires typed { IsTypedBy (walked_of walked.now) (settled_of names.now) typed.now }
    requires there { k < length walked.now.statements.items }
    requires defines { (defines_type (statement_at (walked_of walked.now).statements k) || defines_instance (statement_at (walked_of walked.now).statements k)) ≡ true }
    ensures verdict { IfOk result (λ o. IsVerdictAt (walked_of walked.now) (settled_of names.now) typed.now k (option_map verdict_of o)) }
    ensures within { IfOk result (λ o. IfSome o (λ v. IsVerdictIn (length typed.now.system.introducers) (count_of typed.now.system.types) (verdict_of v))) }
    ensures lacks { OnOk result (IsLackAt (walked_of walked.now) (settled_of names.now) typed.now k) }
    ensures read { IsErrOf result Lack.Unread → IsLackAt (walked_of walked.now) (settled_of names.now) typed.now k → ⊥ }
{
    match facts_at(alloc, walked, names, typed, k) {
        Ok(facts) => lacking_verdict(alloc, typed, &facts, names.node_limit),
        Err(lack) => Err(lack),
    }
}

// The line of a verdict on a definition.
fn told(alloc: Global, typed: &Typed, verdict: &Option<Verdict>) -> Result<Vec<u8>, Lack>
    requires { IfSome verdict.now (λ v. IsVerdictIn (length typed.now.feats.items) (count_of typed.now.system.types) (verdict_of v)) }
    ensures line { IfOk result (λ v. v.items ≡ set_in (told_text typed.now.system.types (texts typed.now.feats.items) (option_map verdict_of verdict.now))) }
    ensures read { IsErrOf result Lack.Unread → ⊥ }
{
    match verdict_line(alloc, verdict, typed.system.types(), &typed.feats) {
        Ok(line) => Ok(line),
        Err(_) => Err(Lack::NoMemory),
    }
}

// The line of a definition of typed statements.
fn typed_line(
    alloc: Global,
    walked: &Walked,
    names: &Names,
    typed: &Typed,
    k: usize,
) -> Result<Vec<u8>, Lack>
    requires typed { IsTypedBy (walked_of walked.now) (settled_of names.now) typed.now }
    requires names { settled_of names.now ≡ names_by (walked_of walked.now).settings }
    requires there { k < length walked.now.statements.items }
    requires defines { (defines_type (statement_at (walked_of walked.now).statements k) || defines_instance (statement_at (walked_of walked.now).statements k)) ≡ true }
    ensures line { IfOk result (λ v. (line : List ℕ) × IsClashLine (walked_of walked.now) k line × (v.items ≡ set_in line)) }
    ensures read { IsErrOf result Lack.Unread → (types : TypeTable) → AreTypesOf (walked_of walked.now) types → IsNoStructureAt (walked_of walked.now) (settled_of names.now) types k → ⊥ }
{
    one_settling();
    match verdict_at(alloc, walked, names, typed, k) {
        Ok(verdict) => told(alloc, typed, &verdict),
        Err(lack) => Err(lack),
    }
}

// The type system of what was walked.
fn typed_by(alloc: Global, walked: &Walked, names: &Names) -> Result<Typed, Lack>
    requires { CanSettle (walked_of walked.now) }
    ensures typed { IfOk result (IsTypedBy (walked_of walked.now) (settled_of names.now)) }
    ensures read { IsErrOf result Lack.Unread → (types : TypeTable) → AreTypesOf (walked_of walked.now) types → LacksStructure (walked_of walked.now) (settled_of names.now) types → ⊥ }
{
    one_settling();
    match types_of(alloc, walked) {
        Ok(types) => system_of(alloc, types, walked, names),
        Err(lack) => Err(lack),
    }
}

// The line of a definition, by the names that settings give.
fn named_line(alloc: Global, walked: &Walked, names: &Names, k: usize) -> Result<Vec<u8>, Lack>
    requires settled { CanSettle (walked_of walked.now) }
    requires names { settled_of names.now ≡ names_by (walked_of walked.now).settings }
    requires there { k < length walked.now.statements.items }
    requires defines { (defines_type (statement_at (walked_of walked.now).statements k) || defines_instance (statement_at (walked_of walked.now).statements k)) ≡ true }
    ensures line { IfOk result (λ v. (line : List ℕ) × IsClashLine (walked_of walked.now) k line × (v.items ≡ set_in line)) }
    ensures read { IsErrOf result Lack.Unread → (types : TypeTable) → AreTypesOf (walked_of walked.now) types → IsNoStructureAt (walked_of walked.now) (settled_of names.now) types k → ⊥ }
{
    match typed_by(alloc, walked, names) {
        Ok(typed) => typed_line(alloc, walked, names, &typed, k),
        Err(lack) => Err(lack),
    }
}

/// The line that says why the definition at a place among statements has no structure, after two blanks.
pub(crate) fn clash_line(alloc: Global, walked: &Walked, k: usize) -> Result<Vec<u8>, Lack>
    requires { CanSettle (walked_of walked.now) }
    ensures line { IfOk result (λ v. (line : List ℕ) × IsClashLine (walked_of walked.now) k line × (v.items ≡ set_in line)) }
    ensures read { IsErrOf result Lack.Unread → (types : TypeTable) → AreTypesOf (walked_of walked.now) types → IsNoStructureAt (walked_of walked.now) (names_by (walked_of walked.now).settings) types k → ⊥ }
{
    if !is_definition_at(walked, k) {
        return Err(Lack::Unread);
    }
    match names_of(alloc, walked) {
        Ok(names) => named_line(alloc, walked, &names, k),
        Err(lack) => Err(lack),
    }
}
