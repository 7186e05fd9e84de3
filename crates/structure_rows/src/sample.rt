//! The type system that the rows are about. Its parts are looked at as it is made.

ghost use Rattle.std.specs.Prelude.{◌≡◌, ◌<◌, false, length, All, IfSome, IfOk, IsTrue};
ghost use Rattle.type_hierarchy.specs.Table.{count_of, is_below};
ghost use Rattle.fs_model.specs.Claims.{Claim, IsBare, Has};
ghost use Rattle.fs_graph.specs.Facts.{claims_of};
ghost use Rattle.fs_unify.specs.Rules.{system_of, IsClaimIn};

use crate::facts::{facts, facts_in};
use crate::names::{FEATS, type_of};
use crate::steps::front;
use fs_unify::{TypeFacts, TypeSystem};
use glb_completion::complete;
use std::alloc::{AllocError, Global};
use type_hierarchy::{Decl, Hierarchy, Ty, Types};

// Each type with its one parent.
const TYPES: &str = "list *top*/cons list/null list/dlist *top*/a *top*/t4 *top*/knot cons";

// The two strings.
const STRINGS: &str = "x y";

// The type that introduces each feature, by the features' numbers.
const INTRODUCERS: &str = "cons t4 dlist dlist cons";

// What is said of each type: `cons := list & [ FIRST *top*, REST list ]`, `dlist := *top* & [ LIST list, LAST list ]`,
// `t4 := *top* & [ L4 <! a !> ]` and `knot := cons & [ FIRST knot, REST knot ]`.
const CONSTRAINTS: [&str; 4] = [
    "knot .FIRST knot / .REST knot",
    "cons .FIRST *top* / .REST list",
    "dlist .LIST list / .LAST list",
    "t4 .L4 dlist / .L4.LIST cons / .L4.LIST.FIRST a / .L4.LIST.REST = .L4.LAST",
];

// Whether there are these types.
fn are_types(types: &[Ty], count: u32) -> bool
    ensures { IsTrue result → All (λ t. t.0 < count) types.now }
{
    for ty in types {
        if ty.0 >= count {
            return false;
        }
    }
    true
}

// Whether a type's facts can stand in a grammar. Nothing is said of the top type there.
fn is_fit(types: &Types, facts: &TypeFacts) -> bool
    ensures { IsTrue result → (facts.now.ty.0 < count_of types.now) × (is_below types.now 0 facts.now.ty.0 ≡ false) × ((c : Claim) → Has c (claims_of facts.now.facts.items) → IsClaimIn (count_of types.now) 5 c) }
{
    let count = types.counts().all;
    if facts.ty.0 >= count || count == 0 {
        return false;
    }
    if types.at_or_below(Ty(0), facts.ty) {
        return false;
    }
    facts_in(&facts.facts, count, FEATS)
}

// The same of several types.
fn are_fit(types: &Types, constraints: &[TypeFacts]) -> bool
    ensures { IsTrue result → All (λ f. (f.ty.0 < count_of types.now) × (is_below types.now 0 f.ty.0 ≡ false) × ((c : Claim) → Has c (claims_of f.facts.items) → IsClaimIn (count_of types.now) 5 c)) constraints.now }
{
    for facts in constraints {
        if !is_fit(types, facts) {
            return false;
        }
    }
    true
}

// Parts that can't stand together, or want of memory.
#[derive(Debug, Clone, Copy)]
struct Unfit;

// A type system of these parts, which are looked at first.
fn system(
    alloc: Global,
    types: Types,
    introducers: Vec<Ty>,
    constraints: Vec<TypeFacts>,
) -> Result<TypeSystem, Unfit>
    ensures bare { IfOk result (λ s. IsBare (system_of s)) }
    ensures feats { IfOk result (λ s. length s.introducers ≡ 5) }
{
    let count = types.counts().all;
    if count == 0 || introducers.len() != FEATS as usize || !are_types(&introducers, count) {
        return Err(Unfit);
    }
    if !are_fit(&types, &constraints) {
        return Err(Unfit);
    }
    match TypeSystem::new(alloc, types, introducers, constraints, 64) {
        Ok(system) => Ok(system),
        Err(_) => Err(Unfit),
    }
}

fn decl(alloc: Global, line: &str) -> Result<Decl, AllocError> {
    let (name, parent) = front(line);
    let parents = words(alloc, parent)?;
    Ok(Decl {
        name: String::from_str(alloc, name)?,
        parents,
        at: 0,
    })
}

fn decls(alloc: Global) -> Result<Vec<Decl>, AllocError> {
    let mut found = Vec::new(alloc);
    for line in TYPES.split('/') {
        found.push(decl(alloc, line)?)?;
    }
    Ok(found)
}

fn words(alloc: Global, text: &str) -> Result<Vec<String>, AllocError> {
    let mut found = Vec::new(alloc);
    for word in text.split(' ') {
        found.push(String::from_str(alloc, word)?)?;
    }
    Ok(found)
}

// The types, and two strings.
fn types(alloc: Global) -> Result<Option<Types>, AllocError> {
    let decls = decls(alloc)?;
    let strings = words(alloc, STRINGS)?;
    match Hierarchy::build(alloc, &decls, "*top*", "string") {
        Ok(hierarchy) => Ok(complete(alloc, hierarchy, &strings).ok()),
        Err(_) => Ok(None),
    }
}

fn introducers(alloc: Global, types: &Types) -> Result<Vec<Ty>, AllocError> {
    let mut found = Vec::new(alloc);
    for name in INTRODUCERS.split(' ') {
        found.push(type_of(types, name))?;
    }
    Ok(found)
}

fn constraints(alloc: Global, types: &Types) -> Result<Vec<TypeFacts>, AllocError> {
    let mut found = Vec::new(alloc);
    for line in CONSTRAINTS {
        let (name, rest) = front(line);
        let ty = type_of(types, name);
        let facts = facts(alloc, types, rest)?;
        found.push(TypeFacts { ty, facts })?;
    }
    Ok(found)
}

// The type system of lists.
pub fn lists(alloc: Global) -> Result<Option<TypeSystem>, AllocError>
    ensures bare { IfOk result (λ o. IfSome o (λ s. IsBare (system_of s))) }
    ensures feats { IfOk result (λ o. IfSome o (λ s. length s.introducers ≡ 5)) }
{
    let Some(types) = types(alloc)? else {
        return Ok(None);
    };
    let introducers = introducers(alloc, &types)?;
    let constraints = constraints(alloc, &types)?;
    Ok(system(alloc, types, introducers, constraints).ok())
}
