//! Facts as lines of a structure's text, and whether they are within the sample.

ghost use Rattle.std.specs.Prelude.{◌<◌, All, IsTrue};
ghost use Rattle.fs_model.specs.Claims.{Claim, Has};
ghost use Rattle.fs_graph.specs.Facts.{path_of, claim_of, claims_of};
ghost use Rattle.fs_unify.specs.Rules.{IsClaimIn};

use crate::names::{path, type_of};
use crate::steps::front;
use fs_graph::{Fact, Feat};
use std::alloc::{AllocError, Global};
use type_hierarchy::Types;

// The facts of a text: lines with a stroke between each two.
pub fn facts(alloc: Global, types: &Types, text: &str) -> Result<Vec<Fact>, AllocError> {
    let mut found = Vec::new(alloc);
    for line in text.split(" / ") {
        found.push(fact(alloc, types, line)?)?;
    }
    Ok(found)
}

// `PATH` says that it exists, `PATH TYPE` that its type is at or below this one, `PATH = PATH` that both lead to one node.
fn fact(alloc: Global, types: &Types, line: &str) -> Result<Fact, AllocError> {
    let (place, rest) = front(line);
    let place = path(alloc, place)?;
    if rest.is_empty() {
        return Ok(Fact::Exists { path: place });
    }
    match rest.strip_prefix("= ") {
        Some(other) => Ok(Fact::Same {
            a: place,
            b: path(alloc, other)?,
        }),
        None => Ok(Fact::Below {
            path: place,
            ty: type_of(types, rest),
        }),
    }
}

// Whether all features of a path are below a number.
pub fn path_in(path: &[Feat], feats: u32) -> bool
    ensures { IsTrue result → All (λ f. f < feats) (path_of path.now) }
{
    for feat in path {
        if feat.0 >= feats {
            return false;
        }
    }
    true
}

// Whether a fact speaks of types and features below these numbers.
fn fact_in(fact: &Fact, types: u32, feats: u32) -> bool
    ensures { IsTrue result → IsClaimIn types feats (claim_of fact.now) }
{
    match fact {
        Fact::Exists { path } => path_in(path, feats),
        Fact::Same { a, b } => path_in(a, feats) && path_in(b, feats),
        Fact::Below { path, ty } => path_in(path, feats) && ty.0 < types,
    }
}

// The same of several facts.
pub fn facts_in(facts: &[Fact], types: u32, feats: u32) -> bool
    ensures { IsTrue result → (c : Claim) → Has c (claims_of facts.now) → IsClaimIn types feats c }
{
    for fact in facts {
        if !fact_in(fact, types, feats) {
            return false;
        }
    }
    true
}
