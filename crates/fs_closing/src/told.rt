//! Facts that other facts tell.

ghost use Rattle.std.specs.Prelude.{◌≡◌, ◌<◌, ◌+◌, length, true, slice_index_or};
ghost use Rattle.fs_model.specs.Claims.{Claim};
ghost use Rattle.fs_graph.specs.Facts.{path_of, claim_of, claims_of};
ghost use Rattle.fs_closing.specs.Inner.Told.{GoesOn, SpeaksPast, IsTold};

use fs_graph::{Fact, Feat};

// Whether a path goes on from another one, or is that one.
fn goes_on(path: &[Feat], from: &[Feat]) -> bool
    ensures { result ≡ true → GoesOn (path_of from.now) (path_of path.now) }
{
    path.starts_with(from)
}

// Whether a fact speaks of a path that goes on from this one.
fn speaks_past(fact: &Fact, from: &[Feat]) -> bool
    ensures { result ≡ true → SpeaksPast (path_of from.now) (claim_of fact.now) }
{
    match fact {
        Fact::Exists { path } => goes_on(path, from),
        Fact::Same { a: _, b } => goes_on(b, from),
        Fact::Below { path, ty: _ } => goes_on(path, from),
    }
}

// Whether a fact is told by another one: that a path exists, by what speaks of a path that goes on from it.
fn is_told(fact: &Fact, other: &Fact) -> bool
    ensures { result ≡ true → IsTold (claim_of fact.now) (claim_of other.now) }
{
    match fact {
        Fact::Exists { path } => speaks_past(other, path),
        Fact::Same { a: _, b: _ } => false,
        Fact::Below { path: _, ty: _ } => false,
    }
}

/// Whether a fact of a list is told by the one behind it. As bodies are written, most facts that a path exists are.
pub fn is_told_next(facts: &[Fact], place: usize) -> bool
    requires { place < length facts.now }
    ensures { (d : Claim) → result ≡ true → (place + 1 < length (claims_of facts.now)) × IsTold (slice_index_or (claims_of facts.now) place d) (slice_index_or (claims_of facts.now) (place + 1) d) }
{
    match facts.get(place + 1) {
        Some(next) => is_told(&facts[place], next),
        None => false,
    }
}
