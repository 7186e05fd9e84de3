//! The introducer of a feature among the types that write it.

ghost use Rattle.std.specs.Prelude.{◌≡◌, ◌≢◌, ℕ, ◌<◌, ◌↔◌, ◌⊎◌, length, All, true, false, IsTrue, MatchOption};
ghost use Rattle.fs_model.specs.Claims.{Has};
ghost use Rattle.type_hierarchy.specs.Table.{count_of, is_below};
ghost use Rattle.constraint_expand.specs.Introducers.{numbers_of, IsIntroducer, IsMostGeneral, AreFirstTwo};
ghost use Rattle.constraint_expand.specs.Introduced.{IsFound};

use type_hierarchy::{Ty, Types};

/// What the writers of a feature have: a writer above all others, or else two most general ones, the first two by number.
#[derive(Clone, Copy)]
pub enum Introduced {
    By(Ty),
    Split { a: Ty, b: Ty },
}

// The writer at which a way up from a writer ends, where each writer above it is followed in turn.
fn highest_from(types: &Types, writers: &[Ty], start: Ty) -> Ty
    requires within { All (λ t. t.0 < count_of types.now) writers.now }
    requires writes { Has start.0 (numbers_of writers.now) }
    ensures highest { IsMostGeneral types.now (numbers_of writers.now) result.0 }
    ensures above { is_below types.now start.0 result.0 ≡ true }
{
    types.laws();
    let mut highest = start;
    for writer in writers {
        if types.at_or_below(highest, *writer) {
            highest = *writer;
        }
    }
    highest
}

// A writer that isn't at or below a type.
fn not_below(types: &Types, writers: &[Ty], top: Ty) -> Option<Ty>
    requires within { All (λ t. t.0 < count_of types.now) writers.now }
    requires top { top.0 < count_of types.now }
    ensures { MatchOption result ((u : ℕ) → Has u (numbers_of writers.now) → is_below types.now u top.0 ≡ true) (λ u. Has u.0 (numbers_of writers.now) × (is_below types.now u.0 top.0 ≡ false)) }
{
    for writer in writers {
        if !types.at_or_below(*writer, top) {
            return Some(*writer);
        }
    }
    None
}

// Whether no other writer is above a writer.
fn is_most_general(types: &Types, writers: &[Ty], t: Ty) -> bool
    requires within { All (λ u. u.0 < count_of types.now) writers.now }
    requires writes { Has t.0 (numbers_of writers.now) }
    ensures { IsTrue result ↔ IsMostGeneral types.now (numbers_of writers.now) t.0 }
{
    for writer in writers {
        if writer.0 != t.0 && types.at_or_below(t, *writer) {
            return false;
        }
    }
    true
}

// The first two most general writers, where two are known.
fn first_two(types: &Types, writers: &[Ty], x: Ty, y: Ty) -> (Ty, Ty)
    requires within { All (λ t. t.0 < count_of types.now) writers.now }
    requires x_general { IsMostGeneral types.now (numbers_of writers.now) x.0 }
    requires y_general { IsMostGeneral types.now (numbers_of writers.now) y.0 }
    requires two { x.0 ≢ y.0 }
    ensures { AreFirstTwo types.now (numbers_of writers.now) (result.0).0 (result.1).0 }
{
    let (mut a, mut b) = in_order(x, y);
    for writer in writers {
        let t = *writer;
        if t.0 < b.0 && t.0 != a.0 && is_most_general(types, writers, t) {
            (a, b) = lesser(a, t);
        }
    }
    (a, b)
}

// Two types by rising number.
fn in_order(x: Ty, y: Ty) -> (Ty, Ty)
    requires { x.0 ≢ y.0 }
    ensures rising { (result.0).0 < (result.1).0 }
    ensures same { (((result.0).0 ≡ x.0) × ((result.1).0 ≡ y.0)) ⊎ (((result.0).0 ≡ y.0) × ((result.1).0 ≡ x.0)) }
{
    if x.0 < y.0 { (x, y) } else { (y, x) }
}

// A type and one that takes its place or the next.
fn lesser(a: Ty, t: Ty) -> (Ty, Ty)
    requires { t.0 ≢ a.0 }
    ensures { ((t.0 < a.0) × ((result.0).0 ≡ t.0) × ((result.1).0 ≡ a.0)) ⊎ ((a.0 < t.0) × ((result.0).0 ≡ a.0) × ((result.1).0 ≡ t.0)) }
{
    if t.0 < a.0 { (t, a) } else { (a, t) }
}

/// The introducer of a feature with these writers: the one that is above all others; where there is none, the first two
/// most general writers, by number (Copestake 2002: a feature is introduced at one type).
pub fn find_introducer(types: &Types, writers: &[Ty]) -> Introduced
    requires within { All (λ t. t.0 < count_of types.now) writers.now }
    requires some { 0 < length writers.now }
    ensures { IsFound types.now (numbers_of writers.now) result }
{
    types.laws();
    let x = highest_from(types, writers, writers[0]);
    match not_below(types, writers, x) {
        None => Introduced::By(x),
        Some(other) => {
            let y = highest_from(types, writers, other);
            let (a, b) = first_two(types, writers, x, y);
            Introduced::Split { a, b }
        }
    }
}
