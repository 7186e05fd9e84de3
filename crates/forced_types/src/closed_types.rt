//! Whether the types of a node are closed, and the two that have no common type.

ghost use Rattle.std.specs.Prelude.{◌≡◌, ℕ, ◌<◌, ◌≤◌, length, true, false, Some, None, IfNone, IfSome};
ghost use Rattle.type_hierarchy.specs.Table.{count_of, is_below, meet_of};
ghost use Rattle.fs_model.specs.Claims.{Has};
ghost use Rattle.forced_types.specs.Inner.Closed.{AreTypesClosed};
ghost use Rattle.forced_types.specs.Inner.Apart.{IsApartFrom, IsLeastApart};

use crate::given::Given;
use crate::steps::common;
use type_hierarchy::{Ty, Types};

/// Two types that have no common one.
#[derive(Clone, Copy)]
pub struct Apart {
    pub first: u32,
    pub second: u32,
}

/// Whether a type is listed.
pub fn has(list: &[u32], ty: u32) -> bool
    ensures has { result ≡ true → Has ty list.now }
    ensures lacks { result ≡ false → Has ty list.now → ⊥ }
{
    for i in 0..list.len() {
        if list[i] == ty {
            return true;
        }
    }
    false
}

// Whether all that is above a type is listed.
fn is_raised_from(types: &Types, list: &[u32], ty: u32) -> bool
    requires { ty < count_of types.now }
    ensures { result ≡ true → (u : ℕ) → u < count_of types.now → is_below types.now ty u ≡ true → Has u list.now }
{
    for above in 0..types.counts().all {
        if types.at_or_below(Ty(ty), Ty(above)) && !has(list, above) {
            return false;
        }
    }
    true
}

// Whether all that is above listed types is listed.
fn is_raised(types: &Types, list: &[u32]) -> bool
    requires { (t : ℕ) → Has t list.now → t < count_of types.now }
    ensures { result ≡ true → (t : ℕ) → Has t list.now → (u : ℕ) → u < count_of types.now → is_below types.now t u ≡ true → Has u list.now }
{
    for i in 0..list.len() {
        if !is_raised_from(types, list, list[i]) {
            return false;
        }
    }
    true
}

// Whether the common type of two types is listed, if they have one.
fn has_meet(given: Given<'_>, list: &[u32], first: u32, second: u32) -> bool
    requires first { first < count_of given.system.now.types }
    requires second { second < count_of given.system.now.types }
    ensures { result ≡ true → (m : ℕ) → meet_of given.entry.system.now.types first second ≡ Some m → Has m list.now }
{
    match common(given, first, second) {
        Some(both) => has(list, both),
        None => true,
    }
}

// Whether the common types of a type and listed ones are listed.
fn has_meets_with(given: Given<'_>, list: &[u32], ty: u32) -> bool
    requires list { (t : ℕ) → Has t list.now → t < count_of given.system.now.types }
    requires ty { ty < count_of given.system.now.types }
    ensures { result ≡ true → (u : ℕ) → Has u list.now → (m : ℕ) → meet_of given.entry.system.now.types ty u ≡ Some m → Has m list.now }
{
    for i in 0..list.len() {
        if !has_meet(given, list, ty, list[i]) {
            return false;
        }
    }
    true
}

// Whether the common types of listed types are listed.
fn has_meets(given: Given<'_>, list: &[u32]) -> bool
    requires { (t : ℕ) → Has t list.now → t < count_of given.system.now.types }
    ensures { result ≡ true → (t : ℕ) → Has t list.now → (u : ℕ) → Has u list.now → (m : ℕ) → meet_of given.entry.system.now.types t u ≡ Some m → Has m list.now }
{
    for i in 0..list.len() {
        if !has_meets_with(given, list, list[i]) {
            return false;
        }
    }
    true
}

/// Whether the types of a node are closed.
pub fn are_types_closed(given: Given<'_>, list: &[u32]) -> bool
    requires { (t : ℕ) → Has t list.now → t < count_of given.system.now.types }
    ensures { result ≡ true → AreTypesClosed given.entry.system.now.types list.now }
{
    let types = given.system.types();
    types.laws();
    let _ = types.counts();
    if list.len() == 1 {
        return true;
    }
    if list.len() == 0 || !is_raised(types, list) {
        return false;
    }
    has_meets(given, list)
}

// Whether a type is listed that has no common one with another type.
fn is_apart(given: Given<'_>, list: &[u32], ty: u32, other: u32) -> bool
    requires ty { ty < count_of given.system.now.types }
    requires other { other < count_of given.system.now.types }
    ensures has { result ≡ true → Has other list.now }
    ensures apart { result ≡ true → meet_of given.entry.system.now.types ty other ≡ None }
    ensures not { result ≡ false → Has other list.now → meet_of given.entry.system.now.types ty other ≡ None → ⊥ }
{
    if !has(list, other) {
        return false;
    }
    match common(given, ty, other) {
        Some(_) => false,
        None => true,
    }
}

// The least of the listed types that has no common one with a type.
fn apart_from(given: Given<'_>, list: &[u32], ty: u32) -> Option<u32>
    requires list { (t : ℕ) → Has t list.now → t < count_of given.system.now.types }
    requires ty { ty < count_of given.system.now.types }
    ensures none { IfNone result ((u : ℕ) → Has u list.now → meet_of given.entry.system.now.types ty u ≡ None → ⊥) }
    ensures some { IfSome result (IsApartFrom given.entry.system.now.types list.now ty) }
{
    for other in 0..given.system.types().counts().all {
        if is_apart(given, list, ty, other) {
            return Some(other);
        }
    }
    None
}

// The same for a type, if it is listed.
fn listed_apart(given: Given<'_>, list: &[u32], ty: u32) -> Option<u32>
    requires list { (t : ℕ) → Has t list.now → t < count_of given.system.now.types }
    requires ty { ty < count_of given.system.now.types }
    ensures none { IfNone result (Has ty list.now → (u : ℕ) → Has u list.now → meet_of given.entry.system.now.types ty u ≡ None → ⊥) }
    ensures has { IfSome result (λ _. Has ty list.now) }
    ensures some { IfSome result (IsApartFrom given.entry.system.now.types list.now ty) }
{
    if has(list, ty) {
        apart_from(given, list, ty)
    } else {
        None
    }
}

/// Of the listed types, the two of least number that have no common one.
pub fn least_apart(given: Given<'_>, list: &[u32]) -> Option<Apart>
    requires { (t : ℕ) → Has t list.now → t < count_of given.system.now.types }
    ensures none { IfNone result ((t : ℕ) → Has t list.now → (u : ℕ) → Has u list.now → meet_of given.entry.system.now.types t u ≡ None → ⊥) }
    ensures some { IfSome result (IsLeastApart given.entry.system.now.types list.now) }
{
    given.system.types().laws();
    if list.len() == 1 {
        return None;
    }
    for first in 0..given.system.types().counts().all {
        if let Some(second) = listed_apart(given, list, first) {
            return Some(Apart { first, second });
        }
    }
    None
}
