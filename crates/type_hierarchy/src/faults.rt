//! Faults that hold of all declarations together.

ghost use Rattle.std.specs.Prelude.{◌≡◌, ℕ, ◌<◌, ◌≤◌, ◌||◌, ◌↔◌, length, slice_index_or, All, IsTrue, IfOk, MatchOption, true, false};
ghost use Rattle.std.specs.Str.{bytes_eq};
ghost use Rattle.std.specs.Char.{is_ascii_digit};
ghost use Rattle.std.specs.List.{list_all};
ghost use Rattle.type_hierarchy.specs.Decls.{decls_of};
ghost use Rattle.type_hierarchy.specs.Faults.{IsFirst, IsReserved, HasNoReserved, is_glb_name};
ghost use Rattle.type_hierarchy.specs.Order.{IsBelow};
ghost use Rattle.type_hierarchy.specs.Inner.Ranks.{NeverRise, AreBelow};
ghost use Rattle.type_hierarchy.specs.Inner.Reach.{lists, IsFirstCycle};

use crate::components::components_of;
use crate::decl::Decl;
use crate::order::above;
use std::alloc::{AllocError, Global};

/// The first type from `first` on that is below itself.
pub fn first_cycle(
    alloc: Global,
    parents: &[Vec<usize>],
    first: usize,
) -> Result<Option<usize>, AllocError>
    requires { All (λ row. All (λ x. x < length parents.now) row.items) parents.now }
    ensures { IfOk result (IsFirstCycle (lists parents.now) first) }
{
    let ranks = components_of(alloc, parents)?.ranks;
    let are_ranked = never_rise(&ranks, parents);
    for t in first..parents.len() {
        if is_cyclic(alloc, parents, &ranks, are_ranked, t)? {
            return Ok(Some(t));
        }
    }
    Ok(None)
}

// Whether a type is below itself. Where ranks never rise along parents, one that is above all its parents in rank isn't.
fn is_cyclic(
    alloc: Global,
    parents: &[Vec<usize>],
    ranks: &[usize],
    are_ranked: bool,
    t: usize,
) -> Result<bool, AllocError>
    requires range { All (λ row. All (λ x. x < length parents.now) row.items) parents.now }
    requires ranked { IsTrue are_ranked → NeverRise (lists parents.now) ranks.now }
    requires t_in { t < length parents.now }
    ensures { IfOk result (λ b. IsTrue b ↔ IsBelow (lists parents.now) t t) }
{
    if are_ranked && have_ranks_below(ranks, &parents[t], rank(ranks, t)) {
        return Ok(false);
    }
    let marks = above(alloc, parents, t)?;
    Ok(marks[t])
}

fn rank(ranks: &[usize], t: usize) -> usize
    ensures { result ≡ slice_index_or ranks.now t 0 }
{
    ranks.get(t).copied().unwrap_or(0)
}

// Whether all of these types have ranks below a bound.
fn have_ranks_below(ranks: &[usize], types: &[usize], bound: usize) -> bool
    ensures { IsTrue result → AreBelow ranks.now types.now bound }
{
    for t in types {
        if rank(ranks, *t) >= bound {
            return false;
        }
    }
    true
}

// Whether no parent has a higher rank.
fn never_rise(ranks: &[usize], parents: &[Vec<usize>]) -> bool
    ensures { IsTrue result → NeverRise (lists parents.now) ranks.now }
{
    for t in 0..parents.len() {
        let bound = rank(ranks, t).saturating_add(1);
        if !have_ranks_below(ranks, &parents[t], bound) {
            return false;
        }
    }
    true
}

/// Whether a name is `glbtype` followed by one or more digits, the names that added types have.
pub fn is_glb_name(name: &str) -> bool
    ensures { result ≡ is_glb_name name.now }
{
    let bytes = name.as_bytes();
    if bytes.len() <= 7 {
        return false;
    }
    let (front, digits) = bytes.split_at(7);
    front == b"glbtype".as_slice() && are_digits(digits)
}

fn are_digits(bytes: &[u8]) -> bool
    ensures { result ≡ list_all is_ascii_digit bytes.now }
{
    bytes.iter().all(|b| b.is_ascii_digit())
}

/// The first declaration of the top type, or of a name that added types have.
pub fn first_reserved(decls: &[Decl], top: &str) -> Option<usize>
    ensures { MatchOption result (HasNoReserved top.now (decls_of decls.now)) (IsFirst (IsReserved top.now (decls_of decls.now))) }
{
    for (i, decl) in decls.iter().enumerate() {
        if decl.name.as_str() == top || is_glb_name(decl.name.as_str()) {
            return Some(i);
        }
    }
    None
}
