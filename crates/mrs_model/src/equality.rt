//! Equality of MRSs up to renaming.

ghost use Rattle.std.specs.Prelude.{◌≡◌, ◌↔◌, ◌<◌, ◌∷◌, [], ℕ, List, length, map, IfOk, IsTrue, MatchOption};
ghost use Rattle.mrs_model.specs.Meanings.{Meaning};
ghost use Rattle.mrs_model.specs.Views.{variable_of, meaning_of};
ghost use Rattle.mrs_model.specs.Valid.{IsValid};
ghost use Rattle.mrs_model.specs.Renaming.{IsVariableMap, IsRenaming, AreEqual};
ghost use Rattle.mrs_model.specs.Inner.Bindings.{Agrees};
ghost use Rattle.mrs_model.specs.Inner.Search.{Begins};
ghost use Rattle.mrs_model.specs.Inner.State.{HaveSameCounts};

use crate::bindings::{Bindings, Pair};
use crate::elements::elements_of;
use crate::join::Vars;
use crate::order::in_order;
use crate::search::{Sides, solve};
use crate::{Mrs, NoMemory};
use std::alloc::Global;

/// A one-to-one map of the variables of one MRS to those of another: `to[i]` for variable i.
#[derive(Debug, Drop)]
pub struct Renaming {
    pub to: Vec<u32>,
}

/// A one-to-one map of all variables of the first MRS to those of the second that keeps sorts, properties, top, index, the bag of
/// elementary predications without their spans, the bag of handle constraints and that of individual constraints (the order of
/// elements isn't looked at); `None` exactly where there is none. `NoMemory` comes only for want of memory.
pub fn matching(alloc: Global, left: &Mrs, right: &Mrs) -> Result<Option<Renaming>, NoMemory>
    requires left { IsValid (meaning_of left.now) }
    requires right { IsValid (meaning_of right.now) }
    ensures { IfOk result (λ o. MatchOption o (AreEqual (meaning_of left.now) (meaning_of right.now) → ⊥) (λ r. IsRenaming (meaning_of left.now) (meaning_of right.now) r.to.items)) }
{
    if !same_counts(left, right) {
        return Ok(None);
    }
    let vars = Vars {
        left: &left.vars,
        right: &right.vars,
    };
    let top = Pair {
        left: left.top,
        right: right.top,
    };
    let index = Pair {
        left: left.index,
        right: right.index,
    };
    let Some(bound) = begin(alloc, vars, top, index)? else {
        return Ok(None);
    };
    let items = elements_of(alloc, left)?;
    let here = in_order(alloc, &items, left.vars.len(), left.top, left.index)?;
    let there = elements_of(alloc, right)?;
    let sides = Sides {
        left: &here,
        right: &there,
        vars,
        top,
        index,
    };
    match solve(alloc, sides, bound)? {
        None => Ok(None),
        Some(search) => {
            search.bound.one_to_one();
            let to = search.bound.map_of(alloc)?;
            Ok(Some(Renaming { to }))
        }
    }
}

// Whether two MRSs have as many variables and elements of each kind.
fn same_counts(left: &Mrs, right: &Mrs) -> bool
    ensures { IsTrue result ↔ HaveSameCounts (meaning_of left.now) (meaning_of right.now) }
{
    left.vars.len() == right.vars.len()
        && left.eps.len() == right.eps.len()
        && left.hcons.len() == right.hcons.len()
        && left.icons.len() == right.icons.len()
}

// The bindings of the variables of top and index, where some map of variables may have both.
fn begin(
    alloc: Global,
    vars: Vars<'_>,
    top: Pair,
    index: Pair,
) -> Result<Option<Bindings>, NoMemory>
    requires even { length vars.right.now ≡ length vars.left.now }
    requires top { (top.left < length vars.left.now) × (top.right < length vars.right.now) }
    requires index { (index.left < length vars.left.now) × (index.right < length vars.right.now) }
    ensures none { IfOk result (λ o. MatchOption o ((to : List ℕ) → IsVariableMap (map variable_of vars.entry.left.now) (map variable_of vars.entry.right.now) to
        → Agrees to (top ∷ index ∷ []) → ⊥) (λ b. Unit {0})) }
    ensures begun { IfOk result (λ o. MatchOption o (Unit {0}) (λ b. Begins (map variable_of vars.entry.left.now) (map variable_of vars.entry.right.now) (top ∷ index ∷ []) b.pairs)) }
    ensures size { IfOk result (λ o. MatchOption o (Unit {0}) (λ b. b.size ≡ length vars.entry.left.now)) }
{
    let mut bound = Bindings::new(alloc, vars.left.len())?;
    if !vars.bind(top.left, top.right, &mut bound)? {
        return Ok(None);
    }
    if !vars.bind(index.left, index.right, &mut bound)? {
        return Ok(None);
    }
    Ok(Some(bound))
}

/// A law: of valid MRSs, equality up to renaming is reflexive, symmetric and transitive.
pub fn equality_is_an_equivalence()
    ensures reflexive { (m : Meaning) → IsValid m → AreEqual m m }
    ensures symmetric { (m n : Meaning) → IsValid m → IsValid n → AreEqual m n → AreEqual n m }
    ensures transitive { (m n o : Meaning) → IsValid m → AreEqual m n → AreEqual n o → AreEqual m o }
{}
