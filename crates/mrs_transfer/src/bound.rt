//! The variables of coreferences, as far as they are known.

ghost use Rattle.std.specs.Prelude.{◌≡◌, ◌<◌, ◌↔◌, ℕ, List, length, map, take, slice_index, slice_index_or, IfOk, string_bytes, MatchOption, IfSome, IsTrue, Contains};
ghost use Rattle.std.specs.Bool.{OnTrue, OnFalse};
ghost use Rattle.transfer_model.specs.Sites.{HasLetters};
ghost use Rattle.mrs_model.specs.Views.{variable_of};
ghost use Rattle.mrs_transfer.specs.declared.bound.Pair.{Pair};
ghost use Rattle.mrs_transfer.specs.Inner.Matching.{ArePairs, Narrows, Refuses, Agree, IsBound};

use crate::NoMemory;
use mrs_model::Var;
use std::alloc::Global;

/// A number as it is kept.
pub(crate) fn number_of(at: usize) -> Result<u32, NoMemory>
    ensures { IfOk result (λ n. n ≡ at) }
{
    u32::try_from(at).map_err(|_| NoMemory)
}

/// A coreference and its variable.
#[derive(Clone, Copy, Debug, PartialEq, Eq)]
pub(crate) struct Pair {
    pub(crate) coref: u32,
    pub(crate) var: u32,
}

/// The variable of a coreference, if it is known.
pub(crate) fn var_of(pairs: &[Pair], coref: u32) -> Option<u32>
    ensures { MatchOption result (IsBound pairs.now coref → ⊥) (λ v. Contains pairs.now (record { coref = coref; var = v })) }
{
    for pair in pairs {
        if pair.coref == coref {
            return Some(pair.var);
        }
    }
    None
}

/// Whether a variable may be that of a coreference with these letters: they are its sort, or `u`.
fn has_letters(letters: &str, var: &Var) -> bool
    ensures { IsTrue result ↔ HasLetters letters.now (variable_of var.now) }
{
    letters == "u" || letters == var.sort.as_str()
}

/// Gives a coreference a variable. False comes only where it has another one, or its letters aren't those of the variable; then nothing changes.
pub(crate) fn bind(
    letters: &[String],
    all: &[Var],
    pairs: &mut Vec<Pair>,
    coref: u32,
    var: u32,
) -> Result<bool, NoMemory>
    requires coref { coref < length letters.now }
    requires var { var < length all.now }
    requires pairs { ArePairs (map variable_of all.now) (map string_bytes letters.now) pairs.old.items }
    ensures yes { IfOk result (λ ok. OnTrue ok (Narrows (map variable_of all.now) (map string_bytes letters.now) (λ vars. slice_index vars coref ≡ var) (λ c. c ≡ coref) pairs.old.items pairs.new.items)) }
    ensures no { IfOk result (λ ok. OnFalse ok (Refuses (map variable_of all.now) (map string_bytes letters.now) (λ vars. slice_index vars coref ≡ var) pairs.old.items pairs.new.items)) }
{
    if let Some(known) = var_of(pairs, coref) {
        return Ok(known == var);
    }
    if !has_letters(letters[coref as usize].as_str(), &all[var as usize]) {
        return Ok(false);
    }
    pairs.push(Pair { coref, var })?;
    Ok(true)
}

/// The variables of all coreferences, each of which is known.
pub(crate) fn vars_of(alloc: Global, pairs: &[Pair], count: usize) -> Result<Vec<u32>, NoMemory>
    requires { (c : ℕ) → c < count → IsBound pairs.now c }
    ensures size { IfOk result (λ vars. length vars.items ≡ count) }
    ensures each { IfOk result (λ vars. (c : ℕ) → c < count → Contains pairs.now (record { coref = c; var = slice_index vars.items c })) }
{
    let mut vars = Vec::with_capacity(alloc, count)?;
    for at in 0..count {
        let coref = number_of(at)?;
        match var_of(pairs, coref) {
            Some(var) => vars.push(var)?,
            None => unreachable!(),
        }
    }
    Ok(vars)
}

/// The pairs of the first coreferences and these variables.
pub(crate) fn given_pairs(alloc: Global, vars: &[u32]) -> Result<Vec<Pair>, NoMemory>
    ensures size { IfOk result (λ pairs. length pairs.items ≡ length vars.now) }
    ensures each { IfOk result (λ pairs. (c : ℕ) (p : Pair) → c < length vars.now → slice_index_or pairs.items c p ≡ record { coref = c; var = slice_index vars.now c }) }
{
    let mut pairs = Vec::with_capacity(alloc, vars.len())?;
    for at in 0..vars.len() {
        let coref = number_of(at)?;
        let var = vars[at];
        pairs.push(Pair { coref, var })?;
    }
    Ok(pairs)
}
