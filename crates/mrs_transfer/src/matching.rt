//! The search for the places of elements.

ghost use Rattle.std.specs.Prelude.{◌≡◌, ◌<◌, ◌++◌, ◌∷◌, [], ℕ, Bool, List, length, take, IfOk, IfSome, IfNone};
ghost use Rattle.std.specs.Bool.{OnTrue, OnFalse};
ghost use Rattle.transfer_model.specs.Sites.{Site};
ghost use Rattle.mrs_transfer.specs.Inner.Matching.{task_of, IsTask, IsPlaced, Solves, Begins, IsLeast, IsNowhere};

use crate::NoMemory;
use crate::bound::{Pair, number_of, vars_of};
use crate::fitting::fit;
use mrs_model::{Ep, Var};
use std::alloc::Global;
use transfer_model::Element;

/// What elements are looked for in, the letters of their coreferences, and the variables that are given.
#[derive(Clone, Copy)]
pub(crate) struct Sides<'a> {
    pub(crate) eps: &'a [Ep],
    pub(crate) all: &'a [Var],
    pub(crate) letters: &'a [String],
    pub(crate) elements: &'a [Element],
    pub(crate) given: &'a [Pair],
}

/// Whether a match of all elements is taken. It may ask a guard; then what is taken is said for each relation that the guard answers.
pub(crate) trait Choice {
    // the relation is what its guard answers
    ghost Answered: { Self → (ℕ → Site → Bool) → Type 0 };

    // which are asked about, by their places and the variables of the coreferences
    ghost Asks: { Self → List ℕ → List ℕ → Type 0 };

    // which are taken
    ghost Takes: { Self → (ℕ → Site → Bool) → List ℕ → List ℕ → Type 0 };

    fn takes(&self, alloc: Global, places: &[u32], vars: &[u32]) -> Result<bool, NoMemory>
        requires { Asks self.now places.now vars.now }
        ensures yes { (allows : ℕ → Site → Bool) → Answered self.now allows → IfOk result (λ ok. OnTrue ok (Takes self.now allows places.now vars.now)) }
        ensures no { (allows : ℕ → Site → Bool) → Answered self.now allows → IfOk result (λ ok. OnFalse ok (Takes self.now allows places.now vars.now → ⊥)) };
}

/// Takes each match.
#[derive(Clone, Copy, Debug)]
pub(crate) struct Any;

impl Choice for Any {
    ghost Answered = { λ a allows. Unit {0} };

    ghost Asks = { λ a places vars. Unit {0} };

    ghost Takes = { λ a allows places vars. Unit {0} };

    fn takes(&self, _alloc: Global, _places: &[u32], _vars: &[u32]) -> Result<bool, NoMemory> {
        Ok(true)
    }
}

// Gives the next element this place. False comes only where no match that begins with these places has it there; then nothing changes.
fn put(
    sides: Sides<'_>,
    places: &mut Vec<u32>,
    pairs: &mut Vec<Pair>,
    at: usize,
) -> Result<bool, NoMemory>
    requires task { IsTask (task_of sides) }
    requires placed { IsPlaced (task_of sides) places.old.items pairs.old.items }
    requires turn { length places.old.items < length sides.elements.now }
    requires at { at < length sides.eps.now }
    ensures yes { IfOk result (λ ok. OnTrue ok (IsPlaced (task_of sides.entry) places.new.items pairs.new.items)) }
    ensures more { IfOk result (λ ok. OnTrue ok ((places.new.items ≡ places.old.items ++ at ∷ []) × (take (length pairs.old.items) pairs.new.items ≡ pairs.old.items))) }
    ensures no { IfOk result (λ ok. OnFalse ok ((qs vs : List ℕ) → Solves (task_of sides.entry) qs vs → Begins (places.old.items ++ at ∷ []) qs → ⊥)) }
    ensures same { IfOk result (λ ok. OnFalse ok ((places.new.items ≡ places.old.items) × (pairs.new.items ≡ pairs.old.items))) }
{
    let place = number_of(at)?;
    if places.contains(&place) {
        return Ok(false);
    }
    let mark = pairs.len();
    let element = &sides.elements[places.len()];
    if !fit(sides.letters, sides.all, pairs, element, &sides.eps[at])? {
        pairs.truncate(mark);
        return Ok(false);
    }
    places.push(place)?;
    Ok(true)
}

// The variables of the coreferences, where all elements have places and the match is taken.
fn taken<C: Choice>(
    alloc: Global,
    sides: Sides<'_>,
    choice: &C,
    places: &[u32],
    pairs: &[Pair],
) -> Result<Option<Vec<u32>>, NoMemory>
    requires task { IsTask (task_of sides) }
    requires placed { IsPlaced (task_of sides) places.now pairs.now }
    requires full { length places.now ≡ length sides.elements.now }
    requires asks { (qs vs : List ℕ) → Solves (task_of sides) qs vs → C.Asks choice.now qs vs }
    ensures some { IfOk result (λ o. IfSome o (λ vars. IsLeast (task_of sides.entry) (C.Answered choice.now) (C.Takes choice.now) places.now places.now vars.items)) }
    ensures none { IfOk result (λ o. IfNone o (IsNowhere (task_of sides.entry) (C.Answered choice.now) (C.Takes choice.now) places.now)) }
{
    let vars = vars_of(alloc, pairs, sides.letters.len())?;
    if choice.takes(alloc, places, &vars)? {
        Ok(Some(vars))
    } else {
        Ok(None)
    }
}

/// Gives the elements from the next one on their least places at which the match is taken, and gives the variables of the coreferences. None comes
/// only where no match that begins with these places is taken; then nothing changes.
pub(crate) fn find<C: Choice>(
    alloc: Global,
    sides: Sides<'_>,
    choice: &C,
    places: &mut Vec<u32>,
    pairs: &mut Vec<Pair>,
) -> Result<Option<Vec<u32>>, NoMemory>
    requires task { IsTask (task_of sides) }
    requires placed { IsPlaced (task_of sides) places.old.items pairs.old.items }
    requires asks { (qs vs : List ℕ) → Solves (task_of sides) qs vs → C.Asks choice.now qs vs }
    ensures some { IfOk result (λ o. IfSome o (λ vars. IsLeast (task_of sides.entry) (C.Answered choice.now) (C.Takes choice.now) places.old.items places.new.items vars.items)) }
    ensures none { IfOk result (λ o. IfNone o (IsNowhere (task_of sides.entry) (C.Answered choice.now) (C.Takes choice.now) places.old.items)) }
    ensures same { IfOk result (λ o. IfNone o ((places.new.items ≡ places.old.items) × (pairs.new.items ≡ pairs.old.items))) }
{
    if places.len() == sides.elements.len() {
        let found = taken(alloc, sides, choice, places, pairs)?;
        return Ok(found);
    }
    let mark = pairs.len();
    for at in 0..sides.eps.len() {
        if !put(sides, places, pairs, at)? {
            continue;
        }
        if let Some(vars) = find(alloc, sides, choice, places, pairs)? {
            return Ok(Some(vars));
        }
        places.pop();
        pairs.truncate(mark);
    }
    Ok(None)
}
