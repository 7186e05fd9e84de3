//! The search for a map of variables.

ghost use Rattle.std.specs.Prelude.{◌≡◌, ◌≢◌, ◌<◌, ◌≤◌, ◌↔◌, ◌∷◌, ◌++◌, ◌+◌, [], ℕ, length, map, reverse, take, slice_index, slice_index_or, IfOk, OnOk, OnErr, IsTrue, List, false, true, Some, MatchOption, IfSome};
ghost use Rattle.std.specs.Bool.{OnTrue, OnFalse};
ghost use Rattle.std.specs.List.{slice_get};
ghost use Rattle.mrs_model.specs.Views.{variable_of, predication_of, hcon_of, icon_of};
ghost use Rattle.mrs_model.specs.Renaming.{IsVariableMap};
ghost use Rattle.mrs_model.specs.Inner.Bindings.{Agrees, IsGrown};
ghost use Rattle.mrs_model.specs.Inner.Search.{Begins, Solves};
ghost use Rattle.mrs_model.specs.Inner.State.{task_of, given_of, AreSides, IsSearching, work_of};

use crate::NoMemory;
use crate::bindings::{Bindings, Pair};
use crate::join::Vars;
use crate::keyed::Keyed;
use std::alloc::Global;

/// An element's place among those of the other MRS, and how many pairs of variables there were before it was given.
#[derive(Clone, Copy, Debug, PartialEq, Eq)]
pub(crate) struct Step {
    pub(crate) place: usize,
    pub(crate) mark: usize,
}

/// The elements of two MRSs and their variables.
#[derive(Clone, Copy)]
pub(crate) struct Sides<'a> {
    pub(crate) left: &'a [Keyed<'a>],
    pub(crate) right: &'a [Keyed<'a>],
    pub(crate) vars: Vars<'a>,
    /// The variables of top, and of index, on either side.
    pub(crate) top: Pair,
    pub(crate) index: Pair,
}

/// What is known while a map of variables is looked for.
#[derive(Drop)]
pub(crate) struct Search {
    pub(crate) steps: Vec<Step>,
    pub(crate) used: Vec<bool>,
    pub(crate) bound: Bindings,
}

/// Looks for a map of variables that has the given pairs and puts each element at a place of its own. None comes exactly where there is none;
/// otherwise the steps lead to the pairs.
pub(crate) fn solve(
    alloc: Global,
    sides: Sides<'_>,
    bound: Bindings,
) -> Result<Option<Search>, NoMemory>
    requires sides { AreSides sides }
    requires size { bound.size ≡ length sides.vars.left.now }
    requires begins { Begins (map variable_of sides.vars.left.now) (map variable_of sides.vars.right.now) (given_of sides) bound.pairs }
    requires fits { length sides.left.now ≤ length sides.right.now }
    ensures { IfOk result (λ o. MatchOption o ((to : List ℕ) (place : ℕ → ℕ) → Solves (task_of sides.entry) to place → ⊥)
        (λ s. (next : ℕ) × IsSearching (task_of sides.entry) s next × (length sides.entry.left.now ≤ length s.steps.items))) }
{
    let mut search = Search {
        steps: Vec::with_capacity(alloc, sides.left.len())?,
        used: vec![in alloc; false; sides.right.len()]?,
        bound,
    };
    let mut next = 0;
    while search.steps.len() < sides.left.len() {
        match search.go_on(sides, next)? {
            Some(after) => next = after,
            None => return Ok(None),
        }
    }
    Ok(Some(search))
}

impl Search {
    /// Gives the next element a place from `next` on, or takes the last step back. Gives the place from which to go on, and none where
    /// there is no solution.
    fn go_on(&mut self, sides: Sides<'_>, next: usize) -> Result<Option<usize>, NoMemory>
        requires sides { AreSides sides }
        requires turn { length self.old.steps.items < length sides.left.now }
        requires searching { IsSearching (task_of sides) self.old next }
        ensures on { IfOk result (λ o. IfSome o (λ after. IsSearching (task_of sides.entry) self.new after)) }
        ensures less { IfOk result (λ o. IfSome o (λ after. work_of (task_of sides.entry) self.new after < work_of (task_of sides.entry) self.old next)) }
        ensures none { IfOk result (λ o. MatchOption o ((to : List ℕ) (place : ℕ → ℕ) → Solves (task_of sides.entry) to place → ⊥) (λ after. Unit {0})) }
    {
        if self.advance(sides, next)? {
            return Ok(Some(0));
        }
        match self.steps.pop() {
            None => Ok(None),
            Some(step) => {
                self.bound.forget(step.mark);
                self.used[step.place] = false;
                Ok(Some(step.place + 1))
            }
        }
    }

    /// Gives the next element the first place from `next` on at which it can stand. False comes only where it has none; then nothing changes.
    fn advance(&mut self, sides: Sides<'_>, next: usize) -> Result<bool, NoMemory>
        requires sides { AreSides sides }
        requires turn { length self.old.steps.items < length sides.left.now }
        requires searching { IsSearching (task_of sides) self.old next }
        ensures yes { IfOk result (λ ok. OnTrue ok (IsSearching (task_of sides.entry) self.new 0)) }
        ensures step { IfOk result (λ ok. OnTrue ok ((s : Step) × (self.new.steps.items ≡ self.old.steps.items ++ s ∷ []) × (next ≤ s.place) × (s.place < length sides.entry.right.now))) }
        ensures no { IfOk result (λ ok. OnFalse ok ((last : ℕ) × IsSearching (task_of sides.entry) self.new last × (length sides.entry.right.now ≤ last) × (next ≤ last))) }
        ensures same { IfOk result (λ ok. OnFalse ok (self.new.steps.items ≡ self.old.steps.items)) }
    {
        let item = sides.left[self.steps.len()];
        let mark = self.bound.len();
        for place in next..sides.right.len() {
            if self.try_place(sides, item, place, mark)? {
                return Ok(true);
            }
        }
        Ok(false)
    }

    /// Gives the next element this place, if it can stand there. False comes only where no solution has it there; then nothing changes.
    fn try_place(
        &mut self,
        sides: Sides<'_>,
        item: Keyed<'_>,
        place: usize,
        mark: usize,
    ) -> Result<bool, NoMemory>
        requires sides { AreSides sides }
        requires item { slice_get sides.left.now (length self.old.steps.items) ≡ Some item }
        requires place { place < length sides.right.now }
        requires mark { mark ≡ length self.old.bound.pairs }
        requires searching { IsSearching (task_of sides) self.old place }
        ensures yes { IfOk result (λ ok. OnTrue ok (IsSearching (task_of sides.entry) self.new 0)) }
        ensures step { IfOk result (λ ok. OnTrue ok (self.new.steps.items ≡ self.old.steps.items ++ record { place = place; mark = mark } ∷ [])) }
        ensures no { IfOk result (λ ok. OnFalse ok (IsSearching (task_of sides.entry) self.new (place + 1))) }
        ensures same { IfOk result (λ ok. OnFalse ok ((self.new.steps.items ≡ self.old.steps.items) × (self.new.bound.pairs ≡ self.old.bound.pairs))) }
    {
        if self.used[place] {
            return Ok(false);
        }
        let other = sides.right[place];
        if item.key != other.key {
            return Ok(false);
        }
        if item.item.join(other.item, sides.vars, &mut self.bound)? {
            self.used[place] = true;
            self.steps.push(Step { place, mark })?;
            Ok(true)
        } else {
            self.bound.forget(mark);
            Ok(false)
        }
    }
}
