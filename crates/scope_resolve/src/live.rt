//! The pairs of a plan that say something of a state.

ghost use Rattle.std.specs.Prelude.{◌≡◌, IfOk, OnOk, true, false};
ghost use Rattle.scope_model.specs.Frames.{Frame};
ghost use Rattle.scope_model.specs.States.{State, IsDead};
ghost use Rattle.scope_resolve.specs.Inner.Pruning.{IsPair, IsPlan, IsSeen, ArePairs};

use crate::nets::mark_at;
use crate::plan::{Link, Plan};
use crate::ways::Ways;
use mrs_model::NoMemory;

/// The pairs whose upper label isn't plugged in. Most states have few of them.
#[derive(Drop)]
pub(crate) struct Live {
    pub(crate) pairs: Vec<Link>,
}

impl Live {
    // Takes a pair, where its upper label isn't plugged in; false where the lower one is.
    fn put(&mut self, ways: &Ways, pair: Link) -> Result<bool, NoMemory>
        ensures torn { IfOk result (λ is_right. is_right ≡ false → (f : Frame) (s : State) → IsSeen f s ways.now → IsPair f pair → IsDead f s) }
        ensures live { OnOk result ((f : Frame) → IsPair f pair → ArePairs f self.old.pairs.items → ArePairs f self.new.pairs.items) }
    {
        if mark_at(&ways.placed, pair.from) {
            return Ok(true);
        }
        if mark_at(&ways.placed, pair.to) {
            return Ok(false);
        }
        self.pairs.push(pair)?;
        Ok(true)
    }

    /// Takes those of a state, whatever was there; false where some label is plugged in below one that isn't: no reading goes on then.
    pub(crate) fn pick(&mut self, ways: &Ways, plan: &Plan) -> Result<bool, NoMemory>
        ensures torn { IfOk result (λ is_right. is_right ≡ false → (f : Frame) (s : State) → IsSeen f s ways.now → IsPlan f plan.now → IsDead f s) }
        ensures live { OnOk result ((f : Frame) → IsPlan f plan.now → ArePairs f self.new.pairs.items) }
    {
        self.pairs.clear();
        for k in 0..plan.pairs.len() {
            if !self.put(ways, plan.pairs[k])? {
                return Ok(false);
            }
        }
        Ok(true)
    }
}
