//! A quick test of which rules may apply at all, by predicates.

ghost use Rattle.std.specs.Prelude.{◌≡◌, ◌<◌, false, length, map, slice_index_or, IfOk, Contains};
ghost use Rattle.std.specs.Bool.{OnFalse};
ghost use Rattle.mrs_model.specs.Views.{predication_of};
ghost use Rattle.transfer_model.specs.Rules.{Element as ElementTree};
ghost use Rattle.transfer_model.specs.Views.{element_of};
ghost use Rattle.mrs_transfer.specs.Inner.Present.{place_of, ArePresent};

use crate::NoMemory;
use mrs_model::Ep;
use std::alloc::Global;
use transfer_model::{Element, Rule};

// How many places there are.
const PLACES: u32 = 4096;

// The place of a predicate.
fn place_of(pred: &str) -> usize
    ensures place { result ≡ place_of pred.now }
    ensures within { result < 4096 }
{
    let mut key = 0_u32;
    for byte in pred.as_bytes() {
        key = (key * 31 + u32::from(*byte)) % PLACES;
    }
    key as usize
}

/// Which predicates an MRS may have: each has a place, by its text, which several may share.
#[derive(Drop)]
pub(crate) struct Present {
    pub(crate) places: Vec<bool>,
}

impl Present {
    /// The predicates of these.
    pub(crate) fn new(alloc: Global, eps: &[Ep]) -> Result<Present, NoMemory>
        ensures { IfOk result (λ p. ArePresent p.places.items (map predication_of eps.now)) }
    {
        let mut places = vec![in alloc; false; PLACES as usize]?;
        for ep in eps {
            places[place_of(ep.pred.as_str())] = true;
        }
        Ok(Present { places })
    }

    // Whether some elementary predication may have the predicate of an element.
    fn may_have(&self, element: &Element) -> bool
        requires { length self.now.places.items ≡ 4096 }
        ensures { result ≡ slice_index_or self.now.places.items (place_of (element_of element.now).pred) false }
    {
        self.places[place_of(element.pred.as_str())]
    }

    /// Whether the predicates of all elements of a rule may be there.
    pub(crate) fn may_match(&self, rule: &Rule) -> bool
        requires { length self.now.places.items ≡ 4096 }
        ensures { OnFalse result ((x : ElementTree) × Contains (map element_of rule.now.elements.items) x × (slice_index_or self.now.places.items (place_of x.pred) false ≡ false)) }
    {
        for element in &rule.elements {
            if !self.may_have(element) {
                return false;
            }
        }
        true
    }
}
