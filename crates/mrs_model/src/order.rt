//! The order in which elements are given their places: those that leave the least choice come first.

ghost use Rattle.std.specs.Prelude.{◌≡◌, ◌<◌, length, IfOk};
ghost use Rattle.std.specs.List.Sorted.{IsPermutation};
ghost use Rattle.mrs_model.specs.Inner.State.{elements_of};

use crate::elements::rarest_first;
use crate::items::Item;
use crate::keyed::Keyed;
use crate::{NoMemory, Role, Value};
use std::alloc::Global;

/// The variables of top and index, and of the elements that were taken; these are bound when the next element is given a place. Any set
/// of variables is right, since it only decides in which order elements are taken.
#[derive(Drop)]
struct Known {
    marks: Vec<bool>,
}

impl Known {
    fn new(alloc: Global, vars: usize) -> Result<Known, NoMemory> {
        Ok(Known {
            marks: vec![in alloc; false; vars]?,
        })
    }

    fn note(&mut self, var: u32) {
        let place = var as usize;
        if place < self.marks.len() {
            self.marks[place] = true;
        }
    }

    fn has(&self, var: u32) -> bool {
        let place = var as usize;
        place < self.marks.len() && self.marks[place]
    }

    fn note_roles(&mut self, roles: &[Role]) {
        for role in roles {
            if let Value::Var(var) = role.value {
                self.note(var);
            }
        }
    }

    fn note_item(&mut self, item: Item<'_>) {
        match item {
            Item::Ep(ep) => {
                self.note(ep.label);
                self.note_roles(&ep.roles);
            }
            Item::Hcon(hcon) => {
                self.note(hcon.high);
                self.note(hcon.low);
            }
            Item::Icon(icon) => {
                self.note(icon.left);
                self.note(icon.right);
            }
        }
    }

    fn touches_roles(&self, roles: &[Role]) -> bool {
        for role in roles {
            if let Value::Var(var) = role.value {
                if self.has(var) {
                    return true;
                }
            }
        }
        false
    }

    // Whether a variable of the element is known.
    fn touches(&self, item: Item<'_>) -> bool {
        match item {
            Item::Ep(ep) => self.has(ep.label) || self.touches_roles(&ep.roles),
            Item::Hcon(hcon) => self.has(hcon.high) || self.has(hcon.low),
            Item::Icon(icon) => self.has(icon.left) || self.has(icon.right),
        }
    }
}

// The place of the element to be taken next: the rarest of those with a known variable, or else the rarest of all.
fn next_place(items: &[Keyed<'_>], from: usize, known: &Known) -> usize
    requires { from < length items.now }
    ensures { result < length items.now }
{
    let mut best = from;
    let mut best_touches = known.touches(items[from].item);
    for place in from..items.len() {
        let touches = known.touches(items[place].item);
        let rarer = items[place].count < items[best].count;
        if (touches && !best_touches) || (touches == best_touches && rarer) {
            best = place;
            best_touches = touches;
        }
    }
    best
}

/// The elements in the order in which they are given places. Rare ones come first; of those that are as frequent as others each next one
/// shares a variable with what came before it, where one does, so that its place is told by what is bound.
#[tactic(auto, using(crate::proofs::Listing::swapped))]
pub(crate) fn in_order<'a>(
    alloc: Global,
    items: &[Keyed<'a>],
    vars: usize,
    top: u32,
    index: u32,
) -> Result<Vec<Keyed<'a>>, NoMemory>
    ensures { IfOk result (λ v. IsPermutation (elements_of items.now) (elements_of v.items)) }
{
    let mut out = rarest_first(alloc, items)?;
    let mut known = Known::new(alloc, vars)?;
    known.note(top);
    known.note(index);
    for place in 0..out.len() {
        if out[place].count > 1 {
            let best = next_place(&out, place, &known);
            out.swap(place, best);
        }
        known.note_item(out[place].item);
    }
    Ok(out)
}
