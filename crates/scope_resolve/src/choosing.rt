//! Which open hole is filled next, and with which labels.

ghost use Rattle.std.specs.Prelude.{◌≡◌, ◌<◌, ◌++◌, ◌∷◌, [], OnOk, MatchOption, true, false, length};
ghost use Rattle.scope_resolve.specs.Inner.Pruning.{suits as suits_in, may_stand as may_stand_in, those};

use crate::masks::Masks;
use crate::nets::{Net, mark_at};
use crate::ways::Ways;
use mrs_model::NoMemory;
use scope_model::Plug;

// How many labels may be plugged into each open hole: the bit of a hole in `ones`, `twos` and `fours` is one of its number, and `eights` has
// those that had eight.
#[derive(Clone, Copy)]
struct Counts {
    ones: u64,
    twos: u64,
    fours: u64,
    eights: u64,
}

impl Counts {
    fn add(&mut self, bits: u64) {
        let twos = self.ones & bits;
        self.ones ^= bits;
        let fours = self.twos & twos;
        self.twos ^= twos;
        self.eights |= self.fours & fours;
        self.fours ^= fours;
    }

    // Of some open holes those with the fewest labels.
    fn fewest(&self, bits: u64) -> u64 {
        let bits = without(bits, self.eights);
        let bits = without(bits, self.fours);
        let bits = without(bits, self.twos);
        without(bits, self.ones)
    }
}

// Those of the first that aren't in the second, if there are any, and all of them otherwise.
fn without(bits: u64, more: u64) -> u64 {
    let fewer = bits & !more;
    if fewer == 0 { bits } else { fewer }
}

fn count_all(net: &Net, ways: &Ways, masks: &Masks) -> Counts {
    let mut counts = Counts {
        ones: 0,
        twos: 0,
        fours: 0,
        eights: 0,
    };
    for k in 0..net.labels.len() {
        let label = net.labels[k];
        if !mark_at(&ways.placed, label) {
            counts.add(masks.at(label).bits);
        }
    }
    counts
}

// An open hole that is itself a label, if there is one.
fn forced(net: &Net, ways: &Ways) -> Option<usize>
    ensures { MatchOption result (Unit {0}) (λ place. place < length ways.now.opens.items) }
{
    for k in 0..ways.opens.len() {
        if mark_at(&net.is_label, ways.opens[k].hole) {
            return Some(k);
        }
    }
    None
}

// The bits of this many open holes.
fn bits_of(count: usize) -> u64 {
    if count >= 64 {
        return u64::MAX;
    }
    (1 << count) - 1
}

/// The place of an open hole into which few labels may be plugged.
pub(crate) fn choose(net: &Net, ways: &Ways, masks: &Masks) -> usize
    requires { 0 < length ways.now.opens.items }
    ensures { result < length ways.now.opens.items }
{
    if let Some(place) = forced(net, ways) {
        return place;
    }
    let bits = bits_of(ways.opens.len());
    let place = count_all(net, ways, masks).fewest(bits).trailing_zeros() as usize;
    if place < ways.opens.len() { place } else { 0 }
}

// Whether a hole that is itself a label is given that label.
fn suits(net: &Net, plug: Plug) -> bool
    ensures { result ≡ suits_in net.now.is_label.items plug.hole plug.label }
{
    if !mark_at(&net.is_label, plug.hole) {
        return true;
    }
    plug.label == plug.hole
}

// Whether a label may be plugged into the open hole at this place.
fn may_stand(net: &Net, ways: &Ways, masks: &Masks, place: usize, plug: Plug) -> bool
    ensures { result ≡ may_stand_in ways.now.placed.items masks.now.sets.items net.now.is_label.items place plug.hole plug.label }
{
    if mark_at(&ways.placed, plug.label) {
        return false;
    }
    if !masks.at(plug.label).has(place) {
        return false;
    }
    suits(net, plug)
}

fn put_candidate(may_stand: bool, label: u32, out: &mut Vec<u32>) -> Result<(), NoMemory>
    ensures yes { OnOk result (may_stand ≡ true → out.new.items ≡ out.old.items ++ label ∷ []) }
    ensures no { OnOk result (may_stand ≡ false → out.new.items ≡ out.old.items) }
{
    if may_stand {
        out.push(label)?;
    }
    Ok(())
}

/// Puts the labels that may be plugged into the open hole at this place after the others.
pub(crate) fn put_candidates(
    net: &Net,
    ways: &Ways,
    masks: &Masks,
    place: usize,
    hole: u32,
    out: &mut Vec<u32>,
) -> Result<(), NoMemory>
    ensures { OnOk result (out.new.items ≡ out.old.items ++ those (may_stand_in ways.now.placed.items masks.now.sets.items net.now.is_label.items place hole) net.now.labels.items) }
{
    for k in 0..net.labels.len() {
        let label = net.labels[k];
        let stands = may_stand(net, ways, masks, place, Plug { hole, label });
        put_candidate(stands, label, out)?;
    }
    Ok(())
}
