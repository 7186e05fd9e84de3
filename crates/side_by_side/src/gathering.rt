//! What was given, each at its place.
ghost use Rattle.std.specs.Prelude.{◌≡◌, ℕ, ◌<◌, All, length, None, Some, slice_set, IfOk};
ghost use Rattle.std.specs.List.{Contains};
ghost use Rattle.side_by_side.specs.Works.{AreGiven};
ghost use Rattle.side_by_side.specs.Inner.Posts.{AreFilled, IsDone, IsFull, places_of};

use crate::NoMemory;
use crate::posts::Done;
use crate::work::Work;
use std::alloc::Global;

// So many places with nothing in them.
#[tactic(auto, using(crate::proofs::Drawing::all_more))]
fn empty_places<O: Drop>(alloc: Global, count: usize) -> Result<Vec<Option<O>>, NoMemory>
    ensures count { IfOk result (λ v. length v.items ≡ count) }
    ensures empty { IfOk result (λ v. All (λ p. p ≡ None) v.items) }
{
    let mut places = Vec::with_capacity(alloc, count)?;
    for _ in 0..count {
        places.push_reserved(None);
    }
    Ok(places)
}

// Puts one thing at its place.
fn put_one<O: Drop>(places: &mut Vec<Option<O>>, one: Done<O>)
    requires { one.place < length places.old.items }
    ensures { places.new.items ≡ slice_set places.old.items one.place (Some one.out) }
{
    let Done { place, out } = one;
    places[place as usize] = Some(out);
}

// Puts what was given at its place.
#[tactic(auto, using(crate::proofs::Filling::done_within, crate::proofs::Filling::one_put, crate::proofs::Filling::all_full))]
fn put_all<T, O: Drop, K: Work<T, O>>(
    _work: &K,
    _things: &[T],
    places: &mut Vec<Option<O>>,
    mut done: Vec<Done<O>>,
)
    requires { AreFilled (K.Gives _work.now) _things.now places.old.items done.items }
    ensures count { length places.new.items ≡ length _things.now }
    ensures full { IsFull (K.Gives _work.now) _things.now places.new.items }
{
    while let Some(one) = done.pop() {
        put_one(places, one);
    }
}

// Takes out what stands at the places.
#[tactic(auto, using(crate::proofs::Filling::full_less, crate::proofs::Filling::last_some, crate::proofs::Filling::one_taken, crate::proofs::Filling::none_taken))]
fn take_out<T, O: Drop, K: Work<T, O>>(
    alloc: Global,
    _work: &K,
    _things: &[T],
    mut places: Vec<Option<O>>,
) -> Result<Vec<O>, NoMemory>
    requires count { length places.items ≡ length _things.now }
    requires full { IsFull (K.Gives _work.now) _things.now places.items }
    ensures { IfOk result (λ v. AreGiven (K.Gives _work.now) 0 _things.now v.items) }
{
    let mut outs = Vec::with_capacity(alloc, places.len())?;
    while let Some(place) = places.pop() {
        let Some(out) = place else { unreachable!() };
        outs.push_reserved(out);
    }
    outs.reverse();
    Ok(outs)
}

// What was given for these things, in order of their places.
#[tactic(auto, using(crate::proofs::Filling::first_filled))]
pub(crate) fn gather<T, O: Drop, K: Work<T, O>>(
    alloc: Global,
    _work: &K,
    things: &[T],
    done: Vec<Done<O>>,
) -> Result<Vec<O>, NoMemory>
    requires done { All (IsDone (K.Gives _work.now) things.now) done.items }
    requires none_left { (x : ℕ) → x < length things.now → Contains (places_of done.items) x }
    ensures { IfOk result (λ v. AreGiven (K.Gives _work.now) 0 things.now v.items) }
{
    let mut places = empty_places(alloc, things.len())?;
    put_all(_work, things, &mut places, done);
    take_out(alloc, _work, things, places)
}
