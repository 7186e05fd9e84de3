//! What a chart finds that one worker finishes. Nobody is waited for and no thread is started, so that each of these calls returns.

ghost use Rattle.std.specs.Prelude.{All, IfOk, map};
ghost use Rattle.chart_core.specs.Kept.{InRange};
ghost use Rattle.chart_core.specs.Leaves.{LeafBelongs, leaf_seen};
ghost use Rattle.packed_items.specs.Packed.{Fit, IsFound};

use crate::sieving::leaves_over;
use crate::{Found, NoMemory, Work, answer_in_order};
use chart_core::{Leaf, Limits};
use forest_unpack::Fulls;
use shape_memo::{RememberedShapes, SievedShapes, Sketched};
use sieve::{Filter, Sieve};
use std::alloc::Global;

// What is found over leaves of shapes that ask sieves. It does nothing else, since what is known of such shapes is long.
fn asking_alone<'a, 'm, 'f, S: Sketched, G: Fulls<Cover = S::Cover>, F: Filter>(
    alloc: Global,
    shapes: &SievedShapes<'a, 'm, 'f, S, F>,
    work: &mut Work<S::Work, G::Work>,
    leaves: Vec<Leaf<SievedShapes<'a, 'm, 'f, S, F>>>,
    fulls: &G,
    limits: &Limits,
) -> Result<Found, NoMemory>
    requires limits { InRange limits.now }
    requires leaves { All (LeafBelongs (S.calculus shapes.now) (S.belongs shapes.now)) leaves.items }
    requires fit { Fit (S.calculus shapes.now) (S.full shapes.now) (S.agrees shapes.now) (G.wholes fulls.now) (G.named fulls.now) (G.ruled fulls.now) (map (leaf_seen (S.meaning shapes.now)) leaves.items) }
    ensures { IfOk result (IsFound (S.calculus shapes.now) (S.full shapes.now) (S.agrees shapes.now) (G.wholes fulls.now) limits.now (map (leaf_seen (S.meaning shapes.now)) leaves.entry.items)) }
{
    answer_in_order(
        alloc,
        shapes,
        &mut work.chart,
        &mut work.trees,
        leaves,
        fulls,
        limits,
    )
}

// What is found over leaves of shapes that remember, by those that ask sieves before.
fn over_alone<S: Sketched, G: Fulls<Cover = S::Cover>, F: Filter>(
    alloc: Global,
    shapes: &RememberedShapes<'_, S>,
    sieves: &[Sieve<F>],
    work: &mut Work<S::Work, G::Work>,
    leaves: Vec<Leaf<S>>,
    fulls: &G,
    limits: &Limits,
) -> Result<Found, NoMemory>
    requires limits { InRange limits.now }
    requires leaves { All (LeafBelongs (S.calculus shapes.now) (S.belongs shapes.now)) leaves.items }
    requires fit { Fit (S.calculus shapes.now) (S.full shapes.now) (S.agrees shapes.now) (G.wholes fulls.now) (G.named fulls.now) (G.ruled fulls.now) (map (leaf_seen (S.meaning shapes.now)) leaves.items) }
    ensures { IfOk result (IsFound (S.calculus shapes.now) (S.full shapes.now) (S.agrees shapes.now) (G.wholes fulls.now) limits.now (map (leaf_seen (S.meaning shapes.now)) leaves.items)) }
{
    let sieved = SievedShapes::new(shapes, sieves);
    let leaves = leaves_over(alloc, leaves)?;
    asking_alone(alloc, &sieved, work, leaves, fulls, limits)
}

/// What `answer_sieved` finds, by one worker who makes smaller edges first.
pub fn answer_sieved_alone<S: Sketched, G: Fulls<Cover = S::Cover>, F: Filter>(
    alloc: Global,
    shapes: &S,
    sieves: &[Sieve<F>],
    work: &mut Work<S::Work, G::Work>,
    leaves: Vec<Leaf<S>>,
    fulls: &G,
    limits: &Limits,
) -> Result<Found, NoMemory>
    requires limits { InRange limits.now }
    requires leaves { All (LeafBelongs (S.calculus shapes.now) (S.belongs shapes.now)) leaves.items }
    requires fit { Fit (S.calculus shapes.now) (S.full shapes.now) (S.agrees shapes.now) (G.wholes fulls.now) (G.named fulls.now) (G.ruled fulls.now) (map (leaf_seen (S.meaning shapes.now)) leaves.items) }
    ensures { IfOk result (IsFound (S.calculus shapes.now) (S.full shapes.now) (S.agrees shapes.now) (G.wholes fulls.now) limits.now (map (leaf_seen (S.meaning shapes.now)) leaves.items)) }
{
    let Ok(remembered) = RememberedShapes::new(alloc, shapes) else {
        return Err(NoMemory);
    };
    over_alone(alloc, &remembered, sieves, work, leaves, fulls, limits)
}

/// What `answer_remembered` finds, by one worker who makes smaller edges first: what earlier items left is found, and later ones find
/// what this one adds. An item for which `shapes` have no room any more remembers by itself. Nothing that is remembered and no sieve
/// occurs in what is found. `NoMemory` may come in place of any answer.
pub fn answer_remembered_alone<S: Sketched, G: Fulls<Cover = S::Cover>, F: Filter>(
    alloc: Global,
    shapes: &RememberedShapes<'_, S>,
    sieves: &[Sieve<F>],
    work: &mut Work<S::Work, G::Work>,
    leaves: Vec<Leaf<S>>,
    fulls: &G,
    limits: &Limits,
) -> Result<Found, NoMemory>
    requires limits { InRange limits.now }
    requires leaves { All (LeafBelongs (S.calculus shapes.now) (S.belongs shapes.now)) leaves.items }
    requires fit { Fit (S.calculus shapes.now) (S.full shapes.now) (S.agrees shapes.now) (G.wholes fulls.now) (G.named fulls.now) (G.ruled fulls.now) (map (leaf_seen (S.meaning shapes.now)) leaves.items) }
    ensures { IfOk result (IsFound (S.calculus shapes.now) (S.full shapes.now) (S.agrees shapes.now) (G.wholes fulls.now) limits.now (map (leaf_seen (S.meaning shapes.now)) leaves.items)) }
{
    if shapes.is_full() {
        let plain = shapes.shapes();
        return answer_sieved_alone(alloc, plain, sieves, work, leaves, fulls, limits);
    }
    over_alone(alloc, shapes, sieves, work, leaves, fulls, limits)
}
