//! What a chart finds over shapes that remember and ask sieves.

ghost use Rattle.std.specs.Prelude.{◌≡◌, All, IfOk, map};
ghost use Rattle.chart_core.specs.Kept.{InRange};
ghost use Rattle.chart_core.specs.Leaves.{LeafBelongs, leaf_seen};
ghost use Rattle.packed_items.specs.Packed.{Fit, IsFound};

use crate::{Desk, Found, ItemLeaves, NoMemory, answer_leaves};
use chart_core::Leaf;
use chart_model::Shapes;
use chart_workers::{Rank, Terms};
use forest_unpack::Fulls;
use shape_memo::{RememberedShapes, SievedShapes, Sketched};
use sieve::{Filter, Sieve};
use std::alloc::Global;
use std::sync::Wait;
use std::thread::Threads;
use worker_gate::Gate;

/// Shapes with the sieves that are asked before anything is unified. With no sieve the shapes' own quick test is asked.
#[derive(Drop)]
pub struct Sieving<'x, T, F: Filter> {
    pub shapes: &'x T,
    pub sieves: &'x [Sieve<F>],
}

/// The same leaves, over other shapes of the same kind. `NoMemory` comes for want of memory alone.
pub fn leaves_over<S: Shapes, T: Shapes<Shape = S::Shape, Cover = S::Cover>>(
    alloc: Global,
    leaves: Vec<Leaf<S>>,
) -> Result<Vec<Leaf<T>>, NoMemory>
    ensures { IfOk result (λ over. map (leaf_seen (λ shape. shape)) over.items ≡ map (leaf_seen (λ shape. shape)) leaves.items) }
{
    let Ok(mut over) = Vec::with_capacity(alloc, leaves.len()) else {
        return Err(NoMemory);
    };
    for leaf in leaves {
        let leaf = Leaf {
            cover: leaf.cover,
            shape: leaf.shape,
            name: leaf.name,
        };
        match over.push(leaf) {
            Ok(()) => {}
            Err(_) => return Err(NoMemory),
        }
    }
    Ok(over)
}

// What is found over leaves of shapes that ask sieves. It does nothing else, since what is known of such shapes is long.
fn answer_asking<
    'a,
    'm,
    'f,
    R: Wait + Threads + Sync,
    S: Sketched + Send + Sync,
    G: Fulls<Cover = S::Cover>,
    F: Filter + Send + Sync,
    P: Rank + Sync,
>(
    rt: &R,
    alloc: Global,
    shapes: &SievedShapes<'a, 'm, 'f, S, F>,
    desk: &mut Desk<S::Work, G::Work>,
    item: ItemLeaves<'_, SievedShapes<'a, 'm, 'f, S, F>, G>,
    terms: &Terms<'_, P>,
    gate: &dyn Gate,
) -> Result<Found, NoMemory>
where
    S::Shape: Send + Sync,
    S::Cover: Send + Sync,
    S::Work: Send + Sync,
    requires limits { InRange terms.now.limits.now }
    requires leaves { All (LeafBelongs (S.calculus shapes.now) (S.belongs shapes.now)) item.leaves.items }
    requires fit { Fit (S.calculus shapes.now) (S.full shapes.now) (S.agrees shapes.now) (G.wholes item.fulls.now) (G.named item.fulls.now) (G.ruled item.fulls.now) (map (leaf_seen (S.meaning shapes.now)) item.leaves.items) }
    ensures { IfOk result (IsFound (S.calculus shapes.now) (S.full shapes.now) (S.agrees shapes.now) (G.wholes item.entry.fulls.now) terms.now.limits.now (map (leaf_seen (S.meaning shapes.now)) item.entry.leaves.items)) }
{
    answer_leaves(rt, alloc, shapes, desk, item, terms, gate)
}

// What is found over leaves of shapes that remember, by those that ask sieves before.
fn answer_over<
    R: Wait + Threads + Sync,
    S: Sketched + Send + Sync,
    G: Fulls<Cover = S::Cover>,
    F: Filter + Send + Sync,
    P: Rank + Sync,
>(
    rt: &R,
    alloc: Global,
    sieving: &Sieving<'_, RememberedShapes<'_, S>, F>,
    desk: &mut Desk<S::Work, G::Work>,
    item: ItemLeaves<'_, S, G>,
    terms: &Terms<'_, P>,
    gate: &dyn Gate,
) -> Result<Found, NoMemory>
where
    S::Shape: Send + Sync,
    S::Cover: Send + Sync,
    S::Work: Send + Sync,
    requires limits { InRange terms.now.limits.now }
    requires leaves { All (LeafBelongs (S.calculus sieving.now.shapes.now) (S.belongs sieving.now.shapes.now)) item.leaves.items }
    requires fit { Fit (S.calculus sieving.now.shapes.now) (S.full sieving.now.shapes.now) (S.agrees sieving.now.shapes.now) (G.wholes item.fulls.now) (G.named item.fulls.now) (G.ruled item.fulls.now) (map (leaf_seen (S.meaning sieving.now.shapes.now)) item.leaves.items) }
    ensures { IfOk result (IsFound (S.calculus sieving.now.shapes.now) (S.full sieving.now.shapes.now) (S.agrees sieving.now.shapes.now) (G.wholes item.entry.fulls.now) terms.now.limits.now (map (leaf_seen (S.meaning sieving.now.shapes.now)) item.entry.leaves.items)) }
{
    let sieved = SievedShapes::new(sieving.shapes, sieving.sieves);
    let fulls = item.fulls;
    let leaves = leaves_over(alloc, item.leaves)?;
    let over = ItemLeaves { leaves, fulls };
    answer_asking(rt, alloc, &sieved, desk, over, terms, gate)
}

/// What `answer_leaves` finds, over shapes that remember what rules made of equal daughters and ask sieves before anything is
/// unified; with no sieve their own quick test is asked. What is remembered is this item's alone. The workers of the desk take tasks
/// in the order of the terms' priority. No sieve and no priority occurs in what is found.
pub fn answer_sieved<
    R: Wait + Threads + Sync,
    S: Sketched + Send + Sync,
    G: Fulls<Cover = S::Cover>,
    F: Filter + Send + Sync,
    P: Rank + Sync,
>(
    rt: &R,
    alloc: Global,
    sieving: &Sieving<'_, S, F>,
    desk: &mut Desk<S::Work, G::Work>,
    item: ItemLeaves<'_, S, G>,
    terms: &Terms<'_, P>,
    gate: &dyn Gate,
) -> Result<Found, NoMemory>
where
    S::Shape: Send + Sync,
    S::Cover: Send + Sync,
    S::Work: Send + Sync,
    requires limits { InRange terms.now.limits.now }
    requires leaves { All (LeafBelongs (S.calculus sieving.now.shapes.now) (S.belongs sieving.now.shapes.now)) item.leaves.items }
    requires fit { Fit (S.calculus sieving.now.shapes.now) (S.full sieving.now.shapes.now) (S.agrees sieving.now.shapes.now) (G.wholes item.fulls.now) (G.named item.fulls.now) (G.ruled item.fulls.now) (map (leaf_seen (S.meaning sieving.now.shapes.now)) item.leaves.items) }
    ensures { IfOk result (IsFound (S.calculus sieving.now.shapes.now) (S.full sieving.now.shapes.now) (S.agrees sieving.now.shapes.now) (G.wholes item.entry.fulls.now) terms.now.limits.now (map (leaf_seen (S.meaning sieving.now.shapes.now)) item.entry.leaves.items)) }
{
    let Ok(remembered) = RememberedShapes::new(alloc, sieving.shapes) else {
        return Err(NoMemory);
    };
    let over = Sieving {
        shapes: &remembered,
        sieves: sieving.sieves,
    };
    answer_over(rt, alloc, &over, desk, item, terms, gate)
}

/// What `answer_sieved` finds, where items share what is remembered: `shapes` may remember from earlier items, and later ones find
/// what this one adds. An item for which they have no room any more remembers by itself. Nothing that is remembered, no sieve and no
/// priority occurs in what is found.
pub fn answer_remembered<
    R: Wait + Threads + Sync,
    S: Sketched + Send + Sync,
    G: Fulls<Cover = S::Cover>,
    F: Filter + Send + Sync,
    P: Rank + Sync,
>(
    rt: &R,
    alloc: Global,
    sieving: &Sieving<'_, RememberedShapes<'_, S>, F>,
    desk: &mut Desk<S::Work, G::Work>,
    item: ItemLeaves<'_, S, G>,
    terms: &Terms<'_, P>,
    gate: &dyn Gate,
) -> Result<Found, NoMemory>
where
    S::Shape: Send + Sync,
    S::Cover: Send + Sync,
    S::Work: Send + Sync,
    requires limits { InRange terms.now.limits.now }
    requires leaves { All (LeafBelongs (S.calculus sieving.now.shapes.now) (S.belongs sieving.now.shapes.now)) item.leaves.items }
    requires fit { Fit (S.calculus sieving.now.shapes.now) (S.full sieving.now.shapes.now) (S.agrees sieving.now.shapes.now) (G.wholes item.fulls.now) (G.named item.fulls.now) (G.ruled item.fulls.now) (map (leaf_seen (S.meaning sieving.now.shapes.now)) item.leaves.items) }
    ensures { IfOk result (IsFound (S.calculus sieving.now.shapes.now) (S.full sieving.now.shapes.now) (S.agrees sieving.now.shapes.now) (G.wholes item.entry.fulls.now) terms.now.limits.now (map (leaf_seen (S.meaning sieving.now.shapes.now)) item.entry.leaves.items)) }
{
    if sieving.shapes.is_full() {
        let plain = sieving.shapes.shapes();
        let apart = Sieving {
            shapes: plain,
            sieves: sieving.sieves,
        };
        return answer_sieved(rt, alloc, &apart, desk, item, terms, gate);
    }
    answer_over(rt, alloc, sieving, desk, item, terms, gate)
}
