//! Several things, each done by one of several workers.
ghost use Rattle.std.specs.Prelude.{◌≡◌, ℕ, ◌<◌, ◌≤◌, ◌^◌, length, IfOk};
ghost use Rattle.std.specs.Thread.{IsSync};
ghost use Rattle.side_by_side.specs.Works.{AreGiven, AreReady};

use crate::gathering::gather;
use crate::posts::{close_posts, posts_of, run};
use crate::{Draws, NoMemory};
use std::alloc::Global;
use std::sync::Wait;
use std::thread::Threads;
use worker_gate::Gate;

/// What is done with each of several things.
pub trait Work<T, O> {
    /// What is known where it is done with the thing at a place.
    ghost ready: { Self → ℕ → T → Type 0 };

    /// What is given for the thing at a place.
    ghost Gives: { Self → ℕ → T → O → Type 0 };

    /// Does it with the thing at a place, from 0.
    fn perform<Rt: Threads + Wait + Sync>(
        &self,
        rt: &Rt,
        alloc: Global,
        place: u64,
        thing: &T,
    ) -> Result<O, NoMemory>
        requires sync { IsSync Rt.row }
        requires ready { ready self.now place thing.now }
        ensures { IfOk result (λ out. Gives self.now place thing.now out) };
}

// How many workers so many things need: no more than there are things, and one at least.
fn needed(workers: u32, things: usize) -> u32
    requires { 0 < workers }
    ensures some { 0 < result }
    ensures few { result ≤ workers }
{
    if things < workers as usize {
        return (things as u32).max(1);
    }
    workers
}

/// What is given for each of these things, in order, by so many workers or, where there are fewer things, by as many. Each worker draws a
/// place after the other, tells the gate its own number, from 0, and the place, from 0, and does the work there; the caller's thread is one
/// of them. Where a worker met want of memory, nothing is given.
pub fn each_by<T: Sync, O: Drop + Send, K: Work<T, O> + Sync, Rt: Threads + Wait + Sync>(
    rt: &Rt,
    alloc: Global,
    work: &K,
    things: &[T],
    workers: u32,
    gate: &dyn Gate,
) -> Result<Vec<O>, NoMemory>
    requires ready { AreReady (K.ready work.now) things.now }
    requires few { length things.now < 2 ^ 63 }
    requires some { 0 < workers }
    ensures { IfOk result (λ outs. AreGiven (K.Gives work.now) 0 things.now outs.items) }
{
    let workers = needed(workers, things.len());
    let (draws, seat) = Draws::open(alloc, things.len() as u64, workers)?;
    let mut posts = posts_of(alloc, &draws, seat, workers)?;
    run(rt, alloc, work, things, &draws, &mut posts, gate);
    let done = close_posts(work, things, draws, posts)?;
    gather(alloc, work, things, done)
}
