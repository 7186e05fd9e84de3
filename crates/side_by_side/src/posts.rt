//! The posts of the workers: what each has for itself.
ghost use Rattle.std.specs.Prelude.{◌≡◌, ◌+◌, ◌<◌, ◌≤◌, ◌^◌, ◌++◌, ◌∷◌, [], ℕ, All, length, false, IfOk, OnOk};
ghost use Rattle.std.specs.Thread.{IsSync};
ghost use Rattle.std.specs.List.{Contains};
ghost use Rattle.side_by_side.specs.Plays.{all_hands};
ghost use Rattle.side_by_side.specs.Works.{AreReady};
ghost use Rattle.side_by_side.specs.Inner.Posts.{IsDone, IsThrough, IsFresh, HasLeft, HasJoined, places_of};

use crate::work::Work;
use crate::{Drawer, Draws, NoMemory};
use std::alloc::Global;
use std::sync::Wait;
use std::thread;
use std::thread::Threads;
use worker_gate::Gate;

// What was given for the thing at a place.
#[derive(Drop)]
pub(crate) struct Done<O> {
    pub(crate) place: u64,
    pub(crate) out: O,
}

// What one worker has for itself: its number, its seat, what it did, and whether it met want of memory.
#[derive(Drop)]
pub(crate) struct Post<O> {
    pub(crate) number: u32,
    pub(crate) seat: Drawer,
    pub(crate) done: Vec<Done<O>>,
    pub(crate) refused: bool,
}

// A post for each worker, by a seat that stands for all.
#[tactic(auto, using(crate::proofs::Drawing::all_more))]
pub(crate) fn posts_of<O>(
    alloc: Global,
    draws: &Draws,
    mut seat: Drawer,
    workers: u32,
) -> Result<Vec<Post<O>>, NoMemory>
    requires id { seat.table_id ≡ draws.now.table.shared.table_id }
    requires all { seat.me ≡ (all_hands draws.now.table.shared.key.count workers, []) }
    requires some { 0 < workers }
    ensures count { IfOk result (λ v. length v.items ≡ workers) }
    ensures fresh { IfOk result (λ v. All (IsFresh draws.now draws.now.table.shared.key.count) v.items) }
{
    let mut posts = Vec::with_capacity(alloc, workers as usize)?;
    for number in 1..workers {
        let cut = draws.cut(&mut seat);
        posts.push_reserved(Post {
            number,
            seat: cut,
            done: Vec::new(alloc),
            refused: false,
        });
    }
    posts.push_reserved(Post {
        number: 0,
        seat,
        done: Vec::new(alloc),
        refused: false,
    });
    Ok(posts)
}

// Does the work at a place, and keeps what was given.
#[tactic(auto, using(crate::proofs::Drawing::all_more, crate::proofs::Drawing::places_more))]
fn do_at<T, O: Drop, K: Work<T, O>, Rt: Threads + Wait + Sync>(
    rt: &Rt,
    alloc: Global,
    work: &K,
    things: &[T],
    place: u64,
    done: &mut Vec<Done<O>>,
) -> Result<(), NoMemory>
    requires sync { IsSync Rt.row }
    requires ready { AreReady (K.ready work.now) things.now }
    requires place { place < length things.now }
    requires done { All (IsDone (K.Gives work.now) things.now) done.old.items }
    ensures done { All (IsDone (K.Gives work.now) things.now) done.new.items }
    ensures places { OnOk result (places_of done.new.items ≡ places_of done.old.items ++ place ∷ []) }
{
    done.reserve(1)?;
    let out = work.perform(rt, alloc, place, &things[place as usize])?;
    done.push_reserved(Done { place, out });
    Ok(())
}

// One worker at its post: it draws places until it draws a number that is none, or meets want of memory.
fn attend<T, O: Drop, K: Work<T, O>, Rt: Threads + Wait + Sync>(
    rt: &Rt,
    alloc: Global,
    work: &K,
    things: &[T],
    draws: &Draws,
    post: &mut Post<O>,
    gate: &dyn Gate,
)
    requires sync { IsSync Rt.row }
    requires ready { AreReady (K.ready work.now) things.now }
    requires fresh { IsFresh draws.now (length things.now) post.old }
    requires few { length things.now < 2 ^ 63 }
    ensures id { post.new.seat.table_id ≡ post.old.seat.table_id }
    ensures done { All (IsDone (K.Gives work.now) things.now) post.new.done.items }
    ensures through { post.new.refused ≡ false → (post.new.seat.me.1 ≡ []) × (post.new.seat.me.0.hands ≡ 1) × IsThrough (length things.now) post.new.done.items post.new.seat.me.0 }
{
    // (the number that is drawn after so many turns is at least as large, so there are no more turns than this)
    let count = things.len() as u64;
    let mut turn = 0;
    while turn <= count {
        let place = draws.draw(&mut post.seat);
        if place >= count {
            return;
        }
        gate.at(post.number, place);
        let Ok(()) = do_at(rt, alloc, work, things, place, &mut post.done) else {
            post.refused = true;
            return;
        };
        turn += 1;
    }
    unreachable!()
}

// All workers, each in a thread of its own; the caller's thread is one of these, so that one worker starts none.
pub(crate) fn run<T: Sync, O: Drop + Send, K: Work<T, O> + Sync, Rt: Threads + Wait + Sync>(
    rt: &Rt,
    alloc: Global,
    work: &K,
    things: &[T],
    draws: &Draws,
    posts: &mut [Post<O>],
    gate: &dyn Gate,
)
    requires ready { AreReady (K.ready work.now) things.now }
    requires some { 0 < length posts.old }
    requires fresh { All (IsFresh draws.now (length things.now)) posts.old }
    requires few { length things.now < 2 ^ 63 }
    ensures count { length posts.new ≡ length posts.old }
    ensures each { All (HasLeft (K.Gives work.now) things.now draws.now) posts.new }
{
    let threads = posts.len();
    thread::for_each_mut(
        rt,
        posts,
        threads,
        &|_i: usize, post: &mut Post<O>|
            requires { IsSync Rt.row × AreReady (K.ready work.now) things.now × IsFresh draws.now (length things.now) post.now × (length things.now < 2 ^ 63) }
            ensures { HasLeft (K.Gives work.entry.now) things.entry.now draws.entry.now post.exit.now }
        { attend(rt, alloc, work, things, draws, post, gate) },
    );
}

// Joins what one worker did to what others did.
fn join_post<T, O: Drop, K: Work<T, O>>(
    _work: &K,
    _things: &[T],
    draws: &Draws,
    first: &mut Post<O>,
    post: Post<O>,
) -> Result<(), NoMemory>
    requires joined { HasJoined (K.Gives _work.now) _things.now draws.now first.old }
    requires left { HasLeft (K.Gives _work.now) _things.now draws.now post }
    ensures joined { OnOk result (HasJoined (K.Gives _work.now) _things.now draws.now first.new) }
    ensures hands { OnOk result (first.new.seat.me.0.hands ≡ first.old.seat.me.0.hands + 1) }
{
    if post.refused {
        return Err(NoMemory);
    }
    let Post {
        number: _,
        seat,
        mut done,
        refused: _,
    } = post;
    first.done.append(&mut done)?;
    draws.join(&mut first.seat, seat);
    Ok(())
}

// What all workers did, once each has left. Every place is among it: what they drew are the numbers below some number, each once and none
// left out, and each worker drew one that is no place. Where one met want of memory there is nothing.
#[tactic(auto, using(crate::proofs::Drawing::left_popped, crate::proofs::Drawing::one_joined, crate::proofs::Drawing::all_done))]
pub(crate) fn close_posts<T, O: Drop, K: Work<T, O>>(
    _work: &K,
    _things: &[T],
    draws: Draws,
    mut posts: Vec<Post<O>>,
) -> Result<Vec<Done<O>>, NoMemory>
    requires count { length posts.items ≡ draws.table.shared.key.seats }
    requires some { 0 < length posts.items }
    requires each { All (HasLeft (K.Gives _work.now) _things.now draws) posts.items }
    ensures none_left { IfOk result (λ v. (x : ℕ) → x < length _things.now → Contains (places_of v.items) x) }
    ensures done { IfOk result (λ v. All (IsDone (K.Gives _work.now) _things.now) v.items) }
{
    let Some(mut first) = posts.pop() else {
        unreachable!()
    };
    if first.refused {
        return Err(NoMemory);
    }
    while let Some(post) = posts.pop() {
        join_post(_work, _things, &draws, &mut first, post)?;
    }
    let Post {
        number: _,
        seat,
        done,
        refused: _,
    } = first;
    draws.close(seat);
    Ok(done)
}
