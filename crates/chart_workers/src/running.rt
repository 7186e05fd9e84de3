//! Each worker in a thread of its own.
ghost use Rattle.std.specs.Prelude.{◌≡◌, ℕ, ◌<◌, All, length, slice_index_or};
ghost use Rattle.chart_core.specs.Grammar.{grammar_of};
ghost use Rattle.chart_core.specs.Kept.{IsCore};
ghost use Rattle.shared_chart.specs.Seats.{shapes_of, state_of, seat_id, chart_id};
ghost use Rattle.chart_workers.specs.Endings.{EndsAs};

use crate::posts::Post;
use crate::priority::Rank;
use crate::working::work;
use chart_model::Shapes;
use shared_chart::SharedChart;
use std::alloc::Global;
use std::sync::Wait;
use std::thread;
use std::thread::Threads;
use worker_gate::Gate;

// One worker at its post.
fn attend<R: Wait, S: Shapes, P: Rank>(
    rt: &R,
    alloc: Global,
    chart: &SharedChart<S>,
    post: &mut Post<S>,
    shapes: &S,
    priority: &P,
    gate: &dyn Gate,
)
    requires seat { seat_id post.old.seat ≡ chart_id chart.now }
    requires shapes { shapes.now ≡ shapes_of post.old.seat }
    requires core { IsCore (grammar_of S.Shapes S.Cover.Cover.own shapes.now) (state_of post.old.seat) }
    ensures { EndsAs (grammar_of S.Shapes S.Cover.Cover.own shapes.now) post.old.seat post.new.ended post.new.seat }
{
    post.ended = work(rt, alloc, chart, post, shapes, priority, gate);
}

// All workers, each in a thread of its own; the caller's thread is one of these, so that one worker starts none.
pub(crate) fn run<R: Wait + Threads + Sync, S: Shapes + Send + Sync, P: Rank + Sync>(
    rt: &R,
    alloc: Global,
    chart: &SharedChart<S>,
    posts: &mut [Post<S>],
    shapes: &S,
    priority: &P,
    gate: &dyn Gate,
)
where
    S::Shape: Send + Sync,
    S::Cover: Send + Sync,
    S::Work: Send + Sync,
    requires some { 0 < length posts.old }
    requires ready { All (λ p. (seat_id p.seat ≡ chart_id chart.now) × (shapes.now ≡ shapes_of p.seat) × IsCore (grammar_of S.Shapes S.Cover.Cover.own shapes.now) (state_of p.seat)) posts.old }
    ensures count { length posts.new ≡ length posts.old }
    ensures each { (i : ℕ) → (d : _) → i < length posts.old → EndsAs (grammar_of S.Shapes S.Cover.Cover.own shapes.now) (slice_index_or posts.old i d).seat (slice_index_or posts.new i d).ended (slice_index_or posts.new i d).seat }
{
    let threads = posts.len();
    thread::for_each_mut(
        rt,
        posts,
        threads,
        &|_i: usize, post: &mut Post<S>|
            requires { (seat_id post.now.seat ≡ chart_id chart.now) × (shapes.now ≡ shapes_of post.now.seat) × IsCore (grammar_of S.Shapes S.Cover.Cover.own shapes.now) (state_of post.now.seat) }
            ensures { EndsAs (grammar_of S.Shapes S.Cover.Cover.own shapes.entry.now) post.entry.now.seat post.exit.now.ended post.exit.now.seat }
        { attend(rt, alloc, chart, post, shapes, priority, gate) },
    );
}
