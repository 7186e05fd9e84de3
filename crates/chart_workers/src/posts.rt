//! The posts of the workers: what each has for itself.
ghost use Rattle.std.specs.Prelude.{◌≡◌, length, map, IfOk};
ghost use Rattle.chart_workers.specs.Posts.{post_seat};

use crate::{Ended, PoolSeat};
use chart_core::TaskId;
use chart_model::{NoMemory, Shapes};
use shared_chart::{ChartSeat, Tools};
use std::alloc::Global;

/// What one worker has for itself: its number, its seats, what it works with, the tasks that it keeps, and how it ended.
#[derive(Drop)]
pub struct Post<S: Shapes> {
    pub number: u32,
    pub seat: ChartSeat<S>,
    pub pool: PoolSeat,
    pub tools: Tools<S::Work>,
    pub kept: Vec<TaskId>,
    pub ended: Ended,
}

// A scratch of an earlier chart, or a new one.
pub(crate) fn scratch<S: Shapes>(
    alloc: Global,
    shapes: &S,
    works: &mut Vec<S::Work>,
) -> Result<S::Work, NoMemory> {
    match works.pop() {
        Some(work) => Ok(work),
        None => shapes.work(alloc),
    }
}

// A post for each seat, in order.
pub(crate) fn posts<S: Shapes>(
    alloc: Global,
    shapes: &S,
    mut seats: Vec<ChartSeat<S>>,
    mut pools: Vec<PoolSeat>,
    works: &mut Vec<S::Work>,
) -> Result<Vec<Post<S>>, NoMemory>
    requires { length pools.items ≡ length seats.items }
    ensures { IfOk result (λ v. map post_seat v.items ≡ seats.items) }
{
    let mut found = Vec::with_capacity(alloc, seats.len())?;
    seats.reverse();
    pools.reverse();
    while let Some(seat) = seats.pop() {
        let Some(pool) = pools.pop() else {
            unreachable!()
        };
        let work = scratch(alloc, shapes, works)?;
        found.push_reserved(Post {
            number: seat.number,
            seat,
            pool,
            tools: Tools {
                work,
                infos: Vec::new(alloc),
            },
            kept: Vec::new(alloc),
            ended: Ended::AllDone,
        });
    }
    Ok(found)
}

// The seats of the chart, in order. The scratches are kept.
pub(crate) fn seats_of<S: Shapes>(
    alloc: Global,
    mut posts: Vec<Post<S>>,
    works: &mut Vec<S::Work>,
) -> Result<Vec<ChartSeat<S>>, NoMemory>
    ensures { IfOk result (λ v. v.items ≡ map post_seat posts.items) }
{
    let mut found = Vec::with_capacity(alloc, posts.len())?;
    posts.reverse();
    while let Some(post) = posts.pop() {
        let seat = post.seat;
        let tools = post.tools;
        works.push(tools.work)?;
        found.push_reserved(seat);
    }
    Ok(found)
}

// Whether a worker has met want of memory.
pub(crate) fn wants_memory<S: Shapes>(posts: &Vec<Post<S>>) -> bool {
    let mut found = false;
    for post in posts {
        if let Ended::NoMemory = post.ended {
            found = true;
        }
    }
    found
}
