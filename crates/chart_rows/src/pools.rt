//! Pools of tasks whose seats are called one by one.

ghost use Rattle.std.specs.Prelude.{◌≡◌, map, IfOk};
ghost use Rattle.chart_workers.specs.Pools.{seat_post, pass_post};

use crate::steps::{front, long_number};
use crate::told::push_number;
use chart_core::TaskId;
use chart_model::NoMemory;
use chart_workers::{Over, Pass, Pool, PoolSeat, settle};
use std::alloc::Global;
use std::sync::Wait;

// Whether the work is over.
#[derive(Drop)]
struct Flag {
    is_set: bool,
}

impl Over for Flag {
    ghost use Rattle.std.specs.Prelude.{◌≡◌, refl};
    ghost use Rattle.std.proofs.Common.{◌∙◌};

    ghost is_over = { λ f. f.is_set };

    ghost fit = { λ _. Unit {0} };

    ghost later = { λ x y. y.is_set ≡ x.is_set };

    ghost itself = { λ x is. refl };

    ghost goes_on = { λ x y z p q. q ∙ p };

    fn over(&mut self) -> bool {
        self.is_set
    }
}

// `push:SEAT:TASK` pushes, `next:SEAT` takes.
fn call<R: Wait>(
    rt: &R,
    alloc: Global,
    flag: &mut Flag,
    seat: &mut PoolSeat,
    word: &str,
    task: u64,
    out: &mut String,
) -> Result<(), NoMemory>
    ensures { seat_post seat.new ≡ seat_post seat.old }
{
    if word == "push" {
        if let Err(TaskId(task)) = seat.push(TaskId(task)) {
            push_number(alloc, out, "refused ", task)?;
        }
        return Ok(());
    }
    match seat.next(rt, flag) {
        Some(task) => push_number(alloc, out, "task ", task.0),
        None => Ok(out.push_str("none")?),
    }
}

// The same of the seat of a number; `over` sets the flag.
fn step<R: Wait>(
    rt: &R,
    alloc: Global,
    flag: &mut Flag,
    seats: &mut Vec<PoolSeat>,
    step: &str,
    out: &mut String,
) -> Result<(), NoMemory>
    ensures { map seat_post seats.new.items ≡ map seat_post seats.old.items }
{
    let (word, rest) = front(step, ':');
    let (number, task) = front(rest, ':');
    let at = long_number(number) as usize;
    if word == "over" {
        flag.is_set = true;
        return Ok(());
    }
    if at >= seats.len() {
        return Ok(());
    }
    let seat = &mut seats[at];
    call(rt, alloc, flag, seat, word, long_number(task), out)
}

fn steps<R: Wait>(
    rt: &R,
    alloc: Global,
    flag: &mut Flag,
    seats: &mut Vec<PoolSeat>,
    steps: &str,
    out: &mut String,
) -> Result<(), NoMemory>
    ensures { map seat_post seats.new.items ≡ map seat_post seats.old.items }
{
    for word in steps.split(' ') {
        step(rt, alloc, flag, seats, word, out)?;
        out.push_str(", ")?;
    }
    Ok(())
}

// What the seats leave, in order.
fn passes(alloc: Global, mut seats: Vec<PoolSeat>) -> Result<Vec<Pass>, NoMemory>
    ensures { IfOk result (λ v. map pass_post v.items ≡ map seat_post seats.items) }
{
    let mut found = Vec::with_capacity(alloc, seats.len())?;
    seats.reverse();
    while let Some(seat) = seats.pop() {
        found.push_reserved(seat.leave());
    }
    Ok(found)
}

/// What the calls of a pool of so many seats answer, and then what was pushed, taken and left.
pub fn pool<R: Wait>(
    rt: &R,
    alloc: Global,
    count: u32,
    words: &str,
    out: &mut String,
) -> Result<(), NoMemory> {
    let mut flag = Flag { is_set: false };
    let mut seats = Pool::make(alloc, count.clamp(1, 64))?;
    steps(rt, alloc, &mut flag, &mut seats, words, out)?;
    let passes = passes(alloc, seats)?;
    let settled = settle(alloc, passes);
    push_number(alloc, out, "pushed ", settled.pushed)?;
    push_number(alloc, out, " taken ", settled.taken)?;
    push_number(alloc, out, " left ", settled.left)
}
