//! The answers to a batch of lines, which stand side by side.
ghost use Rattle.std.specs.Prelude.{ℕ, ◌+◌, ◌<◌, ◌≤◌, ◌^◌, List, Bool, length, IfOk};
ghost use Rattle.side_by_side.specs.Works.{AreGiven};
ghost use Rattle.endings.specs.Inner.Batches.{IsTold};

use crate::lines::{Answer, Answers, NoMemory, Share};
use side_by_side::{Work, each_by};
use std::alloc::{AllocError, Global};
use std::sync::Wait;
use std::thread::Threads;
use worker_gate::{Gate, OpenGate};

// What answers each of some lines, the first of this number, while others answer others. Where memory is wanting for a line, nothing
// comes of it, and the others are answered.
#[derive(Drop)]
struct LineWork<'c, C> {
    command: &'c C,
    number: u64,
}

impl<'c, C: Answers> Work<Vec<u8>, Option<Answer>> for LineWork<'c, C> {
    ghost use Rattle.std.specs.Prelude.{◌+◌, ◌<◌, ◌^◌};
    ghost use Rattle.endings.specs.Inner.Batches.{IsTold};

    ghost ready = { λ w place line. C.ready w.command.now × (w.number + place < 2 ^ 64) };

    ghost Gives = { λ w place line told. IsTold (C.IsAnswer w.command.now) (C.IsNote w.command.now) (w.number + place) line.items told };

    fn perform<Rt: Threads + Wait + Sync>(
        &self,
        rt: &Rt,
        alloc: Global,
        place: u64,
        line: &Vec<u8>,
    ) -> Result<Option<Answer>, AllocError> {
        // (the gate was told of the line, and isn't told of what is done within it)
        let number = self.number + place;
        Ok(told_by_one(rt, alloc, self.command, number, line))
    }
}

// The answer to a line by one worker, who tells no gate of it, or nothing where memory is wanting.
fn told_by_one<C: Answers, Rt: Threads + Wait + Sync>(
    rt: &Rt,
    alloc: Global,
    command: &C,
    number: u64,
    line: &[u8],
) -> Option<Answer>
    requires ready { C.ready command.now }
    ensures { IsTold (C.IsAnswer command.now) (C.IsNote command.now) number line.now result }
{
    match command.answer(rt, alloc, number, line, Share::Single, &OpenGate) {
        Ok(answer) => Some(answer),
        Err(NoMemory) => None,
    }
}

// The answer to a line that comes alone. It has all workers first, and where memory is wanting so, one alone.
fn told_alone<C: Answers, Rt: Threads + Wait + Sync>(
    rt: &Rt,
    alloc: Global,
    command: &C,
    number: u64,
    line: &[u8],
    gate: &dyn Gate,
) -> Option<Answer>
    requires ready { C.ready command.now }
    ensures { IsTold (C.IsAnswer command.now) (C.IsNote command.now) number line.now result }
{
    if let Ok(answer) = command.answer(rt, alloc, number, line, Share::Whole, gate) {
        return Some(answer);
    }
    if command.workers() == 1 {
        return None;
    }
    told_by_one(rt, alloc, command, number, line)
}

// Lines of which nothing came while others were answered are answered once more, one after the other, by one worker.
fn answer_again<C: Answers, Rt: Threads + Wait + Sync>(
    rt: &Rt,
    alloc: Global,
    command: &C,
    number: u64,
    lines: &[Vec<u8>],
    told: &mut Vec<Option<Answer>>,
)
    requires ready { C.ready command.now }
    requires room { number + length lines.now ≤ 2 ^ 64 }
    requires told { AreGiven (λ place line a. IsTold (C.IsAnswer command.now) (C.IsNote command.now) (number + place) line.items a) 0 lines.now told.old.items }
    ensures { AreGiven (λ place line a. IsTold (C.IsAnswer command.now) (C.IsNote command.now) (number + place) line.items a) 0 lines.now told.new.items }
{
    for place in 0..lines.len() {
        if told[place].is_none() {
            told[place] = told_by_one(rt, alloc, command, number + place as u64, &lines[place]);
        }
    }
}

/// What comes of these lines, the first of this number, one after the other by the caller's thread: the answer to each, or nothing where
/// memory was wanting for it. `NoMemory` comes only where there is no room to keep the answers.
pub(crate) fn answer_in_turn<C: Answers, Rt: Threads + Wait + Sync>(
    rt: &Rt,
    alloc: Global,
    command: &C,
    number: u64,
    lines: &[Vec<u8>],
    gate: &dyn Gate,
) -> Result<Vec<Option<Answer>>, NoMemory>
    requires ready { C.ready command.now }
    requires room { number + length lines.now ≤ 2 ^ 64 }
    ensures { IfOk result (λ told. AreGiven (λ place line a. IsTold (C.IsAnswer command.now) (C.IsNote command.now) (number + place) line.items a) 0 lines.now told.items) }
{
    let mut told = Vec::with_capacity(alloc, lines.len())?;
    for place in 0..lines.len() {
        told.push_reserved(told_alone(
            rt,
            alloc,
            command,
            number + place as u64,
            &lines[place],
            gate,
        ));
    }
    Ok(told)
}

/// What comes of these lines, the first of this number, where those that don't come alone are answered side by side. Each worker takes one
/// line after the other, and tells the gate of it by its place, from 0. A line that comes alone has all workers.
pub(crate) fn answer_apart<C: Answers + Sync, Rt: Threads + Wait + Sync>(
    rt: &Rt,
    alloc: Global,
    command: &C,
    number: u64,
    lines: &[Vec<u8>],
    gate: &dyn Gate,
) -> Result<Vec<Option<Answer>>, NoMemory>
    requires ready { C.ready command.now }
    requires room { number + length lines.now ≤ 2 ^ 64 }
    ensures { IfOk result (λ told. AreGiven (λ place line a. IsTold (C.IsAnswer command.now) (C.IsNote command.now) (number + place) line.items a) 0 lines.now told.items) }
{
    if lines.len() > 1 {
        let work = LineWork { command, number };
        // (where there is no room for several workers, one answers all)
        if let Ok(mut told) = each_by(rt, alloc, &work, lines, command.workers(), gate) {
            answer_again(rt, alloc, command, number, lines, &mut told);
            return Ok(told);
        }
    }
    answer_in_turn(rt, alloc, command, number, lines, gate)
}
