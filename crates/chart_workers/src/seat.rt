//! A seat of the pool.
ghost use Rattle.std.specs.Prelude.{◌≡◌, ◌+◌, ◌%◌, ◌^◌, ◌<◌, length, vec_len};
ghost use Rattle.crossbeam_deque.specs.Handles.{view, IsPassOf, stealer_deque, stealer_flavor, worker_flavor, worker_view};

use crate::hand::Hand;
use crate::rule::{Deque, Thief};
use chart_core::TaskId;
use crossbeam_deque::Pass as DequePass;

/// The way to a deque of another seat.
#[derive(Drop)]
pub struct Door {
    pub(crate) deque: usize,
    pub(crate) thief: Thief,
    pub(crate) pass: DequePass<TaskId, Hand>,
    // how many tasks were taken here
    pub(crate) taken: u64,
    ghost fits: { IsPassOf (stealer_deque thief) pass },
    ghost fifo: { stealer_flavor thief ≡ 0 },
    ghost one: { (view pass).parts ≡ 1 },
    ghost none: { length (view pass).put ≡ 0 },
    ghost counted: { taken ≡ length (view pass).taken % 2 ^ 64 },
}

/// What one worker pushes to and takes from: its own deque, and a door to each other one. It counts what it pushes and takes,
/// modulo 2^64.
#[derive(Drop)]
pub struct PoolSeat {
    pub(crate) number: usize,
    pub(crate) own: Deque,
    // how many tasks were pushed on its own deque, and how many were taken there
    pub(crate) pushed: u64,
    pub(crate) taken: u64,
    pub(crate) doors: Vec<Door>,
    ghost pushes: { pushed ≡ length (worker_view own).put % 2 ^ 64 },
    ghost takes: { taken ≡ length (worker_view own).taken % 2 ^ 64 },
    ghost fifo: { worker_flavor own ≡ 0 },
    ghost parts: { (worker_view own).parts + vec_len doors ≡ 64 },
    ghost few: { vec_len doors < 64 },
}

/// What a worker leaves behind.
#[derive(Drop)]
pub struct Pass {
    pub(crate) number: usize,
    pub(crate) own: Deque,
    pub(crate) pushed: u64,
    pub(crate) taken: u64,
    pub(crate) doors: Vec<Door>,
    ghost pushes: { pushed ≡ length (worker_view own).put % 2 ^ 64 },
    ghost takes: { taken ≡ length (worker_view own).taken % 2 ^ 64 },
    ghost some: { 0 < (worker_view own).parts },
}
