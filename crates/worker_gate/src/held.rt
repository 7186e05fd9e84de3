//! A gate that holds the worker that comes first, at its first task, until another worker has come with a task. Programs of rows show by it that two
//! workers are at work at once.

use crate::Gate;
use std::hint::spin_loop;
use std::sync::atomic::{AtomicBool, AtomicU64, Ordering};

// How often a worker that is held looks whether another one came, at most.
const TURNS: u32 = 1_000_000_000;

/// Who came first, whether another worker came, and which tasks below 64 were begun.
#[derive(Drop)]
pub struct HoldingGate {
    // the number of the worker that came first, and one more; 0 while none came
    first: AtomicU64,
    came: AtomicBool,
    // a bit for each task that was begun
    begun: AtomicU64,
    // whether a task was begun twice, or one past 63
    odd: AtomicBool,
}

impl HoldingGate {
    /// Nobody came yet.
    pub fn new() -> HoldingGate {
        HoldingGate {
            first: AtomicU64::new(0),
            came: AtomicBool::new(false),
            begun: AtomicU64::new(0),
            odd: AtomicBool::new(false),
        }
    }

    /// Whether a second worker came.
    pub fn second_came(&self) -> bool {
        self.came.load(Ordering::SeqCst)
    }

    /// Whether exactly the tasks below this number were begun, each once.
    pub fn began_each_below(&self, end: u32) -> bool {
        let all = 1u64.checked_shl(end).unwrap_or(0).wrapping_sub(1);
        !self.odd.load(Ordering::SeqCst) && self.begun.load(Ordering::SeqCst) == all
    }

    // Notes that a task is begun.
    fn note(&self, task: u64) {
        if task > 63 {
            self.odd.store(true, Ordering::SeqCst);
            return;
        }
        let bit = 1u64 << task as u32;
        if self.begun.fetch_or(bit, Ordering::SeqCst) & bit != 0 {
            self.odd.store(true, Ordering::SeqCst);
        }
    }

    // Waits until another worker has come.
    fn hold(&self) {
        for _ in 0..TURNS {
            if self.second_came() {
                return;
            }
            spin_loop();
        }
    }
}

impl Gate for HoldingGate {
    fn at(&self, worker: u32, task: u64) {
        self.note(task);
        let mine = u64::from(worker) + 1;
        match self
            .first
            .compare_exchange(0, mine, Ordering::SeqCst, Ordering::SeqCst)
        {
            Ok(_) => self.hold(),
            Err(first) if first != mine => self.came.store(true, Ordering::SeqCst),
            Err(_) => {}
        }
    }
}
