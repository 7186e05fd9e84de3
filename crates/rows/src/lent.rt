//! What is lent to the calls: a gate that lists the tasks with which it is called, filters, and rankings.

use sieve::{Filter, Ranking, Sketch, types_meet};
use std::alloc::{AllocError, Global};
use std::sync::atomic::{AtomicU64, Ordering};
use type_hierarchy::Types;
use worker_gate::Gate;

// How many tasks are listed.
const LISTED: usize = 14;

/// How many tasks came, and the first of them, in the order in which they came. One worker calls.
#[derive(Drop)]
pub struct Listing {
    came: AtomicU64,
    first: Vec<AtomicU64>,
}

impl Listing {
    /// No task came yet.
    pub fn new(alloc: Global) -> Result<Listing, AllocError> {
        let mut first = Vec::with_capacity(alloc, LISTED)?;
        for _ in 0..LISTED {
            first.push(AtomicU64::new(0))?;
        }
        Ok(Listing {
            came: AtomicU64::new(0),
            first,
        })
    }

    /// How many tasks came.
    pub fn count(&self) -> u64 {
        self.came.load(Ordering::SeqCst)
    }

    /// Writes the numbers of the first tasks.
    pub fn write(&self, alloc: Global, out: &mut Vec<u8>) -> Result<(), AllocError> {
        for task in &self.first {
            let number = task.load(Ordering::SeqCst);
            let piece = format!(in alloc; " {number}")?;
            out.extend_from_slice(piece.as_bytes())?;
        }
        Ok(())
    }
}

impl Gate for Listing {
    fn at(&self, _worker: u32, task: u64) {
        let place = self.came.fetch_add(1, Ordering::SeqCst);
        if let Some(slot) = self.first.get(place as usize) {
            slot.store(task, Ordering::SeqCst);
        }
    }
}

/// A filter: the quick test of types at paths, or one that always passes and counts its calls.
#[derive(Clone, Copy)]
pub enum Test<'a> {
    TypesMeet,
    Counted(&'a AtomicU64),
}

impl Filter for Test<'_> {
    ghost use Rattle.rows.specs.Lent.{IsPassed};

    ghost answers = { λ test types a b passes. IsPassed test types.now a.now b.now passes };

    fn ask(&self, types: &Types, a: &Sketch, b: &Sketch) -> bool {
        match self {
            Test::TypesMeet => types_meet(types, a, b),
            Test::Counted(calls) => {
                calls.fetch_add(1, Ordering::SeqCst);
                true
            }
        }
    }
}

/// A ranking: smaller hosts first, larger ones as far as their sizes are at most 1,000, or one rank for all tasks.
#[derive(Clone, Copy)]
pub enum Order {
    SmallerFirst,
    LargerFirst,
    OneRank,
}

impl Ranking for Order {
    ghost use Rattle.rows.specs.Lent.{IsRank};

    ghost answers = { λ order _ size _ rank. IsRank order size rank };

    fn ask(&self, _rule: u32, size: u32, _level: u32) -> u32 {
        match self {
            Order::SmallerFirst => size,
            Order::LargerFirst => 1_000u32.saturating_sub(size),
            Order::OneRank => 0,
        }
    }
}
