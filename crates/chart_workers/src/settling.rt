//! What the passes of one pool say together.
ghost use Rattle.std.specs.Prelude.{◌≡◌, ℕ, ◌+◌, ◌%◌, ◌^◌, ◌<◌, [], ◌++◌, List, map, length};
ghost use Rattle.crossbeam_deque.specs.Handles.{view, stealer_deque, worker_deque, worker_view};
ghost use mathlib.Core.Option.{some};
ghost use lib.ListN.{get_elem?};
ghost use Rattle.chart_workers.specs.Balance.{hand, joined, weigh, Same, IsAdditive};
ghost use Rattle.chart_workers.specs.Pools.{seat_post, pass_post, ArePool};
ghost use Rattle.chart_workers.specs.Whole.{all_of, in_all, at_door, pass_place, pass_doors, AreLinked, ArePlaced, Leaves, Settles};

use crate::rule::{Cut, Total};
use crate::seat::{Door, Pass, PoolSeat};
use chart_core::TaskId;
use std::alloc::Global;
use std::mem;

impl PoolSeat {
    /// What the seat leaves behind when its worker ends.
    pub fn leave(self) -> Pass
        ensures same { (result.own ≡ self.own) × (result.doors ≡ self.doors) × (result.number ≡ self.number) }
        ensures post { pass_post result ≡ seat_post self }
    {
        let PoolSeat {
            number,
            own,
            pushed,
            taken,
            doors,
        } = self;
        Pass {
            number,
            own,
            pushed,
            taken,
            doors,
        }
    }
}

impl Pass {
    // Takes in what another seat knows of this deque.
    fn absorb(&mut self, door: Door)
        requires { stealer_deque door.thief ≡ worker_deque self.old.own }
        ensures same { (worker_deque self.new.own ≡ worker_deque self.old.own) × (self.new.number ≡ self.old.number) × (self.new.doors ≡ self.old.doors) }
        ensures view { worker_view self.new.own ≡ joined (worker_view self.old.own) (view door.pass) }
    {
        let Door {
            deque: _,
            thief: _,
            pass,
            taken,
        } = door;
        self.own.absorb::<Cut>(pass);
        self.taken = self.taken.wrapping_add(taken);
    }
}

// Each door's knowledge goes to the pass that owns its deque.
fn pour(passes: &mut Vec<Pass>, mut doors: Vec<Door>)
    requires linked { AreLinked (map pass_place passes.old.items) passes.old.items }
    requires placed { ArePlaced (map pass_place passes.old.items) doors.items }
    ensures places { map pass_place passes.new.items ≡ map pass_place passes.old.items }
    ensures doors { map pass_doors passes.new.items ≡ map pass_doors passes.old.items }
    ensures linked { AreLinked (map pass_place passes.old.items) passes.new.items }
    ensures all { (f : _) → IsAdditive f → (t : ℕ) → all_of f t passes.new.items ≡ all_of f t passes.old.items + weigh (at_door f t) doors.items }
{
    while let Some(door) = doors.pop() {
        let owner = &mut passes[door.deque];
        owner.absorb(door);
    }
    drop(doors);
}

impl Pass {
    fn take_doors(&mut self, alloc: Global) -> Vec<Door>
        ensures doors { (result ≡ self.old.doors) × (self.new.doors.items ≡ []) }
        ensures same { (self.new.own ≡ self.old.own) × (self.new.number ≡ self.old.number) }
    {
        mem::replace(&mut self.doors, Vec::new(alloc))
    }

    // How many tasks were pushed and not taken.
    fn left(&mut self) -> usize
        requires { (worker_view self.old.own).parts ≡ 64 }
        ensures { (left : List TaskId) × (length left ≡ result) × Same (worker_view self.old.own).put ((worker_view self.old.own).taken ++ left) }
    {
        self.own.len_as::<Total>()
    }
}

// All that the doors of all passes know goes to the passes of their deques.
fn gather(alloc: Global, passes: &mut Vec<Pass>)
    requires linked { AreLinked (map pass_place passes.old.items) passes.old.items }
    ensures places { map pass_place passes.new.items ≡ map pass_place passes.old.items }
    ensures linked { AreLinked (map pass_place passes.old.items) passes.new.items }
    ensures all { (f : _) → IsAdditive f → (t : ℕ) → all_of f t passes.new.items ≡ all_of f t passes.old.items }
    ensures empty { (j : ℕ) → (p : Pass) → get_elem? passes.new.items j ≡ some p → p.doors.items ≡ [] }
{
    for at in 0..passes.len() {
        let pass = &mut passes[at];
        let doors = pass.take_doors(alloc);
        pour(passes, doors);
    }
}

/// How many tasks were pushed, how many were taken, and how many are left, each modulo 2^64.
#[derive(Drop, Clone, Copy, Debug, PartialEq, Eq)]
pub struct Settled {
    pub pushed: u64,
    pub taken: u64,
    pub left: u64,
}

impl Settled {
    // Counts the tasks of one deque.
    fn add(&mut self, pushed: u64, taken: u64, left: u64)
        ensures { (self.new.pushed ≡ (self.old.pushed + pushed) % 2 ^ 64) × (self.new.taken ≡ (self.old.taken + taken) % 2 ^ 64) × (self.new.left ≡ (self.old.left + left) % 2 ^ 64) }
    {
        self.pushed = self.pushed.wrapping_add(pushed);
        self.taken = self.taken.wrapping_add(taken);
        self.left = self.left.wrapping_add(left);
    }
}

/// Counts the tasks of a pool, over all its passes.
///
/// What was taken and what is left is what was pushed, each task as often as it was pushed: over all deques, and on each of
/// them. The counts are modulo 2^64, so that they are exact where fewer than 2^64 tasks were pushed in all.
pub fn settle(alloc: Global, passes: Vec<Pass>) -> Settled
    requires { ArePool (map pass_post passes.items) }
    ensures pushed { result.pushed ≡ in_all (λ v. length v.put) passes.items % 2 ^ 64 }
    ensures taken { result.taken ≡ in_all (λ v. length v.taken) passes.items % 2 ^ 64 }
    ensures left { (left : List TaskId) × (result.left ≡ length left % 2 ^ 64) × Leaves passes.items left }
    ensures each { (t : ℕ) → t < length passes.items → Settles passes.items t }
{
    let mut passes = passes;
    gather(alloc, &mut passes);
    let mut settled = Settled {
        pushed: 0,
        taken: 0,
        left: 0,
    };
    for at in 0..passes.len() {
        let pass = &mut passes[at];
        let (pushed, taken) = (pass.pushed, pass.taken);
        settled.add(pushed, taken, pass.left() as u64);
    }
    settled
}
