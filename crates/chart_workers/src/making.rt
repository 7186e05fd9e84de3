//! A pool is made.
ghost use Rattle.std.specs.Prelude.{◌≡◌, ◌≢◌, ℕ, ◌+◌, ◌-◌, ◌<◌, ◌≤◌, [], All, length, map, IfOk, OnOk};
ghost use mathlib.Core.Option.{some};
ghost use lib.ListN.{get_elem?};
ghost use Rattle.crossbeam_deque.specs.Handles.{view, stealer_deque, worker_deque, worker_flavor, worker_view};
ghost use Rattle.chart_workers.specs.Balance.{hand};
ghost use Rattle.chart_workers.specs.Making.{seat_own, seat_doors, IsRow, IsNew, Lost, IsCut};
ghost use Rattle.chart_workers.specs.Pools.{others, seat_post, ArePool, IsFresh};

use crate::rule::{Cut, Deque};
use crate::seat::{Door, PoolSeat};
use chart_model::NoMemory;
use crossbeam_deque::Worker;
use std::alloc::Global;

// how many tasks a new deque has room for
const ROOM: usize = 64;

// The deques of a pool, each with all of its parts.
fn deques(alloc: Global, count: u32) -> Result<Vec<Deque>, NoMemory>
    ensures count { IfOk result (λ v. length v.items ≡ count) }
    ensures each { IfOk result (λ v. All (λ d. (worker_flavor d ≡ 0) × (worker_view d ≡ hand 64 [] [])) v.items) }
{
    let mut found = Vec::with_capacity(alloc, count as usize)?;
    for _number in 0..count {
        found.push_reserved(Worker::fifo_as(alloc, ROOM)?);
    }
    Ok(found)
}

// A way to the deque of this number.
fn door(deque: &mut Deque, number: usize) -> Result<Door, NoMemory>
    requires fifo { worker_flavor deque.old ≡ 0 }
    requires parts { 1 < (worker_view deque.old).parts }
    ensures same { (worker_deque deque.new ≡ worker_deque deque.old) × (worker_flavor deque.new ≡ 0) }
    ensures view { OnOk result (worker_view deque.new ≡ hand ((worker_view deque.old).parts - 1) (worker_view deque.old).put (worker_view deque.old).taken) }
    ensures door { IfOk result (λ d. (d.deque ≡ number) × (stealer_deque d.thief ≡ worker_deque deque.old)) }
    ensures new { IfOk result IsNew }
{
    let thief = deque.stealer()?;
    let pass = deque.another::<Cut>();
    Ok(Door {
        deque: number,
        thief,
        pass,
        taken: 0,
    })
}

// The ways from the seat of this number to all other deques, in order.
fn doors(alloc: Global, deques: &mut Vec<Deque>, seat: usize) -> Result<Vec<Door>, NoMemory>
    requires cut { (t : ℕ) → (d : _) → get_elem? deques.old.items t ≡ some d → (worker_flavor d ≡ 0) × (t ≢ seat → 1 < (worker_view d).parts) }
    ensures count { length deques.new.items ≡ length deques.old.items }
    ensures places { map worker_deque deques.new.items ≡ map worker_deque deques.old.items }
    ensures lost { OnOk result ((t : ℕ) → (d : _) → get_elem? deques.new.items t ≡ some d → (e : _) × (get_elem? deques.old.items t ≡ some e) × Lost seat t e d) }
    ensures row { IfOk result (λ v. IsRow (map worker_deque deques.old.items) seat v.items) }
    ensures new { IfOk result (λ v. (i : ℕ) → (d : _) → get_elem? v.items i ≡ some d → IsNew d) }
{
    let mut found = Vec::with_capacity(alloc, deques.len())?;
    for at in 0..deques.len() {
        if at != seat {
            let deque = &mut deques[at];
            found.push_reserved(door(deque, at)?);
        }
    }
    Ok(found)
}

// The ways of all seats, in order of the seats.
fn rows(alloc: Global, deques: &mut Vec<Deque>) -> Result<Vec<Vec<Door>>, NoMemory>
    requires few { length deques.old.items ≤ 64 }
    requires whole { All (λ d. (worker_flavor d ≡ 0) × (worker_view d ≡ hand 64 [] [])) deques.old.items }
    ensures count { length deques.new.items ≡ length deques.old.items }
    ensures places { map worker_deque deques.new.items ≡ map worker_deque deques.old.items }
    ensures cut { OnOk result ((t : ℕ) → (d : _) → get_elem? deques.new.items t ≡ some d → IsCut (length deques.old.items) t d) }
    ensures many { IfOk result (λ v. length v.items ≡ length deques.old.items) }
    ensures long { IfOk result (λ v. (j : ℕ) → (r : _) → get_elem? v.items j ≡ some r → length r.items + 1 ≡ length deques.old.items) }
    ensures rows { IfOk result (λ v. (j : ℕ) → (r : _) → get_elem? v.items j ≡ some r → IsRow (map worker_deque deques.old.items) j r.items) }
    ensures new { IfOk result (λ v. (j : ℕ) → (r : _) → get_elem? v.items j ≡ some r → (i : ℕ) → (d : _) → get_elem? r.items i ≡ some d → IsNew d) }
{
    let mut found = Vec::with_capacity(alloc, deques.len())?;
    for seat in 0..deques.len() {
        found.push_reserved(doors(alloc, deques, seat)?);
    }
    Ok(found)
}

// The seats of these deques and ways.
fn seats(
    alloc: Global,
    mut deques: Vec<Deque>,
    mut rows: Vec<Vec<Door>>,
) -> Result<Vec<PoolSeat>, NoMemory>
    requires count { length rows.items ≡ length deques.items }
    requires few { length deques.items ≤ 64 }
    requires cut { (t : ℕ) → (d : _) → get_elem? deques.items t ≡ some d → IsCut (length deques.items) t d }
    requires rows { (j : ℕ) → (r : _) → get_elem? rows.items j ≡ some r → length r.items + 1 ≡ length deques.items }
    ensures own { IfOk result (λ v. map seat_own v.items ≡ deques.items) }
    ensures doors { IfOk result (λ v. map seat_doors v.items ≡ rows.items) }
    ensures numbers { IfOk result (λ v. (j : ℕ) → (s : _) → get_elem? v.items j ≡ some s → s.number ≡ j) }
{
    let mut found = Vec::with_capacity(alloc, deques.len())?;
    deques.reverse();
    rows.reverse();
    while let Some(own) = deques.pop() {
        let Some(doors) = rows.pop() else {
            unreachable!()
        };
        found.push_reserved(PoolSeat {
            number: found.len(),
            own,
            pushed: 0,
            taken: 0,
            doors,
        });
    }
    Ok(found)
}

/// Tasks of some workers, each with a deque of its own, from which the others steal.
pub struct Pool;

impl Pool {
    /// The seats of a pool without tasks, in order of their numbers from 0 on, for 1 to 64 workers. Each has a door to each other
    /// deque, and together they have all parts of each deque.
    pub fn make(alloc: Global, workers: u32) -> Result<Vec<PoolSeat>, NoMemory>
        requires some { 0 < workers }
        requires few { workers ≤ 64 }
        ensures count { IfOk result (λ v. length v.items ≡ workers) }
        ensures pool { IfOk result (λ v. ArePool (map seat_post v.items)) }
        ensures fresh { IfOk result (λ v. (j : ℕ) → (s : _) → get_elem? v.items j ≡ some s → IsFresh s) }
    {
        let mut deques = deques(alloc, workers)?;
        let rows = rows(alloc, &mut deques)?;
        let seats = seats(alloc, deques, rows)?;
        Ok(seats)
    }
}
