//! The nonempty intersections that were found so far.

ghost use Rattle.std.specs.Prelude.{◌≡◌, ℕ, ◌<◌, ◌≤◌, ◌||◌, length, IfOk, IfErr, OnOk, All, slice_index_or, []};
ghost use Rattle.type_hierarchy.specs.Bits.{has_bit, IsRow};
ghost use Rattle.type_hierarchy.specs.Inner.Tables.{row_items};
ghost use Rattle.type_hierarchy.specs.Laws.{IsHierarchy};
ghost use Rattle.type_hierarchy.specs.Inner.Reach.{lists};
ghost use Rattle.type_hierarchy.specs.Inner.Rows.{AreEmpty};
ghost use Rattle.glb_completion.specs.Completion.{IsCompleteFault};
ghost use Rattle.glb_completion.specs.Inner.Growing.{IsGrowing, Adds, IsFull};

use crate::complete_fault::CompleteFault;
use crate::row_hash::RowHasher;
use indexmap::IndexSet;
use std::alloc::{AllocError, Global};
use std::hash::BuildHasherDefault;
use type_hierarchy::Hierarchy;

/// At most so many completed types.
pub const MOST_COMPLETED: usize = 65_535;

/// Sets of types as rows of bits, and for each the types that were seen to be above all its members.
#[derive(Drop)]
pub struct Family {
    pub sets: IndexSet<Vec<u64>, BuildHasherDefault<RowHasher>>,
    pub above: Vec<Vec<u64>>,
}

impl Family {
    /// The sets of the written types.
    pub fn written(alloc: Global, h: &Hierarchy) -> Result<Family, AllocError>
        ensures growing { IfOk result (λ f. IsGrowing h.now f.sets.keys f.above.items) }
        ensures laws { OnOk result (IsHierarchy h.now) }
    {
        let above = h.rows_above(alloc)?;
        let mut sets = IndexSet::with_hasher(alloc, BuildHasherDefault::new());
        for t in 0..h.count() {
            let row = Vec::from_slice(alloc, h.row(t))?;
            sets.insert(row)?;
        }
        Ok(Family { sets, above })
    }

    /// Adds a set where it is new.
    pub fn add(&mut self, row: Vec<u64>, above: Vec<u64>) -> Result<(), CompleteFault>
        ensures added { OnOk result (Adds self.old.sets.keys self.old.above.items self.new.sets.keys self.new.above.items row.items above.items) }
        ensures full { IfErr result (IsFull self.old.sets.keys row.items) }
    {
        let is_new = self.sets.insert(row)?;
        if !is_new {
            return Ok(());
        }
        if self.sets.len() > MOST_COMPLETED {
            return Err(CompleteFault::TooManyTypes);
        }
        self.above.push(above)?;
        Ok(())
    }
}
