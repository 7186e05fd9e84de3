//! Covers in generation.

ghost use Rattle.std.specs.Prelude.{◌≡◌, ℕ, List, length, IfOk, true, refl};
ghost use Rattle.chart_model.specs.Lists.{add_all, all_within};

use crate::NoMemory;
use crate::covers::Cover;
use std::alloc::Global;
use std::cmp::Ordering;
use std::marker::Model;

/// A list of numbers.
#[derive(Drop)]
pub struct Numbers {
    items: Vec<u32>,
}

impl Model for Numbers {
    ghost Value = { List ℕ };

    ghost view = { λ a. a.items.items };
}

impl Numbers {
    /// The list of these numbers. Takes no memory.
    pub fn new(items: Vec<u32>) -> Numbers
        ensures { result ≡ items.items }
    {
        Numbers { items }
    }

    /// The numbers, as they stand.
    pub fn as_slice(&self) -> &[u32]
        ensures { result.now ≡ self.now }
    {
        self.items.as_slice()
    }
}

impl PartialEq for Numbers {
    ghost use Rattle.std.specs.Prelude.{nat_eq};
    ghost use Rattle.std.proofs.Common.{rules};
    ghost use Rattle.std.specs.Cmp.Rules.{comparing};
    ghost use Rattle.std.specs.Cmp.Lexicographic.{pointwise};

    ghost eq = { pointwise nat_eq };

    ghost laws = { Prim.search (comparing, rules) };

    fn eq(&self, other: &Numbers) -> bool {
        self.items.as_slice() == other.items.as_slice()
    }
}

impl Eq for Numbers {
    ghost use Rattle.std.proofs.Common.{rules};
    ghost use Rattle.std.specs.Cmp.Rules.{comparing};

    ghost laws = { Prim.search (comparing, rules) };
}

impl PartialOrd for Numbers {
    ghost use Rattle.std.proofs.Common.{rules};
    ghost use Rattle.std.specs.Cmp.Rules.{comparing};
    ghost use Rattle.std.specs.Cmp.Lexicographic.{slice_cmp, texts_po};
    ghost use Rattle.std.specs.Ordering.{nat_cmp, as_partial_cmp};

    ghost partial_cmp = { as_partial_cmp (slice_cmp nat_cmp) };

    ghost laws = { texts_po };

    fn partial_cmp(&self, other: &Numbers) -> Option<Ordering> {
        Some(self.cmp(other))
    }
}

impl Ord for Numbers {
    ghost use Rattle.std.proofs.Common.{rules};
    ghost use Rattle.std.specs.Cmp.Rules.{comparing};
    ghost use Rattle.std.specs.Cmp.Lexicographic.{slice_cmp};
    ghost use Rattle.std.specs.Ordering.{nat_cmp};

    ghost cmp = { slice_cmp nat_cmp };

    ghost total = { Prim.search (comparing, rules) };

    ghost matches_partial_cmp = { Prim.search (comparing, rules) };

    ghost matches_eq = { Prim.search (comparing, rules) };

    fn cmp(&self, other: &Numbers) -> Ordering {
        self.items.as_slice().cmp(other.items.as_slice())
    }
}

/// A count for each predicate of the meaning that sentences are generated from, and a count of empty words.
#[derive(Drop, PartialEq, Eq, PartialOrd, Ord)]
pub struct Counts {
    pub of: Numbers,
    pub empty: u32,
}

// Whether no sum passes its bound.
fn fit(left: &[u32], right: &[u32], bound: &[u32]) -> bool
    requires left { length left.now ≡ length bound.now }
    requires right { length right.now ≡ length bound.now }
    ensures { result ≡ all_within (add_all left.now right.now) bound.now }
{
    for (place, most) in bound.iter().enumerate() {
        let count = u64::from(left[place]) + u64::from(right[place]);
        if count > u64::from(*most) {
            return false;
        }
    }
    true
}

// The sums, none of which passes its bound.
fn sums(alloc: Global, left: &[u32], right: &[u32], _bound: &[u32]) -> Result<Vec<u32>, NoMemory>
    requires left { length left.now ≡ length _bound.now }
    requires right { length right.now ≡ length _bound.now }
    requires fit { all_within (add_all left.now right.now) _bound.now ≡ true }
    ensures { IfOk result (λ v. v.items ≡ add_all left.now right.now) }
{
    let mut sums = Vec::with_capacity(alloc, left.len())?;
    for (place, count) in left.iter().enumerate() {
        sums.push(*count + right[place])?;
    }
    Ok(sums)
}

/// Two counts join exactly where they have as many places as the bound and no sum passes it.
impl Cover for Counts {
    ghost use Rattle.std.specs.Prelude.{ℕ};
    ghost use Rattle.chart_model.specs.Sums.{counts_join, counts_size, counts_cell, counts_told};

    type Bound = Counts;

    ghost extent = { counts_size };

    ghost joined = { counts_join };

    ghost cell_of = { counts_cell };

    ghost begins = { λ _. 0 };

    ghost ends = { λ _. 0 };

    fn join(
        &self,
        alloc: Global,
        right: &Counts,
        bound: &Counts,
    ) -> Result<Option<Counts>, NoMemory> {
        if !self.joins(right, bound) {
            return Ok(None);
        }
        let of = sums(
            alloc,
            self.of.as_slice(),
            right.of.as_slice(),
            bound.of.as_slice(),
        )?;
        Ok(Some(Counts {
            of: Numbers::new(of),
            empty: self.empty + right.empty,
        }))
    }

    fn joins(&self, right: &Counts, bound: &Counts) -> bool {
        let places = bound.of.as_slice();
        self.of.as_slice().len() == places.len()
            && right.of.as_slice().len() == places.len()
            && u64::from(self.empty) + u64::from(right.empty) <= u64::from(bound.empty)
            && fit(self.of.as_slice(), right.of.as_slice(), places)
    }

    fn share(&self, alloc: Global) -> Result<Counts, NoMemory> {
        let items = Vec::from_slice(alloc, self.of.as_slice())?;
        Ok(Counts {
            of: Numbers::new(items),
            empty: self.empty,
        })
    }

    fn size(&self) -> u32 {
        self.of.as_slice().iter().sum::<u32>() + self.empty
    }

    fn cell(&self) -> u32 {
        self.of.as_slice().iter().fold(
            self.empty,
            |sum, count| sum.wrapping_mul(31).wrapping_add(*count),
        )
    }

    fn begin(&self) -> u32 {
        0
    }

    fn end(&self) -> u32 {
        0
    }

    ghost told_apart = { counts_told };

    ghost meets = { λ b c d e. refl };
}
