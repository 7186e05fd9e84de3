//! The variables that were written, with their numbers.

ghost use Rattle.std.specs.Prelude.{◌≡◌, ◌<◌, ◌∷◌, ◌++◌, ℕ, [], None, length, slice_index, IfOk, OnOk};
ghost use Rattle.mrs_text.specs.Written.{place_of, or_zero};
ghost use Rattle.mrs_text.specs.Inner.Writing.{Known};

use mrs_model::NoMemory;
use std::alloc::Global;
use std::marker::Model;

/// The variables that were written, in order of first occurrence. The number of a variable is its place in that order, and stands at its
/// slot; a slot is right where the variable stands at that place.
#[derive(Debug, Drop)]
pub(crate) struct Seen {
    order: Vec<u32>,
    slots: Vec<usize>,
}

impl Model for Seen {
    ghost use Rattle.mrs_text.specs.Inner.Writing.{Known, AreSlots};
    ghost use Rattle.std.specs.Prelude.{length};

    ghost Value = { Known };

    ghost view = { λ s. record { order = s.order.items; size = length s.slots.items } };

    ghost invariant = { λ s. AreSlots s.order.items s.slots.items };
}

impl Seen {
    /// None of so many variables.
    pub(crate) fn new(alloc: Global, size: usize) -> Result<Seen, NoMemory>
        ensures { IfOk result (λ s. s ≡ record { order = []; size = size }) }
    {
        Ok(Seen {
            order: Vec::with_capacity(alloc, size)?,
            slots: vec![in alloc; 0; size]?,
        })
    }

    /// How many there are.
    pub(crate) fn len(&self) -> usize
        ensures { result ≡ length self.now.order }
    {
        self.order.len()
    }

    /// The number of a variable that was written.
    pub(crate) fn number(&self, v: u32) -> Option<usize>
        requires { v < self.now.size }
        ensures { result ≡ place_of v self.now.order }
    {
        let at = self.slots[v as usize];
        let count = self.order.len();
        if at >= count {
            return None;
        }
        let known = self.order[at];
        if known == v { Some(at) } else { None }
    }

    /// One more variable, which wasn't written before.
    pub(crate) fn push(&mut self, v: u32) -> Result<(), NoMemory>
        requires within { v < self.old.size }
        requires new { place_of v self.old.order ≡ None }
        ensures ok { OnOk result (self.new ≡ record { order = self.old.order ++ v ∷ []; size = self.old.size }) }
        ensures size { self.new.size ≡ self.old.size }
    {
        let at = self.order.len();
        self.order.push(v)?;
        self.slots[v as usize] = at;
        Ok(())
    }

    /// How many variables there can be.
    fn size(&self) -> usize
        ensures { result ≡ self.now.size }
    {
        self.slots.len()
    }

    /// The number of each variable, and 0 for one that wasn't written.
    pub(crate) fn numbers(&self, alloc: Global) -> Result<Vec<u32>, NoMemory>
        ensures size { IfOk result (λ ns. length ns.items ≡ self.now.size) }
        ensures each { IfOk result (λ ns. (v : ℕ) → v < length ns.items → slice_index ns.items v ≡ or_zero (place_of v self.now.order)) }
    {
        let size = self.size();
        let mut out = Vec::with_capacity(alloc, size)?;
        for v in 0..size {
            out.push(self.number_at(v)?)?;
        }
        Ok(out)
    }

    // (a number past u32 has no room in the table)
    fn number_at(&self, v: usize) -> Result<u32, NoMemory>
        requires { v < self.now.size }
        ensures { IfOk result (λ n. n ≡ or_zero (place_of v self.now.order)) }
    {
        let variable = u32::try_from(v).map_err(|_| NoMemory)?;
        match self.number(variable) {
            Some(number) => u32::try_from(number).map_err(|_| NoMemory),
            None => Ok(0),
        }
    }
}
