//! Numbers of rows, found by a key.

ghost use Rattle.std.specs.Prelude.{◌≡◌, ◌<◌, [], length, IfOk, OnOk, All};
ghost use Rattle.chart_core.specs.Lists.{slot, bucket, pushed};
ghost use Rattle.packed_forests.specs.Inner.Found.{lists_in, IsFull};

use chart_model::NoMemory;
use std::alloc::Global;

/// Lists of numbers, one for each remainder of a key.
#[derive(Drop)]
pub struct Index {
    lists: Vec<Vec<u64>>,
}

impl Index {
    ghost use Rattle.std.specs.Prelude.{◌≡◌, ◌<◌, [], length, IfOk, OnOk, All};
    ghost use Rattle.chart_core.specs.Lists.{slot, bucket, pushed};
    ghost use Rattle.packed_forests.specs.Inner.Found.{lists_in, IsFull};

    /// So many empty lists.
    pub fn new(alloc: Global, count: usize) -> Result<Index, NoMemory>
        requires { 0 < count }
        ensures full { IfOk result IsFull }
        ensures empty { IfOk result (λ x. All (λ ns. ns ≡ []) (lists_in x)) }
    {
        let mut lists = Vec::with_capacity(alloc, count)?;
        for _slot in 0..count {
            lists.push(Vec::new(alloc))?;
        }
        Ok(Index { lists })
    }

    // The list of a key.
    fn slot(&self, key: u32) -> usize
        requires { IsFull self.now }
        ensures is { result ≡ slot (lists_in self.now) key }
        ensures inside { result < length self.now.lists.items }
    {
        key as usize % self.lists.len()
    }

    /// The numbers under keys with this one's remainder.
    pub fn at(&self, key: u32) -> &[u64]
        requires { IsFull self.now }
        ensures { result.now ≡ bucket (lists_in self.now) key }
    {
        self.lists[self.slot(key)].as_slice()
    }

    /// Adds a number under this key.
    pub fn push(&mut self, key: u32, number: u64) -> Result<(), NoMemory>
        requires { IsFull self.old }
        ensures full { IsFull self.new }
        ensures added { OnOk result (lists_in self.new ≡ pushed (lists_in self.old) key number) }
    {
        let slot = self.slot(key);
        self.lists[slot].push(number)?;
        Ok(())
    }
}
