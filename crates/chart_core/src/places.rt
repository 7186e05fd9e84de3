//! Numbers of rows, found by a key.

ghost use Rattle.std.specs.Prelude.{◌≡◌, ◌<◌, [], length, IfOk, OnOk, All};

use chart_model::NoMemory;
use std::alloc::Global;

/// Lists of numbers, one for each remainder of a key.
#[derive(Drop)]
pub struct Places {
    lists: Vec<Vec<u64>>,
}

impl Places {
    ghost use Rattle.chart_core.specs.Lists.{lists_of, slot, pushed, IsFull, HasRoomAt, bucket};

    /// So many empty lists.
    pub fn new(alloc: Global, count: usize) -> Result<Places, NoMemory>
        requires { 0 < count }
        ensures full { IfOk result IsFull }
        ensures empty { IfOk result (λ p. All (λ xs. xs ≡ []) (lists_of p)) }
    {
        let mut lists = Vec::with_capacity(alloc, count)?;
        for _slot in 0..count {
            lists.push(Vec::new(alloc))?;
        }
        Ok(Places { lists })
    }

    // The list of a key.
    fn slot(&self, key: u32) -> usize
        requires { IsFull self.now }
        ensures is { result ≡ slot (lists_of self.now) key }
        ensures inside { result < length self.now.lists.items }
    {
        key as usize % self.lists.len()
    }

    /// The numbers under keys with this one's remainder.
    pub fn at(&self, key: u32) -> &[u64]
        requires { IsFull self.now }
        ensures { result.now ≡ bucket (lists_of self.now) key }
    {
        self.lists[self.slot(key)].as_slice()
    }

    /// Makes room for one more number under this key.
    pub fn reserve(&mut self, key: u32) -> Result<(), NoMemory>
        requires { IsFull self.old }
        ensures full { IsFull self.new }
        ensures same { lists_of self.new ≡ lists_of self.old }
        ensures room { OnOk result (HasRoomAt self.new key) }
    {
        let slot = self.slot(key);
        self.lists[slot].reserve(1)?;
        Ok(())
    }

    /// Adds a number under this key.
    pub fn push_reserved(&mut self, key: u32, number: u64)
        requires full { IsFull self.old }
        requires room { HasRoomAt self.old key }
        ensures full { IsFull self.new }
        ensures added { lists_of self.new ≡ pushed (lists_of self.old) key number }
    {
        let slot = self.slot(key);
        self.lists[slot].push_reserved(number);
    }
}
