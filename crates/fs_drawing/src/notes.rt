//! Numbers that are noted at nodes, all of which are dropped at once.

ghost use Rattle.std.specs.Prelude.{◌≡◌, ℕ, ◌<◌, ◌≤◌, ◌⊎◌, [], length, OnOk, slice_index};
ghost use Rattle.fs_drawing.specs.Noting.{Noted};
ghost use Rattle.fs_drawing.specs.Inner.Floors.{all_over};

use crate::NoMemory;
use std::alloc::Global;
use std::marker::Model;

/// Above this the floor begins again at 0, so that there is room for any number.
const HIGH: u32 = 1 << 31;

/// A place for each node, where a number is noted, and 0 where none is. To drop all numbers, the floor rises to the greatest
/// one that was written: a number counts by how far it is above the floor.
#[derive(Debug, Drop)]
pub struct Notes {
    written: Vec<u32>,
    floor: u32,
    top: u32,
}

impl Model for Notes {
    ghost use Rattle.std.specs.Prelude.{ℕ, List};
    ghost use Rattle.fs_drawing.specs.Inner.Floors.{all_over, AreBelow};

    ghost Value = { List ℕ };

    ghost view = { λ n. all_over n.floor n.written.items };

    ghost invariant = { λ n. AreBelow n.floor n.top n.written.items };
}

// How far what is written at a node is above the floor.
fn read(written: &[u32], floor: u32, n: u32) -> u32
    requires { n < length written.now }
    ensures { result ≡ slice_index (all_over floor written.now) n }
{
    written[n as usize].saturating_sub(floor)
}

// The next floor, above which nothing is written. From the middle on it begins again at 0, and all that is written is cleared.
fn next_floor(written: &mut [u32], top: u32) -> u32
    requires { (n : ℕ) → slice_index written.old n ≤ top }
    ensures below { (n : ℕ) → slice_index written.new n ≤ result }
    ensures size { length written.new ≡ length written.old }
{
    if top > HIGH {
        written.fill(0);
        return 0;
    }
    top
}

/// The greater of two numbers.
pub fn greater(a: u32, b: u32) -> u32
    ensures first { a ≤ result }
    ensures second { b ≤ result }
    ensures one { (result ≡ a) ⊎ (result ≡ b) }
{
    if a < b {
        return b;
    }
    a
}

impl Notes {
    /// No places, and no memory.
    pub fn new(alloc: Global) -> Notes
        ensures { result ≡ [] }
    {
        Notes {
            written: Vec::new(alloc),
            floor: 0,
            top: 0,
        }
    }

    /// What is noted at a node.
    pub fn get(&self, n: u32) -> u32
        requires { n < length self.now }
        ensures { result ≡ slice_index self.now n }
    {
        read(&self.written, self.floor, n)
    }

    /// Notes a number at a node, whatever is noted there. `NoMemory` comes only for want of numbers.
    pub fn note(&mut self, n: u32, number: u32) -> Result<(), NoMemory>
        requires { n < length self.old }
        ensures { OnOk result (Noted n number self.old self.new) }
    {
        if number > u32::MAX - self.floor {
            return Err(NoMemory);
        }
        let written = self.floor + number;
        self.written[n as usize] = written;
        self.top = greater(self.top, written);
        Ok(())
    }

    /// Drops all numbers, and keeps the places.
    pub fn clear(&mut self)
        ensures none { (n : ℕ) → slice_index self.new n ≡ 0 }
        ensures size { length self.new ≡ length self.old }
    {
        self.floor = next_floor(&mut self.written, self.top);
        self.top = self.floor;
    }

    /// Makes so many places at least. `NoMemory` comes only for want of memory; the places are as before then.
    pub fn widen(&mut self, count: usize) -> Result<(), NoMemory>
        ensures room { OnOk result (count ≤ length self.new) }
        ensures kept { (n : ℕ) → slice_index self.new n ≡ slice_index self.old n }
    {
        if self.written.len() < count {
            self.written.resize(count, 0)?;
        }
        Ok(())
    }
}
