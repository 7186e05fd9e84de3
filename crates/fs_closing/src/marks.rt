//! What is written at nodes, all of which is dropped at once.

ghost use Rattle.std.specs.Prelude.{◌≡◌, ℕ, ◌<◌, ◌≤◌, [], length, None, OnOk, slice_index_or, slice_set};
ghost use Rattle.fs_closing.specs.Marked.{written_at, Writes};
ghost use Rattle.fs_closing.specs.Inner.Generations.{mark_at, all_in};

use crate::NoMemory;
use std::alloc::Global;
use std::marker::Model;

/// What is written at a node: the node that it was merged into, and itself for one that wasn't merged; its type; the place of the
/// first arc that was added to it; and a number of features that some path to it has at least.
#[derive(Clone, Copy, Debug)]
pub struct Written {
    pub forward: u32,
    pub ty: u32,
    pub first: u32,
    pub depth: u32,
}

/// What was written at a node, which counts in the generation alone in which it was.
#[derive(Clone, Copy, Debug)]
pub struct Mark {
    pub generation: u32,
    pub written: Written,
}

/// A mark that no generation wrote.
const UNWRITTEN: Mark = Mark {
    generation: 0,
    written: Written {
        forward: 0,
        ty: 0,
        first: 0,
        depth: 0,
    },
};

/// A place for each node, where something is written or nothing is. To drop all that is written, the next generation begins.
#[derive(Debug, Drop)]
pub struct Marks {
    marks: Vec<Mark>,
    generation: u32,
}

impl Model for Marks {
    ghost use Rattle.std.specs.Prelude.{List, Option};
    ghost use Rattle.fs_closing.specs.declared.marks.Written.{Written as Entry};
    ghost use Rattle.fs_closing.specs.Inner.Generations.{all_in, AreFromPast};

    ghost Value = { List (Option Entry) };

    ghost view = { λ m. all_in m.generation m.marks.items };

    ghost invariant = { λ m. AreFromPast m.generation m.marks.items };
}

// What a generation wrote at a node.
fn read(marks: &[Mark], generation: u32, n: u32) -> Option<Written>
    requires { n < length marks.now }
    ensures { result ≡ written_at (all_in generation marks.now) n }
{
    let mark = marks[n as usize];
    if mark.generation == generation {
        Some(mark.written)
    } else {
        None
    }
}

// The next generation, in which nothing is written. After the greatest one all marks are cleared, and the first one comes again.
fn next_generation(marks: &mut [Mark], generation: u32) -> u32
    requires { (n : ℕ) → (mark_at marks.old n).generation ≤ generation }
    ensures before { (n : ℕ) → (mark_at marks.new n).generation < result }
    ensures size { length marks.new ≡ length marks.old }
{
    if generation == u32::MAX {
        marks.fill(UNWRITTEN);
        return 1;
    }
    generation + 1
}

// A generation that isn't the one in which nothing is ever written.
fn begun(generation: u32) -> u32
    ensures { 0 < result }
{
    if generation == 0 {
        return 1;
    }
    generation
}

impl Marks {
    /// No places, and no memory, at a generation: at the first one for 0.
    pub fn aged(alloc: Global, generation: u32) -> Marks
        ensures { result ≡ [] }
    {
        Marks {
            marks: Vec::new(alloc),
            generation: begun(generation),
        }
    }

    /// How many places there are.
    pub fn len(&self) -> usize
        ensures { result ≡ length self.now }
    {
        self.marks.len()
    }

    /// What is written at a node.
    pub fn get(&self, n: u32) -> Option<Written>
        requires { n < length self.now }
        ensures { result ≡ written_at self.now n }
    {
        read(&self.marks, self.generation, n)
    }

    /// Writes at a node, whatever is written there.
    pub fn write(&mut self, n: u32, written: Written)
        requires { n < length self.old }
        ensures { Writes n written self.old self.new }
    {
        self.marks[n as usize] = Mark {
            generation: self.generation,
            written,
        };
    }

    /// Drops all that is written, and keeps the places.
    pub fn clear(&mut self)
        ensures none { (n : ℕ) → written_at self.new n ≡ None }
        ensures size { length self.new ≡ length self.old }
    {
        self.generation = next_generation(&mut self.marks, self.generation);
    }

    /// Makes so many places at least. `NoMemory` comes only for want of memory; the places are as before then.
    pub fn widen(&mut self, count: usize) -> Result<(), NoMemory>
        ensures room { OnOk result (count ≤ length self.new) }
        ensures kept { (n : ℕ) → written_at self.new n ≡ written_at self.old n }
        ensures more { length self.old ≤ length self.new }
    {
        if self.marks.len() < count {
            self.marks.resize(count, UNWRITTEN)?;
        }
        Ok(())
    }
}
