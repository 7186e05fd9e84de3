//! Room for closings.

ghost use Rattle.std.specs.Prelude.{◌≡◌, ℕ, ◌≤◌, [], length, OnOk, OnErr};
ghost use Rattle.std.specs.Borrow.{sem};
ghost use Rattle.fs_closing.specs.NodeTable.{IsWhole, IsWithin, AreFlat};
ghost use Rattle.fs_unify.specs.Room.{room_of, LendsMarks};

use fs_closing::NoMemory;
use fs_closing::cells::Cells;
use fs_closing::marks::Marks;
use fs_closing::nodes::Nodes;
use fs_closing::parts::Beside;
use fs_closing::tasks::Tasks;
use fs_drawing::bounds::Heights;
use fs_drawing::draw::Picture;
use std::alloc::Global;
use std::mem;

/// What a call needs beside its nodes and tasks: the numbers of its graphs' roots, what is noted where paths are bounded, and
/// the picture that is drawn.
#[derive(Debug, Drop)]
pub struct Desk {
    pub offsets: Vec<u32>,
    pub heights: Heights,
    pub picture: Picture,
}

impl Desk {
    /// An empty one, without memory.
    pub fn new(alloc: Global) -> Desk {
        Desk {
            offsets: Vec::new(alloc),
            heights: Heights::new(alloc),
            picture: Picture::new(alloc),
        }
    }
}

/// Room in which nodes are closed and drawn. A call empties it and keeps its memory; no answer depends on what it holds. It
/// has spare room for a number of nodes, a mark for each.
#[derive(Debug, Drop)]
pub struct Scratch {
    pub(crate) written: Marks,
    pub(crate) cells: Cells,
    pub(crate) homes: Vec<u32>,
    pub(crate) tasks: Tasks,
    pub(crate) desk: Desk,
    pub(crate) marks: Vec<u32>,
}

impl Scratch {
    /// No spare room, and no memory. The scratch grows as it is needed.
    pub fn new(alloc: Global) -> Scratch
        ensures { room_of result ≡ 0 }
    {
        Scratch::aged(alloc, 1)
    }

    /// The same, at a generation, which each call on graphs or facts counts up: at the first one for 0. The answers are those of
    /// every other scratch. After the greatest generation the first one comes again, which a new scratch would meet after
    /// some four billion calls.
    pub fn aged(alloc: Global, generation: u32) -> Scratch
        ensures { room_of result ≡ 0 }
    {
        Scratch {
            written: Marks::aged(alloc, generation),
            cells: Cells::new(alloc),
            homes: Vec::new(alloc),
            tasks: Tasks::new(alloc),
            desk: Desk::new(alloc),
            marks: Vec::new(alloc),
        }
    }

    /// Makes spare room for so many nodes at least. `NoMemory` comes only for want of memory; the room is as before then.
    pub fn reserve(&mut self, nodes: u32) -> Result<(), NoMemory>
        ensures room { OnOk result (nodes ≤ room_of self.new) }
        ensures kept { room_of self.old ≤ room_of self.new }
        ensures err { OnErr result (room_of self.new ≡ room_of self.old) }
    {
        if self.marks.len() < nodes as usize {
            self.marks.resize(nodes as usize, 0)?;
        }
        Ok(())
    }

    /// Lends the marks, one for each node that there is spare room for. What they hold is what earlier calls left in them.
    pub fn marks(&mut self) -> &mut [u32]
        ensures* lends { sem 𝓛 (LendsMarks self.entry result) }
        ensures size { length result.now ≡ room_of self.old }
    {
        &mut self.marks
    }

    // The nodes of a call, in the memory of those before: none yet, and no graph has entered.
    pub(crate) fn begin<'a>(&mut self, alloc: Global) -> Nodes<'a>
        ensures parts { result.parts ≡ [] }
        ensures none { result.size ≡ 0 }
        ensures whole { IsWhole result }
        ensures flat { AreFlat result }
        ensures within { (types feats : ℕ) → IsWithin types feats result }
        ensures room { room_of self.new ≡ room_of self.old }
    {
        let mut nodes = Nodes {
            marks: mem::replace(&mut self.written, Marks::aged(alloc, 1)),
            cells: mem::replace(&mut self.cells, Cells::new(alloc)),
            parts: Beside::new(alloc, mem::replace(&mut self.homes, Vec::new(alloc))),
            merges: 0,
            size: 0,
        };
        nodes.clear();
        nodes
    }

    // Keeps the memory of a call's nodes for the next one.
    pub(crate) fn keep(&mut self, nodes: Nodes<'_>)
        ensures { room_of self.new ≡ room_of self.old }
    {
        self.written = nodes.marks;
        self.cells = nodes.cells;
        self.homes = nodes.parts.homes();
    }
}
