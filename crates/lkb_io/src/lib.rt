//! The outside of the program: sources, sinks and shelves, and lines and pieces over them.
#![tactic(auto)]

ghost use Rattle.std.specs.Prelude.{◌≡◌, ℕ, ◌<◌, ◌≤◌, List, [], ◌++◌, length, take, IfOk, IfErr, OnOk, OnErr, IsOk, IsErr, IsErrOf, IfSome, Option, Some, ◌⊎◌};
ghost use Rattle.lkb_io.specs.Outside.{HasRisen, Takes, IsAtEnd, Adds};
ghost use Rattle.lkb_io.specs.Shelves.{IsFile, IsLong, IsShort};

use std::alloc::Global;

mod buffer;
pub mod edge;
pub mod laws;
pub mod lines;
pub mod memory;
pub mod pieces;
pub mod shelves;
pub mod whole;

pub use edge::{FileShelf, StdSink, StdSource};
pub use lines::{Held, LineFault, read_line};
pub use memory::{MemSink, MemSource};
pub use pieces::put_all;
pub use shelves::{MemShelf, ShelfFile, WholeShelf};
pub use whole::{WholeSink, WholeSource};

/// A call of the outside has failed.
#[derive(Clone, Copy, Debug, PartialEq, Eq)]
pub struct Failed;

/// Why a shelf gives no text.
#[derive(Clone, Copy, Debug, PartialEq, Eq)]
pub enum ShelfFault {
    /// The shelf failed, or has no such file.
    Failed,
    /// The file has more than 67,108,864 bytes.
    TooLong,
    /// Memory was wanting.
    NoMemory,
}

/// Why a shelf failed, as far as what lies below it tells.
#[derive(Clone, Copy, Debug, PartialEq, Eq)]
pub enum ShelfCause {
    /// There is no file of the name.
    Missing,
    /// The name is a folder's.
    Folder,
    /// The file can't be read.
    Unreadable,
}

/// Where bytes come from: standard input, or bytes in memory.
pub trait Source {
    /// The bytes that are left, where the source tells them.
    ghost left: { Self → Option (List ℕ) };
    /// How often it has failed. It never falls.
    ghost faults: { Self → ℕ };

    /// Takes bytes off the source into the front of the buffer, and says how many came. None at a
    /// buffer with room means the end of the input.
    fn read(&mut self, into: &mut [u8]) -> Result<usize, Failed>
        ensures within { IfOk result (λ n. n ≤ length into.old) }
        ensures ok { IfOk result (λ n. Takes (left self.old) (left self.new) (take n into.new)) }
        ensures end { IfOk result (λ n. n ≡ 0 → 0 < length into.old → IsAtEnd (left self.old)) }
        ensures err { OnErr result (Takes (left self.old) (left self.new) []) }
        ensures no_fall { faults self.old ≤ faults self.new }
        ensures failed { OnErr result (HasRisen (faults self.old) (faults self.new)) };
}

/// Where bytes go to: standard output or error, or a list of bytes in memory.
pub trait Sink {
    /// The bytes that were written, where the sink tells them.
    ghost written: { Self → Option (List ℕ) };
    /// The bytes that were written when it was last flushed, where it tells them.
    ghost flushed: { Self → Option (List ℕ) };
    /// How often it has failed. It never falls.
    ghost faults: { Self → ℕ };

    /// Adds a front of the piece to what was written, and says how many bytes it has: at least one
    /// of a piece that isn't empty.
    fn write(&mut self, piece: &[u8]) -> Result<usize, Failed>
        ensures within { IfOk result (λ n. n ≤ length piece.now) }
        ensures some { IfOk result (λ n. 0 < length piece.now → 0 < n) }
        ensures ok { IfOk result (λ n. Adds (written self.old) (written self.new) (take n piece.now)) }
        ensures err { OnErr result (Adds (written self.old) (written self.new) []) }
        ensures same_flushed { flushed self.new ≡ flushed self.old }
        ensures no_fall { faults self.old ≤ faults self.new }
        ensures failed { OnErr result (HasRisen (faults self.old) (faults self.new)) };

    /// Brings all that was written to where it goes.
    fn flush(&mut self) -> Result<(), Failed>
        ensures same { Adds (written self.old) (written self.new) [] }
        ensures ok { OnOk result (flushed self.new ≡ written self.new) }
        ensures err { OnErr result (flushed self.new ≡ flushed self.old) }
        ensures no_fall { faults self.old ≤ faults self.new }
        ensures failed { OnErr result (HasRisen (faults self.old) (faults self.new)) };
}

/// Where whole files come from, by their names.
pub trait Shelf {
    /// The file under each name, where the shelf tells its files.
    ghost files: { Self → Option (List ℕ → Option (List ℕ)) };
    /// How often it has failed. It never falls.
    ghost faults: { Self → ℕ };
    /// The name that was asked for in its last call that answered `Failed`.
    ghost asked: { Self → Option (List ℕ) };

    /// The file under this name, of at most 67,108,864 bytes. A missing file is a fault of the
    /// shelf.
    fn text(&mut self, alloc: Global, name: &str) -> Result<Vec<u8>, ShelfFault>
        ensures told { IfOk result (λ text. IfSome (files self.old) (λ f. IsFile (f name.now) text.items)) }
        ensures bound { IfOk result (λ text. length text.items ≤ 67108864) }
        ensures too_long { IsErrOf result ShelfFault.TooLong → IfSome (files self.old) (λ f. IsLong (f name.now)) }
        ensures long { IfSome (files self.old) (λ f. IsLong (f name.now) → (HasRisen (faults self.old) (faults self.new) → ⊥)
            → (result ≡ Err ShelfFault.TooLong) ⊎ (result ≡ Err ShelfFault.NoMemory)) }
        ensures short { IfSome (files self.old) (λ f. IsShort (f name.now) → (HasRisen (faults self.old) (faults self.new) → ⊥)
            → IsOk result ⊎ (result ≡ Err ShelfFault.NoMemory)) }
        ensures same { files self.new ≡ files self.old }
        ensures asked { IsErrOf result ShelfFault.Failed → asked self.new ≡ Some name.now }
        ensures same_asked { (IsErrOf result ShelfFault.Failed → ⊥) → asked self.new ≡ asked self.old }
        ensures no_fall { faults self.old ≤ faults self.new }
        ensures failed { IsErrOf result ShelfFault.Failed → HasRisen (faults self.old) (faults self.new) };

    /// Why its last call that answered `Failed` did so. It is what the device says: no clause binds it to
    /// the files.
    fn cause(&self) -> ShelfCause;
}
