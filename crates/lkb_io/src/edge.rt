//! The system's streams and files as sources, sinks and shelves. They tell nothing of content.
ghost use Rattle.std.specs.Prelude.{◌≡◌, ◌≤◌, length, IfOk, None, option_map, string_bytes};

use crate::shelves::MOST;
use crate::{Failed, Shelf, ShelfCause, ShelfFault, Sink, Source};
use std::alloc::Global;
use std::io::{ErrorKind, Read, Write};
use std::rt::Files;
use std::{fs, io};

/// Standard input, or another reader of the system, as a source.
#[derive(Drop)]
pub struct StdSource<R> {
    reader: R,
    faults: u64,
}

impl<R: Read + Drop> StdSource<R> {
    /// A source over this reader, as `rt.stdin()`.
    pub fn new(reader: R) -> StdSource<R>
        ensures { ⟦<StdSource<R> as Source>⟧.faults result ≡ 0 }
    {
        StdSource { reader, faults: 0 }
    }
}

impl<R: Read + Drop> Source for StdSource<R> {
    ghost left = { λ _. None };

    ghost faults = { λ s. s.faults };

    fn read(&mut self, into: &mut [u8]) -> Result<usize, Failed> {
        match self.reader.read(into) {
            Ok(count) => Ok(count),
            Err(_) => {
                self.faults = self.faults.saturating_add(1);
                Err(Failed)
            }
        }
    }
}

/// Standard output, standard error, or another writer of the system, as a sink. It tells nothing of
/// content, and a write that takes nothing is a fault. Over a buffering writer it may keep bytes back
/// until `flush`; so a fault may come at a later call than the bytes that it concerns, and after a
/// fault no clause says which of the accepted bytes came out.
#[derive(Drop)]
pub struct StdSink<W> {
    writer: W,
    faults: u64,
}

impl<W: Write + Drop> StdSink<W> {
    /// A sink over this writer, as `rt.stdout()` or `rt.stderr()`.
    pub fn new(writer: W) -> StdSink<W>
        ensures { ⟦<StdSink<W> as Sink>⟧.faults result ≡ 0 }
    {
        StdSink { writer, faults: 0 }
    }
}

impl<W: Write + Drop> Sink for StdSink<W> {
    ghost written = { λ _. None };

    ghost flushed = { λ _. None };

    ghost faults = { λ s. s.faults };

    fn write(&mut self, piece: &[u8]) -> Result<usize, Failed> {
        match self.writer.write(piece) {
            Ok(count) if count > 0 || piece.is_empty() => Ok(count),
            _ => {
                self.faults = self.faults.saturating_add(1);
                Err(Failed)
            }
        }
    }

    fn flush(&mut self) -> Result<(), Failed> {
        match self.writer.flush() {
            Ok(()) => Ok(()),
            Err(_) => {
                self.faults = self.faults.saturating_add(1);
                Err(Failed)
            }
        }
    }
}

/// The files of the system as a shelf. A name is a path, which starts at the working folder unless it
/// starts with a slash. A file that is missing or can't be read is a fault.
#[derive(Drop)]
pub struct FileShelf<F> {
    files: F,
    faults: u64,
    asked: Option<String>,
    cause: ShelfCause,
}

impl<F: Files + Drop> FileShelf<F> {
    /// A shelf over the files of this runtime. It takes no memory.
    pub fn new(files: F) -> FileShelf<F>
        ensures faults { ⟦<FileShelf<F> as Shelf>⟧.faults result ≡ 0 }
        ensures asked { ⟦<FileShelf<F> as Shelf>⟧.asked result ≡ None }
    {
        FileShelf {
            files,
            faults: 0,
            asked: None,
            cause: ShelfCause::Missing,
        }
    }
}

impl<F: Files + Drop> Shelf for FileShelf<F> {
    ghost files = { λ _. None };

    ghost faults = { λ s. s.faults };

    ghost asked = { λ s. option_map string_bytes s.asked };

    fn text(&mut self, alloc: Global, name: &str) -> Result<Vec<u8>, ShelfFault> {
        match read_file(alloc, &self.files, name) {
            Ok(text) => Ok(text),
            Err(FileFault::Failed(cause)) => {
                let asked = String::from_str(alloc, name).map_err(|_| ShelfFault::NoMemory)?;
                self.asked = Some(asked);
                self.cause = cause;
                self.faults = self.faults.saturating_add(1);
                Err(ShelfFault::Failed)
            }
            Err(FileFault::TooLong) => Err(ShelfFault::TooLong),
            Err(FileFault::NoMemory) => Err(ShelfFault::NoMemory),
        }
    }

    fn cause(&self) -> ShelfCause {
        self.cause
    }
}

// Why a file of the system gives no text.
enum FileFault {
    // It can't be opened or read.
    Failed(ShelfCause),
    // It has more bytes than a text may have.
    TooLong,
    // Memory was wanting.
    NoMemory,
}

// The bytes of a file. No more than one byte beyond the greatest text is read.
fn read_file<F: Files>(alloc: Global, files: &F, name: &str) -> Result<Vec<u8>, FileFault>
    ensures { IfOk result (λ text. length text.items ≤ 67108864) }
{
    let file = fs::open(files, name).map_err(|e| fault_of(&e))?;
    let mut text = Vec::new(alloc);
    file.take(MOST as u64 + 1)
        .read_to_end(&mut text)
        .map_err(|e| fault_of(&e))?;
    if text.len() > MOST {
        return Err(FileFault::TooLong);
    }
    Ok(text)
}

// What an error of the system is to a shelf.
fn fault_of(error: &io::Error) -> FileFault {
    match error.kind() {
        ErrorKind::OutOfMemory => FileFault::NoMemory,
        ErrorKind::NotFound => FileFault::Failed(ShelfCause::Missing),
        ErrorKind::IsADirectory => FileFault::Failed(ShelfCause::Folder),
        _ => FileFault::Failed(ShelfCause::Unreadable),
    }
}
