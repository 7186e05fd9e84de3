//! Standard output whose reader may go away, as under `| head -1`, and standard error, which is silent from then on.

use std::cell::Cell;
use std::io::{Error, ErrorKind, Result, Write};

/// A writer that sets a mark once its reader is gone.
#[derive(Drop)]
pub struct Watched<'g, W> {
    writer: W,
    gone: &'g Cell<bool>,
}

impl<'g, W: Write + Drop> Watched<'g, W> {
    pub fn new(writer: W, gone: &'g Cell<bool>) -> Watched<'g, W> {
        Watched { writer, gone }
    }
}

// Sets the mark, if this is the error of a pipe without a reader.
fn note(gone: &Cell<bool>, error: &Error) {
    if error.kind() == ErrorKind::BrokenPipe {
        gone.set(true);
    }
}

impl<W: Write + Drop> Write for Watched<'_, W> {
    fn write(&mut self, piece: &[u8]) -> Result<usize> {
        let done = self.writer.write(piece);
        if let Err(error) = &done {
            note(self.gone, error);
        }
        done
    }

    fn flush(&mut self) -> Result<()> {
        let done = self.writer.flush();
        if let Err(error) = &done {
            note(self.gone, error);
        }
        done
    }
}

/// A writer that takes all and writes nothing once a mark is set.
#[derive(Drop)]
pub struct Hushed<'g, W> {
    writer: W,
    gone: &'g Cell<bool>,
}

impl<'g, W: Write + Drop> Hushed<'g, W> {
    pub fn new(writer: W, gone: &'g Cell<bool>) -> Hushed<'g, W> {
        Hushed { writer, gone }
    }
}

impl<W: Write + Drop> Write for Hushed<'_, W> {
    fn write(&mut self, piece: &[u8]) -> Result<usize> {
        if self.gone.get() {
            return Ok(piece.len());
        }
        self.writer.write(piece)
    }

    fn flush(&mut self) -> Result<()> {
        if self.gone.get() {
            return Ok(());
        }
        self.writer.flush()
    }
}
