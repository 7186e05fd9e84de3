//! A reader and a writer that give and take at most two bytes at a call; the writer marks each flush by a bar.

use std::io;
use std::io::{Read, Write};

// The bytes that are left, or that were written.
#[derive(Drop)]
pub struct Slow<'a> {
    pub bytes: &'a mut Vec<u8>,
}

impl Read for Slow<'_> {
    fn read(&mut self, into: &mut [u8]) -> io::Result<usize> {
        let count = self.bytes.len().min(into.len()).min(2);
        into[..count].copy_from_slice(&self.bytes[..count]);
        self.bytes.drain(..count);
        Ok(count)
    }
}

impl Write for Slow<'_> {
    fn write(&mut self, piece: &[u8]) -> io::Result<usize> {
        let count = piece.len().min(2);
        self.bytes.extend_from_slice(&piece[..count])?;
        Ok(count)
    }

    fn flush(&mut self) -> io::Result<()> {
        self.bytes.push(b'|')?;
        Ok(())
    }
}
