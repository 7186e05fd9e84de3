//! The bytes that are held of a source while its lines are cut.
ghost use Rattle.std.specs.Prelude.{◌≡◌, ℕ, ◌+◌, ◌<◌, ◌≤◌, List, [], ◌++◌, length, take, drop, Option, IfOk, OnOk, OnErr, IsErrOf, option_map, None};
ghost use Rattle.lkb_io.specs.Outside.{HasRisen, Takes, IsAtEnd};
ghost use Rattle.lkb_io.specs.Lines.{HasNoEnd, IsEndAt, last_of};

use crate::Source;
use crate::lines::{LIMIT, LineFault};
use std::alloc::{AllocError, Global};
use std::marker::Model;

/// How many bytes are asked for at once.
const PIECE: usize = 16_384;

/// Bytes that came and weren't given away. They stand in a vector from a place on: a line leaves at
/// the front, and what is behind it isn't moved until more bytes are wanted.
#[derive(Drop)]
pub(crate) struct Buffer {
    bytes: Vec<u8>,
    from: usize,
}

impl Model for Buffer {
    ghost Value = { List ℕ };

    ghost view = { λ b. drop b.from b.bytes.items };

    ghost invariant = { λ b. b.from ≤ length b.bytes.items };
}

impl Buffer {
    pub(crate) fn new(alloc: Global) -> Buffer
        ensures { result ≡ [] }
    {
        Buffer {
            bytes: Vec::new(alloc),
            from: 0,
        }
    }

    pub(crate) fn as_slice(&self) -> &[u8]
        ensures { result.now ≡ self.now }
    {
        &self.bytes[self.from..]
    }

    // The first line, with its end at this place, is taken off.
    pub(crate) fn take_line(&mut self, alloc: Global, at: usize) -> Result<Vec<u8>, AllocError>
        requires { at < length self.old }
        ensures line { IfOk result (λ line. line.items ≡ take at self.old) }
        ensures rest { OnOk result (self.new ≡ drop (at + 1) self.old) }
        ensures err { OnErr result (self.new ≡ self.old) }
    {
        let end = self.from + at;
        let line = self.bytes[self.from..end].to_vec(alloc)?;
        self.from = end + 1;
        Ok(line)
    }

    // All that is held, as the last line, where there is any. It takes no memory.
    pub(crate) fn take_last(&mut self, alloc: Global) -> Option<Vec<u8>>
        ensures line { option_map (λ v. v.items) result ≡ last_of self.old }
        ensures rest { self.new ≡ [] }
    {
        self.bytes.drain(..self.from);
        self.from = 0;
        if self.bytes.is_empty() {
            return None;
        }
        Some(std::mem::replace(&mut self.bytes, Vec::new(alloc)))
    }

    // Takes more bytes of the source, and answers how many.
    pub(crate) fn fill<S: Source>(&mut self, source: &mut S) -> Result<usize, LineFault>
        requires { length self.old < 65536 }
        ensures room { length self.new ≤ 65536 }
        ensures came { (came : List ℕ) × Takes (S.left source.old) (S.left source.new) came × (self.new ≡ self.old ++ came) }
        ensures length { IfOk result (λ n. length self.new ≡ length self.old + n) }
        ensures end { IfOk result (λ n. n ≡ 0 → IsAtEnd (S.left source.new)) }
        ensures err { OnErr result (self.new ≡ self.old) }
        ensures not_long { IsErrOf result LineFault.TooLong → ⊥ }
        ensures no_fall { S.faults source.old ≤ S.faults source.new }
        ensures failed { IsErrOf result LineFault.Failed → HasRisen (S.faults source.old) (S.faults source.new) }
    {
        self.bytes.drain(..self.from);
        self.from = 0;
        take_piece(source, &mut self.bytes)
    }
}

// Adds more bytes of the source, and answers how many.
fn take_piece<S: Source>(source: &mut S, bytes: &mut Vec<u8>) -> Result<usize, LineFault>
    requires { length bytes.old.items < 65536 }
    ensures room { length bytes.new.items ≤ 65536 }
    ensures came { (came : List ℕ) × Takes (S.left source.old) (S.left source.new) came × (bytes.new.items ≡ bytes.old.items ++ came) }
    ensures length { IfOk result (λ n. length bytes.new.items ≡ length bytes.old.items + n) }
    ensures end { IfOk result (λ n. n ≡ 0 → IsAtEnd (S.left source.new)) }
    ensures err { OnErr result (bytes.new.items ≡ bytes.old.items) }
    ensures not_long { IsErrOf result LineFault.TooLong → ⊥ }
    ensures no_fall { S.faults source.old ≤ S.faults source.new }
    ensures failed { IsErrOf result LineFault.Failed → HasRisen (S.faults source.old) (S.faults source.new) }
{
    let mut piece = [0; PIECE];
    let most = PIECE.min(LIMIT - bytes.len());
    bytes.reserve(most)?;
    let count = source.read(&mut piece[..most])?;
    bytes.extend_from_slice(&piece[..count]).unwrap();
    Ok(count)
}

// Where the first line ends, if no end stands before this place.
pub(crate) fn line_end(bytes: &[u8], from: usize) -> Option<usize>
    requires in_range { from ≤ length bytes.now }
    requires none_before { HasNoEnd (take from bytes.now) }
    ensures none { result ≡ None → HasNoEnd bytes.now }
    ensures some { (at : ℕ) → result ≡ Some at → IsEndAt bytes.now at }
{
    for i in from..bytes.len() {
        if bytes[i] == b'\n' {
            return Some(i);
        }
    }
    None
}
