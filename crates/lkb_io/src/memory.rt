//! A source and a sink in memory, with calls that are to fail.
ghost use Rattle.std.specs.Prelude.{◌≡◌, ◌≢◌, ℕ, ◌<◌, ◌≤◌, ◌↔◌, List, [], ◌++◌, length, take, drop, min, Some, None, IfOk, IsErr, OnOk, OnErr, IsTrue, MatchResult};
ghost use Rattle.std.specs.Option.{ForSome};
ghost use Rattle.lkb_io.specs.Outside.{HasRisen, Takes, IsAtEnd, Adds};
ghost use Rattle.lkb_io.specs.Devices.{Supply, Deposit, one_more, up_to as at_most, is_to_fail};

use crate::{Failed, Sink, Source};
use std::alloc::Global;
use std::marker::Model;

/// A source over bytes in memory. The calls on it are numbered from 1, and those whose numbers it
/// was given fail.
#[derive(Drop)]
pub struct MemSource {
    bytes: Vec<u8>,
    at: usize,
    fails: Vec<u64>,
    calls: u64,
    faults: u64,
    greatest: Option<u32>,
}

impl Model for MemSource {
    ghost Value = { Supply };

    ghost view = { λ s. record {
      left = drop s.at s.bytes.items;
      fails = s.fails.items;
      calls = s.calls;
      faults = s.faults;
      greatest = s.greatest;
    } };

    ghost invariant = { λ s. (s.at ≤ length s.bytes.items) × ForSome s.greatest (λ greatest. 0 < greatest) };
}

impl MemSource {
    /// A source of these bytes whose calls of these numbers fail. There is no bound on a piece. It
    /// takes no memory.
    pub fn new(bytes: Vec<u8>, fails: Vec<u64>) -> MemSource
        ensures { result ≡ record { left = bytes.items; fails = fails.items; calls = 0; faults = 0; greatest = None } }
    {
        MemSource {
            bytes,
            at: 0,
            fails,
            calls: 0,
            faults: 0,
            greatest: None,
        }
    }

    /// The same source, which gives no more than so many bytes in one call. It takes no memory.
    pub fn in_pieces(mut self, greatest: u32) -> MemSource
        requires { 0 < greatest }
        ensures { result ≡ record self { greatest = Some greatest } }
    {
        self.greatest = Some(greatest);
        self
    }
}

impl Source for MemSource {
    ghost left = { λ s. Some s.left };

    ghost faults = { λ s. s.faults };

    fn read(&mut self, into: &mut [u8]) -> Result<usize, Failed>
        ensures within { IfOk result (λ n. n ≤ length into.old) }
        ensures ok { IfOk result (λ n. Takes (Some self.old.left) (Some self.new.left) (take n into.new)) }
        ensures end { IfOk result (λ n. n ≡ 0 → 0 < length into.old → IsAtEnd (Some self.old.left)) }
        ensures err { OnErr result (Takes (Some self.old.left) (Some self.new.left) []) }
        ensures no_fall { self.old.faults ≤ self.new.faults }
        ensures failed { OnErr result (HasRisen self.old.faults self.new.faults) }
        ensures fails { IsErr result ↔ IsTrue (is_to_fail self.old.fails (one_more self.old.calls)) }
        ensures gives { IfOk result (λ n. n ≡ at_most self.old.greatest (min (length into.old) (length self.old.left))) }
        ensures after { MatchResult result
            (λ n. self.new ≡ record self.old { left = drop n self.old.left; calls = one_more self.old.calls })
            (λ _. self.new ≡ record self.old { calls = one_more self.old.calls; faults = one_more self.old.faults }) }
    {
        self.calls = self.calls.saturating_add(1);
        if self.fails.contains(&self.calls) {
            self.faults = self.faults.saturating_add(1);
            return Err(Failed);
        }
        let left = &self.bytes[self.at..];
        let count = up_to(self.greatest, into.len().min(left.len()));
        into[..count].copy_from_slice(&left[..count]);
        self.at += count;
        Ok(count)
    }
}

/// A sink that keeps what is written. The writes and the flushes are numbered apart, each from 1, and
/// those whose numbers it was given fail. Where it can't grow, the write fails too.
#[derive(Drop)]
pub struct MemSink {
    bytes: Vec<u8>,
    flushed: usize,
    write_fails: Vec<u64>,
    flush_fails: Vec<u64>,
    writes: u64,
    flushes: u64,
    faults: u64,
    greatest: Option<u32>,
}

impl Model for MemSink {
    ghost Value = { Deposit };

    ghost view = { λ s. record {
      written = s.bytes.items;
      flushed = take s.flushed s.bytes.items;
      write_fails = s.write_fails.items;
      flush_fails = s.flush_fails.items;
      writes = s.writes;
      flushes = s.flushes;
      faults = s.faults;
      greatest = s.greatest;
    } };

    ghost invariant = { λ s. (s.flushed ≤ length s.bytes.items) × ForSome s.greatest (λ greatest. 0 < greatest) };
}

impl MemSink {
    /// A sink whose writes and flushes of these numbers fail. There is no bound on a piece. It takes
    /// no memory.
    pub fn new(alloc: Global, write_fails: Vec<u64>, flush_fails: Vec<u64>) -> MemSink
        ensures { result ≡ record {
          written = [];
          flushed = [];
          write_fails = write_fails.items;
          flush_fails = flush_fails.items;
          writes = 0;
          flushes = 0;
          faults = 0;
          greatest = None;
        } }
    {
        MemSink {
            bytes: Vec::new(alloc),
            flushed: 0,
            write_fails,
            flush_fails,
            writes: 0,
            flushes: 0,
            faults: 0,
            greatest: None,
        }
    }

    /// The same sink, which takes no more than so many bytes in one call. It takes no memory.
    pub fn in_pieces(mut self, greatest: u32) -> MemSink
        requires { 0 < greatest }
        ensures { result ≡ record self { greatest = Some greatest } }
    {
        self.greatest = Some(greatest);
        self
    }

    /// What was written.
    pub fn bytes(&self) -> &[u8]
        ensures { result.now ≡ self.now.written }
    {
        &self.bytes
    }
}

impl Sink for MemSink {
    ghost written = { λ s. Some s.written };

    ghost flushed = { λ s. Some s.flushed };

    ghost faults = { λ s. s.faults };

    fn write(&mut self, piece: &[u8]) -> Result<usize, Failed>
        ensures within { IfOk result (λ n. n ≤ length piece.now) }
        ensures some { IfOk result (λ n. 0 < length piece.now → 0 < n) }
        ensures ok { IfOk result (λ n. Adds (Some self.old.written) (Some self.new.written) (take n piece.now)) }
        ensures err { OnErr result (Adds (Some self.old.written) (Some self.new.written) []) }
        ensures same_flushed { Some self.new.flushed ≡ Some self.old.flushed }
        ensures no_fall { self.old.faults ≤ self.new.faults }
        ensures failed { OnErr result (HasRisen self.old.faults self.new.faults) }
        ensures fails { IsTrue (is_to_fail self.old.write_fails (one_more self.old.writes)) → IsErr result }
        ensures takes { IfOk result (λ n. n ≡ at_most self.old.greatest (length piece.now)) }
        ensures after { MatchResult result
            (λ n. self.new ≡ record self.old { written = self.old.written ++ take n piece.now; writes = one_more self.old.writes })
            (λ _. self.new ≡ record self.old { writes = one_more self.old.writes; faults = one_more self.old.faults }) }
    {
        self.writes = self.writes.saturating_add(1);
        let count = up_to(self.greatest, piece.len());
        if self.write_fails.contains(&self.writes)
            || self.bytes.extend_from_slice(&piece[..count]).is_err()
        {
            self.faults = self.faults.saturating_add(1);
            return Err(Failed);
        }
        Ok(count)
    }

    fn flush(&mut self) -> Result<(), Failed>
        ensures same { Adds (Some self.old.written) (Some self.new.written) [] }
        ensures ok { OnOk result (Some self.new.flushed ≡ Some self.new.written) }
        ensures err { OnErr result (Some self.new.flushed ≡ Some self.old.flushed) }
        ensures no_fall { self.old.faults ≤ self.new.faults }
        ensures failed { OnErr result (HasRisen self.old.faults self.new.faults) }
        ensures fails { IsErr result ↔ IsTrue (is_to_fail self.old.flush_fails (one_more self.old.flushes)) }
        ensures after { MatchResult result
            (λ _. self.new ≡ record self.old { flushed = self.old.written; flushes = one_more self.old.flushes })
            (λ _. self.new ≡ record self.old { flushes = one_more self.old.flushes; faults = one_more self.old.faults }) }
    {
        self.flushes = self.flushes.saturating_add(1);
        if self.flush_fails.contains(&self.flushes) {
            self.faults = self.faults.saturating_add(1);
            return Err(Failed);
        }
        self.flushed = self.bytes.len();
        Ok(())
    }
}

// So many bytes, or the greatest piece where there is one and it is less.
fn up_to(greatest: Option<u32>, count: usize) -> usize
    ensures { result ≡ at_most greatest count }
{
    match greatest {
        Some(most) => count.min(most as usize),
        None => count,
    }
}
