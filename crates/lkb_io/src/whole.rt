//! A source and a sink in memory that never fail.
ghost use Rattle.std.specs.Prelude.{◌≡◌, ℕ, ◌<◌, ◌≤◌, List, [], ◌++◌, length, take, drop, min, Some, None, IfOk, OnOk, OnErr, option_map, if◌then◌else◌};
ghost use Rattle.std.specs.Option.{ForSome};
ghost use Rattle.lkb_io.specs.Outside.{HasRisen, Takes, IsAtEnd, Adds};
ghost use Rattle.lkb_io.specs.Devices.{Collected};

use crate::{Failed, Sink, Source};
use std::alloc::Global;
use std::marker::Model;

/// A source over bytes in memory that never fails. Contracts see it as the bytes that are left.
#[derive(Drop)]
pub struct WholeSource {
    bytes: Vec<u8>,
    at: usize,
}

impl Model for WholeSource {
    ghost Value = { List ℕ };

    ghost view = { λ s. drop s.at s.bytes.items };

    ghost invariant = { λ s. s.at ≤ length s.bytes.items };
}

impl WholeSource {
    /// A source of these bytes. It takes no memory.
    pub fn new(bytes: Vec<u8>) -> WholeSource
        ensures { result ≡ bytes.items }
    {
        WholeSource { bytes, at: 0 }
    }
}

impl Source for WholeSource {
    ghost left = { λ s. Some s };

    ghost faults = { λ _. 0 };

    fn read(&mut self, into: &mut [u8]) -> Result<usize, Failed>
        ensures within { IfOk result (λ n. n ≤ length into.old) }
        ensures ok { IfOk result (λ n. Takes (Some self.old) (Some self.new) (take n into.new)) }
        ensures end { IfOk result (λ n. n ≡ 0 → 0 < length into.old → IsAtEnd (Some self.old)) }
        ensures err { OnErr result (Takes (Some self.old) (Some self.new) []) }
        ensures no_fall { 0 ≤ 0 }
        ensures failed { OnErr result (HasRisen 0 0) }
        ensures gives { result ≡ Ok (min (length into.old) (length self.old)) }
    {
        let left = &self.bytes[self.at..];
        let count = into.len().min(left.len());
        into[..count].copy_from_slice(&left[..count]);
        self.at += count;
        Ok(count)
    }
}

/// A sink that keeps what is written and never fails. Once it could not grow it tells nothing of its
/// bytes.
#[derive(Drop)]
pub struct WholeSink {
    bytes: Vec<u8>,
    flushed: Option<usize>,
    lost: bool,
}

impl Model for WholeSink {
    ghost Value = { Collected };

    ghost view = { λ s. record {
      written = if s.lost then None else Some s.bytes.items;
      flushed = option_map (λ n. take n s.bytes.items) s.flushed;
    } };

    ghost invariant = { λ s. ForSome s.flushed (λ n. n ≤ length s.bytes.items) };
}

impl WholeSink {
    /// A sink with nothing written. It takes no memory.
    pub fn new(alloc: Global) -> WholeSink
        ensures { result ≡ record { written = Some []; flushed = Some [] } }
    {
        WholeSink {
            bytes: Vec::new(alloc),
            flushed: Some(0),
            lost: false,
        }
    }

    /// What was written. It is `None` exactly where the sink could not grow at some write.
    pub fn bytes(&self) -> Option<&[u8]>
        ensures { option_map (λ bytes. bytes.now) result ≡ self.now.written }
    {
        if self.lost {
            return None;
        }
        Some(&self.bytes)
    }
}

impl Sink for WholeSink {
    ghost written = { λ s. s.written };

    ghost flushed = { λ s. s.flushed };

    ghost faults = { λ _. 0 };

    fn write(&mut self, piece: &[u8]) -> Result<usize, Failed>
        ensures within { IfOk result (λ n. n ≤ length piece.now) }
        ensures some { IfOk result (λ n. 0 < length piece.now → 0 < n) }
        ensures ok { IfOk result (λ n. Adds self.old.written self.new.written (take n piece.now)) }
        ensures err { OnErr result (Adds self.old.written self.new.written []) }
        ensures same_flushed { self.new.flushed ≡ self.old.flushed }
        ensures no_fall { 0 ≤ 0 }
        ensures failed { OnErr result (HasRisen 0 0) }
        ensures whole { result ≡ Ok (length piece.now) }
    {
        if !self.lost && self.bytes.extend_from_slice(piece).is_err() {
            self.lost = true;
        }
        Ok(piece.len())
    }

    fn flush(&mut self) -> Result<(), Failed>
        ensures same { Adds self.old.written self.new.written [] }
        ensures ok { OnOk result (self.new.flushed ≡ self.new.written) }
        ensures err { OnErr result (self.new.flushed ≡ self.old.flushed) }
        ensures no_fall { 0 ≤ 0 }
        ensures failed { OnErr result (HasRisen 0 0) }
        ensures kept { self.new.written ≡ self.old.written }
    {
        self.flushed = if self.lost {
            None
        } else {
            Some(self.bytes.len())
        };
        Ok(())
    }
}
