//! Lines of a source.
ghost use Rattle.std.specs.Prelude.{◌≡◌, ◌≢◌, ℕ, ◌+◌, ◌<◌, ◌≤◌, List, [], ◌∷◌, ◌++◌, length, take, drop, Option, MatchOption, IfOk, IfErr, OnOk, OnErr, IsErrOf, ◌↔◌, option_map, false, IsTrue, MatchResult, true, None, Ok};
ghost use Rattle.lkb_io.specs.Outside.{HasRisen, Takes, IsAtEnd, Adds, AddsFront};
ghost use Rattle.lkb_io.specs.Lines.{HasNoEnd, IsTooLong, Kept, IsNext, IsEndAt, last_of, has_end};

use crate::buffer::{Buffer, line_end};
use crate::{Failed, Source};
use std::alloc::{AllocError, Global};
use std::marker::Model;

/// So many bytes without a line end are too many.
pub(crate) const LIMIT: usize = 65_536;

/// Why there is no next line.
#[derive(Clone, Copy, Debug, PartialEq, Eq)]
pub enum LineFault {
    /// The source failed.
    Failed,
    /// 65,536 bytes came without a line end.
    TooLong,
    /// Memory was wanting.
    NoMemory,
}

impl From<Failed> for LineFault {
    ghost use Rattle.lkb_io.specs.declared.lines.LineFault.{LineFault};

    ghost from_gives = { λ _ e. e ≡ LineFault.Failed };

    fn from(_fault: Failed) -> LineFault {
        LineFault::Failed
    }
}

impl From<AllocError> for LineFault {
    ghost use Rattle.lkb_io.specs.declared.lines.LineFault.{LineFault};

    ghost from_gives = { λ _ e. e ≡ LineFault.NoMemory };

    fn from(_fault: AllocError) -> LineFault {
        LineFault::NoMemory
    }
}

/// What was taken from a source and isn't yet given as a line: at most 65,536 bytes, and whether
/// the source's end was met.
#[derive(Drop)]
pub struct Held {
    buffer: Buffer,
    ended: bool,
}

impl Model for Held {
    ghost Value = { Kept };

    ghost view = { λ h. record { bytes = h.buffer; ended = h.ended } };

    ghost invariant = { λ h. (length h.buffer ≤ 65536) × (h.ended ≡ true → h.buffer ≡ []) };
}

impl Held {
    /// Holds nothing.
    pub fn new(alloc: Global) -> Held
        ensures { result ≡ record { bytes = []; ended = false } }
    {
        Held {
            buffer: Buffer::new(alloc),
            ended: false,
        }
    }

    /// Whether a line end is held. Where one is, the next call of `read_line` asks the source for nothing.
    pub fn has_line(&self) -> bool
        ensures { result ≡ has_end self.now.bytes }
    {
        self.buffer.as_slice().contains(&b'\n')
    }
}

/// The next line of a source, without its end, which is byte 10. The last line may have no end. None
/// means that the source was read to its end. After an error what was taken is held, so the call
/// after `TooLong` answers `TooLong` again and reads nothing. At most 65,536 bytes are held, so no
/// call takes more than that beyond what it was given to hold.
pub fn read_line<S: Source>(
    alloc: Global,
    source: &mut S,
    held: &mut Held,
) -> Result<Option<Vec<u8>>, LineFault>
    ensures next { (came : List ℕ) × Takes (S.left source.old) (S.left source.new) came
        × MatchResult result (λ line. IsNext (option_map (λ v. v.items) line) (held.old.bytes ++ came) held.new)
        (λ _. (held.new.bytes ≡ held.old.bytes ++ came) × (held.new.ended ≡ held.old.ended))
        × (length (held.old.bytes ++ came) ≤ 65536) }
    ensures end { held.old.ended ≡ false → held.new.ended ≡ true → IsAtEnd (S.left source.new) }
    ensures ended { held.old.ended ≡ true → (result ≡ Ok None) × (source.new ≡ source.old) }
    ensures too_long { IsErrOf result LineFault.TooLong ↔ IsTooLong held.new.bytes }
    ensures again { IsTooLong held.old.bytes → (source.new ≡ source.old) × (held.new ≡ held.old) }
    ensures part { IsErrOf result LineFault.Failed → HasNoEnd held.new.bytes }
    ensures no_fall { S.faults source.old ≤ S.faults source.new }
    ensures failed { IsErrOf result LineFault.Failed → HasRisen (S.faults source.old) (S.faults source.new) }
{
    next_line(alloc, source, &mut held.buffer, &mut held.ended)
}

// read_line over the parts of what is held.
fn next_line<S: Source>(
    alloc: Global,
    source: &mut S,
    buffer: &mut Buffer,
    ended: &mut bool,
) -> Result<Option<Vec<u8>>, LineFault>
    requires room { length buffer.old ≤ 65536 }
    requires empty { ended.old ≡ true → buffer.old ≡ [] }
    ensures room { length buffer.new ≤ 65536 }
    ensures empty { ended.new ≡ true → buffer.new ≡ [] }
    ensures next { (came : List ℕ) × Takes (S.left source.old) (S.left source.new) came
        × MatchResult result (λ line. IsNext (option_map (λ v. v.items) line) (buffer.old ++ came) (record { bytes = buffer.new; ended = ended.new }))
        (λ _. (buffer.new ≡ buffer.old ++ came) × (ended.new ≡ ended.old))
        × (length (buffer.old ++ came) ≤ 65536) }
    ensures end { ended.old ≡ false → ended.new ≡ true → IsAtEnd (S.left source.new) }
    ensures ended { ended.old ≡ true → (result ≡ Ok None) × (source.new ≡ source.old) }
    ensures too_long { IsErrOf result LineFault.TooLong ↔ IsTooLong buffer.new }
    ensures again { IsTooLong buffer.old → (source.new ≡ source.old) × (buffer.new ≡ buffer.old) × (ended.new ≡ ended.old) }
    ensures part { IsErrOf result LineFault.Failed → HasNoEnd buffer.new }
    ensures no_fall { S.faults source.old ≤ S.faults source.new }
    ensures failed { IsErrOf result LineFault.Failed → HasRisen (S.faults source.old) (S.faults source.new) }
{
    if *ended {
        return Ok(None);
    }
    let mut seen = 0;
    loop {
        if let Some(at) = line_end(buffer.as_slice(), seen) {
            return Ok(Some(buffer.take_line(alloc, at)?));
        }
        seen = buffer.as_slice().len();
        if seen >= LIMIT {
            return Err(LineFault::TooLong);
        }
        if buffer.fill(source)? == 0 {
            *ended = true;
            return Ok(buffer.take_last(alloc));
        }
    }
}
