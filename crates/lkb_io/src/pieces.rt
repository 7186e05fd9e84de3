//! Whole pieces into a sink.
ghost use Rattle.std.specs.Prelude.{◌≡◌, ◌≤◌, OnOk, OnErr};
ghost use Rattle.lkb_io.specs.Outside.{HasRisen, Adds, AddsFront};

use crate::{Failed, Sink};

/// Writes the whole piece, by as many calls as the sink wants. After a fault a front of the piece
/// was written.
pub fn put_all<O: Sink>(sink: &mut O, piece: &[u8]) -> Result<(), Failed>
    ensures ok { OnOk result (Adds (O.written sink.old) (O.written sink.new) piece.now) }
    ensures front { AddsFront (O.written sink.old) (O.written sink.new) piece.now }
    ensures same_flushed { O.flushed sink.new ≡ O.flushed sink.old }
    ensures no_fall { O.faults sink.old ≤ O.faults sink.new }
    ensures failed { OnErr result (HasRisen (O.faults sink.old) (O.faults sink.new)) }
{
    let mut at = 0;
    while at < piece.len() {
        at += sink.write(&piece[at..])?;
    }
    Ok(())
}
