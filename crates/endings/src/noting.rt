//! Notes on lines, which are told on the error stream.
ghost use Rattle.endings.specs.Inner.Batches.{TellsMore, note_of, notes_of_all};

use crate::lines::Answer;
use lkb_io::{Failed, Sink, put_all};

/// A stream that nobody reads: what is written to it is gone.
#[derive(Drop)]
pub(crate) struct Nobody;

impl Sink for Nobody {
    ghost use Rattle.std.specs.Prelude.{None};

    ghost written = { λ _. None };

    ghost flushed = { λ _. None };

    ghost faults = { λ _. 0 };

    fn write(&mut self, piece: &[u8]) -> Result<usize, Failed> {
        Ok(piece.len())
    }

    fn flush(&mut self) -> Result<(), Failed> {
        Ok(())
    }
}

// Tells this text, unless the stream has failed.
fn put_text<X: Sink>(err: &mut X, text: &[u8], failed: &mut bool)
    ensures { TellsMore failed.old failed.new (X.written err.old) (X.written err.new) (X.faults err.old) (X.faults err.new) text.now }
{
    if *failed {
        return;
    }
    match put_all(err, text) {
        Ok(()) => {}
        Err(_) => *failed = true,
    }
}

// Tells the note of an answer.
fn put_note<X: Sink>(err: &mut X, answer: &Option<Answer>, failed: &mut bool)
    ensures { TellsMore failed.old failed.new (X.written err.old) (X.written err.new) (X.faults err.old) (X.faults err.new) (note_of answer.now) }
{
    match answer {
        Some(answer) => put_text(err, &answer.note, failed),
        None => {}
    }
}

/// Tells the notes of these answers, one after the other, unless the stream has failed. A fault of it changes nothing else, and nothing is told
/// after it.
pub(crate) fn put_notes<X: Sink>(err: &mut X, told: &[Option<Answer>], failed: &mut bool)
    ensures { TellsMore failed.old failed.new (X.written err.old) (X.written err.new) (X.faults err.old) (X.faults err.new) (notes_of_all told.now) }
{
    for answer in told {
        put_note(err, answer, failed);
    }
}
