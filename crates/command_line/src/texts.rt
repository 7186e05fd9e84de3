//! The text that tells what is wrong with words.
ghost use Rattle.std.specs.Prelude.{◌≡◌, ◌++◌, IfOk, OnOk, map, string_bytes};
ghost use Rattle.std.specs.Fmt.{decimal};
ghost use Rattle.command_line.specs.Faults.{cause_text, fault_line, IsText};

use crate::faults::{Cause, WordFault};
use crate::word_reading::first_fault;
use itoa::Buffer;
use std::alloc::{AllocError, Global};

// A number in decimal digits.
fn put_number(number: u64, into: &mut Vec<u8>) -> Result<(), AllocError>
    ensures { OnOk result (into.new.items ≡ into.old.items ++ decimal number) }
{
    let mut buffer = Buffer::new();
    into.extend_from_slice(buffer.format(number).as_bytes())
}

// These bytes.
fn put(text: &[u8], into: &mut Vec<u8>) -> Result<(), AllocError>
    ensures { OnOk result (into.new.items ≡ into.old.items ++ text.now) }
{
    into.extend_from_slice(text)
}

// A cause.
fn put_cause(cause: Cause, into: &mut Vec<u8>) -> Result<(), AllocError>
    ensures { OnOk result (into.new.items ≡ into.old.items ++ cause_text cause) }
{
    match cause {
        Cause::NoCommand => put(b"no such command", into),
        Cause::NoOption => put(b"no such option", into),
        Cause::SaidTwice => put(b"said twice", into),
        Cause::NoValue => put(b"a value is missing", into),
        Cause::OutOfRange(least, greatest) => {
            put(b"a number from ", into)?;
            put_number(least, into)?;
            put(b" to ", into)?;
            put_number(greatest, into)
        }
        Cause::TooMany => put(b"one word too many", into),
        Cause::Empty => put(b"is empty", into),
    }
}

// The line that tells a fault.
fn line_of(alloc: Global, fault: WordFault) -> Result<Vec<u8>, AllocError>
    ensures { IfOk result (λ line. line.items ≡ fault_line fault.entry) }
{
    let mut line = Vec::new(alloc);
    match fault {
        WordFault::Wrong(told, cause) => {
            line.extend_from_slice(b"lkb: ")?;
            line.extend_from_slice(told.as_bytes())?;
            line.extend_from_slice(b": ")?;
            put_cause(cause, &mut line)?;
        }
        WordFault::Missing(name) => {
            line.extend_from_slice(b"lkb: a word is missing: ")?;
            line.extend_from_slice(name.as_bytes())?;
        }
    }
    line.push(b'\n')?;
    Ok(line)
}

/// The line that tells what is wrong with these words, which don't hold the program's name, or nothing, where they are of a form.
pub fn word_fault(alloc: Global, words: &[String]) -> Result<Vec<u8>, AllocError>
    ensures { IfOk result (λ text. IsText (map (λ w. string_bytes w) words.now) text.items) }
{
    match first_fault(words) {
        Some(fault) => line_of(alloc, fault),
        None => Ok(Vec::new(alloc)),
    }
}
