//! The lines of a workload.
ghost use Rattle.std.specs.Prelude.{◌≡◌, ◌<◌, ◌+◌, ◌^◌, ◌%◌, ◌++◌, ◌∷◌, map, IfOk, OnOk};
ghost use Rattle.std.specs.Fmt.{decimal};
ghost use Rattle.std.specs.List.{flat_map, range_with_len};
ghost use Rattle.self_tests.specs.Lines.{phrase, phrases, line};
ghost use Rattle.self_tests.specs.WorkloadInner.{spaced};

use crate::NoMemory;
use itoa::Buffer;
use std::alloc::Global;

// The bytes of a line without a phrase, and those that each phrase adds.
const CLAUSE_BYTES: u64 = 8;

const PHRASE_BYTES: u64 = 6;

// Adds a word: the letter of its class, and its number in the class.
fn add_word(line: &mut Vec<u8>, class: u8, number: u64) -> Result<(), NoMemory>
    ensures { OnOk result (line.new.items ≡ line.old.items ++ class ∷ decimal number) }
{
    let mut digits = Buffer::new();
    line.push(class)?;
    line.extend_from_slice(digits.format(number).as_bytes())?;
    Ok(())
}

// Adds a blank and a word.
fn add_next(line: &mut Vec<u8>, class: u8, number: u64) -> Result<(), NoMemory>
    ensures { OnOk result (line.new.items ≡ line.old.items ++ 32 ∷ class ∷ decimal number) }
{
    line.push(b' ')?;
    add_word(line, class, number)
}

// Adds a prepositional phrase, by its place among the phrases of the line, from 1.
fn add_phrase(line: &mut Vec<u8>, place: u64, nth: u64) -> Result<(), NoMemory>
    requires small { nth < 8 }
    requires fits { place < 2 ^ 60 }
    ensures { OnOk result (line.new.items ≡ line.old.items ++ spaced (phrase place nth)) }
{
    add_next(line, b'p', (place + nth) % 5)?;
    add_next(line, b'n', (place + 3 * (nth + 1)) % 10)
}

// Adds the prepositional phrases of a line.
fn add_phrases(line: &mut Vec<u8>, place: u64) -> Result<(), NoMemory>
    requires { place < 2 ^ 60 }
    ensures { OnOk result (line.new.items ≡ line.old.items ++ spaced (phrases place (place % 7))) }
{
    for before in 0..place % 7 {
        add_phrase(line, place, before + 1)?;
    }
    Ok(())
}

// The line at this place in the round of lines.
fn line(alloc: Global, place: u64) -> Result<Vec<u8>, NoMemory>
    requires { place < 2 ^ 60 }
    ensures { IfOk result (λ made. made.items ≡ line place) }
{
    let bytes = CLAUSE_BYTES + PHRASE_BYTES * (place % 7);
    let mut line = Vec::with_capacity(alloc, bytes as usize)?;
    add_word(&mut line, b'n', place % 10)?;
    add_next(&mut line, b'v', place % 5)?;
    add_next(&mut line, b'n', (place + 3) % 10)?;
    add_phrases(&mut line, place)?;
    Ok(line)
}

/// So many lines, the first of which stands at this place in the round of lines.
pub(crate) fn lines(alloc: Global, start: u64, size: u32) -> Result<Vec<Vec<u8>>, NoMemory>
    requires { start < 1000 }
    ensures { IfOk result (λ lines. map (λ l. l.items) lines.items ≡ map (λ i. line (start + i)) (range_with_len 0 size)) }
{
    let mut lines = Vec::with_capacity(alloc, size as usize)?;
    for i in 0..size {
        lines.push(line(alloc, start + i as u64)?)?;
    }
    Ok(lines)
}
