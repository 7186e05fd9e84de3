//! Lines that wait already, as a batch.
ghost use Rattle.std.specs.Prelude.{◌≡◌, ℕ, ◌+◌, ◌≤◌, ◌<◌, ◌++◌, List, [], ◌∷◌, map, length, Option, Ok, IfOk, IfErr, OnOk, OnErr, true, false};
ghost use Rattle.lkb_io.specs.declared.lines.LineFault.{LineFault};
ghost use Rattle.endings.specs.Readings.{ReadsSoFar};
ghost use Rattle.endings.specs.Inner.Batches.{Gathered, ReadsSome};

use lkb_io::{Held, LineFault, Source, read_line};
use std::alloc::Global;

/// Lines that are answered together, the first of this number.
#[derive(Clone, Copy)]
pub(crate) struct Batch<'l> {
    pub(crate) number: u64,
    pub(crate) lines: &'l [Vec<u8>],
}

// Adds a line.
fn keep_line(lines: &mut Vec<Vec<u8>>, line: Vec<u8>) -> Result<(), LineFault>
    ensures kept { OnOk result (lines.new.items ≡ lines.old.items ++ line ∷ []) }
    ensures refused { OnErr result (lines.new.items ≡ lines.old.items) }
    ensures cause { IfErr result (λ fault. fault ≡ LineFault.NoMemory) }
{
    match lines.push(line) {
        Ok(()) => Ok(()),
        Err(_) => Err(LineFault::NoMemory),
    }
}

// Adds the next line of the source. `Ok` tells whether there was one.
fn take_line<I: Source>(
    alloc: Global,
    input: &mut I,
    held: &mut Held,
    lines: &mut Vec<Vec<u8>>,
) -> Result<bool, LineFault>
    ensures gathered { (old : Option (List ℕ)) (before : List (List ℕ))
        → ReadsSoFar old (I.left input.old) held.old.bytes held.old.ended (before ++ map (λ l. l.items) lines.old.items)
        → Gathered old (I.left input.new) (I.faults input.old) (I.faults input.new) held.new (before ++ map (λ l. l.items) lines.new.items) result }
    ensures before { (old : Option (List ℕ)) (before : List (List ℕ)) → ReadsSome old (I.left input.old) before → ReadsSome old (I.left input.new) before }
    ensures end { result ≡ Ok false → held.new.ended ≡ true }
    ensures one { result ≡ Ok true → length lines.new.items ≡ length lines.old.items + 1 }
    ensures none { result ≡ Ok false → length lines.new.items ≡ length lines.old.items }
    ensures few { length lines.new.items ≤ length lines.old.items + 1 }
    ensures no_fall { I.faults input.old ≤ I.faults input.new }
{
    let Some(line) = read_line(alloc, input, held)? else {
        return Ok(false);
    };
    keep_line(lines, line)?;
    Ok(true)
}

/// Reads a line, and then the lines that are held, up to so many in all, and answers how many. No line means that the source was read
/// to its end. After a fault the lines before it are there.
pub(crate) fn read_batch<I: Source>(
    alloc: Global,
    input: &mut I,
    held: &mut Held,
    most: u64,
    lines: &mut Vec<Vec<u8>>,
) -> Result<u64, LineFault>
    requires some { 0 < most }
    requires none_yet { lines.old.items ≡ [] }
    ensures gathered { (old : Option (List ℕ)) (before : List (List ℕ))
        → ReadsSoFar old (I.left input.old) held.old.bytes held.old.ended before
        → Gathered old (I.left input.new) (I.faults input.old) (I.faults input.new) held.new (before ++ map (λ l. l.items) lines.new.items) result }
    ensures before { (old : Option (List ℕ)) (before : List (List ℕ)) → ReadsSome old (I.left input.old) before → ReadsSome old (I.left input.new) before }
    ensures count { IfOk result (λ n. n ≡ length lines.new.items) }
    ensures end { result ≡ Ok 0 → held.new.ended ≡ true }
    ensures few { length lines.new.items ≤ most }
    ensures no_fall { I.faults input.old ≤ I.faults input.new }
{
    for count in 0..most {
        if count > 0 && !held.has_line() {
            return Ok(count);
        }
        if !take_line(alloc, input, held, lines)? {
            return Ok(count);
        }
    }
    Ok(most)
}
