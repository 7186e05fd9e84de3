//! Where a place stands in a text, by line and column, and the lines that show it.
#![tactic(auto)]

ghost use Rattle.std.specs.Prelude.{◌≡◌, ◌≤◌, ◌++◌, ◌∷◌, [], not, length, take, drop, codes, count_by, flat_map, IfOk, OnOk};
ghost use Rattle.std.specs.Fmt.{decimal};
ghost use Rattle.std.specs.List.{before_first, position_or_len};
ghost use Rattle.fault_places.specs.Places.{is_end, goes_on, last_part, under, set_in, place_line, place_text, file_text, line_begin};

use itoa::Buffer;
pub use std::alloc::AllocError as NoMemory;
use std::alloc::Global;

/// Why lines that show a fault lack.
#[derive(Clone, Copy, Debug, PartialEq, Eq)]
pub enum Lack {
    /// The files can't be read again, or say something else by now.
    Unread,
    /// Memory was wanting.
    NoMemory,
}

impl From<NoMemory> for Lack {
    ghost use Rattle.std.specs.Prelude.{◌≡◌};
    ghost use Rattle.fault_places.specs.declared.Lack.{Lack};

    ghost from_gives = { λ _ e. e ≡ Lack.NoMemory };

    fn from(_: NoMemory) -> Lack {
        Lack::NoMemory
    }
}

// Whether a byte goes on with a character.
fn goes_on(byte: u8) -> bool
    ensures { result ≡ goes_on byte }
{
    byte > 127 && byte < 192
}

// What stands before a place of a text.
fn front_of(text: &[u8], at: usize) -> &[u8]
    ensures { result.now ≡ take at text.now }
{
    if at >= text.len() {
        return text;
    }
    &text[..at]
}

// What stands from a place of a text on.
fn rest_of(text: &[u8], at: usize) -> &[u8]
    ensures { result.now ≡ drop at text.now }
{
    if at >= text.len() {
        return &[];
    }
    &text[at..]
}

// How many lines end in a text.
fn count_ends(text: &[u8]) -> usize
    ensures value { result ≡ count_by is_end text.now }
    ensures within { result ≤ length text.now }
{
    let mut ends = 0;
    for byte in text {
        if *byte == b'\n' {
            ends += 1;
        }
    }
    ends
}

// How many characters a text has.
fn count_characters(text: &[u8]) -> usize
    ensures value { result ≡ count_by (λ b. not (goes_on b)) text.now }
    ensures within { result ≤ length text.now }
{
    let mut characters = 0;
    for byte in text {
        if !goes_on(*byte) {
            characters += 1;
        }
    }
    characters
}

// Where what stands after the last line end begins.
fn last_begin(text: &[u8]) -> usize
    ensures within { result ≤ length text.now }
    ensures value { drop result text.now ≡ last_part text.now }
{
    let mut begin = 0;
    for i in 0..text.len() {
        if text[i] == b'\n' {
            begin = i + 1;
        }
    }
    begin
}

// What stands after the last line end.
fn last_part(text: &[u8]) -> &[u8]
    ensures { result.now ≡ last_part text.now }
{
    &text[last_begin(text)..]
}

// Where the first line ends.
#[tactic(auto, using(std::proofs::lemmas::List::Sums::position_or_len_is))]
fn first_end(text: &[u8]) -> usize
    ensures within { result ≤ length text.now }
    ensures value { position_or_len is_end text.now ≡ result }
{
    for i in 0..text.len() {
        if text[i] == b'\n' {
            return i;
        }
    }
    text.len()
}

// What stands before the first line end.
fn before_end(text: &[u8]) -> &[u8]
    ensures { result.now ≡ before_first is_end text.now }
{
    &text[..first_end(text)]
}

// Adds a number in decimal digits.
fn add_number(into: &mut Vec<u8>, number: usize) -> Result<(), NoMemory>
    ensures { OnOk result (into.new.items ≡ into.old.items ++ decimal number) }
{
    let mut digits = Buffer::new();
    into.extend_from_slice(digits.format(number).as_bytes())?;
    Ok(())
}

// Adds what stands under a character.
fn add_under(into: &mut Vec<u8>, byte: u8) -> Result<(), NoMemory>
    ensures { OnOk result (into.new.items ≡ into.old.items ++ under byte) }
{
    if goes_on(byte) {
        return Ok(());
    }
    if byte == b'\t' {
        into.push(b'\t')?;
        return Ok(());
    }
    into.push(b' ')?;
    Ok(())
}

// Adds what stands under a text.
fn add_all_under(into: &mut Vec<u8>, text: &[u8]) -> Result<(), NoMemory>
    ensures { OnOk result (into.new.items ≡ into.old.items ++ flat_map under text.now) }
{
    for byte in text {
        add_under(into, *byte)?;
    }
    Ok(())
}

// Adds what a number counts, and the number.
fn add_counted(into: &mut Vec<u8>, what: &[u8], number: usize) -> Result<(), NoMemory>
    ensures { OnOk result (into.new.items ≡ into.old.items ++ (what.now ++ decimal number)) }
{
    into.extend_from_slice(what)?;
    add_number(into, number)
}

// Adds a cause after a colon, and the end of its line.
fn add_cause(into: &mut Vec<u8>, cause: &str) -> Result<(), NoMemory>
    ensures { OnOk result (into.new.items ≡ into.old.items ++ (codes ": " ++ (cause.now ++ 10 ∷ []))) }
{
    into.extend_from_slice(b": ")?;
    into.extend_from_slice(cause.as_bytes())?;
    into.push(b'\n')?;
    Ok(())
}

// Adds `FILE, line L, column C: CAUSE` after two blanks.
fn add_place(
    into: &mut Vec<u8>,
    file: &str,
    line: usize,
    column: usize,
    cause: &str,
) -> Result<(), NoMemory>
    ensures { OnOk result (into.new.items ≡ into.old.items ++ set_in (place_line file.now line column cause.now)) }
{
    into.extend_from_slice(b"  ")?;
    into.extend_from_slice(file.as_bytes())?;
    add_counted(into, b", line ", line)?;
    add_counted(into, b", column ", column)?;
    add_cause(into, cause)
}

// Adds two texts as one line after two blanks.
fn add_line(into: &mut Vec<u8>, front: &[u8], rest: &[u8]) -> Result<(), NoMemory>
    ensures { OnOk result (into.new.items ≡ into.old.items ++ set_in (front.now ++ rest.now)) }
{
    into.extend_from_slice(b"  ")?;
    into.extend_from_slice(front)?;
    into.extend_from_slice(rest)?;
    into.push(b'\n')?;
    Ok(())
}

// Adds a mark that stands after what it stands under, after two blanks.
fn add_mark(into: &mut Vec<u8>, before: &[u8]) -> Result<(), NoMemory>
    ensures { OnOk result (into.new.items ≡ into.old.items ++ set_in (flat_map under before.now ++ 94 ∷ [])) }
{
    into.extend_from_slice(b"  ")?;
    add_all_under(into, before)?;
    into.extend_from_slice(b"^\n")?;
    Ok(())
}

/// The lines that show a place of a file with this text: `FILE, line L, column C: CAUSE`, both counted from 1, columns in characters;
/// the line of the file; and a mark under the place. Each stands after two blanks.
pub fn place_lines(
    alloc: Global,
    file: &str,
    text: &[u8],
    at: usize,
    cause: &str,
) -> Result<Vec<u8>, NoMemory>
    ensures { IfOk result (λ lines. lines.items ≡ place_text file.now text.now at cause.now) }
{
    let front = front_of(text, at);
    let before = last_part(front);
    let mut lines = Vec::new(alloc);
    add_place(
        &mut lines,
        file,
        count_ends(front) + 1,
        count_characters(before) + 1,
        cause,
    )?;
    add_line(&mut lines, before, before_end(rest_of(text, at)))?;
    add_mark(&mut lines, before)?;
    Ok(lines)
}

/// `FILE: CAUSE` after two blanks, of a cause that says nothing of a place.
pub fn file_line(alloc: Global, file: &str, cause: &str) -> Result<Vec<u8>, NoMemory>
    ensures { IfOk result (λ line. line.items ≡ file_text file.now cause.now) }
{
    let mut line = Vec::from_slice(alloc, b"  ")?;
    line.extend_from_slice(file.as_bytes())?;
    line.extend_from_slice(b": ")?;
    line.extend_from_slice(cause.as_bytes())?;
    line.push(b'\n')?;
    Ok(line)
}

/// Where the line of a number begins, and the end of a text that has fewer lines.
pub fn line_begin(text: &[u8], line: usize) -> usize
    ensures { result ≡ line_begin text.now line }
{
    let mut left = line;
    for i in 0..text.len() {
        if left <= 1 {
            return i;
        }
        if text[i] == b'\n' {
            left -= 1;
        }
    }
    text.len()
}
