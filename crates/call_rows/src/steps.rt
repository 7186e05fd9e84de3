//! Words and texts of a step, and texts of its answer.

use std::alloc::{AllocError, Global};

// The word at the front of a line, and what stands after the blank that follows it.
pub fn front(line: &str) -> (&str, &str) {
    match line.split_once(' ') {
        Some((word, rest)) => (word, rest),
        None => (line, ""),
    }
}

// The parts of a step, with a stroke between each two.
pub fn parts(text: &str) -> (&str, &str, &str, &str) {
    let mut parts = text.split(" | ");
    let first = parts.next().unwrap_or("");
    let second = parts.next().unwrap_or("");
    let third = parts.next().unwrap_or("");
    (first, second, third, parts.next().unwrap_or(""))
}

// The number that stands here, 0 where none does.
pub fn number(text: &str) -> u32 {
    text.parse::<u32>().unwrap_or(0)
}

// The numbers between commas.
pub fn numbers(alloc: Global, text: &str) -> Result<Vec<u64>, AllocError> {
    let mut found = Vec::new(alloc);
    for word in text.split(',') {
        found.push(u64::from(number(word)))?;
    }
    Ok(found)
}

// The words of a text between such signs.
pub fn parted(alloc: Global, text: &str, sign: char) -> Result<Vec<String>, AllocError> {
    let mut words = Vec::new(alloc);
    for word in text.split(sign) {
        words.push(String::from_str(alloc, word)?)?;
    }
    Ok(words)
}

// A text in which each `\n` is a line end, and each `\u{..}` the character of this number.
pub fn unescaped(alloc: Global, text: &str) -> Result<String, AllocError> {
    let mut out = String::new(alloc);
    for (place, piece) in text.split("\\n").enumerate() {
        if place > 0 {
            out.push('\n')?;
        }
        push_piece(&mut out, piece)?;
    }
    Ok(out)
}

fn push_piece(out: &mut String, piece: &str) -> Result<(), AllocError> {
    for (place, part) in piece.split("\\u{").enumerate() {
        if place == 0 {
            out.push_str(part)?;
        } else {
            push_numbered(out, part)?;
        }
    }
    Ok(())
}

// A character by its number, and what follows.
fn push_numbered(out: &mut String, part: &str) -> Result<(), AllocError> {
    let Some((digits, rest)) = part.split_once('}') else {
        return Ok(());
    };
    let number = u32::from_str_radix(digits, 16).unwrap_or(0);
    out.push(char::from_u32(number).unwrap_or('?'))?;
    out.push_str(rest)
}

// The bytes of a text, in which `\n` is a line end and `TEXT*COUNT` so many of a text.
pub fn bytes(alloc: Global, text: &str) -> Result<Vec<u8>, AllocError> {
    let mut found = Vec::new(alloc);
    for (place, line) in text.split("\\n").enumerate() {
        if place > 0 {
            found.push(b'\n')?;
        }
        let (part, count) = line.split_once('*').unwrap_or((line, "1"));
        push_times(&mut found, part, number(count))?;
    }
    Ok(found)
}

fn push_times(into: &mut Vec<u8>, part: &str, count: u32) -> Result<(), AllocError> {
    for _ in 0..count {
        push(into, part)?;
    }
    Ok(())
}

// Adds a text.
pub fn push(out: &mut Vec<u8>, text: &str) -> Result<(), AllocError> {
    out.extend_from_slice(text.as_bytes())?;
    Ok(())
}

// Adds bytes: more than a hundred as their count, with the first one where all are the same, and each line end as `\n`.
pub fn push_bytes(alloc: Global, out: &mut Vec<u8>, bytes: &[u8]) -> Result<(), AllocError> {
    if bytes.len() > 100 {
        let count = format!(in alloc; "{} of {}", bytes.len(), bytes[0])?;
        push(out, count.as_str())?;
        return push(out, if are_same(bytes) { "" } else { " and others" });
    }
    for byte in bytes {
        if *byte == b'\n' {
            push(out, "\\n")?;
        } else {
            out.push(*byte)?;
        }
    }
    Ok(())
}

fn are_same(bytes: &[u8]) -> bool {
    let first = bytes.first();
    bytes.iter().all(|byte| Some(byte) == first)
}
