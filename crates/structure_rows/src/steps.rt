//! Words of a step.

// The word at the front of a line, and what stands after the blank that follows it.
pub fn front(line: &str) -> (&str, &str) {
    match line.split_once(' ') {
        Some((word, rest)) => (word, rest),
        None => (line, ""),
    }
}

// The number that stands here, 0 where none does.
pub fn number(text: &str) -> u32 {
    text.parse::<u32>().unwrap_or(0)
}
