//! Words of a step.

// The word before the first of these signs, and what stands after it.
pub fn front(text: &str, sign: char) -> (&str, &str) {
    match text.split_once(sign) {
        Some((word, rest)) => (word, rest),
        None => (text, ""),
    }
}

// The parts of a step, with a stroke between each two.
pub fn parts(text: &str) -> (&str, &str, &str, &str) {
    let mut parts = text.split(" | ");
    let first = parts.next().unwrap_or("");
    let second = parts.next().unwrap_or("");
    let third = parts.next().unwrap_or("");
    (first, second, third, parts.next().unwrap_or(""))
}

// The number that stands here, 0 where none does.
pub fn number(text: &str) -> u32 {
    text.parse::<u32>().unwrap_or(0)
}

// The same for the number of a task.
pub fn long_number(text: &str) -> u64 {
    text.parse::<u64>().unwrap_or(0)
}
