//! Answers beside each other.

use std::alloc::{AllocError, Global};

/// The text of the first answer, how many answers came, and how many of them have that text.
#[derive(Drop)]
pub struct Alike {
    first: Vec<u8>,
    came: u32,
    same: u32,
}

impl Alike {
    /// No answer came yet.
    pub fn new(alloc: Global) -> Alike {
        Alike {
            first: Vec::new(alloc),
            came: 0,
            same: 0,
        }
    }

    /// Takes the text of an answer.
    pub fn take(&mut self, text: Vec<u8>) {
        if self.came == 0 || self.first == text {
            self.same = self.same.saturating_add(1);
        }
        if self.came == 0 {
            self.first = text;
        }
        self.came = self.came.saturating_add(1);
    }

    /// Writes how many of the answers are the first one, and this one.
    pub fn write(&self, alloc: Global, out: &mut Vec<u8>) -> Result<(), AllocError> {
        let head = format!(in alloc; "{} of {}\n", self.same, self.came)?;
        out.extend_from_slice(head.as_bytes())?;
        out.extend_from_slice(&self.first)?;
        Ok(())
    }
}
