//! A row: words, the files of a shelf, the bytes of the input, and the calls that are to fail.
use crate::front;
use lkb_io::ShelfFile;
use std::alloc::{AllocError, Global};

/// A call of a device: a read of the input, a write or a flush of `out`, a write of `err`, or a text of the shelf.
#[derive(Clone, Copy, PartialEq, Eq)]
pub enum Call {
    Read,
    Write,
    Flush,
    Tell,
    Text,
}

/// What the steps said so far.
#[derive(Drop)]
pub struct Row {
    pub name: String,
    pub words: Vec<String>,
    pub files: Vec<ShelfFile>,
    pub input: Vec<u8>,
    /// The calls that are to fail, each with its number.
    pub fails: Vec<(Call, u64)>,
    /// Whether source and sink move one byte a call.
    pub is_slow: bool,
}

fn call_of(word: &str) -> Call {
    match word {
        "read" => Call::Read,
        "write" => Call::Write,
        "flush" => Call::Flush,
        "tell" => Call::Tell,
        _ => Call::Text,
    }
}

// The number at the front of what a step says, and the rest.
pub fn counted(rest: &str) -> (u64, &str) {
    let (number, text) = front(rest);
    (number.parse::<u64>().unwrap_or(0), text)
}

// Adds a text. `\n` in it stands for a line end.
fn add_text(bytes: &mut Vec<u8>, text: &str) -> Result<(), AllocError> {
    for (number, piece) in text.split("\\n").enumerate() {
        if number > 0 {
            bytes.push(b'\n')?;
        }
        bytes.extend_from_slice(piece.as_bytes())?;
    }
    Ok(())
}

impl Row {
    /// Nothing was said yet.
    pub fn new(alloc: Global) -> Row {
        Row {
            name: String::new(alloc),
            words: Vec::new(alloc),
            files: Vec::new(alloc),
            input: Vec::new(alloc),
            fails: Vec::new(alloc),
            is_slow: false,
        }
    }

    // A row of this name, over the files that there are.
    fn begin(&mut self, name: &str) -> Result<(), AllocError> {
        self.words.clear();
        self.input.clear();
        self.fails.clear();
        self.is_slow = false;
        self.name.clear();
        self.name.push_str(name)
    }

    // Adds an empty file of this name.
    fn add_file(&mut self, alloc: Global, name: &str) -> Result<(), AllocError> {
        let name = String::from_str(alloc, name)?;
        let text = Vec::new(alloc);
        self.files.push(ShelfFile { name, text })?;
        Ok(())
    }

    // Adds a text to the last file.
    fn add_to_file(&mut self, text: &str) -> Result<(), AllocError> {
        match self.files.last_mut() {
            Some(file) => add_text(&mut file.text, text),
            None => Ok(()),
        }
    }

    // Adds the words of a line.
    fn add_words(&mut self, alloc: Global, line: &str) -> Result<(), AllocError> {
        for word in line.split_whitespace() {
            self.words.push(String::from_str(alloc, word)?)?;
        }
        Ok(())
    }

    // Adds a text to the input so many times.
    fn add_inputs(&mut self, count: u64, text: &str) -> Result<(), AllocError> {
        for _ in 0..count {
            add_text(&mut self.input, text)?;
        }
        Ok(())
    }

    // Adds a call that is to fail.
    fn add_fail(&mut self, rest: &str) -> Result<(), AllocError> {
        let (call, number) = front(rest);
        self.fails
            .push((call_of(call), number.parse::<u64>().unwrap_or(0)))?;
        Ok(())
    }

    /// Takes a step: what it is, and what stands after it. One that runs the row is passed over.
    pub fn take(&mut self, alloc: Global, step: &str, rest: &str) -> Result<(), AllocError> {
        match step {
            "shelf" => {
                self.files.clear();
                Ok(())
            }
            "row" => self.begin(rest),
            "file" => self.add_file(alloc, rest),
            "text" => self.add_to_file(rest),
            "words" => self.add_words(alloc, rest),
            "input" => add_text(&mut self.input, rest),
            "inputs" => {
                let (count, text) = counted(rest);
                self.add_inputs(count, text)
            }
            "fail" => self.add_fail(rest),
            "pieces" => {
                self.is_slow = true;
                Ok(())
            }
            _ => Ok(()),
        }
    }
}
