//! The texts of shelves.

use crate::steps::{numbers, parts, push, push_bytes};
use lkb_io::{FileShelf, MemShelf, Shelf, ShelfFault, ShelfFile, WholeShelf};
use std::alloc::{AllocError, Global};
use std::rt::Files;

// The files of shelves in memory: two of one name, and another one.
const FILES: [(&str, &str); 3] = [("a", "first"), ("a", "second"), ("b", "other")];

// What a shelf answers for the names of the first part of the step: `shelf` is one in memory, whose calls of the numbers in the
// second part fail, `whole-shelf` one that never fails, and `files` the files where the program runs.
pub fn answer<F: Files>(
    files: &F,
    alloc: Global,
    kind: &str,
    rest: &str,
    out: &mut Vec<u8>,
) -> Result<(), AllocError> {
    let (names, fails, _, _) = parts(rest);
    match kind {
        "files" => ask(alloc, &mut FileShelf::new(files), names, out),
        "whole-shelf" => ask(alloc, &mut WholeShelf::new(made(alloc)?), names, out),
        "shelf" => {
            let fails = numbers(alloc, fails)?;
            ask(alloc, &mut MemShelf::new(made(alloc)?, fails), names, out)
        }
        _ => push(out, "no such step"),
    }
}

fn made(alloc: Global) -> Result<Vec<ShelfFile>, AllocError> {
    let mut files = Vec::new(alloc);
    for (name, text) in FILES {
        files.push(file(alloc, name, text)?)?;
    }
    Ok(files)
}

fn file(alloc: Global, name: &str, text: &str) -> Result<ShelfFile, AllocError> {
    Ok(ShelfFile {
        name: String::from_str(alloc, name)?,
        text: Vec::from_slice(alloc, text.as_bytes())?,
    })
}

fn ask<H: Shelf>(
    alloc: Global,
    shelf: &mut H,
    names: &str,
    out: &mut Vec<u8>,
) -> Result<(), AllocError> {
    for name in names.split(' ') {
        match shelf.text(alloc, name) {
            Ok(text) => push_bytes(alloc, out, &text)?,
            Err(ShelfFault::Failed) => push(out, "failed")?,
            Err(ShelfFault::TooLong) => push(out, "too long")?,
            Err(ShelfFault::NoMemory) => return Err(AllocError),
        }
        push(out, ", ")?;
    }
    Ok(())
}
