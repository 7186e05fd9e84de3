//! The names of the files of a grammar.

ghost use Rattle.std.specs.Prelude.{◌≡◌, ◌==◌, ◌&&◌, ◌||◌, ◌++◌, not, IfOk, string_bytes};
ghost use Rattle.grammar_files.specs.FileNames.{has_ending, with_ending, folder_of, is_rooted, included_in};

use std::alloc::{AllocError, Global};

// Whether a `.` stands after the last `/` of a text with one byte more.
fn has_ending_after(ending: bool, byte: u8) -> bool
    ensures { result ≡ ((byte == 46) || (ending && not (byte == 47))) }
{
    byte == b'.' || (ending && byte != b'/')
}

/// Whether a `.` stands after the last `/` of a name.
pub fn has_ending(name: &str) -> bool
    ensures { result ≡ has_ending name.now }
{
    let mut ending = false;
    for byte in name.as_bytes() {
        ending = has_ending_after(ending, *byte);
    }
    ending
}

/// The file of a name: `.tdl` is added where no `.` stands after the last `/`.
pub fn with_ending(alloc: Global, name: &str) -> Result<String, AllocError>
    ensures { IfOk result (λ file. string_bytes file ≡ with_ending name.now) }
{
    let mut file = String::from_str(alloc, name)?;
    if !has_ending(name) {
        file.push_str(".tdl")?;
    }
    Ok(file)
}

// The folder of a file: its name up to and with the last `/`.
fn folder(name: &str) -> &str
    ensures { result.now ≡ folder_of name.now }
{
    let mut end = 0;
    for (i, byte) in name.as_bytes().iter().enumerate() {
        if *byte == b'/' {
            end = i + 1;
        }
    }
    &name[..end]
}

// Whether a name begins with `/`.
fn is_rooted(name: &str) -> bool
    ensures { result ≡ is_rooted name.now }
{
    match name.as_bytes() {
        [first, ..] => *first == b'/',
        [] => false,
    }
}

// An included name within a folder.
fn within(alloc: Global, from: &str, file: &str) -> Result<String, AllocError>
    ensures { IfOk result (λ name. string_bytes name ≡ folder_of from.now ++ file.now) }
{
    let mut name = String::from_str(alloc, folder(from))?;
    name.push_str(file)?;
    Ok(name)
}

/// The file that an include in the file `from` names: relative to the folder of `from`, unless it begins with `/`.
pub fn included_in(alloc: Global, from: &str, file: &str) -> Result<String, AllocError>
    ensures { IfOk result (λ name. string_bytes name ≡ included_in from.now file.now) }
{
    if is_rooted(file) {
        return with_ending(alloc, file);
    }
    let name = within(alloc, from, file)?;
    with_ending(alloc, &name)
}
