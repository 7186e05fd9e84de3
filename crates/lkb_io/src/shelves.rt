//! Shelves in memory.
ghost use Rattle.std.specs.Prelude.{◌≡◌, ◌≢◌, ℕ, ◌<◌, ◌≤◌, ◌⊎◌, List, length, Some, false, None, IfOk, IfSome, IsOk, IsErrOf, MatchResult, OnOk, IfErr, IsTrue, option_map, string_bytes};
ghost use Rattle.lkb_io.specs.Outside.{HasRisen};
ghost use Rattle.lkb_io.specs.Devices.{one_more, is_to_fail};
ghost use Rattle.lkb_io.specs.Shelves.{IsFile, IsLong, IsShort, NamedFile, Shelved, file_of, file_or_empty};
ghost use Rattle.lkb_io.specs.Named.{named_files};

use crate::{Shelf, ShelfCause, ShelfFault};
use std::alloc::{AllocError, Global};
use std::marker::Model;

/// The most bytes that a text of a shelf has: 64 MiB.
pub(crate) const MOST: usize = 67_108_864;

/// A file of a shelf in memory.
#[derive(Drop)]
pub struct ShelfFile {
    /// The name that it is asked for by.
    pub name: String,
    /// Its bytes.
    pub text: Vec<u8>,
}

// The first of the files that has this name.
fn find_file<'a>(files: &'a [ShelfFile], name: &str) -> Option<&'a [u8]>
    ensures { option_map (λ text. text.now) result ≡ file_of (named_files files.now) name.now }
{
    for file in files {
        if file.name.as_str() == name {
            return Some(&file.text);
        }
    }
    None
}

// The text of a file, unless it is too long.
fn text_of(alloc: Global, file: &[u8]) -> Result<Vec<u8>, ShelfFault>
    ensures ok { IfOk result (λ text. (text.items ≡ file.now) × (length file.now ≤ 67108864)) }
    ensures err { IfErr result (λ e. (e ≡ ShelfFault.NoMemory) ⊎ ((e ≡ ShelfFault.TooLong) × (67108864 < length file.now))) }
{
    if file.len() > MOST {
        return Err(ShelfFault::TooLong);
    }
    match file.to_vec(alloc) {
        Ok(text) => Ok(text),
        Err(_) => Err(ShelfFault::NoMemory),
    }
}

/// A shelf in memory. The calls on it are numbered from 1, and those whose numbers it was given fail.
/// Of two files of one name the first counts.
#[derive(Drop)]
pub struct MemShelf {
    files: Vec<ShelfFile>,
    fails: Vec<u64>,
    calls: u64,
    faults: u64,
    asked: Option<String>,
    cause: ShelfCause,
}

impl Model for MemShelf {
    ghost Value = { Shelved };

    ghost view = { λ s. record {
      files = named_files s.files.items;
      fails = s.fails.items;
      calls = s.calls;
      faults = s.faults;
      asked = option_map string_bytes s.asked;
    } };
}

impl MemShelf {
    /// A shelf of these files whose calls of these numbers fail. It takes no memory.
    pub fn new(files: Vec<ShelfFile>, fails: Vec<u64>) -> MemShelf
        ensures { result ≡ record { files = named_files files.items; fails = fails.items; calls = 0; faults = 0; asked = None } }
    {
        MemShelf {
            files,
            fails,
            calls: 0,
            faults: 0,
            asked: None,
            cause: ShelfCause::Missing,
        }
    }

    // Counts a fault, and keeps the name that was asked for and the cause.
    fn fail(&mut self, alloc: Global, name: &str, cause: ShelfCause) -> ShelfFault
        ensures failed { result ≡ ShelfFault.Failed → self.new ≡ record self.old { faults = one_more self.old.faults; asked = Some name.now } }
        ensures no_fall { self.old.faults ≤ self.new.faults }
        ensures wanting { result ≢ ShelfFault.Failed → (result ≡ ShelfFault.NoMemory) × (self.new ≡ self.old) }
    {
        match String::from_str(alloc, name) {
            Ok(asked) => {
                self.asked = Some(asked);
                self.cause = cause;
                self.faults = self.faults.saturating_add(1);
                ShelfFault::Failed
            }
            Err(_) => ShelfFault::NoMemory,
        }
    }
}

impl Shelf for MemShelf {
    ghost files = { λ s. Some (file_of s.files) };

    ghost faults = { λ s. s.faults };

    ghost asked = { λ s. s.asked };

    fn text(&mut self, alloc: Global, name: &str) -> Result<Vec<u8>, ShelfFault>
        ensures told { IfOk result (λ text. IfSome (Some (file_of self.old.files)) (λ f. IsFile (f name.now) text.items)) }
        ensures bound { IfOk result (λ text. length text.items ≤ 67108864) }
        ensures too_long { IsErrOf result ShelfFault.TooLong → IfSome (Some (file_of self.old.files)) (λ f. IsLong (f name.now)) }
        ensures long { IfSome (Some (file_of self.old.files)) (λ f. IsLong (f name.now) → (HasRisen self.old.faults self.new.faults → ⊥)
            → (result ≡ Err ShelfFault.TooLong) ⊎ (result ≡ Err ShelfFault.NoMemory)) }
        ensures short { IfSome (Some (file_of self.old.files)) (λ f. IsShort (f name.now) → (HasRisen self.old.faults self.new.faults → ⊥)
            → IsOk result ⊎ (result ≡ Err ShelfFault.NoMemory)) }
        ensures same { Some (file_of self.new.files) ≡ Some (file_of self.old.files) }
        ensures asked { IsErrOf result ShelfFault.Failed → self.new.asked ≡ Some name.now }
        ensures same_asked { (IsErrOf result ShelfFault.Failed → ⊥) → self.new.asked ≡ self.old.asked }
        ensures no_fall { self.old.faults ≤ self.new.faults }
        ensures failed { IsErrOf result ShelfFault.Failed → HasRisen self.old.faults self.new.faults }
        ensures fails { IsTrue (is_to_fail self.old.fails (one_more self.old.calls)) → (result ≡ Err ShelfFault.Failed) ⊎ (result ≡ Err ShelfFault.NoMemory) }
        ensures gives { is_to_fail self.old.fails (one_more self.old.calls) ≡ false → file_of self.old.files name.now ≢ None → IsErrOf result ShelfFault.Failed → ⊥ }
        ensures counted { (self.new.files ≡ self.old.files) × (self.new.fails ≡ self.old.fails) × (self.new.calls ≡ one_more self.old.calls) }
    {
        self.calls = self.calls.saturating_add(1);
        if self.fails.contains(&self.calls) {
            return Err(self.fail(alloc, name, ShelfCause::Unreadable));
        }
        match find_file(&self.files, name) {
            Some(text) => text_of(alloc, text),
            None => Err(self.fail(alloc, name, ShelfCause::Missing)),
        }
    }

    fn cause(&self) -> ShelfCause {
        self.cause
    }
}

/// A shelf in memory that never fails. It has a file under every name, an empty one where it was
/// given none. Of two files of one name the first counts. Contracts see it as its files.
#[derive(Drop)]
pub struct WholeShelf {
    files: Vec<ShelfFile>,
}

impl Model for WholeShelf {
    ghost Value = { List NamedFile };

    ghost view = { λ s. named_files s.files.items };
}

impl WholeShelf {
    /// A shelf of these files. It takes no memory.
    pub fn new(files: Vec<ShelfFile>) -> WholeShelf
        ensures { result ≡ named_files files.items }
    {
        WholeShelf { files }
    }
}

impl Shelf for WholeShelf {
    ghost files = { λ s. Some (file_or_empty s) };

    ghost faults = { λ _. 0 };

    ghost asked = { λ _. None };

    fn text(&mut self, alloc: Global, name: &str) -> Result<Vec<u8>, ShelfFault> {
        let file = find_file(&self.files, name).unwrap_or(&[]);
        text_of(alloc, file)
    }

    fn cause(&self) -> ShelfCause {
        ShelfCause::Missing
    }
}
