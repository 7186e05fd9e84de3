//! The entries of a book, with their words.

ghost use Rattle.std.specs.Prelude.{◌≡◌, ◌++◌, [], ◌∷◌, length, map, option_map, IfOk, OnOk};
ghost use Rattle.lexicon.specs.Groups.{given_of};
ghost use Rattle.book_shapes.specs.Shapes.{is_entry, AreReadable, AreFound, numbered_next};

use crate::rules::list_names;
use closed_lists::words_at;
use constraint_expand::Book;
use fs_graph::Feat;
use lexicon::NoMemory;
use std::alloc::Global;
use tdl_reader::Status;

/// The entries of a book by number, with their words, or the place of the first entry that has none.
#[derive(Drop)]
pub enum Entries {
    Given(Vec<(u32, Vec<String>)>),
    Without(usize),
}

// Adds the words of the next entry. More entries than a `u32` can number count as want of memory.
fn add_entry(out: &mut Vec<(u32, Vec<String>)>, words: Vec<String>) -> Result<(), NoMemory>
    ensures { OnOk result (map given_of out.new.items ≡ map given_of out.old.items ++ numbered_next (length out.old.items) words ∷ []) }
{
    let Ok(number) = u32::try_from(out.len()) else {
        return Err(NoMemory);
    };
    out.push((number, words))?;
    Ok(())
}

fn is_entry(status: Status) -> bool
    ensures { result ≡ is_entry status }
{
    match status {
        Status::Entry => true,
        _ => false,
    }
}

/// The entries of a book in order of place, numbered from 0, with their words, which stand at a path; or the place among the
/// instances of the first entry without words.
pub fn entries_of(alloc: Global, book: &Book, orth: &[Option<Feat>]) -> Result<Entries, NoMemory>
    requires { AreReadable book.now }
    ensures { IfOk result (AreFound book.now (map (option_map (λ f. f.0)) orth.now)) }
{
    let types = book.system.types();
    let limit = book.system.path_limit();
    let lists = list_names(&book.names);
    let mut out = Vec::new(alloc);
    for i in 0..book.instances.len() {
        let instance = &book.instances[i];
        if is_entry(instance.status) {
            match words_at(alloc, types, &lists, &instance.structure, orth, limit)? {
                Some(words) => add_entry(&mut out, words)?,
                None => return Ok(Entries::Without(i)),
            }
        }
    }
    Ok(Entries::Given(out))
}
