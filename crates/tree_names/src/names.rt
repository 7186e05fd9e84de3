//! The names of a grammar's instances, with what each is to a tree.

ghost use Rattle.std.specs.Prelude.{◌≡◌, ◌<◌, length, map, option_map, slice_get, Some, IfOk, string_bytes};
ghost use Rattle.book_signs.specs.Signed.{kind_of};
ghost use Rattle.book_signs.specs.Trees.{signs_of};
ghost use Rattle.grammar_load.specs.Conditions.{IsLoaded};
ghost use Rattle.grammar_load.specs.Views.{grammar_of};
ghost use Rattle.mrs_lines.specs.Fitting.{IsWellNamed};
ghost use Rattle.tree_names.specs.TreeGrammars.{part_by, part_of, tree_grammar};

use crate::NoMemory;
use book_signs::SignBook;
use grammar_load::Grammar;
use std::alloc::Global;
use tdl_reader::Status;
use tree_reading::{Part, TreeNames};

// What an instance of a status is to a tree, with so many daughters if it is a rule.
fn part_by(status: Status, daughters: u32) -> Part
    ensures { result ≡ part_by (kind_of status) daughters }
{
    match status {
        Status::Entry => Part::Entry,
        Status::LexRule => Part::LexicalRule,
        Status::Rule => Part::PhraseRule { daughters },
        Status::Root | Status::TypeDef | Status::Other => Part::Other,
    }
}

// What the instance at a place is to a tree.
fn part_at(signs: &SignBook<'_>, place: u32) -> Part
    requires { place < length (signs_of signs.now).instances }
    ensures { option_map part_of (slice_get (signs_of signs.now).instances place) ≡ Some result }
{
    signs.laws();
    let book = signs.book();
    let places = signs.places(place);
    let instance = &book.instances[place as usize];
    part_by(instance.status, places.len() as u32)
}

// What each instance is to a tree, by place.
fn parts_of(alloc: Global, signs: &SignBook<'_>) -> Result<Vec<Part>, NoMemory>
    ensures { IfOk result (λ v. v.items ≡ map part_of (signs_of signs.now).instances) }
{
    signs.laws();
    let book = signs.book();
    let Ok(count) = u32::try_from(book.instances.len()) else {
        return Err(NoMemory);
    };
    let mut parts = Vec::with_capacity(alloc, count as usize)?;
    for place in 0..count {
        let part = part_at(signs, place);
        parts.push(part)?;
    }
    Ok(parts)
}

/// The names of the instances of a grammar that is loaded, and what each is to a tree by its signs, for the reader of trees. It is made
/// once for a grammar. More instances than a `u32` can number count as want of memory.
pub fn tree_names(
    alloc: Global,
    grammar: &Grammar,
    signs: &SignBook<'_>,
) -> Result<TreeNames, NoMemory>
    requires book { signs.now.book ≡ grammar.now.book }
    requires loaded { IsLoaded (grammar_of grammar.now) }
    requires named { IsWellNamed (grammar_of grammar.now) }
    ensures { IfOk result (λ t. t ≡ tree_grammar (signs_of signs.now) (map string_bytes grammar.now.names.items)) }
{
    signs.laws();
    let parts = parts_of(alloc, signs)?;
    TreeNames::new(alloc, &grammar.names, parts)
}
