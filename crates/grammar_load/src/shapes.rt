//! The shapes of a grammar's instances, or their first fault.

ghost use Rattle.std.specs.Prelude.{map, IfOk, IfErr};
ghost use Rattle.type_hierarchy.specs.Decls.{texts};
ghost use Rattle.constraint_expand.specs.Books.{feature_named};
ghost use Rattle.lexicon.specs.Words.{Each};
ghost use Rattle.lexicon.specs.Groups.{given_of};
ghost use Rattle.grammar_files.specs.Faults.{IsFaultBy};
ghost use Rattle.grammar_files.specs.WalkViews.{walked_of};
ghost use Rattle.grammar_load.specs.Expanding.{IsBook};
ghost use Rattle.book_shapes.specs.Shapes.{instances_of, HasItsDaughters, AreReadable, AreFound, AreEntriesOf};
ghost use Rattle.grammar_load.specs.Loaded.{orth_path};
ghost use Rattle.grammar_load.specs.Loads.{IsShapeFault};

use crate::misshapen::shape_fault;
use book_shapes::laws::readable;
use book_shapes::{Entries, entries_of, features, first_without_daughters};
use constraint_expand::Book;
use grammar_files::{LoadFault, Walked, Why};
use lexicon::NoMemory;
use std::alloc::Global;

/// Whether each rule has its daughters; the first that hasn't is a fault.
pub(crate) fn check_daughters(alloc: Global, walked: &Walked, book: &Book) -> Result<(), LoadFault>
    requires { IsBook (walked_of walked.now) book.now }
    ensures daughters { IfOk result (λ _. Each (HasItsDaughters book.now) (instances_of book.now)) }
    ensures fault { IfErr result (IsFaultBy (IsShapeFault (walked_of walked.now) book.now)) }
{
    readable();
    let Ok(place) = first_without_daughters(alloc, book) else {
        return Err(LoadFault::NoMemory);
    };
    if place < book.instances.len() {
        return Err(shape_fault(alloc, walked, place, Why::Arity));
    }
    Ok(())
}

// The entries of a book with their words, which stand at a path of features, or the first entry without words.
fn found_entries(alloc: Global, book: &Book, path: &Vec<String>) -> Result<Entries, NoMemory>
    requires { AreReadable book.now }
    ensures { IfOk result (AreFound book.now (map (feature_named (texts book.now.feats.items)) (texts path.now.items))) }
{
    let orth = features(alloc, &book.feats, path)?;
    let entries = entries_of(alloc, book, &orth)?;
    Ok(entries)
}

/// The entries of a book, whose rules have their daughters, with their words; the first entry without words is a fault.
pub(crate) fn entries_with_words(
    alloc: Global,
    walked: &Walked,
    book: &Book,
) -> Result<Vec<(u32, Vec<String>)>, LoadFault>
    requires book { IsBook (walked_of walked.now) book.now }
    requires daughters { Each (HasItsDaughters book.now) (instances_of book.now) }
    ensures entries { IfOk result (λ v. AreEntriesOf book.now (orth_path book.now (walked_of walked.now).settings) (instances_of book.now) (map given_of v.items)) }
    ensures fault { IfErr result (IsFaultBy (IsShapeFault (walked_of walked.now) book.now)) }
{
    readable();
    match found_entries(alloc, book, &walked.settings.orth_path) {
        Ok(Entries::Given(entries)) => Ok(entries),
        Ok(Entries::Without(place)) => Err(shape_fault(alloc, walked, place, Why::Orthography)),
        Err(_) => Err(LoadFault::NoMemory),
    }
}
