//! What the files of a grammar load to.

ghost use Rattle.std.specs.Prelude.{◌≤◌, ◌≡◌, map, option_map, IfOk, IfErr, Ok, Err};
ghost use Rattle.lexicon.specs.Words.{Each};
ghost use Rattle.lexicon.specs.Groups.{given_of};
ghost use Rattle.spelling_rules.specs.Trees.{AreBound};
ghost use Rattle.grammar_load.specs.Spellings.{lexical_rules, spellings_of};
ghost use Rattle.grammar_files.specs.Faults.{IsFaultBy};
ghost use Rattle.grammar_files.specs.Walks.{has_failed};
ghost use Rattle.grammar_files.specs.WalkViews.{walked_of, CanSettle};
ghost use Rattle.grammar_load.specs.Expanding.{IsBook};
ghost use Rattle.grammar_files.specs.Views.{read_of};
ghost use Rattle.book_shapes.specs.Shapes.{instances_of, HasItsDaughters, AreEntriesOf};
ghost use Rattle.grammar_load.specs.Loaded.{orth_path, IsGrammarOf};
ghost use Rattle.grammar_load.specs.Loads.{Makes, Loads};
ghost use Rattle.grammar_load.specs.Conditions.{IsLoaded};
ghost use Rattle.grammar_load.specs.Views.{grammar_of};

use crate::grammar::Grammar;
use crate::shapes::{check_daughters, entries_with_words};
use crate::spelling::spelling_of;
use crate::{expand_types, instance_names, settle_types};
use constraint_expand::Book;
use grammar_files::{LoadFault, Read, read_files};
use lexicon::{Lexicon, NoMemory};
use lkb_io::Shelf;
use std::alloc::Global;

// The book of what was read, whose rules have their daughters.
fn book_of(alloc: Global, read: &Read) -> Result<Book, LoadFault>
    requires { CanSettle (walked_of read.now.walked) }
    ensures book { IfOk result (λ b. IsBook (walked_of read.now.walked) b) }
    ensures daughters { IfOk result (λ b. Each (HasItsDaughters b) (instances_of b)) }
    ensures fault { IfErr result (IsFaultBy (λ f. Makes (read_of read.now) (Err f))) }
{
    let types = settle_types(alloc, &read.walked)?;
    let book = expand_types(alloc, &read.walked, types)?;
    check_daughters(alloc, &read.walked, &book)?;
    Ok(book)
}

// The grammar of a book and of its entries with their words.
fn grammar_with(
    alloc: Global,
    read: Read,
    book: Book,
    entries: &[(u32, Vec<String>)],
) -> Result<Grammar, NoMemory>
    requires bound { AreBound (spellings_of (lexical_rules (walked_of read.walked).statements)) }
    requires book { IsBook (walked_of read.walked) book }
    requires daughters { Each (HasItsDaughters book) (instances_of book) }
    requires entries { AreEntriesOf book (orth_path book (walked_of read.walked).settings) (instances_of book) (map given_of entries.now) }
    ensures { IfOk result (λ g. IsGrammarOf (read_of read) (grammar_of g)) }
{
    let lexicon = Lexicon::make(alloc, entries)?;
    let spelling = spelling_of(alloc, &read.walked.statements, &read.irregular)?;
    let names = instance_names(alloc, &read.walked.statements)?;
    Ok(Grammar {
        book,
        lexicon,
        spelling,
        settings: read.walked.settings,
        names,
    })
}

// The grammar of what was read.
fn grammar_of_files(alloc: Global, read: Read) -> Result<Grammar, LoadFault>
    requires settled { CanSettle (walked_of read.walked) }
    requires bound { AreBound (spellings_of (lexical_rules (walked_of read.walked).statements)) }
    ensures grammar { IfOk result (λ g. IsGrammarOf (read_of read) (grammar_of g)) }
    ensures fault { IfErr result (IsFaultBy (λ f. Makes (read_of read) (Err f))) }
{
    let book = book_of(alloc, &read)?;
    let entries = entries_with_words(alloc, &read.walked, &book)?;
    match grammar_with(alloc, read, book, &entries) {
        Ok(grammar) => Ok(grammar),
        Err(_) => Err(LoadFault::NoMemory),
    }
}

/// Loads the grammar whose top file has this name, under the settings of the file of that name, or under the defaults.
///
/// A fault is the first in this order: the settings; the TDL files, depth first from the top one; the irregular forms; types,
/// their completion and their expansion; a rule without its daughters; an entry without words. Of the last two it is the first
/// such instance by place, at its name. A fault of the shelf comes only where the shelf's count of faults rose.
/// What is loaded meets the condition on grammars (`specs/Conditions.antt`).
pub fn load<S: Shelf>(
    alloc: Global,
    shelf: &mut S,
    top: &str,
    settings: Option<&str>,
) -> Result<Grammar, LoadFault>
    ensures grammar { let fails = has_failed (S.faults shelf.old) (S.faults shelf.new) (S.asked shelf.new) in
        IfOk result (λ g. Loads (S.files shelf.old) fails top.now (option_map (λ n. n.now) settings.entry) (Ok (grammar_of g))) }
    ensures fault { let fails = has_failed (S.faults shelf.old) (S.faults shelf.new) (S.asked shelf.new) in
        IfErr result (IsFaultBy (λ f. Loads (S.files shelf.old) fails top.now (option_map (λ n. n.now) settings.entry) (Err f))) }
    ensures loaded { IfOk result (λ g. IsLoaded (grammar_of g)) }
    ensures same { S.files shelf.new ≡ S.files shelf.old }
    ensures no_fall { S.faults shelf.old ≤ S.faults shelf.new }
{
    let read = read_files(alloc, shelf, top, settings)?;
    grammar_of_files(alloc, read)
}
