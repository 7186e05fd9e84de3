//! What a grammar says of words.

ghost use Rattle.std.specs.Prelude.{◌≡◌};
ghost use Rattle.lexical_items.specs.Said.{words_said};
ghost use Rattle.book_signs.specs.Trees.{signs_of, entries_of, lexical_rules_of};
ghost use Rattle.grammar_load.specs.Conditions.{IsLoaded};
ghost use Rattle.grammar_load.specs.Views.{grammar_of};
ghost use Rattle.tree_faults.specs.WordBooks.{IsWordBook, said_by};

use book_signs::SignBook;
use grammar_load::Grammar;
use tree_faults::WordBook;

/// The words of a grammar that is loaded, by the places of its entries and lexical rules among its signs.
pub fn word_book<'a>(grammar: &'a Grammar, signs: &'a SignBook<'_>) -> WordBook<'a>
    requires book { signs.now.book ≡ grammar.now.book }
    requires loaded { IsLoaded (grammar_of grammar.now) }
    ensures whole { IsWordBook result }
    ensures entries { result.entries.now ≡ entries_of (signs_of signs.now) }
    ensures rules { result.rules.now ≡ lexical_rules_of (signs_of signs.now) }
    ensures said { said_by result ≡ words_said (entries_of (signs_of signs.now)) (lexical_rules_of (signs_of signs.now)) grammar.now.lexicon grammar.now.spelling }
{
    signs.laws();
    WordBook {
        entries: signs.entries(),
        rules: signs.lexical_rules(),
        lexicon: &grammar.lexicon,
        spelling: &grammar.spelling,
    }
}
