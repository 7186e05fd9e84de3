//! Laws of signs.

ghost use Rattle.std.specs.Prelude.{List};
ghost use Rattle.type_hierarchy.specs.Table.{TypeTable};
ghost use Rattle.grammar_files.specs.Placings.{PlacedTree};
ghost use Rattle.constraint_expand.specs.declared.books.Book.{Book as BookValue};
ghost use Rattle.constraint_expand.specs.Systems.{Settled};
ghost use Rattle.constraint_expand.specs.Books.{IsBookOf};
ghost use Rattle.lexicon.specs.Words.{Each};
ghost use Rattle.book_shapes.specs.Shapes.{instances_of, HasItsDaughters};
ghost use Rattle.book_signs.specs.Signed.{IsSignsOf, IsOnly};
ghost use Rattle.book_signs.specs.Conditions.{IsWhole};

/// A law: a book whose rules have their daughters has signs, and they are one. It does nothing.
pub fn one_signs()
    ensures { (b : BookValue) → Each (HasItsDaughters b) (instances_of b) → IsOnly (IsSignsOf b) }
{}

/// A law: what statements expand to is whole where its rules have their daughters. It does nothing.
pub fn whole_book()
    ensures { (types : TypeTable) (s : Settled) (ps : List PlacedTree) (b : BookValue) → IsBookOf types s ps b → Each (HasItsDaughters b) (instances_of b) → IsWhole b }
{}
