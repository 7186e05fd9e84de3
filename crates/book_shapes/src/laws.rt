//! Laws of books.

ghost use Rattle.std.specs.Prelude.{List};
ghost use Rattle.type_hierarchy.specs.Table.{TypeTable};
ghost use Rattle.grammar_files.specs.Placings.{PlacedTree};
ghost use Rattle.constraint_expand.specs.declared.books.Book.{Book as BookValue};
ghost use Rattle.constraint_expand.specs.Systems.{Settled};
ghost use Rattle.constraint_expand.specs.Books.{IsBookOf};
ghost use Rattle.book_shapes.specs.Shapes.{AreReadable};

/// The lists of a book that statements expand to can be read: its instances are structures of its types, and no path of them is
/// longer than the limit.
pub fn readable()
    ensures { (types : TypeTable) (s : Settled) (ps : List PlacedTree) (b : BookValue) → IsBookOf types s ps b → AreReadable b }
{}
