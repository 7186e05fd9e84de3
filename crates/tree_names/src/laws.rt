//! What holds of trees that are written with the names of a grammar.

ghost use Rattle.tree_names.specs.Laws.{WrittenAreFormed, WrittenAreNumbered, WrittenAreNamed};

/// A law: a tree that is written with the names of a grammar has entries and rules at its places, each phrase rule over as many daughters
/// as it has (`formed`); its entries and lexical rules are among those that a book of the grammar's words numbers (`numbered`); and each
/// place in it has a name (`named`). It does nothing.
pub fn written_trees()
    ensures formed { WrittenAreFormed }
    ensures numbered { WrittenAreNumbered }
    ensures named { WrittenAreNamed }
{}
