//! Whether a tree is licensed, and if not, why not.

ghost use Rattle.std.specs.Prelude.{◌↔◌, IfOk, IsTrue, length};
ghost use Rattle.derivation.specs.Views.{derivation_of};
ghost use Rattle.tree_model.specs.Trees.{LeavesAre, Full, IsRooted};
ghost use Rattle.book_signs.specs.Trees.{signs_of};
ghost use Rattle.rule_trees.specs.Mothers.{IsMade, view_in};
ghost use Rattle.tree_structures.specs.Formed.{IsFormed};
ghost use Rattle.tree_faults.specs.Explained.{IsExplained};
ghost use Rattle.tree_faults.specs.Views.{explanation_of, IsExplainedNamed};
ghost use Rattle.tree_faults.specs.WordBooks.{IsWordBook, IsNumbered, said_by};

use crate::NoMemory;
use crate::misspelled::{Misspelled, first_misspelled};
use crate::structures::{Found, structure_of};
use crate::word_book::WordBook;
use book_signs::SignBook;
use derivation::Tree;
use fs_graph::Feat;
use fs_unify::Scratch;
use rule_trees::{FullStructure, rooted};
use std::alloc::Global;
use type_hierarchy::Ty;

/// Whether a tree is licensed, and if not, why not. The place of a node is a daughter's number, from 1, for each step from the root.
#[derive(Debug, Drop)]
pub enum Explanation {
    /// Each node has its structure, each lexical tree spells its words, and some root unifies.
    Licensed,
    /// This node is the first without a structure: its parts force both types at this path, which have no common subtype.
    Clashes {
        place: Vec<usize>,
        instance: u32,
        path: Vec<Feat>,
        first: Ty,
        second: Ty,
    },
    /// This node is the first without a structure: its parts force a path that is too long, and no such types.
    GoesTooFar {
        place: Vec<usize>,
        instance: u32,
        path: Vec<Feat>,
    },
    /// Each node has its structure, and this one is the first that doesn't spell the words.
    Misspelled {
        place: Vec<usize>,
        instance: u32,
    },
    /// Each node has its structure, each lexical tree spells its words, and no root unifies.
    Unrooted,
}

// What explains a tree that has a structure.
fn judged(
    alloc: Global,
    work: &mut Scratch,
    signs: &SignBook<'_>,
    book: &WordBook<'_>,
    tree: &Tree,
    full: &FullStructure,
) -> Result<Explanation, NoMemory>
    requires book { IsWordBook book.now }
    requires numbered { LeavesAre (IsNumbered book.now) (derivation_of tree.now) }
    requires full { Full (signs_of signs.now) (derivation_of tree.now) (view_in signs.now full.now.graph) }
    ensures explained { IfOk result (λ e. IsExplained (signs_of signs.now) (said_by book.now) (derivation_of tree.now) (explanation_of e)) }
    ensures named { IfOk result (λ e. IsExplainedNamed signs.now.book.system.types (length signs.now.book.system.introducers) (length (signs_of signs.now).instances) (explanation_of e)) }
{
    signs.laws();
    if let Some(fault) = first_misspelled(alloc, book, tree)? {
        let Misspelled { place, instance } = fault;
        return Ok(Explanation::Misspelled { place, instance });
    }
    if rooted(alloc, work, signs, full)? {
        Ok(Explanation::Licensed)
    } else {
        Ok(Explanation::Unrooted)
    }
}

/// Whether a tree is licensed, and if not, why not: the first node without a structure, in the order of nodes, daughters before mothers
/// and from the left, with what its parts force; else the first that doesn't spell the words; else that no root unifies (Copestake 2002).
/// Each place in the tree is that of an entry or a rule with as many daughters as stand there, and the lexical trees are of the book's
/// entries and lexical rules. Whatever the scratch holds, the answer is the same.
pub fn explained<'a>(
    alloc: Global,
    work: &mut Scratch,
    signs: &'a SignBook<'a>,
    book: &WordBook<'_>,
    tree: &Tree,
) -> Result<Explanation, NoMemory>
    requires book { IsWordBook book.now }
    requires formed { IsFormed (signs_of signs.now) (derivation_of tree.now) }
    requires numbered { LeavesAre (IsNumbered book.now) (derivation_of tree.now) }
    ensures explained { IfOk result (λ e. IsExplained (signs_of signs.now) (said_by book.now) (derivation_of tree.now) (explanation_of e)) }
    ensures named { IfOk result (λ e. IsExplainedNamed signs.now.book.system.types (length signs.now.book.system.introducers) (length (signs_of signs.now).instances) (explanation_of e)) }
{
    match structure_of(alloc, work, signs, tree)? {
        Found::Fault(explanation) => Ok(explanation),
        Found::Full(full) => judged(alloc, work, signs, book, tree, &full),
    }
}
