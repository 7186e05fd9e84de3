//! Sentences: the texts of trees, each once, in byte order, each with its least tree.
//!
//! Realizations of an MRS are told by their texts: Kay 1996; Carroll, Copestake, Flickinger and Poznanski 1999.

ghost use Rattle.std.specs.Prelude.{map, IfOk};
ghost use Rattle.fs_model.specs.Claims.{Has};
ghost use Rattle.derivation.specs.Views.{derivation_of};
ghost use Rattle.tree_model.specs.Readings.{Rises};
ghost use Rattle.generate_model.specs.Sentences.{AreSentences};
ghost use Rattle.realized_trees.specs.Views.{sentence_seen};

use crate::NoMemory;
use crate::sentences::{by_text, first_of_each, with_texts};
use derivation::Tree;
use std::alloc::Global;

/// A text, the words of a tree from the left joined by one space, with a tree that has it.
#[derive(Debug, Drop)]
pub struct Sentence {
    pub text: String,
    pub tree: Tree,
}

/// The texts of trees that stand in the order of trees: each once, in byte order, each with the least tree that has it.
///
/// Trees with one text stay in order when texts are sorted, so the first of them is the least; no two trees are compared.
pub fn sentences_of(alloc: Global, trees: Vec<Tree>) -> Result<Vec<Sentence>, NoMemory>
    requires { Rises (map derivation_of trees.items) }
    ensures { IfOk result (λ v. AreSentences (λ t. Has t (map derivation_of trees.items)) (map sentence_seen v.items)) }
{
    let mut all = with_texts(alloc, trees)?;
    by_text(&mut all)?;
    first_of_each(&mut all);
    Ok(all)
}
