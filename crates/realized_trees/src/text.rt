//! The text of a tree.
ghost use Rattle.std.specs.Prelude.{◌≡◌, ◌∷◌, ◌++◌, map, IfOk, OnOk};
ghost use Rattle.std.specs.String.{string_bytes};
ghost use Rattle.derivation.specs.Views.{derivation_of, in_order};
ghost use Rattle.generate_model.specs.Sentences.{yield, yields, text_of};
ghost use Rattle.realized_trees.specs.TreeInner.{said, spaced};

use crate::NoMemory;
use derivation::Tree;
use std::alloc::Global;

/// One word more behind those of a line; there is no line as long as there is no word.
fn put_word(alloc: Global, line: &mut Option<String>, word: &str) -> Result<(), NoMemory>
    ensures { OnOk result (said line.new ≡ said line.old ++ 32 ∷ word.now) }
{
    match line {
        None => {
            let first = String::from_str(alloc, word)?;
            *line = Some(first);
        }
        Some(text) => {
            text.push(' ')?;
            text.push_str(word)?;
        }
    }
    Ok(())
}

fn put_words(alloc: Global, line: &mut Option<String>, words: &[String]) -> Result<(), NoMemory>
    ensures { OnOk result (said line.new ≡ said line.old ++ spaced (map string_bytes words.now)) }
{
    for word in words {
        put_word(alloc, line, word.as_str())?;
    }
    Ok(())
}

#[cycle(trees)]
fn put_tree(alloc: Global, line: &mut Option<String>, tree: &Tree) -> Result<(), NoMemory>
    ensures { OnOk result (said line.new ≡ said line.old ++ spaced (yield (derivation_of tree.now))) }
{
    match tree {
        Tree::Lexical { words, .. } => put_words(alloc, line, words),
        Tree::Phrase { daughters, .. } => put_trees(alloc, line, daughters),
    }
}

#[cycle(trees)]
fn put_trees(alloc: Global, line: &mut Option<String>, trees: &[Tree]) -> Result<(), NoMemory>
    ensures { OnOk result (said line.new ≡ said line.old ++ spaced (yields (in_order (map derivation_of trees.now)))) }
{
    for tree in trees {
        put_tree(alloc, line, tree)?;
    }
    Ok(())
}

/// The words of a tree from the left, joined by one space.
pub(crate) fn text(alloc: Global, tree: &Tree) -> Result<String, NoMemory>
    ensures { IfOk result (λ text. string_bytes text ≡ text_of (derivation_of tree.now)) }
{
    let mut line = None;
    put_tree(alloc, &mut line, tree)?;
    let text = line.unwrap_or(String::new(alloc));
    Ok(text)
}
