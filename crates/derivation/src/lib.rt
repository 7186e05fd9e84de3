//! Derivation trees: what they stand for, their total order and their text.
#![tactic(auto)]

ghost use Rattle.std.specs.Prelude.{◌≡◌, map, IfOk};
ghost use Rattle.std.specs.String.{string_bytes};
ghost use Rattle.derivation.specs.Trees.{lexical, phrase};
ghost use Rattle.derivation.specs.Views.{derivation_of, in_order};
ghost use Rattle.derivation.specs.Counted.{IsCounted, AreCounted};

mod counts;
mod names;
mod order;
mod text;

use counts::count_of_all;
pub use names::is_named;
pub use order::{compare, compare_counted, order_is_total};
pub use std::alloc::AllocError as NoMemory;
use std::alloc::Global;
use std::sync::Arc;
pub use text::write;

/// A derivation of some words (Copestake 2002: the parse tree of a sentence).
/// An instance of the grammar, an entry or a rule, is named by its place: its number in order of reading, from 0.
#[derive(Debug, Drop)]
pub enum Tree {
    /// An entry under lexical rules, from the inside out, with the words that it spells.
    /// In a lattice `nodes` are those at which the words begin and end.
    Lexical {
        entry: u32,
        rules: Arc<Vec<u32>>,
        words: Arc<Vec<String>>,
        nodes: Option<(u32, u32)>,
    },
    /// A phrase rule over its daughters, from the left.
    /// `words` is the number of words that it spells, or the greatest number there is where they are more; the tree that it stands for says nothing of it.
    Phrase {
        rule: u32,
        words: u64,
        daughters: Arc<Vec<Tree>>,
    },
}

impl Tree {
    /// The lexical tree of an entry under these rules, from the inside out; `NoMemory` where that is wanting.
    pub fn lexical(
        alloc: Global,
        entry: u32,
        rules: Vec<u32>,
        words: Vec<String>,
        nodes: Option<(u32, u32)>,
    ) -> Result<Tree, NoMemory>
        ensures is { IfOk result (λ tree. derivation_of tree ≡ lexical entry rules.items (map string_bytes words.items) nodes) }
        ensures counted { IfOk result IsCounted }
    {
        let rules = Arc::new(alloc, rules)?;
        let words = Arc::new(alloc, words)?;
        Ok(Tree::Lexical {
            entry,
            rules,
            words,
            nodes,
        })
    }

    /// The phrase of a rule over these daughters, from the left; `NoMemory` where that is wanting.
    pub fn phrase(alloc: Global, rule: u32, daughters: Vec<Tree>) -> Result<Tree, NoMemory>
        ensures is { IfOk result (λ tree. derivation_of tree ≡ phrase rule (in_order (map derivation_of daughters.items))) }
        ensures counted { AreCounted daughters.items → IfOk result IsCounted }
    {
        let words = count_of_all(&daughters);
        let daughters = Arc::new(alloc, daughters)?;
        Ok(Tree::Phrase {
            rule,
            words,
            daughters,
        })
    }

    /// The same tree once more. It shares what stands below the outermost node, so its cost doesn't grow with the tree.
    pub fn copy(&self) -> Result<Tree, NoMemory>
        ensures is { IfOk result (λ tree. derivation_of tree ≡ derivation_of self.now) }
        ensures counted { IsCounted self.now → IfOk result IsCounted }
    {
        match self {
            Tree::Lexical {
                entry,
                rules,
                words,
                nodes,
            } => Ok(Tree::Lexical {
                entry: *entry,
                rules: rules.clone()?,
                words: words.clone()?,
                nodes: *nodes,
            }),
            Tree::Phrase {
                rule,
                words,
                daughters,
            } => Ok(Tree::Phrase {
                rule: *rule,
                words: *words,
                daughters: daughters.clone()?,
            }),
        }
    }
}
