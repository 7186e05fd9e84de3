//! Trees with their texts, sorted by these, and the first of each run of equal texts.
ghost use Rattle.std.specs.Prelude.{◌≡◌, map, IfOk, OnOk};
ghost use Rattle.derivation.specs.Views.{derivation_of};
ghost use Rattle.realized_trees.specs.Views.{sentence_seen};
ghost use Rattle.realized_trees.specs.TreeInner.{with_text, AreByText, same_text};
ghost use Rattle.std.specs.List.{dedup};

use crate::NoMemory;
use crate::sentence::Sentence;
use crate::text::text;
use derivation::Tree;
use std::alloc::Global;

/// Each tree with its text, in the same order.
pub(crate) fn with_texts(alloc: Global, trees: Vec<Tree>) -> Result<Vec<Sentence>, NoMemory>
    ensures { IfOk result (λ v. map sentence_seen v.items ≡ map with_text (map derivation_of trees.items)) }
{
    let mut all = Vec::with_capacity(alloc, trees.len())?;
    for tree in trees {
        let text = text(alloc, &tree)?;
        all.push(Sentence { text, tree })?;
    }
    Ok(all)
}

/// In byte order of their texts; those with one text stay in the order in which they stand.
pub(crate) fn by_text(all: &mut Vec<Sentence>) -> Result<(), NoMemory>
    ensures { OnOk result (AreByText all.old.items all.new.items) }
{
    all.sort_by(|a, b| a.text.cmp(&b.text))?;
    Ok(())
}

/// Of neighbours with one text only the first stays.
pub(crate) fn first_of_each(all: &mut Vec<Sentence>)
    ensures { all.new.items ≡ dedup same_text all.old.items }
{
    all.dedup_by(|next, first| next.text == first.text);
}
