//! The leaves for an input.

ghost use Rattle.std.specs.Prelude.{◌≡◌, ◌≤◌, ℕ, true, Option, map, IfOk, string_bytes};
ghost use Rattle.chart_model.specs.declared.counts.Counts.{Counts as CountsValue};
ghost use Rattle.derivation.specs.Views.{derivation_of};
ghost use Rattle.tree_model.specs.Lexical.{Words, rule_count};
ghost use Rattle.generate_model.specs.Bags.{all_among, empties};
ghost use Rattle.generate_model.specs.Contributions.{Input, asked_of};
ghost use Rattle.book_signs.specs.Trees.{SignTree, signs_of};
ghost use Rattle.generated_leaves.specs.Leaves.{IsGenLexical};
ghost use Rattle.generated_leaves.specs.Views.{AreAsked, told_seen, leaf_seen, leaves_seen};
ghost use Rattle.generated_leaves.specs.Inner.Picking.{fit_of, leaf_at, IsPicked};

use crate::NoMemory;
use crate::leaf::GenLeaf;
use crate::tree::ToldTree;
use chart_model::Counts;
use derivation::Tree;
use generate_model::Bag;
use std::alloc::Global;

/// What is found of the lexical trees for an input.
#[derive(Drop)]
pub enum GenLeaves {
    /// the predicates of one with exactly one rule more than the limit lie within the input's
    TooDeep,
    /// those of none do, and these are the leaves
    Leaves(Vec<GenLeaf>),
}

// What a lexical tree is for an input.
enum Fit {
    Not,
    Deep,
    Leaf,
}

// How many rules stand over the entry of a lexical tree.
fn rules_of(tree: &Tree) -> usize
    ensures { result ≡ rule_count (derivation_of tree.now) }
{
    match tree {
        Tree::Lexical { rules, .. } => rules.len(),
        Tree::Phrase { .. } => 0,
    }
}

// How many empty words a tree with these predicates is: one without any is one.
fn empties_of(preds: &[String]) -> u32
    ensures { result ≡ empties (map string_bytes preds.now) }
{
    if preds.is_empty() { 1 } else { 0 }
}

// A tree whose predicates lie within the input's is too deep or, with as many empty words as may be, a leaf. Takes no memory.
fn fitting(one: &ToldTree, bag: &Bag, most: u32, empty: u32) -> Fit
    ensures { result ≡ fit_of bag.now most empty (derivation_of one.now.tree) (map string_bytes one.now.preds.items) }
{
    if !bag.holds(&one.preds) {
        return Fit::Not;
    }
    if rules_of(&one.tree) > most as usize {
        return Fit::Deep;
    }
    if empties_of(&one.preds) > empty {
        return Fit::Not;
    }
    Fit::Leaf
}

// A tree as a leaf.
fn leaf_of(alloc: Global, one: &ToldTree, bag: &Bag) -> Result<GenLeaf, NoMemory>
    requires { all_among (map string_bytes one.now.preds.items) bag.now.places ≡ true }
    ensures { (t : SignTree) → IfOk result (λ l. leaf_seen t l ≡ leaf_at bag.now (told_seen t one.now)) }
{
    let empty = empties_of(&one.preds);
    let Some(cover) = bag.counted(alloc, &one.preds, empty)? else {
        unreachable!()
    };
    Ok(GenLeaf {
        tree: one.tree.copy()?,
        cover,
        full: one.full.clone()?,
    })
}

// The leaves among told trees, or that one of them is too deep.
fn pick(
    alloc: Global,
    told: &[ToldTree],
    bag: &Bag,
    most: u32,
    empty: u32,
) -> Result<GenLeaves, NoMemory>
    ensures { (t : SignTree) → IfOk result (λ found. IsPicked bag.now most empty (map (told_seen t) told.now) (leaves_seen t found)) }
{
    let mut leaves = Vec::new(alloc);
    for one in told {
        match fitting(one, bag, most, empty) {
            Fit::Not => {}
            Fit::Deep => return Ok(GenLeaves::TooDeep),
            Fit::Leaf => leaves.push(leaf_of(alloc, one, bag)?)?,
        }
    }
    Ok(GenLeaves::Leaves(leaves))
}

/// The leaves for an input: `bag` is that of its predicates, and `bound` the bound of covers, with the number of empty words that may be.
/// `told` has the lexical trees of at most one rule more than `most`.
///
/// The answer is `TooDeep` exactly where the predicates of one of these with `most + 1` rules lie within the input's, whatever number of
/// empty words may be. Neither what rules contribute nor where they do enters. A tree that is no leaf takes no memory.
pub fn leaves_of(
    alloc: Global,
    told: &[ToldTree],
    bag: &Bag,
    bound: &Counts,
    most: u32,
) -> Result<GenLeaves, NoMemory>
    ensures { (t : SignTree) (words : Words) (input : Input) (own : ℕ → Option CountsValue) → AreAsked t words input most told.now bag.now →
        IfOk result (λ found. IsGenLexical (signs_of t) words (asked_of (signs_of t) input) most bound.now.empty own (leaves_seen t found)) }
{
    pick(alloc, told, bag, most, bound.empty)
}
