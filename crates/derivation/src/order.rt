//! The order of trees.
ghost use Rattle.std.specs.Prelude.{◌≡◌, ◌↔◌, IsTrue, map};
ghost use Rattle.std.specs.Cmp.{IsTotalOrder};
ghost use Rattle.std.specs.declared.cmp.Ordering.TheVariants.{Equal};
ghost use Rattle.derivation.specs.Trees.{Derivation};
ghost use Rattle.std.specs.Option.{option_cmp};
ghost use Rattle.std.specs.String.{string_bytes};
ghost use Rattle.std.specs.Cmp.Lexicographic.{slice_cmp};
ghost use Rattle.std.specs.Ordering.{nat_cmp, on, ordering_then};
ghost use Rattle.derivation.specs.Views.{derivation_of};
ghost use Rattle.derivation.specs.Order.{compare_trees, compare_pairs, inwards, outermost};
ghost use Rattle.derivation.specs.Counts.{word_count_of};
ghost use Rattle.derivation.specs.Counted.{IsCounted, AreCounted};

use crate::Tree;
use crate::counts::compare_word_counts;
use std::cmp::Ordering;
use std::iter;

/// The order of trees. Two trees compare by the place of their outermost node, and a lexical tree comes before a phrase of the same place.
/// Two lexical trees then compare inwards, node by node, then by their words, and last by their nodes, none first.
/// Two phrases of one rule then compare by the word counts of their daughters from the left, then by their daughters from the left.
/// A list comes before a longer one that it begins. It takes no memory, and counts words by walking.
pub fn compare(tree: &Tree, other: &Tree) -> Ordering
    ensures { result ≡ compare_trees (derivation_of tree.now) (derivation_of other.now) }
{
    compare_by(tree, other, false)
}

/// The order of trees, as `compare` gives it, of two whose phrases hold the numbers of their words, as those do that `Tree::phrase` made of such daughters.
/// It takes no memory, and counts no words.
pub fn compare_counted(tree: &Tree, other: &Tree) -> Ordering
    requires tree { IsCounted tree.now }
    requires other { IsCounted other.now }
    ensures { result ≡ compare_trees (derivation_of tree.now) (derivation_of other.now) }
{
    compare_by(tree, other, true)
}

/// The order of trees; where `counted`, by the numbers of words that phrases hold.
#[cycle(order)]
fn compare_by(tree: &Tree, other: &Tree, counted: bool) -> Ordering
    requires { IsTrue counted → IsCounted tree.now × IsCounted other.now }
    ensures { result ≡ compare_trees (derivation_of tree.now) (derivation_of other.now) }
{
    match tree {
        Tree::Lexical {
            entry,
            rules,
            words,
            nodes,
        } => match other {
            Tree::Lexical {
                entry: other_entry,
                rules: other_rules,
                words: other_words,
                nodes: other_nodes,
            } => {
                compare_inwards(*entry, rules, *other_entry, other_rules)
                    .then(compare_words(words, other_words))
                    .then(compare_nodes(*nodes, *other_nodes))
            }
            Tree::Phrase { rule, .. } => outermost(*entry, rules).cmp(rule).then(Ordering::Less),
        },
        Tree::Phrase {
            rule,
            daughters,
            ..
        } => match other {
            Tree::Lexical { entry, rules, .. } => rule
                .cmp(&outermost(*entry, rules))
                .then(Ordering::Greater),
            Tree::Phrase {
                rule: other_rule,
                daughters: others,
                ..
            } => match rule.cmp(other_rule) {
                Ordering::Equal => compare_daughters(daughters, others, counted),
                differ => differ,
            },
        },
    }
}

/// By their word counts, and then in turn.
#[cycle(order)]
fn compare_daughters(daughters: &[Tree], others: &[Tree], counted: bool) -> Ordering
    requires { IsTrue counted → AreCounted daughters.now × AreCounted others.now }
    ensures { result ≡ ordering_then (slice_cmp (on word_count_of nat_cmp) daughters.now others.now)
        (slice_cmp (on derivation_of compare_trees) daughters.now others.now) }
{
    match compare_counts(daughters, others, counted) {
        Ordering::Equal => compare_in_turn(daughters, others, counted),
        differ => differ,
    }
}

/// By their word counts, from the left.
fn compare_counts(daughters: &[Tree], others: &[Tree], counted: bool) -> Ordering
    requires { IsTrue counted → AreCounted daughters.now × AreCounted others.now }
    ensures { result ≡ slice_cmp (on word_count_of nat_cmp) daughters.now others.now }
{
    for (daughter, other) in daughters.iter().zip(others) {
        match compare_word_counts(daughter, other, counted) {
            Ordering::Equal => {}
            differ => return differ,
        }
    }
    daughters.len().cmp(&others.len())
}

/// By the daughters themselves, from the left.
#[cycle(order)]
fn compare_in_turn(trees: &[Tree], others: &[Tree], counted: bool) -> Ordering
    requires { IsTrue counted → AreCounted trees.now × AreCounted others.now }
    ensures { result ≡ slice_cmp (on derivation_of compare_trees) trees.now others.now }
{
    for (tree, other) in trees.iter().zip(others) {
        match compare_by(tree, other, counted) {
            Ordering::Equal => {}
            differ => return differ,
        }
    }
    trees.len().cmp(&others.len())
}

/// The last rule, or the entry where there is none.
fn outermost(entry: u32, rules: &[u32]) -> u32
    ensures { result ≡ outermost entry rules.now }
{
    rules.last().copied().unwrap_or(entry)
}

/// Two lexical trees from their outermost node in to the entry.
fn compare_inwards(entry: u32, rules: &[u32], other_entry: u32, other_rules: &[u32]) -> Ordering
    ensures { result ≡ slice_cmp nat_cmp (inwards entry rules.now) (inwards other_entry other_rules.now) }
{
    let inwards = rules.iter().rev().copied().chain(iter::once(entry));
    inwards.cmp(
        other_rules
            .iter()
            .rev()
            .copied()
            .chain(iter::once(other_entry)),
    )
}

/// Their words, by bytes.
fn compare_words(words: &[String], others: &[String]) -> Ordering
    ensures { result ≡ slice_cmp (slice_cmp nat_cmp) (map string_bytes words.now) (map string_bytes others.now) }
{
    words.cmp(others)
}

/// Their nodes, none first.
fn compare_nodes(nodes: Option<(u32, u32)>, others: Option<(u32, u32)>) -> Ordering
    ensures { result ≡ option_cmp compare_pairs nodes others }
{
    nodes.cmp(&others)
}

/// The order of trees is total, and two trees that compare as equal are equal.
pub fn order_is_total()
    ensures total { IsTotalOrder compare_trees }
    ensures equal { (a b : Derivation) → (compare_trees a b ≡ Equal) ↔ (a ≡ b) }
{}
