//! How many words trees have, and which of two has more.
ghost use Rattle.std.specs.Prelude.{◌≡◌, ◌+◌, IsTrue};
ghost use Rattle.std.specs.Ordering.{nat_cmp};
ghost use Rattle.derivation.specs.Views.{derivation_of};
ghost use Rattle.derivation.specs.Order.{word_count};
ghost use Rattle.derivation.specs.Counts.{words_left, word_count_of, words_of};
ghost use Rattle.derivation.specs.Counted.{held, IsCounted, AreCounted};

use crate::Tree;
use std::cmp::Ordering;
use std::slice;

/// What is still to be counted: some trees, and then what stands behind them.
#[derive(Clone, Copy)]
enum Left<'a> {
    Nothing,
    Trees(&'a [Tree], &'a Left<'a>),
}

/// The number of words of a tree, by what it holds.
fn count_of(tree: &Tree) -> u64
    ensures { IsCounted tree.now → result ≡ held (word_count_of tree.now) }
{
    match tree {
        Tree::Lexical { words, .. } => words.len() as u64,
        Tree::Phrase { words, .. } => *words,
    }
}

/// The number of words of these trees, by what they hold.
pub fn count_of_all(trees: &[Tree]) -> u64
    ensures { AreCounted trees.now → result ≡ held (words_of trees.now) }
{
    let mut count: u64 = 0;
    for tree in trees {
        let words = count_of(tree);
        let more = count.saturating_add(words);
        count = more;
    }
    count
}

/// The tree with fewer words comes first. Where `counted` the numbers that they hold tell it; otherwise, and where both are as great as can be,
/// words are matched against words and not added up, since a sum might not fit.
pub fn compare_word_counts(tree: &Tree, other: &Tree, counted: bool) -> Ordering
    requires { IsTrue counted → IsCounted tree.now × IsCounted other.now }
    ensures { result ≡ nat_cmp (word_count (derivation_of tree.now)) (word_count (derivation_of other.now)) }
{
    let most = u64::MAX;
    if counted {
        let count = count_of(tree);
        let other_count = count_of(other);
        if count < most {
            return count.cmp(&other_count);
        }
        if other_count < most {
            return Ordering::Greater;
        }
    }
    match_words(tree, other)
}

/// The tree with fewer words comes first, word by word.
fn match_words(tree: &Tree, other: &Tree) -> Ordering
    ensures { result ≡ nat_cmp (word_count (derivation_of tree.now)) (word_count (derivation_of other.now)) }
{
    let nothing = Left::Nothing;
    owe(
        &Left::Trees(slice::from_ref(tree), &nothing),
        &Left::Trees(slice::from_ref(other), &nothing),
    )
}

/// Compares the words of the first with those of the second.
#[cycle(walk)]
fn owe(left: &Left, other: &Left) -> Ordering
    ensures { result ≡ nat_cmp (words_left left.now) (words_left other.now) }
{
    match left {
        Left::Nothing => match other {
            Left::Nothing => Ordering::Equal,
            Left::Trees(_, _) => owe(other, left).reverse(),
        },
        Left::Trees(trees, behind) => match trees.split_first() {
            None => owe(behind, other),
            Some((Tree::Lexical { words, .. }, more)) => pay(
                words.len(),
                &Left::Trees(more, behind),
                other,
            ),
            Some((Tree::Phrase { daughters, .. }, more)) => {
                let more = Left::Trees(more, behind);
                owe(&Left::Trees(daughters, &more), other)
            }
        },
    }
}

/// Compares the words owed and those of the first with those of the second.
#[cycle(walk)]
fn pay(owed: usize, left: &Left, other: &Left) -> Ordering
    ensures { result ≡ nat_cmp (owed + words_left left.now) (words_left other.now) }
{
    if owed == 0 {
        return owe(left, other);
    }
    match other {
        Left::Nothing => Ordering::Greater,
        Left::Trees(trees, behind) => match trees.split_first() {
            None => pay(owed, left, behind),
            Some((Tree::Lexical { words, .. }, more)) => {
                let more = Left::Trees(more, behind);
                if words.len() <= owed {
                    pay(owed - words.len(), left, &more)
                } else {
                    pay(words.len() - owed, &more, left).reverse()
                }
            }
            Some((Tree::Phrase { daughters, .. }, more)) => {
                let more = Left::Trees(more, behind);
                pay(owed, left, &Left::Trees(daughters, &more))
            }
        },
    }
}
