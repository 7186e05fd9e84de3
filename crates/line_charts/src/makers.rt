//! How the makers of a class stand in order.

ghost use Rattle.std.specs.Prelude.{◌≡◌};
ghost use Rattle.derivation.specs.Views.{derivation_of};
ghost use Rattle.line_charts.specs.Charts.{compare_makers, place_of};
ghost use Rattle.line_charts.specs.Views.{maker_of};

use crate::Maker;
use derivation::{Tree, compare};
use std::cmp::Ordering;

// The place of the outermost node of a tree.
fn place_of(tree: &Tree) -> u32
    ensures { result ≡ place_of (derivation_of tree.now) }
{
    match tree {
        Tree::Lexical { entry, rules, .. } => rules.last().copied().unwrap_or(*entry),
        Tree::Phrase { rule, .. } => *rule,
    }
}

/// In the order of trees: by the place of the outermost node, a lexical tree first; then two lexical trees as trees, and two of one rule by the
/// numbers of their classes from the left. It takes no memory.
pub(crate) fn compare_makers(maker: &Maker, other: &Maker) -> Ordering
    ensures { result ≡ compare_makers (maker_of maker.now) (maker_of other.now) }
{
    match maker {
        Maker::Tree(tree) => match other {
            Maker::Tree(other_tree) => compare(tree, other_tree),
            Maker::Rule { place, .. } => place_of(tree).cmp(place).then(Ordering::Less),
        },
        Maker::Rule { place, classes } => match other {
            Maker::Tree(tree) => place.cmp(&place_of(tree)).then(Ordering::Greater),
            Maker::Rule {
                place: other_place,
                classes: others,
            } => match place.cmp(other_place) {
                Ordering::Equal => classes.cmp(others),
                differ => differ,
            },
        },
    }
}
