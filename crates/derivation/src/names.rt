//! Whether a tree's places are those of names.
ghost use Rattle.std.specs.Prelude.{◌↔◌, ◌<◌, IsTrue, All, map};
ghost use Rattle.derivation.specs.Views.{derivation_of, in_order};
ghost use Rattle.derivation.specs.Text.{IsNamed, AreNamed};

use crate::Tree;

/// Tells exactly whether each place of a tree is below the number of names, as `write` asks.
#[cycle(names)]
pub fn is_named(tree: &Tree, count: usize) -> bool
    ensures { IsTrue result ↔ IsNamed count (derivation_of tree.now) }
{
    match tree {
        Tree::Lexical { entry, rules, .. } => (*entry as usize) < count && are_below(rules, count),
        Tree::Phrase {
            rule,
            daughters,
            ..
        } => (*rule as usize) < count && are_named(daughters, count),
    }
}

#[cycle(names)]
fn are_named(daughters: &[Tree], count: usize) -> bool
    ensures { IsTrue result ↔ AreNamed count (in_order (map derivation_of daughters.now)) }
{
    for daughter in daughters {
        if !is_named(daughter, count) {
            return false;
        }
    }
    true
}

fn are_below(rules: &[u32], count: usize) -> bool
    ensures { IsTrue result ↔ All (λ rule. rule < count) rules.now }
{
    rules.iter().all(|rule| (*rule as usize) < count)
}
