//! The trees of chains.

ghost use Rattle.std.specs.Prelude.{◌≡◌, ◌<◌, All, IfOk, length, map};
ghost use Rattle.lexical_items.specs.Places.{place_in};
ghost use Rattle.lexical_items.specs.Views.{lexical_seen, lexeme_seen};
ghost use Rattle.lexical_items.specs.Inner.Kept.{IsFullOf, AreKept, AreInside, IsInside, chain_in, lexeme_of};

use crate::{LexTree, LexTrees, LexicalFulls, NoMemory};
use derivation::Tree;
use morph_analysis::{Chain, MadeChain};
use std::alloc::Global;

/// The place of an entry.
pub(crate) fn entry_place<F: LexicalFulls>(fulls: &F, entry: u32) -> u32
    requires { entry < length (F.entries_of fulls.now) }
    ensures { result ≡ place_in (F.entries_of fulls.now) entry }
{
    fulls.entries()[entry as usize]
}

/// The place of a lexical rule.
pub(crate) fn rule_place<F: LexicalFulls>(fulls: &F, rule: u32) -> u32
    requires { rule < length (F.rules_of fulls.now) }
    ensures { result ≡ place_in (F.rules_of fulls.now) rule }
{
    fulls.rules()[rule as usize]
}

// The places of rules.
fn places_of(alloc: Global, places: &[u32], rules: &[u32]) -> Result<Vec<u32>, NoMemory>
    requires { All (λ rule. rule < length places.now) rules.now }
    ensures { IfOk result (λ v. v.items ≡ map (place_in places.now) rules.now) }
{
    let mut out = Vec::with_capacity(alloc, rules.len())?;
    for rule in rules {
        out.push(places[*rule as usize])?;
    }
    Ok(out)
}

// The lexical tree of a chain with its full structure.
fn tree_of<F: LexicalFulls>(
    alloc: Global,
    fulls: &F,
    one: MadeChain<F::Full>,
) -> Result<LexTree<F::Full>, NoMemory>
    requires { IsInside (F.entries_of fulls.now) (F.rules_of fulls.now) (chain_in one) }
    ensures { IfOk result (λ x. lexeme_seen (F.value fulls.now) x ≡ lexeme_of (F.entries_of fulls.now) (F.rules_of fulls.now) (chain_in one) (F.value fulls.now one.made)) }
{
    let MadeChain { chain, made } = one;
    let Chain {
        from,
        to,
        entry,
        rules,
        words,
    } = chain;
    let place = entry_place(fulls, entry);
    let places = places_of(alloc, fulls.rules(), &rules)?;
    let nodes = Some((from, to));
    let tree = Tree::lexical(alloc, place, places, words, nodes)?;
    Ok(LexTree {
        from,
        to,
        tree,
        full: made,
    })
}

/// The trees of chains with their full structures, unless one of these has more than `most` rules.
pub(crate) fn trees_of<F: LexicalFulls>(
    alloc: Global,
    fulls: &F,
    chains: Vec<MadeChain<F::Full>>,
    most: u32,
) -> Result<LexTrees<F::Full>, NoMemory>
    requires inside { AreInside (F.entries_of fulls.now) (F.rules_of fulls.now) (map chain_in chains.items) }
    requires full { All (λ x. IsFullOf (F.signs fulls.now) (F.entries_of fulls.now) (F.rules_of fulls.now) (chain_in x) (F.value fulls.now x.made)) chains.items }
    ensures { IfOk result (λ trees. AreKept (F.signs fulls.now) (F.entries_of fulls.now) (F.rules_of fulls.now) most (map chain_in chains.items) (lexical_seen (F.value fulls.now) trees)) }
{
    let mut trees = Vec::with_capacity(alloc, chains.len())?;
    for one in chains {
        if one.chain.rules.len() > most as usize {
            return Ok(LexTrees::TooDeep);
        }
        trees.push(tree_of(alloc, fulls, one)?)?;
    }
    Ok(LexTrees::Trees(trees))
}
