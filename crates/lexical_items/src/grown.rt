//! The trees of entries under lexical rules.

ghost use Rattle.std.specs.Prelude.{◌≡◌, ◌<◌, ◌+◌, All, ℕ, length, map, IfOk, OnOk, string_bytes};
ghost use Rattle.lexicon.specs.Words.{Has};
ghost use Rattle.lexical_items.specs.Grammars.{IsLexicalGrammar, grammar_seen, grammar_words};
ghost use Rattle.lexical_items.specs.Inflected.{AreInflected};
ghost use Rattle.lexical_items.specs.Places.{place_in};
ghost use Rattle.lexical_items.specs.Inner.Grown.{IsOwn, AreBelow, AddsTrees, TreeIn};
ghost use Rattle.lexical_items.specs.Inner.Routes.{key_of, route_seen};
ghost use Rattle.lexical_items.specs.InflectedViews.{tree_seen};

use crate::entry_words::{front_words, place_of};
use crate::grammar::LexicalGrammar;
use crate::route::Route;
use crate::tree::InflectedTree;
use crate::{LexicalFulls, NoMemory};
use derivation::Tree;
use std::alloc::Global;

// The places of rules.
fn places_of(alloc: Global, places: &[u32], rules: &[u32]) -> Result<Vec<u32>, NoMemory>
    requires { All (λ rule. rule < length places.now) rules.now }
    ensures { IfOk result (λ v. v.items ≡ map (place_in places.now) rules.now) }
{
    let mut out = Vec::with_capacity(alloc, rules.len())?;
    for rule in rules {
        out.push(places[*rule as usize])?;
    }
    Ok(out)
}

// The tree of a route with one of its words.
fn tree_of<F: LexicalFulls>(
    alloc: Global,
    grammar: &LexicalGrammar<'_, F>,
    route: &Route<F::Full>,
    end: &String,
) -> Result<InflectedTree<F::Full>, NoMemory>
    requires grammar { IsLexicalGrammar (grammar_seen F.signs F.entries_of F.rules_of grammar.now) }
    requires route { IsOwn (grammar_seen F.signs F.entries_of F.rules_of grammar.now) (route_seen (F.value grammar.now.fulls.now) route.now) }
    requires end { Has (string_bytes end.now) (map string_bytes route.now.ends.items) }
    ensures { IfOk result (λ x. TreeIn (grammar_seen F.signs F.entries_of F.rules_of grammar.now) (record { key = key_of (route_seen (F.value grammar.now.fulls.now) route.now); end = string_bytes end.now }) (tree_seen (F.value grammar.now.fulls.now) x)) }
{
    let fulls = grammar.fulls;
    let place = place_of(fulls.entries(), route.entry);
    let places = places_of(alloc, fulls.rules(), &route.rules)?;
    let mut said = front_words(alloc, grammar.lexicon, route.entry)?;
    said.push(end.clone()?)?;
    let tree = Tree::lexical(alloc, place, places, said, None)?;
    let full = route.full.clone()?;
    Ok(InflectedTree { tree, full })
}

// Adds the trees of a route.
fn add_trees<F: LexicalFulls>(
    alloc: Global,
    grammar: &LexicalGrammar<'_, F>,
    route: &Route<F::Full>,
    out: &mut Vec<InflectedTree<F::Full>>,
) -> Result<(), NoMemory>
    requires grammar { IsLexicalGrammar (grammar_seen F.signs F.entries_of F.rules_of grammar.now) }
    requires route { IsOwn (grammar_seen F.signs F.entries_of F.rules_of grammar.now) (route_seen (F.value grammar.now.fulls.now) route.now) }
    ensures { OnOk result (AddsTrees (grammar_seen F.signs F.entries_of F.rules_of grammar.now) (F.value grammar.now.fulls.now) (route_seen (F.value grammar.now.fulls.now) route.now) out.old.items out.new.items) }
{
    grammar.fulls.laws();
    for end in &route.ends {
        out.push(tree_of(alloc, grammar, route, end)?)?;
    }
    Ok(())
}

/// The trees of routes, one for each of their words; the routes are all those under some number of rules at most.
pub(crate) fn trees_of<F: LexicalFulls>(
    alloc: Global,
    grammar: &LexicalGrammar<'_, F>,
    routes: &[Route<F::Full>],
) -> Result<Vec<InflectedTree<F::Full>>, NoMemory>
    requires grammar { IsLexicalGrammar (grammar_seen F.signs F.entries_of F.rules_of grammar.now) }
    requires routes { (most : ℕ) × AreBelow (grammar_seen F.signs F.entries_of F.rules_of grammar.now) (F.value grammar.now.fulls.now) (most + 1) routes.now }
    ensures { let g = grammar_seen F.signs F.entries_of F.rules_of grammar.now in
        IfOk result (λ v. (most : ℕ) → AreBelow g (F.value grammar.now.fulls.now) (most + 1) routes.now → AreInflected g.signs (grammar_words g) most (map (tree_seen (F.value grammar.now.fulls.now)) v.items)) }
{
    grammar.fulls.laws();
    let mut out = Vec::new(alloc);
    for route in routes {
        add_trees(alloc, grammar, route, &mut out)?;
    }
    Ok(out)
}
