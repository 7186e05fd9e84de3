//! The lexical trees of a grammar: its entries under lexical rules, inflected outwards, without a line that they are to stand in.
//!
//! Lexical rules with orthography: Copestake 2002. Generation from a lexicon: Carroll, Copestake, Flickinger and Poznanski 1999.

ghost use Rattle.std.specs.Prelude.{map, IfOk};
ghost use Rattle.spelling_rules.specs.Trees.{AreBound};
ghost use Rattle.lexical_items.specs.Grammars.{IsLexicalGrammar, grammar_seen, grammar_words};
ghost use Rattle.lexical_items.specs.Inflected.{AreInflected};
ghost use Rattle.lexical_items.specs.InflectedViews.{tree_seen};

use crate::grammar::LexicalGrammar;
use crate::grown::trees_of;
use crate::routes::all_routes;
use crate::tree::InflectedTree;
use crate::{LexicalFulls, NoMemory};
use std::alloc::Global;

/// The lexical trees of a grammar with at most `most` rules, each once, with their full structures.
///
/// They stand for no line and have no nodes. A chain with two words, by irregular forms, is two trees. The trees are
/// made outwards from each entry, rule by rule: what no rule has a form for isn't unified, and what has no full structure isn't gone on
/// from. More entries or rules than a `u32` can number count as want of memory.
pub fn inflected_trees<F: LexicalFulls>(
    alloc: Global,
    grammar: &LexicalGrammar<'_, F>,
    work: &mut F::Work,
    most: u32,
) -> Result<Vec<InflectedTree<F::Full>>, NoMemory>
    requires grammar { IsLexicalGrammar (grammar_seen F.signs F.entries_of F.rules_of grammar.now) }
    requires bound { AreBound grammar.now.spelling.now.rules }
    ensures { let g = grammar_seen F.signs F.entries_of F.rules_of grammar.now in
        IfOk result (λ v. AreInflected g.signs (grammar_words g) most (map (tree_seen (F.value grammar.now.fulls.now)) v.items)) }
{
    let routes = all_routes(alloc, grammar, work, most)?;
    let trees = trees_of(alloc, grammar, &routes)?;
    Ok(trees)
}
