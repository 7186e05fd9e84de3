//! The lexical trees of a lattice and of a grammar: chains of lexical rules that have a full structure; and full structures that are
//! remembered.
//!
//! Lexical rules with orthography: Copestake 2002.
#![tactic(auto)]

ghost use Rattle.std.specs.Prelude.{◌≡◌, ◌<◌, ◌^◌, ◌+◌, IfOk};
ghost use Rattle.morph_analysis.specs.Lattices.{IsValid};
ghost use Rattle.morph_analysis.specs.LatticeViews.{lattice_of};
ghost use Rattle.lexical_items.specs.Grammars.{IsLexicalGrammar, grammar_seen, grammar_words};
ghost use Rattle.lexical_items.specs.Seen.{lattice_seen};
ghost use Rattle.lexical_items.specs.Listed.{IsLexicalAnswer};
ghost use Rattle.lexical_items.specs.Views.{lexical_seen};

mod asked;
mod entry_words;
mod feeding;
mod forms;
mod fulls;
mod grammar;
mod grown;
mod inflected;
mod lexeme;
mod making;
mod marked;
mod remembered;
mod route;
mod routes;
mod tree;
mod trees;

pub use feeding::feeds_of;
pub use forms::forms_of;
pub use fulls::LexicalFulls;
pub use grammar::LexicalGrammar;
pub use inflected::inflected_trees;
pub use lexeme::LexTree;
use making::FullChains;
pub use marked::MarkedFulls;
use morph_analysis::{Halt, Lattice, made_chains};
pub use remembered::RememberedFulls;
pub use std::alloc::AllocError as NoMemory;
use std::alloc::Global;
pub use tree::InflectedTree;
use trees::trees_of;

/// What is found of the lexical trees of a lattice.
#[derive(Drop)]
pub enum LexTrees<T> {
    /// one has exactly one rule more than the limit
    TooDeep,
    /// none has, and these are all with no more rules than the limit
    Trees(Vec<LexTree<T>>),
}

/// The lexical trees of at most `most` rules that lie in a lattice, each once; or that one of exactly `most + 1` rules does.
///
/// The search goes outwards from each entry and ends where a rule makes nothing, so that it costs a unification for each beginning of a
/// chain with a full structure, and one for each rule that fails there. The first tree that is too deep ends it, and the longest chains
/// come first.
pub fn lexical_trees<F: LexicalFulls>(
    alloc: Global,
    grammar: &LexicalGrammar<'_, F>,
    work: &mut F::Work,
    lattice: &Lattice,
    most: u32,
) -> Result<LexTrees<F::Full>, NoMemory>
    requires grammar { IsLexicalGrammar (grammar_seen F.signs F.entries_of F.rules_of grammar.now) }
    requires valid { IsValid (lattice_of lattice.now) }
    requires most { most + 1 < 2 ^ 32 }
    ensures { let g = grammar_seen F.signs F.entries_of F.rules_of grammar.now in
        IfOk result (λ trees. IsLexicalAnswer g.signs (grammar_words g) (lattice_seen (lattice_of lattice.now)) most (lexical_seen (F.value grammar.now.fulls.now) trees)) }
{
    let fulls = grammar.fulls;
    fulls.laws();
    let maker = FullChains {
        fulls,
        feeds: grammar.feeds,
        most,
    };
    match made_chains(
        alloc,
        &maker,
        work,
        grammar.lexicon,
        grammar.spelling,
        lattice,
        most + 1,
    ) {
        Ok(chains) => {
            let trees = trees_of(alloc, fulls, chains, most)?;
            Ok(trees)
        }
        Err(Halt::Enough) => Ok(LexTrees::TooDeep),
        Err(Halt::NoMemory) => Err(NoMemory),
    }
}
