//! What the lexical trees and the rules of a grammar contribute, made once for all lines.

ghost use Rattle.std.specs.Prelude.{◌≡◌, map, IfOk};
ghost use Rattle.grammar_load.specs.Views.{grammar_of};
ghost use Rattle.mrs_places.specs.Paths.{feature_of};
ghost use Rattle.engine.specs.Ready.{IsReady};
ghost use Rattle.generate_commands.specs.Generating.{c_cont_of};
ghost use Rattle.generate_commands.specs.Contributing.{AreContributorsOf};

use crate::NoMemory;
use engine::Engine;
use fs_unify::Scratch;
use lexical_items::LexicalGrammar;
use mrs_generate::{Contributors, contributors_of};
use mrs_places::{MrsFeat, c_cont_path};
use rule_trees::SignFulls;
use std::alloc::Global;

/// Where the relations stand that a rule contributes itself, and what lexical trees and rules contribute.
#[derive(Drop)]
pub struct Contributions {
    pub c_cont: Vec<MrsFeat>,
    pub contributors: Contributors,
}

/// What the grammar of an engine contributes, with lexical trees of up to so many rules and one more.
pub fn contributions_of(
    alloc: Global,
    engine: &Engine<'_, '_, '_>,
    lexical: u32,
) -> Result<Contributions, NoMemory>
    requires ready { IsReady engine.now }
    ensures path { IfOk result (λ c. map feature_of c.c_cont.items ≡ c_cont_of (grammar_of engine.now.grammar.now)) }
    ensures contributors { IfOk result (λ c. AreContributorsOf engine.now (map feature_of c.c_cont.items) lexical c.contributors) }
{
    engine.laws();
    let grammar = engine.grammar;
    let Ok(c_cont) = c_cont_path(alloc, &grammar.settings, &grammar.book.feats) else {
        return Err(NoMemory);
    };
    let mut work = Scratch::new(alloc);
    let fulls = SignFulls {
        signs: engine.signs,
    };
    let words = LexicalGrammar {
        fulls: &fulls,
        lexicon: &grammar.lexicon,
        spelling: &grammar.spelling,
        feeds: engine.feeds,
    };
    let contributors = contributors_of(alloc, &mut work, &words, engine.paths, &c_cont, lexical)?;
    Ok(Contributions {
        c_cont,
        contributors,
    })
}
