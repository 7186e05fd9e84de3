//! What lexical trees and rules of a grammar contribute.

ghost use Rattle.std.specs.Prelude.{◌≡◌, ◌+◌, map, IfOk};
ghost use Rattle.spelling_rules.specs.Trees.{AreBound};
ghost use Rattle.mrs_places.specs.Paths.{feature_of, paths_of};
ghost use Rattle.mrs_extract.specs.Asked.{ArePaths};
ghost use Rattle.grammar_rules.specs.Lines.{AreFeedsOf, HaveAll};
ghost use Rattle.mrs_generate.specs.Contributors.{AreContributors};

use crate::NoMemory;
use fs_unify::Scratch;
use generated_leaves::{RulePredicates, ToldTree, told_trees};
use lexical_items::LexicalGrammar;
use mrs_places::{MrsFeat, MrsPaths};
use realized_trees::threaded_list;
use relation_fit::RelationList;
use rule_trees::SignFulls;
use std::alloc::Global;

/// The lexical trees of a grammar with the predicates that they contribute, those that phrase rules contribute themselves, and the list by
/// which structures may be dropped.
#[derive(Drop)]
pub struct Contributors {
    /// the lexical trees of up to one rule more than the limit
    pub told: Vec<ToldTree>,
    /// what each phrase rule contributes itself
    pub rules: RulePredicates,
    /// the list of relations, where each phrase rule is seen to append those of its daughters
    pub list: Option<RelationList>,
}

// One more than a number. More than a `u32` can number counts as want of memory.
fn one_more(number: u32) -> Result<u32, NoMemory>
    ensures { IfOk result (λ next. next ≡ number + 1) }
{
    if number == u32::MAX {
        return Err(NoMemory);
    }
    Ok(number + 1)
}

/// What a grammar contributes, made once for the grammar and the limit on lexical rules, `lexical`; it takes lexical trees of up to one rule
/// more. `paths` says where MRSs stand, and `c_cont` where the relations stand that a rule contributes itself. Whatever the scratch holds, the
/// answer is the same.
pub fn contributors_of(
    alloc: Global,
    work: &mut Scratch,
    grammar: &LexicalGrammar<'_, SignFulls<'_>>,
    paths: &MrsPaths,
    c_cont: &[MrsFeat],
    lexical: u32,
) -> Result<Contributors, NoMemory>
    requires paths { ArePaths grammar.now.fulls.now.signs.now.book.system.types (paths_of paths.now) }
    requires have { HaveAll grammar.now.fulls.now.signs.now grammar.now.lexicon.now grammar.now.spelling.now }
    requires bound { AreBound grammar.now.spelling.now.rules }
    requires feeds { AreFeedsOf grammar.now.fulls.now.signs.now grammar.now.feeds.now }
    ensures { IfOk result (AreContributors grammar.now.fulls.now.signs.now grammar.now.lexicon.now grammar.now.spelling.now (paths_of paths.now) (map feature_of c_cont.now) lexical) }
{
    let signs = grammar.fulls.signs;
    let most = one_more(lexical)?;
    let told = told_trees(alloc, work, grammar, paths, most)?;
    let rules = RulePredicates::make(alloc, signs, paths, c_cont)?;
    let list = threaded_list(alloc, signs, paths)?;
    Ok(Contributors { told, rules, list })
}
