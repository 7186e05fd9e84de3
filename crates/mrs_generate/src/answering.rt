//! What chart and unpacking answer over the leaves of an input.

ghost use Rattle.std.specs.Prelude.{◌≡◌, map, IfOk};
ghost use Rattle.chart_core.specs.Kept.{InRange};
ghost use Rattle.mrs_model.specs.Valid.{IsValid};
ghost use Rattle.mrs_model.specs.Views.{meaning_of};
ghost use Rattle.book_signs.specs.Trees.{signs_of};
ghost use Rattle.generated_leaves.specs.Views.{leaf_seen};
ghost use Rattle.mrs_generate.specs.Grammars.{IsGenGrammar, IsMrsAnswer, words_of, input_for};
ghost use Rattle.mrs_generate.specs.Inner.Known.{IsKnown};
ghost use Rattle.mrs_generate.specs.Views.{answer_seen};

use crate::grammar::GenGrammar;
use crate::leaves::chart_leaves;
use crate::putting::put_together;
use crate::{GenAnswer, NoMemory};
use chart_core::Limits;
use chart_model::{Counts, Cover};
use chart_workers::{Rank, Terms};
use generated_leaves::{CountedShapes, GenLeaf, rule_laws};
use grammar_rules::{Desk, LineWork, Search};
use lexical_items::LexicalFulls;
use mrs_model::Mrs;
use packed_items::{ItemLeaves, Sieving, answer_sieved, answer_sieved_alone};
use realized_trees::{PrunedFulls, RealizedFulls, pruned_laws, realized_laws, sieve_of};
use rule_trees::SignFulls;
use sieve::{Filter, Sieve};
use std::alloc::Global;
use std::sync::Wait;
use std::thread::Threads;
use tree_structures::structure_laws;
use worker_gate::Gate;

/// An MRS with its leaves: what lexical trees may stand in a tree that realizes it, what covers stay within, and what each rule contributes
/// by its number.
#[derive(Drop)]
pub(crate) struct Leafed<'a> {
    pub(crate) mrs: &'a Mrs,
    pub(crate) leaves: &'a [GenLeaf],
    pub(crate) bound: &'a Counts,
    pub(crate) own: Vec<Option<Counts>>,
}

/// The answer to an MRS whose leaves are known, by the workers of a desk. Structures are dropped by the list of relations, where the grammar
/// has one.
pub(crate) fn answer_over<'a, R: Wait + Threads + Sync, F: Filter + Send + Sync, P: Rank + Sync>(
    rt: &R,
    alloc: Global,
    desk: &mut Desk,
    grammar: &GenGrammar<'a, '_>,
    leafed: Leafed<'a>,
    search: &Search<'_, F, P>,
    gate: &dyn Gate,
) -> Result<GenAnswer, NoMemory>
    requires grammar { IsGenGrammar search.now.limits.now.lexical grammar.now }
    requires valid { IsValid (meaning_of leafed.mrs.now) }
    requires limits { InRange search.now.limits.now }
    requires known { IsKnown (signs_of grammar.now.signs.now) (words_of grammar.now) (input_for grammar.now (meaning_of leafed.mrs.now)) search.now.limits.now leafed.own.items leafed.bound.now (map (leaf_seen grammar.now.signs.now) leafed.leaves.now) }
    ensures { IfOk result (λ a. IsMrsAnswer grammar.now (meaning_of leafed.entry.mrs.now) search.now.limits.now (answer_seen a)) }
{
    let Leafed {
        mrs,
        leaves,
        bound,
        own,
    } = leafed;
    let signs = grammar.signs;
    structure_laws();
    realized_laws();
    rule_laws();
    let lexical = SignFulls { signs };
    lexical.laws();
    let again = bound.share(alloc)?;
    let counted = CountedShapes::make(signs.system(), grammar.shapes, again, own);
    let into = chart_leaves(
        alloc,
        &mut desk.work.chart,
        signs,
        grammar.shapes,
        bound,
        leaves,
    )?;
    pruned_laws();
    let list = &grammar.contributors.list;
    let sieve = sieve_of(alloc, signs, list, grammar.paths, mrs, leaves)?;
    let realized = RealizedFulls {
        signs,
        leaves,
        paths: grammar.paths,
        mrs,
        bound,
    };
    let fulls = PrunedFulls {
        fulls: &realized,
        sieve: &sieve,
    };
    let sieving = Sieving {
        shapes: &counted,
        sieves: search.sieves,
    };
    let terms = Terms {
        limits: search.limits,
        priority: search.priority,
    };
    let item = ItemLeaves {
        leaves: into,
        fulls: &fulls,
    };
    let found = answer_sieved(rt, alloc, &sieving, desk, item, &terms, gate);
    match found {
        Ok(found) => put_together(alloc, found),
        Err(_) => Err(NoMemory),
    }
}

/// What `answer_over` answers, by one worker, who waits for nobody.
pub(crate) fn answer_alone<'a, F: Filter>(
    alloc: Global,
    work: &mut LineWork,
    grammar: &GenGrammar<'a, '_>,
    leafed: Leafed<'a>,
    limits: &Limits,
    sieves: &[Sieve<F>],
) -> Result<GenAnswer, NoMemory>
    requires grammar { IsGenGrammar limits.now.lexical grammar.now }
    requires valid { IsValid (meaning_of leafed.mrs.now) }
    requires limits { InRange limits.now }
    requires known { IsKnown (signs_of grammar.now.signs.now) (words_of grammar.now) (input_for grammar.now (meaning_of leafed.mrs.now)) limits.now leafed.own.items leafed.bound.now (map (leaf_seen grammar.now.signs.now) leafed.leaves.now) }
    ensures { IfOk result (λ a. IsMrsAnswer grammar.now (meaning_of leafed.entry.mrs.now) limits.now (answer_seen a)) }
{
    let Leafed {
        mrs,
        leaves,
        bound,
        own,
    } = leafed;
    let signs = grammar.signs;
    structure_laws();
    realized_laws();
    rule_laws();
    let lexical = SignFulls { signs };
    lexical.laws();
    let again = bound.share(alloc)?;
    let counted = CountedShapes::make(signs.system(), grammar.shapes, again, own);
    let into = chart_leaves(alloc, &mut work.chart, signs, grammar.shapes, bound, leaves)?;
    pruned_laws();
    let list = &grammar.contributors.list;
    let sieve = sieve_of(alloc, signs, list, grammar.paths, mrs, leaves)?;
    let realized = RealizedFulls {
        signs,
        leaves,
        paths: grammar.paths,
        mrs,
        bound,
    };
    let fulls = PrunedFulls {
        fulls: &realized,
        sieve: &sieve,
    };
    let found = answer_sieved_alone(alloc, &counted, sieves, work, into, &fulls, limits);
    match found {
        Ok(found) => put_together(alloc, found),
        Err(_) => Err(NoMemory),
    }
}
