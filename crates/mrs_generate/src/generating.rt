//! Sentences for an MRS.

ghost use Rattle.std.specs.Prelude.{IfOk};
ghost use Rattle.chart_core.specs.Kept.{InRange};
ghost use Rattle.mrs_model.specs.Valid.{IsValid};
ghost use Rattle.mrs_model.specs.Views.{meaning_of};
ghost use Rattle.mrs_generate.specs.Grammars.{IsGenGrammar, IsMrsAnswer};
ghost use Rattle.mrs_generate.specs.Views.{answer_seen};

use crate::answering::{Leafed, answer_alone, answer_over};
use crate::asking::{bag_of, bound_of};
use crate::grammar::GenGrammar;
use crate::{GenAnswer, NoMemory};
use chart_core::Limits;
use chart_workers::Rank;
use generated_leaves::{GenLeaves, leaves_of, rule_laws};
use grammar_rules::{Desk, LineWork, Search};
use lexical_items::LexicalFulls;
use mrs_model::Mrs;
use rule_trees::SignFulls;
use sieve::{Filter, Sieve};
use std::alloc::Global;
use std::sync::Wait;
use std::thread::Threads;
use worker_gate::Gate;

/// The answer to an MRS: the first of four rules that holds decides. The predicates of a lexical tree with exactly one rule more than the
/// limit lie within those of the MRS; a limit on unary chains or packed classes is broken, at the least size; more trees realize the MRS than
/// the limit; or these are their sentences, each text once, in byte order, with the least tree that has it, and the number of packed classes.
///
/// A tree realizes the MRS whose own MRS equals it up to renamed variables, and whose words and rules together contribute exactly its
/// predicates, with at most `limits.empty` words that contribute none.
///
/// The sieves are asked before anything is unified; with none, types are compared at the paths of the shapes. The workers of the desk make
/// the edges, in the order of the priority. No sieve, no priority, the number of workers nor the gate changes an answer: none of them
/// occurs in what is answered. An MRS with more predicates than a `u32` can number counts as want of memory.
/// `NoMemory` may come in place of any answer.
pub fn generate<R: Wait + Threads + Sync, F: Filter + Send + Sync, P: Rank + Sync>(
    rt: &R,
    alloc: Global,
    desk: &mut Desk,
    grammar: &GenGrammar<'_, '_>,
    mrs: &Mrs,
    search: &Search<'_, F, P>,
    gate: &dyn Gate,
) -> Result<GenAnswer, NoMemory>
    requires grammar { IsGenGrammar search.now.limits.now.lexical grammar.now }
    requires valid { IsValid (meaning_of mrs.now) }
    requires limits { InRange search.now.limits.now }
    ensures { IfOk result (λ a. IsMrsAnswer grammar.now (meaning_of mrs.now) search.now.limits.now (answer_seen a)) }
{
    rule_laws();
    let lexical = SignFulls {
        signs: grammar.signs,
    };
    lexical.laws();
    let bag = bag_of(alloc, mrs)?;
    let bound = bound_of(alloc, mrs, &bag, search.limits.empty)?;
    let contributors = grammar.contributors;
    match leaves_of(
        alloc,
        &contributors.told,
        &bag,
        &bound,
        search.limits.lexical,
    )? {
        GenLeaves::TooDeep => Ok(GenAnswer::LexicalDepth),
        GenLeaves::Leaves(leaves) => {
            let own = contributors.rules.own(alloc, &bag)?;
            let leafed = Leafed {
                mrs,
                leaves: &leaves,
                bound: &bound,
                own,
            };
            answer_over(rt, alloc, desk, grammar, leafed, search, gate)
        }
    }
}

/// What `generate` answers, by one worker, who makes smaller edges first. Nobody is waited for and no thread is started, so that this call
/// returns.
pub fn generate_alone<F: Filter>(
    alloc: Global,
    work: &mut LineWork,
    grammar: &GenGrammar<'_, '_>,
    mrs: &Mrs,
    limits: &Limits,
    sieves: &[Sieve<F>],
) -> Result<GenAnswer, NoMemory>
    requires grammar { IsGenGrammar limits.now.lexical grammar.now }
    requires valid { IsValid (meaning_of mrs.now) }
    requires limits { InRange limits.now }
    ensures { IfOk result (λ a. IsMrsAnswer grammar.now (meaning_of mrs.now) limits.now (answer_seen a)) }
{
    rule_laws();
    let lexical = SignFulls {
        signs: grammar.signs,
    };
    lexical.laws();
    let bag = bag_of(alloc, mrs)?;
    let bound = bound_of(alloc, mrs, &bag, limits.empty)?;
    let contributors = grammar.contributors;
    match leaves_of(alloc, &contributors.told, &bag, &bound, limits.lexical)? {
        GenLeaves::TooDeep => Ok(GenAnswer::LexicalDepth),
        GenLeaves::Leaves(leaves) => {
            let own = contributors.rules.own(alloc, &bag)?;
            let leafed = Leafed {
                mrs,
                leaves: &leaves,
                bound: &bound,
                own,
            };
            answer_alone(alloc, work, grammar, leafed, limits, sieves)
        }
    }
}
