//! Lines that are parsed: from the leaves of a line to its answer, by chart and unpacking over them.

ghost use Rattle.std.specs.Prelude.{◌≡◌, IfOk};
ghost use Rattle.chart_core.specs.Kept.{InRange};
ghost use Rattle.morph_analysis.specs.Lattices.{IsValid};
ghost use Rattle.morph_analysis.specs.LatticeViews.{lattice_of};
ghost use Rattle.grammar_rules.specs.Lines.{IsLineGrammar, IsLineAnswer};
ghost use Rattle.grammar_rules.specs.Views.{item_answer};

use crate::{NoMemory, RememberedLine};
use chart_core::Limits;
use chart_workers::{Rank, Terms};
use grammar_rules::{Desk, ItemAnswer, LineGrammar, LineLeaves, LineWork, Search, line_leaves};
use lexical_items::LexTree;
use morph_analysis::Lattice;
use packed_items::{ItemLeaves, Sieving, answer_remembered, answer_remembered_alone};
use rule_trees::{FullStructure, LineFulls};
use sieve::{Filter, Sieve};
use std::alloc::Global;
use std::sync::Wait;
use std::thread::Threads;
use worker_gate::Gate;

// Lets go of what was lent to unpacking.
fn let_go(fulls: RememberedLine<'_, '_, '_>) {
    let RememberedLine {
        line: LineFulls {
            signs: _,
            leaves: _,
            end: _,
        },
        mothers: _,
    } = fulls;
}

// The full structures of the trees over a line's lexical trees, with what is remembered of those of its grammar.
fn fulls_over<'t, 'x: 't, 'k>(
    grammar: &LineGrammar<'x, '_, 'k>,
    trees: &'t [LexTree<FullStructure>],
    end: u32,
) -> RememberedLine<'t, 'x, 'k>
    requires { IsLineGrammar grammar.now }
    ensures signs { result.line.signs.now ≡ grammar.now.signs.now }
    ensures leaves { result.line.leaves.now ≡ trees.now }
    ensures end { result.line.end ≡ end }
{
    RememberedLine {
        line: LineFulls {
            signs: grammar.signs,
            leaves: trees,
            end,
        },
        mothers: grammar.shared.mothers(),
    }
}

/// The answer to a line: the first of four rules that holds decides. A lexical tree has exactly one rule more than the limit; a
/// limit on unary chains or packed classes is broken, at the least size; more trees are licensed than the limit; or these are
/// they, each once, in the order of trees, with the number of packed classes.
///
/// The workers of the desk make the edges. What was found for one line needn't be found for the next: the grammar remembers it, and a line
/// for which its shapes have no room any more remembers by itself what rules make of shapes. Nothing that is remembered, no sieve, no
/// priority, the number of workers nor the gate changes an answer: none of them occurs in what is answered. `NoMemory` may come in place
/// of any answer.
pub fn parse_words<R: Wait + Threads + Sync, F: Filter + Send + Sync, P: Rank + Sync>(
    rt: &R,
    alloc: Global,
    desk: &mut Desk,
    grammar: &LineGrammar<'_, '_, '_>,
    lattice: &Lattice,
    search: &Search<'_, F, P>,
    gate: &dyn Gate,
) -> Result<ItemAnswer, NoMemory>
    requires grammar { IsLineGrammar grammar.now }
    requires valid { IsValid (lattice_of lattice.now) }
    requires limits { InRange search.now.limits.now }
    ensures { IfOk result (λ a. IsLineAnswer grammar.now (lattice_of lattice.now) search.now.limits.now (item_answer a)) }
{
    grammar.laws();
    let lines = line_leaves(
        alloc,
        &mut desk.work,
        grammar,
        lattice,
        search.limits.lexical,
    )?;
    let LineLeaves::Leaves { trees, leaves } = lines else {
        return Ok(ItemAnswer::LexicalDepth);
    };
    let fulls = fulls_over(grammar, &trees, lattice.end);
    let sieving = Sieving {
        shapes: grammar.shapes,
        sieves: search.sieves,
    };
    let terms = Terms {
        limits: search.limits,
        priority: search.priority,
    };
    let item = ItemLeaves {
        leaves,
        fulls: &fulls,
    };
    let found = answer_remembered(rt, alloc, &sieving, desk, item, &terms, gate);
    let_go(fulls);
    match found {
        Ok(found) => Ok(ItemAnswer::of_found(found)),
        Err(_) => Err(NoMemory),
    }
}

/// What `parse_words` answers, by one worker, who makes smaller edges first. Nobody is waited for and no thread is started, so that this
/// call returns.
pub fn parse_alone<F: Filter>(
    alloc: Global,
    work: &mut LineWork,
    grammar: &LineGrammar<'_, '_, '_>,
    lattice: &Lattice,
    limits: &Limits,
    sieves: &[Sieve<F>],
) -> Result<ItemAnswer, NoMemory>
    requires grammar { IsLineGrammar grammar.now }
    requires valid { IsValid (lattice_of lattice.now) }
    requires limits { InRange limits.now }
    ensures { IfOk result (λ a. IsLineAnswer grammar.now (lattice_of lattice.now) limits.now (item_answer a)) }
{
    grammar.laws();
    let lines = line_leaves(alloc, work, grammar, lattice, limits.lexical)?;
    let LineLeaves::Leaves { trees, leaves } = lines else {
        return Ok(ItemAnswer::LexicalDepth);
    };
    let fulls = fulls_over(grammar, &trees, lattice.end);
    let found = answer_remembered_alone(
        alloc,
        grammar.shapes,
        sieves,
        work,
        leaves,
        &fulls,
        limits,
    );
    let_go(fulls);
    match found {
        Ok(found) => Ok(ItemAnswer::of_found(found)),
        Err(_) => Err(NoMemory),
    }
}
