//! Chains in a lattice.

ghost use Rattle.std.specs.Prelude.{◌≡◌, ◌-◌, ◌<◌, [], ℕ, List, length, map, take, IfErr, IfOk, OnOk};
ghost use Rattle.std.specs.List.Sorted.{IsStrictlySortedBy};
ghost use Rattle.std.specs.declared.cmp.Ordering.TheVariants.{Equal};
ghost use Rattle.lexicon.specs.Groups.{group_of};
ghost use Rattle.lexicon.specs.Words.{Has};
ghost use Rattle.morph_analysis.specs.Chains.{HaveWords};
ghost use Rattle.morph_analysis.specs.Lattices.{IsValid, HaveSame};
ghost use Rattle.morph_analysis.specs.LatticeViews.{lattice_of, step_of};
ghost use Rattle.morph_analysis.specs.Made.{AreMadeChains, MayHalt, IsMadeChain};
ghost use Rattle.morph_analysis.specs.Views.{made_of};
ghost use Rattle.morph_analysis.specs.Spelled.{IsSpelled, node_at};
ghost use Rattle.morph_analysis.specs.Inner.Adding.{AddsThose, OfSome, OfStep};
ghost use Rattle.morph_analysis.specs.Inner.Routes.{IsStart, AreWithin};
ghost use Rattle.morph_analysis.specs.Inner.Searching.{AddsMade, OfStem, RouteFrom, GroupOver, WordsAt, NodeAt, NodesBefore, StepsOver};

use crate::arrivals::Arrivals;
use crate::graph::Graph;
use crate::lattice::{Lattice, Step};
use crate::made::{Halt, MadeChain, Maker};
use crate::outward::add_from;
use crate::search::{Search, Stem};
use lexicon::{Group, Lexicon, NoMemory};
use spelling_rules::Spelling;
use std::alloc::Global;

// Adds the chains of an entry over a stem, from each of some nodes.
fn add_entry<M: Maker>(
    search: &Search<'_, '_, M>,
    stem: &Stem<'_>,
    entry: u32,
    froms: &[u32],
    work: &mut M::Work,
    out: &mut Vec<MadeChain<M::Made>>,
) -> Result<(), Halt>
    requires { IsStart stem.now.graph.now stem.now.node }
    ensures all { OnOk result (AddsMade (M.value search.now.maker.now) (OfStem (λ e. e ≡ entry) (RouteFrom M.makes search.now stem.now) (λ m. Has m froms.now) stem.now) out.old.items out.new.items) }
    ensures halt { IfErr result (MayHalt (M.enough search.now.maker.now) (OfStem (λ e. e ≡ entry) (RouteFrom M.makes search.now stem.now) (λ m. Has m froms.now) stem.now)) }
{
    for from in froms {
        add_from(search, stem, entry, *from, work, out)?;
    }
    Ok(())
}

// Adds the chains of entries over a stem.
fn add_entries<M: Maker>(
    search: &Search<'_, '_, M>,
    stem: &Stem<'_>,
    entries: &[u32],
    work: &mut M::Work,
    out: &mut Vec<MadeChain<M::Made>>,
) -> Result<(), Halt>
    requires { IsStart stem.now.graph.now stem.now.node }
    ensures all { OnOk result (AddsMade (M.value search.now.maker.now) (GroupOver M.makes search.now stem.now (λ e. Has e entries.now)) out.old.items out.new.items) }
    ensures halt { IfErr result (MayHalt (M.enough search.now.maker.now) (GroupOver M.makes search.now stem.now (λ e. Has e entries.now))) }
{
    let froms = search
        .arrivals
        .fronts(search.alloc, stem.front, stem.step.from)?;
    if froms.is_empty() {
        return Ok(());
    }
    for entry in entries {
        add_entry(search, stem, *entry, &froms, work, out)?;
    }
    Ok(())
}

// The words but the last.
fn front_of(words: &[String]) -> &[String]
    requires { 0 < length words.now }
    ensures { result.now ≡ take (length words.now - 1) words.now }
{
    &words[..words.len() - 1]
}

// Adds the chains of the entries of a group, whose last word is at a node.
fn add_group<M: Maker>(
    search: &Search<'_, '_, M>,
    graph: &Graph,
    step: &Step,
    node: usize,
    group: &Group,
    work: &mut M::Work,
    out: &mut Vec<MadeChain<M::Made>>,
) -> Result<(), Halt>
    requires { IsStart graph.now node }
    ensures all { OnOk result (AddsMade (M.value search.now.maker.now) (WordsAt M.makes search.now graph.now step.now node (group_of group.now)) out.old.items out.new.items) }
    ensures halt { IfErr result (MayHalt (M.enough search.now.maker.now) (WordsAt M.makes search.now graph.now step.now node (group_of group.now))) }
{
    if group.words.is_empty() {
        return Ok(());
    }
    let front = front_of(&group.words);
    let stem = Stem {
        graph,
        step,
        node,
        front,
    };
    add_entries(search, &stem, &group.entries, work, out)?;
    Ok(())
}

// Adds the chains of entries whose last word is that of a node.
fn add_node<M: Maker>(
    search: &Search<'_, '_, M>,
    graph: &Graph,
    step: &Step,
    node: usize,
    work: &mut M::Work,
    out: &mut Vec<MadeChain<M::Made>>,
) -> Result<(), Halt>
    requires { IsStart graph.now node }
    ensures all { OnOk result (AddsMade (M.value search.now.maker.now) (NodeAt M.makes search.now graph.now step.now node) out.old.items out.new.items) }
    ensures halt { IfErr result (MayHalt (M.enough search.now.maker.now) (NodeAt M.makes search.now graph.now step.now node)) }
{
    let groups = search.lexicon.by_last(graph.word(node));
    for group in groups {
        add_group(search, graph, step, node, group, work, out)?;
    }
    Ok(())
}

// Adds the chains whose last word is that of a step, which is at node 0.
fn add_step<M: Maker>(
    search: &Search<'_, '_, M>,
    graph: &Graph,
    step: &Step,
    work: &mut M::Work,
    out: &mut Vec<MadeChain<M::Made>>,
) -> Result<(), Halt>
    requires { AreWithin graph.now }
    ensures all { OnOk result (AddsMade (M.value search.now.maker.now) (NodesBefore M.makes search.now graph.now step.now (length graph.now)) out.old.items out.new.items) }
    ensures halt { IfErr result (MayHalt (M.enough search.now.maker.now) (NodesBefore M.makes search.now graph.now step.now (length graph.now))) }
{
    for node in 0..graph.len() {
        add_node(search, graph, step, node, work, out)?;
    }
    Ok(())
}

// The graph of a word: this one, where it is of that word.
fn graph_for(
    alloc: Global,
    spelling: &Spelling,
    graph: Graph,
    word: &str,
    depth: u32,
) -> Result<Graph, NoMemory>
    requires { IsSpelled spelling.now (node_at graph 0).word depth graph }
    ensures { IfOk result (λ g. IsSpelled spelling.now word.now depth g) }
{
    if graph.word(0) == word {
        return Ok(graph);
    }
    let other = Graph::of_word(alloc, spelling, word, depth)?;
    Ok(other)
}

// The steps by their words, so that those with the same word stand together.
fn steps_by_word<'a>(alloc: Global, steps: &'a [Step]) -> Result<Vec<&'a Step>, NoMemory>
    ensures { IfOk result (λ v. HaveSame (map (λ s. step_of s.now) v.items) (map step_of steps.now)) }
{
    let mut sorted = Vec::new(alloc);
    for step in steps {
        sorted.push(step)?;
    }
    sorted.sort_by(|a, b| a.word.as_str().cmp(b.word.as_str()))?;
    Ok(sorted)
}

// Adds the chains whose last words are those of steps. The graph of a word serves for all steps in a row with that word.
fn add_steps<M: Maker>(
    search: &Search<'_, '_, M>,
    sorted: &[&Step],
    work: &mut M::Work,
    out: &mut Vec<MadeChain<M::Made>>,
) -> Result<(), Halt>
    ensures all { OnOk result (AddsMade (M.value search.now.maker.now) (StepsOver M.makes search.now sorted.now) out.old.items out.new.items) }
    ensures halt { IfErr result (MayHalt (M.enough search.now.maker.now) (StepsOver M.makes search.now sorted.now)) }
{
    let first = Graph::of_word(search.alloc, search.spelling, "", search.depth)?;
    let mut graph = first;
    for i in 0..sorted.len() {
        let step = sorted[i];
        graph = graph_for(
            search.alloc,
            search.spelling,
            graph,
            step.word.as_str(),
            search.depth,
        )?;
        add_step(search, &graph, step, work, out)?;
    }
    Ok(())
}

// The chains whose last words are those of steps.
fn chains_of<M: Maker>(
    alloc: Global,
    maker: &M,
    work: &mut M::Work,
    lexicon: &Lexicon,
    spelling: &Spelling,
    steps: &[Step],
    depth: u32,
) -> Result<Vec<MadeChain<M::Made>>, Halt>
    ensures all { IfOk result (λ v. AddsThose (OfSome (OfStep lexicon.now spelling.now (M.makes maker.now) depth (map step_of steps.now)) (map step_of steps.now)) [] (map (made_of (M.value maker.now)) v.items)) }
    ensures halt { IfErr result (MayHalt (M.enough maker.now) (OfSome (OfStep lexicon.now spelling.now (M.makes maker.now) depth (map step_of steps.now)) (map step_of steps.now))) }
{
    let mut out = Vec::new(alloc);
    let arrivals = Arrivals::make(alloc, steps)?;
    let sorted = steps_by_word(alloc, steps)?;
    let search = Search {
        alloc,
        maker,
        lexicon,
        spelling,
        arrivals: &arrivals,
        depth,
    };
    add_steps(&search, &sorted, work, &mut out)?;
    Ok(out)
}

// Sorts items, and keeps one of those that are equal.
fn sort_once<T: Ord + Drop>(items: &mut Vec<T>) -> Result<(), NoMemory>
    ensures sorted { OnOk result (IsStrictlySortedBy T.cmp items.new.items) }
    ensures kept { OnOk result ((x : T) → Has x items.old.items → (y : T) × Has y items.new.items × (T.cmp x y ≡ Equal)) }
    ensures only { OnOk result ((x : T) → Has x items.new.items → Has x items.old.items) }
{
    items.sort()?;
    items.dedup();
    Ok(())
}

/// The chains of at most `depth` rules that spell words which a path of the lattice carries and of which something is made,
/// with what is made of them: exactly those, each once, by `from`, `to`, entry, rules and words; or `Enough`, where one of them is
/// enough.
///
/// Every entry of the lexicon must have a word, and the lattice must be valid. The search goes outwards from each entry and
/// ends where nothing is made; for chains from one node that begin alike, what their beginning makes is made once. It goes on from
/// what was made before that is added, so the longest chains come first, and the first that is enough ends it.
pub fn made_chains<M: Maker>(
    alloc: Global,
    maker: &M,
    work: &mut M::Work,
    lexicon: &Lexicon,
    spelling: &Spelling,
    lattice: &Lattice,
    depth: u32,
) -> Result<Vec<MadeChain<M::Made>>, Halt>
    requires words { HaveWords lexicon.now }
    requires valid { IsValid (lattice_of lattice.now) }
    ensures halt { IfErr result (MayHalt (M.enough maker.now) (IsMadeChain (M.makes maker.now) lexicon.now spelling.now (lattice_of lattice.now) depth)) }
    ensures all { IfOk result (λ v. AreMadeChains (M.makes maker.now) lexicon.now spelling.now (lattice_of lattice.now) depth (map (made_of (M.value maker.now)) v.items)) }
{
    maker.laws();
    let mut out = chains_of(alloc, maker, work, lexicon, spelling, &lattice.steps, depth)?;
    sort_once(&mut out)?;
    Ok(out)
}
