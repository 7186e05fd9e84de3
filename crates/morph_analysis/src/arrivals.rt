//! The nodes of a lattice from which words lead to a node.

ghost use Rattle.std.specs.Prelude.{◌≡◌, [], map, IfOk, OnOk, string_bytes};
ghost use Rattle.std.specs.List.Sorted.{IsNonDecreasingBy};
ghost use Rattle.lexicon.specs.Words.{Has};
ghost use Rattle.morph_analysis.specs.Lattices.{AreFronts, HaveSame};
ghost use Rattle.morph_analysis.specs.LatticeViews.{step_of};
ghost use Rattle.morph_analysis.specs.Inner.Adding.{AddsThose, Precedes};
ghost use Rattle.morph_analysis.specs.Lattices.{AreRising};

use crate::lattice::Step;
use lexicon::NoMemory;
use std::alloc::Global;
use std::marker::Model;

/// The steps of a lattice by the nodes at which they end, to go from a node backwards over words.
#[derive(Drop)]
pub struct Arrivals<'a> {
    sorted: Vec<&'a Step>,
}

impl<'a> Model for Arrivals<'a> {
    ghost use Rattle.std.specs.Prelude.{List, map};
    ghost use Rattle.std.specs.List.Sorted.{IsNonDecreasingBy};
    ghost use Rattle.morph_analysis.specs.Lattices.{StepTree};
    ghost use Rattle.morph_analysis.specs.LatticeViews.{step_of};

    ghost Value = { List StepTree };

    ghost view = { λ a. map (λ s. step_of s.now) a.sorted.items };

    ghost invariant = { λ a. IsNonDecreasingBy (λ s. s.now.to) a.sorted.items };
}

// Adds the first node of a step with a word.
fn add_from(step: &Step, word: &str, out: &mut Vec<u32>) -> Result<(), NoMemory>
    ensures { OnOk result (AddsThose (λ from. step_of step.now ≡ record { from = from; to = step.now.to; word = word.now }) out.old.items out.new.items) }
{
    if step.word.as_str() != word {
        return Ok(());
    }
    out.push(step.from)?;
    Ok(())
}

// Adds the nodes from which a step with a word leads to a node.
fn add_before(sorted: &[&Step], word: &str, node: u32, out: &mut Vec<u32>) -> Result<(), NoMemory>
    requires { IsNonDecreasingBy (λ s. s.now.to) sorted.now }
    ensures { OnOk result (AddsThose (λ from. Has (record { from = from; to = node; word = word.now }) (map (λ s. step_of s.now) sorted.now)) out.old.items out.new.items) }
{
    let begin = sorted.partition_point(|s| s.to < node);
    for i in begin..sorted.len() {
        let step = sorted[i];
        if step.to != node {
            return Ok(());
        }
        add_from(step, word, out)?;
    }
    Ok(())
}

// The nodes from which a step with a word leads to one of these, each once.
fn all_before(
    alloc: Global,
    sorted: &[&Step],
    word: &str,
    nodes: &[u32],
) -> Result<Vec<u32>, NoMemory>
    requires { IsNonDecreasingBy (λ s. s.now.to) sorted.now }
    ensures these { IfOk result (λ v. AddsThose (Precedes (map (λ s. step_of s.now) sorted.now) word.now nodes.now) [] v.items) }
    ensures rising { IfOk result (λ v. AreRising v.items) }
{
    let mut out = Vec::new(alloc);
    for node in nodes {
        add_before(sorted, word, *node, &mut out)?;
    }
    out.sort_unstable();
    out.dedup();
    Ok(out)
}

// The nodes from which words lead to a node, found word by word from the last.
fn fronts_of(
    alloc: Global,
    sorted: &[&Step],
    words: &[String],
    node: u32,
) -> Result<Vec<u32>, NoMemory>
    requires { IsNonDecreasingBy (λ s. s.now.to) sorted.now }
    ensures { IfOk result (λ v. AreFronts (map (λ s. step_of s.now) sorted.now) (map string_bytes words.now) node v.items) }
{
    let mut nodes = Vec::new(alloc);
    nodes.push(node)?;
    let mut left = words.len();
    while left > 0 {
        left -= 1;
        nodes = all_before(alloc, sorted, words[left].as_str(), &nodes)?;
    }
    Ok(nodes)
}

impl<'a> Arrivals<'a> {
    /// The steps of a lattice by the nodes at which they end.
    pub fn make(alloc: Global, steps: &'a [Step]) -> Result<Arrivals<'a>, NoMemory>
        ensures { IfOk result (λ a. HaveSame a (map step_of steps.now)) }
    {
        let mut sorted = Vec::new(alloc);
        for step in steps {
            sorted.push(step)?;
        }
        sorted.sort_by_key(|s| s.to)?;
        Ok(Arrivals { sorted })
    }

    /// The nodes from which some path of steps to a node carries exactly these words, by rising number.
    pub fn fronts(&self, alloc: Global, words: &[String], node: u32) -> Result<Vec<u32>, NoMemory>
        ensures { IfOk result (λ v. AreFronts self.now (map string_bytes words.now) node v.items) }
    {
        let froms = fronts_of(alloc, &self.sorted, words, node)?;
        Ok(froms)
    }
}
