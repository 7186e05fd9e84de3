//! The words that no lexical tree covers.

ghost use Rattle.std.specs.Prelude.{◌≡◌, ◌↔◌, ◌<◌, ◌+◌, ℕ, IsTrue, length, map, take, drop, string_bytes, option_map, IfOk};
ghost use Rattle.std.specs.List.Sorted.{IsNonDecreasingBy};
ghost use Rattle.tree_model.specs.Signs.{Signs};
ghost use Rattle.tree_model.specs.Lexical.{Words};
ghost use Rattle.derivation.specs.Views.{derivation_of};
ghost use Rattle.morph_analysis.specs.Lattices.{Carries, IsValid};
ghost use Rattle.morph_analysis.specs.LatticeViews.{lattice_of, step_of};
ghost use Rattle.tree_model.specs.Structures.{Structure};
ghost use Rattle.lexical_items.specs.Listed.{AreLexemes};
ghost use Rattle.lexical_items.specs.Seen.{lattice_seen, step_seen};
ghost use Rattle.lexical_items.specs.Views.{lexeme_seen};
ghost use Rattle.line_charts.specs.Inner.Reaches.{reach_seen, reach_in, reaches_in, IsStep, IsWithin, IsSome, IsTold, AreOutside, GoForward};
ghost use Rattle.line_charts.specs.Unknown.{AreUnknown};

use crate::NoMemory;
use derivation::Tree;
use lexical_items::LexTree;
use morph_analysis::{Arrivals, Lattice, Step};
use std::alloc::Global;

// The nodes between which a lexical tree lies, and its words.
#[derive(Clone, Copy)]
struct Reach<'a> {
    from: u32,
    to: u32,
    words: &'a [String],
}

// Of a lexical tree with nodes: where `single`, if it has one word, else if it hasn't.
fn reach_in(tree: &Tree, single: bool) -> Option<Reach<'_>>
    ensures { option_map reach_seen result ≡ reach_in single (derivation_of tree.now) }
{
    match tree {
        Tree::Lexical {
            words,
            nodes: Some((from, to)),
            ..
        } if (words.len() == 1) == single => Some(Reach {
            from: *from,
            to: *to,
            words,
        }),
        _ => None,
    }
}

// Those with one word, or the others.
fn reaches_in<'a, T>(
    alloc: Global,
    trees: &'a [LexTree<T>],
    single: bool,
) -> Result<Vec<Reach<'a>>, NoMemory>
    ensures { IfOk result (λ rs. map reach_seen rs.items ≡ reaches_in single (map (λ t. derivation_of t.tree) trees.now)) }
{
    let mut reaches = Vec::new(alloc);
    for tree in trees {
        match reach_in(&tree.tree, single) {
            Some(reach) => reaches.push(reach)?,
            None => {}
        }
    }
    Ok(reaches)
}

fn same_word(word: &str, other: &str) -> bool
    ensures { IsTrue result ↔ (word.now ≡ other.now) }
{
    word == other
}

// Whether a step is all that there is of a lexical tree.
fn is_step(reach: &Reach<'_>, step: &Step) -> bool
    ensures { IsTrue result ↔ IsStep (reach_seen reach.now) (step_of step.now) }
{
    if reach.from != step.from || reach.to != step.to {
        return false;
    }
    match reach.words {
        [word] => same_word(word, &step.word),
        _ => false,
    }
}

// Whether a step is all that there is of one of these, which rise by their first nodes.
fn is_some_step(ones: &[Reach<'_>], step: &Step) -> bool
    requires { IsNonDecreasingBy (λ r. r.from) ones.now }
    ensures { IsTrue result ↔ IsSome IsStep (map reach_seen ones.now) (step_of step.now) }
{
    let begin = ones.partition_point(|r| r.from < step.from);
    for i in begin..ones.len() {
        let reach = &ones[i];
        if reach.from != step.from {
            return false;
        }
        if is_step(reach, step) {
            return true;
        }
    }
    false
}

// Whether some path of steps carries exactly these words from node to node.
fn carries(
    alloc: Global,
    arrivals: &Arrivals<'_>,
    from: u32,
    words: &[String],
    to: u32,
) -> Result<bool, NoMemory>
    ensures { IfOk result (λ yes. IsTrue yes ↔ Carries arrivals.now from (map string_bytes words.now) to) }
{
    let fronts = arrivals.fronts(alloc, words, to)?;
    Ok(fronts.contains(&from))
}

// Whether paths carry the words before a place to a step, and those after it from there.
fn carries_round(
    alloc: Global,
    arrivals: &Arrivals<'_>,
    reach: &Reach<'_>,
    place: usize,
    step: &Step,
) -> Result<bool, NoMemory>
    requires { place < length reach.now.words.now }
    ensures { IfOk result (λ yes. IsTrue yes ↔ (Carries arrivals.now reach.now.from (take place (map string_bytes reach.now.words.now)) step.now.from)
        × Carries arrivals.now step.now.to (drop (place + 1) (map string_bytes reach.now.words.now)) reach.now.to) }
{
    if !carries(
        alloc,
        arrivals,
        step.to,
        &reach.words[place + 1..],
        reach.to,
    )? {
        return Ok(false);
    }
    let before = carries(
        alloc,
        arrivals,
        reach.from,
        &reach.words[..place],
        step.from,
    )?;
    Ok(before)
}

// Whether a step takes part in a path that carries the words of a lexical tree between its nodes.
fn is_within(
    alloc: Global,
    arrivals: &Arrivals<'_>,
    reach: &Reach<'_>,
    step: &Step,
) -> Result<bool, NoMemory>
    requires { GoForward arrivals.now }
    ensures { IfOk result (λ yes. IsTrue yes ↔ IsWithin arrivals.now (reach_seen reach.now) (step_of step.now)) }
{
    // (most are told apart by their nodes)
    if step.from < reach.from || reach.to < step.to {
        return Ok(false);
    }
    for place in 0..reach.words.len() {
        if same_word(&reach.words[place], &step.word)
            && carries_round(alloc, arrivals, reach, place, step)?
        {
            return Ok(true);
        }
    }
    Ok(false)
}

// Whether it takes part in such a path of one of these.
fn is_within_some(
    alloc: Global,
    arrivals: &Arrivals<'_>,
    longs: &[Reach<'_>],
    step: &Step,
) -> Result<bool, NoMemory>
    requires { GoForward arrivals.now }
    ensures { IfOk result (λ yes. IsTrue yes ↔ IsSome (IsWithin arrivals.now) (map reach_seen longs.now) (step_of step.now)) }
{
    for reach in longs {
        if is_within(alloc, arrivals, reach, step)? {
            return Ok(true);
        }
    }
    Ok(false)
}

// Whether a step is covered. Few are left for the trees with more than one word.
fn is_told(
    alloc: Global,
    arrivals: &Arrivals<'_>,
    ones: &[Reach<'_>],
    longs: &[Reach<'_>],
    step: &Step,
) -> Result<bool, NoMemory>
    requires forward { GoForward arrivals.now }
    requires rising { IsNonDecreasingBy (λ r. r.from) ones.now }
    ensures { IfOk result (λ yes. IsTrue yes ↔ IsTold arrivals.now (map reach_seen ones.now) (map reach_seen longs.now) (step_of step.now)) }
{
    if is_some_step(ones, step) {
        return Ok(true);
    }
    is_within_some(alloc, arrivals, longs, step)
}

// The same step once more.
fn copy_of(step: &Step) -> Result<Step, NoMemory>
    ensures { IfOk result (λ s. step_of s ≡ step_of step.now) }
{
    Ok(Step {
        from: step.from,
        to: step.to,
        word: step.word.clone()?,
    })
}

// The steps that none of these covers.
fn untold_of(
    alloc: Global,
    arrivals: &Arrivals<'_>,
    ones: &[Reach<'_>],
    longs: &[Reach<'_>],
    steps: &[Step],
) -> Result<Vec<Step>, NoMemory>
    requires forward { GoForward arrivals.now }
    requires rising { IsNonDecreasingBy (λ r. r.from) ones.now }
    ensures { IfOk result (λ us. AreOutside (IsTold arrivals.now (map reach_seen ones.now) (map reach_seen longs.now)) (map step_of steps.now) (map step_of us.items)) }
{
    let mut unknown = Vec::new(alloc);
    for step in steps {
        if !is_told(alloc, arrivals, ones, longs, step)? {
            unknown.push(copy_of(step)?)?;
        }
    }
    Ok(unknown)
}

/// The steps of a lattice that none of these lexical trees covers, in order.
pub(crate) fn unknown_of<T>(
    alloc: Global,
    lattice: &Lattice,
    trees: &[LexTree<T>],
) -> Result<Vec<Step>, NoMemory>
    requires { IsValid (lattice_of lattice.now) }
    ensures { IfOk result (λ us. (g : Signs) (words : Words) (most : ℕ) (value : T → Structure) → AreLexemes g words (lattice_seen (lattice_of lattice.now)) most (map (lexeme_seen value) trees.now)
        → AreUnknown g words (lattice_seen (lattice_of lattice.now)) most (lattice_seen (lattice_of lattice.now)).steps (map (λ s. step_seen (step_of s)) us.items)) }
{
    let arrivals = Arrivals::make(alloc, &lattice.steps)?;
    let mut ones = reaches_in(alloc, trees, true)?;
    ones.sort_by_key(|r| r.from)?;
    let longs = reaches_in(alloc, trees, false)?;
    let unknown = untold_of(alloc, &arrivals, &ones, &longs, &lattice.steps)?;
    Ok(unknown)
}
