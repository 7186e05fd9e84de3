//! Lattices of words.

ghost use Rattle.std.specs.Prelude.{◌≡◌, ◌⊎◌, ◌<◌, ◌^◌, ℕ, length, map, IfOk, OnOk, IfErr, string_bytes, ◌≤◌, encode_utf8_all};
ghost use Rattle.std.specs.Str.{chars};
ghost use Rattle.morph_analysis.specs.Lattices.{IsValid, steps_from};
ghost use Rattle.morph_analysis.specs.LatticeLines.{IsLineOf, IsFirstWrong};
ghost use Rattle.morph_analysis.specs.LatticeViews.{lattice_of, step_of};
ghost use Rattle.morph_analysis.specs.Inner.Lines.{with_step};

use crate::items::items;
use crate::written::step_written;
use indexmap::IndexSet;
use lexicon::NoMemory;
use std::alloc::Global;

/// A step of a lattice: a word between two nodes.
#[derive(Debug, PartialEq, Eq, Hash, Drop)]
pub struct Step {
    pub from: u32,
    pub to: u32,
    pub word: String,
}

/// A lattice of words, from node 0 to its end.
#[derive(Debug, Drop)]
pub struct Lattice {
    pub steps: Vec<Step>,
    pub end: u32,
}

/// Why a line writes no lattice.
#[derive(Debug, PartialEq, Eq, Drop)]
pub enum LatticeFault {
    /// The first wrong item begins at this byte.
    At { at: u32 },
    /// Memory was wanting.
    NoMemory,
}

impl From<NoMemory> for LatticeFault {
    ghost use Rattle.std.specs.Prelude.{◌≡◌};
    ghost use Rattle.morph_analysis.specs.declared.lattice.LatticeFault.{LatticeFault};

    ghost from_gives = { λ _ e. e ≡ LatticeFault.NoMemory };

    fn from(_: NoMemory) -> LatticeFault {
        LatticeFault::NoMemory
    }
}

// The characters of a line.
fn letters_of(alloc: Global, line: &str) -> Result<Vec<char>, NoMemory>
    ensures letters { IfOk result (λ v. v.items ≡ chars line.now) }
    ensures bytes { IfOk result (λ v. encode_utf8_all v.items ≡ line.now) }
{
    let letters: Vec<char> = line.chars().collect(alloc)?;
    Ok(letters)
}

// The later of two nodes.
fn later(a: u32, b: u32) -> u32
    ensures first { a ≤ result }
    ensures second { b ≤ result }
    ensures one { (result ≡ a) ⊎ (result ≡ b) }
{
    if a < b { b } else { a }
}

// Adds a step that isn't there yet.
fn note(steps: &mut IndexSet<Step>, step: Step) -> Result<(), NoMemory>
    ensures { OnOk result (map step_of steps.new.keys ≡ with_step (map step_of steps.old.keys) (step_of step)) }
{
    steps.insert(step)?;
    Ok(())
}

// The steps of a set, in order.
fn steps_in(alloc: Global, set: IndexSet<Step>) -> Result<Vec<Step>, NoMemory>
    ensures { IfOk result (λ v. v.items ≡ set.keys) }
{
    let steps: Vec<Step> = set.into_iter().collect(alloc)?;
    Ok(steps)
}

impl Lattice {
    /// The lattice of words in a row: a step from i to i + 1 for each.
    pub fn of_words(alloc: Global, words: &[String]) -> Result<Lattice, NoMemory>
        requires { length words.now < 2 ^ 32 }
        ensures steps { IfOk result (λ l. lattice_of l ≡ record { steps = steps_from 0 (map string_bytes words.now); end = length words.now }) }
        ensures valid { IfOk result (λ l. IsValid (lattice_of l)) }
    {
        let mut steps = Vec::new(alloc);
        for (i, word) in words.iter().enumerate() {
            let from = i as u32;
            steps.push(Step {
                from,
                to: from + 1,
                word: word.clone()?,
            })?;
        }
        let end = words.len() as u32;
        Ok(Lattice { steps, end })
    }

    /// The lattice that a line writes, from node 0 to the greatest node, with its steps in order of writing and each once;
    /// or the byte of the first item that writes no step.
    pub fn read(alloc: Global, line: &str) -> Result<Lattice, LatticeFault>
        requires { length line.now < 2 ^ 32 }
        ensures lattice { IfOk result (λ l. IsLineOf (chars line.now) (lattice_of l)) }
        ensures valid { IfOk result (λ l. IsValid (lattice_of l)) }
        ensures fault { IfErr result (λ e. (e ≡ LatticeFault.NoMemory) ⊎ ((at : ℕ) × (e ≡ LatticeFault.At at) × IsFirstWrong (chars line.now) at)) }
    {
        let letters = letters_of(alloc, line)?;
        let items = items(alloc, &letters)?;
        let mut steps = IndexSet::new(alloc);
        let mut end = 0;
        for item in &items {
            match step_written(alloc, item.letters)? {
                None => return Err(LatticeFault::At { at: item.at }),
                Some(step) => {
                    end = later(end, step.to);
                    note(&mut steps, step)?;
                }
            }
        }
        let steps = steps_in(alloc, steps)?;
        Ok(Lattice { steps, end })
    }
}
