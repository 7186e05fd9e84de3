//! The lattice of the words of a line.

ghost use Rattle.std.specs.Prelude.{◌≡◌, IfOk};
ghost use Rattle.std.specs.Str.{chars};
ghost use Rattle.morph_analysis.specs.Lattices.{IsValid};
ghost use Rattle.morph_analysis.specs.LatticeViews.{lattice_of};
ghost use Rattle.engine.specs.Speeches.{lattice_of_words};

use item_reports::words_of_line;
use lexicon::NoMemory;
use morph_analysis::Lattice;
use std::alloc::Global;

/// The lattice of the words of a line. More words than a `u32` can number count as want of memory.
pub fn lattice_of_words(alloc: Global, line: &str) -> Result<Lattice, NoMemory>
    ensures lattice { IfOk result (λ l. lattice_of l ≡ lattice_of_words (chars line.now)) }
    ensures valid { IfOk result (λ l. IsValid (lattice_of l)) }
{
    let words = words_of_line(alloc, line)?;
    if words.len() > u32::MAX as usize {
        return Err(NoMemory);
    }
    Lattice::of_words(alloc, &words)
}
