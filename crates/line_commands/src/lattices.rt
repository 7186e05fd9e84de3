//! The lattice of a line, or why it has none and what is written of that.

ghost use Rattle.std.specs.Prelude.{◌≡◌, ◌⊎◌, ◌<◌, ◌^◌, ℕ, true, length, map, IfOk, IfErr};
ghost use Rattle.std.specs.Str.{chars, IsUtf8};
ghost use Rattle.morph_analysis.specs.Lattices.{IsValid};
ghost use Rattle.morph_analysis.specs.LatticeLines.{IsFirstWrong};
ghost use Rattle.morph_analysis.specs.LatticeViews.{lattice_of};
ghost use Rattle.line_commands.specs.Lines.{IsLatticeOf};
ghost use Rattle.line_commands.specs.Inner.Lattices.{HasNoLattice, IsReportWithout};

use crate::NoMemory;
use endings::pieces::Report;
use engine::lattice_of_words;
use item_reports::{lines_of_no_lattice, lines_of_no_text};
use morph_analysis::{Lattice, LatticeFault};
use std::alloc::Global;

/// Why a line has no lattice.
#[derive(Clone, Copy, Debug, PartialEq, Eq)]
pub(crate) enum NoLattice {
    /// It isn't UTF-8.
    NoText,
    /// Its first item that writes no step begins at this byte.
    At { at: u32 },
    /// Memory was wanting, or no `u32` says how long the line is.
    NoMemory,
}

// The lattice of a text: that of its words, or the one that it writes; or the byte of its first item that writes no step.
fn lattice_of_text(alloc: Global, text: &str, writes: bool) -> Result<Lattice, LatticeFault>
    requires { length text.now < 2 ^ 32 }
    ensures lattice { IfOk result (λ l. IsLatticeOf writes (chars text.now) (lattice_of l)) }
    ensures valid { IfOk result (λ l. IsValid (lattice_of l)) }
    ensures fault { IfErr result (λ e. (e ≡ LatticeFault.NoMemory) ⊎ ((at : ℕ) × (e ≡ LatticeFault.At at) × (writes ≡ true) × IsFirstWrong (chars text.now) at)) }
{
    if writes {
        return Lattice::read(alloc, text);
    }
    let lattice = lattice_of_words(alloc, text)?;
    Ok(lattice)
}

/// The lattice of a line: that of its words, or the one that it writes; or why it has none. A line that is longer than a `u32` can say
/// counts as want of memory; no line of the program is.
pub(crate) fn lattice_of_line(
    alloc: Global,
    line: &[u8],
    writes: bool,
) -> Result<Lattice, NoLattice>
    ensures text { IfOk result (λ _. IsUtf8 line.now) }
    ensures lattice { IfOk result (λ l. IsLatticeOf writes (chars line.now) (lattice_of l)) }
    ensures valid { IfOk result (λ l. IsValid (lattice_of l)) }
    ensures fault { IfErr result (HasNoLattice writes line.now) }
{
    if line.len() > u32::MAX as usize {
        return Err(NoLattice::NoMemory);
    }
    match str::from_utf8(line) {
        Ok(text) => match lattice_of_text(alloc, text, writes) {
            Ok(lattice) => Ok(lattice),
            Err(LatticeFault::At { at }) => Err(NoLattice::At { at }),
            Err(LatticeFault::NoMemory) => Err(NoLattice::NoMemory),
        },
        Err(_) => Err(NoLattice::NoText),
    }
}

/// What is written of a line that has no lattice.
pub(crate) fn report_of_no_lattice(
    alloc: Global,
    number: u64,
    why: NoLattice,
) -> Result<Report, NoMemory>
    ensures { IfOk result (λ r. IsReportWithout number why (map (λ l. l.items) r.lines.items) r.refused) }
{
    match why {
        NoLattice::NoText => Ok(Report {
            lines: lines_of_no_text(alloc, number)?,
            refused: true,
        }),
        NoLattice::At { at } => Ok(Report {
            lines: lines_of_no_lattice(alloc, number, at)?,
            refused: true,
        }),
        NoLattice::NoMemory => Err(NoMemory),
    }
}
