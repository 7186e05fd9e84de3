//! The report lines of an answer.

ghost use Rattle.std.specs.Prelude.{◌≡◌, ◌∷◌, [], true, false, codes, map, IfOk};
ghost use Rattle.mrs_model.specs.Valid.{IsValid};
ghost use Rattle.mrs_model.specs.Views.{meaning_of};
ghost use Rattle.item_reports.specs.Reports.{item_line, no_mrs_line, refused_line};
ghost use Rattle.transfer_commands.specs.Reports.{count, mrs_line};

use endings::pieces::Report;
use item_reports::{NoMemory, lines_of_no_mrs, lines_of_refusal};
use mrs_model::Mrs;
use mrs_text::write;
use std::alloc::Global;

// `item N steps K`
fn count_line(alloc: Global, number: u64, steps: u32) -> Result<Vec<u8>, NoMemory>
    ensures { IfOk result (λ line. line.items ≡ item_line number (count steps)) }
{
    let line = format!(in alloc; "item {number} steps {steps}\n")?;
    Ok(line.into_bytes())
}

// Two blanks and the text of an MRS.
fn line_of_mrs(alloc: Global, mrs: &Mrs) -> Result<Vec<u8>, NoMemory>
    requires { IsValid (meaning_of mrs.now) }
    ensures { IfOk result (λ line. line.items ≡ mrs_line (meaning_of mrs.now)) }
{
    let mut line = Vec::from_slice(alloc, b"  ")?;
    let Ok(()) = write(alloc, mrs, &mut line) else {
        return Err(NoMemory);
    };
    line.push(b'\n')?;
    Ok(line)
}

/// What is written of an MRS that rules make by so many applications.
pub(crate) fn report_of_result(
    alloc: Global,
    number: u64,
    steps: u32,
    mrs: &Mrs,
) -> Result<Report, NoMemory>
    requires { IsValid (meaning_of mrs.now) }
    ensures lines { IfOk result (λ r. map (λ l. l.items) r.lines.items ≡ item_line number (count steps) ∷ mrs_line (meaning_of mrs.now) ∷ []) }
    ensures refused { IfOk result (λ r. r.refused ≡ false) }
{
    let mut lines = Vec::with_capacity(alloc, 2)?;
    lines.push(count_line(alloc, number, steps)?)?;
    lines.push(line_of_mrs(alloc, mrs)?)?;
    Ok(Report {
        lines,
        refused: false,
    })
}

/// What is written of an MRS to which rules would be applied more often than is allowed.
pub(crate) fn report_of_budget(alloc: Global, number: u64) -> Result<Report, NoMemory>
    ensures lines { IfOk result (λ r. map (λ l. l.items) r.lines.items ≡ refused_line number (codes "budget") ∷ []) }
    ensures refused { IfOk result (λ r. r.refused ≡ true) }
{
    Ok(Report {
        lines: lines_of_refusal(alloc, number, "budget")?,
        refused: true,
    })
}

/// What is written of a line that writes no MRS, whose first fault stands at this byte.
pub(crate) fn report_of_no_mrs(alloc: Global, number: u64, at: usize) -> Result<Report, NoMemory>
    ensures lines { IfOk result (λ r. map (λ l. l.items) r.lines.items ≡ no_mrs_line number at ∷ []) }
    ensures refused { IfOk result (λ r. r.refused ≡ true) }
{
    Ok(Report {
        lines: lines_of_no_mrs(alloc, number, at)?,
        refused: true,
    })
}
