//! The report lines of an answer to a line, with the MRS of each tree where MRSs are asked for.
#![tactic(auto)]

ghost use Rattle.std.specs.Prelude.{◌≡◌, length, map, IfOk, string_bytes};
ghost use Rattle.grammar_rules.specs.Views.{item_answer};
ghost use Rattle.item_reports.specs.Reports.{answer_lines, is_refused};
ghost use Rattle.book_signs.specs.Trees.{signs_of};
ghost use Rattle.mrs_lines.specs.Lines.{AreAnswerLines};
ghost use Rattle.mrs_lines.specs.Remembered.{semantics_in};
ghost use Rattle.engine.specs.Named.{AreNamed, AreFull};
ghost use Rattle.engine.specs.Semantic.{ArePathsOf};

use endings::pieces::Report;
use fs_unify::Scratch;
use grammar_rules::ItemAnswer;
use item_reports::{lines_of_refusal, lines_of_trees};
use mrs_lines::TreeLines;
pub use std::alloc::AllocError as NoMemory;
use std::alloc::Global;

// The lines of an answer.
fn answer_lines(
    alloc: Global,
    number: u64,
    answer: &ItemAnswer,
    names: &[String],
    nodes: bool,
) -> Result<Vec<Vec<u8>>, NoMemory>
    requires { AreNamed (length names.now) (item_answer answer.now) }
    ensures { IfOk result (λ lines. map (λ l. l.items) lines.items ≡ answer_lines (map string_bytes names.now) nodes number (item_answer answer.now)) }
{
    match answer {
        ItemAnswer::LexicalDepth => lines_of_refusal(alloc, number, "lexical-depth"),
        ItemAnswer::UnaryChain => lines_of_refusal(alloc, number, "unary-chain"),
        ItemAnswer::Edges => lines_of_refusal(alloc, number, "edges"),
        ItemAnswer::Readings => lines_of_refusal(alloc, number, "readings"),
        ItemAnswer::Trees { classes, trees } => {
            lines_of_trees(alloc, number, *classes, trees, names, nodes)
        }
    }
}

// Whether an answer is a limit that is broken.
fn is_refused(answer: &ItemAnswer) -> bool
    ensures { result ≡ is_refused (item_answer answer.now) }
{
    match answer {
        ItemAnswer::Trees { .. } => false,
        _ => true,
    }
}

/// What is written of an answer to the line of this number, with the nodes of lexical trees where they are asked for.
pub fn report_of(
    alloc: Global,
    number: u64,
    answer: &ItemAnswer,
    names: &[String],
    nodes: bool,
) -> Result<Report, NoMemory>
    requires { AreNamed (length names.now) (item_answer answer.now) }
    ensures lines { IfOk result (λ r. map (λ l. l.items) r.lines.items ≡ answer_lines (map string_bytes names.now) nodes number (item_answer answer.now)) }
    ensures refused { IfOk result (λ r. r.refused ≡ is_refused (item_answer answer.now)) }
{
    Ok(Report {
        lines: answer_lines(alloc, number, answer, names, nodes)?,
        refused: is_refused(answer),
    })
}

// The lines of an answer, each tree followed by its MRS.
fn lines_with_mrs(
    alloc: Global,
    work: &mut Scratch,
    number: u64,
    answer: &ItemAnswer,
    lines: TreeLines<'_, '_, '_>,
) -> Result<Vec<Vec<u8>>, NoMemory>
    requires named { AreNamed (length lines.names.now) (item_answer answer.now) }
    requires same { lines.memory.now.signs ≡ lines.fulls.now }
    requires full { AreFull (signs_of lines.fulls.now) (item_answer answer.now) }
    requires paths { ArePathsOf lines.fulls.now lines.memory.now.paths }
    ensures { IfOk result (λ written. AreAnswerLines (signs_of lines.entry.fulls.now) (semantics_in lines.entry.memory.now)
        (map string_bytes lines.entry.names.now) lines.entry.nodes number (item_answer answer.now) (map (λ l. l.items) written.items)) }
{
    if let ItemAnswer::Trees { classes, trees } = answer {
        let written = mrs_lines::lines_of_trees(alloc, work, lines, number, *classes, trees)?;
        return Ok(written);
    }
    let written = answer_lines(alloc, number, answer, lines.names, lines.nodes)?;
    Ok(written)
}

/// The same where each tree is followed by its MRS, or by the path that is missing first. Each tree of the answer has a full structure.
pub fn report_with_mrs(
    alloc: Global,
    work: &mut Scratch,
    number: u64,
    answer: &ItemAnswer,
    lines: TreeLines<'_, '_, '_>,
) -> Result<Report, NoMemory>
    requires named { AreNamed (length lines.names.now) (item_answer answer.now) }
    requires same { lines.memory.now.signs ≡ lines.fulls.now }
    requires full { AreFull (signs_of lines.fulls.now) (item_answer answer.now) }
    requires paths { ArePathsOf lines.fulls.now lines.memory.now.paths }
    ensures lines { IfOk result (λ r. AreAnswerLines (signs_of lines.entry.fulls.now) (semantics_in lines.entry.memory.now)
        (map string_bytes lines.entry.names.now) lines.entry.nodes number (item_answer answer.now) (map (λ l. l.items) r.lines.items)) }
    ensures refused { IfOk result (λ r. r.refused ≡ is_refused (item_answer answer.now)) }
{
    Ok(Report {
        lines: lines_with_mrs(alloc, work, number, answer, lines)?,
        refused: is_refused(answer),
    })
}
