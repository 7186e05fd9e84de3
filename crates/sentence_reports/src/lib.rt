//! The report lines of an answer to a line that writes an MRS, and of a line that writes none.
#![tactic(auto)]

ghost use Rattle.std.specs.Prelude.{◌≡◌, ◌∷◌, [], true, map, IfOk};
ghost use Rattle.item_reports.specs.Reports.{item_line, no_mrs_line};
ghost use Rattle.realized_trees.specs.Views.{sentence_seen};
ghost use Rattle.mrs_generate.specs.Views.{answer_seen};
ghost use Rattle.sentence_reports.specs.Reports.{counts, sentence_line, sentences_lines, answer_lines, is_refused};

use endings::pieces::Report;
use item_reports::{lines_of_no_mrs, lines_of_refusal};
use mrs_generate::GenAnswer;
use realized_trees::Sentence;
pub use std::alloc::AllocError as NoMemory;
use std::alloc::Global;

// `item N classes C sentences K`
fn counts_line(
    alloc: Global,
    number: u64,
    classes: u32,
    sentences: usize,
) -> Result<Vec<u8>, NoMemory>
    ensures { IfOk result (λ line. line.items ≡ item_line number (counts classes sentences)) }
{
    let line = format!(in alloc; "item {number} classes {classes} sentences {sentences}\n")?;
    Ok(line.into_bytes())
}

// Two blanks and a sentence.
fn sentence_line(alloc: Global, sentence: &Sentence) -> Result<Vec<u8>, NoMemory>
    ensures { IfOk result (λ line. line.items ≡ sentence_line (sentence_seen sentence.now)) }
{
    let text = sentence.text.as_bytes();
    let mut line = Vec::with_capacity(alloc, text.len() + 3)?;
    line.push(b' ')?;
    line.push(b' ')?;
    line.extend_from_slice(text)?;
    line.push(b'\n')?;
    Ok(line)
}

// The line of counts, and a line for each sentence.
fn lines_of_sentences(
    alloc: Global,
    number: u64,
    classes: u32,
    sentences: &[Sentence],
) -> Result<Vec<Vec<u8>>, NoMemory>
    ensures { IfOk result (λ lines. map (λ l. l.items) lines.items ≡ sentences_lines number classes (map sentence_seen sentences.now)) }
{
    let mut lines = Vec::with_capacity(alloc, sentences.len() + 1)?;
    lines.push(counts_line(alloc, number, classes, sentences.len())?)?;
    for sentence in sentences {
        lines.push(sentence_line(alloc, sentence)?)?;
    }
    Ok(lines)
}

// The lines of an answer.
fn answer_lines(alloc: Global, number: u64, answer: &GenAnswer) -> Result<Vec<Vec<u8>>, NoMemory>
    ensures { IfOk result (λ lines. map (λ l. l.items) lines.items ≡ answer_lines number (answer_seen answer.now)) }
{
    match answer {
        GenAnswer::LexicalDepth => lines_of_refusal(alloc, number, "lexical-depth"),
        GenAnswer::UnaryChain => lines_of_refusal(alloc, number, "unary-chain"),
        GenAnswer::Edges => lines_of_refusal(alloc, number, "edges"),
        GenAnswer::Readings => lines_of_refusal(alloc, number, "readings"),
        GenAnswer::Sentences { classes, sentences } => {
            lines_of_sentences(alloc, number, *classes, sentences)
        }
    }
}

// Whether an answer is a limit that is broken.
fn is_refused(answer: &GenAnswer) -> bool
    ensures { result ≡ is_refused (answer_seen answer.now) }
{
    match answer {
        GenAnswer::Sentences { .. } => false,
        _ => true,
    }
}

/// What is written of an answer to the line of this number.
pub fn report_of(alloc: Global, number: u64, answer: &GenAnswer) -> Result<Report, NoMemory>
    ensures lines { IfOk result (λ r. map (λ l. l.items) r.lines.items ≡ answer_lines number (answer_seen answer.now)) }
    ensures refused { IfOk result (λ r. r.refused ≡ is_refused (answer_seen answer.now)) }
{
    Ok(Report {
        lines: answer_lines(alloc, number, answer)?,
        refused: is_refused(answer),
    })
}

/// What is written of a line that writes no MRS, whose first fault stands at this byte.
pub fn report_of_no_mrs(alloc: Global, number: u64, at: usize) -> Result<Report, NoMemory>
    ensures lines { IfOk result (λ r. map (λ l. l.items) r.lines.items ≡ no_mrs_line number at ∷ []) }
    ensures refused { IfOk result (λ r. r.refused ≡ true) }
{
    Ok(Report {
        lines: lines_of_no_mrs(alloc, number, at)?,
        refused: true,
    })
}
