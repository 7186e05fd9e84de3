//! The note on a line without a tree.

ghost use Rattle.std.specs.Prelude.{◌≡◌, ◌++◌, ◌∷◌, [], map, codes, IfOk, OnOk};
ghost use Rattle.std.specs.Fmt.{decimal};
ghost use Rattle.std.specs.List.{flat_map};
ghost use Rattle.grammar_rules.specs.Views.{item_answer};
ghost use Rattle.morph_analysis.specs.LatticeViews.{step_of};
ghost use Rattle.lexical_items.specs.Seen.{step_seen};
ghost use Rattle.line_commands.specs.Notes.{has_no_tree, note_line, word_text};

use crate::NoMemory;
use grammar_rules::ItemAnswer;
use morph_analysis::Step;
use std::alloc::Global;

/// Whether the answer is that there is no tree.
pub(crate) fn has_no_tree(answer: &ItemAnswer) -> bool
    ensures { result ≡ has_no_tree (item_answer answer.now) }
{
    match answer {
        ItemAnswer::Trees { trees, .. } => trees.is_empty(),
        _ => false,
    }
}

// A blank and the word of a step.
fn put_word(step: &Step, into: &mut Vec<u8>) -> Result<(), NoMemory>
    ensures { OnOk result (into.new.items ≡ into.old.items ++ word_text (step_seen (step_of step.now))) }
{
    into.push(b' ')?;
    into.extend_from_slice(step.word.as_bytes())?;
    Ok(())
}

// The same for each of these steps.
fn put_words(steps: &[Step], into: &mut Vec<u8>) -> Result<(), NoMemory>
    ensures { OnOk result (into.new.items ≡ into.old.items ++ flat_map word_text (map (λ s. step_seen (step_of s)) steps.now)) }
{
    for step in steps {
        put_word(step, into)?;
    }
    Ok(())
}

// `item N: unknown words W ..` and its end.
fn words_line(alloc: Global, number: u64, steps: &[Step]) -> Result<Vec<u8>, NoMemory>
    ensures { IfOk result (λ line. line.items ≡ codes "item " ++ decimal number ++ codes ": unknown words" ++ flat_map word_text (map (λ s. step_seen (step_of s)) steps.now) ++ 10 ∷ []) }
{
    let mut line = format!(in alloc; "item {number}: unknown words")?.into_bytes();
    put_words(steps, &mut line)?;
    line.push(b'\n')?;
    Ok(line)
}

// `item N: no unknown words` and its end.
fn no_words_line(alloc: Global, number: u64) -> Result<Vec<u8>, NoMemory>
    ensures { IfOk result (λ line. line.items ≡ note_line number []) }
{
    let mut line = format!(in alloc; "item {number}: no unknown words")?.into_bytes();
    line.push(b'\n')?;
    Ok(line)
}

/// `item N: unknown words W ..` and its end, with the words of these steps, or that there are none.
pub(crate) fn note_line(alloc: Global, number: u64, steps: &[Step]) -> Result<Vec<u8>, NoMemory>
    ensures { IfOk result (λ line. line.items ≡ note_line number (map (λ s. step_seen (step_of s)) steps.now)) }
{
    if steps.is_empty() {
        return no_words_line(alloc, number);
    }
    words_line(alloc, number, steps)
}
