//! The irregular table by stems and by forms.

ghost use Rattle.std.specs.Prelude.{◌≡◌, ◌==◌, ◌↔◌, IsTrue, List, [], ◌∷◌, map, filter, IfOk, OnOk, string_bytes, if◌then◌else◌};
ghost use Rattle.spelling_rules.specs.Forms.{once};
ghost use Rattle.spelling_rules.specs.Inner.Tables.{pair_of, words_of_rule, is_among, with_each, IsTable};
ghost use Rattle.spelling_rules.specs.Views.{line_of, words_in};
ghost use Rattle.lexicon.specs.Words.{Has};

use crate::rules::Irregular;
use indexmap::IndexMap;
use lexicon::{NoMemory, note};
use std::alloc::Global;

/// A line of the irregular table, as it is noted for its stem or its form: the rule, and the other word.
#[derive(Drop)]
pub(crate) struct Line {
    pub rule: u32,
    pub word: String,
}

/// What is noted for stems, and for forms.
#[derive(Drop)]
pub(crate) struct Table {
    pub by_stem: IndexMap<String, Vec<Line>>,
    pub by_form: IndexMap<String, Vec<Line>>,
}

/// The table of irregular lines.
pub(crate) fn table_of(alloc: Global, lines: &[Irregular]) -> Result<Table, NoMemory>
    ensures { IfOk result (λ t. IsTable (map line_of lines.now) t.by_stem.entries t.by_form.entries) }
{
    let mut by_stem = IndexMap::new(alloc);
    let mut by_form = IndexMap::new(alloc);
    for line in lines {
        let form = line.form.clone()?;
        let stem = line.stem.clone()?;
        let rule = line.rule;
        note(alloc, &mut by_stem, &line.stem, Line { rule, word: form })?;
        note(alloc, &mut by_form, &line.form, Line { rule, word: stem })?;
    }
    Ok(Table { by_stem, by_form })
}

/// Whether a word is among these.
pub(crate) fn is_among(words: &[String], word: &String) -> bool
    ensures { result ≡ is_among (map string_bytes words.now) (string_bytes word.now) }
{
    words.contains(word)
}

// Adds a word that isn't there.
fn add_once(words: &mut Vec<String>, word: &String) -> Result<(), NoMemory>
    ensures { OnOk result (words_in words.new ≡ with_each (words_in words.old) (string_bytes word.now ∷ [])) }
{
    if !is_among(words, word) {
        words.push(word.clone()?)?;
    }
    Ok(())
}

// Adds the word of a line of this rule, where it isn't there.
fn add_of_rule(words: &mut Vec<String>, line: &Line, rule: u32) -> Result<(), NoMemory>
    ensures { OnOk result (words_in words.new ≡ with_each (words_in words.old) (if line.now.rule == rule then string_bytes line.now.word ∷ [] else [])) }
{
    if line.rule == rule {
        add_once(words, &line.word)?;
    }
    Ok(())
}

/// The words of a rule, each once.
pub(crate) fn words_of_rule(
    alloc: Global,
    lines: &[Line],
    rule: u32,
) -> Result<Vec<String>, NoMemory>
    ensures { IfOk result (λ v. words_in v ≡ once (words_of_rule rule (map pair_of lines.now))) }
{
    let mut out = Vec::new(alloc);
    for line in lines {
        add_of_rule(&mut out, line, rule)?;
    }
    Ok(out)
}

/// Whether a text is one of these words.
pub(crate) fn has_word(words: &[String], text: &str) -> bool
    ensures { IsTrue result ↔ Has text.now (map string_bytes words.now) }
{
    for word in words {
        if word.as_str() == text {
            return true;
        }
    }
    false
}
