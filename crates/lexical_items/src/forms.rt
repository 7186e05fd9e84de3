//! The forms of words.

ghost use Rattle.std.specs.Prelude.{◌≡◌, ◌<◌, map, length, IfOk, OnOk, string_bytes};
ghost use Rattle.spelling_rules.specs.Forms.{HasForm};
ghost use Rattle.spelling_rules.specs.Trees.{AreBound};
ghost use Rattle.lexicon.specs.Words.{Has};
ghost use Rattle.lexical_items.specs.Forms.{AreFormsOf};
ghost use Rattle.lexical_items.specs.Inner.Routes.{Puts};

use crate::NoMemory;
use lexicon::put;
use spelling_rules::Spelling;
use std::alloc::Global;

// Puts words into a rising list.
fn put_all(words: &[String], list: &mut Vec<String>) -> Result<(), NoMemory>
    ensures { OnOk result (Puts (λ x. Has x (map string_bytes words.now)) (map string_bytes list.old.items) (map string_bytes list.new.items)) }
{
    for word in words {
        put(list, word.clone()?)?;
    }
    Ok(())
}

// Puts the forms of a word under a rule; no rule takes an empty word.
fn put_forms(
    alloc: Global,
    spelling: &Spelling,
    rule: u32,
    word: &String,
    list: &mut Vec<String>,
) -> Result<(), NoMemory>
    requires bound { AreBound spelling.now.rules }
    requires rule { rule < length spelling.now.rules }
    ensures { OnOk result (Puts (λ x. (0 < length (string_bytes word.now)) × HasForm spelling.now rule (string_bytes word.now) x) (map string_bytes list.old.items) (map string_bytes list.new.items)) }
{
    if word.is_empty() {
        return Ok(());
    }
    let forms = spelling.inflect(alloc, rule, word)?;
    put_all(&forms, list)?;
    Ok(())
}

/// The forms of some words under a rule, each once, in byte order. No rule takes an empty word.
pub fn forms_of(
    alloc: Global,
    spelling: &Spelling,
    rule: u32,
    words: &[String],
) -> Result<Vec<String>, NoMemory>
    requires bound { AreBound spelling.now.rules }
    requires rule { rule < length spelling.now.rules }
    ensures { IfOk result (λ v. AreFormsOf spelling.now rule (map string_bytes words.now) (map string_bytes v.items)) }
{
    let mut list = Vec::new(alloc);
    for word in words {
        put_forms(alloc, spelling, rule, word, &mut list)?;
    }
    Ok(list)
}
