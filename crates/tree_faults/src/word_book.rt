//! What a grammar says of words.

ghost use Rattle.std.specs.Prelude.{◌≡◌, ◌<◌, ℕ, length, map, IfOk, string_bytes};
ghost use Rattle.chart_model.specs.At.{At};
ghost use Rattle.lexical_items.specs.Said.{number_in};
ghost use Rattle.lexical_items.specs.Forms.{AreFormsOf};
ghost use Rattle.tree_faults.specs.WordBooks.{Rise, IsWordBook, said_by};

use crate::NoMemory;
use lexical_items::forms_of;
use lexicon::Lexicon;
use spelling_rules::Spelling;
use std::alloc::Global;

/// The places of a grammar's entries and of its lexical rules, with the lexicon and the spelling, which number them in order of place.
#[derive(Clone, Copy)]
pub struct WordBook<'a> {
    pub entries: &'a [u32],
    pub rules: &'a [u32],
    pub lexicon: &'a Lexicon,
    pub spelling: &'a Spelling,
}

/// The number of a place among places that rise.
pub(crate) fn number_of(places: &[u32], place: u32) -> u32
    requires rise { Rise places.now }
    requires at { (n : ℕ) × At places.now n place }
    ensures number { result ≡ number_in places.now place }
    ensures within { result < length places.now }
{
    match places.binary_search(&place) {
        Ok(number) => number as u32,
        Err(_) => unreachable!(),
    }
}

impl<'a> WordBook<'a> {
    /// The words of the entry at a place: one at least.
    pub(crate) fn words_of(&self, entry: u32) -> &'a [String]
        requires book { IsWordBook self.now }
        requires entry { (n : ℕ) × At self.now.entries.now n entry }
        ensures words { map string_bytes result.now ≡ (said_by self.now).words_of entry }
        ensures some { 0 < length result.now }
    {
        let number = number_of(self.entries, entry);
        self.lexicon.words(number)
    }

    /// The forms of some words under the rule at a place, each once.
    pub(crate) fn forms_under(
        &self,
        alloc: Global,
        rule: u32,
        words: &[String],
    ) -> Result<Vec<String>, NoMemory>
        requires book { IsWordBook self.now }
        requires rule { (n : ℕ) × At self.now.rules.now n rule }
        ensures { IfOk result (λ v. AreFormsOf self.now.spelling.now ((said_by self.now).number_of rule) (map string_bytes words.now) (map string_bytes v.items)) }
    {
        let number = number_of(self.rules, rule);
        let forms = forms_of(alloc, self.spelling, number, words)?;
        Ok(forms)
    }
}
