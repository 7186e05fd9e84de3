//! Spelling: the forms of a stem, and the stems of a form.

ghost use Rattle.std.specs.Prelude.{◌≡◌, ◌<◌, ◌+◌, ◌↔◌, length, map, IfOk, OnOk, IsTrue, string_bytes, encode_utf8_all};
ghost use Rattle.spelling_rules.specs.Forms.{AreForms, AreStems, AreStemsUnder, AreAllStems, HasForm};
ghost use Rattle.spelling_rules.specs.Inner.Keeping.{IsKept};
ghost use Rattle.spelling_rules.specs.Inner.Tables.{pair_of, lines_with};
ghost use Rattle.spelling_rules.specs.Inner.Undoing.{HasStems};
ghost use Rattle.spelling_rules.specs.Trees.{AreBound};
ghost use Rattle.spelling_rules.specs.Views.{rule_of, line_of, words_in, stems_in};

use crate::copies::{lines_copied, rules_copied};
use crate::letters::letters_of;
use crate::regular::{add_stems, forms_of, makes};
use crate::rules::{Irregular, SpellRule, Stem};
use crate::table::{Line, has_word, is_among, table_of, words_of_rule};
use crate::under::add_under;
use indexmap::IndexMap;
use lexicon::{NoMemory, noted, put};
use std::alloc::Global;
use std::marker::Model;

/// The spelling of a grammar: its lexical rules by number, and its irregular forms.
#[derive(Drop)]
pub struct Spelling {
    count: u32,
    rules: Vec<SpellRule>,
    lines: Vec<Irregular>,
    by_stem: IndexMap<String, Vec<Line>>,
    by_form: IndexMap<String, Vec<Line>>,
}

impl Model for Spelling {
    ghost use Rattle.std.specs.Prelude.{map};
    ghost use Rattle.spelling_rules.specs.Trees.{SpellingTree};
    ghost use Rattle.spelling_rules.specs.Inner.Tables.{IsSpellingInside};
    ghost use Rattle.spelling_rules.specs.Views.{rule_of, line_of};

    ghost Value = { SpellingTree };

    ghost view = { λ s. record { rules = map rule_of s.rules.items; lines = map line_of s.lines.items } };

    ghost invariant = { λ s. IsSpellingInside s.count (map rule_of s.rules.items) (map line_of s.lines.items) s.by_stem.entries s.by_form.entries };
}

impl Spelling {
    /// Makes the spelling of lexical rules, numbered from 0 in their order, with the lines of the irregular table in
    /// theirs. All is folded.
    ///
    /// Each variable of what stands in a pattern's place must be one of the pattern, with the same members. A line whose
    /// number no rule has is never asked for. More rules than a `u32` can number count as want of memory.
    pub fn make(
        alloc: Global,
        rules: &[SpellRule],
        irregular: &[Irregular],
    ) -> Result<Spelling, NoMemory>
        requires { AreBound (map rule_of rules.now) }
        ensures { IfOk result (λ s. s ≡ record { rules = map rule_of rules.now; lines = map line_of irregular.now }) }
    {
        let Ok(count) = u32::try_from(rules.len()) else {
            return Err(NoMemory);
        };
        let table = table_of(alloc, irregular)?;
        let rules = rules_copied(alloc, rules)?;
        let lines = lines_copied(alloc, irregular)?;
        Ok(Spelling {
            count,
            rules,
            lines,
            by_stem: table.by_stem,
            by_form: table.by_form,
        })
    }

    /// The forms of a folded stem: those of the irregular lines, each once and in order, where the table has lines for the
    /// rule and the stem; otherwise the stem for a rule without groups; otherwise what the last written group that matches
    /// makes, unless it is empty (DELPH-IN TDL: morphological rules).
    pub fn inflect(&self, alloc: Global, rule: u32, stem: &str) -> Result<Vec<String>, NoMemory>
        requires { rule < length self.now.rules }
        ensures { IfOk result (λ v. AreForms self.now rule stem.now (words_in v)) }
    {
        let listed = words_of_rule(alloc, noted(&self.by_stem, stem), rule)?;
        let forms = forms_of(alloc, &self.rules[rule as usize], listed, stem)?;
        Ok(forms)
    }

    // Whether a stem has a form, by the letters of both.
    fn has_form(
        &self,
        alloc: Global,
        rule: u32,
        stem: &str,
        form: &str,
        letters: &[char],
    ) -> Result<bool, NoMemory>
        requires known { rule < length self.now.rules }
        requires spelled { form.now ≡ encode_utf8_all letters.now }
        ensures { IfOk result (λ b. IsTrue b ↔ HasForm self.now rule stem.now form.now) }
    {
        let listed = words_of_rule(alloc, noted(&self.by_stem, stem), rule)?;
        if !listed.is_empty() {
            return Ok(has_word(&listed, form));
        }
        let stem_letters = letters_of(alloc, stem)?;
        let made = makes(alloc, &self.rules[rule as usize], &stem_letters, letters)?;
        Ok(made)
    }

    // A list that has all stems of a form, and perhaps others, by the letters of the form and the irregular lines that
    // have it.
    fn candidates(
        &self,
        alloc: Global,
        rule: u32,
        form: &str,
        letters: &[char],
        lines: &[Line],
    ) -> Result<Vec<String>, NoMemory>
        requires known { rule < length self.now.rules }
        requires spelled { form.now ≡ encode_utf8_all letters.now }
        requires looked_up { map pair_of lines.now ≡ lines_with form.now self.now.lines }
        ensures { IfOk result (λ v. HasStems self.now rule form.now (words_in v)) }
    {
        let mut out = words_of_rule(alloc, lines, rule)?;
        add_stems(alloc, &self.rules[rule as usize], form, letters, &mut out)?;
        Ok(out)
    }

    // Keeps a stem of a form. One that is kept already isn't tried again.
    fn keep(
        &self,
        alloc: Global,
        rule: u32,
        form: &str,
        letters: &[char],
        stem: &String,
        out: &mut Vec<String>,
    ) -> Result<(), NoMemory>
        requires known { rule < length self.now.rules }
        requires spelled { form.now ≡ encode_utf8_all letters.now }
        ensures { OnOk result (IsKept self.now rule form.now (string_bytes stem.now) (words_in out.old) (words_in out.new)) }
    {
        if stem.is_empty() {
            return Ok(());
        }
        if is_among(out, stem) {
            return Ok(());
        }
        if self.has_form(alloc, rule, stem.as_str(), form, letters)? {
            put(out, stem.clone()?)?;
        }
        Ok(())
    }

    // The stems of a form under a rule, by the letters of the form and the irregular lines that have it.
    fn stems_by(
        &self,
        alloc: Global,
        rule: u32,
        form: &str,
        letters: &[char],
        lines: &[Line],
    ) -> Result<Vec<String>, NoMemory>
        requires known { rule < length self.now.rules }
        requires spelled { form.now ≡ encode_utf8_all letters.now }
        requires looked_up { map pair_of lines.now ≡ lines_with form.now self.now.lines }
        ensures { IfOk result (λ v. AreStems self.now rule form.now (words_in v)) }
    {
        let mut out = Vec::new(alloc);
        let candidates = self.candidates(alloc, rule, form, letters, lines)?;
        for stem in &candidates {
            self.keep(alloc, rule, form, letters, stem, &mut out)?;
        }
        Ok(out)
    }

    /// The stems of a form: exactly the nonempty ones whose forms hold it, each once, in byte order.
    pub fn stems(&self, alloc: Global, rule: u32, form: &str) -> Result<Vec<String>, NoMemory>
        requires { rule < length self.now.rules }
        ensures { IfOk result (λ v. AreStems self.now rule form.now (words_in v)) }
    {
        let letters = letters_of(alloc, form)?;
        let lines = noted(&self.by_form, form);
        let stems = self.stems_by(alloc, rule, form, &letters, lines)?;
        Ok(stems)
    }

    // Adds the stems of a form under the next rule.
    fn add_all(
        &self,
        alloc: Global,
        rule: u32,
        form: &str,
        letters: &[char],
        lines: &[Line],
        out: &mut Vec<Stem>,
    ) -> Result<(), NoMemory>
        requires known { rule < length self.now.rules }
        requires spelled { form.now ≡ encode_utf8_all letters.now }
        requires looked_up { map pair_of lines.now ≡ lines_with form.now self.now.lines }
        ensures { OnOk result (AreStemsUnder self.now rule form.now (stems_in out.old) → AreStemsUnder self.now (rule + 1) form.now (stems_in out.new)) }
    {
        let stems = self.stems_by(alloc, rule, form, letters, lines)?;
        add_under(out, rule, &stems)?;
        Ok(())
    }

    /// The stems of a form under all rules, each with its rule's number: for each rule exactly the nonempty ones whose
    /// forms hold the form, each once. They stand by rising rule, and within a rule in byte order.
    pub fn all_stems(&self, alloc: Global, form: &str) -> Result<Vec<Stem>, NoMemory>
        ensures { IfOk result (λ v. AreAllStems self.now form.now (stems_in v)) }
    {
        let letters = letters_of(alloc, form)?;
        let lines = noted(&self.by_form, form);
        let mut out = Vec::new(alloc);
        for rule in 0..self.rules() {
            self.add_all(alloc, rule, form, &letters, lines, &mut out)?;
        }
        Ok(out)
    }

    /// The number of the rules: these are numbered from 0.
    pub fn rules(&self) -> u32
        ensures { result ≡ length self.now.rules }
    {
        self.count
    }
}
