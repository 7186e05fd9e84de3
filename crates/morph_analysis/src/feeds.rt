//! Which lexical rule may apply to which entry, and to what which rule gives.

ghost use Rattle.std.specs.Prelude.{◌≡◌, ◌<◌, IfOk};
ghost use Rattle.morph_analysis.specs.Allowed.{AllMay, SameMay, MayBut, in_table, may_go_on};

use crate::table::Table;
use lexicon::NoMemory;
use std::alloc::Global;
use std::marker::Model;

/// Which lexical rule may apply to which entry, and to what which lexical rule gives. Entries are numbered among the
/// entries and rules among the lexical rules, both in order of place. What is outside the tables may apply.
#[derive(Drop)]
pub struct Feeds {
    entries: Table,
    rules: Table,
}

impl Model for Feeds {
    ghost use Rattle.morph_analysis.specs.Allowed.{FeedsTree};
    ghost use Rattle.std.specs.Prelude.{◌≡◌};

    ghost Value = { FeedsTree };

    ghost view = { λ f. record { entries = f.entries.rows; rules = f.rules.rows; on_entry = f.entries.cells; on_rule = f.rules.cells } };

    ghost invariant = { λ f. record { on_entries : f.entries.width ≡ f.rules.rows; on_rules : f.rules.width ≡ f.rules.rows } };
}

impl Feeds {
    /// Every one of so many lexical rules may apply to each of so many entries and to what each rule gives. A table of
    /// no entries takes next to no memory, and all entries are outside of it.
    pub fn make(alloc: Global, rules: u32, entries: u32) -> Result<Feeds, NoMemory>
        ensures rules { IfOk result (λ f. f.rules ≡ rules) }
        ensures entries { IfOk result (λ f. f.entries ≡ entries) }
        ensures on_entry { IfOk result (λ f. AllMay f.on_entry) }
        ensures on_rule { IfOk result (λ f. AllMay f.on_rule) }
    {
        let on_entries = Table::make(alloc, entries, rules)?;
        let on_rules = Table::make(alloc, rules, rules)?;
        Ok(Feeds {
            entries: on_entries,
            rules: on_rules,
        })
    }

    /// Forbids a rule to apply to an entry.
    pub fn forbid_entry(&mut self, entry: u32, rule: u32)
        requires entry { entry < self.old.entries }
        requires rule { rule < self.old.rules }
        ensures rules { self.new.rules ≡ self.old.rules }
        ensures entries { self.new.entries ≡ self.old.entries }
        ensures on_entry { MayBut self.old.on_entry entry rule self.new.on_entry }
        ensures on_rule { SameMay self.old.on_rule self.new.on_rule }
    {
        self.entries.forbid(entry, rule);
    }

    /// Forbids a rule to apply to what another rule gives.
    pub fn forbid_rule(&mut self, inner: u32, outer: u32)
        requires inner { inner < self.old.rules }
        requires outer { outer < self.old.rules }
        ensures rules { self.new.rules ≡ self.old.rules }
        ensures entries { self.new.entries ≡ self.old.entries }
        ensures on_entry { SameMay self.old.on_entry self.new.on_entry }
        ensures on_rule { MayBut self.old.on_rule inner outer self.new.on_rule }
    {
        self.rules.forbid(inner, outer);
    }

    /// Whether a rule may apply to an entry.
    pub fn allows_entry(&self, entry: u32, rule: u32) -> bool
        ensures { result ≡ in_table self.now.on_entry entry rule }
    {
        self.entries.allows(entry, rule)
    }

    /// Whether a rule may apply to what another rule gives.
    pub fn allows_rule(&self, inner: u32, outer: u32) -> bool
        ensures { result ≡ in_table self.now.on_rule inner outer }
    {
        self.rules.allows(inner, outer)
    }

    /// Whether a rule may apply to what an entry and some rules over it, from the inside out, give.
    pub fn allows_after(&self, entry: u32, rules: &[u32], rule: u32) -> bool
        ensures { result ≡ may_go_on self.now entry rules.now rule }
    {
        match rules.last() {
            None => self.allows_entry(entry, rule),
            Some(last) => self.allows_rule(*last, rule),
        }
    }
}
