//! The full structures of chains, made from their entries outwards.

ghost use Rattle.std.specs.Prelude.{◌≡◌, IfOk};

use crate::LexicalFulls;
use crate::trees::{entry_place, rule_place};
use morph_analysis::{Feeds, Maker, NoMemory};
use std::alloc::Global;

/// The full structures of the chains that a table allows. One of more than so many rules is enough.
#[derive(Drop)]
pub(crate) struct FullChains<'a, F> {
    pub(crate) fulls: &'a F,
    pub(crate) feeds: &'a Feeds,
    pub(crate) most: u32,
}

impl<'a, F: LexicalFulls> Maker for FullChains<'a, F> {
    ghost use Rattle.tree_model.specs.Structures.{Structure};
    ghost use Rattle.lexical_items.specs.Inner.Making.{IsAllowedFull};
    ghost use Rattle.std.specs.Prelude.{◌<◌, length};

    type Made = F::Full;

    type Work = F::Work;

    ghost Value = { Structure };

    ghost value = { λ s full. F.value s.fulls.now full };

    ghost makes = { λ s entry rules f. IsAllowedFull (F.signs s.fulls.now) (F.entries_of s.fulls.now) (F.rules_of s.fulls.now) s.feeds.now entry rules f };

    ghost enough = { λ s rules. s.most < length rules };

    fn begin(
        &self,
        alloc: Global,
        work: &mut F::Work,
        entry: u32,
    ) -> Result<Option<F::Full>, NoMemory> {
        if entry as usize >= self.fulls.entries().len() {
            return Ok(None);
        }
        let place = entry_place(self.fulls, entry);
        match self.fulls.entry(alloc, work, place) {
            Ok(full) => Ok(full),
            Err(_) => Err(NoMemory),
        }
    }

    fn go_on(
        &self,
        alloc: Global,
        work: &mut F::Work,
        entry: u32,
        rules: &[u32],
        made: &F::Full,
        rule: u32,
    ) -> Result<Option<F::Full>, NoMemory> {
        self.fulls.laws();
        if rule as usize >= self.fulls.rules().len() {
            return Ok(None);
        }
        if !self.feeds.allows_after(entry, rules, rule) {
            return Ok(None);
        }
        let place = rule_place(self.fulls, rule);
        match self.fulls.under(alloc, work, place, made) {
            Ok(full) => Ok(full),
            Err(_) => Err(NoMemory),
        }
    }

    fn is_enough(&self, rules: &[u32]) -> bool {
        rules.len() > self.most as usize
    }

    fn laws(&self) {
        self.fulls.laws();
    }
}
