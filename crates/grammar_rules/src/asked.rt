//! What is asked of full structures, with what answers are right.

use crate::parts::{mark_of, same_parts, weight_of};
use answer_memo::Asked;
use book_signs::SignBook;
use forest_unpack::FullParts;
use rule_trees::FullStructure;

/// What rules make of full structures, by the places of the rules.
#[derive(Drop)]
pub(crate) struct UnderRules<'a> {
    pub(crate) signs: &'a SignBook<'a>,
}

/// Whether full structures are rooted.
#[derive(Drop)]
pub(crate) struct Rooted<'a> {
    pub(crate) signs: &'a SignBook<'a>,
}

impl<'a> Asked for UnderRules<'a> {
    ghost use Rattle.grammar_rules.specs.Told.{all_seen, TellsMother};

    type Key = FullParts<FullStructure>;

    type Told = Option<FullStructure>;

    ghost right = { λ s place parts told. TellsMother s.signs.now place (all_seen s.signs.now parts) told };

    fn mark(&self, parts: &FullParts<FullStructure>) -> u64 {
        mark_of(parts)
    }

    fn weight(&self, parts: &FullParts<FullStructure>, told: &Option<FullStructure>) -> u32 {
        let made = match told {
            Some(full) => full.graph().nodes(),
            None => 0,
        };
        weight_of(parts).saturating_add(made)
    }

    fn same(&self, parts: &FullParts<FullStructure>, others: &FullParts<FullStructure>) -> bool {
        same_parts(self.signs, parts, others)
    }
}

impl<'a> Asked for Rooted<'a> {
    ghost use Rattle.rule_trees.specs.Mothers.{view_in};
    ghost use Rattle.grammar_rules.specs.Told.{TellsRooted};

    type Key = FullStructure;

    type Told = bool;

    ghost right = { λ s _ full told. TellsRooted s.signs.now (view_in s.signs.now full.graph) told };

    fn mark(&self, full: &FullStructure) -> u64 {
        full.mark()
    }

    fn weight(&self, full: &FullStructure, _told: &bool) -> u32 {
        full.graph().nodes()
    }

    fn same(&self, full: &FullStructure, other: &FullStructure) -> bool {
        full.same(other, self.signs)
    }
}
