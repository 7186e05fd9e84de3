//! What is asked of full structures, with what answers are right.

use crate::marked::MarkedFulls;
use answer_memo::Asked;

/// The full structures of entries, by the places of these.
#[derive(Drop)]
pub(crate) struct OfEntries<L> {
    pub(crate) fulls: L,
}

/// What lexical rules make of full structures, by the places of the rules.
#[derive(Drop)]
pub(crate) struct UnderRules<L> {
    pub(crate) fulls: L,
}

// The weight of a full structure, and none where there is none.
fn weight_of<L: MarkedFulls>(fulls: &L, full: &Option<L::Full>) -> u32 {
    match full {
        Some(full) => fulls.weight(full),
        None => 0,
    }
}

impl<L: MarkedFulls> Asked for OfEntries<L> {
    ghost use Rattle.lexical_items.specs.Known.{IsOfEntry};

    type Key = ();

    type Told = Option<L::Full>;

    ghost right = { λ s place _ told. IsOfEntry (L.signs s.fulls) (L.value s.fulls) place told };

    fn mark(&self, _key: &()) -> u64 {
        0
    }

    fn weight(&self, _key: &(), told: &Option<L::Full>) -> u32 {
        weight_of(&self.fulls, told)
    }

    fn same(&self, _key: &(), _other: &()) -> bool {
        true
    }
}

impl<L: MarkedFulls> Asked for UnderRules<L> {
    ghost use Rattle.lexical_items.specs.Known.{IsUnder};

    type Key = L::Full;

    type Told = Option<L::Full>;

    ghost right = { λ s place full told. IsUnder (L.signs s.fulls) (L.value s.fulls) place (L.value s.fulls full) told };

    fn mark(&self, full: &L::Full) -> u64 {
        self.fulls.mark(full)
    }

    fn weight(&self, full: &L::Full, told: &Option<L::Full>) -> u32 {
        self.fulls
            .weight(full)
            .saturating_add(weight_of(&self.fulls, told))
    }

    fn same(&self, full: &L::Full, other: &L::Full) -> bool {
        self.fulls.same(full, other)
    }
}
