//! Full structures that are remembered.

ghost use Rattle.std.specs.Prelude.{◌≡◌, IfOk, option_map};
ghost use Rattle.lexical_items.specs.Known.{IsOfEntry, IsUnder};

use crate::asked::{OfEntries, UnderRules};
use crate::marked::MarkedFulls;
use crate::{LexicalFulls, NoMemory};
use answer_memo::{Asked, Memo};
use std::alloc::Global;
use std::marker::Model;

/// The greatest weights of what is kept of entries, and of what lexical rules make, in words. A word is a node with its arcs, of
/// some 24 bytes, so that these are about 3 MB and 9 MB.
const MOST_ENTRIES: u64 = 131_072;

const MOST_MADE: u64 = 393_216;

/// Full structures with those that were made. In contracts they are the full structures without them.
///
/// One is made for a whole run: what is asked of it depends on the grammar alone. Threads may share it by reference.
#[derive(Drop)]
pub struct RememberedFulls<L: MarkedFulls> {
    fulls: L,
    entries: Memo<OfEntries<L>>,
    made: Memo<UnderRules<L>>,
}

impl<L: MarkedFulls> Model for RememberedFulls<L> {
    ghost use Rattle.std.specs.Prelude.{◌≡◌};

    ghost Value = { L };

    ghost coded = { L.code };

    ghost view = { λ s. s.fulls };

    ghost invariant = { λ s. (s.entries.fulls ≡ s.fulls) × (s.made.fulls ≡ s.fulls) };
}

/// One more of a full structure, where there is one.
fn again<L: MarkedFulls>(fulls: &L, full: &Option<L::Full>) -> Result<Option<L::Full>, NoMemory>
    ensures { IfOk result (λ again. option_map (L.value fulls.now) again ≡ option_map (L.value fulls.now) full.now) }
{
    match full {
        Some(full) => Ok(Some(fulls.share(full)?)),
        None => Ok(None),
    }
}

// Memos of two objects, each with the greatest weight of what is kept.
fn both<A: Asked, B: Asked>(
    alloc: Global,
    one: A,
    most_of_one: u64,
    other: B,
    most_of_other: u64,
) -> Result<(Memo<A>, Memo<B>), NoMemory>
    ensures { IfOk result (λ memos. (memos.0 ≡ one) × (memos.1 ≡ other)) }
{
    let Ok(of_one) = Memo::new(alloc, one, most_of_one) else {
        return Err(NoMemory);
    };
    let Ok(of_other) = Memo::new(alloc, other, most_of_other) else {
        return Err(NoMemory);
    };
    Ok((of_one, of_other))
}

impl<L: MarkedFulls> RememberedFulls<L> {
    /// These full structures, of which nothing is remembered yet.
    pub fn new(alloc: Global, fulls: L) -> Result<RememberedFulls<L>, NoMemory>
        ensures { IfOk result (λ s. s ≡ fulls) }
    {
        let of_entries = OfEntries { fulls };
        let of_rules = UnderRules { fulls };
        let (entries, made) = both(alloc, of_entries, MOST_ENTRIES, of_rules, MOST_MADE)?;
        Ok(RememberedFulls {
            fulls,
            entries,
            made,
        })
    }

    /// The full structures without what is remembered.
    pub fn fulls(&self) -> &L
        ensures { result.now ≡ self.now }
    {
        &self.fulls
    }

    // Remembers the full structure of the entry at a place, or that there is none, where there is room.
    fn keep_entry(&self, alloc: Global, place: u32, full: &Option<L::Full>) -> Result<(), NoMemory>
        requires { IsOfEntry (L.signs self.now) (L.value self.now) place full.now }
    {
        if self.entries.is_full() {
            return Ok(());
        }
        let copy = again(&self.fulls, full)?;
        self.entries.keep(alloc, place, (), copy);
        Ok(())
    }

    // Remembers what the lexical rule at a place made of a full structure, or that it made none, where there is room.
    fn keep_made(
        &self,
        alloc: Global,
        place: u32,
        full: &L::Full,
        made: &Option<L::Full>,
    ) -> Result<(), NoMemory>
        requires { IsUnder (L.signs self.now) (L.value self.now) place (L.value self.now full.now) made.now }
    {
        if self.made.is_full() {
            return Ok(());
        }
        let key = self.fulls.share(full)?;
        let copy = again(&self.fulls, made)?;
        self.made.keep(alloc, place, key, copy);
        Ok(())
    }
}

impl<L: MarkedFulls> LexicalFulls for RememberedFulls<L> {
    type Full = L::Full;

    type Work = L::Work;

    ghost value = { λ s full. L.value s full };

    ghost signs = { λ s. L.signs s };

    ghost entries_of = { λ s. L.entries_of s };

    ghost rules_of = { λ s. L.rules_of s };

    fn entries(&self) -> &[u32] {
        self.fulls.entries()
    }

    fn rules(&self) -> &[u32] {
        self.fulls.rules()
    }

    fn entry(
        &self,
        alloc: Global,
        work: &mut L::Work,
        place: u32,
    ) -> Result<Option<L::Full>, NoMemory> {
        if let Some(known) = self.entries.find(place, &()) {
            let told = again(&self.fulls, known)?;
            return Ok(told);
        }
        let full = self.fulls.entry(alloc, work, place)?;
        self.keep_entry(alloc, place, &full).ok();
        Ok(full)
    }

    fn under(
        &self,
        alloc: Global,
        work: &mut L::Work,
        place: u32,
        full: &L::Full,
    ) -> Result<Option<L::Full>, NoMemory> {
        if let Some(known) = self.made.find(place, full) {
            let told = again(&self.fulls, known)?;
            return Ok(told);
        }
        let made = self.fulls.under(alloc, work, place, full)?;
        self.keep_made(alloc, place, full, &made).ok();
        Ok(made)
    }

    fn may_follow(
        &self,
        alloc: Global,
        work: &mut L::Work,
        inner: u32,
        outer: u32,
    ) -> Result<bool, NoMemory> {
        self.fulls.may_follow(alloc, work, inner, outer)
    }

    fn laws(&self) {
        self.fulls.laws();
    }
}
