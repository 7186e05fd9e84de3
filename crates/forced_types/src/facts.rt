//! Facts that are given alone: they are put at the root, and are tested there.

ghost use Rattle.std.specs.Prelude.{◌≡◌, ◌<◌, length, true, slice_index_or};
ghost use Rattle.fs_graph.specs.declared.facts.Fact.{Fact as FactValue};
ghost use Rattle.fs_graph.specs.Facts.{claim_of, claims_of};
ghost use Rattle.forced_types.specs.Inner.Sound.{AreSound, most_of};
ghost use Rattle.forced_types.specs.Inner.Closed.{IsFlat, HoldsAt, AreHeld};

use crate::given::Given;
use crate::nodes::Nodes;
use fs_closing::NoMemory;
use std::alloc::Global;

impl Nodes {
    // A fact that is given is put at the root.
    fn put_fact(&mut self, alloc: Global, given: Given<'_>, k: usize) -> Result<(), NoMemory>
        requires sound { AreSound given self.old }
        requires fact { k < length given.facts.now }
        ensures { AreSound given.entry self.new }
    {
        self.put(alloc, given, 0, &given.facts[k])
    }

    /// All facts that are given are put at the root.
    pub fn put_facts(&mut self, alloc: Global, given: Given<'_>) -> Result<(), NoMemory>
        requires { AreSound given self.old }
        ensures { AreSound given.entry self.new }
    {
        for k in 0..given.facts.len() {
            self.put_fact(alloc, given, k)?;
        }
        Ok(())
    }

    // Whether a fact that is given holds at the root.
    fn holds_fact(&self, given: Given<'_>, k: usize) -> bool
        requires sound { AreSound given self.now }
        requires flat { IsFlat self.now }
        requires fact { k < length given.facts.now }
        ensures { result ≡ true → (d : FactValue) → HoldsAt given.entry.system.now.types self.now 0 (most_of given.entry) (claim_of (slice_index_or given.entry.facts.now k d)) }
    {
        self.holds(given, 0, given.most(), &given.facts[k])
    }

    /// Whether all facts that are given hold at the root.
    pub fn holds_facts(&self, given: Given<'_>) -> bool
        requires sound { AreSound given self.now }
        requires flat { IsFlat self.now }
        ensures { result ≡ true → AreHeld given.entry.system.now.types self.now 0 (most_of given.entry) (claims_of given.entry.facts.now) }
    {
        for k in 0..given.facts.len() {
            if !self.holds_fact(given, k) {
                return false;
            }
        }
        true
    }
}
