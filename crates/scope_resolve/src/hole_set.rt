//! Sets of open holes.

ghost use Rattle.std.specs.Prelude.{◌≡◌, ◌≢◌, ◌↔◌, ◌&&◌, ◌||◌, IsTrue, ℕ, true, false};
ghost use Rattle.scope_resolve.specs.Inner.Masks.{seat, has, every};

/// Open holes by their places in a list. The places from 63 on share the last bit, so a set has all of these or none.
#[derive(Clone, Copy, Debug, PartialEq, Eq)]
pub(crate) struct HoleSet {
    pub(crate) bits: u64,
}

impl HoleSet {
    /// Each open hole.
    pub(crate) fn all() -> HoleSet
        ensures is { result ≡ every }
        ensures has { (place : ℕ) → has result place ≡ true }
    {
        HoleSet { bits: u64::MAX }
    }

    /// No open hole.
    pub(crate) fn none() -> HoleSet
        ensures { (place : ℕ) → has result place ≡ false }
    {
        HoleSet { bits: 0 }
    }

    /// The set and the open hole at this place.
    pub(crate) fn with(self, place: usize) -> HoleSet
        ensures kept { (at : ℕ) → has self at ≡ true → has result at ≡ true }
        ensures added { has result place ≡ true }
        ensures others { (at : ℕ) → seat at ≢ seat place → has result at ≡ has self at }
    {
        HoleSet {
            bits: self.bits | 1 << place.min(63),
        }
    }

    /// What both sets have.
    pub(crate) fn meet(self, other: HoleSet) -> HoleSet
        ensures { (place : ℕ) → has result place ≡ (has self place && has other place) }
    {
        HoleSet {
            bits: self.bits & other.bits,
        }
    }

    /// What one of the sets has.
    pub(crate) fn join(self, other: HoleSet) -> HoleSet
        ensures { (place : ℕ) → has result place ≡ (has self place || has other place) }
    {
        HoleSet {
            bits: self.bits | other.bits,
        }
    }

    /// Whether the set has no open hole.
    pub(crate) fn is_empty(self) -> bool
        ensures { IsTrue result ↔ ((place : ℕ) → has self place ≡ false) }
    {
        self.bits == 0
    }

    /// Whether the set has the open hole at this place.
    pub(crate) fn has(self, place: usize) -> bool
        ensures { result ≡ has self place }
    {
        (self.bits >> place.min(63)) & 1 == 1
    }
}
