//! Phrases that are walked over.

ghost use Rattle.std.specs.Prelude.{◌≡◌, ◌<◌, ◌+◌, length};

use derivation::Tree;

/// A phrase, of whose daughters the first ones were passed.
#[derive(Clone, Copy)]
pub(crate) struct Opened<'t> {
    pub(crate) rule: u32,
    pub(crate) daughters: &'t [Tree],
    pub(crate) passed: usize,
}

impl<'t> Opened<'t> {
    /// A phrase of whose daughters none was passed.
    pub(crate) fn new(rule: u32, daughters: &'t [Tree]) -> Opened<'t>
        ensures rule { result.rule ≡ rule }
        ensures daughters { result.daughters.now ≡ daughters.now }
        ensures none { result.passed ≡ 0 }
    {
        Opened {
            rule,
            daughters,
            passed: 0,
        }
    }

    /// The same phrase with one daughter more passed.
    pub(crate) fn past(self) -> Opened<'t>
        ensures rule { result.rule ≡ self.entry.rule }
        ensures daughters { result.daughters.now ≡ self.entry.daughters.now }
        ensures passed { self.entry.passed < length self.entry.daughters.now → result.passed ≡ self.entry.passed + 1 }
    {
        Opened {
            rule: self.rule,
            daughters: self.daughters,
            passed: self.passed.saturating_add(1),
        }
    }
}
