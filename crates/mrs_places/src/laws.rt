//! A law of looking.

ghost use Rattle.mrs_places.specs.Laws.{OutcomesAreOne};

/// A structure has one outcome: the same parts, or the same path that is missing first, and never both.
pub fn outcomes_are_one()
    ensures { OutcomesAreOne }
{}
