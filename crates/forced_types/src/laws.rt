//! What is proved of verdicts.

ghost use Rattle.forced_types.specs.Verdicts.{VerdictsAreRight, VerdictsAreOne};
ghost use Rattle.forced_types.specs.Limits.{VerdictsWithinAreOne};

/// The laws of verdicts. It does nothing.
///
/// Claims go together exactly where the verdict on them says so, and there is one verdict on them at most, within a limit on paths too.
pub fn forced_laws()
    ensures right { VerdictsAreRight }
    ensures one { VerdictsAreOne }
    ensures within { VerdictsWithinAreOne }
{}
