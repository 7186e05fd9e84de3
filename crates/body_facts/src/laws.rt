//! What follows from the facts of bodies.

ghost use Rattle.body_facts.specs.Laws.{CarriersAreEqual};

/// The law of coreferences. It does nothing.
///
/// In the closure of a body's facts, all paths that carry one coreference are equal.
pub fn coreference_law()
    ensures { CarriersAreEqual }
{}
