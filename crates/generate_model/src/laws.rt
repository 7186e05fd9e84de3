//! Laws of predicates.

ghost use Rattle.generate_model.specs.Contributing.{PredicatesAreOne};

/// A law: a structure has one list of predicates at a path. It does nothing.
pub fn predicates_are_one()
    ensures { PredicatesAreOne }
{}
