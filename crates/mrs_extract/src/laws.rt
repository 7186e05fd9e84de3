//! What holds of MRSs of structures as they are defined.

ghost use Rattle.mrs_extract.specs.Laws.{MrsIsOne};

use mrs_places::outcomes_are_one;

/// A law: a structure has one MRS, or one path that is missing first, and never both. It does nothing.
pub fn mrs_is_one()
    ensures { MrsIsOne }
{
    outcomes_are_one();
}
