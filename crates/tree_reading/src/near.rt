//! How far a name goes that is none.

ghost use Rattle.tree_reading.specs.Inner.Near.{IsMostShared, is_usable};
ghost use Rattle.std.specs.Prelude.{◌≡◌};

use crate::Part;

/// Whether an instance may begin a tree, where phrases may stand or may not.
pub(crate) fn is_usable(part: Part, wide: bool) -> bool
    ensures { result ≡ is_usable part wide }
{
    match part {
        Part::Entry | Part::LexicalRule => true,
        Part::PhraseRule { daughters } => wide && daughters > 0,
        Part::Other => false,
    }
}

/// How many bytes two names have in common from their beginning.
pub(crate) fn shared(name: &[u8], other: &[u8]) -> usize
    ensures { IsMostShared name.now other.now result }
{
    let most = name.len().min(other.len());
    for k in 0..most {
        if name[k] != other[k] {
            return k;
        }
    }
    most
}
