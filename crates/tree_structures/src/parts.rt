//! Full structures of daughters as the parts of a phrase.

ghost use Rattle.std.specs.Prelude.{◌≡◌, ◌≤◌, length, map};
ghost use Rattle.std.specs.Arc.{arc_value};
ghost use Rattle.forest_unpack.specs.Parts.{AreParts, parts_of};

use forest_unpack::FullParts;
use rule_trees::FullStructure;
use std::sync::Arc;

/// The full structures of at most four daughters, from the left.
pub(crate) fn in_parts(fulls: Vec<Arc<FullStructure>>) -> FullParts<FullStructure>
    requires { length fulls.items ≤ 4 }
    ensures parts { AreParts result }
    ensures count { result.count ≡ length fulls.items }
    ensures are { parts_of result ≡ map arc_value fulls.items }
{
    let count = fulls.len() as u32;
    let mut fulls = fulls.into_iter();
    FullParts {
        count,
        a: fulls.next(),
        b: fulls.next(),
        c: fulls.next(),
        d: fulls.next(),
    }
}
