//! Structures of a phrase's daughters that are known.

ghost use Rattle.std.specs.Prelude.{◌≡◌, ◌<◌, ◌+◌, ◌++◌, ◌∷◌, []};
ghost use Rattle.std.specs.Arc.{arc_value};
ghost use Rattle.forest_unpack.specs.Parts.{AreParts, parts_of};

use forest_unpack::FullParts;
use rule_trees::FullStructure;
use std::sync::Arc;

/// None.
pub(crate) fn no_parts() -> FullParts<FullStructure>
    ensures parts { AreParts result }
    ensures count { result.count ≡ 0 }
    ensures none { parts_of result ≡ [] }
{
    FullParts {
        count: 0,
        a: None,
        b: None,
        c: None,
        d: None,
    }
}

/// One more, at the right, of at most four.
pub(crate) fn with_part(
    parts: FullParts<FullStructure>,
    full: Arc<FullStructure>,
) -> FullParts<FullStructure>
    ensures { AreParts parts → parts.count < 4 → AreParts result × (result.count ≡ parts.count + 1) × (parts_of result ≡ parts_of parts ++ arc_value full ∷ []) }
{
    let FullParts { count, a, b, c, .. } = parts;
    let full = Some(full);
    match count {
        0 => FullParts {
            count: 1,
            a: full,
            b: None,
            c: None,
            d: None,
        },
        1 => FullParts {
            count: 2,
            a,
            b: full,
            c: None,
            d: None,
        },
        2 => FullParts {
            count: 3,
            a,
            b,
            c: full,
            d: None,
        },
        _ => FullParts {
            count: 4,
            a,
            b,
            c,
            d: full,
        },
    }
}
