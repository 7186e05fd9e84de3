//! Full structures of daughters that are told apart and shared.

ghost use Rattle.std.specs.Prelude.{◌≡◌, true, IfOk, option_map};
ghost use Rattle.grammar_rules.specs.Told.{seen_in, all_seen};

use crate::NoMemory;
use book_signs::SignBook;
use forest_unpack::FullParts;
use rule_trees::FullStructure;
use std::sync::Arc;

// A hash with one more daughter.
fn with_part(hash: u64, part: &Option<Arc<FullStructure>>) -> u64 {
    match part {
        Some(full) => {
            (hash ^ full.mark())
                .wrapping_mul(0x9E37_79B9_7F4A_7C15)
                .rotate_left(29)
        }
        None => hash,
    }
}

/// A number by which daughters are found.
pub(crate) fn mark_of(parts: &FullParts<FullStructure>) -> u64 {
    let hash = with_part(0, &parts.a);
    let hash = with_part(hash, &parts.b);
    let hash = with_part(hash, &parts.c);
    with_part(hash, &parts.d)
}

// The weight of a daughter, and none where there is none.
fn part_weight(part: &Option<Arc<FullStructure>>) -> u32 {
    match part {
        Some(full) => full.graph().nodes(),
        None => 0,
    }
}

/// About how many words of memory daughters take.
pub(crate) fn weight_of(parts: &FullParts<FullStructure>) -> u32 {
    part_weight(&parts.a)
        .saturating_add(part_weight(&parts.b))
        .saturating_add(part_weight(&parts.c))
        .saturating_add(part_weight(&parts.d))
}

// Whether two daughters are seen to be the same, or there are none.
fn same_part(
    signs: &SignBook<'_>,
    part: &Option<Arc<FullStructure>>,
    other: &Option<Arc<FullStructure>>,
) -> bool
    ensures { result ≡ true → option_map (seen_in signs.now) part.now ≡ option_map (seen_in signs.now) other.now }
{
    match (part, other) {
        (Some(full), Some(other)) => full.same(other, signs),
        (None, None) => true,
        _ => false,
    }
}

/// Whether all daughters are seen to be the same; where they aren't, nothing is said.
pub(crate) fn same_parts(
    signs: &SignBook<'_>,
    parts: &FullParts<FullStructure>,
    others: &FullParts<FullStructure>,
) -> bool
    ensures { result ≡ true → all_seen signs.now parts.now ≡ all_seen signs.now others.now }
{
    if !same_part(signs, &parts.a, &others.a) {
        return false;
    }
    if !same_part(signs, &parts.b, &others.b) {
        return false;
    }
    if !same_part(signs, &parts.c, &others.c) {
        return false;
    }
    same_part(signs, &parts.d, &others.d)
}

// One more of a daughter.
fn part_again(
    _signs: &SignBook<'_>,
    part: &Option<Arc<FullStructure>>,
) -> Result<Option<Arc<FullStructure>>, NoMemory>
    ensures { IfOk result (λ again. option_map (seen_in _signs.now) again ≡ option_map (seen_in _signs.now) part.now) }
{
    match part {
        Some(full) => Ok(Some(full.clone()?)),
        None => Ok(None),
    }
}

/// The same daughters once more.
pub(crate) fn parts_again(
    signs: &SignBook<'_>,
    parts: &FullParts<FullStructure>,
) -> Result<FullParts<FullStructure>, NoMemory>
    ensures { IfOk result (λ again. all_seen signs.now again ≡ all_seen signs.now parts.now) }
{
    Ok(FullParts {
        count: parts.count,
        a: part_again(signs, &parts.a)?,
        b: part_again(signs, &parts.b)?,
        c: part_again(signs, &parts.c)?,
        d: part_again(signs, &parts.d)?,
    })
}

/// One more of a full structure, where there is one.
pub(crate) fn full_again(full: &Option<FullStructure>) -> Result<Option<FullStructure>, NoMemory>
    ensures { IfOk result (λ again. again ≡ full.now) }
{
    match full {
        Some(full) => Ok(Some(full.share()?)),
        None => Ok(None),
    }
}
