//! The trees that are written for an item, beside those that came.
ghost use Rattle.std.specs.Prelude.{◌≡◌, ◌≢◌, ◌<◌, ◌^◌, [], length, map, IfOk};
ghost use Rattle.profile_reports.specs.Outcomes.{Outcome};
ghost use Rattle.profile_reports.specs.Views.{Keeps, HasTexts, texts_kept, got_kept};
ghost use Rattle.profile_reports.specs.Comparing.{compared_result, result_of};

use crate::texts::{count_all, count_gained, set_of};
use crate::{Came, Got, ItemResult, NoMemory};
use std::alloc::Global;

impl ItemResult {
    ghost use Rattle.std.specs.Prelude.{◌≡◌};
    ghost use Rattle.profile_reports.specs.Comparing.{plain_result};

    /// What is found of the item at a place, where no trees are written for it, or it is bad.
    pub fn plain(place: u32, got: Got) -> ItemResult
        ensures { result ≡ plain_result place got }
    {
        ItemResult {
            item: place,
            got,
            kept: 0,
            lost: 0,
            gained: 0,
        }
    }
}

// What is told of what came.
fn got_of(came: &Came) -> Got
    requires { length (texts_kept came.now) < 2 ^ 32 }
    ensures { result ≡ got_kept came.now }
{
    match came {
        Came::LexicalDepth => Got::LexicalDepth,
        Came::UnaryChain => Got::UnaryChain,
        Came::Edges => Got::Edges,
        Came::TooManyReadings => Got::TooManyReadings,
        Came::Readings { count } => Got::Readings { count: *count },
        Came::Trees { texts } => Got::Readings {
            count: texts.len() as u32,
        },
    }
}

// The texts that are kept.
fn texts_of(came: &Came) -> &[Vec<u8>]
    ensures { map (λ t. t.items) result.now ≡ texts_kept came.now }
{
    match came {
        Came::Trees { texts } => texts,
        _ => &[],
    }
}

// The result of the item at a place, where trees are written for it and these came.
fn compare(
    alloc: Global,
    place: u32,
    got: Got,
    written: &[Vec<u8>],
    came: &[Vec<u8>],
) -> Result<ItemResult, NoMemory>
    requires written { length written.now < 2 ^ 32 }
    requires came { length came.now < 2 ^ 32 }
    ensures { IfOk result (λ r. r ≡ compared_result place got (map (λ t. t.items) written.now) (map (λ t. t.items) came.now)) }
{
    let set = set_of(alloc, came)?;
    let counted = count_all(alloc, written, &set)?;
    let gained = count_gained(&counted.texts, came);
    Ok(ItemResult {
        item: place,
        got,
        kept: counted.kept,
        lost: counted.lost,
        gained,
    })
}

/// What is found of the item at a place that isn't bad, by the trees that are written for it and what came of its sentence. The texts of
/// the trees that came are needed only where trees are written.
pub fn result_of(
    alloc: Global,
    place: u32,
    written: &[Vec<u8>],
    came: &Came,
) -> Result<ItemResult, NoMemory>
    requires written { length written.now < 2 ^ 32 }
    requires few { length (texts_kept came.now) < 2 ^ 32 }
    requires texts { written.now ≢ [] → HasTexts came.now }
    ensures { IfOk result (λ r. (outcome : Outcome) → Keeps came.now outcome → r ≡ result_of place (map (λ t. t.items) written.now) outcome) }
{
    let got = got_of(came);
    if written.is_empty() {
        return Ok(ItemResult::plain(place, got));
    }
    compare(alloc, place, got, written, texts_of(came))
}
