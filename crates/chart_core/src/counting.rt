//! What the live hosts say of the limits.

ghost use Rattle.std.specs.Prelude.{◌≡◌, ◌≤◌, ◌<◌, ◌^◌, All};
ghost use Rattle.chart_model.specs.Below.{IsLeastSize};
ghost use Rattle.chart_core.specs.Counted.{counts_row, tally, IsSmall, IsFoundBelow};

use crate::{ChartFault, Row};
use chart_model::{Cover, Shapes};

// Whether the row is a live host of a level in this range and of a size below the bound.
fn counts<S: Shapes>(row: &Row<S>, least: u32, most: u32, below: u64) -> bool
    requires { IsSmall S.Cover.extent row.now }
    ensures { result ≡ counts_row S.Cover.extent least most below row.now }
{
    if row.into.is_some() || row.shape.is_none() {
        return false;
    }
    least <= row.level && row.level <= most && u64::from(row.cover.size()) < below
}

/// The number of live hosts of levels in this range and of sizes below the bound.
pub(crate) fn count<S: Shapes>(rows: &[Row<S>], least: u32, most: u32, below: u64) -> u64
    requires { All (IsSmall S.Cover.extent) rows.now }
    ensures { result ≡ tally S.Cover.extent least most below rows.now }
{
    let mut count: u64 = 0;
    for row in rows {
        if counts(row, least, most, below) {
            count += 1;
        }
    }
    count
}

/// The least size by which more live hosts of levels in this range stand than the limit, if it is below the bound.
pub(crate) fn least_size<S: Shapes>(
    rows: &[Row<S>],
    least: u32,
    most: u32,
    limit: u64,
    below: u64,
) -> Option<u32>
    requires small { All (IsSmall S.Cover.extent) rows.now }
    requires below { below ≤ 2 ^ 32 }
    ensures { IsLeastSize (λ n. tally S.Cover.extent least most n rows.now) limit below result }
{
    if count(rows, least, most, below) <= limit {
        return None;
    }
    let mut low: u64 = 0;
    let mut high = below;
    while low + 1 < high {
        let middle = low + (high - low) / 2;
        if count(rows, least, most, middle) > limit {
            high = middle;
        } else {
            low = middle;
        }
    }
    Some(low as u32)
}

/// The fault that the limits answer by the live hosts of sizes below the bound.
pub(crate) fn fault_below<S: Shapes>(
    rows: &[Row<S>],
    edges: u32,
    unary: u32,
    below: u64,
) -> Option<ChartFault>
    requires small { All (IsSmall S.Cover.extent) rows.now }
    requires below { below ≤ 2 ^ 32 }
    requires narrow { unary ≤ 32 }
    ensures { IsFoundBelow S.Cover.extent edges unary below rows.now result }
{
    let chain = least_size(rows, unary + 1, unary + 1, 0, below);
    let many = least_size(rows, 0, unary, u64::from(edges), below);
    match (chain, many) {
        (None, None) => None,
        (None, Some(size)) => Some(ChartFault::Edges { size }),
        (Some(size), None) => Some(ChartFault::UnaryChain { size }),
        (Some(chain), Some(many)) => {
            if chain <= many {
                Some(ChartFault::UnaryChain { size: chain })
            } else {
                Some(ChartFault::Edges { size: many })
            }
        }
    }
}
