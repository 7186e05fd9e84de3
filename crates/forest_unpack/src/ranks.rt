//! Ranks of hosts, which fall from each host to the daughters of its rows.

ghost use Rattle.std.specs.Prelude.{◌≡◌, ◌<◌, ◌^◌, length, map, take, IfOk, MatchOption};
ghost use Rattle.chart_core.specs.Grammar.{grammar_of};
ghost use Rattle.chart_core.specs.Kept.{IsCore, core_of, rows_in};
ghost use Rattle.forest_unpack.specs.Ranks.{IsSized, rank_by};

use crate::NoMemory;
use chart_core::{Finished, Row, RowId};
use chart_model::{Cover, Shapes};
use std::alloc::Global;

/// More than the levels that there are, so that ranks go by size first.
pub const LEVELS: u64 = 64;

/// The rank of a leaf or a whole row: by its size, and within a size by its level.
fn rank_of<S: Shapes>(row: &Row<S>) -> u64
    requires { IsSized S.Cover.extent row.now }
    ensures { result ≡ rank_by S.Cover.extent row.now }
{
    match &row.shape {
        None => 0,
        Some(_) => row.cover.size() as u64 * LEVELS + row.level as u64,
    }
}

/// The ranks of the rows, by number.
pub fn ranks_of<S: Shapes>(alloc: Global, finished: &Finished<S>) -> Result<Vec<u64>, NoMemory>
    requires { (s : S) × IsCore (grammar_of S.Shapes S.Cover.Cover.own s) (core_of finished.now) }
    ensures { IfOk result (λ ranks. ranks.items ≡ map (rank_by S.Cover.extent) (rows_in (core_of finished.now))) }
{
    let mut ranks = Vec::with_capacity(alloc, finished.rows() as usize)?;
    for i in 0..finished.rows() {
        let row = finished.row(RowId(i));
        ranks.push(rank_of(row))?;
    }
    Ok(ranks)
}
