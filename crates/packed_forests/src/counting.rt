//! Rows that count, found by their covers: leaves, and mothers over live hosts.

ghost use Rattle.std.specs.Prelude.{◌≡◌, ◌+◌, ◌*◌, ◌<◌, length, take, IfOk, OnOk, Some, slice_get};
ghost use Rattle.chart_model.specs.Chart.{all_free};
ghost use Rattle.chart_core.specs.Kept.{core_of, rows_in};
ghost use Rattle.chart_core.specs.View.{into_of, list_of, one_of};
ghost use Rattle.packed_forests.specs.Inner.Found.{counts, lists_in, IsFull, AreFound};

use crate::index::Index;
use chart_core::{Daughters, Finished, Row, RowId, RowKind};
use chart_model::{Cover, NoMemory, Shapes};
use std::alloc::Global;

// Whether a row, if there is one, is live.
fn is_live<S: Shapes>(finished: &Finished<S>, row: Option<RowId>) -> bool
    ensures { result ≡ all_free (into_of (rows_in (core_of finished.now))) (one_of row) }
{
    match row {
        None => true,
        Some(id) => id.0 < finished.rows() && finished.row(id).into.is_none(),
    }
}

// Whether these are all live.
fn are_live<S: Shapes>(finished: &Finished<S>, daughters: &Daughters) -> bool
    ensures { result ≡ all_free (into_of (rows_in (core_of finished.now))) (list_of daughters.now) }
{
    is_live(finished, daughters.a)
        && is_live(finished, daughters.b)
        && is_live(finished, daughters.c)
        && is_live(finished, daughters.d)
}

// Whether a row counts.
fn counts<S: Shapes>(finished: &Finished<S>, row: &Row<S>) -> bool
    ensures { result ≡ counts (into_of (rows_in (core_of finished.now))) row.now }
{
    match row.kind {
        RowKind::Leaf { .. } => true,
        RowKind::Partial { .. } => false,
        RowKind::Whole { .. } => are_live(finished, &row.daughters),
    }
}

// Enters a row, if it counts, behind those before it.
fn enter<S: Shapes>(finished: &Finished<S>, number: u64, index: &mut Index) -> Result<(), NoMemory>
    requires made { number < length (rows_in (core_of finished.now)) }
    requires full { IsFull index.old }
    requires found { AreFound S.Cover.cell_of (into_of (rows_in (core_of finished.now))) (take number (rows_in (core_of finished.now))) (lists_in index.old) }
    ensures full { IsFull index.new }
    ensures found { OnOk result (AreFound S.Cover.cell_of (into_of (rows_in (core_of finished.now))) (take (number + 1) (rows_in (core_of finished.now))) (lists_in index.new)) }
{
    let row = finished.row(RowId(number));
    if counts(finished, row) {
        index.push(row.cover.cell(), number)?;
    }
    Ok(())
}

/// The rows that count, found by their covers.
pub fn index_of<S: Shapes>(alloc: Global, finished: &Finished<S>) -> Result<Index, NoMemory>
    ensures full { IfOk result IsFull }
    ensures found { IfOk result (λ x. AreFound S.Cover.cell_of (into_of (rows_in (core_of finished.now))) (rows_in (core_of finished.now)) (lists_in x)) }
{
    let mut index = Index::new(alloc, finished.rows() as usize / 8 + 1)?;
    for number in 0..finished.rows() {
        enter(finished, number, &mut index)?;
    }
    Ok(index)
}
