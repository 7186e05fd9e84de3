//! What makes the members of a class.

ghost use Rattle.std.specs.Prelude.{◌≡◌, ◌<◌, All, length, map, IfOk};
ghost use Rattle.std.specs.List.{filter};
ghost use Rattle.chart_core.specs.CoreView.{chart_of};
ghost use Rattle.chart_core.specs.Grammar.{grammar_of};
ghost use Rattle.chart_core.specs.Kept.{IsCore, core_of, rows_in};
ghost use Rattle.chart_core.specs.View.{Belongs, into_of};
ghost use Rattle.packed_forests.specs.Inner.Found.{AreFound, IsFull, lists_in};
ghost use Rattle.packed_forests.specs.Inner.Told.{is_over, makes, HasShape, IsClassAt};

use crate::ClassRows;
use crate::index::Index;
use chart_core::{Finished, Row, RowId};
use chart_model::{Cover, NoMemory, Shapes};
use std::alloc::Global;

// Whether a row has the cover and the level of a host, whose structure subsumes its own.
fn is_over<S: Shapes>(
    shapes: &S,
    work: &mut S::Work,
    host: &Row<S>,
    row: &Row<S>,
) -> Result<bool, NoMemory>
    requires host { Belongs (S.calculus shapes.now) (S.belongs shapes.now) host.now }
    requires row { Belongs (S.calculus shapes.now) (S.belongs shapes.now) row.now }
    ensures { IfOk result (λ yes. yes ≡ is_over (S.calculus shapes.now) (S.meaning shapes.now) host.now row.now) }
{
    let Some(general) = &host.shape else {
        return Ok(false);
    };
    let Some(special) = &row.shape else {
        return Ok(false);
    };
    if !row.cover.cmp(&host.cover).is_eq() || row.level != host.level {
        return Ok(false);
    }
    shapes.subsumes(work, general, special)
}

// Whether a row that counts makes members of the class of a host. A host is one of its own makers, which needs no test.
fn is_maker<S: Shapes>(
    shapes: &S,
    work: &mut S::Work,
    finished: &Finished<S>,
    host: RowId,
    row: RowId,
) -> Result<bool, NoMemory>
    requires core { IsCore (grammar_of S.Shapes S.Cover.Cover.own shapes.now) (core_of finished.now) }
    requires host { HasShape (rows_in (core_of finished.now)) host.0 }
    requires row { row.0 < length (rows_in (core_of finished.now)) }
    ensures { IfOk result (λ yes. yes ≡ makes (S.calculus shapes.now) (S.meaning shapes.now) (rows_in (core_of finished.now)) host.0 row.0) }
{
    if host.0 == row.0 {
        return Ok(true);
    }
    let top = finished.row(host);
    let maker = finished.row(row);
    is_over(shapes, work, top, maker)
}

// Those of these rows that make members of the class of a host.
fn makers_among<S: Shapes>(
    alloc: Global,
    shapes: &S,
    work: &mut S::Work,
    finished: &Finished<S>,
    host: RowId,
    places: &[u64],
) -> Result<Vec<RowId>, NoMemory>
    requires core { IsCore (grammar_of S.Shapes S.Cover.Cover.own shapes.now) (core_of finished.now) }
    requires host { HasShape (rows_in (core_of finished.now)) host.0 }
    requires places { All (λ p. p < length (rows_in (core_of finished.now))) places.now }
    ensures { IfOk result (λ v. map (λ r. r.0) v.items ≡ filter (makes (S.calculus shapes.now) (S.meaning shapes.now) (rows_in (core_of finished.now)) host.0) places.now) }
{
    let mut makers = Vec::new(alloc);
    for place in places {
        let row = RowId(*place);
        if is_maker(shapes, work, finished, host, row)? {
            makers.push(row)?;
        }
    }
    Ok(makers)
}

/// The class of a row, if that is a live host.
pub fn class_at<S: Shapes>(
    alloc: Global,
    shapes: &S,
    work: &mut S::Work,
    finished: &Finished<S>,
    index: &Index,
    row: RowId,
) -> Result<Option<ClassRows>, NoMemory>
    requires core { IsCore (grammar_of S.Shapes S.Cover.Cover.own shapes.now) (core_of finished.now) }
    requires row { row.0 < length (rows_in (core_of finished.now)) }
    requires full { IsFull index.now }
    requires found { AreFound S.Cover.cell_of (into_of (rows_in (core_of finished.now))) (rows_in (core_of finished.now)) (lists_in index.now) }
    ensures { IfOk result (λ o. IsClassAt (S.calculus shapes.now) (chart_of (S.meaning shapes.now) (core_of finished.now)) row.0 o) }
{
    let host = finished.row(row);
    if host.into.is_some() {
        return Ok(None);
    }
    if host.shape.is_none() {
        return Ok(None);
    }
    let places = index.at(host.cover.cell());
    let makers = makers_among(alloc, shapes, work, finished, row, places)?;
    Ok(Some(ClassRows { host: row, makers }))
}
