//! The daughters of rows.

ghost use Rattle.std.specs.Prelude.{◌≡◌, ◌<◌, ◌++◌, ◌∷◌, [], All, IfOk, length};
ghost use Rattle.chart_core.specs.Copies.{IsWholeAt, IsPartOf, ArePartsOf};
ghost use Rattle.chart_model.specs.Chart as model;
ghost use Rattle.chart_core.specs.View.{AreDaughters, Belongs, list_of, number_of, one_of, into_of, rows_of, task_of};
ghost use Rattle.chart_core.specs.Tests.{any_in, IsLow, TaskFits};

use crate::history::TaskRow;
use crate::{Daughters, Row, RowId};
use chart_model::{Cover, NoMemory, Part, Shapes, Tuple};
use std::alloc::Global;

/// These daughters with one more to their right.
pub fn with_host(front: Daughters, host: RowId) -> Daughters
    requires daughters { AreDaughters front }
    requires short { front.count < 4 }
    ensures daughters { AreDaughters result }
    ensures list { list_of result ≡ list_of front ++ host.0 ∷ [] }
{
    let count = front.count + 1;
    match (front.a, front.b, front.c) {
        (None, _, _) => Daughters {
            count,
            a: Some(host),
            ..front
        },
        (Some(_), None, _) => Daughters {
            count,
            b: Some(host),
            ..front
        },
        (Some(_), Some(_), None) => Daughters {
            count,
            c: Some(host),
            ..front
        },
        (Some(_), Some(_), Some(_)) => Daughters {
            count,
            d: Some(host),
            ..front
        },
    }
}

// The row, where there is one and it has a representative.
fn frosted<S: Shapes>(rows: &[Row<S>], row: Option<RowId>) -> Option<RowId>
    requires { All (λ d. d < length rows.now) (one_of row) }
    ensures { number_of result ≡ model.first_frosted (into_of rows.now) (one_of row) }
{
    let id = row?;
    if rows[id.0 as usize].into.is_some() {
        Some(id)
    } else {
        None
    }
}

/// The first of these daughters that has a representative.
pub fn first_frosted<S: Shapes>(rows: &[Row<S>], daughters: &Daughters) -> Option<RowId>
    requires { All (λ d. d < length rows.now) (list_of daughters.now) }
    ensures { number_of result ≡ model.first_frosted (into_of rows.now) (list_of daughters.now) }
{
    if let Some(id) = frosted(rows, daughters.a) {
        return Some(id);
    }
    if let Some(id) = frosted(rows, daughters.b) {
        return Some(id);
    }
    if let Some(id) = frosted(rows, daughters.c) {
        return Some(id);
    }
    frosted(rows, daughters.d)
}

// Whether the row is among these.
fn is_among(places: &[u64], row: Option<RowId>) -> bool
    ensures { result ≡ any_in places.now (one_of row) }
{
    match row {
        None => false,
        Some(id) => places.contains(&id.0),
    }
}

/// Whether one of these daughters is among these rows.
pub fn any_among(places: &[u64], daughters: &Daughters) -> bool
    ensures { result ≡ any_in places.now (list_of daughters.now) }
{
    is_among(places, daughters.a)
        || is_among(places, daughters.b)
        || is_among(places, daughters.c)
        || is_among(places, daughters.d)
}

/// No daughters.
pub fn no_daughters() -> Daughters
    ensures daughters { AreDaughters result }
    ensures list { list_of result ≡ [] }
{
    Daughters {
        count: 0,
        a: None,
        b: None,
        c: None,
        d: None,
    }
}

/// The daughters that a task puts together.
pub fn daughters_of<S: Shapes>(rows: &[Row<S>], task: TaskRow) -> Daughters
    requires daughters { All (λ row. AreDaughters row.daughters) rows.now }
    requires fits { TaskFits rows.now task }
    ensures daughters { AreDaughters result }
    ensures list { (s : S) → list_of result ≡ model.daughters (rows_of (S.meaning s) rows.now) (task_of task) }
{
    let front = match task.partial {
        None => no_daughters(),
        Some(partial) => rows[partial.0 as usize].daughters,
    };
    with_host(front, task.host)
}

/// The level of a row over these daughters: one more than that of a single daughter, and 0 over more.
pub fn level_over<S: Shapes>(rows: &[Row<S>], daughters: &Daughters) -> u32
    requires daughters { AreDaughters daughters.now }
    requires in_range { All (λ d. d < length rows.now) (list_of daughters.now) }
    requires low { All (IsLow rows.now) (list_of daughters.now) }
    ensures { (s : S) → result ≡ model.level_above (model.levels_at (rows_of (S.meaning s) rows.now) (list_of daughters.now)) }
{
    match (daughters.a, daughters.b) {
        (Some(only), None) => rows[only.0 as usize].level + 1,
        _ => 0,
    }
}

// A daughter's part, with an equal shape and an equal cover.
fn part_of<S: Shapes>(
    alloc: Global,
    rows: &[Row<S>],
    shapes: &S,
    row: Option<RowId>,
) -> Result<Option<Part<S::Shape, S::Cover>>, NoMemory>
    requires rows { All (Belongs (S.calculus shapes.now) (S.belongs shapes.now)) rows.now }
    requires in_range { All (λ d. d < length rows.now) (one_of row) }
    requires whole { All (IsWholeAt rows.now) (one_of row) }
    ensures { IfOk result (IsPartOf (S.belongs shapes.now) (S.meaning shapes.now) rows.now row) }
{
    let Some(id) = row else {
        return Ok(None);
    };
    let daughter = &rows[id.0 as usize];
    match &daughter.shape {
        None => Ok(None),
        Some(shape) => {
            let shape = shapes.share(alloc, shape)?;
            let cover = daughter.cover.share(alloc)?;
            Ok(Some(Part { shape, cover }))
        }
    }
}

/// The tuple of these daughters, with equal shapes and covers.
pub fn tuple_of<S: Shapes>(
    alloc: Global,
    rows: &[Row<S>],
    shapes: &S,
    daughters: &Daughters,
) -> Result<Tuple<S::Shape, S::Cover>, NoMemory>
    requires daughters { AreDaughters daughters.now }
    requires rows { All (Belongs (S.calculus shapes.now) (S.belongs shapes.now)) rows.now }
    requires in_range { All (λ d. d < length rows.now) (list_of daughters.now) }
    requires whole { All (IsWholeAt rows.now) (list_of daughters.now) }
    ensures { IfOk result (ArePartsOf (S.belongs shapes.now) (S.meaning shapes.now) rows.now daughters.now) }
{
    let a = part_of(alloc, rows, shapes, daughters.a)?;
    let b = part_of(alloc, rows, shapes, daughters.b)?;
    let c = part_of(alloc, rows, shapes, daughters.c)?;
    let d = part_of(alloc, rows, shapes, daughters.d)?;
    Ok(Tuple {
        count: daughters.count,
        a,
        b,
        c,
        d,
    })
}
