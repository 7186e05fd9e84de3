//! The rows that a new row meets, among those that an index gives.

ghost use Rattle.std.specs.Prelude.{◌≡◌, ◌<◌, ◌≤◌, ℕ, IfOk, All, map, length, None, Some, true, slice_get, MatchOption, vec_capacity};
ghost use Rattle.std.specs.List.{find, filter};
ghost use Rattle.chart_model.specs.Chart.{partial_task, host_task, rule_tasks};
ghost use Rattle.chart_model.specs.Picked.{picked};
ghost use Rattle.chart_core.specs.View.{Belongs, rows_of, into_of, list_of, task_of, KeepsRows, write_all};
ghost use Rattle.chart_core.specs.Tests.{at_place, is_peer, is_next_host, partner_rule};
ghost use Rattle.chart_core.specs.Verdicts.{Holds, AreRight};
ghost use Rattle.chart_core.specs.Copies.{IsCopy};

use crate::history::TaskRow;
use crate::tuples::{any_among, first_frosted};
use crate::{Peer, Row, RowId, RowKind, Verdict};
use chart_model::{Cover, NoMemory, Shapes};
use std::alloc::Global;

// The first place from this one on of a verdict on this row or a later one. Verdicts and rows rise, so that a walk over rows
// passes each verdict once.
fn first_from(tested: &[Verdict], from: usize, row: u64) -> usize
    ensures { (v : _) → slice_get tested.now result ≡ Some v → row ≤ v.row.0 }
{
    let mut place = from;
    while place < tested.len() && tested[place].row.0 < row {
        place += 1;
    }
    place
}

// The verdict at this place, if it is one on this row.
fn verdict_at(tested: &[Verdict], place: usize, row: u64) -> Option<Verdict>
    ensures { MatchOption result (Unit {0}) (λ v. (v.row.0 ≡ row) × (slice_get tested.now place ≡ Some v)) }
{
    if place >= tested.len() {
        return None;
    }
    let found = tested[place];
    if found.row.0 == row {
        Some(found)
    } else {
        None
    }
}

// Whether the row is a live host of this cover and level whose shape subsumes this one.
fn is_over<S: Shapes>(
    row: &Row<S>,
    shapes: &S,
    work: &mut S::Work,
    verdict: Option<Verdict>,
    cover: &S::Cover,
    level: u32,
    shape: &S::Shape,
) -> Result<bool, NoMemory>
    requires row { Belongs (S.calculus shapes.now) (S.belongs shapes.now) row.now }
    requires shape { S.belongs shapes.now shape.now }
    requires verdict { MatchOption verdict (Unit {0}) (Holds (S.calculus shapes.now) (S.meaning shapes.now) (S.meaning shapes.now shape.now) row.now) }
    ensures { IfOk result (λ yes. yes ≡ is_peer (S.calculus shapes.now) (S.meaning shapes.now) (λ h. (S.calculus shapes.now).over h (S.meaning shapes.now shape.now)) cover.now level row.now) }
{
    if row.into.is_some() {
        return Ok(false);
    }
    match &row.shape {
        None => Ok(false),
        Some(other) => {
            if !row.cover.cmp(cover).is_eq() || row.level != level {
                return Ok(false);
            }
            match verdict {
                Some(found) => Ok(found.over),
                None => shapes.subsumes(work, other, shape),
            }
        }
    }
}

// Whether the row is a live host of this cover and level whose shape this one subsumes.
fn is_under<S: Shapes>(
    row: &Row<S>,
    shapes: &S,
    work: &mut S::Work,
    verdict: Option<Verdict>,
    cover: &S::Cover,
    level: u32,
    shape: &S::Shape,
) -> Result<bool, NoMemory>
    requires row { Belongs (S.calculus shapes.now) (S.belongs shapes.now) row.now }
    requires shape { S.belongs shapes.now shape.now }
    requires verdict { MatchOption verdict (Unit {0}) (Holds (S.calculus shapes.now) (S.meaning shapes.now) (S.meaning shapes.now shape.now) row.now) }
    ensures { IfOk result (λ yes. yes ≡ is_peer (S.calculus shapes.now) (S.meaning shapes.now) ((S.calculus shapes.now).over (S.meaning shapes.now shape.now)) cover.now level row.now) }
{
    let frosted = row.into.is_some();
    if frosted {
        return Ok(false);
    }
    match &row.shape {
        None => Ok(false),
        Some(other) => {
            if !row.cover.cmp(cover).is_eq() || row.level != level {
                return Ok(false);
            }
            match verdict {
                Some(found) => Ok(found.under),
                None => shapes.subsumes(work, shape, other),
            }
        }
    }
}

/// By what the peers of a row are looked for: its cover, level and shape, and what was found of other rows before.
#[derive(Drop)]
pub struct Sought<'x, S: Shapes> {
    pub shapes: &'x S,
    pub tested: &'x [Verdict],
    pub cover: &'x S::Cover,
    pub level: u32,
    pub shape: &'x S::Shape,
}

/// The first of these rows that is a live host of the cover and level whose shape subsumes this one.
pub fn first_over<S: Shapes>(
    rows: &[Row<S>],
    places: &[u64],
    by: &Sought<S>,
    work: &mut S::Work,
) -> Result<Option<u64>, NoMemory>
    requires rows { All (Belongs (S.calculus by.now.shapes.now) (S.belongs by.now.shapes.now)) rows.now }
    requires shape { S.belongs by.now.shapes.now by.now.shape.now }
    requires places { All (λ p. p < length rows.now) places.now }
    requires tested { AreRight (S.calculus by.now.shapes.now) (S.meaning by.now.shapes.now) (S.meaning by.now.shapes.now by.now.shape.now) rows.now by.now.tested.now }
    ensures { IfOk result (λ o. o ≡ find (at_place (is_peer (S.calculus by.now.shapes.now) (S.meaning by.now.shapes.now) (λ h. (S.calculus by.now.shapes.now).over h (S.meaning by.now.shapes.now by.now.shape.now)) by.now.cover.now by.now.level) rows.now) places.now) }
{
    let mut next = 0;
    for place in places {
        let row = &rows[*place as usize];
        next = first_from(by.tested, next, *place);
        let verdict = verdict_at(by.tested, next, *place);
        if is_over(row, by.shapes, work, verdict, by.cover, by.level, by.shape)? {
            return Ok(Some(*place));
        }
    }
    Ok(None)
}

/// Those of these rows that are live hosts of the cover and level whose shapes this one subsumes.
pub fn all_under<S: Shapes>(
    alloc: Global,
    rows: &[Row<S>],
    places: &[u64],
    by: &Sought<S>,
    work: &mut S::Work,
) -> Result<Vec<u64>, NoMemory>
    requires rows { All (Belongs (S.calculus by.now.shapes.now) (S.belongs by.now.shapes.now)) rows.now }
    requires shape { S.belongs by.now.shapes.now by.now.shape.now }
    requires places { All (λ p. p < length rows.now) places.now }
    requires tested { AreRight (S.calculus by.now.shapes.now) (S.meaning by.now.shapes.now) (S.meaning by.now.shapes.now by.now.shape.now) rows.now by.now.tested.now }
    ensures { IfOk result (λ v. v.items ≡ filter (at_place (is_peer (S.calculus by.now.shapes.now) (S.meaning by.now.shapes.now) ((S.calculus by.now.shapes.now).over (S.meaning by.now.shapes.now by.now.shape.now)) by.now.cover.now by.now.level) rows.now) places.now) }
{
    let mut found = Vec::new(alloc);
    let mut next = 0;
    for place in places {
        let row = &rows[*place as usize];
        next = first_from(by.tested, next, *place);
        let verdict = verdict_at(by.tested, next, *place);
        if is_under(row, by.shapes, work, verdict, by.cover, by.level, by.shape)? {
            found.push(*place)?;
        }
    }
    Ok(found)
}

// Whether the row is a live host of level at most `unary` whose cover joins this one on the right.
fn is_right_partner<S: Shapes>(row: &Row<S>, shapes: &S, unary: u32, cover: &S::Cover) -> bool
    ensures { result ≡ is_next_host (S.calculus shapes.now) unary cover.now row.now }
{
    row.shape.is_some()
        && row.into.is_none()
        && row.level <= unary
        && cover.joins(&row.cover, shapes.bound())
}

/// A partial that is to be there: its rule, cover and number.
#[derive(Drop)]
pub struct NewPartial<'x, C> {
    pub rule: u32,
    pub cover: &'x C,
    pub number: u64,
}

/// The tasks of a new partial: one with each of these rows that is a live host whose cover joins its cover on the right.
pub fn partial_pairs<S: Shapes>(
    alloc: Global,
    rows: &[Row<S>],
    places: &[u64],
    shapes: &S,
    unary: u32,
    new: &NewPartial<S::Cover>,
) -> Result<Vec<TaskRow>, NoMemory>
    requires places { All (λ p. p < length rows.now) places.now }
    ensures fresh { IfOk result (λ v. All (λ t. t.done ≡ None) v.items) }
    ensures pairs { IfOk result (λ v. map task_of v.items ≡ picked (S.calculus shapes.now) (partial_task (S.calculus shapes.now) unary (into_of rows.now) new.now.rule new.now.cover.now new.now.number) (slice_get (rows_of (S.meaning shapes.now) rows.now)) places.now) }
{
    let mut found = Vec::new(alloc);
    for place in places {
        let row = &rows[*place as usize];
        if is_right_partner(row, shapes, unary, new.cover) {
            found.push(TaskRow {
                rule: new.rule,
                partial: Some(RowId(new.number)),
                host: RowId(*place),
                done: None,
            })?;
        }
    }
    Ok(found)
}

// The rule of the row, where it is a partial that stays live as these rows are frosted, and its cover joins this one on the left.
fn left_partner<S: Shapes>(
    row: &Row<S>,
    rows: &[Row<S>],
    shapes: &S,
    frosted: &[u64],
    cover: &S::Cover,
) -> Option<u32>
    requires { All (λ d. d < length rows.now) (list_of row.now.daughters) }
    ensures { (n : ℕ) → result ≡ partner_rule (S.calculus shapes.now) (write_all (into_of rows.now) frosted.now n) cover.now row.now }
{
    let RowKind::Partial { rule } = row.kind else {
        return None;
    };
    if first_frosted(rows, &row.daughters).is_some() || any_among(frosted, &row.daughters) {
        return None;
    }
    if row.cover.joins(cover, shapes.bound()) {
        Some(rule)
    } else {
        None
    }
}

/// The tasks of a new host, which frosts some rows, with each of these rows that is a live partial then and whose cover
/// joins its cover on the left.
pub fn host_pairs<S: Shapes>(
    alloc: Global,
    rows: &[Row<S>],
    places: &[u64],
    shapes: &S,
    frosted: &[u64],
    cover: &S::Cover,
    number: u64,
) -> Result<Vec<TaskRow>, NoMemory>
    requires places { All (λ p. p < length rows.now) places.now }
    requires daughters { All (λ row. All (λ d. d < length rows.now) (list_of row.daughters)) rows.now }
    ensures fresh { IfOk result (λ v. All (λ t. t.done ≡ None) v.items) }
    ensures pairs { IfOk result (λ v. map task_of v.items ≡ picked (S.calculus shapes.now) (host_task (S.calculus shapes.now) (write_all (into_of rows.now) frosted.now number) cover.now number) (slice_get (rows_of (S.meaning shapes.now) rows.now)) places.now) }
{
    let mut found = Vec::new(alloc);
    for place in places {
        let row = &rows[*place as usize];
        if let Some(rule) = left_partner(row, rows, shapes, frosted, cover) {
            found.push(TaskRow {
                rule,
                partial: Some(RowId(*place)),
                host: RowId(number),
                done: None,
            })?;
        }
    }
    Ok(found)
}

/// The tasks of a new host with each rule, in order.
pub fn rule_pairs(alloc: Global, rules: u32, number: u64) -> Result<Vec<TaskRow>, NoMemory>
    ensures fresh { IfOk result (λ v. All (λ t. t.done ≡ None) v.items) }
    ensures pairs { IfOk result (λ v. map task_of v.items ≡ rule_tasks number 0 rules) }
{
    let mut found = Vec::new(alloc);
    for rule in 0..rules {
        found.push(TaskRow {
            rule,
            partial: None,
            host: RowId(number),
            done: None,
        })?;
    }
    Ok(found)
}

/// Gives each of these rows the representative `number`.
pub fn freeze<S: Shapes>(rows: &mut Vec<Row<S>>, places: &[u64], number: u64)
    requires { All (λ p. p < length rows.old.items) places.now }
    ensures into { into_of rows.new.items ≡ write_all (into_of rows.old.items) places.now number }
    ensures rows { KeepsRows rows.old.items rows.new.items }
    ensures room { vec_capacity rows.new ≡ vec_capacity rows.old }
{
    for place in places {
        let row = &mut rows[*place as usize];
        row.into = Some(RowId(number));
    }
}

// Whether the row is a live host of this cover and level.
fn is_live<S: Shapes>(row: &Row<S>, _shapes: &S, cover: &S::Cover, level: u32) -> bool
    ensures { result ≡ is_peer (S.calculus _shapes.now) (S.meaning _shapes.now) (λ _. true) cover.now level row.now }
{
    if row.into.is_some() || row.shape.is_none() {
        return false;
    }
    row.cover.cmp(cover).is_eq() && row.level == level
}

/// Those of these rows that are live hosts of the cover and level, with equal shapes.
pub fn peers_at<S: Shapes>(
    alloc: Global,
    rows: &[Row<S>],
    places: &[u64],
    shapes: &S,
    cover: &S::Cover,
    level: u32,
) -> Result<Vec<Peer<S>>, NoMemory>
    requires rows { All (Belongs (S.calculus shapes.now) (S.belongs shapes.now)) rows.now }
    requires places { All (λ p. p < length rows.now) places.now }
    ensures rows { IfOk result (λ v. map (λ peer. peer.row.0) v.items ≡ filter (at_place (is_peer (S.calculus shapes.now) (S.meaning shapes.now) (λ _. true) cover.now level) rows.now) places.now) }
    ensures copies { IfOk result (λ v. All (λ peer. IsCopy (S.belongs shapes.now) (S.meaning shapes.now) rows.now peer.row.0 peer.shape) v.items) }
{
    let mut found = Vec::new(alloc);
    for place in places {
        let row = &rows[*place as usize];
        if is_live(row, shapes, cover, level) {
            if let Some(shape) = &row.shape {
                let shape = shapes.share(alloc, shape)?;
                found.push(Peer {
                    row: RowId(*place),
                    shape,
                })?;
            }
        }
    }
    Ok(found)
}
