//! The packed forest of a finished chart: its classes, and what makes the members of each.
//!
//! Packing by subsumption, and packed forests: Oepen and Carroll 2000.
#![tactic(auto)]

ghost use Rattle.std.specs.Prelude.{◌≡◌, IfOk};
ghost use Rattle.chart_core.specs.CoreView.{chart_of, leaves_of, limits_of};
ghost use Rattle.chart_core.specs.Grammar.{grammar_of};
ghost use Rattle.chart_core.specs.Kept.{core_of};
ghost use Rattle.chart_core.specs.Passed.{IsPassed};
ghost use Rattle.packed_forests.specs.Rows.{AreClassRows, RowsAreMakers};

mod counting;
mod index;
mod makers;

use chart_core::{Finished, RowId};
use chart_model::{NoMemory, Shapes};
use counting::index_of;
use makers::class_at;
use std::alloc::Global;

/// A packed class of a finished chart: its live host, and the rows that make its members, by rising number: leaves, and mothers over live
/// hosts, of its cover and level, whose structures the host's subsumes.
#[derive(Drop)]
pub struct ClassRows {
    pub host: RowId,
    pub makers: Vec<RowId>,
}

/// The packed classes of a finished chart, in order of their hosts' rows, each with all rows that make its members. A row may stand under
/// several classes. `NoMemory` may come in place of any answer.
pub fn class_rows<S: Shapes>(
    alloc: Global,
    shapes: &S,
    work: &mut S::Work,
    finished: &Finished<S>,
) -> Result<Vec<ClassRows>, NoMemory>
    requires passed { IsPassed (grammar_of S.Shapes S.Cover.Cover.own shapes.now) (S.full shapes.now) (S.agrees shapes.now) (limits_of (core_of finished.now)) (leaves_of (S.meaning shapes.now) (core_of finished.now)) finished.now }
    ensures { IfOk result (λ v. AreClassRows (S.calculus shapes.now) (limits_of (core_of finished.now)) (leaves_of (S.meaning shapes.now) (core_of finished.now)) (chart_of (S.meaning shapes.now) (core_of finished.now)) v.items) }
{
    let index = index_of(alloc, finished)?;
    let mut classes = Vec::new(alloc);
    for number in 0..finished.rows() {
        if let Some(class) = class_at(alloc, shapes, work, finished, &index, RowId(number))? {
            classes.push(class)?;
        }
    }
    Ok(classes)
}

/// A law: in a finished chart within the limits the rows that stand under a live host are what makes the members of its class. It does nothing.
pub fn forest_laws<S: Shapes>(_shapes: &S)
    ensures { RowsAreMakers (S.calculus _shapes.now) }
{}
