//! The rows of the group of a host.

ghost use Rattle.std.specs.Prelude.{◌≡◌, ◌<◌, ◌≤◌, ◌++◌, [], length, map, IfOk, OnOk};
ghost use Rattle.chart_model.specs.Tuples.{on_list};
ghost use Rattle.chart_model.specs.Chart.{all_free};
ghost use Rattle.chart_core.specs.Kept.{core_of, rows_in};
ghost use Rattle.chart_core.specs.View.{into_of, list_of, one_of};
ghost use Rattle.forest_unpack.specs.Plans.{row_of};
ghost use Rattle.forest_unpack.specs.Groups.{told_by, IsTold};
ghost use Rattle.forest_unpack.specs.Inner.Members.{AreMembers, Gains};

use crate::NoMemory;
use crate::members::Members;
use crate::ranks::LEVELS;
use crate::rows::GroupRow;
use chart_core::{Daughters, Finished, Row, RowId, RowKind};
use chart_model::Shapes;
use std::alloc::Global;

/// Whether a row, if there is one, is a live host.
fn is_live<S: Shapes>(finished: &Finished<S>, row: Option<RowId>) -> bool
    ensures { result ≡ all_free (into_of (rows_in (core_of finished.now))) (one_of row) }
{
    match row {
        None => true,
        Some(id) => id.0 < finished.rows() && finished.row(id).into.is_none(),
    }
}

/// Whether these are all live hosts.
fn are_live<S: Shapes>(finished: &Finished<S>, daughters: &Daughters) -> bool
    ensures { result ≡ all_free (into_of (rows_in (core_of finished.now))) (list_of daughters.now) }
{
    is_live(finished, daughters.a)
        && is_live(finished, daughters.b)
        && is_live(finished, daughters.c)
        && is_live(finished, daughters.d)
}

/// Adds the number of a row, if there is one.
fn push_row(row: Option<RowId>, into: &mut Vec<u64>) -> Result<(), NoMemory>
    ensures { OnOk result (into.new.items ≡ into.old.items ++ one_of row) }
{
    if let Some(id) = row {
        into.push(id.0)?;
    }
    Ok(())
}

/// The numbers of these rows.
fn numbers(alloc: Global, daughters: &Daughters) -> Result<Vec<u64>, NoMemory>
    ensures { IfOk result (λ numbers. numbers.items ≡ list_of daughters.now) }
{
    let mut numbers = Vec::with_capacity(alloc, daughters.count as usize)?;
    push_row(daughters.a, &mut numbers)?;
    push_row(daughters.b, &mut numbers)?;
    push_row(daughters.c, &mut numbers)?;
    push_row(daughters.d, &mut numbers)?;
    Ok(numbers)
}

/// What is told of a row, if it counts: a leaf, or a whole row whose daughters are live hosts.
fn told<S: Shapes>(
    alloc: Global,
    finished: &Finished<S>,
    row: &Row<S>,
) -> Result<Option<GroupRow>, NoMemory>
    ensures { IfOk result (λ o. map row_of (on_list o []) ≡ told_by (into_of (rows_in (core_of finished.now))) row.now) }
{
    match row.kind {
        RowKind::Leaf { name } => Ok(Some(GroupRow::Leaf { name })),
        RowKind::Partial { .. } => Ok(None),
        RowKind::Whole { rule } => {
            if are_live(finished, &row.daughters) {
                let daughters = numbers(alloc, &row.daughters)?;
                Ok(Some(GroupRow::Whole { rule, daughters }))
            } else {
                Ok(None)
            }
        }
    }
}

/// The size of a daughter, by its rank.
fn size_of(ranks: &[u64], daughter: u64) -> u64 {
    match ranks.get(daughter as usize) {
        None => 0,
        Some(rank) => *rank / LEVELS,
    }
}

/// Whether these daughters come after others in the order of trees, by their sizes from the left.
fn are_after(ranks: &[u64], daughters: &[u64], others: &[u64]) -> bool {
    for (daughter, other) in daughters.iter().zip(others) {
        let size = size_of(ranks, *daughter);
        let other_size = size_of(ranks, *other);
        if size != other_size {
            return size > other_size;
        }
    }
    false
}

/// Whether a row comes after another one: a phrase after a leaf, and phrases by their rules and the sizes of their daughters, as in the order of trees.
/// It says only where a row is put, so that lists mostly come in order; they are right in any.
fn is_after(ranks: &[u64], row: &GroupRow, other: &GroupRow) -> bool {
    match (row, other) {
        (GroupRow::Leaf { .. }, _) => false,
        (GroupRow::Whole { .. }, GroupRow::Leaf { .. }) => true,
        (
            GroupRow::Whole { rule, daughters },
            GroupRow::Whole {
                rule: other_rule,
                daughters: others,
            },
        ) => {
            if rule != other_rule {
                return rule > other_rule;
            }
            are_after(ranks, daughters, others)
        }
    }
}

/// The place of one more row in a group: behind those that it comes after. Rows are added from the last one backwards, so of rows between which rules and sizes don't tell the first one stands first.
fn place_of(ranks: &[u64], group: &[GroupRow], row: &GroupRow) -> usize
    ensures { result ≤ length group.now }
{
    group.partition_point(|other| is_after(ranks, row, other))
}

/// Adds what is told of a row at its place, if the row counts.
fn add_told<S: Shapes>(
    alloc: Global,
    finished: &Finished<S>,
    ranks: &[u64],
    row: &Row<S>,
    group: &mut Vec<GroupRow>,
) -> Result<(), NoMemory>
    ensures { OnOk result (Gains (map row_of group.old.items) (told_by (into_of (rows_in (core_of finished.now))) row.now) (map row_of group.new.items)) }
{
    let Some(told) = told(alloc, finished, row)? else {
        return Ok(());
    };
    let place = place_of(ranks, group, &told);
    group.insert(place, told)?;
    Ok(())
}

/// The rows of the group of a host that count, in the order of the trees that they give as far as rules and sizes tell it.
pub fn group_of<S: Shapes>(
    alloc: Global,
    finished: &Finished<S>,
    members: &Members,
    ranks: &[u64],
    host: u64,
) -> Result<Vec<GroupRow>, NoMemory>
    requires members { AreMembers (rows_in (core_of finished.now)) (length (rows_in (core_of finished.now))) members.now.last.items members.now.before.items }
    requires host { host < length (rows_in (core_of finished.now)) }
    ensures { IfOk result (λ group. IsTold (rows_in (core_of finished.now)) host (map row_of group.items)) }
{
    let mut group = Vec::new(alloc);
    let mut next = members.last[host as usize];
    while let Some(number) = next {
        let row = finished.row(RowId(number as u64));
        add_told(alloc, finished, ranks, row, &mut group)?;
        next = members.before[number as usize];
    }
    Ok(group)
}
