//! Which rows stand in the group of each host.

ghost use Rattle.std.specs.Prelude.{◌≡◌, ◌<◌, ◌≤◌, ◌+◌, ◌++◌, ◌∷◌, [], All, None, Some, length, slice_set, IfOk, IsTrue, OnOk, true};
ghost use Rattle.chart_model.specs.Grown.{LeadsTo};
ghost use Rattle.chart_core.specs.Grammar.{grammar_of};
ghost use Rattle.chart_core.specs.Kept.{IsCore, core_of, rows_in};
ghost use Rattle.chart_core.specs.Sound.{is_partial_kind};
ghost use Rattle.chart_core.specs.View.{into_of};
ghost use Rattle.forest_unpack.specs.Inner.Members.{AreMembers, last_at};

use crate::NoMemory;
use chart_core::{Finished, Row, RowId, RowKind};
use chart_model::Shapes;
use std::alloc::Global;

/// The rows of groups by number: of each host the last row of its group, and of each row the one before it in the same group.
#[derive(Drop)]
pub struct Members {
    pub last: Vec<Option<u32>>,
    pub before: Vec<Option<u32>>,
}

/// The last representative of a row: the host that it is packed or frosted into, by way of others; a row that is neither is its own.
pub fn host_of<S: Shapes>(finished: &Finished<S>, row: RowId) -> RowId
    requires core { (s : S) × IsCore (grammar_of S.Shapes S.Cover.Cover.own s) (core_of finished.now) }
    requires made { row.0 < length (rows_in (core_of finished.now)) }
    ensures { LeadsTo (into_of (rows_in (core_of finished.now))) row.0 result.0 }
{
    let Some(first) = finished.row(row).into else {
        return row;
    };
    let mut host = first;
    while let Some(next) = finished.row(host).into {
        host = next;
    }
    host
}

/// No row yet in the groups of so many hosts.
fn no_last(alloc: Global, count: usize) -> Result<Vec<Option<u32>>, NoMemory>
    ensures length { IfOk result (λ last. length last.items ≡ count) }
    ensures none { IfOk result (λ last. All (λ o. o ≡ None) last.items) }
{
    let mut last = Vec::with_capacity(alloc, count)?;
    while last.len() < count {
        last.push(None)?;
    }
    Ok(last)
}

/// Whether a row holds the first daughters of a rule.
fn is_partial<S: Shapes>(row: &Row<S>) -> bool
    ensures { result ≡ is_partial_kind row.now.kind }
{
    match row.kind {
        RowKind::Partial { .. } => true,
        _ => false,
    }
}

impl Members {
    ghost use Rattle.std.specs.Prelude.{◌≡◌, ◌<◌, ◌++◌, ◌∷◌, [], Some, length, slice_set, OnOk};
    ghost use Rattle.forest_unpack.specs.Inner.Members.{last_at};

    /// Adds a row to the group of a host.
    fn add(&mut self, host: usize, row: u32) -> Result<(), NoMemory>
        requires { host < length self.old.last.items }
        ensures last { OnOk result (self.new.last.items ≡ slice_set self.old.last.items host (Some row)) }
        ensures before { OnOk result (self.new.before.items ≡ self.old.before.items ++ last_at self.old.last.items host ∷ []) }
    {
        let before = self.last[host];
        self.before.push(before)?;
        self.last[host] = Some(row);
        Ok(())
    }
}

/// Adds a row to the group of its host, unless it is a partial.
fn enter<S: Shapes>(
    finished: &Finished<S>,
    row: RowId,
    members: &mut Members,
) -> Result<(), NoMemory>
    requires core { (s : S) × IsCore (grammar_of S.Shapes S.Cover.Cover.own s) (core_of finished.now) }
    requires made { row.0 < length (rows_in (core_of finished.now)) }
    requires members { AreMembers (rows_in (core_of finished.now)) row.0 members.old.last.items members.old.before.items }
    ensures { OnOk result (AreMembers (rows_in (core_of finished.now)) (row.0 + 1) members.new.last.items members.new.before.items) }
{
    if is_partial(finished.row(row)) {
        members.before.push(None)?;
        return Ok(());
    }
    let host = host_of(finished, row);
    let Ok(number) = u32::try_from(row.0) else {
        return Err(NoMemory);
    };
    members.add(host.0 as usize, number)
}

/// The rows of the group of each host. Nothing is told of them yet.
pub fn members_of<S: Shapes>(alloc: Global, finished: &Finished<S>) -> Result<Members, NoMemory>
    requires { (s : S) × IsCore (grammar_of S.Shapes S.Cover.Cover.own s) (core_of finished.now) }
    ensures { IfOk result (λ members. AreMembers (rows_in (core_of finished.now)) (length (rows_in (core_of finished.now))) members.last.items members.before.items) }
{
    let count = finished.rows() as usize;
    let last = no_last(alloc, count)?;
    let before = Vec::with_capacity(alloc, count)?;
    let mut members = Members { last, before };
    for i in 0..finished.rows() {
        enter(finished, RowId(i), &mut members)?;
    }
    Ok(members)
}
