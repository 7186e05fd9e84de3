//! A chart while it grows.

use crate::history::{Entry, TaskRow};
use crate::places::Places;
use crate::rows::Candidate;
use crate::search::{
    NewPartial, Sought, all_under, first_over, freeze, host_pairs, partial_pairs, rule_pairs,
};
use crate::{Caller, Daughters, Leaf, Row, RowId, RowKind, Verdict};
use chart_model::{Cover, NoMemory, Shapes};
use std::alloc::Global;

/// A chart of packed edges over its leaves, with the tasks that are pending or done and the history of what was entered.
#[derive(Drop)]
pub struct Core<S: Shapes> {
    pub(crate) rows: Vec<Row<S>>,
    pub(crate) tasks: Vec<TaskRow>,
    pub(crate) history: Vec<Entry>,
    pub(crate) made: u64,
    pub(crate) edges: u32,
    pub(crate) unary: u32,
    pub(crate) cells: Places,
    pub(crate) begins: Places,
    pub(crate) ends: Places,
    // the room for the leaves, when they are handed back
    pub(crate) spare: Vec<Leaf<S>>,
}

impl<S: Shapes> Core<S> {
    ghost use Rattle.std.specs.Prelude.{◌≡◌, ◌≤◌, ◌<◌, ◌+◌, ◌∷◌, ◌++◌, [], All, IfOk, OnOk, OnErr, is_none, None, Some, length, map, slice_get, MatchOption, MatchResult, false, vec_capacity};
    ghost use Rattle.chart_model.specs.Chart as model;
    ghost use Rattle.chart_core.specs.Grammar.{keys_of};
    ghost use Rattle.chart_core.specs.View.{AreDaughters, Belongs, list_of, number_of, row_of, rows_of, into_of, task_of, write_all};
    ghost use Rattle.chart_core.specs.CoreView.{chart_of, limits_of, candidate_of};
    ghost use Rattle.chart_core.specs.Sound.{IsSound, KeepsAll, KeepsFrame, is_partial_kind};
    ghost use Rattle.chart_core.specs.Verdicts.{AreRight};
    ghost use Rattle.chart_core.specs.Lists.{HasRoomAt};

    // The live host of least number of this cover and level whose shape subsumes this one.
    pub(crate) fn peer_over(
        &self,
        shapes: &S,
        work: &mut S::Work,
        tested: &[Verdict],
        cover: &S::Cover,
        level: u32,
        shape: &S::Shape,
    ) -> Result<Option<u64>, NoMemory>
        requires sound { IsSound (keys_of S.Cover.Cover.own) self.now }
        requires rows { All (Belongs (S.calculus shapes.now) (S.belongs shapes.now)) self.now.rows.items }
        requires shape { S.belongs shapes.now shape.now }
        requires tested { AreRight (S.calculus shapes.now) (S.meaning shapes.now) (S.meaning shapes.now shape.now) self.now.rows.items tested.now }
        ensures { IfOk result (λ o. o ≡ model.first_peer (S.calculus shapes.now) (model.has_peer (S.calculus shapes.now) (λ h. (S.calculus shapes.now).over h (S.meaning shapes.now shape.now)) cover.now level) 0 (chart_of (S.meaning shapes.now) self.now).rows (chart_of (S.meaning shapes.now) self.now).into) }
    {
        let places = self.cells.at(cover.cell());
        let by = Sought {
            shapes,
            tested,
            cover,
            level,
            shape,
        };
        first_over(&self.rows, places, &by, work)
    }

    // A new partial row, with its tasks.
    pub(crate) fn push_partial(
        &mut self,
        alloc: Global,
        shapes: &S,
        rule: u32,
        daughters: Daughters,
        cover: S::Cover,
    ) -> Result<(), NoMemory>
        requires sound { IsSound (keys_of S.Cover.Cover.own) self.old }
        requires daughters { AreDaughters daughters }
        requires in_range { All (λ d. d < length self.old.rows.items) (list_of daughters) }
        ensures ok { OnOk result (chart_of (S.meaning shapes.now) self.new ≡ model.with_partial (S.calculus shapes.now) (limits_of self.old) (chart_of (S.meaning shapes.now) self.old) (record { kind = model.OfPartial rule; daughters = list_of daughters; cover = cover; level = 0; shape = None }) rule) }
        ensures err { OnErr result (chart_of (S.meaning shapes.now) self.new ≡ chart_of (S.meaning shapes.now) self.old) }
        ensures history { self.new.history.items ≡ self.old.history.items }
        ensures frame { KeepsFrame self.old self.new }
        ensures belongs { All (Belongs (S.calculus shapes.now) (S.belongs shapes.now)) self.old.rows.items → All (Belongs (S.calculus shapes.now) (S.belongs shapes.now)) self.new.rows.items }
        ensures sound { IsSound (keys_of S.Cover.Cover.own) self.new }
    {
        let number = self.rows.len() as u64;
        let key = cover.end();
        let places = self.begins.at(key);
        let new = NewPartial {
            rule,
            cover: &cover,
            number,
        };
        let mut found = partial_pairs(alloc, &self.rows, places, shapes, self.unary, &new)?;
        self.ends.reserve(key)?;
        self.rows.reserve(1)?;
        self.history
            .reserve(self.tasks.len() - self.history.len() + found.len())?;
        self.tasks.append(&mut found)?;
        self.ends.push_reserved(key, number);
        self.rows.push_reserved(Row {
            kind: RowKind::Partial { rule },
            daughters,
            cover,
            level: 0,
            shape: None,
            into: None,
        });
        Ok(())
    }

    // A new row that is packed into another.
    pub(crate) fn push_packed(
        &mut self,
        shapes: &S,
        new: Candidate<S>,
        peer: u64,
    ) -> Result<(), NoMemory>
        requires sound { IsSound (keys_of S.Cover.Cover.own) self.old }
        requires whole { is_partial_kind new.kind ≡ false }
        requires daughters { AreDaughters new.daughters }
        requires in_range { All (λ d. d < length self.old.rows.items) (list_of new.daughters) }
        requires shape { S.belongs shapes.now new.shape }
        requires proper { (S.calculus shapes.now).proper new.cover }
        ensures ok { OnOk result (chart_of (S.meaning shapes.now) self.new ≡ model.with_row (chart_of (S.meaning shapes.now) self.old) (candidate_of (S.meaning shapes.now) new) (Some peer)) }
        ensures err { OnErr result (chart_of (S.meaning shapes.now) self.new ≡ chart_of (S.meaning shapes.now) self.old) }
        ensures history { self.new.history.items ≡ self.old.history.items }
        ensures frame { KeepsFrame self.old self.new }
        ensures belongs { All (Belongs (S.calculus shapes.now) (S.belongs shapes.now)) self.old.rows.items → All (Belongs (S.calculus shapes.now) (S.belongs shapes.now)) self.new.rows.items }
        ensures sound { IsSound (keys_of S.Cover.Cover.own) self.new }
    {
        self.rows.reserve(1)?;
        self.rows.push_reserved(new.into_row(Some(RowId(peer))));
        Ok(())
    }

    // The tasks of a new host, which frosts some rows.
    fn host_tasks(
        &self,
        alloc: Global,
        shapes: &S,
        frosted: &[u64],
        cover: &S::Cover,
        level: u32,
        number: u64,
    ) -> Result<Vec<TaskRow>, NoMemory>
        requires sound { IsSound (keys_of S.Cover.Cover.own) self.now }
        ensures fresh { IfOk result (λ v. All (λ t. t.done ≡ None) v.items) }
        ensures tasks { IfOk result (λ v. map task_of v.items ≡ model.tasks_of_host (S.calculus shapes.now) (limits_of self.now) (rows_of (S.meaning shapes.now) self.now.rows.items) (write_all (into_of self.now.rows.items) frosted.now number) number cover.now level) }
    {
        if level > self.unary {
            return Ok(Vec::new(alloc));
        }
        let mut found = rule_pairs(alloc, shapes.rules(), number)?;
        let places = self.ends.at(cover.begin());
        let mut more = host_pairs(alloc, &self.rows, places, shapes, frosted, cover, number)?;
        found.append(&mut more)?;
        Ok(found)
    }

    // Room for one more host and these tasks.
    fn room_for_host(&mut self, cell: u32, begin: u32, found: &Vec<TaskRow>) -> Result<(), NoMemory>
        requires sound { IsSound (keys_of S.Cover.Cover.own) self.old }
        ensures same { KeepsAll self.old self.new }
        ensures frame { KeepsFrame self.old self.new }
        ensures cell { OnOk result (HasRoomAt self.new.cells cell) }
        ensures begin { OnOk result (HasRoomAt self.new.begins begin) }
        ensures row { OnOk result (length self.new.rows.items < vec_capacity self.new.rows) }
        ensures entries { OnOk result (length self.new.tasks.items + length found.now.items ≤ vec_capacity self.new.history) }
        ensures sound { IsSound (keys_of S.Cover.Cover.own) self.new }
    {
        self.cells.reserve(cell)?;
        self.begins.reserve(begin)?;
        self.rows.reserve(1)?;
        self.history
            .reserve(self.tasks.len() - self.history.len() + found.len())?;
        Ok(())
    }

    // A new host with its tasks; the live hosts of its cover and level that it subsumes are frosted.
    pub(crate) fn push_host(
        &mut self,
        alloc: Global,
        shapes: &S,
        work: &mut S::Work,
        tested: &[Verdict],
        new: Candidate<S>,
    ) -> Result<(), NoMemory>
        requires sound { IsSound (keys_of S.Cover.Cover.own) self.old }
        requires rows { All (Belongs (S.calculus shapes.now) (S.belongs shapes.now)) self.old.rows.items }
        requires whole { is_partial_kind new.kind ≡ false }
        requires daughters { AreDaughters new.daughters }
        requires in_range { All (λ d. d < length self.old.rows.items) (list_of new.daughters) }
        requires shape { S.belongs shapes.now new.shape }
        requires proper { (S.calculus shapes.now).proper new.cover }
        requires tested { AreRight (S.calculus shapes.now) (S.meaning shapes.now) (S.meaning shapes.now new.shape) self.old.rows.items tested.now }
        ensures ok { OnOk result (chart_of (S.meaning shapes.now) self.new ≡ model.with_host (S.calculus shapes.now) (limits_of self.old) (model.with_frost (S.calculus shapes.now) (limits_of self.old) (chart_of (S.meaning shapes.now) self.old) (candidate_of (S.meaning shapes.now) new) (S.meaning shapes.now new.shape)) (candidate_of (S.meaning shapes.now) new)) }
        ensures err { OnErr result (chart_of (S.meaning shapes.now) self.new ≡ chart_of (S.meaning shapes.now) self.old) }
        ensures history { self.new.history.items ≡ self.old.history.items }
        ensures frame { KeepsFrame self.old self.new }
        ensures belongs { All (Belongs (S.calculus shapes.now) (S.belongs shapes.now)) self.new.rows.items }
        ensures sound { IsSound (keys_of S.Cover.Cover.own) self.new }
    {
        let number = self.rows.len() as u64;
        let cell = new.cover.cell();
        let begin = new.cover.begin();
        let places = self.cells.at(cell);
        let by = Sought {
            shapes,
            tested,
            cover: &new.cover,
            level: new.level,
            shape: &new.shape,
        };
        let under = all_under(alloc, &self.rows, places, &by, work)?;
        let mut found = self.host_tasks(alloc, shapes, &under, &new.cover, new.level, number)?;
        self.room_for_host(cell, begin, &found)?;
        self.tasks.append(&mut found)?;
        self.cells.push_reserved(cell, number);
        self.begins.push_reserved(begin, number);
        freeze(&mut self.rows, &under, number);
        self.rows.push_reserved(new.into_row(None));
        self.made += 1;
        Ok(())
    }

    // Marks a pending task as done, with the row that it added, if any.
    pub(crate) fn mark(&mut self, task: usize, row: Option<RowId>, by: Caller)
        requires sound { IsSound (keys_of S.Cover.Cover.own) self.old }
        requires made { task < length self.old.tasks.items }
        requires pending { (t : _) → slice_get self.old.tasks.items task ≡ Some t → t.done ≡ None }
        requires row { MatchOption row (Unit {0}) (λ id. id.0 < length self.old.rows.items) }
        ensures chart { (s : S) → chart_of (S.meaning s) self.new ≡ model.with_done (chart_of (S.meaning s) self.old) task }
        ensures history { self.new.history.items ≡ self.old.history.items ++ record { task = task; row = row; by = by } ∷ [] }
        ensures rows { self.new.rows.items ≡ self.old.rows.items }
        ensures frame { KeepsFrame self.old self.new }
        ensures sound { IsSound (keys_of S.Cover.Cover.own) self.new }
    {
        let place = self.history.len() as u64;
        self.history.push_reserved(Entry {
            task: task as u64,
            row,
            by,
        });
        let info = &mut self.tasks[task];
        info.done = Some(place);
    }
}
