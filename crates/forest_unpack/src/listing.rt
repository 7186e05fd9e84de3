//! The list of a host, after the lists that it needs.
//!
//! Trees can be as deep as the chart has rows, so the lists on their way stand in a `Vec`, and no function calls itself for them.

ghost use Rattle.std.specs.Prelude.{◌≡◌, ℕ, ◌≤◌, ◌<◌, ◌++◌, ◌∷◌, [], true, All, IfOk, MatchOption, OnOk, length};
ghost use Rattle.chart_core.specs.Kept.{core_of, rows_in};
ghost use Rattle.tree_model.specs.Lists as model;
ghost use Rattle.forest_unpack.specs.Items.{AllListed, IsListed, items_of};
ghost use Rattle.forest_unpack.specs.Inner.Making.{AreMaking, IsBegun, IsLacked, IsLower, IsMaking, Stepped, daughters_in};
ghost use Rattle.forest_unpack.specs.Inner.Memos.{AreReached, IsNumbered, IsReady, StaysReady, known_in};
ghost use Rattle.forest_unpack.specs.Sifted.{AreGathered};
ghost use Rattle.forest_unpack.specs.Plans.{Fits, Gave, Grows, IsGathered, IsPlan, row_of};

use crate::counted::CountedTree;
use crate::groups::group_of;
use crate::item::Item;
use crate::lists::{Combining, combine, nothing};
use crate::members::Members;
use crate::memo::Memo;
use crate::rows::GroupRow;
use crate::sifting::{LeftOut, sift};
use crate::{Fulls, NoMemory};
use chart_core::Finished;
use chart_model::Shapes;
use std::alloc::Global;

/// What lists are made of: a finished chart with the rows of its groups, a rank that falls from a host to its daughters, what lists leave out,
/// the most items of a list that others need, and of one that is itself asked for.
#[derive(Drop)]
pub struct Plan<'p, S: Shapes, F: Fulls> {
    pub fulls: &'p F,
    pub finished: &'p Finished<S>,
    pub members: &'p Members,
    pub ranks: &'p [u64],
    pub left: LeftOut,
    pub most: usize,
    pub most_wanted: usize,
}

/// The lists that were made, by host, and whether one of them was left before its end.
#[derive(Drop)]
pub struct Lists<F: Fulls> {
    pub table: Vec<Option<Vec<Item<F>>>>,
    pub cut: bool,
}

/// A list on its way: its host, the rows of the host's group, how many of them were gone through, what these gave, and the most that it may have.
#[derive(Drop)]
pub struct Making<F: Fulls> {
    pub host: u64,
    pub group: Vec<GroupRow>,
    pub next: usize,
    pub made: Vec<Item<F>>,
    pub most: usize,
}

/// The list of a host, of which no row was gone through yet.
fn begin<S: Shapes, F: Fulls>(
    alloc: Global,
    plan: &Plan<S, F>,
    host: u64,
    most: usize,
) -> Result<Making<F>, NoMemory>
    requires plan { IsPlan (F.named plan.now.fulls.now) (F.ruled plan.now.fulls.now) (rows_in (core_of plan.now.finished.now)) plan.now.members.now.last.items plan.now.members.now.before.items plan.now.ranks.now }
    requires host { host < length (rows_in (core_of plan.now.finished.now)) }
    ensures { IfOk result (IsBegun (rows_in (core_of plan.now.finished.now)) host) }
{
    let group = group_of(alloc, plan.finished, plan.members, plan.ranks, host)?;
    let made = Vec::new(alloc);
    Ok(Making {
        host,
        group,
        next: 0,
        made,
        most,
    })
}

/// The first of these hosts that has no list.
fn first_lacking<F: Fulls>(table: &[Option<Vec<Item<F>>>], hosts: &[u64]) -> Option<u64>
    requires { (d : ℕ) → model.Has d hosts.now → d < length table.now }
    ensures { MatchOption result (AllListed table.now hosts.now) (λ d. IsLacked table.now d hosts.now) }
{
    let Some((host, more)) = hosts.split_first() else {
        return None;
    };
    if table[*host as usize].is_none() {
        return Some(*host);
    }
    first_lacking(table, more)
}

/// The first daughter of a row that has no list.
fn lacking<F: Fulls>(table: &[Option<Vec<Item<F>>>], row: &GroupRow) -> Option<u64>
    requires { (d : ℕ) → model.Has d (daughters_in (row_of row.now)) → d < length table.now }
    ensures { MatchOption result (AllListed table.now (daughters_in (row_of row.now))) (λ d. IsLacked table.now d (daughters_in (row_of row.now))) }
{
    match row {
        GroupRow::Leaf { .. } => None,
        GroupRow::Whole { daughters, .. } => first_lacking(table, daughters),
    }
}

/// What a row's items are made from: the lists of its daughters, and the most items that the row's own list may have.
#[derive(Drop)]
struct Source<'x, F: Fulls> {
    table: &'x [Option<Vec<Item<F>>>],
    most: usize,
}

/// Adds what a row gives whose daughters have lists; true where the list was full before all were tried.
fn add_row<S: Shapes, F: Fulls>(
    alloc: Global,
    plan: &Plan<S, F>,
    work: &mut F::Work,
    memo: &mut Memo<F>,
    row: &GroupRow,
    from: &Source<F>,
    made: &mut Vec<Item<F>>,
) -> Result<bool, NoMemory>
    requires row { (host : ℕ) × Fits (F.named plan.now.fulls.now) (F.ruled plan.now.fulls.now) (length (rows_in (core_of plan.now.finished.now))) plan.now.ranks.now host (row_of row.now) }
    requires listed { AllListed from.now.table.now (daughters_in (row_of row.now)) }
    requires reached { AreReached (F.value plan.now.fulls.now) (F.wholes plan.now.fulls.now) (F.named plan.now.fulls.now) from.now.table.now }
    requires ready { IsReady (F.value plan.now.fulls.now) (F.wholes plan.now.fulls.now) memo.old from.now.table.now }
    requires numbered { All (IsNumbered (F.value plan.now.fulls.now) (known_in (F.value plan.now.fulls.now) memo.old)) made.old.items }
    ensures ready { OnOk result (StaysReady (F.value plan.now.fulls.now) (F.wholes plan.now.fulls.now) memo.old memo.new from.now.table.now) }
    ensures numbered { OnOk result (All (IsNumbered (F.value plan.now.fulls.now) (known_in (F.value plan.now.fulls.now) memo.new)) made.new.items) }
    ensures made { IfOk result (λ cut. Gave (F.value plan.now.fulls.now) (F.wholes plan.now.fulls.now) cut from.now.table.now row.now made.old.items made.new.items) }
{
    match row {
        GroupRow::Leaf { name } => {
            let (full, tree) = plan.fulls.leaf(alloc, *name)?;
            let number = memo.number(alloc, plan.fulls, full)?;
            let full = memo.full(number)?;
            let tree = CountedTree { tree };
            made.push(Item { full, number, tree })?;
            Ok(false)
        }
        GroupRow::Whole { rule, daughters } => {
            let none = nothing();
            let by = Combining {
                fulls: plan.fulls,
                rule: *rule,
                table: from.table,
                most: from.most,
            };
            combine(alloc, &by, work, memo, &none, daughters, made)
        }
    }
}

/// Keeps that a list was cut, where it was.
fn note(cut: &mut bool, full: bool)
    ensures before { cut.old ≡ true → cut.new ≡ true }
    ensures full { full ≡ true → cut.new ≡ true }
{
    if full {
        *cut = true;
    }
}

/// Goes on with a list as far as its rows' daughters have lists: the daughter that has none, or none where the list is done.
/// It is done where all rows were gone through, and where it is full before, which is a cut.
fn go_on<S: Shapes, F: Fulls>(
    alloc: Global,
    plan: &Plan<S, F>,
    work: &mut F::Work,
    memo: &mut Memo<F>,
    table: &[Option<Vec<Item<F>>>],
    cut: &mut bool,
    list: &mut Making<F>,
) -> Result<Option<u64>, NoMemory>
    requires plan { IsPlan (F.named plan.now.fulls.now) (F.ruled plan.now.fulls.now) (rows_in (core_of plan.now.finished.now)) plan.now.members.now.last.items plan.now.members.now.before.items plan.now.ranks.now }
    requires table { length table.now ≡ length (rows_in (core_of plan.now.finished.now)) }
    requires reached { AreReached (F.value plan.now.fulls.now) (F.wholes plan.now.fulls.now) (F.named plan.now.fulls.now) table.now }
    requires ready { IsReady (F.value plan.now.fulls.now) (F.wholes plan.now.fulls.now) memo.old table.now }
    requires list { IsMaking (F.value plan.now.fulls.now) (F.wholes plan.now.fulls.now) cut.old (rows_in (core_of plan.now.finished.now)) (known_in (F.value plan.now.fulls.now) memo.old) table.now list.old }
    ensures ready { OnOk result (StaysReady (F.value plan.now.fulls.now) (F.wholes plan.now.fulls.now) memo.old memo.new table.now) }
    ensures cut { OnOk result (cut.old ≡ true → cut.new ≡ true) }
    ensures host { OnOk result (list.new.host ≡ list.old.host) }
    ensures list { OnOk result (IsMaking (F.value plan.now.fulls.now) (F.wholes plan.now.fulls.now) cut.new (rows_in (core_of plan.now.finished.now)) (known_in (F.value plan.now.fulls.now) memo.new) table.now list.new) }
    ensures done { IfOk result (λ lacked. MatchOption lacked
        (IsGathered (F.value plan.now.fulls.now) (F.wholes plan.now.fulls.now) cut.new (rows_in (core_of plan.now.finished.now)) table.now list.new.host (items_of (F.value plan.now.fulls.now) list.new.made.items))
        (λ d. IsLower (length (rows_in (core_of plan.now.finished.now))) plan.now.ranks.now table.now list.new.host d)) }
{
    let most = list.most;
    let from = Source { table, most };
    while list.next < list.group.len() {
        if list.made.len() >= most {
            *cut = true;
            return Ok(None);
        }
        let row = &list.group[list.next];
        if let Some(daughter) = lacking(table, row) {
            return Ok(Some(daughter));
        }
        let full = add_row(alloc, plan, work, memo, row, &from, &mut list.made)?;
        note(cut, full);
        list.next += 1;
    }
    Ok(None)
}

/// Goes on with a list: it is put into the table where it is done, else back over the lists that wait for it, and the list that it waits for over it.
fn step<S: Shapes, F: Fulls>(
    alloc: Global,
    plan: &Plan<S, F>,
    work: &mut F::Work,
    memo: &mut Memo<F>,
    mut list: Making<F>,
    lists: &mut Lists<F>,
    waiting: &mut Vec<Making<F>>,
) -> Result<(), NoMemory>
    requires plan { IsPlan (F.named plan.now.fulls.now) (F.ruled plan.now.fulls.now) (rows_in (core_of plan.now.finished.now)) plan.now.members.now.last.items plan.now.members.now.before.items plan.now.ranks.now }
    requires table { length lists.old.table.items ≡ length (rows_in (core_of plan.now.finished.now)) }
    requires gathered { AreGathered (F.value plan.now.fulls.now) (F.wholes plan.now.fulls.now) plan.now.left lists.old.cut (rows_in (core_of plan.now.finished.now)) lists.old.table.items }
    requires ready { IsReady (F.value plan.now.fulls.now) (F.wholes plan.now.fulls.now) memo.old lists.old.table.items }
    requires lists { AreMaking (F.value plan.now.fulls.now) (F.wholes plan.now.fulls.now) lists.old.cut (rows_in (core_of plan.now.finished.now)) (known_in (F.value plan.now.fulls.now) memo.old) lists.old.table.items plan.now.ranks.now (waiting.old.items ++ list ∷ []) }
    ensures { OnOk result (Stepped (F.value plan.now.fulls.now) (F.wholes plan.now.fulls.now) plan.now.left (rows_in (core_of plan.now.finished.now)) plan.now.ranks.now lists.old.cut lists.new.cut memo.old memo.new lists.old.table.items lists.new.table.items (waiting.old.items ++ list ∷ []) waiting.new.items) }
{
    match go_on(
        alloc,
        plan,
        work,
        memo,
        &lists.table,
        &mut lists.cut,
        &mut list,
    )? {
        None => {
            let host = list.host;
            let items = sift(alloc, plan.fulls, memo, plan.left, list.made)?;
            lists.table[host as usize] = Some(items);
        }
        Some(daughter) => {
            let needed = begin(alloc, plan, daughter, plan.most)?;
            waiting.push(list)?;
            waiting.push(needed)?;
        }
    }
    Ok(())
}

/// Makes the list of a host, and those that it needs; they are cut where a list was left before its end.
pub fn list<S: Shapes, F: Fulls>(
    alloc: Global,
    plan: &Plan<S, F>,
    work: &mut F::Work,
    memo: &mut Memo<F>,
    host: u64,
    lists: &mut Lists<F>,
) -> Result<(), NoMemory>
    requires plan { IsPlan (F.named plan.now.fulls.now) (F.ruled plan.now.fulls.now) (rows_in (core_of plan.now.finished.now)) plan.now.members.now.last.items plan.now.members.now.before.items plan.now.ranks.now }
    requires host { host < length (rows_in (core_of plan.now.finished.now)) }
    requires table { length lists.old.table.items ≡ length (rows_in (core_of plan.now.finished.now)) }
    requires gathered { AreGathered (F.value plan.now.fulls.now) (F.wholes plan.now.fulls.now) plan.now.left lists.old.cut (rows_in (core_of plan.now.finished.now)) lists.old.table.items }
    requires ready { IsReady (F.value plan.now.fulls.now) (F.wholes plan.now.fulls.now) memo.old lists.old.table.items }
    ensures grows { OnOk result (Grows (F.value plan.now.fulls.now) lists.old.table.items lists.new.table.items) }
    ensures ready { OnOk result (StaysReady (F.value plan.now.fulls.now) (F.wholes plan.now.fulls.now) memo.old memo.new lists.new.table.items) }
    ensures cut { OnOk result (lists.old.cut ≡ true → lists.new.cut ≡ true) }
    ensures listed { OnOk result (IsListed lists.new.table.items host) }
    ensures gathered { OnOk result (AreGathered (F.value plan.now.fulls.now) (F.wholes plan.now.fulls.now) plan.now.left lists.new.cut (rows_in (core_of plan.now.finished.now)) lists.new.table.items) }
{
    if lists.table[host as usize].is_some() {
        return Ok(());
    }
    let first = begin(alloc, plan, host, plan.most_wanted)?;
    let mut waiting = Vec::new(alloc);
    waiting.push(first)?;
    while let Some(list) = waiting.pop() {
        step(alloc, plan, work, memo, list, lists, &mut waiting)?;
    }
    Ok(())
}
