//! Whether more trees are asked for than a number, by counts.

ghost use Rattle.std.specs.Prelude.{◌≡◌, ℕ, ◌<◌, ◌≤◌, [], ◌∷◌, All, IfOk, IsTrue, OnOk, length, map};
ghost use Rattle.chart_core.specs.CoreView.{chart_of, leaves_of};
ghost use Rattle.chart_core.specs.Kept.{IsCore, core_of, rows_in};
ghost use Rattle.chart_core.specs.Grammar.{grammar_of};
ghost use Rattle.tree_model.specs.Counts as counts;
ghost use Rattle.forest_unpack.specs.Unpacking.{IsUnpackFault, Suits};
ghost use Rattle.forest_unpack.specs.declared.UnpackFault.TheVariants as faults;
ghost use Rattle.forest_unpack.specs.Keeping.{asked_of, cover_in, host_in};
ghost use Rattle.forest_unpack.specs.Plans.{IsPlan};
ghost use Rattle.forest_unpack.specs.Inner.Classes.{AreAllCounted, AreFit, AreToldGroups, IsFit, classes_at, classes_of};
ghost use Rattle.forest_unpack.specs.Inner.Memos.{IsMemo, IsReachedItem, known_in};
ghost use Rattle.forest_unpack.specs.Skeletons.{IsSkeleton};

use crate::collecting::Wanted;
use crate::listing::Plan;
use crate::members::host_of;
use crate::memo::Memo;
use crate::tallies::{Class, counted_at};
use crate::tallying::count_host;
use crate::weighing::{Ranked, by_rank};
use crate::{Fulls, NoMemory};
use chart_core::{Finished, RowId, RowKind};
use chart_model::Shapes;
use std::alloc::Global;

/// No host needed yet, of so many.
fn none_needed(alloc: Global, count: usize) -> Result<Vec<bool>, NoMemory> {
    let mut needed = Vec::with_capacity(alloc, count)?;
    for _ in 0..count {
        needed.push(false)?;
    }
    Ok(needed)
}

/// A host is needed.
fn need(needed: &mut Vec<bool>, host: u64) {
    if let Some(is) = needed.get_mut(host as usize) {
        *is = true;
    }
}

/// A daughter is needed, if there is one.
fn need_daughter(needed: &mut Vec<bool>, daughter: Option<RowId>) {
    if let Some(row) = daughter {
        need(needed, row.0);
    }
}

/// Whether a host is needed.
fn is_needed(needed: &[bool], host: u64) -> bool {
    match needed.get(host as usize) {
        None => false,
        Some(is) => *is,
    }
}

/// Where the host of a row is needed, so are the row's daughters.
fn need_daughters<S: Shapes>(finished: &Finished<S>, row: RowId, needed: &mut Vec<bool>)
    requires core { (s : S) × IsCore (grammar_of S.Shapes S.Cover.Cover.own s) (core_of finished.now) }
    requires made { row.0 < length (rows_in (core_of finished.now)) }
{
    if !is_needed(needed, host_of(finished, row).0) {
        return;
    }
    let there = finished.row(row);
    if let RowKind::Whole { .. } = there.kind {
        need_daughter(needed, there.daughters.a);
        need_daughter(needed, there.daughters.b);
        need_daughter(needed, there.daughters.c);
        need_daughter(needed, there.daughters.d);
    }
}

/// Which hosts the wanted ones need, by the rows of their groups, from the last ones down. It only spares work: what is not counted is not there.
fn needed_by<S: Shapes, F: Fulls>(
    alloc: Global,
    finished: &Finished<S>,
    order: &[Ranked],
    wanted: &[Wanted<F>],
) -> Result<Vec<bool>, NoMemory>
    requires core { (s : S) × IsCore (grammar_of S.Shapes S.Cover.Cover.own s) (core_of finished.now) }
{
    let mut needed = none_needed(alloc, order.len())?;
    for want in wanted {
        need(&mut needed, want.host);
    }
    for ranked in order.iter().rev() {
        if ranked.row < finished.rows() {
            need_daughters(finished, RowId(ranked.row), &mut needed);
        }
    }
    Ok(needed)
}

/// No classes yet, of so many hosts.
fn no_classes<F: Fulls>(alloc: Global, count: usize) -> Result<Vec<Vec<Class<F>>>, NoMemory>
    ensures { IfOk result (λ table. All (λ made. made.items ≡ []) table.items) }
{
    let mut table = Vec::with_capacity(alloc, count)?;
    while table.len() < count {
        table.push(Vec::new(alloc))?;
    }
    Ok(table)
}

/// Counts the trees of a host, by those of its daughters' hosts that were counted.
fn count_into<S: Shapes, F: Fulls<Cover = S::Cover>>(
    alloc: Global,
    _shapes: &S,
    plan: &Plan<S, F>,
    work: &mut F::Work,
    memo: &mut Memo<F>,
    host: u64,
    table: &mut Vec<Vec<Class<F>>>,
) -> Result<(), NoMemory>
    requires suits { Suits (grammar_of S.Shapes S.Cover.Cover.own _shapes.now) (F.wholes plan.now.fulls.now) plan.now.finished.now (S.full _shapes.now) (S.agrees _shapes.now) (F.named plan.now.fulls.now) (F.ruled plan.now.fulls.now) }
    requires told { AreToldGroups (leaves_of (S.meaning _shapes.now) (core_of plan.now.finished.now)) (chart_of (S.meaning _shapes.now) (core_of plan.now.finished.now)) (rows_in (core_of plan.now.finished.now)) }
    requires plan { IsPlan (F.named plan.now.fulls.now) (F.ruled plan.now.fulls.now) (rows_in (core_of plan.now.finished.now)) plan.now.members.now.last.items plan.now.members.now.before.items plan.now.ranks.now }
    requires host { host < length (rows_in (core_of plan.now.finished.now)) }
    requires there { host < length table.old.items }
    requires memo { IsMemo (F.value plan.now.fulls.now) (F.wholes plan.now.fulls.now) memo.old }
    requires fit { AreFit (F.value plan.now.fulls.now) (F.wholes plan.now.fulls.now) (F.named plan.now.fulls.now) (known_in (F.value plan.now.fulls.now) memo.old) table.old.items }
    requires counted { AreAllCounted (F.value plan.now.fulls.now) (F.wholes plan.now.fulls.now) (leaves_of (S.meaning _shapes.now) (core_of plan.now.finished.now)) (chart_of (S.meaning _shapes.now) (core_of plan.now.finished.now)) table.old.items }
    ensures memo { OnOk result (IsMemo (F.value plan.now.fulls.now) (F.wholes plan.now.fulls.now) memo.new) }
    ensures fit { OnOk result (AreFit (F.value plan.now.fulls.now) (F.wholes plan.now.fulls.now) (F.named plan.now.fulls.now) (known_in (F.value plan.now.fulls.now) memo.new) table.new.items) }
    ensures counted { OnOk result (AreAllCounted (F.value plan.now.fulls.now) (F.wholes plan.now.fulls.now) (leaves_of (S.meaning _shapes.now) (core_of plan.now.finished.now)) (chart_of (S.meaning _shapes.now) (core_of plan.now.finished.now)) table.new.items) }
{
    let made = count_host(alloc, plan, work, memo, host, table)?;
    table[host as usize] = made;
    Ok(())
}

/// The classes of the hosts that are needed, those of daughters first.
fn count_hosts<S: Shapes, F: Fulls<Cover = S::Cover>>(
    alloc: Global,
    shapes: &S,
    plan: &Plan<S, F>,
    order: &[Ranked],
    needed: &[bool],
    work: &mut F::Work,
    memo: &mut Memo<F>,
) -> Result<Vec<Vec<Class<F>>>, NoMemory>
    requires suits { Suits (grammar_of S.Shapes S.Cover.Cover.own shapes.now) (F.wholes plan.now.fulls.now) plan.now.finished.now (S.full shapes.now) (S.agrees shapes.now) (F.named plan.now.fulls.now) (F.ruled plan.now.fulls.now) }
    requires told { AreToldGroups (leaves_of (S.meaning shapes.now) (core_of plan.now.finished.now)) (chart_of (S.meaning shapes.now) (core_of plan.now.finished.now)) (rows_in (core_of plan.now.finished.now)) }
    requires plan { IsPlan (F.named plan.now.fulls.now) (F.ruled plan.now.fulls.now) (rows_in (core_of plan.now.finished.now)) plan.now.members.now.last.items plan.now.members.now.before.items plan.now.ranks.now }
    requires memo { IsMemo (F.value plan.now.fulls.now) (F.wholes plan.now.fulls.now) memo.old }
    ensures memo { OnOk result (IsMemo (F.value plan.now.fulls.now) (F.wholes plan.now.fulls.now) memo.new) }
    ensures fit { IfOk result (λ table. AreFit (F.value plan.now.fulls.now) (F.wholes plan.now.fulls.now) (F.named plan.now.fulls.now) (known_in (F.value plan.now.fulls.now) memo.new) table.items) }
    ensures counted { IfOk result (λ table. AreAllCounted (F.value plan.now.fulls.now) (F.wholes plan.now.fulls.now) (leaves_of (S.meaning shapes.now) (core_of plan.now.finished.now)) (chart_of (S.meaning shapes.now) (core_of plan.now.finished.now)) table.items) }
{
    let mut table = no_classes(alloc, order.len())?;
    for ranked in order {
        let host = ranked.row;
        if host >= plan.finished.rows() {
            continue;
        }
        if host as usize >= table.len() {
            continue;
        }
        if !is_needed(needed, host) {
            continue;
        }
        count_into(alloc, shapes, plan, work, memo, host, &mut table)?;
    }
    Ok(table)
}

/// How many trees of a class are asked for: all or none.
fn sum_class<F: Fulls>(
    alloc: Global,
    fulls: &F,
    work: &mut F::Work,
    cover: &F::Cover,
    class: &Class<F>,
) -> Result<u64, NoMemory>
    requires { IsReachedItem (F.value fulls.now) (F.wholes fulls.now) (F.named fulls.now) class.now.item }
    ensures { IfOk result (λ sum. counts.Accepts (F.wholes fulls.now) cover.now (classes_of (F.value fulls.now) (class.now ∷ [])) sum) }
{
    if fulls.accepts(alloc, work, &class.item.full, cover)? {
        return Ok(class.times);
    }
    Ok(0)
}

/// How many trees of these classes are asked for, or fewer.
fn sum_host<F: Fulls>(
    alloc: Global,
    fulls: &F,
    work: &mut F::Work,
    _memo: &Memo<F>,
    cover: &F::Cover,
    classes: &[Class<F>],
) -> Result<u64, NoMemory>
    requires { All (IsFit (F.value fulls.now) (F.wholes fulls.now) (F.named fulls.now) (known_in (F.value fulls.now) _memo.now)) classes.now }
    ensures { IfOk result (λ sum. (n : ℕ) × (sum ≤ n) × counts.Accepts (F.wholes fulls.now) cover.now (classes_of (F.value fulls.now) classes.now) n) }
{
    let mut sum = 0u64;
    for class in classes {
        let more = sum_class(alloc, fulls, work, cover, class)?;
        sum = sum.saturating_add(more);
    }
    Ok(sum)
}

/// How many trees of the wanted hosts are asked for, or fewer.
fn sum_all<F: Fulls>(
    alloc: Global,
    fulls: &F,
    work: &mut F::Work,
    memo: &Memo<F>,
    wanted: &[Wanted<F>],
    table: &[Vec<Class<F>>],
    max: u64,
) -> Result<u64, NoMemory>
    requires { AreFit (F.value fulls.now) (F.wholes fulls.now) (F.named fulls.now) (known_in (F.value fulls.now) memo.now) table.now }
    ensures { IfOk result (λ sum. counts.Sums (F.wholes fulls.now) host_in cover_in (classes_at (F.value fulls.now) table.now) (map asked_of wanted.now) 0 sum) }
{
    let mut sum = 0u64;
    for want in wanted {
        if sum > max {
            return Ok(sum);
        }
        let classes = counted_at(table, want.host);
        let more = sum_host(alloc, fulls, work, memo, want.cover, classes)?;
        sum = sum.saturating_add(more);
    }
    Ok(sum)
}

/// True only where more trees are asked for than `max`, as counts tell it. Of a host no more than `plan.most` full structures are looked at.
pub fn are_more<'p, 'w, S: Shapes, F: Fulls<Cover = S::Cover>>(
    alloc: Global,
    shapes: &S,
    plan: &'p Plan<'p, S, F>,
    wanted: &'w [Wanted<'w, F>],
    work: &mut F::Work,
    memo: &mut Memo<F>,
    max: u32,
) -> Result<bool, NoMemory>
    requires suits { Suits (grammar_of S.Shapes S.Cover.Cover.own shapes.now) (F.wholes plan.now.fulls.now) plan.now.finished.now (S.full shapes.now) (S.agrees shapes.now) (F.named plan.now.fulls.now) (F.ruled plan.now.fulls.now) }
    requires skeleton { IsSkeleton (F.wholes plan.now.fulls.now) (leaves_of (S.meaning shapes.now) (core_of plan.now.finished.now)) (chart_of (S.meaning shapes.now) (core_of plan.now.finished.now)) (rows_in (core_of plan.now.finished.now)) plan.now.ranks.now (map asked_of wanted.now) }
    requires plan { IsPlan (F.named plan.now.fulls.now) (F.ruled plan.now.fulls.now) (rows_in (core_of plan.now.finished.now)) plan.now.members.now.last.items plan.now.members.now.before.items plan.now.ranks.now }
    requires memo { IsMemo (F.value plan.now.fulls.now) (F.wholes plan.now.fulls.now) memo.old }
    ensures memo { OnOk result (IsMemo (F.value plan.now.fulls.now) (F.wholes plan.now.fulls.now) memo.new) }
    ensures more { IfOk result (λ yes. IsTrue yes → IsUnpackFault (grammar_of S.Shapes S.Cover.Cover.own shapes.now) (F.wholes plan.now.fulls.now) plan.now.finished.now max faults.ReadingLimit) }
{
    let order = by_rank(alloc, plan.ranks)?;
    let needed = needed_by(alloc, plan.finished, &order, wanted)?;
    let table = count_hosts(alloc, shapes, plan, &order, &needed, work, &mut *memo)?;
    let sum = sum_all(alloc, plan.fulls, work, memo, wanted, &table, max as u64)?;
    Ok(sum > max as u64)
}
