//! The trees of a finished chart that are asked for.

ghost use Rattle.std.specs.Prelude.{◌≡◌, IfOk, MatchOption, MatchResult, OnOk, length, map};
ghost use Rattle.chart_core.specs.CoreView.{chart_of, leaves_of};
ghost use Rattle.chart_core.specs.Kept.{core_of, rows_in};
ghost use Rattle.chart_core.specs.Grammar.{grammar_of};
ghost use Rattle.derivation.specs.Views.{derivation_of};
ghost use Rattle.forest_unpack.specs.Unpacking.{Suits, AreUnpacked, IsUnpackFault};
ghost use Rattle.forest_unpack.specs.Items.{NoneListed};
ghost use Rattle.forest_unpack.specs.Keeping.{AllBelow, asked_of};
ghost use Rattle.forest_unpack.specs.Plans.{IsPlan};
ghost use Rattle.forest_unpack.specs.Inner.Memos.{IsMemo};
ghost use Rattle.forest_unpack.specs.Skeletons.{IsSkeleton};

use crate::asking::wanted_of;
use crate::collecting::{Wanted, collect};
use crate::item::Item;
use crate::keeping::{sort, trees_of};
use crate::listing::{Lists, Plan};
use crate::members::members_of;
use crate::memo::Memo;
use crate::ranks::ranks_of;
use crate::sifting::{LeftOut, are_enough};
use crate::summing::are_more;
use crate::weighing::is_large;
use crate::{Fulls, NoMemory, UnpackFault};
use chart_core::Finished;
use chart_model::Shapes;
use derivation::Tree;
use std::alloc::Global;

/// How many trees lists have that are tried first.
const FEW: usize = 128;

/// How many full structures of a host are looked at where its trees are counted.
const FEW_CLASSES: usize = 8;

/// How many times as many trees as may be asked for the groups of a chart may hold before short lists are tried.
const MANY: u64 = 4;

/// As many hosts without a list.
fn no_lists<F: Fulls>(alloc: Global, count: usize) -> Result<Vec<Option<Vec<Item<F>>>>, NoMemory>
    ensures length { IfOk result (λ table. length table.items ≡ count) }
    ensures none { IfOk result (λ table. NoneListed table.items) }
{
    let mut table = Vec::with_capacity(alloc, count)?;
    while table.len() < count {
        table.push(None)?;
    }
    Ok(table)
}

/// The most trees to look for in one pass: where lists leave something out, one is enough to know that there are some.
fn enough(left: LeftOut, max: u32) -> usize {
    match left {
        LeftOut::Nothing => max as usize,
        LeftOut::Repeats => 0,
    }
}

/// One pass over the wanted hosts of a chart: the trees that are asked for, or none where a list was cut, or left out what may be asked for.
fn pass<'p, 'w, S: Shapes, F: Fulls<Cover = S::Cover>>(
    alloc: Global,
    _shapes: &S,
    plan: &'p Plan<'p, S, F>,
    wanted: &'w [Wanted<'w, F>],
    work: &mut F::Work,
    memo: &mut Memo<F>,
    max: u32,
) -> Result<Option<Vec<Tree>>, UnpackFault>
    requires suits { Suits (grammar_of S.Shapes S.Cover.Cover.own _shapes.now) (F.wholes plan.now.fulls.now) plan.now.finished.now (S.full _shapes.now) (S.agrees _shapes.now) (F.named plan.now.fulls.now) (F.ruled plan.now.fulls.now) }
    requires skeleton { IsSkeleton (F.wholes plan.now.fulls.now) (leaves_of (S.meaning _shapes.now) (core_of plan.now.finished.now)) (chart_of (S.meaning _shapes.now) (core_of plan.now.finished.now)) (rows_in (core_of plan.now.finished.now)) plan.now.ranks.now (map asked_of wanted.now) }
    requires plan { IsPlan (F.named plan.now.fulls.now) (F.ruled plan.now.fulls.now) (rows_in (core_of plan.now.finished.now)) plan.now.members.now.last.items plan.now.members.now.before.items plan.now.ranks.now }
    requires wanted { AllBelow (length (rows_in (core_of plan.now.finished.now))) wanted.now }
    requires memo { IsMemo (F.value plan.now.fulls.now) (F.wholes plan.now.fulls.now) memo.old }
    ensures memo { OnOk result (IsMemo (F.value plan.now.fulls.now) (F.wholes plan.now.fulls.now) memo.new) }
    ensures answer { MatchResult result
        (λ o. MatchOption o (Unit {0}) (λ v. AreUnpacked (grammar_of S.Shapes S.Cover.Cover.own _shapes.now) (F.wholes plan.now.fulls.now) plan.now.finished.now max (map derivation_of v.items)))
        (IsUnpackFault (grammar_of S.Shapes S.Cover.Cover.own _shapes.now) (F.wholes plan.now.fulls.now) plan.now.finished.now max) }
{
    let table = no_lists(alloc, plan.finished.rows() as usize)?;
    let mut lists = Lists { table, cut: false };
    let most = enough(plan.left, max);
    let kept = collect(alloc, plan, work, memo, wanted, most, &mut lists)?;
    let mut trees = kept.trees;
    if trees.len() > max as usize {
        return Err(UnpackFault::ReadingLimit);
    }
    if kept.over || lists.cut {
        return Ok(None);
    }
    if !are_enough(plan.left, &trees) {
        return Ok(None);
    }
    sort(&mut trees);
    Ok(Some(trees_of(alloc, trees)?))
}

/// What is tried where the groups of a chart may hold many trees: short lists, which are enough where more than `max` trees are asked for;
/// and lists of one tree for each full structure, which are enough where none is.
fn try_short<'p, 'w, S: Shapes, F: Fulls<Cover = S::Cover>>(
    alloc: Global,
    shapes: &S,
    plan: &'p Plan<'p, S, F>,
    wanted: &'w [Wanted<'w, F>],
    work: &mut F::Work,
    memo: &mut Memo<F>,
    max: u32,
) -> Result<Option<Vec<Tree>>, UnpackFault>
    requires suits { Suits (grammar_of S.Shapes S.Cover.Cover.own shapes.now) (F.wholes plan.now.fulls.now) plan.now.finished.now (S.full shapes.now) (S.agrees shapes.now) (F.named plan.now.fulls.now) (F.ruled plan.now.fulls.now) }
    requires skeleton { IsSkeleton (F.wholes plan.now.fulls.now) (leaves_of (S.meaning shapes.now) (core_of plan.now.finished.now)) (chart_of (S.meaning shapes.now) (core_of plan.now.finished.now)) (rows_in (core_of plan.now.finished.now)) plan.now.ranks.now (map asked_of wanted.now) }
    requires plan { IsPlan (F.named plan.now.fulls.now) (F.ruled plan.now.fulls.now) (rows_in (core_of plan.now.finished.now)) plan.now.members.now.last.items plan.now.members.now.before.items plan.now.ranks.now }
    requires wanted { AllBelow (length (rows_in (core_of plan.now.finished.now))) wanted.now }
    requires memo { IsMemo (F.value plan.now.fulls.now) (F.wholes plan.now.fulls.now) memo.old }
    ensures memo { OnOk result (IsMemo (F.value plan.now.fulls.now) (F.wholes plan.now.fulls.now) memo.new) }
    ensures answer { MatchResult result
        (λ o. MatchOption o (Unit {0}) (λ v. AreUnpacked (grammar_of S.Shapes S.Cover.Cover.own shapes.now) (F.wholes plan.now.fulls.now) plan.now.finished.now max (map derivation_of v.items)))
        (IsUnpackFault (grammar_of S.Shapes S.Cover.Cover.own shapes.now) (F.wholes plan.now.fulls.now) plan.now.finished.now max) }
{
    let most = max as usize + 1;
    let short = Plan {
        fulls: &*plan.fulls,
        finished: &*plan.finished,
        members: &*plan.members,
        ranks: &*plan.ranks,
        left: LeftOut::Nothing,
        most: FEW,
        most_wanted: most,
    };
    if let Some(trees) = pass(alloc, shapes, &short, &*wanted, work, &mut *memo, max)? {
        return Ok(Some(trees));
    }
    let classes = Plan {
        fulls: &*plan.fulls,
        finished: &*plan.finished,
        members: &*plan.members,
        ranks: &*plan.ranks,
        left: LeftOut::Repeats,
        most,
        most_wanted: most,
    };
    pass(alloc, shapes, &classes, &*wanted, work, memo, max)
}

/// What is tried first: nothing where the groups of a chart hold few trees, and else a count, which is enough where it is above `max`, and lists that are short.
fn try_first<'p, 'w, S: Shapes, F: Fulls<Cover = S::Cover>>(
    alloc: Global,
    shapes: &S,
    plan: &'p Plan<'p, S, F>,
    wanted: &'w [Wanted<'w, F>],
    work: &mut F::Work,
    memo: &mut Memo<F>,
    max: u32,
) -> Result<Option<Vec<Tree>>, UnpackFault>
    requires suits { Suits (grammar_of S.Shapes S.Cover.Cover.own shapes.now) (F.wholes plan.now.fulls.now) plan.now.finished.now (S.full shapes.now) (S.agrees shapes.now) (F.named plan.now.fulls.now) (F.ruled plan.now.fulls.now) }
    requires skeleton { IsSkeleton (F.wholes plan.now.fulls.now) (leaves_of (S.meaning shapes.now) (core_of plan.now.finished.now)) (chart_of (S.meaning shapes.now) (core_of plan.now.finished.now)) (rows_in (core_of plan.now.finished.now)) plan.now.ranks.now (map asked_of wanted.now) }
    requires plan { IsPlan (F.named plan.now.fulls.now) (F.ruled plan.now.fulls.now) (rows_in (core_of plan.now.finished.now)) plan.now.members.now.last.items plan.now.members.now.before.items plan.now.ranks.now }
    requires wanted { AllBelow (length (rows_in (core_of plan.now.finished.now))) wanted.now }
    requires memo { IsMemo (F.value plan.now.fulls.now) (F.wholes plan.now.fulls.now) memo.old }
    ensures memo { OnOk result (IsMemo (F.value plan.now.fulls.now) (F.wholes plan.now.fulls.now) memo.new) }
    ensures answer { MatchResult result
        (λ o. MatchOption o (Unit {0}) (λ v. AreUnpacked (grammar_of S.Shapes S.Cover.Cover.own shapes.now) (F.wholes plan.now.fulls.now) plan.now.finished.now max (map derivation_of v.items)))
        (IsUnpackFault (grammar_of S.Shapes S.Cover.Cover.own shapes.now) (F.wholes plan.now.fulls.now) plan.now.finished.now max) }
{
    let number = (max as u64 + 1).saturating_mul(MANY);
    if !is_large(alloc, plan.finished, plan.ranks, number)? {
        return Ok(None);
    }
    let counted = Plan {
        fulls: &*plan.fulls,
        finished: &*plan.finished,
        members: &*plan.members,
        ranks: &*plan.ranks,
        left: LeftOut::Nothing,
        most: FEW_CLASSES,
        most_wanted: FEW_CLASSES,
    };
    if are_more(alloc, shapes, &counted, &*wanted, work, &mut *memo, max)? {
        return Err(UnpackFault::ReadingLimit);
    }
    try_short(alloc, shapes, plan, &*wanted, work, memo, max)
}

/// The trees over a chart's leaves that are asked for, by the rows of its groups, their ranks and wanted hosts. Lists are cut just above `max`, and later if need be.
fn unpack_by<'p, 'w, S: Shapes, F: Fulls<Cover = S::Cover>>(
    alloc: Global,
    shapes: &S,
    plan: &'p Plan<'p, S, F>,
    wanted: &'w [Wanted<'w, F>],
    work: &mut F::Work,
    max: u32,
) -> Result<Vec<Tree>, UnpackFault>
    requires suits { Suits (grammar_of S.Shapes S.Cover.Cover.own shapes.now) (F.wholes plan.now.fulls.now) plan.now.finished.now (S.full shapes.now) (S.agrees shapes.now) (F.named plan.now.fulls.now) (F.ruled plan.now.fulls.now) }
    requires skeleton { IsSkeleton (F.wholes plan.now.fulls.now) (leaves_of (S.meaning shapes.now) (core_of plan.now.finished.now)) (chart_of (S.meaning shapes.now) (core_of plan.now.finished.now)) (rows_in (core_of plan.now.finished.now)) plan.now.ranks.now (map asked_of wanted.now) }
    requires plan { IsPlan (F.named plan.now.fulls.now) (F.ruled plan.now.fulls.now) (rows_in (core_of plan.now.finished.now)) plan.now.members.now.last.items plan.now.members.now.before.items plan.now.ranks.now }
    requires wanted { AllBelow (length (rows_in (core_of plan.now.finished.now))) wanted.now }
    ensures { MatchResult result
        (λ v. AreUnpacked (grammar_of S.Shapes S.Cover.Cover.own shapes.now) (F.wholes plan.now.fulls.now) plan.now.finished.now max (map derivation_of v.items))
        (IsUnpackFault (grammar_of S.Shapes S.Cover.Cover.own shapes.now) (F.wholes plan.now.fulls.now) plan.now.finished.now max) }
{
    let mut memo = Memo::new(alloc);
    if let Some(trees) = try_first(alloc, shapes, plan, &*wanted, work, &mut memo, max)? {
        return Ok(trees);
    }
    let mut most = max as usize + 1;
    loop {
        let longer = Plan {
            fulls: &*plan.fulls,
            finished: &*plan.finished,
            members: &*plan.members,
            ranks: &*plan.ranks,
            left: LeftOut::Nothing,
            most,
            most_wanted: most,
        };
        if let Some(trees) = pass(alloc, shapes, &longer, &*wanted, work, &mut memo, max)? {
            return Ok(trees);
        }
        if most == usize::MAX {
            return Err(UnpackFault::NoMemory);
        }
        most = if most < usize::MAX / 8 {
            most * 8
        } else {
            usize::MAX
        };
    }
}

/// The trees over the chart's leaves whose full structure is asked for, each once, in the order of trees; `ReadingLimit` exactly where they are more than `max`.
pub fn unpack<S: Shapes, F: Fulls<Cover = S::Cover>>(
    alloc: Global,
    finished: &Finished<S>,
    shapes: &S,
    fulls: &F,
    work: &mut F::Work,
    max: u32,
) -> Result<Vec<Tree>, UnpackFault>
    requires { Suits (grammar_of S.Shapes S.Cover.Cover.own shapes.now) (F.wholes fulls.now) finished.now (S.full shapes.now) (S.agrees shapes.now) (F.named fulls.now) (F.ruled fulls.now) }
    ensures { MatchResult result
        (λ v. AreUnpacked (grammar_of S.Shapes S.Cover.Cover.own shapes.now) (F.wholes fulls.now) finished.now max (map derivation_of v.items))
        (IsUnpackFault (grammar_of S.Shapes S.Cover.Cover.own shapes.now) (F.wholes fulls.now) finished.now max) }
{
    let ranks = ranks_of(alloc, finished)?;
    let members = members_of(alloc, finished)?;
    let wanted = wanted_of(alloc, finished, fulls)?;
    let most = max as usize + 1;
    let plan = Plan {
        fulls: &*fulls,
        finished: &*finished,
        members: &members,
        ranks: &ranks,
        left: LeftOut::Nothing,
        most,
        most_wanted: most,
    };
    unpack_by(alloc, shapes, &plan, &wanted, work, max)
}
