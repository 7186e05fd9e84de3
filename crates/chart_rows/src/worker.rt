//! A single worker: tasks, from what a core tells of them to what is entered.

ghost use Rattle.std.specs.Prelude.{◌<◌, ◌≤◌, IfOk, OnOk};
ghost use Rattle.chart_core.specs.Grammar.{grammar_of};
ghost use Rattle.chart_core.specs.Kept.{IsCore, tasks_of};
ghost use Rattle.chart_core.specs.Calls.{IsRightIn};
ghost use Rattle.chart_core.specs.Outcomes.{ShapeBelongs};
ghost use Rattle.chart_core.specs.Later.{IsLater};

use chart_core::{Call, Caller, Core, Entered, Outcome, Ready, TaskId, outcome_of};
use chart_model::{NoMemory, Shapes};
use std::alloc::Global;

// The outcome of a task: `Fails` where it is done or skipped.
fn work_out<S: Shapes>(
    core: &Core<S>,
    alloc: Global,
    shapes: &S,
    work: &mut S::Work,
    task: TaskId,
) -> Result<Outcome<S>, NoMemory>
    requires core { IsCore (grammar_of S.Shapes S.Cover.Cover.own shapes.now) core.now }
    requires made { task.0 < tasks_of core.now }
    ensures right { IfOk result (IsRightIn (grammar_of S.Shapes S.Cover.Cover.own shapes.now) core.now task.0) }
    ensures belongs { IfOk result (ShapeBelongs (S.belongs shapes.now)) }
{
    match core.ready(alloc, shapes, task)? {
        Ready::Done { place: _ } => Ok(Outcome::Fails),
        Ready::Skipped { row: _ } => Ok(Outcome::Fails),
        Ready::Ready { rule, parts } => outcome_of(alloc, shapes, work, rule, &parts),
    }
}

/// Works out a task and enters its outcome.
pub fn advance<S: Shapes>(
    core: &mut Core<S>,
    alloc: Global,
    shapes: &S,
    work: &mut S::Work,
    task: TaskId,
) -> Result<Entered, NoMemory>
    requires core { IsCore (grammar_of S.Shapes S.Cover.Cover.own shapes.now) core.old }
    requires made { task.0 < tasks_of core.old }
    ensures core { IsCore (grammar_of S.Shapes S.Cover.Cover.own shapes.now) core.new }
    ensures later { OnOk result (IsLater (grammar_of S.Shapes S.Cover.Cover.own shapes.now) core.old core.new) }
    ensures more { tasks_of core.old ≤ tasks_of core.new }
{
    let outcome = work_out(core, alloc, shapes, work, task)?;
    Ok(core.enter(alloc, shapes, work, task, outcome))
}

/// Works out and enters a task, with verdicts on hosts of this cover and level that were there before another task.
pub fn advance_after<S: Shapes>(
    core: &mut Core<S>,
    alloc: Global,
    shapes: &S,
    work: &mut S::Work,
    cover: &S::Cover,
    other: TaskId,
    task: TaskId,
) -> Result<Entered, NoMemory>
    requires core { IsCore (grammar_of S.Shapes S.Cover.Cover.own shapes.now) core.old }
    requires other { other.0 < tasks_of core.old }
    requires made { task.0 < tasks_of core.old }
    ensures core { IsCore (grammar_of S.Shapes S.Cover.Cover.own shapes.now) core.new }
{
    let peers = core.peers(alloc, shapes, cover, 0)?;
    advance(core, alloc, shapes, work, other)?;
    let outcome = work_out(core, alloc, shapes, work, task)?;
    let tested = peers.test(alloc, shapes, work, &outcome)?;
    let by = Caller { seat: 0, count: 0 };
    let call = Call { task, by };
    Ok(core.enter_tested(alloc, shapes, work, call, outcome, &tested))
}

/// Works out and enters the tasks below a bound, in order, as they are made.
pub fn saturate<S: Shapes>(
    core: &mut Core<S>,
    alloc: Global,
    shapes: &S,
    work: &mut S::Work,
    bound: u64,
) -> Result<(), NoMemory>
    requires core { IsCore (grammar_of S.Shapes S.Cover.Cover.own shapes.now) core.old }
    ensures core { IsCore (grammar_of S.Shapes S.Cover.Cover.own shapes.now) core.new }
{
    for number in 0..bound {
        if number < core.tasks() {
            advance(core, alloc, shapes, work, TaskId(number))?;
        }
    }
    Ok(())
}
