//! Charts whose tasks are entered one by one.

ghost use Rattle.std.specs.Prelude.{All};
ghost use Rattle.chart_core.specs.Grammar.{grammar_of};
ghost use Rattle.chart_core.specs.Kept.{IsCore};
ghost use Rattle.chart_core.specs.Leaves.{LeafBelongs};

use crate::grammars::limits;
use crate::steps::{front, long_number};
use crate::told::{push_entered, push_number, push_rows};
use crate::worker::{advance, advance_after, saturate};
use chart_core::{Core, Leaf, Ready, TaskId};
use chart_model::{NoMemory, Shapes};
use std::alloc::Global;

// The answers of the steps of a chart over these leaves, and then how many leaves it hands back, where the last step says so,
// or how many rows the finished chart has, and which of them is packed or frosted into which.
pub fn chart<S: Shapes>(
    alloc: Global,
    shapes: &S,
    work: &mut S::Work,
    cover: &S::Cover,
    leaves: Vec<Leaf<S>>,
    steps: &str,
    out: &mut String,
) -> Result<(), NoMemory>
    requires { All (LeafBelongs (S.calculus shapes.now) (S.belongs shapes.now)) leaves.items }
{
    let mut core = Core::start(alloc, leaves, shapes, work, &limits(5000))?;
    run(&mut core, alloc, shapes, work, cover, steps, out)?;
    end(core, alloc, shapes, steps.ends_with("leaves"), out)
}

fn run<S: Shapes>(
    core: &mut Core<S>,
    alloc: Global,
    shapes: &S,
    work: &mut S::Work,
    cover: &S::Cover,
    steps: &str,
    out: &mut String,
) -> Result<(), NoMemory>
    requires { IsCore (grammar_of S.Shapes S.Cover.Cover.own shapes.now) core.old }
    ensures { IsCore (grammar_of S.Shapes S.Cover.Cover.own shapes.now) core.new }
{
    for step in steps.split(' ') {
        answer(core, alloc, shapes, work, cover, step, out)?;
        out.push_str(", ")?;
    }
    Ok(())
}

// A number is a task that is worked out and entered; `after:OTHER:TASK` enters a task after another one, with verdicts that
// were found before, on the hosts of a cover. `rest` enters all tasks in order. `tasks` and `pending` count, `ready:TASK` and
// `info:TASK` tell of one.
fn answer<S: Shapes>(
    core: &mut Core<S>,
    alloc: Global,
    shapes: &S,
    work: &mut S::Work,
    cover: &S::Cover,
    step: &str,
    out: &mut String,
) -> Result<(), NoMemory>
    requires { IsCore (grammar_of S.Shapes S.Cover.Cover.own shapes.now) core.old }
    ensures { IsCore (grammar_of S.Shapes S.Cover.Cover.own shapes.now) core.new }
{
    let (word, rest) = front(step, ':');
    match word {
        "rest" => saturate(core, alloc, shapes, work, 100),
        "tasks" => push_number(alloc, out, "", core.tasks()),
        "pending" => push_number(alloc, out, "", core.pending()),
        "ready" => ready(core, alloc, shapes, long_number(rest), out),
        "info" => info(core, alloc, shapes, long_number(rest), out),
        "after" => enter_after(core, alloc, shapes, work, cover, rest, out),
        _ => enter(core, alloc, shapes, work, word, out),
    }
}

fn enter<S: Shapes>(
    core: &mut Core<S>,
    alloc: Global,
    shapes: &S,
    work: &mut S::Work,
    word: &str,
    out: &mut String,
) -> Result<(), NoMemory>
    requires { IsCore (grammar_of S.Shapes S.Cover.Cover.own shapes.now) core.old }
    ensures { IsCore (grammar_of S.Shapes S.Cover.Cover.own shapes.now) core.new }
{
    let task = long_number(word);
    if core.tasks() <= task || word.starts_with('l') {
        return Ok(());
    }
    let entered = advance(core, alloc, shapes, work, TaskId(task))?;
    push_entered(alloc, out, entered)
}

fn enter_after<S: Shapes>(
    core: &mut Core<S>,
    alloc: Global,
    shapes: &S,
    work: &mut S::Work,
    cover: &S::Cover,
    rest: &str,
    out: &mut String,
) -> Result<(), NoMemory>
    requires { IsCore (grammar_of S.Shapes S.Cover.Cover.own shapes.now) core.old }
    ensures { IsCore (grammar_of S.Shapes S.Cover.Cover.own shapes.now) core.new }
{
    let (other, task) = front(rest, ':');
    let (other, task) = (long_number(other), long_number(task));
    if core.tasks() <= other || core.tasks() <= task {
        return Ok(());
    }
    let (other, task) = (TaskId(other), TaskId(task));
    let entered = advance_after(core, alloc, shapes, work, cover, other, task)?;
    push_entered(alloc, out, entered)
}

// How a task stands.
fn ready<S: Shapes>(
    core: &Core<S>,
    alloc: Global,
    shapes: &S,
    task: u64,
    out: &mut String,
) -> Result<(), NoMemory>
    requires { IsCore (grammar_of S.Shapes S.Cover.Cover.own shapes.now) core.now }
{
    if core.tasks() <= task {
        return Ok(());
    }
    match core.ready(alloc, shapes, TaskId(task))? {
        Ready::Done { place } => push_number(alloc, out, "done ", place),
        Ready::Skipped { row } => push_number(alloc, out, "skipped ", row.0),
        Ready::Ready { rule, parts: _ } => push_number(alloc, out, "rule ", u64::from(rule)),
    }
}

// The rule of a task, and the size and level of its host.
fn info<S: Shapes>(
    core: &Core<S>,
    alloc: Global,
    shapes: &S,
    task: u64,
    out: &mut String,
) -> Result<(), NoMemory>
    requires { IsCore (grammar_of S.Shapes S.Cover.Cover.own shapes.now) core.now }
{
    let _ = shapes;
    if core.tasks() <= task {
        return Ok(());
    }
    let info = core.task(TaskId(task));
    push_number(alloc, out, "rule ", u64::from(info.rule))?;
    push_number(alloc, out, " size ", u64::from(info.size))?;
    push_number(alloc, out, " level ", u64::from(info.level))
}

// Hands the leaves back, or finishes the chart.
fn end<S: Shapes>(
    core: Core<S>,
    alloc: Global,
    shapes: &S,
    is_back: bool,
    out: &mut String,
) -> Result<(), NoMemory>
    requires { IsCore (grammar_of S.Shapes S.Cover.Cover.own shapes.now) core }
{
    let _ = shapes;
    if is_back {
        return push_number(alloc, out, "leaves ", core.leaves().len() as u64);
    }
    match core.finish() {
        Ok(finished) => push_rows(alloc, &finished, out),
        Err(_) => Ok(out.push_str("a task is pending")?),
    }
}
