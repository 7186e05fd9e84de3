//! The core of a chart of packed edges: rows, tasks, and the steps that enter outcomes.
//!
//! Packing by subsumption (Oepen and Carroll 2000): an edge whose shape a live host of its cover and level
//! subsumes is packed into that host; otherwise it becomes a host, and frosts the hosts that it subsumes.
//!
//! A row is a leaf, the first daughters of a rule (a partial), or a mother under a rule. A task puts one more daughter, a
//! host, under a rule: as its first daughter, or to the right of a partial. A new row makes its tasks at once, so each pair is
//! tried exactly once, whatever order the tasks are taken in. `ordered_pass` takes them by the size and level of the mothers.
#![tactic(auto)]

ghost use Rattle.std.specs.Prelude.{◌≡◌};
ghost use Rattle.chart_core.specs.declared.ChartFault.TheVariants as faults;

pub use chart::Core;
use chart_model::{NoMemory, Shapes, Tuple};
pub use ended::Finished;
pub use finding::outcome_of;
pub use ordered::ordered_pass;

mod calls;
mod chart;
mod counting;
mod deciding;
mod ended;
mod entering;
mod finding;
mod history;
mod noted;
mod open;
mod ordered;
mod passing;
mod places;
mod rows;
mod search;
mod tasks;
mod telling;
mod tuples;
mod verdicts;

/// The number of a row of a chart.
#[derive(Drop, Clone, Copy, PartialEq, Eq)]
pub struct RowId(pub u64);

/// The number of a task of a chart.
#[derive(Drop, Clone, Copy, PartialEq, Eq)]
pub struct TaskId(pub u64);

/// The limits of an item.
#[derive(Drop, Clone, Copy)]
pub struct Limits {
    /// the greatest number of packed classes
    pub edges: u32,
    /// the greatest number of readings
    pub readings: u32,
    /// the greatest number of lexical rules over an entry
    pub lexical: u32,
    /// the greatest number of unary phrase rules, one over another
    pub unary: u32,
    /// the greatest number of empty words
    pub empty: u32,
}

/// Who entered an outcome: a seat, and how many calls it had entered before.
#[derive(Drop, Clone, Copy)]
pub struct Caller {
    pub seat: u32,
    pub count: u64,
}

/// Which task's outcome is entered, and by whom.
#[derive(Drop, Clone, Copy)]
pub struct Call {
    pub task: TaskId,
    pub by: Caller,
}

/// What a row is.
#[derive(Drop, Clone, Copy)]
pub enum RowKind {
    /// a leaf of this name
    Leaf { name: u32 },
    /// the first daughters of a rule
    Partial { rule: u32 },
    /// a mother under a rule
    Whole { rule: u32 },
}

/// The daughters of a row from left to right: `count` of them, from `a` on.
#[derive(Drop, Clone, Copy)]
pub struct Daughters {
    pub count: u32,
    pub a: Option<RowId>,
    pub b: Option<RowId>,
    pub c: Option<RowId>,
    pub d: Option<RowId>,
}

/// A row of a chart.
#[derive(Drop)]
pub struct Row<S: Shapes> {
    pub kind: RowKind,
    pub daughters: Daughters,
    pub cover: S::Cover,
    /// the number of unary rules above the last row that isn't one; 0 for a partial
    pub level: u32,
    /// none for a partial
    pub shape: Option<S::Shape>,
    /// the representative of a row that is packed or frosted
    pub into: Option<RowId>,
}

/// A leaf of a chart: in parsing a lexical tree.
#[derive(Drop)]
pub struct Leaf<S: Shapes> {
    pub cover: S::Cover,
    pub shape: S::Shape,
    pub name: u32,
}

/// What a worker finds for a task.
#[derive(Drop)]
pub enum Outcome<S: Shapes> {
    /// no cover, or no tuple that begins so has a mother
    Fails,
    /// the tuple isn't whole yet
    Fits { cover: S::Cover },
    /// the mother of a whole tuple
    Whole { cover: S::Cover, shape: S::Shape },
}

/// How a task stands.
#[derive(Drop)]
pub enum Ready<S: Shapes> {
    /// these daughters are to be tried under this rule
    Ready {
        rule: u32,
        parts: Tuple<S::Shape, S::Cover>,
    },
    /// this daughter is frosted
    Skipped {
        row: RowId,
    },
    /// the task is done, at this place of the history
    Done {
        place: u64,
    },
}

/// What entering an outcome did. A place is the number of an entry of the history.
#[derive(Drop, Clone, Copy, PartialEq, Eq)]
pub enum Entered {
    /// the task was done before, at this place
    Stale {
        place: u64,
    },
    /// the task is done: this daughter is frosted
    Skipped {
        place: u64,
        row: RowId,
    },
    /// the task is done, and gave nothing
    Noted {
        place: u64,
    },
    /// no room for one more host: so many were made
    Full {
        made: u64,
    },
    /// the row is there, with its tasks from the first to before the end
    Placed {
        place: u64,
        row: RowId,
        first_task: TaskId,
        end_task: TaskId,
    },
    NoMemory,
}

/// The rule of a task, and the size and level of its host.
#[derive(Drop, Clone, Copy)]
pub struct TaskInfo {
    pub rule: u32,
    pub size: u32,
    pub level: u32,
}

/// A live host, with a shape equal to its own.
#[derive(Drop)]
pub struct Peer<S: Shapes> {
    pub row: RowId,
    pub shape: S::Shape,
}

/// The live hosts of a cover and a level, and the length of the history at which they were so.
#[derive(Drop)]
pub struct Peers<S: Shapes> {
    pub hosts: Vec<Peer<S>>,
    pub seen: u64,
}

/// How a row's structure stands to that of an outcome.
#[derive(Drop, Clone, Copy)]
pub struct Verdict {
    pub row: RowId,
    /// whether the row's structure subsumes the outcome's
    pub over: bool,
    /// whether the outcome's structure subsumes the row's
    pub under: bool,
}

/// What was found of rows before an outcome is entered.
#[derive(Drop)]
pub struct Tested {
    pub verdicts: Vec<Verdict>,
}

/// What ends a chart before its time.
#[derive(Drop, Clone, Copy)]
pub enum ChartFault {
    /// an edge above more unary rules than the limit, of this size
    UnaryChain { size: u32 },
    /// more packed classes than the limit, by this size
    Edges { size: u32 },
    NoMemory,
}

impl From<NoMemory> for ChartFault {
    ghost from_gives = { λ _ fault. fault ≡ faults.NoMemory };

    fn from(_: NoMemory) -> ChartFault {
        ChartFault::NoMemory
    }
}
