//! What a chart is, as a function of its history, that a chart with nothing pending is complete, and what the limits on
//! packed classes and unary chains answer; and covers and shapes, what a chart needs to know of a grammar.
//!
//! Packing by subsumption: Oepen and Carroll 2000.
#![tactic(auto)]

ghost use Rattle.chart_model.specs.Below.{ChartsDecide, ChartsDecideBelow, RunsHoldTrees};
ghost use Rattle.chart_model.specs.Finished.{ChartsAreComplete, ForestsAreComplete};
ghost use Rattle.chart_model.specs.Limits.{AnswersAreOne};

pub mod counts;
mod covers;
pub mod span;
pub mod table;
pub mod table_rule;

pub use counts::{Counts, Numbers};
pub use covers::{Cover, Part, Shapes, Tuple};
pub use span::Span;
pub use std::alloc::AllocError as NoMemory;
pub use table::TableShapes;
pub use table_rule::TableRule;

/// The law of charts, over any grammar that meets the laws of shapes. It does nothing.
///
/// Whatever order the outcomes of tasks are entered in, with repeats and skipped tasks among them, a chart with nothing
/// pending is complete over its leaves, and each tree with a full structure stands in exactly one group of its forest.
pub fn chart_law<S: Shapes>(_shapes: &S)
    ensures charts { ChartsAreComplete (S.calculus _shapes.now) }
    ensures forests { ForestsAreComplete (S.calculus _shapes.now) (S.full _shapes.now) (S.agrees _shapes.now) }
{}

/// The law of the limits, over any grammar that meets the laws of shapes. It does nothing.
///
/// The limits have one answer, and there is one class count. After whatever run of outcomes, whether or not there was room
/// for its hosts, the live hosts below a size are the packed classes there and decide both limits there, as soon as each task
/// that is still pending puts together a whole tuple whose cover has at least that size. Where nothing is pending, the chart
/// is complete and holds its trees, its live hosts give the class count, and their sizes give the answer of the limits.
pub fn limits_law<S: Shapes>(_shapes: &S)
    ensures one { AnswersAreOne (S.calculus _shapes.now) }
    ensures below { ChartsDecideBelow (S.calculus _shapes.now) }
    ensures decided { ChartsDecide (S.calculus _shapes.now) }
    ensures forests { RunsHoldTrees (S.calculus _shapes.now) (S.full _shapes.now) (S.agrees _shapes.now) }
{}
