//! Charts made by the ordered pass.

ghost use Rattle.std.specs.Prelude.{All};
ghost use Rattle.chart_model.specs.Spans.{is_span};

use crate::grammars::limits;
use crate::told::{push_fault, push_number};
use chart_core::{ChartFault, Leaf, ordered_pass};
use chart_model::{NoMemory, TableShapes};
use std::alloc::Global;

// The number of classes over these leaves, or what the limits answer.
pub fn classes(
    alloc: Global,
    shapes: &TableShapes,
    leaves: Vec<Leaf<TableShapes>>,
    edges: u32,
    out: &mut String,
) -> Result<(), NoMemory>
    requires { All (λ leaf. Unit {0} × is_span leaf.cover) leaves.items }
{
    match classes_of(alloc, shapes, leaves, edges) {
        Ok(count) => push_number(alloc, out, "", u64::from(count)),
        Err(fault) => push_fault(alloc, out, fault),
    }
}

fn classes_of(
    alloc: Global,
    shapes: &TableShapes,
    leaves: Vec<Leaf<TableShapes>>,
    edges: u32,
) -> Result<u32, ChartFault>
    requires { All (λ leaf. Unit {0} × is_span leaf.cover) leaves.items }
{
    let limits = limits(edges);
    let finished = ordered_pass(alloc, leaves, shapes, &mut (), &limits)?;
    finished.decide(&limits)
}
