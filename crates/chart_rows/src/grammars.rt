//! Grammars, leaves and limits.

ghost use Rattle.std.specs.Prelude.{◌<◌, ◌≤◌, All, IfOk, length};
ghost use Rattle.chart_core.specs.Kept.{InRange};
ghost use Rattle.chart_model.specs.Spans.{is_span};
ghost use Rattle.chart_model.specs.Tables.{IsSized};

use crate::steps::{front, number};
use chart_core::{Leaf, Limits};
use chart_model::{NoMemory, Shapes, Span, TableRule, TableShapes};
use std::alloc::Global;

// The default limits, but so many edges, from 1 to 20,000.
pub fn limits(edges: u32) -> Limits
    ensures { InRange result }
{
    Limits {
        edges: edges.clamp(1, 20_000),
        readings: 10_000,
        lexical: 7,
        unary: 8,
        empty: 4,
    }
}

// A leaf from one node to the next.
fn leaf<S: Shapes<Shape = u32, Cover = Span>>(from: u32, shape: u32) -> Leaf<S>
    requires { from < 1000 }
    ensures { is_span result.cover }
{
    Leaf {
        cover: Span { from, to: from + 1 },
        shape,
        name: from,
    }
}

// The leaves of these shapes in a row.
pub fn leaves<S: Shapes<Shape = u32, Cover = Span>>(
    alloc: Global,
    shapes: &str,
) -> Result<Vec<Leaf<S>>, NoMemory>
    ensures { IfOk result (λ v. All (λ leaf. Unit {0} × is_span leaf.cover) v.items) }
{
    let mut leaves = Vec::new(alloc);
    let mut from = 0;
    for shape in shapes.split(' ') {
        if from < 1000 {
            leaves.push(leaf(from, number(shape)))?;
            from += 1;
        }
    }
    Ok(leaves)
}

// A rule of one daughter, `LIMIT>MOTHER`, or two, `LIMIT+LIMIT>MOTHER`.
fn rule(alloc: Global, text: &str) -> Result<TableRule, NoMemory>
    ensures { IfOk result IsSized }
{
    let (limits, mother) = front(text, '>');
    let limits = match limits.split_once('+') {
        Some((left, right)) => Vec::from_slice(alloc, &[number(left), number(right)])?,
        None => Vec::from_slice(alloc, &[number(limits)])?,
    };
    Ok(TableRule {
        limits,
        mother: number(mother),
    })
}

fn rules(alloc: Global, text: &str) -> Result<Vec<TableRule>, NoMemory>
    ensures sized { IfOk result (λ v. All IsSized v.items) }
    ensures few { IfOk result (λ v. length v.items ≤ 100) }
{
    let mut rules = Vec::new(alloc);
    for word in text.split(' ') {
        if rules.len() < 100 {
            rules.push(rule(alloc, word)?)?;
        }
    }
    Ok(rules)
}

// The grammar of these rules.
pub fn grammar(alloc: Global, text: &str) -> Result<TableShapes, NoMemory> {
    Ok(TableShapes::new(rules(alloc, text)?))
}
