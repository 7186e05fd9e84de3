//! Charts that workers make.

ghost use Rattle.std.specs.Prelude.{All};
ghost use Rattle.chart_model.specs.Spans.{is_span};
ghost use Rattle.chart_workers.specs.Crews.{IsCrewSize};

use crate::grammars::{grammar, leaves, limits};
use crate::steps::{long_number, number};
use crate::told::{push_fault, push_number};
use crate::watched::{Watch, Watched};
use chart_core::{ChartFault, Leaf};
use chart_model::NoMemory;
use chart_workers::{BySize, Crew, Terms, saturate};
use std::alloc::Global;
use std::sync::Wait;
use std::thread::Threads;

// the bound on classes where a step has none
const EDGES: u32 = 5_000;

// So many workers are to find the classes by these rules over these leaves, and so many classes may be.
#[derive(Drop)]
struct Work<'t> {
    workers: u32,
    edges: u32,
    rules: &'t str,
    leaves: &'t str,
}

// The number of classes that so many workers find over these leaves, where there may be so many.
fn saturated<'a, R: Wait + Threads + Sync>(
    rt: &R,
    alloc: Global,
    workers: u32,
    edges: u32,
    shapes: &Watched<'a>,
    leaves: Vec<Leaf<Watched<'a>>>,
) -> Result<u32, ChartFault>
    requires workers { IsCrewSize workers }
    requires leaves { All (λ leaf. Unit {0} × is_span leaf.cover) leaves.items }
{
    let mut crew = Crew::new(alloc, workers);
    let limits = limits(edges);
    let priority = BySize;
    let terms = Terms {
        limits: &limits,
        priority: &priority,
    };
    let watch = shapes.watch;
    let finished = saturate(rt, alloc, leaves, shapes, &mut crew, &terms, watch)?;
    finished.decide(&limits)
}

// The number of classes that the workers find, or what ended them.
fn classes<R: Wait + Threads + Sync>(
    rt: &R,
    alloc: Global,
    work: &Work<'_>,
    watch: &Watch,
    out: &mut String,
) -> Result<(), NoMemory>
    requires { IsCrewSize work.now.workers }
{
    let table = Watched {
        shapes: grammar(alloc, work.rules)?,
        watch,
    };
    let leaves = leaves(alloc, work.leaves)?;
    match saturated(rt, alloc, work.workers, work.edges, &table, leaves) {
        Ok(count) => push_number(alloc, out, "classes ", u64::from(count)),
        Err(fault) => push_fault(alloc, out, fault),
    }
}

/// The classes that 1 to 64 workers find, or the limit that is broken; the parts are the number of workers, how many classes
/// may be, the rules and the leaves.
pub fn crew<R: Wait + Threads + Sync>(
    rt: &R,
    alloc: Global,
    parts: (&str, &str, &str, &str),
    out: &mut String,
) -> Result<(), NoMemory> {
    let work = Work {
        workers: number(parts.0).clamp(1, 64),
        edges: number(parts.1),
        rules: parts.2,
        leaves: parts.3,
    };
    let watch = Watch::new(0, false);
    classes(rt, alloc, &work, &watch, out)
}

/// The same where memory is wanting at a call; the second part is the number of the call.
pub fn refused<R: Wait + Threads + Sync>(
    rt: &R,
    alloc: Global,
    parts: (&str, &str, &str, &str),
    out: &mut String,
) -> Result<(), NoMemory> {
    let work = Work {
        workers: number(parts.0).clamp(1, 64),
        edges: EDGES,
        rules: parts.2,
        leaves: parts.3,
    };
    let watch = Watch::new(long_number(parts.1), false);
    classes(rt, alloc, &work, &watch, out)
}

/// The same with two workers: the one that comes first is held until the other one compares structures, and this until the
/// first has come twice more.
pub fn held<R: Wait + Threads + Sync>(
    rt: &R,
    alloc: Global,
    rules: &str,
    leaves: &str,
    out: &mut String,
) -> Result<(), NoMemory> {
    let work = Work {
        workers: 2,
        edges: EDGES,
        rules,
        leaves,
    };
    let watch = Watch::new(0, true);
    classes(rt, alloc, &work, &watch, out)?;
    if watch.two_came() {
        out.push_str(", came twice meanwhile")?;
    }
    Ok(())
}
