//! What calls of charts answer, as texts.

use chart_core::{ChartFault, Entered, Finished, RowId};
use chart_model::{NoMemory, Shapes};
use shared_chart::Unready;
use std::alloc::Global;

/// A word and a number.
pub fn push_number(
    alloc: Global,
    out: &mut String,
    word: &str,
    number: u64,
) -> Result<(), NoMemory> {
    out.push_str(word)?;
    let number = format!(in alloc; "{number}")?;
    out.push_str(number.as_str())?;
    Ok(())
}

/// How many rows there are, and the representatives of those that are packed or frosted.
pub fn push_rows<S: Shapes>(
    alloc: Global,
    finished: &Finished<S>,
    out: &mut String,
) -> Result<(), NoMemory> {
    push_number(alloc, out, "rows ", finished.rows())?;
    for number in 0..finished.rows() {
        if let Some(into) = finished.row(RowId(number)).into {
            push_number(alloc, out, ", row ", number)?;
            push_number(alloc, out, " into ", into.0)?;
        }
    }
    Ok(())
}

/// The limit that is broken and the size by which it is, or that memory was wanting.
pub fn push_fault(alloc: Global, out: &mut String, fault: ChartFault) -> Result<(), NoMemory> {
    match fault {
        ChartFault::Edges { size } => push_number(alloc, out, "edges, size ", u64::from(size)),
        ChartFault::UnaryChain { size } => {
            push_number(alloc, out, "unary chain, size ", u64::from(size))
        }
        ChartFault::NoMemory => Ok(out.push_str("no memory")?),
    }
}

/// Why there is no answer.
pub fn push_unready(alloc: Global, out: &mut String, unready: Unready) -> Result<(), NoMemory> {
    match unready {
        Unready::Unmade { tasks } => push_number(alloc, out, "unmade, tasks ", tasks),
        Unready::NoMemory => Err(NoMemory),
    }
}

/// What an entered task was, or why there is no answer.
pub fn push_told(
    alloc: Global,
    out: &mut String,
    told: Result<Entered, Unready>,
) -> Result<(), NoMemory> {
    match told {
        Ok(entered) => push_entered(alloc, out, entered),
        Err(unready) => push_unready(alloc, out, unready),
    }
}

/// What an entered task was.
pub fn push_entered(alloc: Global, out: &mut String, entered: Entered) -> Result<(), NoMemory> {
    match entered {
        Entered::Stale { place } => push_number(alloc, out, "stale ", place),
        Entered::Noted { place } => push_number(alloc, out, "noted ", place),
        Entered::Full { made } => push_number(alloc, out, "full ", made),
        Entered::NoMemory => Err(NoMemory),
        Entered::Skipped { place, row } => {
            push_number(alloc, out, "skipped ", place)?;
            push_number(alloc, out, " row ", row.0)
        }
        Entered::Placed {
            place,
            row,
            first_task,
            end_task,
        } => {
            push_number(alloc, out, "placed ", place)?;
            push_number(alloc, out, " row ", row.0)?;
            push_number(alloc, out, " tasks ", first_task.0)?;
            push_number(alloc, out, " to ", end_task.0)
        }
    }
}
