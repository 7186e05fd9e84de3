//! The MRS of a structure.

ghost use Rattle.std.specs.Prelude.{◌≡◌, length, IfOk};
ghost use Rattle.mrs_model.specs.Views.{meaning_of};
ghost use Rattle.mrs_model.specs.Valid.{IsValid};
ghost use Rattle.mrs_places.specs.Paths.{paths_of};
ghost use Rattle.mrs_places.specs.Places.{parts_of, ArePartsIn};
ghost use Rattle.mrs_places.specs.Faults.{Tells};
ghost use Rattle.mrs_extract.specs.Asked.{ArePaths, IsOf};
ghost use Rattle.mrs_extract.specs.Extraction.{IsMrsOf, Extracts};

use crate::constraints::{handle_constraints, individual_constraints};
use crate::numbers::Numbers;
use crate::predications::predications;
use crate::variables::variables;
use fs_graph::Graph;
use mrs_model::Mrs;
use mrs_places::{Found, MrsPaths, NoMemory, NoMrs, look};
use std::alloc::Global;
use type_hierarchy::Types;

// The MRS of the nodes that were found.
fn mrs_of(
    alloc: Global,
    graph: &Graph,
    types: &Types,
    paths: &MrsPaths,
    found: &Found,
) -> Result<Mrs, NoMemory>
    requires paths { ArePaths types.now (paths_of paths.now) }
    requires of { IsOf types.now (paths_of paths.now) graph.now }
    requires inside { ArePartsIn (length graph.now.types) (parts_of found.now) }
    ensures is { IfOk result (λ m. IsMrsOf graph.now types.now (paths_of paths.now) (parts_of found.now) (meaning_of m)) }
    ensures valid { IfOk result (λ m. IsValid (meaning_of m)) }
{
    let mut numbers = Numbers::new(alloc, graph.nodes())?;
    let top = numbers.number(found.top)?;
    let index = numbers.number(found.index)?;
    let eps = predications(alloc, graph, types, paths, &mut numbers, &found.rels)?;
    let hcons = handle_constraints(alloc, graph, types, paths, &mut numbers, &found.hcons)?;
    let icons = individual_constraints(alloc, graph, types, paths, &mut numbers, &found.icons)?;
    let vars = variables(alloc, graph, types, paths, numbers.nodes())?;
    Ok(Mrs {
        top,
        index,
        vars,
        eps,
        hcons,
        icons,
    })
}

/// The MRS of a structure, or the first path whose node or form is absent (Copestake, Flickinger, Pollard and Sag 2005).
///
/// The order of looking is that of `look`. Variables are numbered from 0 in order of first occurrence: top, index, then the label of each
/// elementary predication and what fills its roles, then the two variables of each constraint. Nodes that are one are one variable.
pub fn extract(alloc: Global, graph: &Graph, types: &Types, paths: &MrsPaths) -> Result<Mrs, NoMrs>
    requires paths { ArePaths types.now (paths_of paths.now) }
    requires of { IsOf types.now (paths_of paths.now) graph.now }
    ensures told { Tells meaning_of (Extracts graph.now types.now (paths_of paths.now)) result }
    ensures valid { IfOk result (λ m. IsValid (meaning_of m)) }
{
    let found = look(alloc, graph, types, paths)?;
    let mrs = mrs_of(alloc, graph, types, paths, &found)?;
    Ok(mrs)
}
