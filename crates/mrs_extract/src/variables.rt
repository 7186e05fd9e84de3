//! The variables of an MRS, with their sorts and properties.

ghost use Rattle.std.specs.Prelude.{◌≡◌, ◌<◌, All, map, length, IfOk, IfSome};
ghost use Rattle.std.specs.List.{AllZip};
ghost use Rattle.std.specs.String.{string_bytes};
ghost use Rattle.type_hierarchy.specs.Table.{count_of};
ghost use Rattle.mrs_model.specs.Views.{variable_of};
ghost use Rattle.mrs_places.specs.Paths.{paths_of};
ghost use Rattle.mrs_extract.specs.Asked.{ArePaths, IsOf};
ghost use Rattle.mrs_extract.specs.Extraction.{sort_at, IsVariableAt};

use crate::properties::properties;
use fs_graph::{Graph, Node};
use mrs_model::Var;
use mrs_places::{MrsPaths, NoMemory, is_below};
use std::alloc::Global;
use type_hierarchy::{Ty, Types};

// The letters of the first sort of the settings that fits a type, else `u`.
fn sort_of<'a>(types: &Types, paths: &'a MrsPaths, t: Ty) -> &'a str
    requires t_in { t.0 < count_of types.now }
    requires sorts_in { All (λ s. IfSome s.ty (λ t. t < count_of types.now)) (paths_of paths.now).sorts }
    ensures { result.now ≡ sort_at types.now t.0 (paths_of paths.now).sorts }
{
    for k in 0..paths.sorts.len() {
        let sort = &paths.sorts[k];
        if is_below(types, t, sort.ty) {
            return sort.letters.as_str();
        }
    }
    "u"
}

// The variable of a node. A handle has no properties.
fn variable(
    alloc: Global,
    graph: &Graph,
    types: &Types,
    paths: &MrsPaths,
    n: Node,
) -> Result<Var, NoMemory>
    requires paths { ArePaths types.now (paths_of paths.now) }
    requires of { IsOf types.now (paths_of paths.now) graph.now }
    requires inside { n.0 < length graph.now.types }
    ensures { IfOk result (λ v. IsVariableAt graph.now types.now (paths_of paths.now) n.0 (variable_of v)) }
{
    let letters = sort_of(types, paths, graph.ty(n));
    let sort = String::from_str(alloc, letters)?;
    if letters == "h" {
        return Ok(Var {
            sort,
            props: Vec::new(alloc),
        });
    }
    let props = properties(alloc, graph, types, paths, n)?;
    Ok(Var { sort, props })
}

/// The variables of nodes.
pub(crate) fn variables(
    alloc: Global,
    graph: &Graph,
    types: &Types,
    paths: &MrsPaths,
    nodes: &[u32],
) -> Result<Vec<Var>, NoMemory>
    requires paths { ArePaths types.now (paths_of paths.now) }
    requires of { IsOf types.now (paths_of paths.now) graph.now }
    requires inside { All (λ n. n < length graph.now.types) nodes.now }
    ensures { IfOk result (λ v. AllZip (IsVariableAt graph.now types.now (paths_of paths.now)) nodes.now (map variable_of v.items)) }
{
    let mut vars = Vec::with_capacity(alloc, nodes.len())?;
    for k in 0..nodes.len() {
        vars.push(variable(alloc, graph, types, paths, Node(nodes[k]))?)?;
    }
    Ok(vars)
}
