//! What is asked of structures.

ghost use Rattle.std.specs.Prelude.{◌<◌, All, IsTrue};
ghost use Rattle.type_hierarchy.specs.Table.{count_of};

use crate::names::{name_of, path};
use crate::steps::{front, number};
use crate::texts::{push_type, shown};
use fs_graph::{Graph, Node};
use fs_trim::subsumes;
use fs_unify::Scratch;
use std::alloc::{AllocError, Global};
use type_hierarchy::Types;

// What a step asks of one structure: `text`, `nodes` is their count, `at PATH` the number and the type of the node there,
// `arcs NODE` that node's arcs.
pub fn of_one(
    alloc: Global,
    types: &Types,
    step: &str,
    graph: &Graph,
    rest: &str,
) -> Result<String, AllocError> {
    match step {
        "text" => shown(alloc, types, graph),
        "nodes" => format!(in alloc; "{}", graph.nodes()),
        "at" => node_at(alloc, types, graph, rest),
        "arcs" => arcs_of(alloc, graph, number(rest)),
        _ => String::from_str(alloc, "no such step"),
    }
}

fn node_at(alloc: Global, types: &Types, graph: &Graph, text: &str) -> Result<String, AllocError> {
    let at = path(alloc, text)?;
    match graph.at(&at) {
        Some(node) if node.0 < graph.nodes() => {
            let mut out = format!(in alloc; "{}", node.0)?;
            push_type(&mut out, types, graph.ty(node))?;
            Ok(out)
        }
        _ => String::from_str(alloc, "none"),
    }
}

fn arcs_of(alloc: Global, graph: &Graph, node: u32) -> Result<String, AllocError> {
    let mut out = String::new(alloc);
    if node < graph.nodes() {
        for arc in graph.arcs(Node(node)) {
            out.push_str(name_of(arc.feat))?;
            out.push_str(format!(in alloc; " {}, ", arc.to.0)?.as_str())?;
        }
    }
    Ok(out)
}

// Whether the first structure subsumes the second one, in room that is made first.
pub fn subsumption(
    alloc: Global,
    types: &Types,
    scratch: &mut Scratch,
    general: &Graph,
    special: &Graph,
) -> Result<String, AllocError> {
    if !types_in(types, general) || !types_in(types, special) {
        return String::from_str(alloc, "types out of range");
    }
    match scratch.reserve(general.nodes()) {
        Ok(()) => format!(in alloc; "{}", subsumes(scratch, types, general, special)),
        Err(_) => Err(AllocError),
    }
}

// Whether a graph's types are among these.
fn types_in(types: &Types, graph: &Graph) -> bool
    ensures { IsTrue result → All (λ t. t < count_of types.now) graph.now.types }
{
    let count = types.counts().all;
    let nodes = graph.nodes();
    for n in 0..nodes {
        if graph.ty(Node(n)).0 >= count {
            return false;
        }
    }
    true
}
