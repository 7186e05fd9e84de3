//! Graphs that are drawn node by node and arc by arc.

ghost use Rattle.std.specs.Prelude.{◌<◌, length, IfOk, OnOk};
ghost use Rattle.structure_rows.specs.Free.{IsFree, IsEmpty};

use crate::names::{feature, type_of};
use crate::steps::{front, number};
use fs_graph::{Builder, Clash, Graph, NoMemory, Node};
use std::alloc::Global;
use type_hierarchy::Types;

// The graph of a text, which has the types of the nodes from the root on, and then for each arc after a stroke its node, its
// feature and the node that it leads to.
pub fn drawn(alloc: Global, types: &Types, text: &str) -> Result<Graph, Clash> {
    let (nodes, arcs) = text.split_once(" / ").unwrap_or((text, ""));
    let (root, others) = front(nodes);
    let mut builder = Builder::new(alloc, type_of(types, root))?;
    let last = add_nodes(&mut builder, types, others)?;
    add_arcs(alloc, &mut builder, last, arcs)?;
    builder.finish()
}

// Adds nodes without arcs, and gives the last one.
fn add_nodes(builder: &mut Builder, types: &Types, names: &str) -> Result<Node, NoMemory>
    requires root { 0 < length builder.old.types }
    requires empty { IsEmpty builder.old }
    ensures last { IfOk result (λ n. n.0 < length builder.new.types) }
    ensures empty { OnOk result (IsEmpty builder.new) }
{
    let mut last = Node(0);
    for name in names.split(' ') {
        last = builder.node(type_of(types, name))?;
    }
    Ok(last)
}

// Adds arcs between the nodes up to the last one.
fn add_arcs(alloc: Global, builder: &mut Builder, last: Node, arcs: &str) -> Result<(), NoMemory>
    requires last { last.0 < length builder.old.types }
    requires empty { IsEmpty builder.old }
{
    let mut seen = Vec::new(alloc);
    for arc in arcs.split(" / ") {
        add_arc(builder, &mut seen, last, arc)?;
    }
    Ok(())
}

// Adds an arc, unless its node has one with this feature: each arc that was added is among those that are seen, a node's
// number sixteen times and its feature's.
fn add_arc(
    builder: &mut Builder,
    seen: &mut Vec<u32>,
    last: Node,
    arc: &str,
) -> Result<(), NoMemory>
    requires last { last.0 < length builder.old.types }
    requires free { IsFree builder.old seen.old.items }
    ensures last { OnOk result (last.0 < length builder.new.types) }
    ensures free { OnOk result (IsFree builder.new seen.new.items) }
{
    let (from, rest) = front(arc);
    let (name, to) = front(rest);
    let (from, feat, to) = (number(from), feature(name), number(to));
    if from > last.0 || to > last.0 || from > 1000 {
        return Ok(());
    }
    let key = from * 16 + feat.0;
    if seen.contains(&key) {
        return Ok(());
    }
    seen.push(key)?;
    builder.arc(Node(from), feat, Node(to))
}
