//! A structure as a list of its paths.

ghost use Rattle.std.specs.Prelude.{◌≡◌, ℕ, ◌+◌, ◌<◌, ◌++◌, ◌∷◌, [], length, map, reverse, replicate, None, IfOk, OnOk};
ghost use Rattle.fs_graph.specs.Facts.{path_of, lines_of};
ghost use Rattle.fs_graph.specs.GraphMap.{reader_of};
ghost use Rattle.fs_graph.specs.PathLists.{IsPathList, IsListed, lines_left};

use crate::{Feat, Graph, GraphArc, NoMemory, Node, PathLine, PathList};
use std::alloc::Global;

/// An arc of a node that was listed. Its path waits to be listed.
#[derive(Clone, Copy, Debug)]
pub struct Waiting {
    pub from: Node,
    pub arc: GraphArc,
}

/// The lines that were written, the place of the first line of each node that has one, and the arcs whose paths wait,
/// the next one last.
#[derive(Debug, Drop)]
pub struct Lines {
    pub lines: Vec<PathLine>,
    pub firsts: Vec<Option<usize>>,
    pub waiting: Vec<Waiting>,
}

impl Graph {
    /// The paths of the structure, in their order: a path for each node, the least one, and each further path to a node
    /// that doesn't go on from such a further path. `NoMemory` comes only for want of memory.
    pub fn paths(&self, alloc: Global) -> Result<PathList, NoMemory>
        ensures { IfOk result (λ list. IsPathList (reader_of self.now) (lines_of list)) }
    {
        let mut lines = begin(alloc, self)?;
        while let Some(next) = lines.waiting.pop() {
            list(alloc, self, &mut lines, next)?;
        }
        Ok(PathList { lines: lines.lines })
    }
}

// The root's line.
fn begin(alloc: Global, graph: &Graph) -> Result<Lines, NoMemory>
    ensures { IfOk result (λ l. IsListed graph.now l.lines.items l.firsts.items l.waiting.items) }
{
    let nodes = graph.nodes();
    let root = PathLine {
        path: Vec::new(alloc),
        ty: graph.ty(Node(0)),
        same_as: None,
    };
    let lines = vec![in alloc; root]?;
    let mut firsts = no_lines(alloc, nodes as usize)?;
    firsts[0] = Some(0);
    let mut waiting = Vec::new(alloc);
    push_arcs(&mut waiting, Node(0), graph.arcs(Node(0)))?;
    Ok(Lines {
        lines,
        firsts,
        waiting,
    })
}

// No node has a line yet.
fn no_lines(alloc: Global, nodes: usize) -> Result<Vec<Option<usize>>, NoMemory>
    ensures { IfOk result (λ v. v.items ≡ replicate nodes None) }
{
    let mut firsts = Vec::with_capacity(alloc, nodes)?;
    'nodes: while firsts.len() < nodes {
        firsts.push(None)?;
    }
    Ok(firsts)
}

// Writes the line of the path that waits next. Where it is the first one of its node, the paths of the node's arcs wait.
fn list(alloc: Global, graph: &Graph, lines: &mut Lines, next: Waiting) -> Result<(), NoMemory>
    requires { IsListed graph.now lines.old.lines.items lines.old.firsts.items (lines.old.waiting.items ++ next ∷ []) }
    ensures listed { OnOk result (IsListed graph.now lines.new.lines.items lines.new.firsts.items lines.new.waiting.items) }
    ensures falls { OnOk result (lines_left graph.now lines.new.firsts.items lines.new.waiting.items < lines_left graph.now lines.old.firsts.items (lines.old.waiting.items ++ next ∷ [])) }
{
    let to = next.arc.to;
    let Some(from) = lines.firsts[next.from.0 as usize] else {
        unreachable!()
    };
    let path = longer(alloc, &lines.lines[from].path, next.arc.feat)?;
    let ty = graph.ty(to);
    let Some(first) = lines.firsts[to.0 as usize] else {
        lines.firsts[to.0 as usize] = Some(lines.lines.len());
        lines.lines.push(PathLine {
            path,
            ty,
            same_as: None,
        })?;
        push_arcs(&mut lines.waiting, to, graph.arcs(to))?;
        return Ok(());
    };
    let same_as = Some(Vec::from_slice(alloc, &lines.lines[first].path)?);
    lines.lines.push(PathLine { path, ty, same_as })?;
    Ok(())
}

// A path with one feature more.
fn longer(alloc: Global, path: &[Feat], feat: Feat) -> Result<Vec<Feat>, NoMemory>
    ensures { IfOk result (λ v. path_of v.items ≡ path_of path.now ++ feat.0 ∷ []) }
{
    let mut longer = Vec::with_capacity(alloc, path.len() + 1)?;
    longer.extend_from_slice(path)?;
    longer.push(feat)?;
    Ok(longer)
}

// The paths of a node's arcs wait, the first one last.
fn push_arcs(waiting: &mut Vec<Waiting>, from: Node, arcs: &[GraphArc]) -> Result<(), NoMemory>
    ensures { OnOk result (waiting.new.items ≡ waiting.old.items ++ map (λ a. record { from = from; arc = a }) (reverse arcs.now)) }
{
    let mut i = arcs.len();
    while i > 0 {
        i -= 1;
        waiting.push(Waiting { from, arc: arcs[i] })?;
    }
    Ok(())
}
