//! The properties of a variable.

ghost use Rattle.std.specs.Prelude.{◌≡◌, ◌<◌, ◌+◌, ◌∷◌, [], ◌++◌, ℕ, All, Contains, ◌↔◌, filter, map, length, reverse, IfOk, OnOk};
ghost use Rattle.std.specs.List.{IsDistinct};
ghost use Rattle.std.specs.Str.{bytes_eq};
ghost use Rattle.std.specs.List.Sorted.{IsPermutation};
ghost use Rattle.std.specs.String.{string_bytes};
ghost use Rattle.type_hierarchy.specs.Table.{count_of};
ghost use Rattle.mrs_model.specs.Valid.{Rise};
ghost use Rattle.mrs_model.specs.Meanings.{Property};
ghost use Rattle.mrs_model.specs.Views.{property_of};
ghost use Rattle.mrs_places.specs.Paths.{paths_of};
ghost use Rattle.mrs_extract.specs.Asked.{ArePaths, IsOf};
ghost use Rattle.mrs_extract.specs.Extraction.{IsPropertyAt, is_open, open_arcs};
ghost use Rattle.mrs_extract.specs.Inner.Routes.{joined, numbers_of, properties_of, waits, pending, AreWaiting};

use crate::roles::{is_among, is_string};
use fs_graph::{Feat, Graph, GraphArc, Node};
use mrs_model::Prop;
use mrs_places::{MrsPaths, NoMemory};
use std::alloc::Global;
use type_hierarchy::Types;

/// An arc that waits, and how many features of the path lead to it.
#[derive(Clone, Copy)]
struct Waiting {
    arc: GraphArc,
    depth: usize,
}

/// Properties as they are found, depth first: the path to the last node that was met, and the arcs that wait, the next one last.
#[derive(Drop)]
struct Spread {
    path: Vec<Feat>,
    waiting: Vec<Waiting>,
    found: Vec<Prop>,
}

// The name of a path: that of each feature, joined by dots.
fn name_of(paths: &MrsPaths, path: &[Feat]) -> Result<String, NoMemory>
    requires filled { 0 < length path.now }
    requires inside { All (λ f. f < length paths.now.feats.items) (numbers_of path.now) }
    ensures { IfOk result (λ s. string_bytes s ≡ joined (paths_of paths.now) (numbers_of path.now)) }
{
    let mut name = paths.feats[path[0].0 as usize].clone()?;
    for k in 1..path.len() {
        name.push('.')?;
        name.push_str(&paths.feats[path[k].0 as usize])?;
    }
    Ok(name)
}

// An arc waits, unless its feature is skipped.
fn wait_for(
    paths: &MrsPaths,
    arc: GraphArc,
    depth: usize,
    waiting: &mut Vec<Waiting>,
) -> Result<(), NoMemory>
    ensures { OnOk result (reverse waiting.new.items ≡ map (waits depth) (filter (is_open (paths_of paths.now)) (arc ∷ [])) ++ reverse waiting.old.items) }
{
    if is_among(&paths.skip_properties, arc.feat) {
        return Ok(());
    }
    waiting.push(Waiting { arc, depth })?;
    Ok(())
}

// The arcs of a node wait, without the skipped ones. That of the least feature comes next.
fn wait(
    graph: &Graph,
    paths: &MrsPaths,
    n: Node,
    depth: usize,
    waiting: &mut Vec<Waiting>,
) -> Result<(), NoMemory>
    requires { n.0 < length graph.now.types }
    ensures { OnOk result (reverse waiting.new.items ≡ map (waits depth) (open_arcs graph.now (paths_of paths.now) n.0) ++ reverse waiting.old.items) }
{
    let arcs = graph.arcs(n);
    let count = arcs.len();
    for k in 0..count {
        wait_for(paths, arcs[count - 1 - k], depth, waiting)?;
    }
    Ok(())
}

// A path that ends in a value is a property.
fn note(
    alloc: Global,
    graph: &Graph,
    types: &Types,
    paths: &MrsPaths,
    path: &[Feat],
    end: Node,
    found: &mut Vec<Prop>,
) -> Result<(), NoMemory>
    requires filled { 0 < length path.now }
    requires path { All (λ f. f < length paths.now.feats.items) (numbers_of path.now) }
    requires end { end.0 < length graph.now.types }
    requires typed { All (λ t. t < count_of types.now) graph.now.types }
    ensures { OnOk result (map property_of found.new.items ≡ map property_of found.old.items ++ properties_of graph.now types.now (paths_of paths.now) (record { path = numbers_of path.now; end = end.0 } ∷ [])) }
{
    let ty = graph.ty(end);
    if graph.arcs(end).is_empty() && !is_string(types, ty) {
        found.push(Prop {
            name: name_of(paths, path)?,
            value: String::from_str(alloc, types.name(ty))?,
        })?;
    }
    Ok(())
}

impl Spread {
    // The path goes along an arc, and the arcs of the node there wait.
    fn visit(
        &mut self,
        alloc: Global,
        graph: &Graph,
        types: &Types,
        paths: &MrsPaths,
        next: Waiting,
    ) -> Result<(), NoMemory>
        requires typed { All (λ t. t < count_of types.now) graph.now.types }
        requires feats_in { IsOf types.now (paths_of paths.now) graph.now }
        requires waiting { AreWaiting (length graph.now.types) (length paths.now.feats.items) (numbers_of self.old.path.items) (next ∷ reverse self.old.waiting.items) }
        ensures waiting { OnOk result (AreWaiting (length graph.now.types) (length paths.now.feats.items) (numbers_of self.new.path.items) (reverse self.new.waiting.items)) }
        ensures fewer { OnOk result (length (pending graph.now (paths_of paths.now) (length graph.now.types) (numbers_of self.old.path.items) (next ∷ reverse self.old.waiting.items))
            ≡ length (pending graph.now (paths_of paths.now) (length graph.now.types) (numbers_of self.new.path.items) (reverse self.new.waiting.items)) + 1) }
        ensures told { OnOk result (map property_of self.new.found.items ++ properties_of graph.now types.now (paths_of paths.now) (pending graph.now (paths_of paths.now) (length graph.now.types) (numbers_of self.new.path.items) (reverse self.new.waiting.items))
            ≡ map property_of self.old.found.items ++ properties_of graph.now types.now (paths_of paths.now) (pending graph.now (paths_of paths.now) (length graph.now.types) (numbers_of self.old.path.items) (next ∷ reverse self.old.waiting.items))) }
    {
        graph.laws();
        let to = next.arc.to;
        self.path.truncate(next.depth);
        self.path.push(next.arc.feat)?;
        note(alloc, graph, types, paths, &self.path, to, &mut self.found)?;
        wait(graph, paths, to, self.path.len(), &mut self.waiting)?;
        Ok(())
    }
}

// Properties in byte order of their names, which differ.
fn in_order(mut found: Vec<Prop>) -> Result<Vec<Prop>, NoMemory>
    requires { IsDistinct bytes_eq (map (λ q. q.name) (map property_of found.items)) }
    ensures same { IfOk result (λ v. IsPermutation (map property_of found.items) (map property_of v.items)) }
    ensures order { IfOk result (λ v. Rise (map (λ q. q.name) (map property_of v.items))) }
{
    found.sort_by(|a, b| a.name.cmp(&b.name))?;
    Ok(found)
}

/// The properties of a node, in byte order of their names.
pub(crate) fn properties(
    alloc: Global,
    graph: &Graph,
    types: &Types,
    paths: &MrsPaths,
    n: Node,
) -> Result<Vec<Prop>, NoMemory>
    requires paths { ArePaths types.now (paths_of paths.now) }
    requires of { IsOf types.now (paths_of paths.now) graph.now }
    requires inside { n.0 < length graph.now.types }
    ensures order { IfOk result (λ v. Rise (map (λ q. q.name) (map property_of v.items))) }
    ensures props { IfOk result (λ v. (q : Property) → Contains (map property_of v.items) q ↔ IsPropertyAt graph.now types.now (paths_of paths.now) n.0 q.name q.value) }
{
    graph.laws();
    let mut spread = Spread {
        path: Vec::new(alloc),
        waiting: Vec::new(alloc),
        found: Vec::new(alloc),
    };
    wait(graph, paths, n, 0, &mut spread.waiting)?;
    while let Some(next) = spread.waiting.pop() {
        spread.visit(alloc, graph, types, paths, next)?;
    }
    let Spread { found, .. } = spread;
    let props = in_order(found)?;
    Ok(props)
}
