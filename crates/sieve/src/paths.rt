//! The paths at which sketches are made.

ghost use Rattle.std.specs.Prelude.{◌≡◌, ◌<◌, ◌++◌, Some, length, map, option_map, slice_get, IfOk};
ghost use Rattle.fs_graph.specs.GraphMap.{reader_of};
ghost use Rattle.fs_graph.specs.Facts.{path_of};
ghost use Rattle.sieve.specs.Sketches.{paths_of, type_along, sketch_of, below_place};
ghost use Rattle.sieve.specs.Inner.{numbers_of};

use crate::NoMemory;
use crate::sketches::Sketch;
use fs_graph::{Feat, Graph};
use std::alloc::Global;
use std::marker::Model;
use std::sync::Arc;
use type_hierarchy::Ty;

/// The paths at which sketches are made, in an order. All sketches that are made at them share them.
#[derive(Drop)]
pub struct SketchPaths {
    list: Arc<Vec<Vec<Feat>>>,
}

impl Model for SketchPaths {
    ghost use Rattle.std.specs.Prelude.{List};
    ghost use Rattle.fs_model.specs.Claims.{Path};

    ghost Value = { List Path };

    ghost use Rattle.std.specs.Arc.{arc_value};
    ghost use Rattle.sieve.specs.Sketches.{paths_of};

    ghost view = { λ p. paths_of (arc_value p.list).items };
}

// The type at a path, and none where the path doesn't exist.
fn type_along(graph: &Graph, path: &[Feat]) -> Option<Ty>
    ensures { option_map (λ t. t.0) result ≡ type_along (reader_of graph.now) (path_of path.now) }
{
    graph.laws();
    match graph.at(path) {
        Some(node) => Some(graph.ty(node)),
        None => None,
    }
}

// The types at these paths.
fn types_along(
    alloc: Global,
    graph: &Graph,
    paths: &[Vec<Feat>],
) -> Result<Vec<Option<Ty>>, NoMemory>
    ensures { IfOk result (λ types. numbers_of types.items ≡ map (type_along (reader_of graph.now)) (paths_of paths.now)) }
{
    let mut types = Vec::with_capacity(alloc, paths.len())?;
    for path in paths {
        types.push(type_along(graph, path))?;
    }
    Ok(types)
}

// A path that goes on from a place.
fn path_below(alloc: Global, place: &[Feat], path: &[Feat]) -> Result<Vec<Feat>, NoMemory>
    ensures { IfOk result (λ whole. path_of whole.items ≡ path_of place.now ++ path_of path.now) }
{
    let mut whole = Vec::from_slice(alloc, place)?;
    whole.extend_from_slice(path)?;
    Ok(whole)
}

// The type at a path below a place, and none where that path doesn't exist.
fn type_below(
    alloc: Global,
    graph: &Graph,
    place: &[Feat],
    path: &[Feat],
) -> Result<Option<Ty>, NoMemory>
    ensures { IfOk result (λ o. option_map (λ t. t.0) o ≡ type_along (below_place (path_of place.now) (reader_of graph.now)) (path_of path.now)) }
{
    let whole = path_below(alloc, place, path)?;
    Ok(type_along(graph, &whole))
}

// The types at these paths below a place.
fn types_below(
    alloc: Global,
    graph: &Graph,
    place: &[Feat],
    paths: &[Vec<Feat>],
) -> Result<Vec<Option<Ty>>, NoMemory>
    ensures { IfOk result (λ types. numbers_of types.items ≡ map (type_along (below_place (path_of place.now) (reader_of graph.now))) (paths_of paths.now)) }
{
    let mut types = Vec::with_capacity(alloc, paths.len())?;
    for path in paths {
        types.push(type_below(alloc, graph, place, path)?)?;
    }
    Ok(types)
}

impl SketchPaths {
    /// These paths.
    pub fn new(alloc: Global, list: Vec<Vec<Feat>>) -> Result<SketchPaths, NoMemory>
        ensures { IfOk result (λ p. p ≡ paths_of list.items) }
    {
        let list = Arc::new(alloc, list)?;
        Ok(SketchPaths { list })
    }

    /// The same paths once more; they aren't copied.
    pub fn share(&self) -> Result<SketchPaths, NoMemory>
        ensures { IfOk result (λ p. p ≡ self.now) }
    {
        let list = Arc::try_clone(&self.list)?;
        Ok(SketchPaths { list })
    }

    /// How many paths there are.
    pub fn count(&self) -> usize
        ensures { result ≡ length self.now }
    {
        self.list.len()
    }

    // The paths.
    fn list(&self) -> &[Vec<Feat>]
        ensures { paths_of result.now ≡ self.now }
    {
        &self.list
    }

    // The path of this number.
    pub(crate) fn path(&self, k: usize) -> &[Feat]
        requires { k < length self.now }
        ensures { slice_get self.now k ≡ Some (path_of result.now) }
    {
        &self.list[k]
    }

    /// The sketch of a structure at these paths. It takes one allocation, for the types.
    pub fn sketch(&self, alloc: Global, graph: &Graph) -> Result<Sketch, NoMemory>
        ensures { IfOk result (λ s. s ≡ sketch_of (reader_of graph.now) self.now) }
    {
        let types = types_along(alloc, graph, self.list())?;
        let paths = self.share()?;
        Ok(Sketch::at(paths, types))
    }

    /// The sketch of what stands at a place of a structure, at these paths from there.
    pub fn sketch_below(
        &self,
        alloc: Global,
        graph: &Graph,
        place: &[Feat],
    ) -> Result<Sketch, NoMemory>
        ensures { IfOk result (λ s. s ≡ sketch_of (below_place (path_of place.now) (reader_of graph.now)) self.now) }
    {
        let types = types_below(alloc, graph, place, self.list())?;
        let paths = self.share()?;
        Ok(Sketch::at(paths, types))
    }
}
