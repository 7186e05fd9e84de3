//! Sketches: the types of a structure at some paths.

ghost use Rattle.std.specs.Prelude.{◌≡◌, ◌<◌, Some, length, map, option_map, slice_get, IfOk};
ghost use Rattle.fs_graph.specs.GraphMap.{reader_of};
ghost use Rattle.fs_graph.specs.Facts.{path_of};
ghost use Rattle.sieve.specs.Sketches.{paths_of, sketch_of};
ghost use Rattle.sieve.specs.Inner.{lines_of, numbers_of, line_seen};

use crate::NoMemory;
use crate::paths::SketchPaths;
use fs_graph::{Feat, Graph};
use std::alloc::Global;
use std::marker::Model;
use type_hierarchy::Ty;

/// A line of a sketch: a path, and the type at it; none where the path doesn't exist.
#[derive(Clone, Copy)]
pub struct SketchLine<'a> {
    pub path: &'a [Feat],
    pub ty: Option<Ty>,
}

/// The types of a structure at some paths, in their order. Contracts see it as the list of its lines. Sketches that are made at the
/// same `SketchPaths` share these, so that one takes a list of types alone.
#[derive(Drop)]
pub struct Sketch {
    paths: SketchPaths,
    types: Vec<Option<Ty>>,
}

impl Model for Sketch {
    ghost use Rattle.std.specs.Prelude.{List};
    ghost use Rattle.sieve.specs.Sketches.{TypeAt};

    ghost Value = { List TypeAt };

    ghost use Rattle.std.specs.Prelude.{◌≡◌, length};
    ghost use Rattle.sieve.specs.Inner.{lines_of, numbers_of};

    ghost view = { λ s. lines_of s.paths (numbers_of s.types.items) };

    ghost invariant = { λ s. length s.types.items ≡ length s.paths };
}

// The same paths once more.
fn again(alloc: Global, paths: &[Vec<Feat>]) -> Result<Vec<Vec<Feat>>, NoMemory>
    ensures { IfOk result (λ list. paths_of list.items ≡ paths_of paths.now) }
{
    let mut list = Vec::with_capacity(alloc, paths.len())?;
    for path in paths {
        list.push(Vec::from_slice(alloc, path)?)?;
    }
    Ok(list)
}

impl Sketch {
    ghost use Rattle.sieve.specs.Sketches.{TypeAt};

    /// The sketch of a structure at these paths: a line for each of them, in their order.
    pub fn of(alloc: Global, graph: &Graph, paths: &[Vec<Feat>]) -> Result<Sketch, NoMemory>
        ensures { IfOk result (λ s. s ≡ sketch_of (reader_of graph.now) (paths_of paths.now)) }
    {
        let list = again(alloc, paths)?;
        SketchPaths::new(alloc, list)?.sketch(alloc, graph)
    }

    // The sketch that has these types at these paths.
    pub(crate) fn at(paths: SketchPaths, types: Vec<Option<Ty>>) -> Sketch
        requires { length types.items ≡ length paths }
        ensures { result ≡ lines_of paths (numbers_of types.items) }
    {
        Sketch { paths, types }
    }

    /// How many lines there are.
    pub fn count(&self) -> usize
        ensures { result ≡ length self.now }
    {
        self.types.len()
    }

    /// The line of this number.
    pub fn line(&self, k: usize) -> SketchLine<'_>
        requires { k < length self.now }
        ensures { slice_get self.now k ≡ Some (line_seen result) }
    {
        SketchLine {
            path: self.paths.path(k),
            ty: self.types[k],
        }
    }
}
