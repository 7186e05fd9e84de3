//! The places of daughters.

ghost use Rattle.std.specs.Prelude.{◌≡◌, true, map, IfOk};
ghost use Rattle.std.specs.List.{AllZip, range_with_len};
ghost use Rattle.fs_graph.specs.Facts.{path_of};
ghost use Rattle.closed_lists.specs.Names.{IsReadable};
ghost use Rattle.constraint_expand.specs.Books.{numbered_of, instance_of};
ghost use Rattle.book_shapes.specs.Shapes.{instances_of, lists_of, HasItsDaughters};
ghost use Rattle.book_signs.specs.Signed.{element_path, ArePlaces, AreDaughters};
ghost use Rattle.book_signs.specs.Conditions.{IsWhole};
ghost use Rattle.book_signs.specs.Trees.{paths_of};
ghost use Rattle.book_shapes.specs.Daughters.{is_rule};

use crate::known::known;
use book_shapes::list_names;
use closed_lists::list_at;
use constraint_expand::{Book, Instance};
use fs_graph::Feat;
use lexicon::NoMemory;
use std::alloc::Global;
use tdl_reader::Status;

// The path of an element of the list at a path.
fn element_path(
    alloc: Global,
    list: &[Feat],
    first: Feat,
    rest: Feat,
    k: usize,
) -> Result<Vec<Feat>, NoMemory>
    ensures { IfOk result (λ p. path_of p.items ≡ element_path (path_of list.now) first.0 rest.0 k) }
{
    let mut path = Vec::from_slice(alloc, list)?;
    for _before in 0..k {
        path.push(rest)?;
    }
    path.push(first)?;
    Ok(path)
}

// The paths of the elements of the list at a path, in order.
fn element_paths(
    alloc: Global,
    list: &[Feat],
    first: Feat,
    rest: Feat,
    count: usize,
) -> Result<Vec<Vec<Feat>>, NoMemory>
    ensures { IfOk result (λ v. paths_of v.items ≡ map (element_path (path_of list.now) first.0 rest.0) (range_with_len 0 count)) }
{
    let mut paths = Vec::new(alloc);
    for k in 0..count {
        paths.push(element_path(alloc, list, first, rest, k)?)?;
    }
    Ok(paths)
}

// The places of a rule's daughters.
fn daughters_of(alloc: Global, book: &Book, instance: &Instance) -> Result<Vec<Vec<Feat>>, NoMemory>
    requires readable { IsReadable book.now.system.types (lists_of (numbered_of book.now.names)) book.now.system.path_limit instance.now.structure }
    requires daughters { HasItsDaughters book.now (instance_of instance.now) }
    requires rule { is_rule instance.now.status ≡ true }
    ensures { IfOk result (λ v. AreDaughters book.now instance.now.structure (paths_of v.items)) }
{
    let types = book.system.types();
    let limit = book.system.path_limit();
    let lists = list_names(&book.names);
    let args = &book.names.args_path;
    let Some(elements) = list_at(alloc, types, &lists, &instance.structure, args, limit)? else {
        unreachable!()
    };
    let Some(first) = lists.first else {
        unreachable!()
    };
    let Some(rest) = lists.rest else {
        unreachable!()
    };
    let list = known(alloc, args)?;
    element_paths(alloc, &list, first, rest, elements.len())
}

// The places of an instance's daughters, of which only a rule has any.
fn places_of(alloc: Global, book: &Book, instance: &Instance) -> Result<Vec<Vec<Feat>>, NoMemory>
    requires readable { IsReadable book.now.system.types (lists_of (numbered_of book.now.names)) book.now.system.path_limit instance.now.structure }
    requires daughters { HasItsDaughters book.now (instance_of instance.now) }
    ensures { IfOk result (λ v. ArePlaces book.now (instance_of instance.now) (paths_of v.items)) }
{
    match instance.status {
        Status::Rule | Status::LexRule => daughters_of(alloc, book, instance),
        _ => Ok(Vec::new(alloc)),
    }
}

/// The places of the daughters of each instance, in order.
pub(crate) fn all_places(alloc: Global, book: &Book) -> Result<Vec<Vec<Vec<Feat>>>, NoMemory>
    requires { IsWhole book.now }
    ensures { IfOk result (λ v. AllZip (ArePlaces book.now) (instances_of book.now) (map (λ p. paths_of p.items) v.items)) }
{
    let mut all = Vec::new(alloc);
    for i in 0..book.instances.len() {
        all.push(places_of(alloc, book, &book.instances[i])?)?;
    }
    Ok(all)
}
