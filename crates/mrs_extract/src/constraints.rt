//! Handle constraints and individual constraints.

ghost use Rattle.std.specs.Prelude.{◌≡◌, ◌<◌, All, map, length, IfOk, OnOk};
ghost use Rattle.std.specs.List.{AllZip, flat_map};
ghost use Rattle.std.specs.String.{string_bytes};
ghost use Rattle.type_hierarchy.specs.Table.{count_of};
ghost use Rattle.mrs_model.specs.Views.{hcon_of, icon_of};
ghost use Rattle.mrs_places.specs.Paths.{paths_of};
ghost use Rattle.mrs_extract.specs.Extraction.{Is, relation_name, IsConstraintAt, all_noted, constraint_nodes};
ghost use Rattle.mrs_places.specs.Places.{pair_of, pairs_of, IsPairIn};

use crate::numbers::Numbers;
use crate::roles::is_string;
use fs_graph::Graph;
use mrs_model::{Hcon, Icon};
use mrs_places::{Element, MrsPaths, NoMemory};
use std::alloc::Global;
use type_hierarchy::{Ty, Types};

// The relation of a constraint: the name of its type, or of the string type where its type is a string.
fn relation(alloc: Global, types: &Types, paths: &MrsPaths, t: Ty) -> Result<String, NoMemory>
    requires { t.0 < count_of types.now }
    ensures { IfOk result (λ s. string_bytes s ≡ relation_name types.now (paths_of paths.now) t.0) }
{
    let name = if is_string(types, t) {
        paths.string_type.as_str()
    } else {
        types.name(t)
    };
    Ok(String::from_str(alloc, name)?)
}

// The numbers of the two variables of a constraint.
fn ends(numbers: &mut Numbers, element: Element) -> Result<(u32, u32), NoMemory>
    requires { IsPairIn numbers.old.size (pair_of element) }
    ensures size { numbers.new.size ≡ numbers.old.size }
    ensures nodes { OnOk result (numbers.new.nodes ≡ all_noted numbers.old.nodes (constraint_nodes (pair_of element))) }
    ensures left { IfOk result (λ e. Is numbers.new.nodes element.one.0 e.0) }
    ensures right { IfOk result (λ e. Is numbers.new.nodes element.two.0 e.1) }
{
    let left = numbers.number(element.one)?;
    let right = numbers.number(element.two)?;
    Ok((left, right))
}

fn hcon(
    alloc: Global,
    graph: &Graph,
    types: &Types,
    paths: &MrsPaths,
    numbers: &mut Numbers,
    element: Element,
) -> Result<Hcon, NoMemory>
    requires typed { All (λ t. t < count_of types.now) graph.now.types }
    requires inside { IsPairIn (length graph.now.types) (pair_of element) }
    requires size { numbers.old.size ≡ length graph.now.types }
    ensures size { numbers.new.size ≡ numbers.old.size }
    ensures nodes { OnOk result (numbers.new.nodes ≡ all_noted numbers.old.nodes (constraint_nodes (pair_of element))) }
    ensures is { IfOk result (λ h. IsConstraintAt graph.now types.now (paths_of paths.now) numbers.new.nodes (pair_of element) (hcon_of h)) }
{
    let (high, low) = ends(numbers, element)?;
    let rel = relation(alloc, types, paths, graph.ty(element.at))?;
    Ok(Hcon { high, rel, low })
}

/// The handle constraints of the elements of HCONS.
pub(crate) fn handle_constraints(
    alloc: Global,
    graph: &Graph,
    types: &Types,
    paths: &MrsPaths,
    numbers: &mut Numbers,
    elements: &[Element],
) -> Result<Vec<Hcon>, NoMemory>
    requires typed { All (λ t. t < count_of types.now) graph.now.types }
    requires inside { All (IsPairIn (length graph.now.types)) (pairs_of elements.now) }
    requires size { numbers.old.size ≡ length graph.now.types }
    ensures size { numbers.new.size ≡ numbers.old.size }
    ensures nodes { OnOk result (numbers.new.nodes ≡ all_noted numbers.old.nodes (flat_map constraint_nodes (pairs_of elements.now))) }
    ensures are { IfOk result (λ v. AllZip (IsConstraintAt graph.now types.now (paths_of paths.now) numbers.new.nodes) (pairs_of elements.now) (map hcon_of v.items)) }
{
    let mut hcons = Vec::with_capacity(alloc, elements.len())?;
    for k in 0..elements.len() {
        hcons.push(hcon(alloc, graph, types, paths, numbers, elements[k])?)?;
    }
    Ok(hcons)
}

fn icon(
    alloc: Global,
    graph: &Graph,
    types: &Types,
    paths: &MrsPaths,
    numbers: &mut Numbers,
    element: Element,
) -> Result<Icon, NoMemory>
    requires typed { All (λ t. t < count_of types.now) graph.now.types }
    requires inside { IsPairIn (length graph.now.types) (pair_of element) }
    requires size { numbers.old.size ≡ length graph.now.types }
    ensures size { numbers.new.size ≡ numbers.old.size }
    ensures nodes { OnOk result (numbers.new.nodes ≡ all_noted numbers.old.nodes (constraint_nodes (pair_of element))) }
    ensures is { IfOk result (λ i. IsConstraintAt graph.now types.now (paths_of paths.now) numbers.new.nodes (pair_of element) (icon_of i)) }
{
    let (left, right) = ends(numbers, element)?;
    let rel = relation(alloc, types, paths, graph.ty(element.at))?;
    Ok(Icon { left, rel, right })
}

/// The individual constraints of the elements of ICONS.
pub(crate) fn individual_constraints(
    alloc: Global,
    graph: &Graph,
    types: &Types,
    paths: &MrsPaths,
    numbers: &mut Numbers,
    elements: &[Element],
) -> Result<Vec<Icon>, NoMemory>
    requires typed { All (λ t. t < count_of types.now) graph.now.types }
    requires inside { All (IsPairIn (length graph.now.types)) (pairs_of elements.now) }
    requires size { numbers.old.size ≡ length graph.now.types }
    ensures size { numbers.new.size ≡ numbers.old.size }
    ensures nodes { OnOk result (numbers.new.nodes ≡ all_noted numbers.old.nodes (flat_map constraint_nodes (pairs_of elements.now))) }
    ensures are { IfOk result (λ v. AllZip (IsConstraintAt graph.now types.now (paths_of paths.now) numbers.new.nodes) (pairs_of elements.now) (map icon_of v.items)) }
{
    let mut icons = Vec::with_capacity(alloc, elements.len())?;
    for k in 0..elements.len() {
        icons.push(icon(alloc, graph, types, paths, numbers, elements[k])?)?;
    }
    Ok(icons)
}
