//! The roles of an elementary predication.

ghost use Rattle.std.specs.Prelude.{◌≡◌, ◌∷◌, ◌<◌, All, map, length, IfOk, OnOk, slice_index_or, [], codes};
ghost use Rattle.std.specs.List.{AllZip, IsDistinct};
ghost use Rattle.std.specs.Str.{bytes_eq};
ghost use Rattle.std.specs.String.{string_bytes};
ghost use Rattle.std.specs.List.Sorted.{IsPermutation};
ghost use Rattle.type_hierarchy.specs.Table.{count_of};
ghost use Rattle.fs_graph.specs.GraphMap.{type_at, arcs_at};
ghost use Rattle.mrs_model.specs.Valid.{Rise};
ghost use Rattle.mrs_model.specs.Views.{argument_of, filler_of};
ghost use Rattle.mrs_places.specs.Paths.{feature_of, paths_of};
ghost use Rattle.mrs_places.specs.Looking.{is_number};
ghost use Rattle.mrs_extract.specs.Asked.{ArePaths, IsOf};
ghost use Rattle.mrs_extract.specs.Extraction.{is_string, is_among, is_role, type_name, feature_name, role_arcs, role_nodes, all_noted, IsFillerAt, IsArgumentAt, AreRolesAt};
ghost use Rattle.mrs_extract.specs.Inner.Made.{filler_nodes, nodes_among, PutsRoles};

use crate::numbers::Numbers;
use fs_graph::{Feat, Graph, GraphArc, Node};
use mrs_model::{Role, Value};
use mrs_places::{MrsFeat, MrsPaths, NoMemory};
use std::alloc::Global;
use type_hierarchy::{Ty, Types};

/// Whether a type is a string.
pub(crate) fn is_string(types: &Types, t: Ty) -> bool
    ensures { result ≡ is_string types.now t.0 }
{
    t.0 >= types.counts().completed
}

// Whether this is the number of a feature of the settings.
fn has_number(feat: &MrsFeat, f: Feat) -> bool
    ensures { result ≡ is_number (feature_of feat.now).number f.0 }
{
    match feat.feat {
        None => false,
        Some(number) => number == f,
    }
}

/// Whether this is the number of one of some features of the settings.
pub(crate) fn is_among(feats: &[MrsFeat], f: Feat) -> bool
    ensures { result ≡ is_among (map feature_of feats.now) f.0 }
{
    for feat in feats {
        if has_number(feat, f) {
            return true;
        }
    }
    false
}

// Whether the arcs of a feature are roles.
fn is_role(paths: &MrsPaths, f: Feat) -> bool
    requires { f.0 < length paths.now.feats.items }
    ensures { result ≡ is_role (paths_of paths.now) f.0 }
{
    if has_number(&paths.pred, f) || has_number(&paths.lbl, f) || is_among(&paths.skip_roles, f) {
        return false;
    }
    paths.feats[f.0 as usize].as_str() != "lbl"
}

// What fills a role: a string is a text, any other node a variable.
fn filler(
    alloc: Global,
    graph: &Graph,
    types: &Types,
    numbers: &mut Numbers,
    n: Node,
) -> Result<Value, NoMemory>
    requires n_in { n.0 < length graph.now.types }
    requires typed { All (λ t. t < count_of types.now) graph.now.types }
    requires size { numbers.old.size ≡ length graph.now.types }
    ensures size { numbers.new.size ≡ numbers.old.size }
    ensures nodes { OnOk result (numbers.new.nodes ≡ all_noted numbers.old.nodes (filler_nodes graph.now types.now n.0)) }
    ensures is { IfOk result (λ v. IsFillerAt graph.now types.now numbers.new.nodes n.0 (filler_of v)) }
{
    let ty = graph.ty(n);
    if is_string(types, ty) {
        return Ok(Value::Text(String::from_str(alloc, types.name(ty))?));
    }
    Ok(Value::Var(numbers.number(n)?))
}

// The role of an arc.
fn role(
    alloc: Global,
    graph: &Graph,
    types: &Types,
    paths: &MrsPaths,
    numbers: &mut Numbers,
    arc: GraphArc,
) -> Result<Role, NoMemory>
    requires to_in { arc.to.0 < length graph.now.types }
    requires feat_in { arc.feat.0 < length paths.now.feats.items }
    requires typed { All (λ t. t < count_of types.now) graph.now.types }
    requires size { numbers.old.size ≡ length graph.now.types }
    ensures size { numbers.new.size ≡ numbers.old.size }
    ensures nodes { OnOk result (numbers.new.nodes ≡ all_noted numbers.old.nodes (filler_nodes graph.now types.now arc.to.0)) }
    ensures is { IfOk result (λ r. IsArgumentAt graph.now types.now (paths_of paths.now) numbers.new.nodes arc (argument_of r)) }
{
    let value = filler(alloc, graph, types, numbers, arc.to)?;
    let name = paths.feats[arc.feat.0 as usize].clone()?;
    Ok(Role { name, value })
}

// An arc's role is put behind the others, where the arc is one.
fn put_role(
    alloc: Global,
    graph: &Graph,
    types: &Types,
    paths: &MrsPaths,
    numbers: &mut Numbers,
    arc: GraphArc,
    roles: &mut Vec<Role>,
) -> Result<(), NoMemory>
    requires to_in { arc.to.0 < length graph.now.types }
    requires feat_in { arc.feat.0 < length paths.now.feats.items }
    requires typed { All (λ t. t < count_of types.now) graph.now.types }
    requires size { numbers.old.size ≡ length graph.now.types }
    ensures size { numbers.new.size ≡ numbers.old.size }
    ensures nodes { OnOk result (numbers.new.nodes ≡ all_noted numbers.old.nodes (nodes_among graph.now types.now (paths_of paths.now) (arc ∷ []))) }
    ensures each { OnOk result (PutsRoles graph.now types.now (paths_of paths.now) numbers.new.nodes (arc ∷ []) (map argument_of roles.old.items) (map argument_of roles.new.items)) }
{
    if !is_role(paths, arc.feat) {
        return Ok(());
    }
    roles.push(role(alloc, graph, types, paths, numbers, arc)?)?;
    Ok(())
}

// The roles of a node by rising feature.
fn roles_by_arc(
    alloc: Global,
    graph: &Graph,
    types: &Types,
    paths: &MrsPaths,
    numbers: &mut Numbers,
    at: Node,
) -> Result<Vec<Role>, NoMemory>
    requires of { IsOf types.now (paths_of paths.now) graph.now }
    requires inside { at.0 < length graph.now.types }
    requires size { numbers.old.size ≡ length graph.now.types }
    ensures size { numbers.new.size ≡ numbers.old.size }
    ensures nodes { OnOk result (numbers.new.nodes ≡ all_noted numbers.old.nodes (role_nodes graph.now types.now (paths_of paths.now) at.0)) }
    ensures each { IfOk result (λ v. AllZip (IsArgumentAt graph.now types.now (paths_of paths.now) numbers.new.nodes) (role_arcs graph.now (paths_of paths.now) at.0) (map argument_of v.items)) }
{
    graph.laws();
    let arcs = graph.arcs(at);
    let mut roles = Vec::new(alloc);
    for k in 0..arcs.len() {
        put_role(alloc, graph, types, paths, numbers, arcs[k], &mut roles)?;
    }
    Ok(roles)
}

// Roles in byte order of their names, which differ.
fn in_order(mut roles: Vec<Role>) -> Result<Vec<Role>, NoMemory>
    requires { IsDistinct bytes_eq (map (λ a. a.role) (map argument_of roles.items)) }
    ensures same { IfOk result (λ v. IsPermutation (map argument_of roles.items) (map argument_of v.items)) }
    ensures order { IfOk result (λ v. Rise (map (λ a. a.role) (map argument_of v.items))) }
{
    roles.sort_by(|a, b| a.name.cmp(&b.name))?;
    Ok(roles)
}

/// The roles of a node in byte order of their names.
pub(crate) fn roles_at(
    alloc: Global,
    graph: &Graph,
    types: &Types,
    paths: &MrsPaths,
    numbers: &mut Numbers,
    at: Node,
) -> Result<Vec<Role>, NoMemory>
    requires paths { ArePaths types.now (paths_of paths.now) }
    requires of { IsOf types.now (paths_of paths.now) graph.now }
    requires inside { at.0 < length graph.now.types }
    requires size { numbers.old.size ≡ length graph.now.types }
    ensures size { numbers.new.size ≡ numbers.old.size }
    ensures nodes { OnOk result (numbers.new.nodes ≡ all_noted numbers.old.nodes (role_nodes graph.now types.now (paths_of paths.now) at.0)) }
    ensures are { IfOk result (λ v. AreRolesAt graph.now types.now (paths_of paths.now) numbers.new.nodes at.0 (map argument_of v.items)) }
{
    graph.laws();
    let roles = roles_by_arc(alloc, graph, types, paths, numbers, at)?;
    let roles = in_order(roles)?;
    Ok(roles)
}
