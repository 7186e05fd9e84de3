//! Elementary predications.

ghost use Rattle.std.specs.Prelude.{◌≡◌, ◌<◌, All, map, length, IfOk, OnOk, MatchOption, ℕ};
ghost use Rattle.std.specs.List.{AllZip, flat_map};
ghost use Rattle.std.specs.String.{string_bytes};
ghost use Rattle.std.specs.Char.{to_ascii_lowercase};
ghost use Rattle.type_hierarchy.specs.Table.{count_of};
ghost use Rattle.mrs_model.specs.Views.{predication_of};
ghost use Rattle.mrs_places.specs.Paths.{feature_of, paths_of};
ghost use Rattle.mrs_places.specs.Looking.{step};
ghost use Rattle.mrs_extract.specs.Asked.{ArePaths, IsOf};
ghost use Rattle.mrs_extract.specs.Extraction.{Normal, IsNumber, IsNumberAt, MaySpanAt, IsPredicationAt, all_noted, predication_nodes};
ghost use Rattle.mrs_extract.specs.Inner.Made.{with_digit};
ghost use Rattle.mrs_places.specs.Places.{pair_of, pairs_of, IsPairIn};

use crate::numbers::Numbers;
use crate::roles::{is_string, roles_at};
use fs_graph::{Graph, Node};
use mrs_model::{Ep, Extent};
use mrs_places::{Element, MrsFeat, MrsPaths, NoMemory, step};
use std::alloc::Global;
use type_hierarchy::Types;

// A predicate in ASCII lower case, without an ending `_rel` as often as there is one.
fn normal(alloc: Global, text: &str) -> Result<String, NoMemory>
    ensures { IfOk result (λ s. Normal (map to_ascii_lowercase text.now) (string_bytes s)) }
{
    let mut pred = text.to_ascii_lowercase(alloc)?;
    'ends: while pred.as_bytes().ends_with(b"_rel") {
        pred.truncate(pred.len() - 4);
    }
    Ok(pred)
}

// One digit more of a number, while it stays one of 32 bits.
fn with_digit(number: u32, byte: u8) -> Option<u32>
    ensures { result ≡ with_digit number byte }
{
    if !byte.is_ascii_digit() {
        return None;
    }
    number.checked_mul(10)?.checked_add(u32::from(byte - b'0'))
}

// The number that digits write, where it is one of 32 bits.
fn number_of(text: &str) -> Option<u32>
    ensures { MatchOption result ((n : ℕ) → IsNumber text.now n → ⊥) (λ n. IsNumber text.now n) }
{
    if text.is_empty() {
        return None;
    }
    let mut number = 0;
    for byte in text.as_bytes() {
        let Some(longer) = with_digit(number, *byte) else {
            return None;
        };
        number = longer;
    }
    Some(number)
}

// The number that the string at a feature of a node writes.
fn number_at(graph: &Graph, types: &Types, n: Node, feat: &MrsFeat) -> Option<u32>
    requires inside { n.0 < length graph.now.types }
    requires typed { All (λ t. t < count_of types.now) graph.now.types }
    ensures { MatchOption result ((k : ℕ) → IsNumberAt graph.now types.now (step graph.now n.0 (feature_of feat.now)) k → ⊥) (λ k. IsNumberAt graph.now types.now (step graph.now n.0 (feature_of feat.now)) k) }
{
    let at = step(graph, n, feat)?;
    let ty = graph.ty(at);
    if !is_string(types, ty) {
        return None;
    }
    number_of(types.name(ty))
}

// Where the words of a node stand, if both places are known.
fn span_at(graph: &Graph, types: &Types, paths: &MrsPaths, n: Node) -> Option<Extent>
    requires inside { n.0 < length graph.now.types }
    requires typed { All (λ t. t < count_of types.now) graph.now.types }
    ensures { MaySpanAt graph.now types.now (paths_of paths.now) n.0 result }
{
    let from = number_at(graph, types, n, &paths.cfrom)?;
    let to = number_at(graph, types, n, &paths.cto)?;
    Some(Extent { from, to })
}

// The elementary predication of an element of RELS.
fn predication(
    alloc: Global,
    graph: &Graph,
    types: &Types,
    paths: &MrsPaths,
    numbers: &mut Numbers,
    element: Element,
) -> Result<Ep, NoMemory>
    requires paths { ArePaths types.now (paths_of paths.now) }
    requires of { IsOf types.now (paths_of paths.now) graph.now }
    requires inside { IsPairIn (length graph.now.types) (pair_of element) }
    requires size { numbers.old.size ≡ length graph.now.types }
    ensures size { numbers.new.size ≡ numbers.old.size }
    ensures nodes { OnOk result (numbers.new.nodes ≡ all_noted numbers.old.nodes (predication_nodes graph.now types.now (paths_of paths.now) (pair_of element))) }
    ensures is { IfOk result (λ e. IsPredicationAt graph.now types.now (paths_of paths.now) numbers.new.nodes (pair_of element) (predication_of e)) }
{
    let pred = normal(alloc, types.name(graph.ty(element.one)))?;
    let label = numbers.number(element.two)?;
    let roles = roles_at(alloc, graph, types, paths, numbers, element.at)?;
    let span = span_at(graph, types, paths, element.at);
    Ok(Ep {
        pred,
        label,
        roles,
        span,
    })
}

/// The elementary predications of the elements of RELS.
pub(crate) fn predications(
    alloc: Global,
    graph: &Graph,
    types: &Types,
    paths: &MrsPaths,
    numbers: &mut Numbers,
    elements: &[Element],
) -> Result<Vec<Ep>, NoMemory>
    requires paths { ArePaths types.now (paths_of paths.now) }
    requires of { IsOf types.now (paths_of paths.now) graph.now }
    requires inside { All (IsPairIn (length graph.now.types)) (pairs_of elements.now) }
    requires size { numbers.old.size ≡ length graph.now.types }
    ensures size { numbers.new.size ≡ numbers.old.size }
    ensures nodes { OnOk result (numbers.new.nodes ≡ all_noted numbers.old.nodes (flat_map (predication_nodes graph.now types.now (paths_of paths.now)) (pairs_of elements.now))) }
    ensures are { IfOk result (λ v. AllZip (IsPredicationAt graph.now types.now (paths_of paths.now) numbers.new.nodes) (pairs_of elements.now) (map predication_of v.items)) }
{
    let mut eps = Vec::with_capacity(alloc, elements.len())?;
    for k in 0..elements.len() {
        eps.push(predication(alloc, graph, types, paths, numbers, elements[k])?)?;
    }
    Ok(eps)
}
