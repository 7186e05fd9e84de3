//! The report lines of explanations.

ghost use Rattle.std.specs.Prelude.{◌≡◌, ◌++◌, ◌∷◌, [], ◌<◌, All, length, map, string_bytes, codes, IfOk, OnOk};
ghost use Rattle.std.specs.Fmt.{decimal};
ghost use Rattle.std.specs.List.{flat_map};
ghost use Rattle.std.specs.Char.{to_ascii_uppercase};
ghost use Rattle.type_hierarchy.specs.Table.{count_of};
ghost use Rattle.derivation.specs.Text.{name_of};
ghost use Rattle.fs_graph.specs.Facts.{path_of};
ghost use Rattle.fs_graph.specs.Text.{feature_text, path_text, escaped, type_text};
ghost use Rattle.tree_faults.specs.Texts.{place_text, node_text, explained_text, explained_line, no_tree_line, is_refused};
ghost use Rattle.tree_faults.specs.Views.{explanation_of, IsExplainedNamed};

use crate::{Explanation, NoMemory};
use fs_graph::Feat;
use itoa::Buffer;
use std::alloc::Global;
use type_hierarchy::{Ty, Types};

/// `item N no-tree AT`: the line of a line that writes no tree; its first fault stands at this byte.
pub fn no_tree_line(alloc: Global, number: u64, at: usize) -> Result<Vec<u8>, NoMemory>
    ensures { IfOk result (λ line. line.items ≡ no_tree_line number at) }
{
    let line = format!(in alloc; "item {number} no-tree {at}\n")?;
    Ok(line.into_bytes())
}

// A number in decimal digits.
fn put_number(number: u64, into: &mut Vec<u8>) -> Result<(), NoMemory>
    ensures { OnOk result (into.new.items ≡ into.old.items ++ decimal number) }
{
    let mut buffer = Buffer::new();
    into.extend_from_slice(buffer.format(number).as_bytes())?;
    Ok(())
}

// Each step of a place with a dot before it.
fn put_steps(place: &[usize], into: &mut Vec<u8>) -> Result<(), NoMemory>
    ensures { OnOk result (into.new.items ≡ into.old.items ++ flat_map (λ k. 46 ∷ decimal k) place.now) }
{
    for step in place {
        into.push(b'.')?;
        put_number(*step as u64, into)?;
    }
    Ok(())
}

// A place, and a dot for the root.
fn put_place(place: &[usize], into: &mut Vec<u8>) -> Result<(), NoMemory>
    ensures { OnOk result (into.new.items ≡ into.old.items ++ place_text place.now) }
{
    if place.is_empty() {
        into.push(b'.')?;
        return Ok(());
    }
    put_steps(place, into)
}

// ` NAME` of an instance.
fn put_name(instance: u32, names: &[String], into: &mut Vec<u8>) -> Result<(), NoMemory>
    requires { instance < length names.now }
    ensures { OnOk result (into.new.items ≡ into.old.items ++ 32 ∷ name_of (map string_bytes names.now) instance) }
{
    into.push(b' ')?;
    into.extend_from_slice(names[instance as usize].as_bytes())?;
    Ok(())
}

// ` PLACE NAME`
fn put_node(
    place: &[usize],
    instance: u32,
    names: &[String],
    into: &mut Vec<u8>,
) -> Result<(), NoMemory>
    requires { instance < length names.now }
    ensures { OnOk result (into.new.items ≡ into.old.items ++ node_text (map string_bytes names.now) place.now instance) }
{
    into.push(b' ')?;
    put_place(place, into)?;
    put_name(instance, names, into)
}

// A name in upper case.
fn put_upper(name: &[u8], into: &mut Vec<u8>) -> Result<(), NoMemory>
    ensures { OnOk result (into.new.items ≡ into.old.items ++ map to_ascii_uppercase name.now) }
{
    for byte in name {
        into.push(byte.to_ascii_uppercase())?;
    }
    Ok(())
}

// A feature in upper case, with a dot before it.
fn put_feature(feat: Feat, feats: &[String], into: &mut Vec<u8>) -> Result<(), NoMemory>
    requires { feat.0 < length feats.now }
    ensures { OnOk result (into.new.items ≡ into.old.items ++ feature_text (map string_bytes feats.now) feat.0) }
{
    into.push(b'.')?;
    let name = &feats[feat.0 as usize];
    put_upper(name.as_bytes(), into)
}

// Each feature with a dot before it.
fn put_features(path: &[Feat], feats: &[String], into: &mut Vec<u8>) -> Result<(), NoMemory>
    requires { All (λ f. f < length feats.now) (path_of path.now) }
    ensures { OnOk result (into.new.items ≡ into.old.items ++ flat_map (feature_text (map string_bytes feats.now)) (path_of path.now)) }
{
    for feat in path {
        put_feature(*feat, feats, into)?;
    }
    Ok(())
}

// A path, and a dot for the root.
fn put_path(path: &[Feat], feats: &[String], into: &mut Vec<u8>) -> Result<(), NoMemory>
    requires { All (λ f. f < length feats.now) (path_of path.now) }
    ensures { OnOk result (into.new.items ≡ into.old.items ++ path_text (map string_bytes feats.now) (path_of path.now)) }
{
    if path.is_empty() {
        into.push(b'.')?;
        return Ok(());
    }
    put_features(path, feats, into)
}

// A text with a backslash before each quote and each backslash.
fn put_escaped(text: &[u8], into: &mut Vec<u8>) -> Result<(), NoMemory>
    ensures { OnOk result (into.new.items ≡ into.old.items ++ flat_map escaped text.now) }
{
    for byte in text {
        if *byte == b'"' || *byte == b'\\' {
            into.push(b'\\')?;
        }
        into.push(*byte)?;
    }
    Ok(())
}

// The name of a type, a string between quotes.
fn put_type(ty: Ty, types: &Types, into: &mut Vec<u8>) -> Result<(), NoMemory>
    requires { ty.0 < count_of types.now }
    ensures { OnOk result (into.new.items ≡ into.old.items ++ type_text types.now ty.0) }
{
    let name = types.name(ty).as_bytes();
    if ty.0 < types.counts().completed {
        into.extend_from_slice(name)?;
        return Ok(());
    }
    into.push(b'"')?;
    put_escaped(name, into)?;
    into.push(b'"')?;
    Ok(())
}

// ` PATH TYPE TYPE`
fn put_clash(
    path: &[Feat],
    first: Ty,
    second: Ty,
    types: &Types,
    feats: &[String],
    into: &mut Vec<u8>,
) -> Result<(), NoMemory>
    requires path { All (λ f. f < length feats.now) (path_of path.now) }
    requires first { first.0 < count_of types.now }
    requires second { second.0 < count_of types.now }
    ensures { OnOk result (into.new.items ≡ into.old.items ++ (32 ∷ path_text (map string_bytes feats.now) (path_of path.now)) ++ (32 ∷ type_text types.now first.0) ++ 32 ∷ type_text types.now second.0) }
{
    into.push(b' ')?;
    put_path(path, feats, into)?;
    into.push(b' ')?;
    put_type(first, types, into)?;
    into.push(b' ')?;
    put_type(second, types, into)
}

// ` PATH too-long`
fn put_too_long(path: &[Feat], feats: &[String], into: &mut Vec<u8>) -> Result<(), NoMemory>
    requires { All (λ f. f < length feats.now) (path_of path.now) }
    ensures { OnOk result (into.new.items ≡ into.old.items ++ (32 ∷ path_text (map string_bytes feats.now) (path_of path.now)) ++ codes " too-long") }
{
    into.push(b' ')?;
    put_path(path, feats, into)?;
    into.extend_from_slice(b" too-long")?;
    Ok(())
}

// `fails PLACE NAME`
fn put_failing(
    place: &[usize],
    instance: u32,
    names: &[String],
    into: &mut Vec<u8>,
) -> Result<(), NoMemory>
    requires { instance < length names.now }
    ensures { OnOk result (into.new.items ≡ into.old.items ++ codes "fails" ++ node_text (map string_bytes names.now) place.now instance) }
{
    into.extend_from_slice(b"fails")?;
    put_node(place, instance, names, into)
}

// What is told of a tree.
fn put_explanation(
    explanation: &Explanation,
    types: &Types,
    feats: &[String],
    names: &[String],
    into: &mut Vec<u8>,
) -> Result<(), NoMemory>
    requires { IsExplainedNamed types.now (length feats.now) (length names.now) (explanation_of explanation.now) }
    ensures { OnOk result (into.new.items ≡ into.old.items ++ explained_text types.now (map string_bytes feats.now) (map string_bytes names.now) (explanation_of explanation.now)) }
{
    match explanation {
        Explanation::Licensed => into.extend_from_slice(b"licensed")?,
        Explanation::Clashes {
            place,
            instance,
            path,
            first,
            second,
        } => {
            put_failing(place, *instance, names, into)?;
            put_clash(path, *first, *second, types, feats, into)?;
        }
        Explanation::GoesTooFar {
            place,
            instance,
            path,
        } => {
            put_failing(place, *instance, names, into)?;
            put_too_long(path, feats, into)?;
        }
        Explanation::Misspelled { place, instance } => {
            put_failing(place, *instance, names, into)?;
            into.extend_from_slice(b" spelling")?;
        }
        Explanation::Unrooted => into.extend_from_slice(b"fails root")?,
    }
    Ok(())
}

// `item N `
fn opened_line(alloc: Global, number: u64) -> Result<Vec<u8>, NoMemory>
    ensures { IfOk result (λ line. line.items ≡ codes "item " ++ decimal number ++ 32 ∷ []) }
{
    let mut line = Vec::new(alloc);
    line.extend_from_slice(b"item ")?;
    put_number(number, &mut line)?;
    line.push(b' ')?;
    Ok(line)
}

/// What is told of the tree of the line of this number: `item N licensed`, or that it fails, with the place and the name of the node at which it
/// does and why.
pub fn explained_line(
    alloc: Global,
    number: u64,
    explanation: &Explanation,
    types: &Types,
    feats: &[String],
    names: &[String],
) -> Result<Vec<u8>, NoMemory>
    requires named { IsExplainedNamed types.now (length feats.now) (length names.now) (explanation_of explanation.now) }
    ensures { IfOk result (λ line. line.items ≡ explained_line types.now (map string_bytes feats.now) (map string_bytes names.now) number (explanation_of explanation.now)) }
{
    let mut line = opened_line(alloc, number)?;
    put_explanation(explanation, types, feats, names, &mut line)?;
    line.push(b'\n')?;
    Ok(line)
}

/// Whether a tree isn't licensed.
pub fn is_refused(explanation: &Explanation) -> bool
    ensures { result ≡ is_refused (explanation_of explanation.now) }
{
    !matches!(explanation, Explanation::Licensed)
}
