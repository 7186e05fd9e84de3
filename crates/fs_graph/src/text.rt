//! The text of a list of paths.

ghost use Rattle.std.specs.Prelude.{◌≡◌, ◌<◌, ◌++◌, ◌∷◌, [], length, map, OnOk, IfOk, All};
ghost use Rattle.std.specs.List.{flat_map};
ghost use Rattle.std.specs.Char.{to_ascii_uppercase};
ghost use Rattle.std.specs.String.{string_bytes};
ghost use Rattle.type_hierarchy.specs.Table.{count_of};
ghost use Rattle.fs_graph.specs.Facts.{path_of, line_of, lines_of};
ghost use Rattle.fs_graph.specs.Text.{IsNamed, feature_text, path_text, escaped, quoted, type_text, line_text, text_of};

use crate::{Feat, NoMemory, PathLine, PathList};
use std::alloc::Global;
use type_hierarchy::{Ty, Types};

/// The text of a structure: a line for each path of the list, which is `PATH TYPE`, or `PATH = FIRSTPATH` where the path
/// leads to a node that has an earlier one. The root is `.`; otherwise each feature has a dot before it and is in upper
/// case. A string stands between quotes, with a backslash before a quote or a backslash.
///
/// `feats` has the names of the features by number. `NoMemory` comes only for want of memory.
pub fn print(
    alloc: Global,
    list: &PathList,
    types: &Types,
    feats: &[String],
) -> Result<Vec<u8>, NoMemory>
    requires { All (IsNamed (count_of types.now) (length feats.now)) (lines_of list.now) }
    ensures { IfOk result (λ text. text.items ≡ text_of types.now (map string_bytes feats.now) (lines_of list.now)) }
{
    let mut text = Vec::new(alloc);
    for line in &list.lines {
        put_line(line, types, feats, &mut text)?;
    }
    Ok(text)
}

// `PATH TYPE` or `PATH = FIRSTPATH`, and a line end.
fn put_line(
    line: &PathLine,
    types: &Types,
    feats: &[String],
    into: &mut Vec<u8>,
) -> Result<(), NoMemory>
    requires { IsNamed (count_of types.now) (length feats.now) (line_of line.now) }
    ensures { OnOk result (into.new.items ≡ into.old.items ++ line_text types.now (map string_bytes feats.now) (line_of line.now)) }
{
    put_path(&line.path, feats, into)?;
    match &line.same_as {
        Some(path) => {
            into.extend_from_slice(b" = ")?;
            put_path(path, feats, into)?;
        }
        None => {
            into.push(b' ')?;
            put_type(line.ty, types, into)?;
        }
    }
    into.push(b'\n')?;
    Ok(())
}

// Each feature with a dot before it, and a dot for the root.
fn put_path(path: &[Feat], feats: &[String], into: &mut Vec<u8>) -> Result<(), NoMemory>
    requires { All (λ f. f < length feats.now) (path_of path.now) }
    ensures { OnOk result (into.new.items ≡ into.old.items ++ path_text (map string_bytes feats.now) (path_of path.now)) }
{
    if path.is_empty() {
        into.push(b'.')?;
        return Ok(());
    }
    put_features(path, feats, into)
}

// Each feature with a dot before it.
fn put_features(path: &[Feat], feats: &[String], into: &mut Vec<u8>) -> Result<(), NoMemory>
    requires { All (λ f. f < length feats.now) (path_of path.now) }
    ensures { OnOk result (into.new.items ≡ into.old.items ++ flat_map (feature_text (map string_bytes feats.now)) (path_of path.now)) }
{
    for feat in path {
        put_feature(*feat, feats, into)?;
    }
    Ok(())
}

// A feature in upper case, with a dot before it.
fn put_feature(feat: Feat, feats: &[String], into: &mut Vec<u8>) -> Result<(), NoMemory>
    requires { feat.0 < length feats.now }
    ensures { OnOk result (into.new.items ≡ into.old.items ++ feature_text (map string_bytes feats.now) feat.0) }
{
    into.push(b'.')?;
    let name = &feats[feat.0 as usize];
    put_upper(name.as_bytes(), into)
}

// A name in upper case.
fn put_upper(name: &[u8], into: &mut Vec<u8>) -> Result<(), NoMemory>
    ensures { OnOk result (into.new.items ≡ into.old.items ++ map to_ascii_uppercase name.now) }
{
    for byte in name {
        into.push(byte.to_ascii_uppercase())?;
    }
    Ok(())
}

// The name of a type, a string between quotes.
fn put_type(ty: Ty, types: &Types, into: &mut Vec<u8>) -> Result<(), NoMemory>
    requires { ty.0 < count_of types.now }
    ensures { OnOk result (into.new.items ≡ into.old.items ++ type_text types.now ty.0) }
{
    let name = types.name(ty).as_bytes();
    if ty.0 < types.counts().completed {
        into.extend_from_slice(name)?;
        return Ok(());
    }
    into.push(b'"')?;
    put_escaped(name, into)?;
    into.push(b'"')?;
    Ok(())
}

// A text with a backslash before each quote and each backslash.
fn put_escaped(text: &[u8], into: &mut Vec<u8>) -> Result<(), NoMemory>
    ensures { OnOk result (into.new.items ≡ into.old.items ++ flat_map escaped text.now) }
{
    for byte in text {
        if *byte == b'"' || *byte == b'\\' {
            into.push(b'\\')?;
        }
        into.push(*byte)?;
    }
    Ok(())
}
