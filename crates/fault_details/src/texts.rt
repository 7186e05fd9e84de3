//! The texts of paths, types and verdicts.

ghost use Rattle.std.specs.Prelude.{◌≡◌, ◌++◌, ◌∷◌, [], ◌<◌, All, length, map, flat_map, string_bytes, codes, IfOk, IfSome, OnOk, option_map};
ghost use Rattle.std.specs.Char.{to_ascii_uppercase};
ghost use Rattle.type_hierarchy.specs.Table.{count_of};
ghost use Rattle.fs_graph.specs.Facts.{path_of};
ghost use Rattle.fs_graph.specs.Text.{feature_text, path_text, escaped, type_text};
ghost use Rattle.forced_types.specs.Verdicts.{IsVerdictIn};
ghost use Rattle.forced_types.specs.Views.{verdict_of};
ghost use Rattle.fault_places.specs.Places.{set_in};
ghost use Rattle.fault_details.specs.Further.{names_path, clash_text, verdict_text, told_text};

use fault_places::NoMemory;
use forced_types::Verdict;
use fs_graph::Feat;
use std::alloc::Global;
use type_hierarchy::{Ty, Types};

// A name in upper case.
fn put_upper(name: &[u8], into: &mut Vec<u8>) -> Result<(), NoMemory>
    ensures { OnOk result (into.new.items ≡ into.old.items ++ map to_ascii_uppercase name.now) }
{
    for byte in name {
        into.push(byte.to_ascii_uppercase())?;
    }
    Ok(())
}

// A feature in upper case, with a dot before it.
fn put_feature(feat: Feat, feats: &[String], into: &mut Vec<u8>) -> Result<(), NoMemory>
    requires { feat.0 < length feats.now }
    ensures { OnOk result (into.new.items ≡ into.old.items ++ feature_text (map string_bytes feats.now) feat.0) }
{
    into.push(b'.')?;
    let name = &feats[feat.0 as usize];
    put_upper(name.as_bytes(), into)
}

// Each feature with a dot before it.
fn put_features(path: &[Feat], feats: &[String], into: &mut Vec<u8>) -> Result<(), NoMemory>
    requires { All (λ f. f < length feats.now) (path_of path.now) }
    ensures { OnOk result (into.new.items ≡ into.old.items ++ flat_map (feature_text (map string_bytes feats.now)) (path_of path.now)) }
{
    for feat in path {
        put_feature(*feat, feats, into)?;
    }
    Ok(())
}

// A path, and a dot for the root.
fn put_path(path: &[Feat], feats: &[String], into: &mut Vec<u8>) -> Result<(), NoMemory>
    requires { All (λ f. f < length feats.now) (path_of path.now) }
    ensures { OnOk result (into.new.items ≡ into.old.items ++ path_text (map string_bytes feats.now) (path_of path.now)) }
{
    if path.is_empty() {
        into.push(b'.')?;
        return Ok(());
    }
    put_features(path, feats, into)
}

// A text with a backslash before each quote and each backslash.
fn put_escaped(text: &[u8], into: &mut Vec<u8>) -> Result<(), NoMemory>
    ensures { OnOk result (into.new.items ≡ into.old.items ++ flat_map escaped text.now) }
{
    for byte in text {
        if *byte == b'"' || *byte == b'\\' {
            into.push(b'\\')?;
        }
        into.push(*byte)?;
    }
    Ok(())
}

// The name of a type, a string between quotes.
fn put_type(ty: Ty, types: &Types, into: &mut Vec<u8>) -> Result<(), NoMemory>
    requires { ty.0 < count_of types.now }
    ensures { OnOk result (into.new.items ≡ into.old.items ++ type_text types.now ty.0) }
{
    let name = types.name(ty).as_bytes();
    if ty.0 < types.counts().completed {
        into.extend_from_slice(name)?;
        return Ok(());
    }
    into.push(b'"')?;
    put_escaped(name, into)?;
    into.push(b'"')?;
    Ok(())
}

// `.PATH TYPE TYPE: no common subtype`
fn put_clash(
    path: &[Feat],
    first: Ty,
    second: Ty,
    types: &Types,
    feats: &[String],
    into: &mut Vec<u8>,
) -> Result<(), NoMemory>
    requires path { All (λ f. f < length feats.now) (path_of path.now) }
    requires first { first.0 < count_of types.now }
    requires second { second.0 < count_of types.now }
    ensures { OnOk result (into.new.items ≡ into.old.items ++ clash_text types.now (map string_bytes feats.now) (path_of path.now) first.0 second.0) }
{
    put_path(path, feats, into)?;
    into.push(b' ')?;
    put_type(first, types, into)?;
    into.push(b' ')?;
    put_type(second, types, into)?;
    into.extend_from_slice(b": no common subtype")?;
    Ok(())
}

// `.PATH too-long`
fn put_too_long(path: &[Feat], feats: &[String], into: &mut Vec<u8>) -> Result<(), NoMemory>
    requires { All (λ f. f < length feats.now) (path_of path.now) }
    ensures { OnOk result (into.new.items ≡ into.old.items ++ (path_text (map string_bytes feats.now) (path_of path.now) ++ codes " too-long")) }
{
    put_path(path, feats, into)?;
    into.extend_from_slice(b" too-long")?;
    Ok(())
}

// `. too-large`
fn put_too_large(into: &mut Vec<u8>) -> Result<(), NoMemory>
    ensures { OnOk result (into.new.items ≡ into.old.items ++ codes ". too-large") }
{
    into.extend_from_slice(b". too-large")?;
    Ok(())
}

// What a verdict tells of what has no structure: where something clashes or is too long, or that there are too many paths.
fn put_verdict(
    verdict: &Verdict,
    types: &Types,
    feats: &[String],
    into: &mut Vec<u8>,
) -> Result<(), NoMemory>
    requires { IsVerdictIn (length feats.now) (count_of types.now) (verdict_of verdict.now) }
    ensures { OnOk result (into.new.items ≡ into.old.items ++ verdict_text types.now (map string_bytes feats.now) (verdict_of verdict.now)) }
{
    match verdict {
        Verdict::Fits => put_too_large(into),
        Verdict::Clash {
            path,
            first,
            second,
        } => put_clash(path, *first, *second, types, feats, into),
        Verdict::TooLong { path } => put_too_long(path, feats, into),
    }
}

// The same within the limit on paths: where more are forced, nothing else is told.
fn put_told(
    verdict: &Option<Verdict>,
    types: &Types,
    feats: &[String],
    into: &mut Vec<u8>,
) -> Result<(), NoMemory>
    requires { IfSome verdict.now (λ v. IsVerdictIn (length feats.now) (count_of types.now) (verdict_of v)) }
    ensures { OnOk result (into.new.items ≡ into.old.items ++ told_text types.now (map string_bytes feats.now) (option_map verdict_of verdict.now)) }
{
    match verdict {
        Some(verdict) => put_verdict(verdict, types, feats, into),
        None => put_too_large(into),
    }
}

/// The line of a verdict within the limit on paths, after two blanks.
pub(crate) fn verdict_line(
    alloc: Global,
    verdict: &Option<Verdict>,
    types: &Types,
    feats: &[String],
) -> Result<Vec<u8>, NoMemory>
    requires { IfSome verdict.now (λ v. IsVerdictIn (length feats.now) (count_of types.now) (verdict_of v)) }
    ensures { IfOk result (λ line. line.items ≡ set_in (told_text types.now (map string_bytes feats.now) (option_map verdict_of verdict.now))) }
{
    let mut line = Vec::from_slice(alloc, b"  ")?;
    put_told(verdict, types, feats, &mut line)?;
    line.push(b'\n')?;
    Ok(line)
}

// A name in upper case, with a dot before it.
fn put_name(name: &str, into: &mut Vec<u8>) -> Result<(), NoMemory>
    ensures { OnOk result (into.new.items ≡ into.old.items ++ 46 ∷ map to_ascii_uppercase name.now) }
{
    into.push(b'.')?;
    put_upper(name.as_bytes(), into)
}

// Each name with a dot before it.
fn put_names(path: &[String], into: &mut Vec<u8>) -> Result<(), NoMemory>
    ensures { OnOk result (into.new.items ≡ into.old.items ++ flat_map (λ n. 46 ∷ map to_ascii_uppercase n) (map string_bytes path.now)) }
{
    for name in path {
        put_name(name, into)?;
    }
    Ok(())
}

// A path by names, and a dot for the root.
fn put_names_path(path: &[String], into: &mut Vec<u8>) -> Result<(), NoMemory>
    ensures { OnOk result (into.new.items ≡ into.old.items ++ names_path (map string_bytes path.now)) }
{
    if path.is_empty() {
        into.push(b'.')?;
        return Ok(());
    }
    put_names(path, into)
}

/// The line of a path by names, after two blanks.
pub(crate) fn names_line(alloc: Global, path: &[String]) -> Result<Vec<u8>, NoMemory>
    ensures { IfOk result (λ line. line.items ≡ set_in (names_path (map string_bytes path.now))) }
{
    let mut line = Vec::from_slice(alloc, b"  ")?;
    put_names_path(path, &mut line)?;
    line.push(b'\n')?;
    Ok(line)
}
