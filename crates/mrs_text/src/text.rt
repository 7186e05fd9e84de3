//! MRSs written as texts.

ghost use Rattle.std.specs.Prelude.{◌≡◌, ◌<◌, ◌++◌, ◌∷◌, [], length, map, codes, OnOk, OnErr, All};
ghost use Rattle.std.specs.List.{flat_map};
ghost use Rattle.mrs_model.specs.Valid.{IsValid, IsFiller, IsArgument, IsPredication, IsConstraint};
ghost use Rattle.mrs_model.specs.Views.{variable_of, filler_of, argument_of, predication_of, hcon_of, icon_of, meaning_of};
ghost use Rattle.mrs_text.specs.Written.{Part, variable, filler_part, argument_parts, ep_parts, constraint_parts, list_parts, icons_parts, parts, text_of};
ghost use Rattle.mrs_text.specs.Inner.Writing.{IsWritten, first_parts};

use crate::pieces::{put_head, put_number, put_properties, put_quoted, put_rel, put_role_name};
use crate::seen::Seen;
use mrs_model::{Ep, Hcon, Icon, Mrs, NoMemory, Role, Value, Var};
use std::alloc::Global;

/// Appends the text of an MRS, with one blank between tokens. Variables are numbered from 0 in order of first occurrence, and have their
/// property list there; names of roles and properties are in upper case; `HCONS` is always there, `ICONS` where there are some.
/// Where memory is wanting `into` stays as it was.
pub fn write(alloc: Global, mrs: &Mrs, into: &mut Vec<u8>) -> Result<(), NoMemory>
    requires { IsValid (meaning_of mrs.now) }
    ensures ok { OnOk result (into.new.items ≡ into.old.items ++ text_of (meaning_of mrs.now)) }
    ensures err { OnErr result (into.new.items ≡ into.old.items) }
{
    let mut text = Vec::new(alloc);
    let mut seen = Seen::new(alloc, mrs.vars.len())?;
    put_mrs(mrs, &mut seen, &mut text)?;
    into.extend_from_slice(&text)?;
    Ok(())
}

/// The text of an MRS.
pub(crate) fn put_mrs(mrs: &Mrs, seen: &mut Seen, into: &mut Vec<u8>) -> Result<(), NoMemory>
    requires valid { IsValid (meaning_of mrs.now) }
    requires size { seen.old.size ≡ length mrs.now.vars.items }
    ensures written { OnOk result (IsWritten (meaning_of mrs.now).vars (parts (meaning_of mrs.now)) seen.old into.old.items seen.new into.new.items) }
    ensures size { seen.new.size ≡ seen.old.size }
{
    put_first(mrs, seen, into)?;
    put_eps(&mrs.eps, &mrs.vars, seen, into)?;
    into.extend_from_slice(b" >")?;
    put_hcons(&mrs.hcons, &mrs.vars, seen, into)?;
    put_icons(&mrs.icons, &mrs.vars, seen, into)?;
    into.extend_from_slice(b" ]")?;
    Ok(())
}

// `[ TOP: VAR INDEX: VAR RELS: <`
fn put_first(mrs: &Mrs, seen: &mut Seen, into: &mut Vec<u8>) -> Result<(), NoMemory>
    requires valid { IsValid (meaning_of mrs.now) }
    requires size { seen.old.size ≡ length mrs.now.vars.items }
    ensures written { OnOk result (IsWritten (meaning_of mrs.now).vars (first_parts (meaning_of mrs.now)) seen.old into.old.items seen.new into.new.items) }
    ensures size { seen.new.size ≡ seen.old.size }
{
    into.extend_from_slice(b"[ TOP: ")?;
    put_variable(mrs.top, &mrs.vars, seen, into)?;
    into.extend_from_slice(b" INDEX: ")?;
    put_variable(mrs.index, &mrs.vars, seen, into)?;
    into.extend_from_slice(b" RELS: <")?;
    Ok(())
}

/// The sort of a variable and its number, with its properties at its first occurrence.
fn put_variable(v: u32, vars: &[Var], seen: &mut Seen, into: &mut Vec<u8>) -> Result<(), NoMemory>
    requires within { v < length vars.now }
    requires size { seen.old.size ≡ length vars.now }
    ensures written { OnOk result (IsWritten (map variable_of vars.now) (variable v ∷ []) seen.old into.old.items seen.new into.new.items) }
    ensures size { seen.new.size ≡ seen.old.size }
{
    let var = &vars[v as usize];
    into.extend_from_slice(var.sort.as_bytes())?;
    if let Some(number) = seen.number(v) {
        put_number(number, into)?;
        return Ok(());
    }
    put_number(seen.len(), into)?;
    put_properties(var, into)?;
    seen.push(v)?;
    Ok(())
}

fn put_value(
    value: &Value,
    vars: &[Var],
    seen: &mut Seen,
    into: &mut Vec<u8>,
) -> Result<(), NoMemory>
    requires within { IsFiller (length vars.now) (filler_of value.now) }
    requires size { seen.old.size ≡ length vars.now }
    ensures written { OnOk result (IsWritten (map variable_of vars.now) (filler_part (filler_of value.now) ∷ []) seen.old into.old.items seen.new into.new.items) }
    ensures size { seen.new.size ≡ seen.old.size }
{
    match value {
        Value::Var(v) => put_variable(*v, vars, seen, into)?,
        Value::Text(text) => put_quoted(text, into)?,
    }
    Ok(())
}

fn put_role(role: &Role, vars: &[Var], seen: &mut Seen, into: &mut Vec<u8>) -> Result<(), NoMemory>
    requires within { IsFiller (length vars.now) (filler_of role.now.value) }
    requires size { seen.old.size ≡ length vars.now }
    ensures written { OnOk result (IsWritten (map variable_of vars.now) (argument_parts (argument_of role.now)) seen.old into.old.items seen.new into.new.items) }
    ensures size { seen.new.size ≡ seen.old.size }
{
    put_role_name(&role.name, into)?;
    put_value(&role.value, vars, seen, into)?;
    Ok(())
}

fn put_roles(
    roles: &[Role],
    vars: &[Var],
    seen: &mut Seen,
    into: &mut Vec<u8>,
) -> Result<(), NoMemory>
    requires within { All (IsArgument (length vars.now)) (map argument_of roles.now) }
    requires size { seen.old.size ≡ length vars.now }
    ensures written { OnOk result (IsWritten (map variable_of vars.now) (flat_map argument_parts (map argument_of roles.now)) seen.old into.old.items seen.new into.new.items) }
    ensures size { seen.new.size ≡ seen.old.size }
{
    for k in 0..roles.len() {
        put_role(&roles[k], vars, seen, into)?;
    }
    Ok(())
}

fn put_ep(ep: &Ep, vars: &[Var], seen: &mut Seen, into: &mut Vec<u8>) -> Result<(), NoMemory>
    requires within { IsPredication (length vars.now) (predication_of ep.now) }
    requires size { seen.old.size ≡ length vars.now }
    ensures written { OnOk result (IsWritten (map variable_of vars.now) (ep_parts (predication_of ep.now)) seen.old into.old.items seen.new into.new.items) }
    ensures size { seen.new.size ≡ seen.old.size }
{
    put_head(ep, into)?;
    put_variable(ep.label, vars, seen, into)?;
    put_roles(&ep.roles, vars, seen, into)?;
    into.extend_from_slice(b" ]")?;
    Ok(())
}

fn put_eps(eps: &[Ep], vars: &[Var], seen: &mut Seen, into: &mut Vec<u8>) -> Result<(), NoMemory>
    requires within { All (IsPredication (length vars.now)) (map predication_of eps.now) }
    requires size { seen.old.size ≡ length vars.now }
    ensures written { OnOk result (IsWritten (map variable_of vars.now) (flat_map ep_parts (map predication_of eps.now)) seen.old into.old.items seen.new into.new.items) }
    ensures size { seen.new.size ≡ seen.old.size }
{
    for k in 0..eps.len() {
        put_ep(&eps[k], vars, seen, into)?;
    }
    Ok(())
}

/// ` LEFT RELATION RIGHT`
fn put_constraint(
    left: u32,
    rel: &str,
    right: u32,
    vars: &[Var],
    seen: &mut Seen,
    into: &mut Vec<u8>,
) -> Result<(), NoMemory>
    requires left { left < length vars.now }
    requires right { right < length vars.now }
    requires size { seen.old.size ≡ length vars.now }
    ensures written { OnOk result (IsWritten (map variable_of vars.now) (constraint_parts (record { left = left; rel = rel.now; right = right })) seen.old into.old.items seen.new into.new.items) }
    ensures size { seen.new.size ≡ seen.old.size }
{
    into.push(b' ')?;
    put_variable(left, vars, seen, into)?;
    put_rel(rel, into)?;
    put_variable(right, vars, seen, into)?;
    Ok(())
}

/// ` HCONS: < .. >`
fn put_hcons(
    hcons: &[Hcon],
    vars: &[Var],
    seen: &mut Seen,
    into: &mut Vec<u8>,
) -> Result<(), NoMemory>
    requires within { All (IsConstraint (length vars.now)) (map hcon_of hcons.now) }
    requires size { seen.old.size ≡ length vars.now }
    ensures written { OnOk result (IsWritten (map variable_of vars.now) (list_parts (codes "HCONS") (map hcon_of hcons.now)) seen.old into.old.items seen.new into.new.items) }
    ensures size { seen.new.size ≡ seen.old.size }
{
    into.extend_from_slice(b" HCONS: <")?;
    put_all_hcons(hcons, vars, seen, into)?;
    into.extend_from_slice(b" >")?;
    Ok(())
}

fn put_hcon(hcon: &Hcon, vars: &[Var], seen: &mut Seen, into: &mut Vec<u8>) -> Result<(), NoMemory>
    requires within { IsConstraint (length vars.now) (hcon_of hcon.now) }
    requires size { seen.old.size ≡ length vars.now }
    ensures written { OnOk result (IsWritten (map variable_of vars.now) (constraint_parts (hcon_of hcon.now)) seen.old into.old.items seen.new into.new.items) }
    ensures size { seen.new.size ≡ seen.old.size }
{
    put_constraint(hcon.high, &hcon.rel, hcon.low, vars, seen, into)?;
    Ok(())
}

fn put_all_hcons(
    hcons: &[Hcon],
    vars: &[Var],
    seen: &mut Seen,
    into: &mut Vec<u8>,
) -> Result<(), NoMemory>
    requires within { All (IsConstraint (length vars.now)) (map hcon_of hcons.now) }
    requires size { seen.old.size ≡ length vars.now }
    ensures written { OnOk result (IsWritten (map variable_of vars.now) (flat_map constraint_parts (map hcon_of hcons.now)) seen.old into.old.items seen.new into.new.items) }
    ensures size { seen.new.size ≡ seen.old.size }
{
    for k in 0..hcons.len() {
        put_hcon(&hcons[k], vars, seen, into)?;
    }
    Ok(())
}

/// ` ICONS: < .. >`, where there are some.
fn put_icons(
    icons: &[Icon],
    vars: &[Var],
    seen: &mut Seen,
    into: &mut Vec<u8>,
) -> Result<(), NoMemory>
    requires within { All (IsConstraint (length vars.now)) (map icon_of icons.now) }
    requires size { seen.old.size ≡ length vars.now }
    ensures written { OnOk result (IsWritten (map variable_of vars.now) (icons_parts (map icon_of icons.now)) seen.old into.old.items seen.new into.new.items) }
    ensures size { seen.new.size ≡ seen.old.size }
{
    if icons.is_empty() {
        return Ok(());
    }
    into.extend_from_slice(b" ICONS: <")?;
    put_all_icons(icons, vars, seen, into)?;
    into.extend_from_slice(b" >")?;
    Ok(())
}

fn put_icon(icon: &Icon, vars: &[Var], seen: &mut Seen, into: &mut Vec<u8>) -> Result<(), NoMemory>
    requires within { IsConstraint (length vars.now) (icon_of icon.now) }
    requires size { seen.old.size ≡ length vars.now }
    ensures written { OnOk result (IsWritten (map variable_of vars.now) (constraint_parts (icon_of icon.now)) seen.old into.old.items seen.new into.new.items) }
    ensures size { seen.new.size ≡ seen.old.size }
{
    put_constraint(icon.left, &icon.rel, icon.right, vars, seen, into)?;
    Ok(())
}

fn put_all_icons(
    icons: &[Icon],
    vars: &[Var],
    seen: &mut Seen,
    into: &mut Vec<u8>,
) -> Result<(), NoMemory>
    requires within { All (IsConstraint (length vars.now)) (map icon_of icons.now) }
    requires size { seen.old.size ≡ length vars.now }
    ensures written { OnOk result (IsWritten (map variable_of vars.now) (flat_map constraint_parts (map icon_of icons.now)) seen.old into.old.items seen.new into.new.items) }
    ensures size { seen.new.size ≡ seen.old.size }
{
    for k in 0..icons.len() {
        put_icon(&icons[k], vars, seen, into)?;
    }
    Ok(())
}
