//! The frame of an MRS, in the numbers of its text.

ghost use Rattle.std.specs.Prelude.{◌≡◌, ◌++◌, map, OnOk, IfOk, Some, codes};
ghost use Rattle.std.specs.List.{flat_map};
ghost use Rattle.mrs_model.specs.Views.{variable_of, filler_of, argument_of, predication_of, hcon_of, meaning_of};
ghost use Rattle.mrs_model.specs.Valid.{IsValid};
ghost use Rattle.scope_model.specs.Frames.{variable_in, at_role, listed};
ghost use Rattle.scope_model.specs.Answers.{frame};
ghost use Rattle.scope_resolve.specs.Inner.Nets.{frame_in};
ghost use Rattle.scope_resolve.specs.Inner.Building.{AreNumbers, is_handle_in, handle_of, opening_with, openings_with, openings_from, number_at as numbered, quantifier_by, quantifier_from, is_number, has_number, binding_of, bindings_with, bindings_by, bindings_of_quantifier, bindings_from, label_from, qeq_from};

use crate::nets::{Parts, number_at};
use mrs_model::{Ep, Hcon, Mrs, NoMemory, Role, Value, Var};
use scope_model::{Binding, Opening, Qeq, Quantifier};
use std::alloc::Global;

fn is_handle(vars: &[Var], v: u32) -> bool
    ensures { result ≡ is_handle_in (map variable_of vars.now) v }
{
    let at = v as usize;
    if at < vars.len() {
        return vars[at].sort.as_str() == "h";
    }
    false
}

fn variable_of_value(value: &Value) -> Option<u32>
    ensures { result ≡ variable_in (filler_of value.now) }
{
    match value {
        Value::Var(v) => Some(*v),
        Value::Text(_) => None,
    }
}

// The number of a variable, if it is a handle.
fn handle_number(vars: &[Var], numbers: &[u32], v: u32) -> Option<u32>
    ensures { result ≡ handle_of (map variable_of vars.now) numbers.now (Some v) }
{
    if !is_handle(vars, v) {
        return None;
    }
    Some(number_at(numbers, v))
}

fn handle(vars: &[Var], numbers: &[u32], variable: Option<u32>) -> Option<u32>
    ensures { result ≡ handle_of (map variable_of vars.now) numbers.now variable }
{
    match variable {
        Some(v) => handle_number(vars, numbers, v),
        None => None,
    }
}

// The variable at a role, where one is there.
fn variable_at_role(roles: &[Role], name: &str) -> Option<u32>
    ensures { result ≡ at_role name.now (map argument_of roles.now) }
{
    for role in roles {
        if role.name.as_str() == name {
            return variable_of_value(&role.value);
        }
    }
    None
}

fn put_opening(label: u32, hole: Option<u32>, out: &mut Vec<Opening>) -> Result<(), NoMemory>
    ensures { OnOk result (out.new.items ≡ out.old.items ++ opening_with label hole) }
{
    if let Some(hole) = hole {
        out.push(Opening { label, hole })?;
    }
    Ok(())
}

fn put_openings(
    vars: &[Var],
    numbers: &[u32],
    label: u32,
    roles: &[Role],
    out: &mut Vec<Opening>,
) -> Result<(), NoMemory>
    ensures { OnOk result (out.new.items ≡ out.old.items ++ openings_with (map variable_of vars.now) numbers.now label (map argument_of roles.now)) }
{
    for role in roles {
        let variable = variable_of_value(&role.value);
        let hole = handle(vars, numbers, variable);
        put_opening(label, hole, out)?;
    }
    Ok(())
}

fn openings(
    alloc: Global,
    vars: &[Var],
    numbers: &[u32],
    eps: &[Ep],
) -> Result<Vec<Opening>, NoMemory>
    ensures { IfOk result (λ out. out.items ≡ flat_map (openings_from (map variable_of vars.now) numbers.now) (map predication_of eps.now)) }
{
    let mut out = Vec::new(alloc);
    for ep in eps {
        let label = number_at(numbers, ep.label);
        put_openings(vars, numbers, label, &ep.roles, &mut out)?;
    }
    Ok(out)
}

fn quantifier(vars: &[Var], numbers: &[u32], ep: &Ep) -> Option<Quantifier>
    ensures { result ≡ quantifier_from (map variable_of vars.now) numbers.now (predication_of ep.now) }
{
    let rstr = handle(vars, numbers, variable_at_role(&ep.roles, "rstr"))?;
    let body = handle(vars, numbers, variable_at_role(&ep.roles, "body"))?;
    let bound = bound(numbers, ep);
    Some(Quantifier {
        label: number_at(numbers, ep.label),
        rstr,
        body,
        bound,
    })
}

fn bound(numbers: &[u32], ep: &Ep) -> Option<u32>
    ensures { result ≡ numbered numbers.now (at_role (codes "arg0") (predication_of ep.now).args) }
{
    match variable_at_role(&ep.roles, "arg0") {
        Some(v) => Some(number_at(numbers, v)),
        None => None,
    }
}

fn quantifiers(
    alloc: Global,
    vars: &[Var],
    numbers: &[u32],
    eps: &[Ep],
) -> Result<Vec<Quantifier>, NoMemory>
    ensures { IfOk result (λ out. out.items ≡ flat_map (λ e. listed (quantifier_from (map variable_of vars.now) numbers.now e)) (map predication_of eps.now)) }
{
    let mut out = Vec::new(alloc);
    for ep in eps {
        put_quantifier(quantifier(vars, numbers, ep), &mut out)?;
    }
    Ok(out)
}

fn put_quantifier(quantifier: Option<Quantifier>, out: &mut Vec<Quantifier>) -> Result<(), NoMemory>
    ensures { OnOk result (out.new.items ≡ out.old.items ++ listed quantifier) }
{
    if let Some(quantifier) = quantifier {
        out.push(quantifier)?;
    }
    Ok(())
}

// Whether a role has the variable of this number.
fn is_number(numbers: &[u32], x: u32, value: &Value) -> bool
    ensures { result ≡ is_number numbers.now x (filler_of value.now) }
{
    match value {
        Value::Var(v) => number_at(numbers, *v) == x,
        Value::Text(_) => false,
    }
}

fn has_number(numbers: &[u32], x: u32, roles: &[Role]) -> bool
    ensures { result ≡ has_number numbers.now x (map argument_of roles.now) }
{
    for role in roles {
        if is_number(numbers, x, &role.value) {
            return true;
        }
    }
    false
}

// What a quantifier at this place binds: the labels of the other predications that have its variable.
fn put_bindings(
    numbers: &[u32],
    quantifier: Quantifier,
    own: usize,
    eps: &[Ep],
    out: &mut Vec<Binding>,
) -> Result<(), NoMemory>
    ensures { OnOk result (out.new.items ≡ out.old.items ++ bindings_by numbers.now quantifier quantifier.bound own (map predication_of eps.now)) }
{
    match quantifier.bound {
        Some(x) => put_bindings_with(numbers, quantifier, x, own, eps, out),
        None => Ok(()),
    }
}

// The same for one that has this variable.
fn put_bindings_with(
    numbers: &[u32],
    quantifier: Quantifier,
    x: u32,
    own: usize,
    eps: &[Ep],
    out: &mut Vec<Binding>,
) -> Result<(), NoMemory>
    ensures { OnOk result (out.new.items ≡ out.old.items ++ bindings_with numbers.now quantifier x own 0 (map predication_of eps.now)) }
{
    for at in 0..eps.len() {
        put_binding(numbers, quantifier, x, at == own, &eps[at], out)?;
    }
    Ok(())
}

// The label of a predication other than the quantifier's own that has its variable.
fn put_binding(
    numbers: &[u32],
    quantifier: Quantifier,
    x: u32,
    is_own: bool,
    ep: &Ep,
    out: &mut Vec<Binding>,
) -> Result<(), NoMemory>
    ensures { OnOk result (out.new.items ≡ out.old.items ++ binding_of numbers.now quantifier x is_own (predication_of ep.now)) }
{
    if is_own {
        return Ok(());
    }
    if !has_number(numbers, x, &ep.roles) {
        return Ok(());
    }
    let label = number_at(numbers, ep.label);
    out.push(Binding {
        rstr: quantifier.rstr,
        body: quantifier.body,
        label,
    })?;
    Ok(())
}

fn bindings(
    alloc: Global,
    vars: &[Var],
    numbers: &[u32],
    eps: &[Ep],
) -> Result<Vec<Binding>, NoMemory>
    ensures { IfOk result (λ out. out.items ≡ bindings_from (map variable_of vars.now) numbers.now (map predication_of eps.now) 0 (map predication_of eps.now)) }
{
    let mut out = Vec::new(alloc);
    for own in 0..eps.len() {
        put_bindings_at(vars, numbers, &eps[own], own, eps, &mut out)?;
    }
    Ok(out)
}

fn put_bindings_at(
    vars: &[Var],
    numbers: &[u32],
    ep: &Ep,
    own: usize,
    eps: &[Ep],
    out: &mut Vec<Binding>,
) -> Result<(), NoMemory>
    ensures { OnOk result (out.new.items ≡ out.old.items ++ bindings_of_quantifier numbers.now (quantifier_from (map variable_of vars.now) numbers.now (predication_of ep.now)) own (map predication_of eps.now)) }
{
    match quantifier(vars, numbers, ep) {
        Some(quantifier) => put_bindings(numbers, quantifier, own, eps, out),
        None => Ok(()),
    }
}

fn labels(alloc: Global, numbers: &[u32], eps: &[Ep]) -> Result<Vec<u32>, NoMemory>
    ensures { IfOk result (λ out. out.items ≡ map (label_from numbers.now) (map predication_of eps.now)) }
{
    let mut out = Vec::with_capacity(alloc, eps.len())?;
    for ep in eps {
        let label = number_at(numbers, ep.label);
        out.push(label)?;
    }
    Ok(out)
}

fn qeqs(alloc: Global, numbers: &[u32], hcons: &[Hcon]) -> Result<Vec<Qeq>, NoMemory>
    ensures { IfOk result (λ out. out.items ≡ map (qeq_from numbers.now) (map hcon_of hcons.now)) }
{
    let mut out = Vec::with_capacity(alloc, hcons.len())?;
    for hcon in hcons {
        let left = number_at(numbers, hcon.high);
        let right = number_at(numbers, hcon.low);
        out.push(Qeq { left, right })?;
    }
    Ok(out)
}

/// The parts of the frame of an MRS, in the numbers of its text.
pub(crate) fn parts_of(alloc: Global, mrs: &Mrs, numbers: &[u32]) -> Result<Parts, NoMemory>
    requires valid { IsValid (meaning_of mrs.now) }
    requires numbers { AreNumbers (meaning_of mrs.now) numbers.now }
    ensures { IfOk result (λ parts. frame_in parts ≡ frame (meaning_of mrs.now)) }
{
    let vars: &[Var] = &mrs.vars;
    let eps: &[Ep] = &mrs.eps;
    let hcons: &[Hcon] = &mrs.hcons;
    let top = number_at(numbers, mrs.top);
    let labels = labels(alloc, numbers, eps)?;
    let openings = openings(alloc, vars, numbers, eps)?;
    let quantifiers = quantifiers(alloc, vars, numbers, eps)?;
    let bindings = bindings(alloc, vars, numbers, eps)?;
    let qeqs = qeqs(alloc, numbers, hcons)?;
    Ok(Parts {
        top,
        labels,
        openings,
        quantifiers,
        bindings,
        qeqs,
    })
}
