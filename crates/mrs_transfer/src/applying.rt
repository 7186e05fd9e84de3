//! The application of a rule at a site.

ghost use Rattle.std.specs.Prelude.{◌≡◌, ◌<◌, ◌≤◌, ◌++◌, ◌∷◌, [], if◌then◌else◌, ℕ, length, map, reverse, string_bytes, IfOk, All, Contains};
ghost use Rattle.mrs_model.specs.Valid.{IsArgument, IsFiller, IsPredication, IsValid};
ghost use Rattle.mrs_model.specs.Renaming.{renamed_argument, renamed_filler, renamed_ep};
ghost use Rattle.mrs_model.specs.Views.{argument_of, filler_of, predication_of, variable_of, meaning_of};
ghost use Rattle.transfer_model.specs.Applying.{IsApplied, has, new_variable, numbers, replaced};
ghost use Rattle.transfer_model.specs.Sites.{IsSite};
ghost use Rattle.transfer_model.specs.Views.{rule_of, IsHeld};

use crate::NoMemory;
use crate::numbers::number_of;
use crate::trimming::trim;
use mrs_model::{Ep, Mrs, Role, Value, Var};
use std::alloc::Global;
use transfer_model::{Rule, Site};

// What fills a role of OUTPUT, under variables of its coreferences.
fn filled(alloc: Global, written: &Value, vars: &[u32]) -> Result<Value, NoMemory>
    requires { IsFiller (length vars.now) (filler_of written.now) }
    ensures { IfOk result (λ v. filler_of v ≡ renamed_filler vars.now (filler_of written.now)) }
{
    match written {
        Value::Var(coref) => Ok(Value::Var(vars[*coref as usize])),
        Value::Text(text) => Ok(Value::Text(String::from_str(alloc, text.as_str())?)),
    }
}

fn filled_role(alloc: Global, role: &Role, vars: &[u32]) -> Result<Role, NoMemory>
    requires { IsArgument (length vars.now) (argument_of role.now) }
    ensures { IfOk result (λ r. argument_of r ≡ renamed_argument vars.now (argument_of role.now)) }
{
    let value = filled(alloc, &role.value, vars)?;
    Ok(Role {
        name: String::from_str(alloc, role.name.as_str())?,
        value,
    })
}

// The roles of an element of OUTPUT, filled.
fn filled_roles(alloc: Global, roles: &[Role], vars: &[u32]) -> Result<Vec<Role>, NoMemory>
    requires { All (IsArgument (length vars.now)) (map argument_of roles.now) }
    ensures { IfOk result (λ rs. map argument_of rs.items ≡ map (renamed_argument vars.now) (map argument_of roles.now)) }
{
    let mut all = Vec::with_capacity(alloc, roles.len())?;
    for role in roles {
        all.push(filled_role(alloc, role, vars)?)?;
    }
    Ok(all)
}

// The elementary predication that an element of OUTPUT makes. It has no span.
fn output_ep(alloc: Global, ep: &Ep, vars: &[u32]) -> Result<Ep, NoMemory>
    requires { IsPredication (length vars.now) (predication_of ep.now) }
    ensures { IfOk result (λ e. predication_of e ≡ renamed_ep vars.now (predication_of ep.now)) }
{
    let roles = filled_roles(alloc, &ep.roles, vars)?;
    Ok(Ep {
        pred: String::from_str(alloc, ep.pred.as_str())?,
        label: vars[ep.label as usize],
        roles,
        span: None,
    })
}

// The least of some places.
fn least(places: &[u32]) -> u32
    requires { 0 < length places.now }
    ensures among { Contains places.now result }
    ensures least { All (λ p. result ≤ p) places.now }
{
    let mut least = places[0];
    for place in places {
        if *place < least {
            least = *place;
        }
    }
    least
}

// Adds a new variable for each coreference of OUTPUT's own, and its number to the variables of the site.
fn add_variables(
    alloc: Global,
    letters: &[String],
    all: &mut Vec<Var>,
    vars: &mut Vec<u32>,
) -> Result<(), NoMemory>
    ensures all { IfOk result (λ _. map variable_of all.new.items ≡ map variable_of all.old.items ++ map new_variable (map string_bytes letters.now)) }
    ensures vars { IfOk result (λ _. vars.new.items ≡ vars.old.items ++ numbers (length all.old.items) (length letters.now)) }
{
    for text in letters {
        vars.push(number_of(all.len())?)?;
        let sort = String::from_str(alloc, text.as_str())?;
        all.push(Var {
            sort,
            props: Vec::new(alloc),
        })?;
    }
    Ok(())
}

// Adds the elementary predications of OUTPUT, from the last one on.
fn push_output(
    alloc: Global,
    output: &[Ep],
    vars: &[u32],
    backwards: &mut Vec<Ep>,
) -> Result<(), NoMemory>
    requires { All (IsPredication (length vars.now)) (map predication_of output.now) }
    ensures { IfOk result (λ _. map predication_of (reverse backwards.new.items) ≡ map (renamed_ep vars.now) (map predication_of output.now) ++ map predication_of (reverse backwards.old.items)) }
{
    let mut left = output.len();
    while left > 0 {
        left -= 1;
        backwards.push(output_ep(alloc, &output[left], vars)?)?;
    }
    Ok(())
}

// Adds the elementary predication of a place, unless it is removed.
fn push_left(gone: &[u32], place: u32, ep: Ep, backwards: &mut Vec<Ep>) -> Result<(), NoMemory>
    ensures { IfOk result (λ _. backwards.new.items ≡ if has gone.now place then backwards.old.items else backwards.old.items ++ ep ∷ []) }
{
    if !gone.contains(&place) {
        backwards.push(ep)?;
    }
    Ok(())
}

// The elementary predications with those of OUTPUT in the place of the first that is removed.
fn replaced_eps(
    alloc: Global,
    eps: Vec<Ep>,
    gone: &[u32],
    output: &[Ep],
    vars: &[u32],
) -> Result<Vec<Ep>, NoMemory>
    requires some { 0 < length gone.now }
    requires there { All (λ p. p < length eps.items) gone.now }
    requires output { All (IsPredication (length vars.now)) (map predication_of output.now) }
    ensures { IfOk result (λ new. (first : ℕ) × Contains gone.now first × All (λ p. first ≤ p) gone.now
        × (map predication_of new.items ≡ replaced gone.now first (map (renamed_ep vars.now) (map predication_of output.now)) (map predication_of eps.items))) }
{
    let first = least(gone);
    let mut rest = eps;
    let mut backwards = Vec::with_capacity(alloc, rest.len())?;
    while let Some(ep) = rest.pop() {
        let place = number_of(rest.len())?;
        push_left(gone, place, ep, &mut backwards)?;
        if place == first {
            push_output(alloc, output, vars, &mut backwards)?;
        }
    }
    backwards.reverse();
    Ok(backwards)
}

/// What a rule makes of an MRS at a site.
pub fn apply(alloc: Global, rule: &Rule, site: &Site, mrs: Mrs) -> Result<Mrs, NoMemory>
    requires valid { IsValid (meaning_of mrs) }
    requires rule { IsHeld rule.now }
    requires site { IsSite (meaning_of mrs) (rule_of rule.now) site.now }
    ensures applied { IfOk result (λ next. IsApplied (meaning_of mrs) (rule_of rule.now) site.now (meaning_of next)) }
    ensures valid { IfOk result (λ next. IsValid (meaning_of next)) }
{
    let mut vars = Vec::from_slice(alloc, site.vars())?;
    let mut all = mrs.vars;
    add_variables(alloc, &rule.output_letters, &mut all, &mut vars)?;
    let gone = &site.places()[..rule.inputs];
    let eps = replaced_eps(alloc, mrs.eps, gone, &rule.output, &vars)?;
    trim(
        alloc,
        Mrs {
            top: mrs.top,
            index: mrs.index,
            vars: all,
            eps,
            hcons: mrs.hcons,
            icons: mrs.icons,
        },
    )
}
