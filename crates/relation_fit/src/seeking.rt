//! The elementary predications of an MRS, as elements of structures are tested against them.

ghost use Rattle.std.specs.Prelude.{◌≡◌, ◌<◌, ◌≤◌, ℕ, All, map, length, false, IfOk, IfSome};
ghost use Rattle.std.specs.List.{AllZip, Any};
ghost use Rattle.std.specs.Char.{to_ascii_lowercase};
ghost use Rattle.type_hierarchy.specs.Table.{count_of, completed_count};
ghost use Rattle.mrs_model.specs.Views.{meaning_of, predication_of, argument_of, filler_of, property_of, variable_of};
ghost use Rattle.mrs_places.specs.Paths.{paths_of};
ghost use Rattle.mrs_extract.specs.Extraction.{Normal, type_name, feature_name};
ghost use Rattle.mrs_extract.specs.Inner.Routes.{joined, numbers_of};
ghost use Rattle.relation_fit.specs.Sought.{IsPredicate, IsText, IsValue, AreNamed, IsSoughtProp, IsSoughtValue, IsSoughtRole, IsSoughtEp, AreSought};

use crate::NoMemory;
use crate::names::{begins_as, feature_named, path_named};
use fs_graph::Feat;
use mrs_model::{Ep, Mrs, Prop, Role, Value, Var};
use mrs_places::MrsPaths;
use std::alloc::Global;
use type_hierarchy::{Ty, Types};

/// Types by a name: those that have it, and whether any may be taken to have it.
#[derive(Debug, Drop)]
pub struct Named {
    pub types: Vec<Ty>,
    pub any: bool,
}

/// A property of a variable: the path to its value, and the types that have the value's name.
#[derive(Debug, Drop)]
pub struct SoughtProp {
    pub path: Vec<Feat>,
    pub value: Named,
}

/// What fills a role: a text, or a variable with its properties.
#[derive(Debug, Drop)]
pub enum SoughtValue {
    Text(Named),
    Var(Vec<SoughtProp>),
}

/// A role and what fills it.
#[derive(Debug, Drop)]
pub struct SoughtRole {
    pub feat: Feat,
    pub value: SoughtValue,
}

/// An elementary predication: the types that have its predicate's name, and its roles.
#[derive(Debug, Drop)]
pub struct SoughtEp {
    pub pred: Named,
    pub roles: Vec<SoughtRole>,
}

/// The elementary predications of an MRS. Made once for an MRS.
#[derive(Debug, Drop)]
pub struct Sought {
    pub eps: Vec<SoughtEp>,
}

// The types from one number to another that have a name.
fn types_named(
    alloc: Global,
    types: &Types,
    name: &str,
    from: u32,
    to: u32,
) -> Result<Vec<Ty>, NoMemory>
    requires { to ≤ count_of types.now }
    ensures { IfOk result (λ v. (t : ℕ) → from ≤ t → t < to → type_name types.now t ≡ name.now → Any (λ u. u.0 ≡ t) v.items) }
{
    let mut found = Vec::new(alloc);
    for t in from..to {
        if types.name(Ty(t)) == name {
            found.push(Ty(t))?;
        }
    }
    Ok(found)
}

// The types whose names begin as a predicate.
fn types_beginning(alloc: Global, types: &Types, pred: &str) -> Result<Vec<Ty>, NoMemory>
    ensures { IfOk result (λ v. (t : ℕ) → t < count_of types.now → IsPredicate types.now pred.now t → Any (λ u. u.0 ≡ t) v.items) }
{
    let mut found = Vec::new(alloc);
    for t in 0..types.counts().all {
        if begins_as(types.name(Ty(t)).as_bytes(), pred.as_bytes()) {
            found.push(Ty(t))?;
        }
    }
    Ok(found)
}

// The types that may be named as a predicate. Numbers that no type has count as strings without a name, so an empty name is any type's.
fn pred_named(alloc: Global, types: &Types, pred: &str) -> Result<Named, NoMemory>
    ensures { IfOk result (AreNamed types.now (IsPredicate types.now pred.now)) }
{
    Ok(Named {
        types: types_beginning(alloc, types, pred)?,
        any: pred.is_empty(),
    })
}

// The strings that are a text.
fn text_named(alloc: Global, types: &Types, text: &str) -> Result<Named, NoMemory>
    ensures { IfOk result (AreNamed types.now (IsText types.now text.now)) }
{
    let counts = types.counts();
    Ok(Named {
        types: types_named(alloc, types, text, counts.completed, counts.all)?,
        any: text.is_empty(),
    })
}

// The types without strings that have the name of a value.
fn value_named(alloc: Global, types: &Types, value: &str) -> Result<Named, NoMemory>
    ensures { IfOk result (AreNamed types.now (IsValue types.now value.now)) }
{
    let counts = types.counts();
    Ok(Named {
        types: types_named(alloc, types, value, 0, counts.completed)?,
        any: false,
    })
}

// A property, where its path is one of features.
fn sought_prop(
    alloc: Global,
    types: &Types,
    paths: &MrsPaths,
    prop: &Prop,
) -> Result<Option<SoughtProp>, NoMemory>
    ensures { IfOk result (λ o. IfSome o (λ x. (0 < length x.path.items) × All (λ f. f < length (paths_of paths.now).feats) (numbers_of x.path.items)
        × (joined (paths_of paths.now) (numbers_of x.path.items) ≡ (property_of prop.now).name) × AreNamed types.now (IsValue types.now (property_of prop.now).value) x.value)) }
{
    let Some(path) = path_named(alloc, paths, &prop.name)? else {
        return Ok(None);
    };
    let value = value_named(alloc, types, &prop.value)?;
    Ok(Some(SoughtProp { path, value }))
}

// The properties of a variable.
fn sought_props(
    alloc: Global,
    types: &Types,
    paths: &MrsPaths,
    var: &Var,
) -> Result<Vec<SoughtProp>, NoMemory>
    ensures { IfOk result (λ v. All (IsSoughtProp types.now (paths_of paths.now) (variable_of var.now)) v.items) }
{
    let mut props = Vec::new(alloc);
    for k in 0..var.props.len() {
        if let Some(prop) = sought_prop(alloc, types, paths, &var.props[k])? {
            props.push(prop)?;
        }
    }
    Ok(props)
}

// What fills a role; none where the variable isn't there.
fn sought_value(
    alloc: Global,
    types: &Types,
    paths: &MrsPaths,
    vars: &[Var],
    value: &Value,
) -> Result<Option<SoughtValue>, NoMemory>
    ensures { IfOk result (λ o. IfSome o (IsSoughtValue types.now (paths_of paths.now) (map variable_of vars.now) (filler_of value.now))) }
{
    match value {
        Value::Text(text) => Ok(Some(SoughtValue::Text(text_named(alloc, types, text)?))),
        Value::Var(var) => {
            let place = *var as usize;
            if place >= vars.len() {
                return Ok(None);
            }
            Ok(Some(SoughtValue::Var(sought_props(alloc, types, paths, &vars[place])?)))
        }
    }
}

// A role, where it is a feature and what fills it is there.
fn sought_role(
    alloc: Global,
    types: &Types,
    paths: &MrsPaths,
    vars: &[Var],
    role: &Role,
) -> Result<Option<SoughtRole>, NoMemory>
    ensures { IfOk result (λ o. IfSome o (λ r. (r.feat.0 < length (paths_of paths.now).feats) × (feature_name (paths_of paths.now) r.feat.0 ≡ (argument_of role.now).role)
        × IsSoughtValue types.now (paths_of paths.now) (map variable_of vars.now) (argument_of role.now).filler r.value)) }
{
    let Some(feat) = feature_named(paths, &role.name) else {
        return Ok(None);
    };
    let Some(value) = sought_value(alloc, types, paths, vars, &role.value)? else {
        return Ok(None);
    };
    Ok(Some(SoughtRole { feat, value }))
}

// The roles of an elementary predication.
fn sought_roles(
    alloc: Global,
    types: &Types,
    paths: &MrsPaths,
    vars: &[Var],
    roles: &[Role],
) -> Result<Vec<SoughtRole>, NoMemory>
    ensures { IfOk result (λ v. All (IsSoughtRole types.now (paths_of paths.now) (map variable_of vars.now) (map argument_of roles.now)) v.items) }
{
    let mut found = Vec::new(alloc);
    for k in 0..roles.len() {
        if let Some(role) = sought_role(alloc, types, paths, vars, &roles[k])? {
            found.push(role)?;
        }
    }
    Ok(found)
}

// An elementary predication.
fn sought_ep(
    alloc: Global,
    types: &Types,
    paths: &MrsPaths,
    vars: &[Var],
    ep: &Ep,
) -> Result<SoughtEp, NoMemory>
    ensures { IfOk result (IsSoughtEp types.now (paths_of paths.now) (map variable_of vars.now) (predication_of ep.now)) }
{
    Ok(SoughtEp {
        pred: pred_named(alloc, types, &ep.pred)?,
        roles: sought_roles(alloc, types, paths, vars, &ep.roles)?,
    })
}

/// What is sought of an MRS among the elements of structures. It goes once through the names of all types for each predicate, text and
/// value. A role or a property that names no feature is left out, so it isn't tested.
pub fn sought_of(
    alloc: Global,
    types: &Types,
    paths: &MrsPaths,
    mrs: &Mrs,
) -> Result<Sought, NoMemory>
    ensures { IfOk result (λ s. AreSought types.now (paths_of paths.now) (meaning_of mrs.now) s.eps.items) }
{
    let mut eps = Vec::with_capacity(alloc, mrs.eps.len())?;
    for k in 0..mrs.eps.len() {
        eps.push(sought_ep(alloc, types, paths, &mrs.vars, &mrs.eps[k])?)?;
    }
    Ok(Sought { eps })
}
