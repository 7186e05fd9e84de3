//! Which MRSs are valid.

ghost use Rattle.std.specs.Prelude.{◌≡◌, ◌↔◌, ◌⊎◌, ◌<◌, ℕ, IsTrue, All, map, length};
ghost use Rattle.std.specs.List.{Any};
ghost use Rattle.std.specs.String.{string_bytes};
ghost use Rattle.std.specs.declared.cmp.Ordering.TheVariants.{Less};
ghost use Rattle.std.specs.Cmp.Lexicographic.{slice_cmp};
ghost use Rattle.std.specs.Ordering.{nat_cmp};
ghost use Rattle.mrs_model.specs.Meanings.{of_var};
ghost use Rattle.mrs_model.specs.Valid.{Rise, IsProperty, IsVariable, IsFiller, IsArgument, IsPredication, IsConstraint, StandsIn, IsEnd, Stands, IsValid};
ghost use Rattle.mrs_model.specs.Views.{property_of, variable_of, argument_of, filler_of, predication_of, hcon_of, icon_of, meaning_of};
ghost use Rattle.mrs_model.specs.Texts.{IsSort, IsPred};

use crate::texts::is_name;
use crate::{Ep, Hcon, Icon, Mrs, Prop, Role, Value, Var};

impl Mrs {
    /// Whether the MRS is valid: properties and roles in byte order without repeats, each number of a variable a place in `vars`, each variable
    /// standing somewhere, and sorts, names and predicates of the forms that SimpleMRS gives them. Takes no memory.
    pub fn valid(&self) -> bool
        ensures { IsTrue result ↔ IsValid (meaning_of self.now) }
    {
        let vars = self.vars.len();
        if self.top as usize >= vars || self.index as usize >= vars {
            return false;
        }
        if !are_variables(&self.vars) || !are_predications(&self.eps, vars) {
            return false;
        }
        if !are_hcons(&self.hcons, vars) || !are_icons(&self.icons, vars) {
            return false;
        }
        all_stand(self)
    }
}

// Whether a text is one or more lower-case ASCII letters.
fn is_sort(text: &str) -> bool
    ensures { IsTrue result ↔ IsSort text.now }
{
    !text.is_empty() && text.as_bytes().iter().all(|b| b.is_ascii_lowercase())
}

// Whether a predicate is in ASCII lower case and doesn't end with `_rel`.
fn is_pred(text: &str) -> bool
    ensures { IsTrue result ↔ IsPred text.now }
{
    !text.ends_with("_rel") && text.as_bytes().iter().all(|b| !b.is_ascii_uppercase())
}

// Whether a text comes before another in byte order.
fn before(text: &String, other: &String) -> bool
    ensures { IsTrue result ↔ (slice_cmp nat_cmp (string_bytes text.now) (string_bytes other.now) ≡ Less) }
{
    text < other
}

fn props_rise(props: &[Prop]) -> bool
    ensures { IsTrue result ↔ Rise (map (λ p. p.name) (map property_of props.now)) }
{
    for k in 1..props.len() {
        if !before(&props[k - 1].name, &props[k].name) {
            return false;
        }
    }
    true
}

fn roles_rise(roles: &[Role]) -> bool
    ensures { IsTrue result ↔ Rise (map (λ a. a.role) (map argument_of roles.now)) }
{
    for k in 1..roles.len() {
        if !before(&roles[k - 1].name, &roles[k].name) {
            return false;
        }
    }
    true
}

fn is_property(prop: &Prop) -> bool
    ensures { IsTrue result ↔ IsProperty (property_of prop.now) }
{
    is_name(&prop.name) && is_name(&prop.value)
}

fn are_properties(props: &[Prop]) -> bool
    ensures { IsTrue result ↔ All IsProperty (map property_of props.now) }
{
    props.iter().all(|p| is_property(p))
}

fn is_variable(var: &Var) -> bool
    ensures { IsTrue result ↔ IsVariable (variable_of var.now) }
{
    if !is_sort(&var.sort) {
        return false;
    }
    are_properties(&var.props) && props_rise(&var.props)
}

fn are_variables(vars: &[Var]) -> bool
    ensures { IsTrue result ↔ All IsVariable (map variable_of vars.now) }
{
    vars.iter().all(|v| is_variable(v))
}

fn is_filler(value: &Value, vars: usize) -> bool
    ensures { IsTrue result ↔ IsFiller vars (filler_of value.now) }
{
    match value {
        Value::Var(v) => (*v as usize) < vars,
        Value::Text(_) => true,
    }
}

fn is_argument(role: &Role, vars: usize) -> bool
    ensures { IsTrue result ↔ IsArgument vars (argument_of role.now) }
{
    is_name(&role.name) && role.name.as_str() != "lbl" && is_filler(&role.value, vars)
}

fn are_arguments(roles: &[Role], vars: usize) -> bool
    ensures { IsTrue result ↔ All (IsArgument vars) (map argument_of roles.now) }
{
    roles.iter().all(|r| is_argument(r, vars))
}

fn is_predication(ep: &Ep, vars: usize) -> bool
    ensures { IsTrue result ↔ IsPredication vars (predication_of ep.now) }
{
    if !is_pred(&ep.pred) || ep.label as usize >= vars {
        return false;
    }
    are_arguments(&ep.roles, vars) && roles_rise(&ep.roles)
}

fn are_predications(eps: &[Ep], vars: usize) -> bool
    ensures { IsTrue result ↔ All (IsPredication vars) (map predication_of eps.now) }
{
    eps.iter().all(|e| is_predication(e, vars))
}

fn is_hcon(hcon: &Hcon, vars: usize) -> bool
    ensures { IsTrue result ↔ IsConstraint vars (hcon_of hcon.now) }
{
    (hcon.high as usize) < vars && is_name(&hcon.rel) && (hcon.low as usize) < vars
}

fn are_hcons(hcons: &[Hcon], vars: usize) -> bool
    ensures { IsTrue result ↔ All (IsConstraint vars) (map hcon_of hcons.now) }
{
    hcons.iter().all(|h| is_hcon(h, vars))
}

fn is_icon(icon: &Icon, vars: usize) -> bool
    ensures { IsTrue result ↔ IsConstraint vars (icon_of icon.now) }
{
    (icon.left as usize) < vars && is_name(&icon.rel) && (icon.right as usize) < vars
}

fn are_icons(icons: &[Icon], vars: usize) -> bool
    ensures { IsTrue result ↔ All (IsConstraint vars) (map icon_of icons.now) }
{
    icons.iter().all(|i| is_icon(i, vars))
}

fn fills(role: &Role, v: usize) -> bool
    ensures { IsTrue result ↔ ((argument_of role.now).filler ≡ of_var v) }
{
    match role.value {
        Value::Var(w) => w as usize == v,
        Value::Text(_) => false,
    }
}

fn fills_some(roles: &[Role], v: usize) -> bool
    ensures { IsTrue result ↔ Any (λ a. a.filler ≡ of_var v) (map argument_of roles.now) }
{
    for k in 0..roles.len() {
        if fills(&roles[k], v) {
            return true;
        }
    }
    false
}

fn stands_in(ep: &Ep, v: usize) -> bool
    ensures { IsTrue result ↔ StandsIn v (predication_of ep.now) }
{
    if ep.label as usize == v {
        return true;
    }
    fills_some(&ep.roles, v)
}

fn in_some_ep(eps: &[Ep], v: usize) -> bool
    ensures { IsTrue result ↔ Any (StandsIn v) (map predication_of eps.now) }
{
    for k in 0..eps.len() {
        if stands_in(&eps[k], v) {
            return true;
        }
    }
    false
}

fn ends_hcon(hcon: &Hcon, v: usize) -> bool
    ensures { IsTrue result ↔ IsEnd v (hcon_of hcon.now) }
{
    hcon.high as usize == v || hcon.low as usize == v
}

fn ends_some_hcon(hcons: &[Hcon], v: usize) -> bool
    ensures { IsTrue result ↔ Any (IsEnd v) (map hcon_of hcons.now) }
{
    for k in 0..hcons.len() {
        if ends_hcon(&hcons[k], v) {
            return true;
        }
    }
    false
}

fn ends_icon(icon: &Icon, v: usize) -> bool
    ensures { IsTrue result ↔ IsEnd v (icon_of icon.now) }
{
    icon.left as usize == v || icon.right as usize == v
}

fn ends_some_icon(icons: &[Icon], v: usize) -> bool
    ensures { IsTrue result ↔ Any (IsEnd v) (map icon_of icons.now) }
{
    for k in 0..icons.len() {
        if ends_icon(&icons[k], v) {
            return true;
        }
    }
    false
}

// Whether a variable stands in some element.
fn in_some_element(mrs: &Mrs, v: usize) -> bool
    ensures { IsTrue result ↔ (Any (StandsIn v) (meaning_of mrs.now).eps ⊎ (Any (IsEnd v) (meaning_of mrs.now).hcons ⊎ Any (IsEnd v) (meaning_of mrs.now).icons)) }
{
    if in_some_ep(&mrs.eps, v) {
        return true;
    }
    if ends_some_hcon(&mrs.hcons, v) {
        return true;
    }
    ends_some_icon(&mrs.icons, v)
}

fn stands(mrs: &Mrs, v: usize) -> bool
    ensures { IsTrue result ↔ Stands (meaning_of mrs.now) v }
{
    if mrs.top as usize == v || mrs.index as usize == v {
        return true;
    }
    in_some_element(mrs, v)
}

// Whether each variable stands somewhere.
fn all_stand(mrs: &Mrs) -> bool
    ensures { IsTrue result ↔ ((v : ℕ) → v < length (meaning_of mrs.now).vars → Stands (meaning_of mrs.now) v) }
{
    for v in 0..mrs.vars.len() {
        if !stands(mrs, v) {
            return false;
        }
    }
    true
}
