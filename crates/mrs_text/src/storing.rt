//! What holds of each MRS of the program by the types of its parts. The functions look at each text, and change nothing.

ghost use Rattle.std.specs.Prelude.{All, map};
ghost use Rattle.mrs_model.specs.Views.{argument_of, filler_of, hcon_of, icon_of, meaning_of, predication_of, property_of, variable_of};
ghost use Rattle.mrs_text.specs.Stored.{IsStored, IsStoredArgument, IsStoredConstraint, IsStoredFiller, IsStoredPredication, IsStoredProperty, IsStoredSpan, IsStoredVariable};

use mrs_model::{Ep, Extent, Hcon, Icon, Mrs, Prop, Role, Value, Var};

fn prop_is_stored(prop: &Prop)
    ensures { IsStoredProperty (property_of prop.now) }
{
    let _name = prop.name.as_str();
    let _value = prop.value.as_str();
}

fn props_are_stored(props: &[Prop])
    ensures { All IsStoredProperty (map property_of props.now) }
{
    for k in 0..props.len() {
        prop_is_stored(&props[k]);
    }
}

fn var_is_stored(var: &Var)
    ensures { IsStoredVariable (variable_of var.now) }
{
    props_are_stored(&var.props);
}

fn vars_are_stored(vars: &[Var])
    ensures { All IsStoredVariable (map variable_of vars.now) }
{
    for k in 0..vars.len() {
        var_is_stored(&vars[k]);
    }
}

fn filler_is_stored(value: &Value)
    ensures { IsStoredFiller (filler_of value.now) }
{
    match value {
        Value::Var(_) => (),
        Value::Text(text) => {
            let _text = text.as_str();
        }
    }
}

fn role_is_stored(role: &Role)
    ensures { IsStoredArgument (argument_of role.now) }
{
    let _name = role.name.as_str();
    filler_is_stored(&role.value);
}

fn roles_are_stored(roles: &[Role])
    ensures { All IsStoredArgument (map argument_of roles.now) }
{
    for k in 0..roles.len() {
        role_is_stored(&roles[k]);
    }
}

fn span_is_stored(span: Option<Extent>)
    ensures { IsStoredSpan span }
{
    if let Some(span) = span {
        let _from = span.from;
        let _to = span.to;
    }
}

fn ep_is_stored(ep: &Ep)
    ensures { IsStoredPredication (predication_of ep.now) }
{
    let _pred = ep.pred.as_str();
    roles_are_stored(&ep.roles);
    span_is_stored(ep.span);
}

fn eps_are_stored(eps: &[Ep])
    ensures { All IsStoredPredication (map predication_of eps.now) }
{
    for k in 0..eps.len() {
        ep_is_stored(&eps[k]);
    }
}

fn hcon_is_stored(hcon: &Hcon)
    ensures { IsStoredConstraint (hcon_of hcon.now) }
{
    let _rel = hcon.rel.as_str();
}

fn hcons_are_stored(hcons: &[Hcon])
    ensures { All IsStoredConstraint (map hcon_of hcons.now) }
{
    for k in 0..hcons.len() {
        hcon_is_stored(&hcons[k]);
    }
}

fn icon_is_stored(icon: &Icon)
    ensures { IsStoredConstraint (icon_of icon.now) }
{
    let _rel = icon.rel.as_str();
}

fn icons_are_stored(icons: &[Icon])
    ensures { All IsStoredConstraint (map icon_of icons.now) }
{
    for k in 0..icons.len() {
        icon_is_stored(&icons[k]);
    }
}

/// Each MRS of the program meets what `written` asks of an MRS beside being valid: its strings are UTF-8, the numbers of its spans have 32 bits, and there
/// are fewer than 2^64 variables. It changes nothing and takes no memory; it looks at each text once.
pub fn stored(mrs: &Mrs)
    ensures { IsStored (meaning_of mrs.now) }
{
    let _many = mrs.vars.len();
    vars_are_stored(&mrs.vars);
    eps_are_stored(&mrs.eps);
    hcons_are_stored(&mrs.hcons);
    icons_are_stored(&mrs.icons);
}
