//! Keys of elements: numbers that no renaming changes.

ghost use Rattle.std.specs.Prelude.{◌≡◌, map};
ghost use Rattle.mrs_model.specs.Views.{property_of, variable_of, argument_of, filler_of, predication_of, hcon_of, icon_of};
ghost use Rattle.mrs_model.specs.Digest.{key_step, text_key, filler_key, argument_key, arguments_key, ep_key, hcon_key, icon_key, props_key, variable_key};
ghost use Rattle.mrs_model.specs.Inner.Elements.{key_of};
ghost use Rattle.mrs_model.specs.Inner.Items.{of_item};

use crate::items::Item;
use crate::{Ep, Hcon, Icon, Prop, Role, Value, Var};

// One number more in a key.
#[tactic(auto, unfolding(crate::specs::Digest::key_step))]
fn key_step(key: u64, more: u64) -> u64
    ensures { result ≡ key_step key more }
{
    key.wrapping_mul(1_099_511_628_211).wrapping_add(more)
}

fn text_key(key: u64, text: &str) -> u64
    ensures { result ≡ text_key key text.now }
{
    let mut sum = key;
    for byte in text.as_bytes() {
        sum = key_step(sum, u64::from(*byte));
    }
    sum
}

fn value_key(key: u64, value: &Value) -> u64
    ensures { result ≡ filler_key key (filler_of value.now) }
{
    match value {
        Value::Var(_) => key_step(key, 256),
        Value::Text(text) => text_key(key_step(key, 257), text),
    }
}

fn role_key(key: u64, role: &Role) -> u64
    ensures { result ≡ argument_key key (argument_of role.now) }
{
    value_key(text_key(key, &role.name), &role.value)
}

fn roles_key(key: u64, roles: &[Role]) -> u64
    ensures { result ≡ arguments_key key (map argument_of roles.now) }
{
    let mut sum = key;
    for role in roles {
        sum = role_key(sum, role);
    }
    sum
}

/// The key of an elementary predication: of its predicate, its roles' names and its texts.
pub(crate) fn ep_key(ep: &Ep) -> u64
    ensures { result ≡ ep_key (predication_of ep.now) }
{
    roles_key(text_key(1, &ep.pred), &ep.roles)
}

/// The key of a handle constraint: of its relation.
pub(crate) fn hcon_key(hcon: &Hcon) -> u64
    ensures { result ≡ hcon_key (hcon_of hcon.now) }
{
    text_key(2, &hcon.rel)
}

/// The key of an individual constraint: of its relation.
pub(crate) fn icon_key(icon: &Icon) -> u64
    ensures { result ≡ icon_key (icon_of icon.now) }
{
    text_key(3, &icon.rel)
}

fn props_key(key: u64, props: &[Prop]) -> u64
    ensures { result ≡ props_key key (map property_of props.now) }
{
    let mut sum = key;
    for prop in props {
        sum = text_key(text_key(sum, &prop.name), &prop.value);
    }
    sum
}

/// The key of a variable: of its sort and its properties.
pub(crate) fn variable_key(var: &Var) -> u64
    ensures { result ≡ variable_key (variable_of var.now) }
{
    props_key(text_key(4, &var.sort), &var.props)
}

/// The key of an element.
pub(crate) fn key_of(item: Item<'_>) -> u64
    ensures { result ≡ key_of (of_item item.entry) }
{
    match item {
        Item::Ep(ep) => ep_key(ep),
        Item::Hcon(hcon) => hcon_key(hcon),
        Item::Icon(icon) => icon_key(icon),
    }
}
