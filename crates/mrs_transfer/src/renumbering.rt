//! Variables get other numbers.

ghost use Rattle.std.specs.Prelude.{◌≡◌, length, map, All};
ghost use Rattle.mrs_model.specs.Valid.{IsArgument, IsPredication, IsConstraint};
ghost use Rattle.mrs_model.specs.Renaming.{renamed_argument, renamed_constraint};
ghost use Rattle.mrs_model.specs.Views.{argument_of, predication_of, hcon_of, icon_of, meaning_of};
ghost use Rattle.transfer_model.specs.Applying.{IsShaped, renumbered};
ghost use Rattle.mrs_transfer.specs.Inner.Trimming.{IsRenumbered};

use mrs_model::{Ep, Hcon, Icon, Mrs, Role, Value};

// Gives the variable of a role another number.
fn renumber_role(role: &mut Role, to: &[u32])
    requires { IsArgument (length to.now) (argument_of role.old) }
    ensures { argument_of role.new ≡ renamed_argument to.now (argument_of role.old) }
{
    match role.value {
        Value::Var(v) => role.value = Value::Var(to[v as usize]),
        Value::Text(_) => {}
    }
}

fn renumber_roles(roles: &mut [Role], to: &[u32])
    requires { All (IsArgument (length to.now)) (map argument_of roles.old) }
    ensures { map argument_of roles.new ≡ map (renamed_argument to.now) (map argument_of roles.old) }
{
    for role in roles.iter_mut() {
        renumber_role(role, to);
    }
}

fn renumber_ep(ep: &mut Ep, to: &[u32])
    requires { IsPredication (length to.now) (predication_of ep.old) }
    ensures { predication_of ep.new ≡ renumbered to.now (predication_of ep.old) }
{
    ep.label = to[ep.label as usize];
    renumber_roles(&mut ep.roles, to);
}

fn renumber_eps(eps: &mut [Ep], to: &[u32])
    requires { All (IsPredication (length to.now)) (map predication_of eps.old) }
    ensures { map predication_of eps.new ≡ map (renumbered to.now) (map predication_of eps.old) }
{
    for ep in eps.iter_mut() {
        renumber_ep(ep, to);
    }
}

fn renumber_hcon(hcon: &mut Hcon, to: &[u32])
    requires { IsConstraint (length to.now) (hcon_of hcon.old) }
    ensures { hcon_of hcon.new ≡ renamed_constraint to.now (hcon_of hcon.old) }
{
    hcon.high = to[hcon.high as usize];
    hcon.low = to[hcon.low as usize];
}

fn renumber_hcons(hcons: &mut [Hcon], to: &[u32])
    requires { All (IsConstraint (length to.now)) (map hcon_of hcons.old) }
    ensures { map hcon_of hcons.new ≡ map (renamed_constraint to.now) (map hcon_of hcons.old) }
{
    for hcon in hcons.iter_mut() {
        renumber_hcon(hcon, to);
    }
}

fn renumber_icon(icon: &mut Icon, to: &[u32])
    requires { IsConstraint (length to.now) (icon_of icon.old) }
    ensures { icon_of icon.new ≡ renamed_constraint to.now (icon_of icon.old) }
{
    icon.left = to[icon.left as usize];
    icon.right = to[icon.right as usize];
}

fn renumber_icons(icons: &mut [Icon], to: &[u32])
    requires { All (IsConstraint (length to.now)) (map icon_of icons.old) }
    ensures { map icon_of icons.new ≡ map (renamed_constraint to.now) (map icon_of icons.old) }
{
    for icon in icons.iter_mut() {
        renumber_icon(icon, to);
    }
}

/// Gives all variables other numbers, where they stand.
pub(crate) fn renumber(mrs: &mut Mrs, to: &[u32])
    requires shaped { IsShaped (meaning_of mrs.old) }
    requires size { length to.now ≡ length (meaning_of mrs.old).vars }
    ensures renumbered { IsRenumbered to.now (meaning_of mrs.old) (meaning_of mrs.new) }
    ensures vars { mrs.new.vars ≡ mrs.old.vars }
{
    mrs.top = to[mrs.top as usize];
    mrs.index = to[mrs.index as usize];
    renumber_eps(&mut mrs.eps, to);
    renumber_hcons(&mut mrs.hcons, to);
    renumber_icons(&mut mrs.icons, to);
}
