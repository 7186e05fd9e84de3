//! Which variables stand somewhere.

ghost use Rattle.std.specs.Prelude.{◌≡◌, ◌⊎◌, ◌<◌, length, map, IfOk, All};
ghost use Rattle.std.specs.List.{Any};
ghost use Rattle.mrs_model.specs.Meanings.{of_var};
ghost use Rattle.mrs_model.specs.Valid.{IsArgument, IsPredication, IsConstraint, StandsIn, IsEnd, Stands};
ghost use Rattle.mrs_model.specs.Views.{argument_of, predication_of, hcon_of, icon_of, meaning_of};
ghost use Rattle.transfer_model.specs.Applying.{IsShaped};
ghost use Rattle.mrs_transfer.specs.Inner.Trimming.{IsMarked, AreStanding};

use crate::NoMemory;
use mrs_model::{Ep, Hcon, Icon, Mrs, Role, Value};
use std::alloc::Global;

// Marks the variable of a role.
fn mark_role(marks: &mut [bool], role: &Role)
    requires { IsArgument (length marks.old) (argument_of role.now) }
    ensures { IsMarked (λ v. (argument_of role.now).filler ≡ of_var v) marks.old marks.new }
{
    match &role.value {
        Value::Var(v) => marks[*v as usize] = true,
        Value::Text(_) => {}
    }
}

fn mark_roles(marks: &mut [bool], roles: &[Role])
    requires { All (IsArgument (length marks.old)) (map argument_of roles.now) }
    ensures { IsMarked (λ v. Any (λ a. a.filler ≡ of_var v) (map argument_of roles.now)) marks.old marks.new }
{
    for role in roles {
        mark_role(marks, role);
    }
}

fn mark_ep(marks: &mut [bool], ep: &Ep)
    requires { IsPredication (length marks.old) (predication_of ep.now) }
    ensures { IsMarked (λ v. StandsIn v (predication_of ep.now)) marks.old marks.new }
{
    marks[ep.label as usize] = true;
    mark_roles(marks, &ep.roles);
}

fn mark_eps(marks: &mut [bool], eps: &[Ep])
    requires { All (IsPredication (length marks.old)) (map predication_of eps.now) }
    ensures { IsMarked (λ v. Any (StandsIn v) (map predication_of eps.now)) marks.old marks.new }
{
    for ep in eps {
        mark_ep(marks, ep);
    }
}

// Marks the two ends of a constraint.
fn mark_ends(marks: &mut [bool], left: u32, right: u32)
    requires left { left < length marks.old }
    requires right { right < length marks.old }
    ensures { IsMarked (λ v. (left ≡ v) ⊎ (right ≡ v)) marks.old marks.new }
{
    marks[left as usize] = true;
    marks[right as usize] = true;
}

fn mark_hcons(marks: &mut [bool], hcons: &[Hcon])
    requires { All (IsConstraint (length marks.old)) (map hcon_of hcons.now) }
    ensures { IsMarked (λ v. Any (IsEnd v) (map hcon_of hcons.now)) marks.old marks.new }
{
    for hcon in hcons {
        mark_ends(marks, hcon.high, hcon.low);
    }
}

fn mark_icons(marks: &mut [bool], icons: &[Icon])
    requires { All (IsConstraint (length marks.old)) (map icon_of icons.now) }
    ensures { IsMarked (λ v. Any (IsEnd v) (map icon_of icons.now)) marks.old marks.new }
{
    for icon in icons {
        mark_ends(marks, icon.left, icon.right);
    }
}

// Marks the variables that stand somewhere.
fn mark_all(marks: &mut [bool], mrs: &Mrs)
    requires shaped { IsShaped (meaning_of mrs.now) }
    requires size { length marks.old ≡ length (meaning_of mrs.now).vars }
    ensures { IsMarked (Stands (meaning_of mrs.now)) marks.old marks.new }
{
    marks[mrs.top as usize] = true;
    marks[mrs.index as usize] = true;
    mark_eps(marks, &mrs.eps);
    mark_hcons(marks, &mrs.hcons);
    mark_icons(marks, &mrs.icons);
}

/// Which variables stand somewhere.
pub(crate) fn standing(alloc: Global, mrs: &Mrs) -> Result<Vec<bool>, NoMemory>
    requires { IsShaped (meaning_of mrs.now) }
    ensures { IfOk result (λ marks. AreStanding (meaning_of mrs.now) marks.items) }
{
    let mut marks = vec![in alloc; false; mrs.vars.len()]?;
    mark_all(&mut marks, mrs);
    Ok(marks)
}
