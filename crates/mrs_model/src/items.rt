//! Elements of an MRS, and what two of them have in common under a map of variables.

ghost use Rattle.std.specs.Prelude.{◌≡◌, ℕ, length, map, IfOk, List};
ghost use Rattle.std.specs.Bool.{OnTrue, OnFalse};
ghost use Rattle.mrs_model.specs.Views.{variable_of};
ghost use Rattle.mrs_model.specs.Renaming.{IsVariableMap};
ghost use Rattle.mrs_model.specs.Inner.Bindings.{Agrees, IsGrown};
ghost use Rattle.mrs_model.specs.Inner.Elements.{renamed};
ghost use Rattle.mrs_model.specs.Inner.Items.{of_item, of_ep, of_hcon, of_icon};
ghost use Rattle.mrs_model.specs.Inner.Search.{IsJoinedElement};
ghost use Rattle.mrs_model.specs.Inner.State.{IsOfVars};

use crate::bindings::Bindings;
use crate::join::{Vars, join_roles};
use crate::{Ep, Hcon, Icon, NoMemory};

/// An element of an MRS.
#[derive(Clone, Copy)]
pub(crate) enum Item<'a> {
    Ep(&'a Ep),
    Hcon(&'a Hcon),
    Icon(&'a Icon),
}

impl<'a> Item<'a> {
    /// Binds the variables of two elements, where they are alike. False comes only where no map of variables that has all pairs makes the one
    /// of the other; then some variables may have been bound.
    pub(crate) fn join(
        self,
        other: Item<'a>,
        vars: Vars<'a>,
        bound: &mut Bindings,
    ) -> Result<bool, NoMemory>
        requires here { IsOfVars (length vars.left.now) (of_item self) }
        requires there { IsOfVars (length vars.left.now) (of_item other) }
        requires even { length vars.right.now ≡ length vars.left.now }
        requires size { bound.old.size ≡ length vars.left.now }
        ensures size { bound.new.size ≡ bound.old.size }
        ensures grown { IsGrown (map variable_of vars.entry.left.now) (map variable_of vars.entry.right.now) bound.old.pairs bound.new.pairs }
        ensures told { (to : List ℕ) → IsVariableMap (map variable_of vars.entry.left.now) (map variable_of vars.entry.right.now) to
            → Agrees to bound.old.pairs → renamed to (of_item self.entry) ≡ of_item other.entry → Agrees to bound.new.pairs }
        ensures yes { IfOk result (λ ok. OnTrue ok (IsJoinedElement bound.new.pairs (of_item self.entry) (of_item other.entry))) }
        ensures no { IfOk result (λ ok. OnFalse ok ((to : List ℕ) → IsVariableMap (map variable_of vars.entry.left.now) (map variable_of vars.entry.right.now) to
            → Agrees to bound.old.pairs → renamed to (of_item self.entry) ≡ of_item other.entry → ⊥)) }
    {
        match self {
            Item::Ep(x) => match other {
                Item::Ep(y) => join_eps(x, y, vars, bound),
                _ => Ok(false),
            },
            Item::Hcon(x) => match other {
                Item::Hcon(y) => join_hcons(x, y, vars, bound),
                _ => Ok(false),
            },
            Item::Icon(x) => match other {
                Item::Icon(y) => join_icons(x, y, vars, bound),
                _ => Ok(false),
            },
        }
    }
}

/// Joins two elementary predications.
fn join_eps(x: &Ep, y: &Ep, vars: Vars<'_>, bound: &mut Bindings) -> Result<bool, NoMemory>
    requires here { IsOfVars (length vars.left.now) (of_ep x.now) }
    requires there { IsOfVars (length vars.left.now) (of_ep y.now) }
    requires even { length vars.right.now ≡ length vars.left.now }
    requires size { bound.old.size ≡ length vars.left.now }
    ensures size { bound.new.size ≡ bound.old.size }
    ensures grown { IsGrown (map variable_of vars.entry.left.now) (map variable_of vars.entry.right.now) bound.old.pairs bound.new.pairs }
    ensures told { (to : List ℕ) → IsVariableMap (map variable_of vars.entry.left.now) (map variable_of vars.entry.right.now) to
        → Agrees to bound.old.pairs → renamed to (of_ep x.now) ≡ of_ep y.now → Agrees to bound.new.pairs }
    ensures yes { IfOk result (λ ok. OnTrue ok (IsJoinedElement bound.new.pairs (of_ep x.now) (of_ep y.now))) }
    ensures no { IfOk result (λ ok. OnFalse ok ((to : List ℕ) → IsVariableMap (map variable_of vars.entry.left.now) (map variable_of vars.entry.right.now) to
        → Agrees to bound.old.pairs → renamed to (of_ep x.now) ≡ of_ep y.now → ⊥)) }
{
    if x.pred != y.pred {
        return Ok(false);
    }
    if !vars.bind(x.label, y.label, bound)? {
        return Ok(false);
    }
    if !join_roles(&x.roles, &y.roles, vars, bound)? {
        return Ok(false);
    }
    Ok(true)
}

/// Joins two handle constraints.
fn join_hcons(x: &Hcon, y: &Hcon, vars: Vars<'_>, bound: &mut Bindings) -> Result<bool, NoMemory>
    requires here { IsOfVars (length vars.left.now) (of_hcon x.now) }
    requires there { IsOfVars (length vars.left.now) (of_hcon y.now) }
    requires even { length vars.right.now ≡ length vars.left.now }
    requires size { bound.old.size ≡ length vars.left.now }
    ensures size { bound.new.size ≡ bound.old.size }
    ensures grown { IsGrown (map variable_of vars.entry.left.now) (map variable_of vars.entry.right.now) bound.old.pairs bound.new.pairs }
    ensures told { (to : List ℕ) → IsVariableMap (map variable_of vars.entry.left.now) (map variable_of vars.entry.right.now) to
        → Agrees to bound.old.pairs → renamed to (of_hcon x.now) ≡ of_hcon y.now → Agrees to bound.new.pairs }
    ensures yes { IfOk result (λ ok. OnTrue ok (IsJoinedElement bound.new.pairs (of_hcon x.now) (of_hcon y.now))) }
    ensures no { IfOk result (λ ok. OnFalse ok ((to : List ℕ) → IsVariableMap (map variable_of vars.entry.left.now) (map variable_of vars.entry.right.now) to
        → Agrees to bound.old.pairs → renamed to (of_hcon x.now) ≡ of_hcon y.now → ⊥)) }
{
    if x.rel != y.rel {
        return Ok(false);
    }
    if !vars.bind(x.high, y.high, bound)? {
        return Ok(false);
    }
    if !vars.bind(x.low, y.low, bound)? {
        return Ok(false);
    }
    Ok(true)
}

/// Joins two individual constraints.
fn join_icons(x: &Icon, y: &Icon, vars: Vars<'_>, bound: &mut Bindings) -> Result<bool, NoMemory>
    requires here { IsOfVars (length vars.left.now) (of_icon x.now) }
    requires there { IsOfVars (length vars.left.now) (of_icon y.now) }
    requires even { length vars.right.now ≡ length vars.left.now }
    requires size { bound.old.size ≡ length vars.left.now }
    ensures size { bound.new.size ≡ bound.old.size }
    ensures grown { IsGrown (map variable_of vars.entry.left.now) (map variable_of vars.entry.right.now) bound.old.pairs bound.new.pairs }
    ensures told { (to : List ℕ) → IsVariableMap (map variable_of vars.entry.left.now) (map variable_of vars.entry.right.now) to
        → Agrees to bound.old.pairs → renamed to (of_icon x.now) ≡ of_icon y.now → Agrees to bound.new.pairs }
    ensures yes { IfOk result (λ ok. OnTrue ok (IsJoinedElement bound.new.pairs (of_icon x.now) (of_icon y.now))) }
    ensures no { IfOk result (λ ok. OnFalse ok ((to : List ℕ) → IsVariableMap (map variable_of vars.entry.left.now) (map variable_of vars.entry.right.now) to
        → Agrees to bound.old.pairs → renamed to (of_icon x.now) ≡ of_icon y.now → ⊥)) }
{
    if x.rel != y.rel {
        return Ok(false);
    }
    if !vars.bind(x.left, y.left, bound)? {
        return Ok(false);
    }
    if !vars.bind(x.right, y.right, bound)? {
        return Ok(false);
    }
    Ok(true)
}
