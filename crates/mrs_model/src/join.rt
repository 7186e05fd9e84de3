//! What two MRSs have in common under a map of variables that is being made.

ghost use Rattle.std.specs.Prelude.{◌≡◌, ◌<◌, ◌≤◌, ◌↔◌, ℕ, length, map, slice_index, IfOk, IsTrue, List, All};
ghost use Rattle.std.specs.Bool.{OnTrue, OnFalse};
ghost use Rattle.std.specs.List.{slice_get};
ghost use Rattle.std.specs.String.{string_bytes};
ghost use Rattle.mrs_model.specs.Valid.{IsFiller};
ghost use Rattle.mrs_model.specs.Views.{property_of, variable_of, filler_of, argument_of, predication_of};
ghost use Rattle.mrs_model.specs.Renaming.{IsVariableMap, renamed_filler, renamed_argument};
ghost use Rattle.mrs_model.specs.Inner.Bindings.{Binds, Agrees, IsGrown, IsJoinedFiller, IsJoinedArgument, AreJoinedArguments};

use crate::bindings::Bindings;
use crate::{NoMemory, Prop, Role, Value, Var};

/// The variables of two MRSs, of which there are as many.
#[derive(Clone, Copy)]
pub(crate) struct Vars<'a> {
    pub(crate) left: &'a [Var],
    pub(crate) right: &'a [Var],
}

fn same_prop(x: &Prop, y: &Prop) -> bool
    ensures { IsTrue result ↔ (property_of x.now ≡ property_of y.now) }
{
    x.name == y.name && x.value == y.value
}

#[tactic(auto, using(crate::proofs::Rows::map_same, crate::proofs::Rows::map_at, crate::proofs::Rows::map_length))]
fn same_props(xs: &[Prop], ys: &[Prop]) -> bool
    ensures { IsTrue result ↔ (map property_of xs.now ≡ map property_of ys.now) }
{
    if xs.len() != ys.len() {
        return false;
    }
    for k in 0..xs.len() {
        if !same_prop(&xs[k], &ys[k]) {
            return false;
        }
    }
    true
}

/// Whether two variables have the same sort and properties.
pub(crate) fn same_var(x: &Var, y: &Var) -> bool
    ensures { IsTrue result ↔ (variable_of x.now ≡ variable_of y.now) }
{
    x.sort == y.sort && same_props(&x.props, &y.props)
}

impl<'a> Vars<'a> {
    /// Binds two variables that have the same sort and properties. False comes only where no map of variables has this pair and all others.
    pub(crate) fn bind(self, left: u32, right: u32, bound: &mut Bindings) -> Result<bool, NoMemory>
        requires left_in { left < length self.left.now }
        requires right_in { right < length self.right.now }
        requires even { length self.right.now ≡ length self.left.now }
        requires size { bound.old.size ≡ length self.left.now }
        ensures size { bound.new.size ≡ bound.old.size }
        ensures grown { IsGrown (map variable_of self.entry.left.now) (map variable_of self.entry.right.now) bound.old.pairs bound.new.pairs }
        ensures told { (to : List ℕ) → IsVariableMap (map variable_of self.entry.left.now) (map variable_of self.entry.right.now) to
            → Agrees to bound.old.pairs → slice_index to left ≡ right → Agrees to bound.new.pairs }
        ensures yes { IfOk result (λ ok. OnTrue ok (Binds bound.new.pairs left right)) }
        ensures no { IfOk result (λ ok. OnFalse ok ((to : List ℕ) → IsVariableMap (map variable_of self.entry.left.now) (map variable_of self.entry.right.now) to
            → Agrees to bound.old.pairs → slice_index to left ≡ right → ⊥)) }
    {
        if let Some(other) = bound.right_of(left) {
            return Ok(other == right);
        }
        if same_var(&self.left[left as usize], &self.right[right as usize]) {
            bound.bind(left, right)
        } else {
            Ok(false)
        }
    }
}

/// Binds what fills two roles.
fn join_value(x: &Value, y: &Value, vars: Vars<'_>, bound: &mut Bindings) -> Result<bool, NoMemory>
    requires here { IsFiller (length vars.left.now) (filler_of x.now) }
    requires there { IsFiller (length vars.left.now) (filler_of y.now) }
    requires even { length vars.right.now ≡ length vars.left.now }
    requires size { bound.old.size ≡ length vars.left.now }
    ensures size { bound.new.size ≡ bound.old.size }
    ensures grown { IsGrown (map variable_of vars.entry.left.now) (map variable_of vars.entry.right.now) bound.old.pairs bound.new.pairs }
    ensures told { (to : List ℕ) → IsVariableMap (map variable_of vars.entry.left.now) (map variable_of vars.entry.right.now) to
        → Agrees to bound.old.pairs → renamed_filler to (filler_of x.now) ≡ filler_of y.now → Agrees to bound.new.pairs }
    ensures yes { IfOk result (λ ok. OnTrue ok (IsJoinedFiller bound.new.pairs (filler_of x.now) (filler_of y.now))) }
    ensures no { IfOk result (λ ok. OnFalse ok ((to : List ℕ) → IsVariableMap (map variable_of vars.entry.left.now) (map variable_of vars.entry.right.now) to
        → Agrees to bound.old.pairs → renamed_filler to (filler_of x.now) ≡ filler_of y.now → ⊥)) }
{
    match x {
        Value::Var(v) => match y {
            Value::Var(w) => vars.bind(*v, *w, bound),
            Value::Text(_) => Ok(false),
        },
        Value::Text(s) => match y {
            Value::Var(_) => Ok(false),
            Value::Text(t) => Ok(s == t),
        },
    }
}

/// Binds what fills two roles of one name.
fn join_role(x: &Role, y: &Role, vars: Vars<'_>, bound: &mut Bindings) -> Result<bool, NoMemory>
    requires here { IsFiller (length vars.left.now) (filler_of x.now.value) }
    requires there { IsFiller (length vars.left.now) (filler_of y.now.value) }
    requires even { length vars.right.now ≡ length vars.left.now }
    requires size { bound.old.size ≡ length vars.left.now }
    ensures size { bound.new.size ≡ bound.old.size }
    ensures grown { IsGrown (map variable_of vars.entry.left.now) (map variable_of vars.entry.right.now) bound.old.pairs bound.new.pairs }
    ensures told { (to : List ℕ) → IsVariableMap (map variable_of vars.entry.left.now) (map variable_of vars.entry.right.now) to
        → Agrees to bound.old.pairs → renamed_argument to (argument_of x.now) ≡ argument_of y.now → Agrees to bound.new.pairs }
    ensures yes { IfOk result (λ ok. OnTrue ok (IsJoinedArgument bound.new.pairs (argument_of x.now) (argument_of y.now))) }
    ensures no { IfOk result (λ ok. OnFalse ok ((to : List ℕ) → IsVariableMap (map variable_of vars.entry.left.now) (map variable_of vars.entry.right.now) to
        → Agrees to bound.old.pairs → renamed_argument to (argument_of x.now) ≡ argument_of y.now → ⊥)) }
{
    if x.name != y.name {
        return Ok(false);
    }
    join_value(&x.value, &y.value, vars, bound)
}

/// Binds what fills the roles of two elementary predications.
pub(crate) fn join_roles(
    xs: &[Role],
    ys: &[Role],
    vars: Vars<'_>,
    bound: &mut Bindings,
) -> Result<bool, NoMemory>
    requires here { All (λ r. IsFiller (length vars.left.now) (filler_of r.value)) xs.now }
    requires there { All (λ r. IsFiller (length vars.left.now) (filler_of r.value)) ys.now }
    requires even { length vars.right.now ≡ length vars.left.now }
    requires size { bound.old.size ≡ length vars.left.now }
    ensures size { bound.new.size ≡ bound.old.size }
    ensures grown { IsGrown (map variable_of vars.entry.left.now) (map variable_of vars.entry.right.now) bound.old.pairs bound.new.pairs }
    ensures told { (to : List ℕ) → IsVariableMap (map variable_of vars.entry.left.now) (map variable_of vars.entry.right.now) to
        → Agrees to bound.old.pairs → map (renamed_argument to) (map argument_of xs.now) ≡ map argument_of ys.now → Agrees to bound.new.pairs }
    ensures yes { IfOk result (λ ok. OnTrue ok (AreJoinedArguments bound.new.pairs (map argument_of xs.now) (map argument_of ys.now))) }
    ensures no { IfOk result (λ ok. OnFalse ok ((to : List ℕ) → IsVariableMap (map variable_of vars.entry.left.now) (map variable_of vars.entry.right.now) to
        → Agrees to bound.old.pairs → map (renamed_argument to) (map argument_of xs.now) ≡ map argument_of ys.now → ⊥)) }
{
    if xs.len() != ys.len() {
        return Ok(false);
    }
    for k in 0..xs.len() {
        if !join_role(&xs[k], &ys[k], vars, bound)? {
            return Ok(false);
        }
    }
    Ok(true)
}
