//! Whether an elementary predication fits an element.

ghost use Rattle.std.specs.Prelude.{◌≡◌, ◌≢◌, ◌<◌, ℕ, List, length, map, slice_index, Some, IfOk, IfSome, IfNone, string_bytes, All, Contains};
ghost use Rattle.std.specs.Bool.{OnTrue, OnFalse};
ghost use Rattle.std.specs.List.{Any};
ghost use Rattle.mrs_model.specs.Meanings.{of_var};
ghost use Rattle.mrs_model.specs.Views.{variable_of, argument_of, predication_of, filler_of};
ghost use Rattle.mrs_model.specs.Renaming.{renamed_argument, renamed_filler};
ghost use Rattle.mrs_model.specs.Valid.{IsArgument, IsFiller, IsPredication, Rise};
ghost use Rattle.transfer_model.specs.Rules.{IsElement, StandsAt};
ghost use Rattle.transfer_model.specs.Sites.{Fits};
ghost use Rattle.transfer_model.specs.Views.{element_of};
ghost use Rattle.mrs_transfer.specs.Inner.Matching.{ArePairs, Narrows, Refuses};

use crate::NoMemory;
use crate::bound::{Pair, bind};
use mrs_model::{Ep, Role, Value, Var};
use transfer_model::Element;

// Fills what an element writes for a role with what is there. False comes only where it isn't that.
fn fill(
    letters: &[String],
    all: &[Var],
    pairs: &mut Vec<Pair>,
    written: &Value,
    there: &Value,
) -> Result<bool, NoMemory>
    requires written { IsFiller (length letters.now) (filler_of written.now) }
    requires there { IsFiller (length all.now) (filler_of there.now) }
    requires pairs { ArePairs (map variable_of all.now) (map string_bytes letters.now) pairs.old.items }
    ensures yes { IfOk result (λ ok. OnTrue ok (Narrows (map variable_of all.now) (map string_bytes letters.now) (λ vars. renamed_filler vars (filler_of written.now) ≡ filler_of there.now) (λ c. filler_of written.now ≡ of_var c) pairs.old.items pairs.new.items)) }
    ensures no { IfOk result (λ ok. OnFalse ok (Refuses (map variable_of all.now) (map string_bytes letters.now) (λ vars. renamed_filler vars (filler_of written.now) ≡ filler_of there.now) pairs.old.items pairs.new.items)) }
{
    match written {
        Value::Var(coref) => match there {
            Value::Var(var) => bind(letters, all, pairs, *coref, *var),
            Value::Text(_) => Ok(false),
        },
        Value::Text(text) => match there {
            Value::Var(_) => Ok(false),
            Value::Text(other) => Ok(text == other),
        },
    }
}

// What fills the role of this name, if there is one.
fn filler_at<'a>(roles: &'a [Role], name: &str) -> Option<&'a Value>
    ensures some { IfSome result (λ v. Contains (map argument_of roles.now) (record { role = name.now; filler = filler_of v.now })) }
    ensures none { IfNone result (All (λ a. a.role ≢ name.now) (map argument_of roles.now)) }
{
    for role in roles {
        if role.name.as_str() == name {
            return Some(&role.value);
        }
    }
    None
}

// Fills the roles that an element writes with what is there. False comes only where one isn't there, or with something else.
fn fill_roles(
    letters: &[String],
    all: &[Var],
    pairs: &mut Vec<Pair>,
    written: &[Role],
    there: &[Role],
) -> Result<bool, NoMemory>
    requires written { All (IsArgument (length letters.now)) (map argument_of written.now) }
    requires there { All (IsArgument (length all.now)) (map argument_of there.now) }
    requires order { Rise (map (λ a. a.role) (map argument_of there.now)) }
    requires pairs { ArePairs (map variable_of all.now) (map string_bytes letters.now) pairs.old.items }
    ensures yes { IfOk result (λ ok. OnTrue ok (Narrows (map variable_of all.now) (map string_bytes letters.now) (λ vars. All (λ a. Contains (map argument_of there.now) (renamed_argument vars a)) (map argument_of written.now)) (λ c. Any (λ a. a.filler ≡ of_var c) (map argument_of written.now)) pairs.old.items pairs.new.items)) }
    ensures no { IfOk result (λ ok. OnFalse ok (Refuses (map variable_of all.now) (map string_bytes letters.now) (λ vars. All (λ a. Contains (map argument_of there.now) (renamed_argument vars a)) (map argument_of written.now)) pairs.old.items pairs.new.items)) }
{
    for role in written {
        let Some(value) = filler_at(there, role.name.as_str()) else {
            return Ok(false);
        };
        if !fill(letters, all, pairs, &role.value, value)? {
            return Ok(false);
        }
    }
    Ok(true)
}

// Gives the coreference of a label, if one is written, the variable that is there. False comes only where it can't have that.
fn fit_label(
    letters: &[String],
    all: &[Var],
    pairs: &mut Vec<Pair>,
    written: Option<u32>,
    there: u32,
) -> Result<bool, NoMemory>
    requires written { IfSome written (λ c. c < length letters.now) }
    requires there { there < length all.now }
    requires pairs { ArePairs (map variable_of all.now) (map string_bytes letters.now) pairs.old.items }
    ensures yes { IfOk result (λ ok. OnTrue ok (Narrows (map variable_of all.now) (map string_bytes letters.now) (λ vars. IfSome written (λ c. slice_index vars c ≡ there)) (λ c. written ≡ Some c) pairs.old.items pairs.new.items)) }
    ensures no { IfOk result (λ ok. OnFalse ok (Refuses (map variable_of all.now) (map string_bytes letters.now) (λ vars. IfSome written (λ c. slice_index vars c ≡ there)) pairs.old.items pairs.new.items)) }
{
    match written {
        None => Ok(true),
        Some(coref) => bind(letters, all, pairs, coref, there),
    }
}

/// Gives the coreferences of an element the variables of an elementary predication that it fits. False comes only where it fits none that has these
/// pairs; then some may have been added.
pub(crate) fn fit(
    letters: &[String],
    all: &[Var],
    pairs: &mut Vec<Pair>,
    element: &Element,
    ep: &Ep,
) -> Result<bool, NoMemory>
    requires element { IsElement (length letters.now) (element_of element.now) }
    requires ep { IsPredication (length all.now) (predication_of ep.now) }
    requires pairs { ArePairs (map variable_of all.now) (map string_bytes letters.now) pairs.old.items }
    ensures yes { IfOk result (λ ok. OnTrue ok (Narrows (map variable_of all.now) (map string_bytes letters.now) (λ vars. Fits vars (element_of element.now) (predication_of ep.now)) (λ c. StandsAt c (element_of element.now)) pairs.old.items pairs.new.items)) }
    ensures no { IfOk result (λ ok. OnFalse ok (Refuses (map variable_of all.now) (map string_bytes letters.now) (λ vars. Fits vars (element_of element.now) (predication_of ep.now)) pairs.old.items pairs.new.items)) }
{
    if element.pred != ep.pred {
        return Ok(false);
    }
    if !fit_label(letters, all, pairs, element.label, ep.label)? {
        return Ok(false);
    }
    let filled = fill_roles(letters, all, pairs, &element.roles, &ep.roles)?;
    Ok(filled)
}
