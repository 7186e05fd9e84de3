//! The parts of a rule, as they are written.

ghost use Rattle.std.specs.Prelude.{◌≡◌, ◌↔◌, ◌≤◌, IsTrue, ℕ, List, Option, Err, None, Some, IfOk, IfSome, IfNone, All, Contains, length, map};
ghost use Rattle.std.specs.Option.{option_map};
ghost use Rattle.tdl_reader.specs.Trees.{BodyTree, defines};
ghost use Rattle.tdl_reader.specs.Views.{body_in, statement_of};
ghost use Rattle.transfer_rules.specs.Features.{Feature as WrittenFeature};
ghost use Rattle.transfer_rules.specs.Forms.{Parts as WrittenParts, IsPart, HasLists, HasParts, AreFew, part_names};
ghost use Rattle.transfer_rules.specs.Inner.Views.{feature_of, elements_seen, parts_of};

use crate::fault::Refusal;
use crate::features::{Feature, differ_in_name, elements_of, features_of, value_at};
use std::alloc::Global;
use tdl_reader::{Body, Statement};

/// The parts of a rule; each element is its features in order of writing.
#[derive(Drop)]
pub(crate) struct Parts<'a> {
    pub name: &'a str,
    pub input: Vec<Vec<Feature<'a>>>,
    pub context: Vec<Vec<Feature<'a>>>,
    pub filter: Option<Vec<Vec<Feature<'a>>>>,
    pub output: Vec<Vec<Feature<'a>>>,
}

// The name and the body of a definition without spelling groups.
#[derive(Clone, Copy)]
struct Definition<'a> {
    name: &'a str,
    body: &'a Body,
}

fn defined_by<'a>(statement: &'a Statement) -> Option<Definition<'a>>
    ensures some { IfSome result (λ d. (at : ℕ) × (statement_of statement.now ≡ defines d.name.now at None (body_in d.body.now))) }
    ensures none { IfNone result ((name : List ℕ) (at : ℕ) (body : BodyTree) → statement_of statement.now ≡ defines name at None body → ⊥) }
{
    match statement {
        Statement::Define {
            name,
            affix: None,
            body,
            ..
        } => Some(Definition {
            name: name.as_str(),
            body,
        }),
        _ => None,
    }
}

// Whether a name is that of a part.
fn is_part_name(name: &str) -> bool
    ensures { IsTrue result ↔ Contains part_names name.now }
{
    name == "input" || name == "context" || name == "filter" || name == "output"
}

// Whether all features are parts.
fn are_part_names(features: &[Feature<'_>]) -> bool
    ensures { IsTrue result ↔ All (λ f. Contains part_names f.name) (map feature_of features.now) }
{
    for feature in features {
        if !is_part_name(feature.name) {
            return false;
        }
    }
    true
}

// The elements of the part of this name, if it is there.
fn part<'a>(
    alloc: Global,
    name: &str,
    features: &[Feature<'a>],
) -> Result<Option<Vec<Vec<Feature<'a>>>>, Refusal>
    ensures some { IfOk result (λ part. IsPart name.now (map feature_of features.now) (option_map elements_seen part)) }
    ensures none { result ≡ Err Refusal.Form → (part : Option (List (List WrittenFeature))) → IsPart name.now (map feature_of features.now) part → ⊥ }
{
    match value_at(name, features) {
        Some(value) => Ok(Some(elements_of(alloc, value)?)),
        None => Ok(None),
    }
}

// The parts that features are.
fn lists<'a>(alloc: Global, name: &'a str, features: &[Feature<'a>]) -> Result<Parts<'a>, Refusal>
    ensures name { IfOk result (λ p. p.name.now ≡ name.now) }
    ensures some { IfOk result (λ p. HasLists (map feature_of features.now) (parts_of p)) }
    ensures none { result ≡ Err Refusal.Form → (p : WrittenParts) → HasLists (map feature_of features.now) p → ⊥ }
{
    let Some(input) = part(alloc, "input", features)? else {
        return Err(Refusal::Form);
    };
    let context = part(alloc, "context", features)?;
    let filter = part(alloc, "filter", features)?;
    let output = part(alloc, "output", features)?;
    Ok(Parts {
        name,
        input,
        context: context.unwrap_or(Vec::new(alloc)),
        filter,
        output: output.unwrap_or(Vec::new(alloc)),
    })
}

// Whether an absent list, or one that is there, has at most 8 elements.
fn at_most_eight(list: &Option<Vec<Vec<Feature<'_>>>>) -> bool
    ensures { IsTrue result ↔ IfSome (option_map elements_seen list.now) (λ xs. length xs ≤ 8) }
{
    match list {
        Some(list) => list.len() <= 8,
        None => true,
    }
}

// Whether the parts have as many elements as they may.
fn are_few(parts: &Parts<'_>) -> bool
    ensures { IsTrue result ↔ AreFew (parts_of parts.now) }
{
    !parts.input.is_empty()
        && parts.input.len() <= 8
        && parts.context.len() <= 8 - parts.input.len()
        && at_most_eight(&parts.filter)
        && parts.output.len() <= 8
}

/// The parts of the rule that a statement says; the forms of the elements are still to be seen to.
pub(crate) fn parts_said<'a>(alloc: Global, statement: &'a Statement) -> Result<Parts<'a>, Refusal>
    ensures some { IfOk result (λ p. HasParts (statement_of statement.now) (parts_of p)) }
    ensures none { result ≡ Err Refusal.Form → (p : WrittenParts) → HasParts (statement_of statement.now) p → ⊥ }
{
    let Some(definition) = defined_by(statement) else {
        return Err(Refusal::Form);
    };
    let features = features_of(alloc, definition.body)?;
    if !are_part_names(&features) || !differ_in_name(&features) {
        return Err(Refusal::Form);
    }
    let parts = lists(alloc, definition.name, &features)?;
    if are_few(&parts) {
        Ok(parts)
    } else {
        Err(Refusal::Form)
    }
}
