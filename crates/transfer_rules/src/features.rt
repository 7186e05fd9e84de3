//! Feature terms, and lists of them.

ghost use Rattle.std.specs.Prelude.{ℕ, List, ◌≡◌, ◌∷◌, [], ◌↔◌, IsTrue, Err, None, Some, not, is_some, IfOk, IfSome, IfNone, map};
ghost use Rattle.std.specs.Option.{option_map};
ghost use Rattle.std.specs.String.{string_bytes};
ghost use Rattle.tdl_reader.specs.Trees.{attrs_of, items_of};
ghost use Rattle.tdl_reader.specs.Views.{attr_of, body_in, term_of};
ghost use Rattle.transfer_rules.specs.Features.{DifferInName, features_in, features_of, elements_in, elements_of};
ghost use Rattle.transfer_rules.specs.Forms.{value_at};
ghost use Rattle.transfer_rules.specs.Inner.Terms.{feature_by};
ghost use Rattle.transfer_rules.specs.Inner.Views.{feature_of, features_seen};

use crate::fault::Refusal;
use crate::terms::{attrs_in, items_in};
use std::alloc::Global;
use tdl_reader::{Attr, Body, Term};

/// A feature, written as a single name, and its value, a single term.
#[derive(Clone, Copy)]
pub(crate) struct Feature<'a> {
    pub name: &'a str,
    pub value: &'a Term,
}

// The only term of a list.
fn only_term<'a>(terms: &'a [Term]) -> Option<&'a Term>
    ensures some { IfSome result (λ x. terms.now ≡ x.now ∷ []) }
    ensures none { IfNone result ((x : Term) → terms.now ≡ x ∷ [] → ⊥) }
{
    if terms.len() == 1 {
        terms.first()
    } else {
        None
    }
}

// The only name of a path.
fn only_name<'a>(path: &'a [String]) -> Option<&'a String>
    ensures some { IfSome result (λ x. path.now ≡ x.now ∷ []) }
    ensures none { IfNone result ((x : List ℕ) → map string_bytes path.now ≡ x ∷ [] → ⊥) }
{
    if path.len() == 1 { path.first() } else { None }
}

// The feature that an attribute is, if it is a single name with a single term.
#[tactic(auto, using(crate::proofs::Shapes::no_name, crate::proofs::Shapes::no_value))]
fn feature_by<'a>(attr: &'a Attr) -> Option<Feature<'a>>
    ensures { option_map feature_of result ≡ feature_by (attr_of attr.now) }
{
    let name = only_name(&attr.path)?;
    let value = only_term(&attr.body.terms)?;
    Some(Feature {
        name: name.as_str(),
        value,
    })
}

// The features that attributes are.
fn features_in<'a>(alloc: Global, attrs: &'a [Attr]) -> Result<Vec<Feature<'a>>, Refusal>
    ensures some { IfOk result (λ fs. features_in (attrs_of (map attr_of attrs.now)) ≡ Some (map feature_of fs.items)) }
    ensures none { result ≡ Err Refusal.Form → features_in (attrs_of (map attr_of attrs.now)) ≡ None }
{
    let mut features = Vec::new(alloc);
    for attr in attrs {
        match feature_by(attr) {
            Some(feature) => features.push(feature)?,
            None => return Err(Refusal::Form),
        }
    }
    Ok(features)
}

/// The features of a body that is one feature term.
#[tactic(auto, using(crate::proofs::Shapes::of_attrs, crate::proofs::Shapes::no_attrs_in, crate::proofs::Shapes::not_one_term))]
pub(crate) fn features_of<'a>(alloc: Global, body: &'a Body) -> Result<Vec<Feature<'a>>, Refusal>
    ensures some { IfOk result (λ fs. features_of (body_in body.now) ≡ Some (map feature_of fs.items)) }
    ensures none { result ≡ Err Refusal.Form → features_of (body_in body.now) ≡ None }
{
    match only_term(&body.terms) {
        Some(term) => match attrs_in(term) {
            Some(attrs) => features_in(alloc, attrs),
            None => Err(Refusal::Form),
        },
        None => Err(Refusal::Form),
    }
}

// The elements that the items of a list are.
fn elements_in<'a>(alloc: Global, items: &'a [Body]) -> Result<Vec<Vec<Feature<'a>>>, Refusal>
    ensures some { IfOk result (λ xs. elements_in (items_of (map body_in items.now)) ≡ Some (map features_seen xs.items)) }
    ensures none { result ≡ Err Refusal.Form → elements_in (items_of (map body_in items.now)) ≡ None }
{
    let mut elements = Vec::new(alloc);
    for item in items {
        elements.push(features_of(alloc, item)?)?;
    }
    Ok(elements)
}

/// The elements of a closed list of feature terms.
#[tactic(auto, using(crate::proofs::Shapes::of_items, crate::proofs::Shapes::no_items_in))]
pub(crate) fn elements_of<'a>(
    alloc: Global,
    value: &'a Term,
) -> Result<Vec<Vec<Feature<'a>>>, Refusal>
    ensures some { IfOk result (λ xs. elements_of (term_of value.now) ≡ Some (map features_seen xs.items)) }
    ensures none { result ≡ Err Refusal.Form → elements_of (term_of value.now) ≡ None }
{
    match items_in(value) {
        Some(items) => elements_in(alloc, items),
        None => Err(Refusal::Form),
    }
}

/// The value of the first feature of this name.
pub(crate) fn value_at<'a>(name: &str, features: &[Feature<'a>]) -> Option<&'a Term>
    ensures { option_map (λ x. term_of x.now) result ≡ value_at name.now (map feature_of features.now) }
{
    for feature in features {
        if feature.name == name {
            return Some(feature.value);
        }
    }
    None
}

// Whether none of the features has this name.
fn none_has(features: &[Feature<'_>], name: &str) -> bool
    ensures { result ≡ not (is_some (value_at name.now (map feature_of features.now))) }
{
    value_at(name, features).is_none()
}

/// Whether no name stands twice.
#[tactic(auto, using(crate::proofs::Stepping::differ_next, crate::proofs::Stepping::differ_over))]
pub(crate) fn differ_in_name(features: &[Feature<'_>]) -> bool
    ensures { IsTrue result ↔ DifferInName (map feature_of features.now) }
{
    for i in 0..features.len() {
        if !none_has(&features[..i], features[i].name) {
            return false;
        }
    }
    true
}
