//! Elements, from their features.

ghost use Rattle.std.specs.Prelude.{◌≡◌, ◌≢◌, ◌++◌, ◌∷◌, [], ◌<◌, ◌≤◌, ◌-◌, ℕ, Bool, List, Err, Some, None, All, IsTrue, IfOk, OnOk, length, map, slice_index_or};
ghost use Rattle.std.specs.Cmp.Lexicographic.{slice_cmp};
ghost use Rattle.std.specs.List.{slice_get};
ghost use Rattle.std.specs.Ordering.{nat_cmp};
ghost use Rattle.std.specs.String.{string_bytes};
ghost use Rattle.mrs_model.specs.Texts.{IsName};
ghost use Rattle.mrs_model.specs.Views.{filler_of};
ghost use Rattle.mrs_reading.specs.Inner.Tables.{IsAdded};
ghost use Rattle.tdl_reader.specs.Views.{term_of};
ghost use Rattle.tdl_reader.specs.Trees.{of_coref};
ghost use Rattle.transfer_rules.specs.Features.{Feature as WrittenFeature, DifferInName, IsCorefName, IsElementForm, IsFeature, IsFiller, IsRoleValue, coref_of, corefs_in, each_once, pred_in};
ghost use Rattle.transfer_rules.specs.Inner.Views.{feature_of};
ghost use Rattle.transfer_rules.specs.Inner.Drafts.{HasRole, IsDraft, draft_of, names_seen, no_draft, with_label, with_pred};

use crate::coreferences::{is_coref_name, number};
use crate::fault::Refusal;
use crate::features::{Feature, differ_in_name};
use crate::terms::{coref_in, pred_in, text_in};
use mrs_model::{Role, Value, is_name};
use std::alloc::Global;
use std::cmp::Ordering;
use tdl_reader::Term;

/// What the features of an element say: its predicate as it is written, the coreference of its label, and its roles in byte order of their names.
#[derive(Drop)]
pub(crate) struct Draft<'a> {
    pub pred: Option<&'a str>,
    pub label: Option<u32>,
    pub roles: Vec<Role>,
}

// Whether the name of a role is greater than another one.
fn is_greater(role: &Role, name: &str) -> bool
    ensures greater { IsTrue result → slice_cmp nat_cmp (string_bytes role.now.name) name.now ≡ Ordering.Greater }
    ensures not { slice_cmp nat_cmp (string_bytes role.now.name) name.now ≡ Ordering.Greater → IsTrue result }
{
    role.name.as_str() > name
}

// The place behind the roles whose names aren't greater, after which all are.
fn place_of(roles: &[Role], role: &Role) -> usize
    ensures within { result ≤ length roles.now }
    ensures before { 0 < result → slice_cmp nat_cmp (string_bytes (slice_index_or roles.now (result - 1) role.now).name) (string_bytes role.now.name) ≢ Ordering.Greater }
    ensures after { (k : ℕ) → result ≤ k → k < length roles.now → slice_cmp nat_cmp (string_bytes (slice_index_or roles.now k role.now).name) (string_bytes role.now.name) ≡ Ordering.Greater }
{
    let mut at = roles.len();
    while at > 0 {
        if !is_greater(&roles[at - 1], role.name.as_str()) {
            return at;
        }
        at -= 1;
    }
    0
}

// Adds a role behind those whose names aren't greater.
fn add_role(roles: &mut Vec<Role>, role: Role) -> Result<(), Refusal>
    ensures some { OnOk result (IsAdded (λ r. string_bytes r.name) roles.old.items role roles.new.items) }
    ensures full { result ≢ Err Refusal.Form }
{
    let at = place_of(roles, &role);
    roles.insert(at, role)?;
    Ok(())
}

// The coreference that a value is, if its name is letters and digits.
fn coreference<'a>(value: &'a Term) -> Result<&'a str, Refusal>
    ensures some { IfOk result (λ name. (at : ℕ) × (term_of value.now ≡ of_coref name.now at) × IsCorefName name.now) }
    ensures none { result ≡ Err Refusal.Form → (name : List ℕ) (at : ℕ) → term_of value.now ≡ of_coref name at → IsCorefName name → ⊥ }
{
    match coref_in(value) {
        Some(name) if is_coref_name(name) => Ok(name),
        _ => Err(Refusal::Form),
    }
}

// What fills a role: a string, or the number of a coreference.
fn filler<'a>(alloc: Global, names: &mut Vec<&'a str>, value: &'a Term) -> Result<Value, Refusal>
    ensures names { OnOk result (names_seen names.new ≡ names_seen names.old ++ each_once (names_seen names.old) (coref_of (term_of value.now))) }
    ensures some { IfOk result (λ v. IsFiller (names_seen names.new) (term_of value.now) (filler_of v)) }
    ensures form { OnOk result (IsRoleValue (term_of value.now)) }
    ensures none { result ≡ Err Refusal.Form → IsRoleValue (term_of value.now) → ⊥ }
{
    match text_in(value) {
        Some(text) => Ok(Value::Text(String::from_str(alloc, text)?)),
        None => {
            let name = coreference(value)?;
            Ok(Value::Var(number(names, name)?))
        }
    }
}

impl<'a> Draft<'a> {
    fn new(alloc: Global) -> Draft<'a>
        ensures { draft_of result ≡ no_draft }
    {
        Draft {
            pred: None,
            label: None,
            roles: Vec::new(alloc),
        }
    }

    // Takes the predicate.
    fn take_pred(&mut self, value: &'a Term) -> Result<(), Refusal>
        ensures some { OnOk result ((text : List ℕ) × (pred_in (term_of value.now) ≡ Some text) × (draft_of self.new ≡ with_pred text (draft_of self.old))) }
        ensures none { result ≡ Err Refusal.Form → pred_in (term_of value.now) ≡ None }
    {
        match pred_in(value) {
            Some(text) => {
                self.pred = Some(text);
                Ok(())
            }
            None => Err(Refusal::Form),
        }
    }

    // Takes the label.
    fn take_label(&mut self, names: &mut Vec<&'a str>, value: &'a Term) -> Result<(), Refusal>
        ensures some { OnOk result ((name : List ℕ) × (at : ℕ) × (term_of value.now ≡ of_coref name at) × IsCorefName name
            × (names_seen names.new ≡ names_seen names.old ++ each_once (names_seen names.old) (name ∷ []))
            × ((c : ℕ) × (slice_get (names_seen names.new) c ≡ Some name) × (draft_of self.new ≡ with_label c (draft_of self.old)))) }
        ensures none { result ≡ Err Refusal.Form → (name : List ℕ) (at : ℕ) → term_of value.now ≡ of_coref name at → IsCorefName name → ⊥ }
    {
        let name = coreference(value)?;
        self.label = Some(number(names, name)?);
        Ok(())
    }

    // Takes a role.
    fn take_role(
        &mut self,
        alloc: Global,
        names: &mut Vec<&'a str>,
        feature: &Feature<'a>,
    ) -> Result<(), Refusal>
        ensures names { OnOk result (names_seen names.new ≡ names_seen names.old ++ each_once (names_seen names.old) (coref_of (feature_of feature.now).value)) }
        ensures some { OnOk result (HasRole (names_seen names.new) (feature_of feature.now) (draft_of self.old) (draft_of self.new)) }
        ensures form { OnOk result (IsRoleValue (feature_of feature.now).value × IsName (feature_of feature.now).name) }
        ensures none { result ≡ Err Refusal.Form → IsRoleValue (feature_of feature.now).value → IsName (feature_of feature.now).name → ⊥ }
    {
        if !is_name(feature.name) {
            return Err(Refusal::Form);
        }
        let value = filler(alloc, names, feature.value)?;
        let name = String::from_str(alloc, feature.name)?;
        add_role(&mut self.roles, Role { name, value })
    }

    // Takes a feature.
    fn take(
        &mut self,
        alloc: Global,
        names: &mut Vec<&'a str>,
        feature: &Feature<'a>,
    ) -> Result<(), Refusal>
        ensures names { OnOk result (names_seen names.new ≡ names_seen names.old ++ each_once (names_seen names.old) (coref_of (feature_of feature.now).value)) }
        ensures some { OnOk result ((fs : List WrittenFeature) → IsDraft (names_seen names.old) fs (draft_of self.old) → DifferInName (fs ++ feature_of feature.now ∷ [])
            → IsDraft (names_seen names.new) (fs ++ feature_of feature.now ∷ []) (draft_of self.new)) }
        ensures form { OnOk result (IsFeature (feature_of feature.now)) }
        ensures none { result ≡ Err Refusal.Form → IsFeature (feature_of feature.now) → ⊥ }
    {
        if feature.name == "pred" {
            self.take_pred(feature.value)
        } else if feature.name == "lbl" {
            self.take_label(names, feature.value)
        } else {
            self.take_role(alloc, names, feature)
        }
    }
}

// Takes features.
fn taken<'a>(
    alloc: Global,
    names: &mut Vec<&'a str>,
    features: &[Feature<'a>],
) -> Result<Draft<'a>, Refusal>
    requires { DifferInName (map feature_of features.now) }
    ensures some { IfOk result (λ d. IsDraft (names_seen names.new) (map feature_of features.now) (draft_of d)) }
    ensures names { OnOk result (names_seen names.new ≡ names_seen names.old ++ each_once (names_seen names.old) (corefs_in (map feature_of features.now))) }
    ensures form { OnOk result (All IsFeature (map feature_of features.now)) }
    ensures none { result ≡ Err Refusal.Form → All IsFeature (map feature_of features.now) → ⊥ }
{
    let mut draft = Draft::new(alloc);
    for feature in features {
        draft.take(alloc, names, feature)?;
    }
    Ok(draft)
}

/// What the features of an element say. Its coreferences get numbers where they have none.
pub(crate) fn drafted<'a>(
    alloc: Global,
    names: &mut Vec<&'a str>,
    features: &[Feature<'a>],
) -> Result<Draft<'a>, Refusal>
    ensures some { IfOk result (λ d. IsDraft (names_seen names.new) (map feature_of features.now) (draft_of d)) }
    ensures names { OnOk result (names_seen names.new ≡ names_seen names.old ++ each_once (names_seen names.old) (corefs_in (map feature_of features.now))) }
    ensures few { OnOk result (length features.now ≤ 100) }
    ensures once { OnOk result (DifferInName (map feature_of features.now)) }
    ensures each { OnOk result (All IsFeature (map feature_of features.now)) }
    ensures none { result ≡ Err Refusal.Form → (in_output : Bool) → IsElementForm in_output (map feature_of features.now) → ⊥ }
{
    if features.len() > 100 || !differ_in_name(features) {
        return Err(Refusal::Form);
    }
    taken(alloc, names, features)
}
