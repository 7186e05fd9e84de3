//! Rules, from their parts.

ghost use Rattle.std.specs.Prelude.{◌≡◌, ◌≢◌, false, true, Err, All, IfOk, IfSome, OnOk, map};
ghost use Rattle.std.specs.Option.{option_map};
ghost use Rattle.std.specs.String.{string_bytes};
ghost use Rattle.std.specs.Str.{str_to_ascii_lowercase};
ghost use Rattle.mrs_model.specs.Views.{predication_of};
ghost use Rattle.mrs_model.specs.Texts.{IsPred};
ghost use Rattle.mrs_reading.specs.Meaning.{Normal};
ghost use Rattle.transfer_model.specs.Views.{element_of, rule_of, IsHeld};
ghost use Rattle.transfer_rules.specs.Features.{IsElementForm, IsElementOf};
ghost use Rattle.transfer_rules.specs.Forms.{AreFew, HaveForms, IsOutputOf, IsRuleBy, letters_in};
ghost use Rattle.transfer_rules.specs.Inner.Drafts.{AreSaid, IsFilterSaid, IsSaid, names_seen};
ghost use Rattle.transfer_rules.specs.Inner.Sides.{AreSides};
ghost use Rattle.transfer_rules.specs.Inner.Views.{elements_seen, feature_of, features_seen, parts_of};

use crate::coreferences::letters_of;
use crate::elements::drafted;
use crate::fault::Refusal;
use crate::features::Feature;
use crate::parts::Parts;
use mrs_model::Ep;
use mrs_reading::normalized;
use std::alloc::Global;
use transfer_model::{Element, Filter, Rule};

/// What makes the rules of a file, with a text that is written over.
#[derive(Drop)]
pub(crate) struct Builder {
    alloc: Global,
    work: String,
}

// The elements of INPUT, and behind them those of CONTEXT.
#[derive(Drop)]
struct Sides {
    elements: Vec<Element>,
    inputs: usize,
}

impl Builder {
    pub(crate) fn new(alloc: Global) -> Builder {
        Builder {
            alloc,
            work: String::new(alloc),
        }
    }

    // A predicate, normalized.
    fn predicate(&mut self, pred: &str) -> Result<String, Refusal>
        ensures some { IfOk result (λ p. Normal (str_to_ascii_lowercase pred.now) (string_bytes p)) }
        ensures predicate { IfOk result (λ p. IsPred (string_bytes p)) }
        ensures full { result ≢ Err Refusal.Form }
    {
        Ok(normalized(self.alloc, pred, &mut self.work)?)
    }

    // The element of INPUT, CONTEXT or FILTER that features say.
    fn element<'a>(
        &mut self,
        names: &mut Vec<&'a str>,
        features: &[Feature<'a>],
    ) -> Result<Element, Refusal>
        ensures some { IfOk result (λ x. IsSaid IsElementOf false (names_seen names.old) (names_seen names.new) (map feature_of features.now) (element_of x)) }
        ensures none { result ≡ Err Refusal.Form → IsElementForm false (map feature_of features.now) → ⊥ }
    {
        let draft = drafted(self.alloc, names, features)?;
        let Some(pred) = draft.pred else {
            return Err(Refusal::Form);
        };
        Ok(Element {
            pred: self.predicate(pred)?,
            label: draft.label,
            roles: draft.roles,
        })
    }

    // The elementary predication of OUTPUT that features say.
    #[tactic(auto, using(crate::proofs::Drafting::less_form))]
    fn output<'a>(
        &mut self,
        names: &mut Vec<&'a str>,
        features: &[Feature<'a>],
    ) -> Result<Ep, Refusal>
        ensures some { IfOk result (λ x. IsSaid IsOutputOf true (names_seen names.old) (names_seen names.new) (map feature_of features.now) (predication_of x)) }
        ensures none { result ≡ Err Refusal.Form → IsElementForm true (map feature_of features.now) → ⊥ }
    {
        let element = self.element(names, features)?;
        let Some(label) = element.label else {
            return Err(Refusal::Form);
        };
        Ok(Ep {
            pred: element.pred,
            label,
            roles: element.roles,
            span: None,
        })
    }

    // The elements of INPUT, CONTEXT or FILTER.
    fn elements<'a>(
        &mut self,
        names: &mut Vec<&'a str>,
        said: &[Vec<Feature<'a>>],
    ) -> Result<Vec<Element>, Refusal>
        ensures some { IfOk result (λ xs. AreSaid IsElementOf false (names_seen names.old) (names_seen names.new) (map features_seen said.now) (map element_of xs.items)) }
        ensures none { result ≡ Err Refusal.Form → All (IsElementForm false) (map features_seen said.now) → ⊥ }
    {
        let mut elements = Vec::with_capacity(self.alloc, said.len())?;
        for features in said {
            elements.push(self.element(names, features)?)?;
        }
        Ok(elements)
    }

    // The elementary predications of OUTPUT.
    fn outputs<'a>(
        &mut self,
        names: &mut Vec<&'a str>,
        said: &[Vec<Feature<'a>>],
    ) -> Result<Vec<Ep>, Refusal>
        ensures some { IfOk result (λ xs. AreSaid IsOutputOf true (names_seen names.old) (names_seen names.new) (map features_seen said.now) (map predication_of xs.items)) }
        ensures none { result ≡ Err Refusal.Form → All (IsElementForm true) (map features_seen said.now) → ⊥ }
    {
        let mut eps = Vec::with_capacity(self.alloc, said.len())?;
        for features in said {
            eps.push(self.output(names, features)?)?;
        }
        Ok(eps)
    }

    // FILTER with these elements.
    fn filter_of<'a>(
        &mut self,
        names: &mut Vec<&'a str>,
        said: &[Vec<Feature<'a>>],
    ) -> Result<Filter, Refusal>
        ensures some { IfOk result (λ f. AreSaid IsElementOf false (names_seen names.old) (names_seen names.new) (map features_seen said.now) (map element_of f.elements.items)) }
        ensures letters { IfOk result (λ f. map string_bytes f.letters.items ≡ map letters_in (names_seen names.new)) }
        ensures none { result ≡ Err Refusal.Form → All (IsElementForm false) (map features_seen said.now) → ⊥ }
    {
        let elements = self.elements(names, said)?;
        let letters = letters_of(self.alloc, names)?;
        Ok(Filter { elements, letters })
    }

    // FILTER, if it is there. The names are cut back to those of INPUT and CONTEXT.
    fn filter<'a>(
        &mut self,
        names: &mut Vec<&'a str>,
        said: &Option<Vec<Vec<Feature<'a>>>>,
    ) -> Result<Option<Filter>, Refusal>
        ensures some { IfOk result (λ f. IsFilterSaid (names_seen names.old) (option_map elements_seen said.now) f) }
        ensures names { OnOk result (names_seen names.new ≡ names_seen names.old) }
        ensures none { result ≡ Err Refusal.Form → IfSome (option_map elements_seen said.now) (All (IsElementForm false)) → ⊥ }
    {
        let Some(said) = said else {
            return Ok(None);
        };
        let front = names.len();
        let filter = self.filter_of(names, said)?;
        names.truncate(front);
        Ok(Some(filter))
    }

    // The elements of INPUT and CONTEXT.
    fn sides<'a>(&mut self, names: &mut Vec<&'a str>, parts: &Parts<'a>) -> Result<Sides, Refusal>
        ensures some { IfOk result (λ s. AreSides (names_seen names.old) (names_seen names.new) (parts_of parts.now) (map element_of s.elements.items) s.inputs) }
        ensures none { result ≡ Err Refusal.Form → HaveForms (parts_of parts.now) → ⊥ }
    {
        let mut elements = self.elements(names, &parts.input)?;
        let inputs = elements.len();
        let mut context = self.elements(names, &parts.context)?;
        elements.append(&mut context)?;
        Ok(Sides { elements, inputs })
    }

    /// The rule that parts say.
    pub(crate) fn rule(&mut self, parts: &Parts<'_>) -> Result<Rule, Refusal>
        requires few { AreFew (parts_of parts.now) }
        ensures forms { OnOk result (HaveForms (parts_of parts.now)) }
        ensures some { IfOk result (λ r. IsRuleBy (parts_of parts.now) (rule_of r)) }
        ensures held { IfOk result IsHeld }
        ensures none { result ≡ Err Refusal.Form → HaveForms (parts_of parts.now) → ⊥ }
    {
        let mut names = Vec::new(self.alloc);
        let sides = self.sides(&mut names, parts)?;
        let filter = self.filter(&mut names, &parts.filter)?;
        let letters = letters_of(self.alloc, &names)?;
        let front = names.len();
        let output = self.outputs(&mut names, &parts.output)?;
        Ok(Rule {
            name: String::from_str(self.alloc, parts.name)?,
            elements: sides.elements,
            inputs: sides.inputs,
            filter,
            output,
            letters,
            output_letters: letters_of(self.alloc, &names[front..])?,
        })
    }
}
