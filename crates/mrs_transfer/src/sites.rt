//! The least site at which a rule applies.

ghost use Rattle.std.specs.Prelude.{◌≡◌, ℕ, Some, Bool, true, List, map, IfOk, IfSome, IfNone};
ghost use Rattle.std.specs.Bool.{OnTrue, OnFalse};
ghost use Rattle.mrs_model.specs.Valid.{IsValid};
ghost use Rattle.mrs_model.specs.Views.{meaning_of};
ghost use Rattle.sieve.specs.Guards.{Answers};
ghost use Rattle.transfer_model.specs.Rules.{Element as ElementTree};
ghost use Rattle.transfer_model.specs.Sites.{Site as SiteTree, IsSite, IsLeastSite, IsMet, Applies};
ghost use Rattle.transfer_model.specs.Runs.{AppliesNowhere};
ghost use Rattle.transfer_model.specs.Views.{rule_of, element_of, IsHeld};

use crate::NoMemory;
use crate::bound::given_pairs;
use crate::matching::{Any, Choice, Sides, find};
use mrs_model::Mrs;
use sieve::{Decision, Guard};
use std::alloc::Global;
use transfer_model::{Filter, Rule, Site};

// Whether FILTER is met at a site with these variables.
fn is_met(
    alloc: Global,
    mrs: &Mrs,
    rule: &Rule,
    filter: &Filter,
    vars: &[u32],
) -> Result<bool, NoMemory>
    requires valid { IsValid (meaning_of mrs.now) }
    requires rule { IsHeld rule.now }
    requires filter { rule.now.filter ≡ Some filter.now }
    requires site { (s : SiteTree) × (s.vars ≡ vars.now) × IsSite (meaning_of mrs.now) (rule_of rule.now) s }
    ensures yes { IfOk result (λ met. OnTrue met ((s : SiteTree) → s.vars ≡ vars.now → IsMet (meaning_of mrs.now) (rule_of rule.now) s (map element_of filter.now.elements.items))) }
    ensures no { IfOk result (λ met. OnFalse met ((s : SiteTree) → s.vars ≡ vars.now → IsMet (meaning_of mrs.now) (rule_of rule.now) s (map element_of filter.now.elements.items) → ⊥)) }
{
    let _rule = rule;
    let given = given_pairs(alloc, vars)?;
    let sides = Sides {
        eps: &mrs.eps,
        all: &mrs.vars,
        letters: &filter.letters,
        elements: &filter.elements,
        given: &given,
    };
    let mut pairs = Vec::from_slice(alloc, &given)?;
    let mut places = Vec::new(alloc);
    match find(alloc, sides, &Any, &mut places, &mut pairs)? {
        Some(_) => Ok(true),
        None => Ok(false),
    }
}

// The sites at which a rule applies: where the guard allows it, and FILTER isn't met.
#[derive(Drop)]
struct Sites<'r, 'g, 'm, F: Decision<Site>> {
    rule: &'r Rule,
    number: u32,
    guard: &'g Guard<Site, F>,
    mrs: &'m Mrs,
}

impl<F: Decision<Site>> Sites<'_, '_, '_, F> {
    // Whether the guard allows the rule at the site.
    fn is_allowed(&self, site: &Site) -> bool
        ensures { (allows : ℕ → SiteTree → Bool) → Answers F.answers self.now.guard.now allows → result ≡ allows self.now.number site.now }
    {
        self.guard.allows(self.number, site)
    }

    // Whether FILTER is there and met at a site with these variables.
    fn is_barred(&self, alloc: Global, vars: &[u32]) -> Result<bool, NoMemory>
        requires valid { IsValid (meaning_of self.now.mrs.now) }
        requires rule { IsHeld self.now.rule.now }
        requires site { (s : SiteTree) × (s.vars ≡ vars.now) × IsSite (meaning_of self.now.mrs.now) (rule_of self.now.rule.now) s }
        ensures yes { IfOk result (λ barred. OnTrue barred ((xs : List ElementTree) × ((rule_of self.now.rule.now).filter ≡ Some xs) × ((s : SiteTree) → s.vars ≡ vars.now → IsMet (meaning_of self.now.mrs.now) (rule_of self.now.rule.now) s xs))) }
        ensures no { IfOk result (λ barred. OnFalse barred ((s : SiteTree) → s.vars ≡ vars.now → IfSome (rule_of self.now.rule.now).filter (λ xs. IsMet (meaning_of self.now.mrs.now) (rule_of self.now.rule.now) s xs → ⊥))) }
    {
        match &self.rule.filter {
            None => Ok(false),
            Some(filter) => is_met(alloc, self.mrs, self.rule, filter, vars),
        }
    }
}

impl<F: Decision<Site>> Choice for Sites<'_, '_, '_, F> {
    ghost Answered = { λ c allows. Answers F.answers c.guard.now allows };

    ghost Asks = { λ c places vars. IsValid (meaning_of c.mrs.now) × IsHeld c.rule.now × IsSite (meaning_of c.mrs.now) (rule_of c.rule.now) (record { places = places; vars = vars }) };

    ghost Takes = { λ c allows places vars. Applies allows c.number (rule_of c.rule.now) (meaning_of c.mrs.now) (record { places = places; vars = vars }) };

    fn takes(&self, alloc: Global, places: &[u32], vars: &[u32]) -> Result<bool, NoMemory> {
        let own_places = Vec::from_slice(alloc, places)?;
        let own_vars = Vec::from_slice(alloc, vars)?;
        let site = Site::new(own_places, own_vars);
        if !self.is_allowed(&site) {
            return Ok(false);
        }
        let barred = self.is_barred(alloc, vars)?;
        Ok(!barred)
    }
}

/// The least site at which the rule of this number applies, by the places of the elementary predications for INPUT and then for CONTEXT. None comes
/// exactly where it applies at none.
pub fn least_site<F: Decision<Site>>(
    alloc: Global,
    rule: &Rule,
    number: u32,
    guard: &Guard<Site, F>,
    mrs: &Mrs,
) -> Result<Option<Site>, NoMemory>
    requires valid { IsValid (meaning_of mrs.now) }
    requires rule { IsHeld rule.now }
    ensures site { IfOk result (λ o. IfSome o (λ s. IsSite (meaning_of mrs.now) (rule_of rule.now) s)) }
    ensures least { (allows : ℕ → SiteTree → Bool) → Answers F.answers guard.now allows → IfOk result (λ o. IfSome o (λ s. IsLeastSite allows number (rule_of rule.now) (meaning_of mrs.now) s)) }
    ensures none { (allows : ℕ → SiteTree → Bool) → Answers F.answers guard.now allows → IfOk result (λ o. IfNone o (AppliesNowhere allows number (rule_of rule.now) (meaning_of mrs.now))) }
{
    let given = Vec::new(alloc);
    let sites = Sites {
        rule,
        number,
        guard,
        mrs,
    };
    let sides = Sides {
        eps: &mrs.eps,
        all: &mrs.vars,
        letters: &rule.letters,
        elements: &rule.elements,
        given: &given,
    };
    let mut places = Vec::new(alloc);
    let mut pairs = Vec::new(alloc);
    match find(alloc, sides, &sites, &mut places, &mut pairs)? {
        None => Ok(None),
        Some(vars) => {
            let site = Site::new(places, vars);
            Ok(Some(site))
        }
    }
}
