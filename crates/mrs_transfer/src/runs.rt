//! Runs of rules over an MRS.

ghost use Rattle.std.specs.Prelude.{◌≡◌, ◌⊎◌, ◌≤◌, ◌+◌, ◌*◌, ℕ, Bool, length, map, IfOk, IfErr, IfSome, IfNone};
ghost use Rattle.mrs_model.specs.Valid.{IsValid};
ghost use Rattle.mrs_model.specs.Views.{meaning_of, predication_of};
ghost use Rattle.sieve.specs.Guards.{Answers};
ghost use Rattle.transfer_model.specs.Sites.{Site as SiteTree, IsSite, IsLeastSite};
ghost use Rattle.transfer_model.specs.Runs.{AppliesNowhere, IsResult, HasNoResult};
ghost use Rattle.transfer_model.specs.Views.{rule_of, IsHeld};
ghost use Rattle.mrs_transfer.specs.Inner.Present.{ArePresent};
ghost use Rattle.mrs_transfer.specs.Inner.Running.{Leads, GoesOver};
ghost use Rattle.mrs_transfer.specs.declared.runs.TransferLimit.{TransferLimit};

use crate::NoMemory;
use crate::applying::apply;
use crate::numbers::number_of;
use crate::present::Present;
use crate::sites::least_site;
use mrs_model::Mrs;
use sieve::{Decision, Guard};
use std::alloc::Global;
use transfer_model::{Rule, Site, TransferRules};

/// What rules make of an MRS, and by how many applications.
#[derive(Debug, Drop)]
pub struct Transferred {
    pub mrs: Mrs,
    pub steps: u32,
}

/// Why rules make nothing of an MRS.
#[derive(Clone, Copy, Debug, PartialEq, Eq)]
pub enum TransferLimit {
    /// There are more than 16 (n + 1) applications, n being the elementary predications at first.
    Budget { eps: u32 },
    /// Memory was wanting.
    NoMemory,
}

impl From<NoMemory> for TransferLimit {
    ghost use Rattle.mrs_transfer.specs.declared.runs.TransferLimit.{TransferLimit};
    ghost use Rattle.std.specs.Prelude.{◌≡◌};

    ghost from_gives = { λ _ e. e ≡ TransferLimit.NoMemory };

    fn from(_: NoMemory) -> TransferLimit {
        TransferLimit::NoMemory
    }
}

// What rules have made so far, by how many applications, and which predicates it may have.
#[derive(Drop)]
struct Reached {
    mrs: Mrs,
    steps: u32,
    present: Present,
}

impl Reached {
    fn new(alloc: Global, mrs: Mrs, steps: u32) -> Result<Reached, NoMemory>
        ensures mrs { IfOk result (λ t. t.mrs ≡ mrs) }
        ensures steps { IfOk result (λ t. t.steps ≡ steps) }
        ensures present { IfOk result (λ t. ArePresent t.present.places.items (map predication_of mrs.eps.items)) }
    {
        let present = Present::new(alloc, &mrs.eps)?;
        Ok(Reached {
            mrs,
            steps,
            present,
        })
    }

    // The least site of a rule, which is looked for only where its predicates may be there.
    fn least_site<F: Decision<Site>>(
        &self,
        alloc: Global,
        rule: &Rule,
        number: u32,
        guard: &Guard<Site, F>,
    ) -> Result<Option<Site>, NoMemory>
        requires valid { IsValid (meaning_of self.now.mrs) }
        requires present { ArePresent self.now.present.places.items (map predication_of self.now.mrs.eps.items) }
        requires rule { IsHeld rule.now }
        ensures site { IfOk result (λ o. IfSome o (λ s. IsSite (meaning_of self.now.mrs) (rule_of rule.now) s)) }
        ensures least { (allows : ℕ → SiteTree → Bool) → Answers F.answers guard.now allows → IfOk result (λ o. IfSome o (λ s. IsLeastSite allows number (rule_of rule.now) (meaning_of self.now.mrs) s)) }
        ensures none { (allows : ℕ → SiteTree → Bool) → Answers F.answers guard.now allows → IfOk result (λ o. IfNone o (AppliesNowhere allows number (rule_of rule.now) (meaning_of self.now.mrs))) }
    {
        if !self.present.may_match(rule) {
            return Ok(None);
        }
        least_site(alloc, rule, number, guard, &self.mrs)
    }
}

// The most applications of a run over an MRS with so many elementary predications.
fn most_of(eps: usize) -> Result<u32, NoMemory>
    ensures { IfOk result (λ most. most ≡ 16 * (eps + 1)) }
{
    let eps = number_of(eps)?;
    let Some(next) = eps.checked_add(1) else {
        return Err(NoMemory);
    };
    let Some(most) = next.checked_mul(16) else {
        return Err(NoMemory);
    };
    Ok(most)
}

// Applies a rule at its least site, again and again until it applies at none. None where that takes more than the most applications; then the one
// too many was made, so that it is known that there is one.
fn exhaust<F: Decision<Site>>(
    alloc: Global,
    rule: &Rule,
    number: u32,
    guard: &Guard<Site, F>,
    done: Reached,
    most: u32,
) -> Result<Option<Reached>, NoMemory>
    requires valid { IsValid (meaning_of done.mrs) }
    requires present { ArePresent done.present.places.items (map predication_of done.mrs.eps.items) }
    requires rule { IsHeld rule.now }
    requires within { done.steps ≤ most }
    ensures valid { IfOk result (λ o. IfSome o (λ t. IsValid (meaning_of t.mrs))) }
    ensures present { IfOk result (λ o. IfSome o (λ t. ArePresent t.present.places.items (map predication_of t.mrs.eps.items))) }
    ensures within { IfOk result (λ o. IfSome o (λ t. t.steps ≤ most)) }
    ensures leads { (allows : ℕ → SiteTree → Bool) → Answers F.answers guard.now allows → IfOk result (λ o. IfSome o (λ t. Leads allows number (rule_of rule.now) (meaning_of done.mrs) done.steps (meaning_of t.mrs) t.steps)) }
    ensures nowhere { (allows : ℕ → SiteTree → Bool) → Answers F.answers guard.now allows → IfOk result (λ o. IfSome o (λ t. AppliesNowhere allows number (rule_of rule.now) (meaning_of t.mrs))) }
    ensures over { (allows : ℕ → SiteTree → Bool) → Answers F.answers guard.now allows → IfOk result (λ o. IfNone o (GoesOver allows number (rule_of rule.now) (meaning_of done.mrs) done.steps most)) }
{
    let mut done = done;
    while let Some(site) = done.least_site(alloc, rule, number, guard)? {
        let mrs = apply(alloc, rule, &site, done.mrs)?;
        if done.steps == most {
            return Ok(None);
        }
        done = Reached::new(alloc, mrs, done.steps + 1)?;
    }
    Ok(Some(done))
}

/// Rewrites an MRS by rules, in order: each is applied at its least site where the guard allows it, again and again until it applies at none. `Budget`
/// comes exactly where there are more than 16 (n + 1) applications, n being the elementary predications of this MRS.
pub fn transfer<F: Decision<Site>>(
    alloc: Global,
    rules: &TransferRules,
    guard: &Guard<Site, F>,
    mrs: Mrs,
) -> Result<Transferred, TransferLimit>
    requires valid { IsValid (meaning_of mrs) }
    ensures result { (allows : ℕ → SiteTree → Bool) → Answers F.answers guard.now allows → IfOk result (λ t. IsResult allows rules.now (meaning_of mrs) t.steps (meaning_of t.mrs)) }
    ensures valid { IfOk result (λ t. IsValid (meaning_of t.mrs)) }
    ensures budget { (allows : ℕ → SiteTree → Bool) → Answers F.answers guard.now allows
        → IfErr result (λ e. (e ≡ TransferLimit.NoMemory) ⊎ ((e ≡ TransferLimit.Budget (length mrs.eps.items)) × HasNoResult allows rules.now (meaning_of mrs))) }
{
    let most = most_of(mrs.eps.len())?;
    let eps = number_of(mrs.eps.len())?;
    let mut done = Reached::new(alloc, mrs, 0)?;
    for (number, rule) in rules.rules().iter().enumerate() {
        match exhaust(alloc, rule, number as u32, guard, done, most)? {
            Some(next) => done = next,
            None => return Err(TransferLimit::Budget { eps }),
        }
    }
    Ok(Transferred {
        mrs: done.mrs,
        steps: done.steps,
    })
}
