//! Bags of predicates.

ghost use Rattle.std.specs.Prelude.{◌≡◌, ◌<◌, ◌^◌, length, map, IfOk};
ghost use Rattle.std.specs.String.{string_bytes};
ghost use Rattle.chart_model.specs.Lists.{all_within};
ghost use Rattle.mrs_model.specs.Views.{meaning_of};
ghost use Rattle.generate_model.specs.Bags.{preds_of, count, is_among, all_among, distinct, tally, counted};

use crate::NoMemory;
use chart_model::{Counts, Numbers};
use mrs_model::Mrs;
use std::alloc::Global;
use std::marker::Model;

/// The predicates of an MRS, in the order of its elementary predications.
pub fn predicates_of(alloc: Global, mrs: &Mrs) -> Result<Vec<String>, NoMemory>
    ensures { IfOk result (λ v. map string_bytes v.items ≡ preds_of (meaning_of mrs.now)) }
{
    let mut preds = Vec::with_capacity(alloc, mrs.eps.len())?;
    for ep in &mrs.eps {
        preds.push(ep.pred.clone()?)?;
    }
    Ok(preds)
}

// Whether a predicate is one of some.
fn is_among(pred: &str, preds: &[String]) -> bool
    ensures { result ≡ is_among pred.now (map string_bytes preds.now) }
{
    for other in preds {
        if pred == other.as_str() {
            return true;
        }
    }
    false
}

// Whether all are among others.
fn all_among(preds: &[String], others: &[String]) -> bool
    ensures { result ≡ all_among (map string_bytes preds.now) (map string_bytes others.now) }
{
    for pred in preds {
        if !is_among(pred, others) {
            return false;
        }
    }
    true
}

// How often a predicate stands among some.
fn count(pred: &str, preds: &[String]) -> u32
    requires { length preds.now < 2 ^ 32 }
    ensures { result ≡ count pred.now (map string_bytes preds.now) }
{
    let mut times = 0;
    for other in preds {
        if pred == other.as_str() {
            times += 1;
        }
    }
    times
}

// Each predicate once, in order of first occurrence.
fn distinct(alloc: Global, preds: &[String]) -> Result<Vec<String>, NoMemory>
    ensures { IfOk result (λ v. map string_bytes v.items ≡ distinct (map string_bytes preds.now)) }
{
    let mut places = Vec::new(alloc);
    for pred in preds {
        if !is_among(pred, &places) {
            places.push(pred.clone()?)?;
        }
    }
    Ok(places)
}

// How often each of some predicates stands among others.
fn tally(alloc: Global, places: &[String], preds: &[String]) -> Result<Vec<u32>, NoMemory>
    requires { length preds.now < 2 ^ 32 }
    ensures { IfOk result (λ v. v.items ≡ tally (map string_bytes places.now) (map string_bytes preds.now)) }
{
    let mut counts = Vec::with_capacity(alloc, places.len())?;
    for place in places {
        counts.push(count(place, preds))?;
    }
    Ok(counts)
}

// Whether none of some places stands among predicates more often than its count says.
fn are_within(places: &[String], preds: &[String], counts: &[u32]) -> bool
    requires even { length counts.now ≡ length places.now }
    requires few { length preds.now < 2 ^ 32 }
    ensures { result ≡ all_within (tally (map string_bytes places.now) (map string_bytes preds.now)) counts.now }
{
    for (place, most) in counts.iter().enumerate() {
        if count(&places[place], preds) > *most {
            return false;
        }
    }
    true
}

/// The predicates that are asked for, each once, with how often it is: the places of the covers of generation.
#[derive(Drop)]
pub struct Bag {
    places: Vec<String>,
    counts: Vec<u32>,
}

impl Model for Bag {
    ghost use Rattle.std.specs.Prelude.{◌≡◌, map, length};
    ghost use Rattle.std.specs.String.{string_bytes};
    ghost use Rattle.generate_model.specs.Bags.{BagTree};

    ghost Value = { BagTree };

    ghost view = { λ b. record { places = map string_bytes b.places.items; counts = b.counts.items } };

    ghost invariant = { λ b. length b.counts.items ≡ length b.places.items };
}

impl Bag {
    ghost use Rattle.generate_model.specs.Bags.{bag_of, holds};

    /// The bag of some predicates.
    pub fn make(alloc: Global, preds: &[String]) -> Result<Bag, NoMemory>
        requires { length preds.now < 2 ^ 32 }
        ensures { IfOk result (λ b. b ≡ bag_of (map string_bytes preds.now)) }
    {
        let places = distinct(alloc, preds)?;
        let counts = tally(alloc, &places, preds)?;
        Ok(Bag { places, counts })
    }

    /// The bound of covers, with so many empty words.
    pub fn bound(&self, alloc: Global, empty: u32) -> Result<Counts, NoMemory>
        ensures { IfOk result (λ c. c ≡ record { of = self.now.counts; empty = empty }) }
    {
        let items = Vec::from_slice(alloc, self.counts.as_slice())?;
        Ok(Counts {
            of: Numbers::new(items),
            empty,
        })
    }

    /// Whether some predicates lie in the bag: each is asked for, and none stands among them more often than in it. Takes no memory.
    pub fn holds(&self, preds: &[String]) -> bool
        requires { length preds.now < 2 ^ 32 }
        ensures { result ≡ holds self.now (map string_bytes preds.now) }
    {
        all_among(preds, &self.places) && are_within(&self.places, preds, &self.counts)
    }

    /// The cover of some predicates and so many empty words; none where one of them isn't asked for.
    pub fn counted(
        &self,
        alloc: Global,
        preds: &[String],
        empty: u32,
    ) -> Result<Option<Counts>, NoMemory>
        requires { length preds.now < 2 ^ 32 }
        ensures { IfOk result (λ o. o ≡ counted self.now.places (map string_bytes preds.now) empty) }
    {
        if !all_among(preds, &self.places) {
            return Ok(None);
        }
        let items = tally(alloc, &self.places, preds)?;
        Ok(Some(Counts {
            of: Numbers::new(items),
            empty,
        }))
    }
}
