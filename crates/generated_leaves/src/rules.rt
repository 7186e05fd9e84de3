//! The predicates that phrase rules contribute themselves.

ghost use Rattle.std.specs.Prelude.{◌≡◌, ◌<◌, length, map, IfOk, IfSome};
ghost use Rattle.std.specs.String.{string_bytes};
ghost use Rattle.type_hierarchy.specs.Table.{count_of};
ghost use Rattle.mrs_places.specs.Paths.{feature_of, paths_of};
ghost use Rattle.book_signs.specs.Trees.{signs_of};
ghost use Rattle.generate_model.specs.Bags.{counted};
ghost use Rattle.generated_leaves.specs.Given.{IsGivenAt};

use book_signs::SignBook;
use chart_model::Counts;
use generate_model::{Bag, NoMemory, predicates};
use mrs_places::{MrsFeat, MrsPaths};
use std::alloc::Global;
use std::marker::Model;

/// What each phrase rule of a grammar contributes itself, by its number: the predicates in RELS at a path of the settings, in the rule's own
/// structure. It is made once for a grammar.
#[derive(Drop)]
pub struct RulePredicates {
    given: Vec<Vec<String>>,
}

impl Model for RulePredicates {
    ghost use Rattle.std.specs.Prelude.{List, map};
    ghost use Rattle.std.specs.String.{string_bytes};
    ghost use Rattle.generate_model.specs.Bags.{Word};

    ghost Value = { List (List Word) };

    ghost view = { λ r. map (λ v. map string_bytes v.items) r.given.items };
}

// The predicates that the rule at a place contributes itself. The book has its structure closed, so nothing is unified.
fn given_at(
    alloc: Global,
    signs: &SignBook<'_>,
    paths: &MrsPaths,
    c_cont: &[MrsFeat],
    place: u32,
) -> Result<Vec<String>, NoMemory>
    requires place { place < length (signs_of signs.now).instances }
    requires cons { IfSome (paths_of paths.now).cons (λ t. t < count_of signs.now.book.system.types) }
    requires null { IfSome (paths_of paths.now).null (λ t. t < count_of signs.now.book.system.types) }
    ensures { IfOk result (λ v. IsGivenAt (signs_of signs.now) signs.now.book.system.types (paths_of paths.now) (map feature_of c_cont.now) place (map string_bytes v.items)) }
{
    let structure = signs.structure(place);
    structure.laws();
    predicates(alloc, structure, signs.system().types(), paths, c_cont)
}

// The counts of some predicates. More of them than a `u32` can number count as want of memory.
fn counts_of(alloc: Global, bag: &Bag, preds: &[String]) -> Result<Option<Counts>, NoMemory>
    ensures { IfOk result (λ o. o ≡ counted bag.now.places (map string_bytes preds.now) 0) }
{
    if preds.len() > u32::MAX as usize {
        return Err(NoMemory);
    }
    bag.counted(alloc, preds, 0)
}

impl RulePredicates {
    ghost use Rattle.generated_leaves.specs.Given.{AreGiven, own_counts};

    /// What the phrase rules of a grammar contribute; `c_cont` leads from the root of a rule's structure to where its relations stand. There are
    /// none where that list is missing or open, and an element without PRED has none.
    ///
    /// The types of lists that `paths` names are types of the grammar. What a rule contributes is the same whatever MRS is asked for.
    pub fn make(
        alloc: Global,
        signs: &SignBook<'_>,
        paths: &MrsPaths,
        c_cont: &[MrsFeat],
    ) -> Result<RulePredicates, NoMemory>
        requires cons { IfSome (paths_of paths.now).cons (λ t. t < count_of signs.now.book.system.types) }
        requires null { IfSome (paths_of paths.now).null (λ t. t < count_of signs.now.book.system.types) }
        ensures { IfOk result (λ r. AreGiven (signs_of signs.now) signs.now.book.system.types (paths_of paths.now) (map feature_of c_cont.now) r) }
    {
        let places = signs.phrase_rules();
        let mut given = Vec::with_capacity(alloc, places.len())?;
        for place in places {
            given.push(given_at(alloc, signs, paths, c_cont, *place)?)?;
        }
        Ok(RulePredicates { given })
    }

    /// What each rule contributes to the predicates of a bag, by its number, as the cover from which its mothers begin; none for a rule that
    /// contributes a predicate that isn't asked for.
    pub fn own(&self, alloc: Global, bag: &Bag) -> Result<Vec<Option<Counts>>, NoMemory>
        ensures { IfOk result (λ v. v.items ≡ own_counts bag.now.places self.now) }
    {
        let mut own = Vec::with_capacity(alloc, self.given.len())?;
        for preds in &self.given {
            own.push(counts_of(alloc, bag, preds)?)?;
        }
        Ok(own)
    }
}
