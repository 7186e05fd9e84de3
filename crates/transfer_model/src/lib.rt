//! Transfer of MRSs: rules, where they apply, and what they make of an MRS; and the laws of it.
//!
//! Rules of transfer with CONTEXT, INPUT, FILTER and OUTPUT: Oepen et al. 2004; MRSs: Copestake, Flickinger, Pollard and Sag 2005.
#![tactic(auto)]

mod renumbered;
mod rules;
mod sites;
mod unique;

use mrs_model::{Ep, Role};
pub use renumbered::{renumbered_back, renumbered_result, renumbered_text, valid_result};
pub use rules::TransferRules;
pub use sites::Site;
pub use unique::{one_application, one_result, one_site};

/// An element of INPUT, CONTEXT or FILTER: what an elementary predication must have to be the one that it names. What its roles are filled with are
/// coreferences, by their numbers, and texts.
#[derive(Debug, Drop)]
pub struct Element {
    /// The normalized predicate.
    pub pred: String,
    /// The coreference of its label, if it writes one; otherwise any label will do.
    pub label: Option<u32>,
    /// The roles that it writes, in byte order of their names; others may be there.
    pub roles: Vec<Role>,
}

/// FILTER of a rule, which keeps it from a site where its elements have elementary predications, all different, that agree with the site. An empty one
/// is met at every site.
#[derive(Debug, Drop)]
pub struct Filter {
    /// In order of writing.
    pub elements: Vec<Element>,
    /// The letters of the coreferences of INPUT and CONTEXT, and then of those that stand in FILTER alone.
    pub letters: Vec<String>,
}

/// A rule of transfer: where INPUT and CONTEXT have a site and FILTER isn't met, INPUT's elementary predications are replaced by OUTPUT's.
/// Coreferences are numbers: those of INPUT and CONTEXT first, in order of writing; after them in FILTER those that stand in neither, and in OUTPUT
/// those that stand in neither.
#[derive(Debug, Drop)]
pub struct Rule {
    /// As it stands in the file, in ASCII lower case.
    pub name: String,
    /// The elements of INPUT, and then those of CONTEXT.
    pub elements: Vec<Element>,
    /// How many are INPUT's.
    pub inputs: usize,
    /// `None` where the rule has no FILTER.
    pub filter: Option<Filter>,
    /// Elementary predications whose variables are coreferences, in order of writing.
    pub output: Vec<Ep>,
    /// The letters of the coreferences of INPUT and CONTEXT: the sort that a variable must have, or `u`, which any has.
    pub letters: Vec<String>,
    /// Those of OUTPUT's own, which become new variables of these sorts.
    pub output_letters: Vec<String>,
}
