//! What it means that a tree realizes an MRS, and the answer for generation, over trees alone; and the predicates that entries and rules
//! contribute.
//!
//! Chart generation: Kay 1996; Carroll, Copestake, Flickinger and Poznanski 1999. Packing by subsumption: Oepen and Carroll 2000.
#![tactic(auto)]

ghost use Rattle.generate_model.specs.Covers.{CountsAreCovers};
ghost use Rattle.generate_model.specs.Embedding.{DaughtersEmbed};
ghost use Rattle.generate_model.specs.EarlyRoots.{RootsFall};
ghost use Rattle.generate_model.specs.Laws.{InputsAreTold, InputsAreItems, LeavesAreCounted, FoundIsGenAnswer, GenAnswersAreOne, HopelessFall};

mod bags;
mod index;
mod laws;
mod names;
mod relations;
mod settled;

pub use bags::{Bag, predicates_of};
pub use index::PredicateIndex;
pub use laws::predicates_are_one;
pub use names::{predicate, predicates};
pub use relations::pred_types;
pub use settled::{first_settled, is_settled};
pub use std::alloc::AllocError as NoMemory;

/// A law: what a finished and unpacked chart over counts of predicates gives is the answer for generation. It does nothing.
///
/// Counts with the predicates of rules are covers (`covers`), and leaves have such covers (`leaves`). A structure says one list of
/// predicates (`told`), and the trees that the item asks for are exactly the realizations (`wanted`), so what chart, unpacking and texts give
/// is the answer (`found`), and an input has one (`one`). Pruning is exact: where rules append their daughters' relations, these stay
/// (`stay`), so what no accepted structure can hold may be dropped (`dropped`); a structure has no root that its shape hasn't (`roots`).
pub fn generate_laws()
    ensures covers { CountsAreCovers }
    ensures leaves { LeavesAreCounted }
    ensures told { InputsAreTold }
    ensures wanted { InputsAreItems }
    ensures found { FoundIsGenAnswer }
    ensures one { GenAnswersAreOne }
    ensures stay { DaughtersEmbed }
    ensures dropped { HopelessFall }
    ensures roots { RootsFall }
{}
