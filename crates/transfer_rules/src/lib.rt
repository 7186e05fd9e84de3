//! The rules of transfer that a text of TDL says (Oepen et al. 2004).
#![tactic(auto)]

mod building;
mod coreferences;
mod elements;
mod fault;
mod features;
mod laws;
mod parts;
mod reading;
mod terms;

pub use fault::{RulesFault, TransferFault};
pub use laws::{all_rules, one_outside, one_rules, rules_or_fault};
pub use reading::{rules, rules_of};
