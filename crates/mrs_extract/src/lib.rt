//! The MRS of a structure (Copestake, Flickinger, Pollard and Sag 2005).
#![tactic(auto)]

mod constraints;
mod extraction;
mod laws;
mod numbers;
mod predications;
mod properties;
mod roles;
mod variables;

pub use extraction::extract;
pub use laws::mrs_is_one;
