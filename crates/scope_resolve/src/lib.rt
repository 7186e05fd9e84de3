//! The scoped readings of an MRS, found.
#![tactic(auto)]

mod building;
mod choosing;
mod filling;
mod hole_set;
mod live;
mod masks;
mod nets;
mod plan;
mod resolving;
mod roots;
mod search;
mod sounding;
mod tables;
mod trail;
mod ways;

pub use resolving::scopes;
pub use scope_model::{Plugging, ScopeFault};
