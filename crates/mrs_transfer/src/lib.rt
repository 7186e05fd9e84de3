//! Transfer of MRSs: rules are applied to an MRS in a stated order (Oepen et al. 2004).
#![tactic(auto)]

mod applying;
mod bound;
mod fitting;
mod marking;
mod matching;
mod numbers;
mod present;
mod renumbering;
mod runs;
mod sites;
mod trimming;

pub use applying::apply;
pub use runs::{TransferLimit, Transferred, transfer};
pub use sites::least_site;
pub use std::alloc::AllocError as NoMemory;
