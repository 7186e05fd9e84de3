//! A hierarchy of types, completed by the meets that it lacks (Copestake 2002, bounded completeness).
#![tactic(auto)]

mod complete_fault;
mod completion;
mod crossing;
mod family;
mod kinds;
mod row_hash;
mod spread;

pub use complete_fault::CompleteFault;
pub use completion::complete;
pub use family::MOST_COMPLETED;
