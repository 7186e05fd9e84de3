//! The chains of lexical rules that spell the words of a lattice.
#![tactic(auto)]

mod allowed;
mod analysis;
mod arrivals;
mod chain;
mod feeds;
mod graph;
mod items;
mod lattice;
pub mod laws;
mod made;
mod nodes;
mod outward;
mod search;
mod table;
mod written;

pub use allowed::chains;
pub use analysis::made_chains;
pub use arrivals::Arrivals;
pub use chain::Chain;
pub use feeds::Feeds;
pub use graph::Graph;
pub use lattice::{Lattice, LatticeFault, Step};
pub use made::{Halt, MadeChain, Maker};
pub use nodes::Edge;
pub use std::alloc::AllocError as NoMemory;
