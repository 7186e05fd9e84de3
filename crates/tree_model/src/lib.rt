//! Trees of a grammar over any covers, and the answer to an item; what rules make of their daughters; the readings of a finished chart,
//! and their counts.
//!
//! Trees of a typed feature structure grammar: Copestake 2002. Packing by subsumption: Oepen and Carroll 2000.
#![tactic(auto)]

mod licensed;
mod rules;

pub use licensed::parse_laws;
pub use rules::{making_laws, said_laws, shape_laws};
