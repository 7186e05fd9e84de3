//! What the body of a statement says of paths (DELPH-IN TDL; Copestake 2002).
#![tactic(auto)]

mod brackets;
mod laws;
mod lookup;
mod mentioned;
mod settled_names;
mod telling;

pub use brackets::{Use, uses};
pub use laws::coreference_law;
pub use lookup::Words;
pub use mentioned::{Unknown, first_unknown};
pub use settled_names::Names;
pub use std::alloc::AllocError as NoMemory;
pub use telling::facts;
