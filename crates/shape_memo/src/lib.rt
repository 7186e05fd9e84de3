//! Shapes of a chart that remember what was asked of them, and ask sieves before anything is unified (Oepen and Carroll 2000: most of the time of a chart goes into
//! unification, and most of its tuples of daughters are alike).
#![tactic(auto)]

mod answer;
mod front;
mod levels;
mod marked;
mod memo;
mod remembered;
mod sieved;
mod sketched;

pub use marked::Marked;
pub use remembered::RememberedShapes;
pub use sieved::SievedShapes;
pub use sketched::{Sketched, Sketches};
pub use std::alloc::AllocError as NoMemory;
