//! What the settings of a grammar say of MRSs, and where the parts of an MRS stand in a structure (Copestake, Flickinger, Pollard and Sag 2005).
#![tactic(auto)]

mod laws;
mod lists;
mod looking;
mod missing;
mod names;
mod paths;
mod settled;
mod steps;

pub use laws::outcomes_are_one;
pub use lists::Element;
pub use looking::{Found, look};
pub use paths::{MrsFeat, MrsPaths, MrsSort, NoMrs};
pub use settled::{c_cont_path, mrs_paths};
pub use std::alloc::AllocError as NoMemory;
pub use steps::{is_below, step};
