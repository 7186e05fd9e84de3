//! Lines that are parsed: the answer to a lattice of words, by chart and unpacking over its leaves (Copestake 2002; Oepen and Carroll 2000).
#![tactic(auto)]

mod line;
mod parsing;

pub use line::RememberedLine;
pub use parsing::{parse_alone, parse_words};
pub use std::alloc::AllocError as NoMemory;
