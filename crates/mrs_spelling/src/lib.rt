//! The grammar of SimpleMRS, and the tokens of its texts.
#![tactic(auto)]

mod classes;
mod forms;
mod grammar;
mod kinds;
mod laws;
mod marks;
mod parts;
mod tokens;
mod words;

pub use grammar::tokens_of;
pub use kinds::Kind;
pub use laws::{breach_is_first, not_both, one_spelling, stop_is_first};
pub use std::alloc::AllocError as NoMemory;
pub use tokens::{Token, Tokens};
