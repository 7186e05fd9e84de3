//! The command `generate`: each line of the input writes an MRS, and is answered by the sentences that realize it with a grammar.
#![tactic(auto)]

mod answering;
mod contributing;
mod generating;
pub mod laws;
mod using;

pub use answering::Generator;
pub use contributing::{Contributions, contributions_of};
pub use generating::{Generate, generate_lines};
pub use std::alloc::AllocError as NoMemory;
