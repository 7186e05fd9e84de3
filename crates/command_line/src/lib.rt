//! The words of the command line, read with `clap`, and what is wrong with them.
#![tactic(auto)]

mod definition;
mod faults;
pub mod laws;
mod options;
mod places;
mod reading;
mod tasks;
mod texts;
pub mod word_laws;
mod word_reading;
mod words;

pub use faults::{Cause, WordFault};
pub use options::Options;
pub use places::{Place, Wanted};
pub use reading::WordsFault;
pub use std::alloc::AllocError as NoMemory;
pub use tasks::{Command, CommandName, Task};
pub use texts::word_fault;
pub use word_reading::first_fault;
pub use words::{command_among, command_of};
