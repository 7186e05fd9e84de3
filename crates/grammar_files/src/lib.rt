//! What the files of a grammar say: their names, their statements in order of reading with what these define, the text of irregular forms,
//! and the first fault.
#![tactic(auto)]

mod all_read;
mod environment;
mod expand_fault;
mod fault;
pub mod file_names;
pub mod laws;
mod placed;
pub mod placed_statements;
mod reading;
pub mod reading_laws;
mod statements;
mod walking;

pub use all_read::{Read, read_files};
pub use expand_fault::ExpandFault;
pub use fault::{LoadFault, Why};
pub use grammar_settings::{Settings, SettingsFault, SortLine, ValueForm};
pub use placed::Placed;
pub use reading::{found, read_settings, said};
pub use std::alloc::AllocError as NoMemory;
pub use walking::{MOST_FILES, Walked, walk};
