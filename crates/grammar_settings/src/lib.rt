//! The settings of a grammar, and the settings files that give them.
#![tactic(auto)]

mod build;
mod forms;
mod lines;
mod settings;

pub use forms::ValueForm;
pub use settings::{Settings, SettingsFault, SortLine};
pub use std::alloc::AllocError as NoMemory;
