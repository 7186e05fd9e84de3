//! Loading grammars: a grammar with its structures, its lexicon and its spelling, or the first fault of its files (DELPH-IN TDL).
#![tactic(auto)]

mod expanding;
pub mod expanding_laws;
mod fields;
mod grammar;
mod irregular;
pub mod laws;
mod loading;
mod misshapen;
mod names;
mod shapes;
mod spelling;
mod written;

pub use expanding::{expand_types, names_by};
pub use grammar::Grammar;
pub use grammar_files::{LoadFault, MOST_FILES, Walked, Why, file_names, walk};
pub use grammar_settings::{Settings, SettingsFault, SortLine, ValueForm};
pub use grammar_types::settle_types;
pub use irregular::irregular_lines;
pub use loading::load;
pub use names::{instance_names, lexical_names};
pub use std::alloc::AllocError as NoMemory;
pub use written::rules_written;
