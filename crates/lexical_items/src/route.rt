//! Entries under lexical rules.

use std::sync::Arc;

/// An entry under lexical rules, by number and from the inside out, with the words to which they lead its last one, rising, and with
/// their full structure.
#[derive(Drop)]
pub(crate) struct Route<T> {
    pub(crate) entry: u32,
    pub(crate) rules: Vec<u32>,
    pub(crate) ends: Vec<String>,
    pub(crate) full: Arc<T>,
}
