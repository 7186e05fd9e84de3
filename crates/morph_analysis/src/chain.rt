//! Chains of lexical rules.

/// An entry and lexical rules from the inside out, with the words that they spell and the nodes of a lattice between which
/// these stand. Chains are ordered by `from`, `to`, entry, rules and words.
#[derive(Debug, PartialEq, Eq, PartialOrd, Ord, Drop)]
pub struct Chain {
    pub from: u32,
    pub to: u32,
    pub entry: u32,
    pub rules: Vec<u32>,
    pub words: Vec<String>,
}
