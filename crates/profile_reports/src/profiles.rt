//! Profiles: sentences with what is expected of each, and the trees that are written for it.

use crate::items::profile;

/// What is expected of a sentence.
#[derive(Clone, Copy, Debug, PartialEq, Eq)]
pub enum Expected {
    /// Nothing: `?`.
    Unknown,
    /// So many readings.
    Readings { count: u32 },
    /// That a lexical tree has one rule too many.
    LexicalDepth,
    /// That a chain of unary rules is too long.
    UnaryChain,
    /// That there are too many packed classes.
    Edges,
    /// That there are too many readings.
    TooManyReadings,
}

/// An item of a profile.
#[derive(Drop)]
pub enum ProfileItem {
    /// The line has more than 65,535 bytes.
    TooLong,
    /// The line isn't UTF-8.
    NotUtf8,
    /// The line begins with no expectation.
    NoItem,
    /// What is expected of a sentence, and the trees that are written below it, each without the two blanks before it.
    Item {
        expected: Expected,
        sentence: String,
        trees: Vec<Vec<u8>>,
    },
}
