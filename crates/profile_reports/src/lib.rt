//! The items of a profile, what is found of them, and the report on it.
#![tactic(auto)]

mod compare;
mod heads;
mod items;
mod items_lines;
mod lines;
mod profiles;
mod report;
mod texts;
mod verdicts;

pub use compare::result_of;
pub use items::profile;
pub use profiles::{Expected, ProfileItem};
pub use report::{ProfileReport, report_on};
pub use std::alloc::AllocError as NoMemory;
pub use verdicts::{some_lacking, verdict_of};

/// What a grammar gives for an item.
#[derive(Clone, Copy, Debug, PartialEq, Eq)]
pub enum Got {
    /// The item is bad.
    Bad,
    /// So many readings.
    Readings { count: u32 },
    /// A lexical tree has one rule too many.
    LexicalDepth,
    /// A chain of unary rules is too long.
    UnaryChain,
    /// There are too many packed classes.
    Edges,
    /// There are too many readings.
    TooManyReadings,
    /// Memory was wanting for the item.
    NoMemory,
}

/// What is found of the item at a place, counted from 0.
#[derive(Clone, Copy, Debug, PartialEq, Eq)]
pub struct ItemResult {
    pub item: u32,
    pub got: Got,
    /// How many of the trees that are written, each counted once, came.
    pub kept: u32,
    /// How many of them didn't.
    pub lost: u32,
    /// How many trees came that aren't written.
    pub gained: u32,
}

/// What came of a sentence: the limit that it breaks, or its readings. Their texts are needed only where trees are written for the item.
#[derive(Drop)]
pub enum Came {
    /// A lexical tree has one rule too many.
    LexicalDepth,
    /// A chain of unary rules is too long.
    UnaryChain,
    /// There are too many packed classes.
    Edges,
    /// There are too many readings.
    TooManyReadings,
    /// So many trees.
    Readings { count: u32 },
    /// Trees with these texts.
    Trees { texts: Vec<Vec<u8>> },
}

/// What an item's result means.
#[derive(Clone, Copy, Debug, PartialEq, Eq)]
pub enum Verdict {
    /// What came is what is expected, and no tree was lost or gained.
    Same,
    /// It isn't.
    Differs,
    /// Nothing was expected.
    New,
    /// The item is bad, or memory was wanting for it.
    Bad,
}

/// How many items have each verdict.
#[derive(Clone, Copy, Debug, PartialEq, Eq)]
pub struct Counts {
    pub same: u32,
    pub differs: u32,
    pub new: u32,
    pub bad: u32,
}
