//! The scoped readings of an MRS: what they are, and what holds of them.
#![tactic(auto)]

mod laws;

pub use laws::{
    above, at_once, climbing, full_states, homes, masks, one_answer, one_frame, one_list, pruning,
    search,
};

/// A hole in a role of an elementary predication with this label.
#[derive(Clone, Copy, Debug, PartialEq, Eq)]
pub struct Opening {
    pub label: u32,
    pub hole: u32,
}

/// A quantifier: its label, the holes of RSTR and BODY, and the variable at its ARG0.
#[derive(Clone, Copy, Debug, PartialEq, Eq)]
pub struct Quantifier {
    pub label: u32,
    pub rstr: u32,
    pub body: u32,
    pub bound: Option<u32>,
}

/// The label of another elementary predication that has a quantifier's variable: it lies at or below what is in one of the two holes.
#[derive(Clone, Copy, Debug, PartialEq, Eq)]
pub struct Binding {
    pub rstr: u32,
    pub body: u32,
    pub label: u32,
}

/// The constraint `left qeq right`.
#[derive(Clone, Copy, Debug, PartialEq, Eq)]
pub struct Qeq {
    pub left: u32,
    pub right: u32,
}

/// A hole and the label that is plugged into it.
#[derive(Clone, Copy, Debug, PartialEq, Eq)]
pub struct Plug {
    pub hole: u32,
    pub label: u32,
}

/// A reading: the label at the top, and each hole with the label that is plugged into it, in the numbers that the text of the MRS has.
#[derive(Debug, PartialEq, Eq, PartialOrd, Ord, Drop)]
pub struct Plugging {
    /// The number of the top hole's label.
    pub top: u32,
    /// Each hole with its label, in rising order of the holes.
    pub holes: Vec<(u32, u32)>,
}

/// Why an MRS is refused.
#[derive(Clone, Copy, Debug, PartialEq, Eq)]
pub enum ScopeFault {
    /// The handle constraint at this place, from 0, isn't `qeq`; it is the first one.
    Relation { place: u32 },
    /// There are more readings than are asked for.
    ReadingLimit,
    /// Memory was wanting.
    NoMemory,
}
