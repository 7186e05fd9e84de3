//! What the search goes over.

ghost use Rattle.std.specs.Prelude.{◌≡◌, slice_index, slice_index_or, false};

use scope_model::{Binding, Opening, Qeq, Quantifier};

/// The parts of a frame: the label of each elementary predication, the holes in roles, the quantifiers, what they bind, and the constraints.
#[derive(Drop)]
pub(crate) struct Parts {
    pub(crate) top: u32,
    pub(crate) labels: Vec<u32>,
    pub(crate) openings: Vec<Opening>,
    pub(crate) quantifiers: Vec<Quantifier>,
    pub(crate) bindings: Vec<Binding>,
    pub(crate) qeqs: Vec<Qeq>,
}

/// A frame and its tables: its labels and its holes in rising order, and, by number, the label of each hole, which holes are BODYs of
/// quantifiers, and which variables are labels.
#[derive(Drop)]
pub(crate) struct Net {
    pub(crate) parts: Parts,
    pub(crate) labels: Vec<u32>,
    pub(crate) holes: Vec<u32>,
    pub(crate) owner: Vec<u32>,
    pub(crate) is_body: Vec<bool>,
    pub(crate) is_label: Vec<bool>,
}

/// What a table of numbers has, and 0 past its end.
pub(crate) fn number_at(table: &[u32], number: u32) -> u32
    ensures { result ≡ slice_index table.now number }
{
    let at = number as usize;
    if at < table.len() { table[at] } else { 0 }
}

/// Whether a number is marked; past the end none is.
pub(crate) fn mark_at(marks: &[bool], number: u32) -> bool
    ensures { result ≡ slice_index_or marks.now number false }
{
    let at = number as usize;
    if at < marks.len() { marks[at] } else { false }
}
