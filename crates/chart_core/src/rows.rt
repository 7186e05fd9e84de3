//! A row that is to be entered.

ghost use Rattle.std.specs.Prelude.{◌≡◌, Some};

use crate::{Daughters, Row, RowId, RowKind};
use chart_model::Shapes;

/// A leaf or a whole row, before it is packed or becomes a host.
#[derive(Drop)]
pub struct Candidate<S: Shapes> {
    pub kind: RowKind,
    pub daughters: Daughters,
    pub cover: S::Cover,
    pub level: u32,
    pub shape: S::Shape,
}

impl<S: Shapes> Candidate<S> {
    /// The row, with its representative if it has one.
    pub fn into_row(self, into: Option<RowId>) -> Row<S>
        ensures { result ≡ record { kind = self.kind; daughters = self.daughters; cover = self.cover; level = self.level; shape = Some self.shape; into = into } }
    {
        Row {
            kind: self.kind,
            daughters: self.daughters,
            cover: self.cover,
            level: self.level,
            shape: Some(self.shape),
            into,
        }
    }
}
