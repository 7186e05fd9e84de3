//! The definitions and addenda of a grammar, each with what its environment makes of it (DELPH-IN TDL).

use tdl_reader::{Statement, Status};

/// A definition or an addendum of a grammar (DELPH-IN TDL): the statement, what its environment makes of it, and
/// the file in which it stands, by its number among the files in order of reading, from 0.
///
/// Outside every environment, and in one of types, the status is `TypeDef`.
#[derive(Drop)]
pub struct Placed {
    pub statement: Statement,
    pub status: Status,
    pub file: u32,
}
