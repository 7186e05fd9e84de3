//! Environments of TDL files.

use tdl_reader::Status;

/// An environment that is open: what its definitions are, and the file and the place at which it was begun.
/// The file is its number among the files in order of reading.
#[derive(Clone, Copy)]
pub struct Environment {
    pub status: Status,
    pub file: u32,
    pub at: u32,
}
