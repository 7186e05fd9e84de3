//! The options of the command line.

/// The options of a command line: each with its value where it stands there, or its default.
///
/// Every command takes every option, each at most once. `laws::numbers_are_within` says that each number is in its range.
#[derive(Clone, Copy, Debug, PartialEq, Eq)]
pub struct Options<'a> {
    /// `--workers`, how many workers answer lines: 1 to 64, or else 1.
    pub workers: u64,
    /// `--edges`, the most packed edges of a line: 1 to 20,000, or else 5,000.
    pub edges: u64,
    /// `--readings`, the most readings of a line: 1 to 100,000, or else 10,000.
    pub readings: u64,
    /// `--lexical`, the most lexical rules of a word: 0 to 15, or else 7.
    pub lexical: u64,
    /// `--unary`, the most unary rules over one phrase: 0 to 32, or else 8.
    pub unary: u64,
    /// `--empty`, the most words without a meaning in a sentence that is generated: 0 to 16, or else 4.
    pub empty: u64,
    /// `--settings`, the name of the settings file, as it is written.
    pub settings: Option<&'a str>,
    /// `--mrs`, a flag: each tree is followed by its MRS.
    pub mrs: bool,
    /// `--lattice`, a flag: each line is a lattice of words.
    pub lattice: bool,
    /// `--verbose`, a flag: more is told on the error stream, of faults of files and of lines without a reading.
    pub verbose: bool,
}
