//! What is wrong with words.

/// Why a word is outside the form.
#[derive(Clone, Copy)]
pub enum Cause {
    /// It is no command's, where a command's is wanted.
    NoCommand,
    /// It begins with `-` and is no option's.
    NoOption,
    /// The option stands before it already.
    SaidTwice,
    /// No value follows the option's word.
    NoValue,
    /// It is no number, or it isn't in this range.
    OutOfRange(u64, u64),
    /// No word may stand there.
    TooMany,
    /// It is empty.
    Empty,
}

/// What is wrong with words.
#[derive(Clone, Copy)]
pub enum WordFault<'a> {
    /// This word is outside the form: the first one from the left.
    Wrong(&'a str, Cause),
    /// All words that are there are right, and the positional word of this name is lacking.
    Missing(&'static str),
}
