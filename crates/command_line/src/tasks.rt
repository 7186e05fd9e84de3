//! What words ask for: commands and their positional words.
ghost use Rattle.std.specs.Prelude.{◌≡◌};

use crate::options::Options;

/// The commands.
#[derive(Clone, Copy, Debug, PartialEq, Eq)]
pub enum CommandName {
    /// `parse`.
    Parse,
    /// `chart`.
    Chart,
    /// `explain`.
    Explain,
    /// `generate`.
    Generate,
    /// `types`.
    Types,
    /// `expand`.
    Expand,
    /// `check`.
    Check,
    /// `self-test`.
    SelfTest,
    /// `scope`.
    Scope,
    /// `batch`.
    Batch,
    /// `transfer`.
    Transfer,
}

/// What a command is to do, with its positional words.
#[derive(Clone, Copy, Debug, PartialEq, Eq)]
pub enum Task<'a> {
    /// The parses of each line of the input, with the grammar of this name.
    Parse(&'a str),
    /// The packed classes of each line of the input, with the grammar of this name.
    Chart(&'a str),
    /// Whether the tree of each line of the input is licensed by the grammar of this name, and if not, why not.
    Explain(&'a str),
    /// The sentences of each MRS of the input, with the grammar of this name.
    Generate(&'a str),
    /// The types of the grammar of this name.
    Types(&'a str),
    /// The structure of the second name in the grammar of the first.
    Expand(&'a str, &'a str),
    /// The counts of the grammar of this name.
    Check(&'a str),
    /// The workload of this number, with so many lines: 1 to 1,000.
    SelfTest(u64, u64),
    /// The scoped readings of each MRS of the input.
    Scope,
    /// The profile of the second name, with the grammar of the first.
    Batch(&'a str, &'a str),
    /// Each MRS of the input, rewritten by the rules of this file.
    Transfer(&'a str),
}

impl Task<'_> {
    ghost use Rattle.command_line.specs.Commands.{task};
    ghost use Rattle.command_line.specs.Words.{command_in};

    /// The command whose task this is.
    pub fn command(&self) -> CommandName
        ensures { result ≡ command_in (task self.now) }
    {
        match self {
            Task::Parse(_) => CommandName::Parse,
            Task::Chart(_) => CommandName::Chart,
            Task::Explain(_) => CommandName::Explain,
            Task::Generate(_) => CommandName::Generate,
            Task::Types(_) => CommandName::Types,
            Task::Expand(_, _) => CommandName::Expand,
            Task::Check(_) => CommandName::Check,
            Task::SelfTest(_, _) => CommandName::SelfTest,
            Task::Scope => CommandName::Scope,
            Task::Batch(_, _) => CommandName::Batch,
            Task::Transfer(_) => CommandName::Transfer,
        }
    }
}

/// What the words of the command line ask for.
#[derive(Clone, Copy, Debug, PartialEq, Eq)]
pub enum Command<'a> {
    /// Help: the words are `--help`, `-h` or `help` alone.
    Help,
    /// Help on a command: the words are its word and `--help` or `-h`, or `help` and its word.
    HelpOn(CommandName),
    /// The version: the words are `--version` alone.
    Version,
    /// A command with its options.
    Run(Task<'a>, Options<'a>),
}
