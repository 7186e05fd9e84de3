//! The command that words ask for.
ghost use Rattle.std.specs.Prelude.{◌≡◌, ◌↔◌, IsTrue, ◌<◌, ◌^◌, IfOk, IfErr, MatchOption, map, string_bytes, true, ◌∷◌, option_map};
ghost use Rattle.std.specs.List.{list_all};
ghost use Rattle.std.specs.Str.Parse.{IsNumeral, without_leading_plus};
ghost use Rattle.command_line.specs.Words.{Form, IsForm, FillPlaces, is_name, number_of, name_word, run, help_on, Task as TaskOf, Options as OptionsOf};
ghost use Rattle.command_line.specs.Commands.{form, task, IsAmong, IsFormAmong};
ghost use Rattle.command_line.specs.Inner.Reading.{task_by, is_option_word, is_word, command_named, places_by, places_in, names_in, is_help_flag, one_word_form, two_word_form, told_form};
ghost use Rattle.command_line.specs.declared.reading.WordsFault.{WordsFault};
ghost use Rattle.command_line.specs.declared.tasks.CommandName.{CommandName};

use crate::laws::one_form;
use crate::reading::{Arguments, Places, WordsFault, read_arguments};
use crate::tasks::{Command, CommandName, Task};
use std::alloc::Global;

// Whether the word names something: it isn't empty and doesn't begin with `-`.
fn is_name(word: &str) -> bool
    ensures { result ≡ is_name word.now }
{
    match word.as_bytes() {
        [] => false,
        [first, ..] => *first != b'-',
    }
}

// Whether the word is an option's.
fn is_option_word(word: &str) -> bool
    ensures { result ≡ is_option_word word.now }
{
    word == "--workers"
        || word == "--edges"
        || word == "--readings"
        || word == "--lexical"
        || word == "--unary"
        || word == "--empty"
        || word == "--settings"
        || word == "--mrs"
        || word == "--lattice"
        || word == "--verbose"
}

// Whether the word is an option's or a name.
fn is_word(word: &str) -> bool
    ensures { result ≡ is_word word.now }
{
    is_name(word) || is_option_word(word)
}

// Whether each of these words is an option's or a name.
fn are_words(words: &[String]) -> bool
    ensures { result ≡ list_all is_word (map (λ w. string_bytes w) words.now) }
{
    for word in words {
        if !is_word(word) {
            return false;
        }
    }
    true
}

// The command that goes by this word.
fn command_named(word: &str) -> Option<CommandName>
    ensures { result ≡ command_named word.now }
{
    if word == "parse" {
        Some(CommandName::Parse)
    } else if word == "chart" {
        Some(CommandName::Chart)
    } else if word == "explain" {
        Some(CommandName::Explain)
    } else if word == "generate" {
        Some(CommandName::Generate)
    } else if word == "types" {
        Some(CommandName::Types)
    } else if word == "expand" {
        Some(CommandName::Expand)
    } else if word == "check" {
        Some(CommandName::Check)
    } else if word == "self-test" {
        Some(CommandName::SelfTest)
    } else if word == "scope" {
        Some(CommandName::Scope)
    } else if word == "batch" {
        Some(CommandName::Batch)
    } else if word == "transfer" {
        Some(CommandName::Transfer)
    } else {
        None
    }
}

impl CommandName {
    /// The command that goes by this word.
    pub fn named(word: &str) -> Option<CommandName>
        ensures { MatchOption result ((c : CommandName) → word.now ≡ name_word c → ⊥) (λ c. word.now ≡ name_word c) }
    {
        command_named(word)
    }

    // The places of the command's positional words.
    fn places(&self) -> Places
        ensures { result ≡ places_by self.now }
    {
        match self {
            CommandName::Expand | CommandName::Batch => Places::TwoNames,
            CommandName::SelfTest => Places::TwoNumbers,
            CommandName::Scope => Places::NoPlace,
            CommandName::Parse
            | CommandName::Chart
            | CommandName::Explain
            | CommandName::Generate
            | CommandName::Types
            | CommandName::Check
            | CommandName::Transfer => Places::OneName,
        }
    }

    // The command with its positional words.
    fn task<'a>(&self, arguments: &Arguments<'a>) -> Task<'a>
        requires { FillPlaces (places_in (places_by self.now)) (names_in (places_by self.now) arguments.now.first.now arguments.now.second.now) }
        ensures { task result ≡ task_by self.now arguments.now.first.now arguments.now.second.now }
    {
        match self {
            CommandName::Parse => Task::Parse(arguments.first),
            CommandName::Chart => Task::Chart(arguments.first),
            CommandName::Explain => Task::Explain(arguments.first),
            CommandName::Generate => Task::Generate(arguments.first),
            CommandName::Types => Task::Types(arguments.first),
            CommandName::Expand => Task::Expand(arguments.first, arguments.second),
            CommandName::Check => Task::Check(arguments.first),
            CommandName::SelfTest => Task::SelfTest(
                number(arguments.first),
                number(arguments.second),
            ),
            CommandName::Scope => Task::Scope,
            CommandName::Batch => Task::Batch(arguments.first, arguments.second),
            CommandName::Transfer => Task::Transfer(arguments.first),
        }
    }
}

// The number that a word writes.
fn number(word: &str) -> u64
    ensures { IsNumeral 10 (without_leading_plus word.now) → number_of word.now < 2 ^ 64 → result ≡ number_of word.now }
{
    word.parse::<u64>().unwrap_or(0)
}

// The command of this word with the words after it.
fn command_by<'a>(alloc: Global, word: &str, words: &'a [String]) -> Result<Command<'a>, WordsFault>
    ensures ok { IfOk result (λ c. IsForm (word.now ∷ map (λ w. string_bytes w) words.now) (form c)) }
    ensures usage { IfErr result (λ e. e ≡ WordsFault.Usage → (t : TaskOf) (options : OptionsOf) → IsForm (word.now ∷ map (λ w. string_bytes w) words.now) (run t options) → ⊥) }
{
    let Some(name) = command_named(word) else {
        return Err(WordsFault::Usage);
    };
    if !are_words(words) {
        return Err(WordsFault::Usage);
    }
    match read_arguments(alloc, name.places(), words) {
        Ok(arguments) => Ok(Command::Run(name.task(&arguments), arguments.options)),
        Err(fault) => Err(fault),
    }
}

// Whether the word asks for help.
fn is_help_flag(word: &str) -> bool
    ensures { result ≡ is_help_flag word.now }
{
    word == "--help" || word == "-h"
}

// The form that one word has.
fn of_one<'a>(word: &str) -> Option<Command<'a>>
    ensures { option_map form result ≡ one_word_form word.now }
{
    if is_help_flag(word) || word == "help" {
        Some(Command::Help)
    } else if word == "--version" {
        Some(Command::Version)
    } else {
        None
    }
}

// Help on the command of this word.
fn help_by<'a>(word: &str) -> Option<Command<'a>>
    ensures { option_map form result ≡ option_map (λ c. help_on c) (command_named word.now) }
{
    match command_named(word) {
        Some(name) => Some(Command::HelpOn(name)),
        None => None,
    }
}

// The form that two words have, where it is help on a command.
fn of_two<'a>(first: &str, second: &str) -> Option<Command<'a>>
    ensures { option_map form result ≡ two_word_form first.now second.now }
{
    if first == "help" {
        help_by(second)
    } else if is_help_flag(second) {
        help_by(first)
    } else {
        None
    }
}

// The form of help or of the version that the words have.
fn told(words: &[String]) -> Option<Command<'_>>
    ensures { option_map form result ≡ told_form (map (λ w. string_bytes w) words.now) }
{
    match words {
        [word] => of_one(word),
        [first, second] => of_two(first, second),
        _ => None,
    }
}

/// The command of these words, which don't hold the program's name.
///
/// The first word is a command, and positional words and options come after it in any order, each option once; or the words ask
/// for help (`--help`, `-h` or `help` alone, or with a command's word) or are `--version`. Words of no form are `Usage`. Want of memory may be answered for any words.
pub fn command_of(alloc: Global, words: &[String]) -> Result<Command<'_>, WordsFault>
    ensures ok { IfOk result (λ c. IsForm (map (λ w. string_bytes w) words.now) (form c)) }
    ensures usage { IfErr result (λ e. e ≡ WordsFault.Usage → (f : Form) → IsForm (map (λ w. string_bytes w) words.now) f → ⊥) }
{
    if let Some(command) = told(words) {
        return Ok(command);
    }
    match words {
        [] => Err(WordsFault::Usage),
        [word, rest @ ..] => command_by(alloc, word, rest),
    }
}

// Whether the command, where it is one of a task, is one of `commands`.
fn is_among(commands: &[CommandName], command: &Command<'_>) -> bool
    ensures { IsTrue result ↔ IsAmong commands.now (form command.now) }
{
    match command {
        Command::Help | Command::Version => true,
        Command::HelpOn(name) => commands.contains(name),
        Command::Run(task, _) => commands.contains(&task.command()),
    }
}

/// The command of these words where it is one of `commands`, or help or the version; words of any other are `Usage`.
///
/// A program that hasn't each command yet names those that it has, here alone.
pub fn command_among<'a>(
    alloc: Global,
    commands: &[CommandName],
    words: &'a [String],
) -> Result<Command<'a>, WordsFault>
    ensures ok { IfOk result (λ c. IsFormAmong commands.now (map (λ w. string_bytes w) words.now) (form c)) }
    ensures usage { IfErr result (λ e. e ≡ WordsFault.Usage → (f : Form) → IsFormAmong commands.now (map (λ w. string_bytes w) words.now) f → ⊥) }
{
    one_form();
    match command_of(alloc, words) {
        Ok(command) => {
            if is_among(commands, &command) {
                Ok(command)
            } else {
                Err(WordsFault::Usage)
            }
        }
        Err(fault) => Err(fault),
    }
}
