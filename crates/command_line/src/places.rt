//! What may stand after the words so far.
ghost use Rattle.std.specs.Prelude.{◌≡◌, ◌↔◌, IsTrue, List, [], ◌∷◌, map, string_bytes, option_map, true, false, ℕ};
ghost use Rattle.std.specs.Bool.{Decides};
ghost use Rattle.std.specs.List.{slice_get, list_any};
ghost use Rattle.std.specs.Str.{bytes_eq};
ghost use Rattle.command_line.specs.Words.{is_name, value_of, IsNumber, IsValue, IsHelpFlag};
ghost use Rattle.command_line.specs.Fronts.{values_by, names_by, value_in, IsAt};
ghost use Rattle.command_line.specs.Faults.{is_alone};
ghost use Rattle.command_line.specs.WordInner.{Leads, option_named};
ghost use Rattle.command_line.specs.declared.places.Place.{Place};

use crate::CommandName;

/// What is wanted of a word.
#[derive(Clone, Copy)]
pub enum Wanted {
    /// A number in this range.
    Number(u64, u64),
    /// A name.
    Name,
    /// Nothing: no word is wanted.
    Nothing,
}

/// What stands next after words that go on to a form.
#[derive(Clone, Copy)]
pub enum Place {
    /// The first word.
    First,
    /// A command's word, after `help`.
    AfterHelp,
    /// Nothing more.
    PastEnd,
    /// An option's word, or the command's positional word that so many are before.
    Argument(CommandName, usize),
    /// The value of an option, after so many positional words of the command.
    OfOption(CommandName, usize, Wanted),
}

/// Whether the word is a name: it isn't empty and doesn't begin with `-`.
pub fn is_name(word: &str) -> bool
    ensures { result ≡ is_name word.now }
{
    match word.as_bytes() {
        [] => false,
        [first, ..] => *first != b'-',
    }
}

/// Whether the word asks for help.
pub fn is_help_flag(word: &str) -> bool
    ensures { Decides result (IsHelpFlag word.now) }
{
    word == "--help" || word == "-h"
}

// Whether the word writes a number in this range.
fn is_within(least: u64, greatest: u64, word: &str) -> bool
    ensures { Decides result (IsNumber least greatest word.now) }
{
    match word.parse::<u64>() {
        Ok(number) => least <= number && number <= greatest,
        Err(_) => false,
    }
}

/// Whether the word is what is wanted.
pub fn fits(wanted: Wanted, word: &str) -> bool
    ensures { Decides result (IsValue (value_in wanted) (word.now ∷ [])) }
{
    match wanted {
        Wanted::Number(least, greatest) => is_name(word) && is_within(least, greatest, word),
        Wanted::Name => is_name(word),
        Wanted::Nothing => false,
    }
}

// The first of two, or the second.
fn of_two<T: Copy>(first: T, second: T, at: usize) -> Option<T>
    ensures { result ≡ slice_get (first ∷ second ∷ []) at }
{
    if at == 0 {
        Some(first)
    } else if at == 1 {
        Some(second)
    } else {
        None
    }
}

// The one that there is.
fn of_one<T: Copy>(first: T, at: usize) -> Option<T>
    ensures { result ≡ slice_get (first ∷ []) at }
{
    if at == 0 { Some(first) } else { None }
}

/// What is wanted of the positional word of a command that so many are before.
pub fn wanted_at(command: CommandName, filled: usize) -> Option<Wanted>
    ensures { option_map value_in result ≡ slice_get (values_by command) filled }
{
    match command {
        CommandName::Scope => None,
        CommandName::Expand | CommandName::Batch => of_two(Wanted::Name, Wanted::Name, filled),
        CommandName::SelfTest => of_two(
            Wanted::Number(0, u64::MAX),
            Wanted::Number(1, 1_000),
            filled,
        ),
        CommandName::Parse
        | CommandName::Chart
        | CommandName::Explain
        | CommandName::Generate
        | CommandName::Types
        | CommandName::Check
        | CommandName::Transfer => of_one(Wanted::Name, filled),
    }
}

/// The name of that word, as help writes it.
pub fn name_at(command: CommandName, filled: usize) -> Option<&'static str>
    ensures { option_map (λ s. s.now) result ≡ slice_get (names_by command) filled }
{
    match command {
        CommandName::Scope => None,
        CommandName::Expand => of_two("GRAMMAR", "NAME", filled),
        CommandName::Batch => of_two("GRAMMAR", "PROFILE", filled),
        CommandName::SelfTest => of_two("NUMBER", "SIZE", filled),
        CommandName::Transfer => of_one("RULES", filled),
        CommandName::Parse
        | CommandName::Chart
        | CommandName::Explain
        | CommandName::Generate
        | CommandName::Types
        | CommandName::Check => of_one("GRAMMAR", filled),
    }
}

/// What is wanted after the option of this word.
pub fn option_wanted(word: &str) -> Option<Wanted>
    ensures { option_map value_in result ≡ option_map value_of (option_named word.now) }
{
    if word == "--workers" {
        Some(Wanted::Number(1, 64))
    } else if word == "--edges" {
        Some(Wanted::Number(1, 20_000))
    } else if word == "--readings" {
        Some(Wanted::Number(1, 100_000))
    } else if word == "--lexical" {
        Some(Wanted::Number(0, 15))
    } else if word == "--unary" {
        Some(Wanted::Number(0, 32))
    } else if word == "--empty" {
        Some(Wanted::Number(0, 16))
    } else if word == "--settings" {
        Some(Wanted::Name)
    } else if word == "--mrs" {
        Some(Wanted::Nothing)
    } else if word == "--lattice" {
        Some(Wanted::Nothing)
    } else if word == "--verbose" {
        Some(Wanted::Nothing)
    } else {
        None
    }
}
