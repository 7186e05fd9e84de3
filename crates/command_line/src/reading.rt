//! The words after a command, as `clap` reads them.
ghost use Rattle.std.specs.Prelude.{◌≡◌, ◌<◌, ◌^◌, IfOk, IfErr, List, ℕ, Some, None, map, string_bytes};
ghost use Rattle.std.specs.Str.Parse.{IsNumeral, without_leading_plus};
ghost use Rattle.clap.specs.Words.{app_of, rows_of, found_of, kind_of, one_text};
ghost use Rattle.command_line.specs.Words.{AreItems, Item, number_of, options_of, AreArguments, Options as OptionsOf};
ghost use Rattle.command_line.specs.Inner.Rules.{app_with};
ghost use Rattle.command_line.specs.Inner.Matches.{Finds, IsRefused, final, item_rows};
ghost use Rattle.command_line.specs.Commands.{options_in};
ghost use Rattle.command_line.specs.Inner.Reading.{AreWords, places_in, names_in};
ghost use Rattle.command_line.specs.declared.reading.WordsFault.{WordsFault};
ghost use Rattle.clap.specs.declared.error.kind.ErrorKind.{ErrorKind};

use crate::definition::{name_place, number_place, with_options};
use crate::options::Options;
use clap::error::ErrorKind;
use clap::{ArgMatches, Command, Error};
use std::alloc::{AllocError, Global};

/// Why words give no command.
#[derive(Clone, Copy, Debug, PartialEq, Eq)]
pub enum WordsFault {
    /// The words are outside the form.
    Usage,
    /// Memory was wanting.
    NoMemory,
}

impl From<AllocError> for WordsFault {
    ghost use Rattle.command_line.specs.declared.reading.WordsFault.{WordsFault};

    ghost from_gives = { λ _ e. e ≡ WordsFault.NoMemory };

    fn from(_fault: AllocError) -> WordsFault {
        WordsFault::NoMemory
    }
}

/// The places of a command's positional words.
#[derive(Clone, Copy)]
pub enum Places {
    /// There is none.
    NoPlace,
    /// A name.
    OneName,
    /// A name and a name.
    TwoNames,
    /// A number of 64 bits, and one from 1 to 1,000.
    TwoNumbers,
}

// The command line with these places.
fn with_places<'a>(alloc: Global, places: Places) -> Result<Command<'a>, AllocError>
    ensures { IfOk result (λ c. app_of c ≡ app_with (places_in places)) }
{
    let command = with_options(alloc)?;
    match places {
        Places::NoPlace => Ok(command),
        Places::OneName => Ok(command.arg(name_place(alloc, "first"))?),
        Places::TwoNames => Ok(
            command
                .arg(name_place(alloc, "first"))?
                .arg(name_place(alloc, "second"))?,
        ),
        Places::TwoNumbers => Ok(
            command
                .arg(number_place(alloc, "first", 0, u64::MAX))?
                .arg(number_place(alloc, "second", 1, 1_000))?,
        ),
    }
}

// Why an error of `clap` gives no command.
fn fault_of(error: &Error) -> WordsFault
    ensures { result ≡ WordsFault.Usage → kind_of error.now ≡ ErrorKind.OutOfMemory → ⊥ }
{
    match error.kind() {
        ErrorKind::OutOfMemory => WordsFault::NoMemory,
        _ => WordsFault::Usage,
    }
}

// What `clap` finds in the words.
fn read<'a>(
    alloc: Global,
    places: Places,
    words: &'a [String],
) -> Result<ArgMatches<'a>, WordsFault>
    requires { AreWords (map (λ w. string_bytes w) words.now) }
    ensures ok { IfOk result (Finds (places_in places) (map (λ w. string_bytes w) words.now)) }
    ensures usage { IfErr result (λ e. e ≡ WordsFault.Usage → IsRefused (places_in places) (map (λ w. string_bytes w) words.now)) }
{
    let command = with_places(alloc, places)?;
    match command.try_get_matches_from(words) {
        Ok(matches) => Ok(matches),
        Err(error) => Err(fault_of(&error)),
    }
}

// The number of an option, or its default where the option doesn't stand.
fn number(matches: &ArgMatches, id: &str, default: u64) -> u64
    ensures absent { one_text (found_of matches.now) id.now ≡ None → result ≡ default }
    ensures given { (t : List ℕ) → one_text (found_of matches.now) id.now ≡ Some t → IsNumeral 10 (without_leading_plus t) → number_of t < 2 ^ 64 → result ≡ number_of t }
{
    matches.get_one::<u64>(id).unwrap_or(default)
}

// The options of the words.
fn options_of<'a>(matches: &ArgMatches<'a>) -> Options<'a>
    ensures { (items : List Item) → rows_of (found_of matches.now) ≡ final (item_rows 0 items) → AreItems items → options_in result ≡ options_of items }
{
    Options {
        workers: number(matches, "workers", 1),
        edges: number(matches, "edges", 5_000),
        readings: number(matches, "readings", 10_000),
        lexical: number(matches, "lexical", 7),
        unary: number(matches, "unary", 8),
        empty: number(matches, "empty", 4),
        settings: matches.get_str("settings"),
        mrs: matches.get_flag("mrs"),
        lattice: matches.get_flag("lattice"),
        verbose: matches.get_flag("verbose"),
    }
}

/// What stands after a command: the positional words, as many as there are places, and the options.
#[derive(Clone, Copy)]
pub struct Arguments<'a> {
    pub first: &'a str,
    pub second: &'a str,
    pub options: Options<'a>,
}

/// The positional words and the options that these words are, where each of them is a name or an option's word.
pub fn read_arguments<'a>(
    alloc: Global,
    places: Places,
    words: &'a [String],
) -> Result<Arguments<'a>, WordsFault>
    requires { AreWords (map (λ w. string_bytes w) words.now) }
    ensures ok { IfOk result (λ a. AreArguments (places_in places) (map (λ w. string_bytes w) words.now) (names_in places a.first.now a.second.now) (options_in a.options)) }
    ensures usage { IfErr result (λ e. e ≡ WordsFault.Usage → (names : List (List ℕ)) (options : OptionsOf) → AreArguments (places_in places) (map (λ w. string_bytes w) words.now) names options → ⊥) }
{
    let matches = read(alloc, places, words)?;
    Ok(Arguments {
        first: matches.get_str("first").unwrap_or(""),
        second: matches.get_str("second").unwrap_or(""),
        options: options_of(&matches),
    })
}
