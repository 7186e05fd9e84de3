//! The command line as `clap` reads it: the options, and the places of the positional words.
ghost use Rattle.std.specs.Prelude.{◌≡◌, false, IfOk};
ghost use Rattle.clap.specs.Words.{rule_of, app_of};
ghost use Rattle.command_line.specs.Words.{Value, in_range, name, nothing};
ghost use Rattle.command_line.specs.Inner.Rules.{option_rule_by, place_rule_by, options_app};

use clap::builder::ValueParser;
use clap::{Arg, ArgAction, Command};
use std::alloc::{AllocError, Global};

// An option whose value is a number in this range.
fn number_option<'a>(alloc: Global, id: &'a str, least: u64, greatest: u64) -> Arg<'a>
    ensures rule { rule_of result ≡ option_rule_by (in_range least greatest) id.entry.now }
    ensures local { result.global ≡ false }
{
    Arg::new(alloc, id)
        .long(id)
        .value_parser(ValueParser::unsigned(least, greatest))
}

// An option whose value is a name.
fn name_option<'a>(alloc: Global, id: &'a str) -> Arg<'a>
    ensures rule { rule_of result ≡ option_rule_by name id.entry.now }
    ensures local { result.global ≡ false }
{
    Arg::new(alloc, id).long(id)
}

// An option without a value.
fn flag<'a>(alloc: Global, id: &'a str) -> Arg<'a>
    ensures rule { rule_of result ≡ option_rule_by nothing id.entry.now }
    ensures local { result.global ≡ false }
{
    Arg::new(alloc, id).long(id).action(ArgAction::SetTrue)
}

/// The place of a positional word that is a name.
pub fn name_place<'a>(alloc: Global, id: &'a str) -> Arg<'a>
    ensures rule { rule_of result ≡ place_rule_by name id.entry.now }
    ensures local { result.global ≡ false }
{
    Arg::new(alloc, id).required(true)
}

/// The place of a positional word that is a number in this range.
pub fn number_place<'a>(alloc: Global, id: &'a str, least: u64, greatest: u64) -> Arg<'a>
    ensures rule { rule_of result ≡ place_rule_by (in_range least greatest) id.entry.now }
    ensures local { result.global ≡ false }
{
    Arg::new(alloc, id)
        .required(true)
        .value_parser(ValueParser::unsigned(least, greatest))
}

/// A command line with each option, and no positional word.
pub fn with_options<'a>(alloc: Global) -> Result<Command<'a>, AllocError>
    ensures { IfOk result (λ c. app_of c ≡ options_app) }
{
    Command::new(alloc, "lkb")
        .no_binary_name(true)
        .disable_help_flag(true)
        .arg(number_option(alloc, "workers", 1, 64))?
        .arg(number_option(alloc, "edges", 1, 20_000))?
        .arg(number_option(alloc, "readings", 1, 100_000))?
        .arg(number_option(alloc, "lexical", 0, 15))?
        .arg(number_option(alloc, "unary", 0, 32))?
        .arg(number_option(alloc, "empty", 0, 16))?
        .arg(name_option(alloc, "settings"))?
        .arg(flag(alloc, "mrs"))?
        .arg(flag(alloc, "lattice"))?
        .arg(flag(alloc, "verbose"))
}
