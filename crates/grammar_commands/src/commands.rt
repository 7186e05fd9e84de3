//! The commands, as what makes a report of its files.
ghost use Rattle.std.specs.Prelude.{◌≡◌, option_map, IfOk, map};
ghost use Rattle.endings.specs.Meanings.{shelves};
ghost use Rattle.endings.specs.Endings.{Made};
ghost use Rattle.grammar_load.specs.Conditions.{IsLoaded};
ghost use Rattle.grammar_load.specs.Views.{grammar_of};
ghost use Rattle.grammar_commands.specs.Books.{IsSomeBook};
ghost use Rattle.grammar_commands.specs.Commands.{types_meaning, check_meaning, expand_meaning};

use crate::counting::check_lines;
use crate::expansion::report_on;
use crate::types::type_lines;
use command_files::load_grammar;
use endings::commands::Whole;
use endings::pieces::Report;
use endings::{Fault, Stop};
use lkb_io::Shelf;
use std::alloc::Global;

/// `types`: the types of the grammar of this name, under the settings of the file of that name.
#[derive(Clone, Copy, Debug)]
pub struct Types<'a> {
    pub grammar: &'a str,
    pub settings: Option<&'a str>,
    /// Whether more is told of a fault of its files.
    pub verbose: bool,
}

/// `check`: the counts of the grammar of this name, under the settings of the file of that name.
#[derive(Clone, Copy, Debug)]
pub struct Check<'a> {
    pub grammar: &'a str,
    pub settings: Option<&'a str>,
    /// Whether more is told of a fault of its files.
    pub verbose: bool,
}

/// `expand`: the structure of the type or the instance of the second name, in the grammar of the first.
#[derive(Clone, Copy, Debug)]
pub struct Expand<'a> {
    pub grammar: &'a str,
    pub entry: &'a str,
    pub settings: Option<&'a str>,
    /// Whether more is told of a fault of its files.
    pub verbose: bool,
}

// The report of `types`.
fn types_report<S: Shelf>(
    alloc: Global,
    shelf: &mut S,
    name: &str,
    settings: Option<&str>,
    verbose: bool,
) -> Result<Report, Fault>
    ensures { Made (types_meaning name.now (option_map (λ s. s.now) settings.entry) verbose) (shelves S.files S.faults S.asked shelf.old shelf.new) result }
{
    let grammar = load_grammar(alloc, shelf, name, settings, verbose)?;
    match type_lines(alloc, grammar.book.system.types()) {
        Err(_) => Err(Fault::Stopped(Stop::NoMemory)),
        Ok(lines) => Ok(Report {
            lines,
            refused: false,
        }),
    }
}

// The report of `check`.
fn check_report<S: Shelf>(
    alloc: Global,
    shelf: &mut S,
    name: &str,
    settings: Option<&str>,
    verbose: bool,
) -> Result<Report, Fault>
    ensures { Made (check_meaning name.now (option_map (λ s. s.now) settings.entry) verbose) (shelves S.files S.faults S.asked shelf.old shelf.new) result }
{
    let grammar = load_grammar(alloc, shelf, name, settings, verbose)?;
    match check_lines(alloc, &grammar.book) {
        Err(_) => Err(Fault::Stopped(Stop::NoMemory)),
        Ok(lines) => Ok(Report {
            lines,
            refused: false,
        }),
    }
}

// The report of `expand`.
fn expand_report<S: Shelf>(
    alloc: Global,
    shelf: &mut S,
    name: &str,
    entry: &str,
    settings: Option<&str>,
    verbose: bool,
) -> Result<Report, Fault>
    ensures { Made (expand_meaning name.now entry.now (option_map (λ s. s.now) settings.entry) verbose) (shelves S.files S.faults S.asked shelf.old shelf.new) result }
{
    let grammar = load_grammar(alloc, shelf, name, settings, verbose)?;
    match report_on(alloc, &grammar, entry) {
        Err(_) => Err(Fault::Stopped(Stop::NoMemory)),
        Ok(report) => Ok(report),
    }
}

impl Whole for Types<'_> {
    ghost use Rattle.std.specs.Prelude.{option_map};
    ghost use Rattle.grammar_commands.specs.Commands.{types_meaning};

    ghost meaning = { λ t. types_meaning t.grammar.now (option_map (λ s. s.now) t.settings) t.verbose };

    fn report<S: Shelf>(&self, alloc: Global, shelf: &mut S) -> Result<Report, Fault> {
        types_report(alloc, shelf, self.grammar, self.settings, self.verbose)
    }
}

impl Whole for Check<'_> {
    ghost use Rattle.std.specs.Prelude.{option_map};
    ghost use Rattle.grammar_commands.specs.Commands.{check_meaning};

    ghost meaning = { λ t. check_meaning t.grammar.now (option_map (λ s. s.now) t.settings) t.verbose };

    fn report<S: Shelf>(&self, alloc: Global, shelf: &mut S) -> Result<Report, Fault> {
        check_report(alloc, shelf, self.grammar, self.settings, self.verbose)
    }
}

impl Whole for Expand<'_> {
    ghost use Rattle.std.specs.Prelude.{option_map};
    ghost use Rattle.grammar_commands.specs.Commands.{expand_meaning};

    ghost meaning = { λ e. expand_meaning e.grammar.now e.entry.now (option_map (λ s. s.now) e.settings) e.verbose };

    fn report<S: Shelf>(&self, alloc: Global, shelf: &mut S) -> Result<Report, Fault> {
        expand_report(
            alloc,
            shelf,
            self.grammar,
            self.entry,
            self.settings,
            self.verbose,
        )
    }
}
