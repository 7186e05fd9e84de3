//! The first word that is outside the form.
ghost use Rattle.std.specs.Prelude.{◌≡◌, ◌∷◌, [], MatchOption, List, ℕ, length, map, string_bytes, codes, ◌⊎◌, slice_get, option_map, true, false};
ghost use Rattle.std.specs.Bool.{Decides};
ghost use Rattle.std.specs.List.{list_any};
ghost use Rattle.std.specs.Str.{bytes_eq};
ghost use Rattle.command_line.specs.Words.{Form, IsForm, is_name, IsHelpFlag};
ghost use Rattle.command_line.specs.Fronts.{IsAt, value_in};
ghost use Rattle.command_line.specs.Faults.{IsFault, is_option_word, is_alone, name_cause, dash_cause, cause_by, cause_at, IsFirstWrong, IsTold};
ghost use Rattle.command_line.specs.WordInner.{Leads, Ends, told_by, after_option};
ghost use Rattle.command_line.specs.declared.places.Place.{Place};

use crate::CommandName;
use crate::faults::{Cause, WordFault};
use crate::places::{
    Place, Wanted, fits, is_help_flag, is_name, name_at, option_wanted, wanted_at,
};

// The place after the first word.
fn after_first(word: &str) -> Option<Place>
    ensures { Leads [] word.now result }
{
    if is_help_flag(word) || word == "--version" {
        Some(Place::PastEnd)
    } else if word == "help" {
        Some(Place::AfterHelp)
    } else {
        match CommandName::named(word) {
            Some(command) => Some(Place::Argument(command, 0)),
            None => None,
        }
    }
}

// The place after `help` and this word.
fn after_help(word: &str) -> Option<Place>
    ensures { Leads (codes "help" ∷ []) word.now result }
{
    match CommandName::named(word) {
        Some(_) => Some(Place::PastEnd),
        None => None,
    }
}

// Whether the word is among these.
fn is_among(before: &[String], word: &str) -> bool
    ensures { result ≡ list_any (λ w. bytes_eq w word.now) (map (λ w. string_bytes w) before.now) }
{
    for other in before {
        if other.as_str() == word {
            return true;
        }
    }
    false
}

// The place after a positional word of the command.
fn after_name(command: CommandName, filled: usize, before: &[String], word: &str) -> Option<Place>
    requires named { is_name word.now ≡ true }
    ensures { IsAt (map (λ w. string_bytes w) before.now) (Place.Argument command filled) → Leads (map (λ w. string_bytes w) before.now) word.now result }
{
    match wanted_at(command, filled) {
        Some(wanted) => {
            if fits(wanted, word) {
                Some(Place::Argument(command, filled + 1))
            } else {
                None
            }
        }
        None => None,
    }
}

// Whether the word asks for help on the command whose word alone is before it.
fn asks_help(before: &[String], word: &str) -> bool
    ensures { Decides result ((length before.now ≡ 1) × IsHelpFlag word.now) }
{
    before.len() == 1 && is_help_flag(word)
}

// The place after an option's word.
fn after_option(command: CommandName, filled: usize, wanted: Wanted) -> Place
    ensures { result ≡ after_option command filled wanted }
{
    match wanted {
        Wanted::Nothing => Place::Argument(command, filled),
        Wanted::Number(least, greatest) => {
            Place::OfOption(command, filled, Wanted::Number(least, greatest))
        }
        Wanted::Name => Place::OfOption(command, filled, Wanted::Name),
    }
}

// The place after an option's word, or one that asks for help, where a positional word could stand too.
fn after_dash(command: CommandName, filled: usize, before: &[String], word: &str) -> Option<Place>
    requires unnamed { is_name word.now ≡ false }
    ensures { IsAt (map (λ w. string_bytes w) before.now) (Place.Argument command filled) → Leads (map (λ w. string_bytes w) before.now) word.now result }
{
    if asks_help(before, word) {
        return Some(Place::PastEnd);
    }
    if is_among(before, word) {
        return None;
    }
    match option_wanted(word) {
        Some(wanted) => Some(after_option(command, filled, wanted)),
        None => None,
    }
}

// The place after a word where an option's word or a positional word may stand.
fn after_argument(
    command: CommandName,
    filled: usize,
    before: &[String],
    word: &str,
) -> Option<Place>
    ensures { IsAt (map (λ w. string_bytes w) before.now) (Place.Argument command filled) → Leads (map (λ w. string_bytes w) before.now) word.now result }
{
    if is_name(word) {
        after_name(command, filled, before, word)
    } else {
        after_dash(command, filled, before, word)
    }
}

// The place after a word, where it may stand at this place after these words.
fn next(place: Place, before: &[String], word: &str) -> Option<Place>
    ensures { IsAt (map (λ w. string_bytes w) before.now) place → Leads (map (λ w. string_bytes w) before.now) word.now result }
{
    match place {
        Place::First => after_first(word),
        Place::AfterHelp => after_help(word),
        Place::PastEnd => None,
        Place::Argument(command, filled) => after_argument(command, filled, before, word),
        Place::OfOption(command, filled, wanted) => {
            if fits(wanted, word) {
                Some(Place::Argument(command, filled))
            } else {
                None
            }
        }
    }
}

// Why a word that begins with `-` is wrong.
fn dash_cause(of_option: Cause, word: &str) -> Cause
    ensures { result ≡ dash_cause of_option word.now }
{
    if option_wanted(word).is_some() {
        of_option
    } else if word == "--help" || word == "-h" || word == "--version" {
        Cause::TooMany
    } else {
        Cause::NoOption
    }
}

// Why a name is wrong where this is wanted, or nothing more.
fn name_cause(wanted: Option<Wanted>) -> Cause
    ensures { result ≡ name_cause (option_map value_in wanted) }
{
    match wanted {
        Some(Wanted::Number(least, greatest)) => Cause::OutOfRange(least, greatest),
        Some(Wanted::Name) | Some(Wanted::Nothing) | None => Cause::TooMany,
    }
}

// Why a word is wrong that stands at this place and isn't empty.
fn cause_by(place: Place, word: &str) -> Cause
    ensures { result ≡ cause_by place word.now }
{
    match place {
        Place::First | Place::AfterHelp => {
            if is_name(word) {
                Cause::NoCommand
            } else {
                dash_cause(Cause::NoCommand, word)
            }
        }
        Place::PastEnd => Cause::TooMany,
        Place::Argument(command, filled) => {
            if is_name(word) {
                name_cause(wanted_at(command, filled))
            } else {
                dash_cause(Cause::SaidTwice, word)
            }
        }
        Place::OfOption(_, _, wanted) => {
            if is_name(word) {
                name_cause(Some(wanted))
            } else {
                Cause::NoValue
            }
        }
    }
}

// Why a word is wrong that stands at this place.
fn cause_at(place: Place, word: &str) -> Cause
    ensures { result ≡ cause_at place word.now }
{
    if word == "" {
        Cause::Empty
    } else {
        cause_by(place, word)
    }
}

// The word that is told: the last one before the wrong word, which is the option's, where its value is missing.
fn told_by<'a>(cause: Cause, last: &'a str, word: &'a str) -> &'a str
    ensures { result.now ≡ told_by cause last.entry.now word.entry.now }
{
    match cause {
        Cause::NoValue => last,
        Cause::NoCommand
        | Cause::NoOption
        | Cause::SaidTwice
        | Cause::OutOfRange(_, _)
        | Cause::TooMany
        | Cause::Empty => word,
    }
}

// The fault of a word that can't stand at this place; `last` is the word before it.
fn wrong<'a>(place: Place, last: &'a str, word: &'a str) -> WordFault<'a>
    ensures { (words before : List (List ℕ)) → IsFirstWrong words before word.entry.now → IsAt before place → Ends before last.entry.now → IsFault words result }
{
    let cause = cause_at(place, word);
    WordFault::Wrong(told_by(cause, last, word), cause)
}

// The fault of words that end at this place; `last` is the last of them.
fn lacking<'a>(place: Place, last: &'a str) -> Option<WordFault<'a>>
    ensures { (words : List (List ℕ)) → IsAt words place → Ends words last.entry.now → MatchOption result ((form : Form) × IsForm words form) (λ fault. IsFault words fault) }
{
    match place {
        Place::First => Some(WordFault::Missing("COMMAND")),
        Place::AfterHelp => None,
        Place::PastEnd => None,
        Place::Argument(command, filled) => match name_at(command, filled) {
            Some(name) => Some(WordFault::Missing(name)),
            None => None,
        },
        Place::OfOption(_, _, _) => Some(WordFault::Wrong(last, Cause::NoValue)),
    }
}

/// What is wrong with these words, which don't hold the program's name, or nothing, where they are of a form.
pub fn first_fault(words: &[String]) -> Option<WordFault<'_>>
    ensures { MatchOption result ((form : Form) × IsForm (map (λ w. string_bytes w) words.now) form) (λ fault. IsFault (map (λ w. string_bytes w) words.now) fault) }
{
    let mut place = Place::First;
    let mut last = "";
    for (at, word) in words.iter().enumerate() {
        match next(place, &words[..at], word) {
            Some(after) => {
                place = after;
                last = word;
            }
            None => return Some(wrong(place, last, word)),
        }
    }
    lacking(place, last)
}
