//! What stands at the beginning of a text.

ghost use Rattle.std.specs.Prelude.{◌≡◌, codes};
ghost use Rattle.std.specs.Option.{option_map};
ghost use Rattle.std.specs.Str.{chars};
ghost use Rattle.tdl_lexer.specs.Readings.{fault};
ghost use Rattle.tdl_lexer.specs.Pieces.{takes_group, after_blank, after_group_here};
ghost use Rattle.tdl_lexer.specs.Scan.{cut_of, chars_of, kept, skipped, docstring_at, hash_at, colon_at, percent_at, mark_at, signed_at, piece_at, after_front};

use crate::scan::{
    after_front, after_group, after_line, after_mark, after_name, after_names, after_quote, first,
    is_name,
};
use crate::{LexFault, Mode, TokenKind};

/// What stands at the beginning of a text: a token of a kind or what is passed over, where a group may stand after it,
/// and the text that is left.
#[derive(Clone, Copy)]
pub(crate) struct Found<'a> {
    pub(crate) what: Option<TokenKind>,
    pub(crate) next: Mode,
    pub(crate) rest: &'a str,
}

/// A token of a kind, where its end was found.
fn kept(kind: TokenKind, next: Mode, rest: Option<&str>) -> Option<Found<'_>>
    ensures { option_map cut_of result ≡ kept kind next (option_map chars_of rest.entry) }
{
    Some(Found {
        what: Some(kind),
        next,
        rest: rest?,
    })
}

/// A comment or docstring, where its end was found.
fn skipped(next: Mode, rest: Option<&str>) -> Option<Found<'_>>
    ensures { option_map cut_of result ≡ skipped next (option_map chars_of rest.entry) }
{
    Some(Found {
        what: None,
        next,
        rest: rest?,
    })
}

/// Whether a group may stand here.
fn takes_group(mode: Mode) -> bool
    ensures { result ≡ takes_group mode }
{
    mode != Mode::Plain
}

/// Where a group may stand after white space.
fn after_blank(mode: Mode) -> Mode
    ensures { result ≡ after_blank mode }
{
    match mode {
        Mode::Near => Mode::Near,
        _ => Mode::Plain,
    }
}

/// Where a group may stand after a group.
fn after_group_here(mode: Mode) -> Mode
    ensures { result ≡ after_group_here mode }
{
    match mode {
        Mode::Near => Mode::Near,
        _ => Mode::Plain,
    }
}

/// What begins with a quote: a docstring or a string.
fn quoted(after: &str) -> Option<Found<'_>>
    ensures { option_map cut_of result ≡ docstring_at (chars after.now) (after_front (codes "\"\"") (chars after.now)) }
{
    match after_front(after, b"\"\"") {
        Some(rest) => skipped(Mode::Plain, after_mark(rest, b"\"\"\"")),
        None => kept(TokenKind::Text, Mode::Plain, after_quote(after)),
    }
}

/// What begins with `#`: a block comment or a coreference.
fn hashed(after: &str) -> Option<Found<'_>>
    ensures { option_map cut_of result ≡ hash_at (chars after.now) (after_front (codes "|") (chars after.now)) }
{
    match after_front(after, b"|") {
        Some(rest) => skipped(Mode::Plain, after_mark(rest, b"|#")),
        None => kept(TokenKind::Coref, Mode::Plain, after_name(after)),
    }
}

/// What begins with a colon: the longest mark, or a directive.
fn after_colon(after: &str) -> Option<Found<'_>>
    ensures { option_map cut_of result ≡ colon_at (chars after.now) }
{
    if let Some(rest) = after_front(after, b"=") {
        return kept(TokenKind::Defined, Mode::Plain, Some(rest));
    }
    if let Some(rest) = after_front(after, b"<") {
        return kept(TokenKind::Defined, Mode::Plain, Some(rest));
    }
    if let Some(rest) = after_front(after, b"+") {
        return kept(TokenKind::Added, Mode::Plain, Some(rest));
    }
    kept(TokenKind::Directive, Mode::Plain, after_name(after))
}

/// What begins with a percent sign: `%suffix`, `%prefix`, or the `%` of a letter set.
fn after_percent(after: &str) -> Option<Found<'_>>
    ensures { option_map cut_of result ≡ percent_at (chars after.now) }
{
    if let Some(rest) = after_front(after, b"suffix") {
        return kept(TokenKind::Suffix, Mode::Near, Some(rest));
    }
    if let Some(rest) = after_front(after, b"prefix") {
        return kept(TokenKind::Prefix, Mode::Near, Some(rest));
    }
    match after_front(after, b"(") {
        Some(_) => kept(TokenKind::LetterSet, Mode::Direct, Some(after)),
        None => None,
    }
}

/// The longest mark that begins with a character other than a colon.
fn mark(c: char, after: &str) -> Option<Found<'_>>
    ensures { option_map cut_of result ≡ mark_at c (chars after.now) }
{
    match c {
        ',' => kept(TokenKind::Comma, Mode::Plain, Some(after)),
        '[' => kept(TokenKind::AvmOpens, Mode::Plain, Some(after)),
        ']' => kept(TokenKind::AvmCloses, Mode::Plain, Some(after)),
        '&' => kept(TokenKind::And, Mode::Plain, Some(after)),
        '.' => match after_front(after, b"..") {
            Some(rest) => kept(TokenKind::Dots, Mode::Plain, Some(rest)),
            None => kept(TokenKind::Dot, Mode::Plain, Some(after)),
        },
        '<' => match after_front(after, b"!") {
            Some(rest) => kept(TokenKind::DiffOpens, Mode::Plain, Some(rest)),
            None => kept(TokenKind::ListOpens, Mode::Plain, Some(after)),
        },
        '>' => kept(TokenKind::ListCloses, Mode::Plain, Some(after)),
        '!' => kept(TokenKind::DiffCloses, Mode::Plain, after_front(after, b">")),
        _ => None,
    }
}

/// What stands at the beginning of a text that begins with a character of neither white space nor names.
fn signed(c: char, after: &str, mode: Mode) -> Option<Found<'_>>
    ensures { option_map cut_of result ≡ signed_at mode c (chars after.now) }
{
    match c {
        ';' => skipped(Mode::Plain, Some(after_line(after))),
        '"' => quoted(after),
        '#' => hashed(after),
        ':' => after_colon(after),
        '\'' => kept(TokenKind::Symbol, Mode::Plain, after_name(after)),
        '%' => after_percent(after),
        '(' if takes_group(mode) => kept(
            TokenKind::Group,
            after_group_here(mode),
            after_group(after),
        ),
        _ => mark(c, after),
    }
}

/// What stands at the beginning of a text.
pub(crate) fn piece(text: &str, mode: Mode) -> Option<Found<'_>>
    ensures { option_map cut_of result ≡ piece_at mode (chars text.now) }
{
    let (c, after) = first(text)?;
    if c.is_whitespace() {
        return Some(Found {
            what: None,
            next: after_blank(mode),
            rest: after,
        });
    }
    if is_name(c) {
        return kept(TokenKind::Name, Mode::Plain, Some(after_names(after)));
    }
    signed(c, after, mode)
}

/// The fault of a text that no piece begins.
pub(crate) fn fault(text: &str, mode: Mode, at: u32) -> LexFault
    ensures { result ≡ fault mode at (chars text.now) }
{
    let Some((c, after)) = first(text) else {
        return LexFault::BadChar { at };
    };
    if c == '"' {
        return LexFault::OpenString { at };
    }
    if let Some((d, _)) = first(after) {
        if c == '#' && d == '|' {
            return LexFault::OpenComment { at };
        }
    }
    if c == '(' && takes_group(mode) {
        LexFault::OpenGroup { at }
    } else {
        LexFault::BadChar { at }
    }
}
