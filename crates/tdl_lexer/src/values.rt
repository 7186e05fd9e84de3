//! The values of tokens.

ghost use Rattle.std.specs.Prelude.{◌≡◌, IfOk, string_bytes, encode_utf8_all, IsTrue, true, false};
ghost use Rattle.std.specs.Str.{chars};
ghost use Rattle.tdl_lexer.specs.Spelling.{IsTokenOf, has_value, spelling, value_of, unescaped, lower, after_first};

use crate::scan::first;
use crate::{NoMemory, Token, TokenKind};
use std::alloc::Global;

/// A text in ASCII lower case.
fn lowered(alloc: Global, text: &str) -> Result<String, NoMemory>
    ensures { IfOk result (λ v. string_bytes v ≡ encode_utf8_all (lower (chars text.now))) }
{
    let mut out = String::with_capacity(alloc, text.len())?;
    let mut rest = text;
    while let Some((c, after)) = first(rest) {
        out.push(c.to_ascii_lowercase())?;
        rest = after;
    }
    Ok(out)
}

/// A string up to its closing quote, without escapes.
fn unescaped(alloc: Global, text: &str) -> Result<String, NoMemory>
    ensures { IfOk result (λ v. string_bytes v ≡ encode_utf8_all (unescaped false (chars text.now))) }
{
    let mut out = String::with_capacity(alloc, text.len())?;
    let mut escaped = false;
    let mut rest = text;
    while let Some((c, after)) = first(rest) {
        if !escaped && c == '"' {
            break;
        }
        if !escaped && c == '\\' {
            escaped = true;
        } else {
            out.push(c)?;
            escaped = false;
        }
        rest = after;
    }
    Ok(out)
}

/// The text after its first character, or none of it.
fn tail(text: &str) -> &str
    ensures { chars result.now ≡ after_first (chars text.now) }
{
    match first(text) {
        Some((_, rest)) => rest,
        None => text,
    }
}

/// The value of what a token of a kind spells.
fn value_of(alloc: Global, kind: TokenKind, spelled: &str) -> Result<String, NoMemory>
    ensures { IfOk result (λ v. string_bytes v ≡ encode_utf8_all (value_of kind (chars spelled.now))) }
{
    match kind {
        TokenKind::Name => lowered(alloc, spelled),
        TokenKind::Text => unescaped(alloc, tail(spelled)),
        _ => lowered(alloc, tail(spelled)),
    }
}

/// The text of a token.
pub fn spelled<'a>(text: &'a str, token: &Token) -> &'a str
    requires { IsTokenOf text.now token.now }
    ensures { chars result.now ≡ spelling text.now token.now }
{
    &text[token.from as usize..token.to as usize]
}

/// The value of a token of a text: a name, symbol, coreference or directive in ASCII lower case without the character
/// that marks it, or a string without quotes and escapes.
pub fn value(alloc: Global, text: &str, token: &Token) -> Result<String, NoMemory>
    requires token { IsTokenOf text.now token.now }
    requires kind { IsTrue (has_value token.now.kind) }
    ensures { IfOk result (λ v. string_bytes v ≡ encode_utf8_all (value_of token.now.kind (spelling text.now token.now))) }
{
    value_of(alloc, token.kind, spelled(text, token))
}
