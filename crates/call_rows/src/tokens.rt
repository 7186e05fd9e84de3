//! The tokens of texts, the first fault of texts that have none, and the values of tokens.

ghost use Rattle.std.specs.Prelude.{◌<◌, ◌^◌, ◌≡◌, length};
ghost use Rattle.tdl_lexer.specs.Spelling.{has_value};

use crate::steps::{push, unescaped};
use std::alloc::{AllocError, Global};
use tdl_lexer::{Token, TokenKind, tokens, value};

// The tokens of a text with their places, or the fault. In the text `\n` stands for a line end, and `\u{..}` for a character by
// its number.
pub fn of_text(alloc: Global, text: &str, out: &mut Vec<u8>) -> Result<(), AllocError> {
    let text = unescaped(alloc, text)?;
    shown(alloc, text.as_bytes(), out)
}

// The tokens of bytes by their numbers.
pub fn of_bytes(alloc: Global, numbers: &str, out: &mut Vec<u8>) -> Result<(), AllocError> {
    let mut bytes = Vec::new(alloc);
    for number in numbers.split(' ') {
        bytes.push(number.parse::<u8>().unwrap_or(0))?;
    }
    shown(alloc, &bytes, out)
}

fn shown(alloc: Global, source: &[u8], out: &mut Vec<u8>) -> Result<(), AllocError> {
    if source.len() > 100_000 {
        return push(out, "too long");
    }
    match tokens(alloc, source) {
        Ok(found) => push_tokens(alloc, &found, out),
        Err(fault) => push(out, format!(in alloc; "{fault:?}")?.as_str()),
    }
}

fn push_tokens(alloc: Global, tokens: &[Token], out: &mut Vec<u8>) -> Result<(), AllocError> {
    for token in tokens {
        let one = format!(in alloc; "{:?} {} {}, ", token.kind, token.from, token.to)?;
        push(out, one.as_str())?;
    }
    Ok(())
}

// The values of a text's tokens that have one, with a stroke after each.
pub fn values(alloc: Global, text: &str, out: &mut Vec<u8>) -> Result<(), AllocError> {
    let text = unescaped(alloc, text)?;
    if text.len() > 100_000 {
        return push(out, "too long");
    }
    push_values(alloc, text.as_str(), out)
}

fn push_values(alloc: Global, text: &str, out: &mut Vec<u8>) -> Result<(), AllocError>
    requires { length text.now < 2 ^ 32 }
{
    let Ok(found) = tokens(alloc, text.as_bytes()) else {
        return push(out, "no tokens");
    };
    for token in &found {
        if has_value(token.kind) {
            match value(alloc, text, token) {
                Ok(value) => push(out, value.as_str())?,
                Err(_) => push(out, "no memory")?,
            }
            push(out, "/")?;
        }
    }
    Ok(())
}

fn has_value(kind: TokenKind) -> bool
    ensures { result ≡ has_value kind }
{
    match kind {
        TokenKind::Name
        | TokenKind::Text
        | TokenKind::Symbol
        | TokenKind::Coref
        | TokenKind::Directive => true,
        TokenKind::LetterSet
        | TokenKind::Prefix
        | TokenKind::Suffix
        | TokenKind::Group
        | TokenKind::Defined
        | TokenKind::Added
        | TokenKind::And
        | TokenKind::AvmOpens
        | TokenKind::AvmCloses
        | TokenKind::ListOpens
        | TokenKind::ListCloses
        | TokenKind::DiffOpens
        | TokenKind::DiffCloses
        | TokenKind::Comma
        | TokenKind::Dot
        | TokenKind::Dots => false,
    }
}
