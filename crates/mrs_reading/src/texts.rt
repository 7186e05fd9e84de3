//! What stands in tokens: strings, predicates and spans.

ghost use Rattle.std.specs.Prelude.{◌≡◌, ◌++◌, ◌∷◌, ◌&&◌, ◌==◌, not, ℕ, List, IfOk, OnOk, IfSome, IfNone};
ghost use Rattle.std.specs.String.{string_bytes};
ghost use Rattle.std.specs.Str.{encode_utf8_all, str_to_ascii_lowercase};
ghost use Rattle.mrs_reading.specs.Meaning.{Normal, IsNumber, Spans, plain, without_escapes};
ghost use Rattle.mrs_model.specs.declared.Extent.{Extent};
ghost use Rattle.mrs_model.specs.Texts.{IsPred};

use mrs_model::{Extent, NoMemory, first};
use std::alloc::Global;

/// The text in ASCII lower case in place of what stood there.
pub(crate) fn lower_into(text: &str, into: &mut String) -> Result<(), NoMemory>
    ensures { OnOk result (string_bytes into.new ≡ str_to_ascii_lowercase text.now) }
{
    into.clear();
    into.push_str(text)?;
    into.make_ascii_lowercase();
    Ok(())
}

// Whether the character is a backslash that stands for the next character.
fn is_escape(escaped: bool, c: char) -> bool
    ensures { result ≡ (not escaped && c == 92) }
{
    !escaped && c == '\\'
}

// One character more of what stands between quotes: whether it stands for the next one.
fn unescape(plain: &mut String, escaped: bool, c: char) -> Result<bool, NoMemory>
    ensures { IfOk result (λ next. (cs : List ℕ) → string_bytes plain.new ++ encode_utf8_all (without_escapes next cs) ≡ string_bytes plain.old ++ encode_utf8_all (without_escapes escaped (c ∷ cs))) }
{
    if is_escape(escaped, c) {
        return Ok(true);
    }
    plain.push(c)?;
    Ok(false)
}

/// What stands between quotes: a backslash stands for the character after it.
pub(crate) fn unquoted(alloc: Global, text: &str) -> Result<String, NoMemory>
    ensures { IfOk result (λ s. string_bytes s ≡ plain text.now) }
{
    let mut plain = String::with_capacity(alloc, text.len())?;
    let mut escaped = false;
    let mut rest = text;
    while let Some((c, after)) = first(rest) {
        escaped = unescape(&mut plain, escaped, c)?;
        rest = after;
    }
    Ok(plain)
}

// A text without an ending `_rel` as often as there is one.
fn bare(pred: &str) -> &str
    ensures { Normal pred.now result.now }
{
    let mut rest = pred;
    while let Some(front) = rest.strip_suffix("_rel") {
        rest = front;
    }
    rest
}

/// A predicate in ASCII lower case, without an ending `_rel` as often as there is one. `work` is a text that is written over.
#[tactic(auto, using(crate::proofs::Valued::pred_is))]
pub fn normalized(alloc: Global, pred: &str, work: &mut String) -> Result<String, NoMemory>
    ensures normal { IfOk result (λ s. Normal (str_to_ascii_lowercase pred.now) (string_bytes s)) }
    ensures predicate { IfOk result (λ s. IsPred (string_bytes s)) }
{
    lower_into(pred, work)?;
    Ok(String::from_str(alloc, bare(work.as_str()))?)
}

// A number in decimal digits, if it is one and makes a u32.
fn number(text: &str) -> Option<u32>
    ensures some { IfSome result (IsNumber text.now) }
    ensures none { IfNone result ((n : ℕ) → IsNumber text.now n → ⊥) }
{
    if text.is_empty() {
        return None;
    }
    let mut number = 0u32;
    for byte in text.as_bytes() {
        if !byte.is_ascii_digit() {
            return None;
        }
        number = number
            .checked_mul(10)?
            .checked_add(u32::from(*byte - b'0'))?;
    }
    Some(number)
}

/// The span that a mark after a predicate is, if it is `A:B` with digits that make a u32 each.
pub(crate) fn span_of(text: &str) -> Option<Extent>
    ensures some { IfSome result (Spans text.now) }
    ensures none { IfNone result ((e : Extent) → Spans text.now e → ⊥) }
{
    let (from, to) = text.split_once(':')?;
    Some(Extent {
        from: number(from)?,
        to: number(to)?,
    })
}
