//! The nodes of a leaf.

ghost use Rattle.std.specs.Prelude.{◌≡◌, ◌≢◌, ◌<◌, ◌≤◌, ◌^◌, ◌++◌, ◌∷◌, ◌⊎◌, ℕ, Bool, false, MatchOption, IfOk, IfErr, length, take, drop};
ghost use Rattle.std.specs.Fmt.{decimal};
ghost use Rattle.tree_reading.specs.Grammars.{AreNodes};
ghost use Rattle.tree_reading.specs.Inner.Stops.{IsStop, IsNext, IsNumber, BeginsNumber, IsEnding, BeginsEnding, Numbers, ending};

use crate::bytes::strip;
use crate::stops::Stop;

// The number that a digit more makes, without zeros before it.
fn next_of(number: Option<u32>, byte: u8) -> Option<u32>
    ensures { MatchOption result ((n : ℕ) → IsNext number byte n → ⊥) (IsNext number byte) }
{
    if !byte.is_ascii_digit() {
        return None;
    }
    let digit = u32::from(byte - b'0');
    match number {
        None => Some(digit),
        Some(0) => None,
        Some(number) => number.checked_mul(10)?.checked_add(digit),
    }
}

// The number that stands here, and how many digits it has.
fn digits_of(bytes: &[u8]) -> (Option<u32>, usize)
    ensures within { result.1 ≤ length bytes.now }
    ensures number { Numbers bytes.now result.0 (drop result.1 bytes.now) }
{
    let mut number = None;
    for (k, byte) in bytes.iter().enumerate() {
        match next_of(number, *byte) {
            None => return (number, k),
            next => number = next,
        }
    }
    (number, bytes.len())
}

// A number and the byte that ends it, a blank or a parenthesis.
fn read_number(text: &str, end: u8) -> Result<(u32, &str), Stop>
    requires { (end ≡ 32) ⊎ (end ≡ 41) }
    ensures read { IfOk result (λ p. (p.0 < 2 ^ 32) × (text.now ≡ decimal p.0 ++ end ∷ p.1.now)) }
    ensures stopped { IfErr result (IsStop (IsNumber end) (BeginsNumber end) text.now) }
{
    let (number, digits) = digits_of(text.as_bytes());
    let rest = text.split_at(digits).1;
    match number {
        None => Err(Stop::Left(rest.len())),
        Some(number) => match strip(rest, end) {
            None => Err(Stop::Left(rest.len())),
            Some(rest) => Ok((number, rest)),
        },
    }
}

/// The nodes of a leaf, if it has some, and the parenthesis that ends it.
pub(crate) fn read_ending(text: &str) -> Result<(Option<(u32, u32)>, &str), Stop>
    ensures read { IfOk result (λ p. AreNodes p.0 × (text.now ≡ ending p.0 ++ p.1.now)) }
    ensures stopped { IfErr result (IsStop IsEnding BeginsEnding text.now) }
{
    if let Some(rest) = strip(text, b')') {
        return Ok((None, rest));
    }
    let Some(rest) = strip(text, b' ') else {
        return Err(Stop::Left(text.len()));
    };
    let (from, rest) = read_number(rest, b' ')?;
    let (to, rest) = read_number(rest, b')')?;
    Ok((Some((from, to)), rest))
}
