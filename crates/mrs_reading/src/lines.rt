//! Lines read as MRSs.

ghost use Rattle.std.specs.Prelude.{◌≡◌, ◌≤◌, ◌-◌, ◌⊎◌, ℕ, IfOk, IfErr, length};
ghost use Rattle.std.specs.Str.{chars, encode_utf8_all, IsUtf8};
ghost use Rattle.mrs_reading.specs.Places.{Says, IsPlace};
ghost use Rattle.mrs_model.specs.Views.{meaning_of};
ghost use Rattle.mrs_model.specs.Valid.{IsValid};
ghost use Rattle.mrs_reading.specs.Inner.Placing.{IsFaultOf, IsFrontFault};

use crate::building::{Refusal, build};
use mrs_model::{Mrs, NoMemory};
use mrs_spelling::tokens_of;
use std::alloc::Global;

/// Why a line is no text of an MRS.
#[derive(Clone, Copy, Debug, PartialEq, Eq)]
pub enum MrsFault {
    /// No text of the grammar goes on at this byte, or a token that breaks a condition begins there.
    At { at: usize },
    /// Memory was wanting.
    NoMemory,
}

impl From<NoMemory> for MrsFault {
    ghost use Rattle.mrs_reading.specs.declared.lines.MrsFault.{MrsFault};

    ghost from_gives = { λ _ e. e ≡ MrsFault.NoMemory };

    fn from(_error: NoMemory) -> MrsFault {
        MrsFault::NoMemory
    }
}

// The fault of a text where so many bytes are left.
fn fault_at(text: &str, left: usize) -> MrsFault
    requires { left ≤ length text.now }
    ensures { result ≡ MrsFault.At (length text.now - left) }
{
    MrsFault::At {
        at: text.len() - left,
    }
}

fn read_text(alloc: Global, text: &str) -> Result<Mrs, MrsFault>
    ensures found { IfOk result (λ m. Says (meaning_of m) (chars text.now)) }
    ensures valid { IfOk result (λ m. IsValid (meaning_of m)) }
    ensures fault { IfErr result (IsFaultOf (chars text.now)) }
{
    let tokens = tokens_of(alloc, text)?;
    match build(alloc, &tokens.list) {
        Err(Refusal::NoMemory) => Err(MrsFault::NoMemory),
        Err(Refusal::Breaks(left)) => Err(fault_at(text, left)),
        Ok(mrs) => match tokens.stop {
            None => Ok(mrs),
            Some(left) => Err(fault_at(text, left)),
        },
    }
}

/// The MRS that a line of SimpleMRS stands for, which is valid, each elementary predication with its span; or the byte of the line's first fault. `NoMemory`
/// comes only for want of memory.
pub fn read(alloc: Global, line: &[u8]) -> Result<Mrs, MrsFault>
    ensures utf8 { IfOk result (λ _. IsUtf8 line.now) }
    ensures found { IfOk result (λ m. Says (meaning_of m) (chars line.now)) }
    ensures valid { IfOk result (λ m. IsValid (meaning_of m)) }
    ensures fault { IfErr result (λ e. (e ≡ MrsFault.NoMemory) ⊎ ((at : ℕ) × (e ≡ MrsFault.At at) × IsPlace line.now at)) }
{
    match std::str::from_utf8(line) {
        Ok(text) => read_text(alloc, text),
        Err(error) => {
            let at = error.valid_up_to();
            match std::str::from_utf8(&line[..at]) {
                Ok(front) => Err(fault_of(alloc, front)),
                Err(_) => Err(MrsFault::At { at }),
            }
        }
    }
}

// The first fault of a line with these characters at its front, behind which no character stands.
fn fault_of(alloc: Global, front: &str) -> MrsFault
    ensures { IsFrontFault (chars front.now) (length front.now) result }
{
    match read_text(alloc, front) {
        Ok(_) => MrsFault::At { at: front.len() },
        Err(fault) => fault,
    }
}
