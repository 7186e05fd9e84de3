//! The numbers that the text of an MRS gives its variables.

ghost use Rattle.std.specs.Prelude.{◌≡◌, ◌<◌, ℕ, length, slice_index, IfOk};
ghost use Rattle.mrs_model.specs.Valid.{IsValid};
ghost use Rattle.mrs_model.specs.Views.{meaning_of};
ghost use Rattle.mrs_text.specs.Written.{number_of};

use crate::seen::Seen;
use crate::text::put_mrs;
use mrs_model::{Mrs, NoMemory};
use std::alloc::Global;

/// The number that `write` gives each variable of a valid MRS: from 0, in order of first occurrence. Its text is made on the way, and let go.
pub fn numbers(alloc: Global, mrs: &Mrs) -> Result<Vec<u32>, NoMemory>
    requires { IsValid (meaning_of mrs.now) }
    ensures size { IfOk result (λ ns. length ns.items ≡ length (meaning_of mrs.now).vars) }
    ensures each { IfOk result (λ ns. (v : ℕ) → v < length ns.items → slice_index ns.items v ≡ number_of (meaning_of mrs.now) v) }
{
    let mut text = Vec::new(alloc);
    let mut seen = Seen::new(alloc, mrs.vars.len())?;
    put_mrs(mrs, &mut seen, &mut text)?;
    seen.numbers(alloc)
}
