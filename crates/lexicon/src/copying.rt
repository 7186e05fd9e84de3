//! Words that are copied.

ghost use Rattle.std.specs.Prelude.{◌≡◌, map, string_bytes, IfOk};

use crate::NoMemory;
use crate::notes::noted;
use std::alloc::Global;

/// A copy of words, in their order.
pub fn copied(alloc: Global, words: &[String]) -> Result<Vec<String>, NoMemory>
    ensures { IfOk result (λ v. map string_bytes v.items ≡ map string_bytes words.now) }
{
    let mut out = Vec::with_capacity(alloc, words.len())?;
    for word in words {
        out.push(word.clone()?)?;
    }
    Ok(out)
}
