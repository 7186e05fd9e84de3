//! Texts that are written beside texts that came.
ghost use Rattle.std.specs.Prelude.{◌≡◌, ◌+◌, ◌-◌, ◌<◌, ◌≤◌, ◌^◌, ◌∷◌, ◌||◌, not, cond, ℕ, List, length, map, filter, IfOk, OnOk};
ghost use Rattle.std.specs.Str.{bytes_eq};
ghost use Rattle.profile_reports.specs.Inner.{has, HasJust, IsCountOf};

use crate::NoMemory;
use std::alloc::Global;
use std::collections::HashSet;

// Puts a text into a set, and tells whether it is new there.
fn put<'a>(set: &mut HashSet<&'a [u8]>, text: &'a [u8]) -> Result<bool, NoMemory>
    ensures new { IfOk result (λ new. new ≡ not (has set.old text.now)) }
    ensures has { OnOk result ((t : List ℕ) → has set.new t ≡ (bytes_eq t text.now || has set.old t)) }
{
    Ok(set.insert(text)?)
}

// The set of some texts.
pub(crate) fn set_of<'a>(alloc: Global, texts: &'a [Vec<u8>]) -> Result<HashSet<&'a [u8]>, NoMemory>
    ensures { IfOk result (λ s. HasJust s (map (λ t. t.items) texts.now)) }
{
    let mut set = HashSet::with_capacity(alloc, texts.len())?;
    let mut i = texts.len();
    while i > 0 {
        i -= 1;
        put(&mut set, texts[i].as_slice())?;
    }
    Ok(set)
}

// The texts that are written as a set, how many of them are among those that came, and how many aren't.
#[derive(Drop)]
pub(crate) struct Counted<'a> {
    pub(crate) texts: HashSet<&'a [u8]>,
    pub(crate) kept: u32,
    pub(crate) lost: u32,
}

// Counts one text more, if it wasn't counted before.
fn count<'a>(
    counted: &mut Counted<'a>,
    came: &HashSet<&[u8]>,
    text: &'a [u8],
) -> Result<(), NoMemory>
    requires { counted.old.kept + counted.old.lost < 2 ^ 32 - 1 }
    ensures counted { OnOk result ((texts : List (List ℕ)) → IsCountOf (has came.now) texts counted.old → IsCountOf (has came.now) (text.now ∷ texts) counted.new) }
    ensures room { OnOk result (counted.new.kept + counted.new.lost ≤ counted.old.kept + counted.old.lost + 1) }
{
    let new = put(&mut counted.texts, text)?;
    if !new {
        return Ok(());
    }
    if came.contains(text) {
        counted.kept += 1;
        return Ok(());
    }
    counted.lost += 1;
    Ok(())
}

// Counts the texts that are written, each once, by whether they came. (From the last on: a text is counted where it doesn't stand again
// after its place.)
pub(crate) fn count_all<'a>(
    alloc: Global,
    written: &'a [Vec<u8>],
    came: &HashSet<&[u8]>,
) -> Result<Counted<'a>, NoMemory>
    requires { length written.now < 2 ^ 32 }
    ensures { IfOk result (λ c. IsCountOf (has came.now) (map (λ t. t.items) written.now) c) }
{
    let mut counted = Counted {
        texts: HashSet::with_capacity(alloc, written.len())?,
        kept: 0,
        lost: 0,
    };
    let mut i = written.len();
    while i > 0 {
        i -= 1;
        count(&mut counted, came, written[i].as_slice())?;
    }
    Ok(counted)
}

// 1 for a text that isn't in the set.
fn missing(set: &HashSet<&[u8]>, text: &[u8]) -> u32
    ensures value { result ≡ cond (not (has set.now text.now)) 1 0 }
    ensures small { result ≤ 1 }
{
    if set.contains(text) { 0 } else { 1 }
}

// How many of the texts that came aren't written.
pub(crate) fn count_gained(written: &HashSet<&[u8]>, came: &[Vec<u8>]) -> u32
    requires { length came.now < 2 ^ 32 }
    ensures { result ≡ length (filter (λ t. not (has written.now t)) (map (λ t. t.items) came.now)) }
{
    let mut gained = 0;
    for text in came {
        gained += missing(written, text.as_slice());
    }
    gained
}
