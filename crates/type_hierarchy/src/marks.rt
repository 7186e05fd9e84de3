//! Marks: which words of a set have members, in one word. With them most questions of two sets are answered by a
//! look at two words, and the others by a look at the words that both have.

ghost use Rattle.std.specs.Prelude.{◌≡◌, ℕ, ◌<◌, ◌/◌, ◌%◌, ◌&&◌, ◌↔◌, length, IfOk, IsTrue, true, false};
ghost use Rattle.std.specs.Int.{bit_at};
ghost use Rattle.type_hierarchy.specs.Bits.{has_bit};
ghost use Rattle.type_hierarchy.specs.Inner.Marks.{bit_of, IsMark, AreMarks};

use std::alloc::{AllocError, Global};

// The mark of a set.
fn mark_of(words: &[u64]) -> u64
    ensures { IsMark words.now result }
{
    let mut mark = 0;
    for i in 0..words.len() {
        if words[i] != 0 {
            mark |= 1 << (i % 64);
        }
    }
    mark
}

/// The marks of sets.
pub fn marks_of(alloc: Global, rows: &[Vec<u64>]) -> Result<Vec<u64>, AllocError>
    ensures { IfOk result (λ marks. AreMarks rows.now marks.items) }
{
    let mut marks = Vec::new(alloc);
    for row in rows {
        marks.push(mark_of(row))?;
    }
    Ok(marks)
}

// Whether no word that the bit stands for has members of both sets.
fn are_disjoint_at(a: &[u64], b: &[u64], bit: u32) -> bool
    requires same_size { length a.now ≡ length b.now }
    requires small { bit < 64 }
    ensures { IsTrue result ↔ ((x : ℕ) → bit_of x ≡ bit → (has_bit a.now x && has_bit b.now x) ≡ false) }
{
    let mut i = bit as usize;
    while i < a.len() {
        if a[i] & b[i] != 0 {
            return false;
        }
        i += 64;
    }
    true
}

/// Whether no word that the mark has a bit for has members of both sets.
pub fn are_disjoint_in(a: &[u64], b: &[u64], mark: u64) -> bool
    requires { length a.now ≡ length b.now }
    ensures { IsTrue result ↔ ((x : ℕ) → bit_at mark (bit_of x) ≡ 1 → (has_bit a.now x && has_bit b.now x) ≡ false) }
{
    let mut left = mark;
    while left != 0 {
        let bit = left.trailing_zeros();
        if !are_disjoint_at(a, b, bit) {
            return false;
        }
        left &= !(1 << bit);
    }
    true
}

// Whether `b` has each member of `a` in the words that the bit stands for.
fn is_subset_at(a: &[u64], b: &[u64], bit: u32) -> bool
    requires same_size { length a.now ≡ length b.now }
    requires small { bit < 64 }
    ensures { IsTrue result ↔ ((x : ℕ) → bit_of x ≡ bit → has_bit a.now x ≡ true → has_bit b.now x ≡ true) }
{
    let mut i = bit as usize;
    while i < a.len() {
        if a[i] & b[i] != a[i] {
            return false;
        }
        i += 64;
    }
    true
}

/// Whether `b` has each member of `a` in the words that the mark has a bit for.
pub fn is_subset_in(a: &[u64], b: &[u64], mark: u64) -> bool
    requires { length a.now ≡ length b.now }
    ensures { IsTrue result ↔ ((x : ℕ) → bit_at mark (bit_of x) ≡ 1 → has_bit a.now x ≡ true → has_bit b.now x ≡ true) }
{
    let mut left = mark;
    while left != 0 {
        let bit = left.trailing_zeros();
        if !is_subset_at(a, b, bit) {
            return false;
        }
        left &= !(1 << bit);
    }
    true
}
