//! Sets of numbers as words of 64 bits: the number x is bit x % 64 of word x / 64.

ghost use Rattle.std.specs.Prelude.{◌≡◌, ◌≢◌, ℕ, ◌+◌, ◌-◌, ◌*◌, ◌/◌, ◌%◌, ◌<◌, ◌≤◌, ◌^◌, ◌&&◌, ◌||◌, ◌==◌, ◌↔◌, ◌++◌, length, filter, IfOk, OnOk, IsTrue, true, false, All};
ghost use Rattle.std.specs.Int.{bit_at};
ghost use Rattle.std.specs.List.{range_with_len};
ghost use Rattle.type_hierarchy.specs.Bits.{has_bit, bits_below, IsRow};
ghost use Rattle.type_hierarchy.specs.Inner.Reach.{lists};
ghost use Rattle.type_hierarchy.specs.Inner.Rows.{AreEmpty};

use std::alloc::{AllocError, Global};

/// How many words hold the numbers below `count`.
pub fn word_count(count: u32) -> usize
    ensures enough { count ≤ 64 * result }
    ensures no_more { 64 * result < count + 64 }
{
    (count as usize).div_ceil(64)
}

/// Whether the set has the number `x`.
pub fn has(words: &[u64], x: u32) -> bool
    requires { x < 64 * length words.now }
    ensures { result ≡ has_bit words.now x }
{
    let word = words[(x / 64) as usize];
    (word >> (x % 64)) & 1 == 1
}

/// Puts the number `x` into the set.
pub fn add(words: &mut [u64], x: u32)
    requires { x < 64 * length words.old }
    ensures has { has_bit words.new x ≡ true }
    ensures others { (y : ℕ) → y ≢ x → has_bit words.new y ≡ has_bit words.old y }
    ensures row { (n : ℕ) → x < n → IsRow n words.old → IsRow n words.new }
{
    let place = (x / 64) as usize;
    words[place] |= 1 << (x % 64);
}

/// Puts the numbers that the bits of a word stand for at its place into the set.
pub fn add_word(row: &mut Vec<u64>, place: usize, word: u64)
    requires { place < length row.old.items }
    ensures has { (x : ℕ) → x / 64 ≡ place → has_bit row.new.items x ≡ (has_bit row.old.items x || (bit_at word (x % 64) == 1)) }
    ensures others { (x : ℕ) → x / 64 ≢ place → has_bit row.new.items x ≡ has_bit row.old.items x }
    ensures row { (n : ℕ) → ((i : ℕ) → i < 64 → (bit_at word i == 1) ≡ true → 64 * place + i < n) → IsRow n row.old.items → IsRow n row.new.items }
{
    row[place] |= word;
}

/// Puts all members of the other set into the set.
pub fn unite(words: &mut [u64], other: &[u64])
    requires { length words.old ≡ length other.now }
    ensures has { (x : ℕ) → has_bit words.new x ≡ (has_bit words.old x || has_bit other.now x) }
    ensures row { (n : ℕ) → IsRow n words.old → IsRow n other.now → IsRow n words.new }
{
    for i in 0..words.len() {
        words[i] |= other[i];
    }
}

/// Takes out of the set all that the other set lacks.
pub fn retain(words: &mut [u64], other: &[u64])
    requires { length words.old ≡ length other.now }
    ensures has { (x : ℕ) → has_bit words.new x ≡ (has_bit words.old x && has_bit other.now x) }
    ensures row { (n : ℕ) → IsRow n words.old → IsRow n words.new }
{
    for i in 0..words.len() {
        words[i] &= other[i];
    }
}

/// Whether the two sets have no member in common.
pub fn are_disjoint(a: &[u64], b: &[u64]) -> bool
    requires { length a.now ≡ length b.now }
    ensures { IsTrue result ↔ ((x : ℕ) → (has_bit a.now x && has_bit b.now x) ≡ false) }
{
    for i in 0..a.len() {
        if a[i] & b[i] != 0 {
            return false;
        }
    }
    true
}

/// Whether the second set has each member of the first.
pub fn is_subset(a: &[u64], b: &[u64]) -> bool
    requires { length a.now ≡ length b.now }
    ensures { IsTrue result → (x : ℕ) → has_bit a.now x ≡ true → has_bit b.now x ≡ true }
{
    for i in 0..a.len() {
        if a[i] & b[i] != a[i] {
            return false;
        }
    }
    true
}

/// Whether the second set has each member of the first among the 64 numbers of a word.
pub fn is_word_subset(a: &[u64], b: &[u64], word: u32) -> bool
    requires a_in { word < length a.now }
    requires b_in { word < length b.now }
    ensures { IsTrue result → (x : ℕ) → x / 64 ≡ word → has_bit a.now x ≡ true → has_bit b.now x ≡ true }
{
    let i = word as usize;
    if a[i] & b[i] != a[i] {
        return false;
    }
    true
}

// The number at which the first word from this one on begins that has a bit, and `count` where there is none.
fn past_empty(words: &[u64], word: usize, count: u32) -> u32
    requires within { count ≤ 64 * length words.now }
    requires not_past { 64 * word < count + 64 }
    ensures low { (n : ℕ) → n ≤ 64 * word → n ≤ count → n ≤ result }
    ensures high { result ≤ count }
    ensures none_before { (x : ℕ) → 64 * word ≤ x → x < result → has_bit words.now x ≡ false }
{
    let end = word_count(count);
    let mut i = word;
    while i < end {
        let left = words[i];
        if left != 0 {
            return (64 * i) as u32;
        }
        i += 1;
    }
    count
}

/// The first member from `from` on that is below `count`, and `count` where there is none.
pub fn next(words: &[u64], from: u32, count: u32) -> u32
    requires rising { from ≤ count }
    requires within { count ≤ 64 * length words.now }
    ensures low { from ≤ result }
    ensures high { result ≤ count }
    ensures none_before { (x : ℕ) → from ≤ x → x < result → has_bit words.now x ≡ false }
    ensures member { result < count → has_bit words.now result ≡ true }
{
    let mut at = from;
    while at < count {
        let left = words[(at / 64) as usize] >> (at % 64);
        if left != 0 {
            return at.saturating_add(left.trailing_zeros()).min(count);
        }
        at = past_empty(words, (at / 64) as usize + 1, count);
    }
    count
}

/// The members below `count`, in rising order.
pub fn members(alloc: Global, words: &[u64], count: u32) -> Result<Vec<u32>, AllocError>
    requires { count ≤ 64 * length words.now }
    ensures { IfOk result (λ v. v.items ≡ bits_below count words.now) }
{
    let mut found = Vec::new(alloc);
    let mut x = next(words, 0, count);
    while x < count {
        found.push(x)?;
        x = next(words, x + 1, count);
    }
    Ok(found)
}

/// The empty set of numbers below `count`.
pub fn empty(alloc: Global, count: u32) -> Result<Vec<u64>, AllocError>
    ensures row { IfOk result (λ row. IsRow count row.items) }
    ensures none { IfOk result (λ row. (x : ℕ) → has_bit row.items x ≡ false) }
{
    let row = vec![in alloc; 0; word_count(count)]?;
    Ok(row)
}

/// Puts a number into a set where the mark says so.
pub fn mark(row: &mut Vec<u64>, x: u32, is_marked: bool)
    requires { x < 64 * length row.old.items }
    ensures has { has_bit row.new.items x ≡ (has_bit row.old.items x || is_marked) }
    ensures others { (y : ℕ) → y ≢ x → has_bit row.new.items y ≡ has_bit row.old.items y }
    ensures row { (n : ℕ) → x < n → IsRow n row.old.items → IsRow n row.new.items }
{
    if is_marked {
        add(row, x);
    }
}

/// What the two sets have in common.
pub fn common(alloc: Global, a: &[u64], b: &[u64]) -> Result<Vec<u64>, AllocError>
    requires { length a.now ≡ length b.now }
    ensures has { IfOk result (λ v. (x : ℕ) → has_bit v.items x ≡ (has_bit a.now x && has_bit b.now x)) }
    ensures row { IfOk result (λ v. (n : ℕ) → IsRow n a.now → IsRow n v.items) }
{
    let mut row = Vec::from_slice(alloc, a)?;
    retain(&mut row, b);
    Ok(row)
}

/// Puts all members of the other set into the set.
pub fn extend(row: &mut Vec<u64>, other: &[u64])
    requires { length row.old.items ≡ length other.now }
    ensures has { (x : ℕ) → has_bit row.new.items x ≡ (has_bit row.old.items x || has_bit other.now x) }
    ensures row { (n : ℕ) → IsRow n row.old.items → IsRow n other.now → IsRow n row.new.items }
{
    unite(row, other);
}

/// The members of either set.
pub fn united(alloc: Global, a: &[u64], b: &[u64]) -> Result<Vec<u64>, AllocError>
    requires { length a.now ≡ length b.now }
    ensures has { IfOk result (λ v. (x : ℕ) → has_bit v.items x ≡ (has_bit a.now x || has_bit b.now x)) }
    ensures row { IfOk result (λ v. (n : ℕ) → IsRow n a.now → IsRow n b.now → IsRow n v.items) }
{
    let mut row = Vec::from_slice(alloc, a)?;
    unite(&mut row, b);
    Ok(row)
}

/// Empty sets of numbers below `count`, as many as `size` says.
pub fn empty_rows(alloc: Global, size: u32, count: u32) -> Result<Vec<Vec<u64>>, AllocError>
    ensures size { IfOk result (λ rows. length rows.items ≡ size) }
    ensures rows { IfOk result (λ rows. All (λ row. IsRow count row.items) rows.items) }
    ensures none { IfOk result (λ rows. AreEmpty (lists rows.items)) }
{
    let mut rows = Vec::with_capacity(alloc, size as usize)?;
    'rows: while rows.len() < size as usize {
        let row = empty(alloc, count)?;
        rows.push(row)?;
    }
    Ok(rows)
}
